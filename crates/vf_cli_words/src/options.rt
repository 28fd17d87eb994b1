//! The options of a command line: which there are, in which form their values are, and which of them each command has.
ghost use Rattle.std.specs.Prelude.{◌≡◌, ◌≤◌, ◌<◌, IfSome, List, None, Some, length, map, option_copied, string_bytes};
ghost use Rattle.std.specs.List.{list_all, position};
ghost use Rattle.vf_base.specs.Name.{is_name as name_test, is_printable};
ghost use Rattle.vf_cli_words.specs.Given.{first_of, given_of};
ghost use Rattle.vf_cli_words.specs.Words.{all_fit, begins_badly as badly_test, begins_with_dash as dash_test, fits as fits_test, given_in, is_digit as digit_test, is_equals, is_value as value_test, key_named as key_meant, number_at, number_in as number_meant, place_of, range_of as range_meant, use_of as use_meant, value_of, with_option as option_meant, with_value, fits_range as range_test};

use crate::command::Command;

/// An option.
#[derive(Clone, Copy, PartialEq, Eq)]
pub enum Key {
    Store,
    Host,
    Port,
    Name,
    User,
    Password,
    Kind,
    Activity,
    Tries,
    Every,
    Idle,
    Number,
    Count,
}

/// How many options there are.
const KEYS: usize = 13;

const ALL_KEYS: [Key; KEYS] = [
    Key::Store,
    Key::Host,
    Key::Port,
    Key::Name,
    Key::User,
    Key::Password,
    Key::Kind,
    Key::Activity,
    Key::Tries,
    Key::Every,
    Key::Idle,
    Key::Number,
    Key::Count,
];

/// The least and the most that a number may be.
#[derive(Clone, Copy, PartialEq, Eq)]
pub struct Range {
    pub least: u32,
    pub most: u32,
}

/// Whether a command has an option.
#[derive(Clone, Copy)]
pub(crate) enum Use {
    Required,
    Optional,
    Unknown,
}

/// The options that words give, each with its value.
#[derive(Clone, Copy)]
pub struct Options<'a> {
    values: [Option<&'a [u8]>; KEYS],
}

/// The option with which words begin, and the words after it.
#[derive(Clone, Copy)]
struct First<'a> {
    name: &'a [u8],
    value: &'a [u8],
    later: &'a [String],
}

impl Key {
    /// Its place among all options.
    fn place(self) -> usize
        ensures place { result ≡ place_of self }
        ensures bound { result < 13 }
    {
        self as usize
    }

    /// The least and the most of an option that is a number.
    fn range(self) -> Option<Range>
        ensures { result ≡ range_meant self }
    {
        match self {
            Key::Port => Some(Range {
                least: 1,
                most: 65_535,
            }),
            Key::Kind => Some(Range { least: 1, most: 3 }),
            Key::Activity => Some(Range {
                least: 1,
                most: 2_147_483_647,
            }),
            Key::Tries => Some(Range {
                least: 0,
                most: 100,
            }),
            Key::Every => Some(Range {
                least: 1,
                most: 10_000,
            }),
            Key::Idle => Some(Range {
                least: 1,
                most: 1_000_000_000,
            }),
            Key::Number => Some(Range {
                least: 0,
                most: 4_294_967_295,
            }),
            Key::Count => Some(Range {
                least: 1,
                most: 1_000,
            }),
            Key::Store | Key::Host | Key::Name | Key::User | Key::Password => None,
        }
    }
}

/// The option of a name.
fn key_named(name: &[u8]) -> Option<Key>
    ensures { result ≡ key_meant name.now }
{
    if name == b"--store".as_slice() {
        return Some(Key::Store);
    }
    if name == b"--host".as_slice() {
        return Some(Key::Host);
    }
    if name == b"--port".as_slice() {
        return Some(Key::Port);
    }
    if name == b"--name".as_slice() {
        return Some(Key::Name);
    }
    if name == b"--user".as_slice() {
        return Some(Key::User);
    }
    if name == b"--password".as_slice() {
        return Some(Key::Password);
    }
    if name == b"--kind".as_slice() {
        return Some(Key::Kind);
    }
    if name == b"--activity".as_slice() {
        return Some(Key::Activity);
    }
    if name == b"--tries".as_slice() {
        return Some(Key::Tries);
    }
    if name == b"--every".as_slice() {
        return Some(Key::Every);
    }
    if name == b"--idle".as_slice() {
        return Some(Key::Idle);
    }
    if name == b"--number".as_slice() {
        return Some(Key::Number);
    }
    if name == b"--count".as_slice() {
        return Some(Key::Count);
    }
    None
}

/// Whether a command has an option.
fn use_of(command: Command, key: Key) -> Use
    ensures { result ≡ use_meant command key }
{
    match command {
        Command::Dialogue | Command::Replay => Use::Unknown,
        Command::InitStore | Command::ListFiles | Command::ListDockets => match key {
            Key::Store => Use::Required,
            _ => Use::Unknown,
        },
        Command::DropKept => match key {
            Key::Store | Key::Activity => Use::Required,
            Key::User => Use::Optional,
            _ => Use::Unknown,
        },
        Command::Serve => match key {
            Key::Store | Key::Port => Use::Required,
            Key::Idle => Use::Optional,
            _ => Use::Unknown,
        },
        Command::Put | Command::Get => match key {
            Key::Store | Key::Host | Key::Port | Key::Name | Key::User => Use::Required,
            Key::Password | Key::Kind | Key::Activity | Key::Tries | Key::Every => Use::Optional,
            _ => Use::Unknown,
        },
        Command::Generate => match key {
            Key::Store | Key::Number | Key::Count => Use::Required,
            _ => Use::Unknown,
        },
    }
}

impl<'a> Options<'a> {
    /// The value of an option, where the words give it.
    pub fn value(self, key: Key) -> Option<&'a [u8]>
        ensures { option_copied result ≡ value_of key (given_of self.entry) }
    {
        self.values[key.place()]
    }

    /// The number that is the value of an option, where the words give one in its range.
    pub fn number(self, key: Key) -> Option<u32>
        ensures number { result ≡ number_at key (given_of self.entry) }
        ensures bound { IfSome result (λ number. IfSome (range_meant key) (λ range. number ≤ range.most)) }
    {
        let range = key.range()?;
        number_in(self.value(key)?, range)
    }

    /// Whether these are options of a command: the required ones are there, no other one is, and numbers are in their ranges.
    pub(crate) fn fit(self, command: Command) -> bool
        ensures { result ≡ all_fit command (given_of self.entry) }
    {
        ALL_KEYS.iter().all(|key| self.fits(command, *key))
    }

    fn fits(self, command: Command, key: Key) -> bool
        ensures { result ≡ fits_test command (given_of self.entry) key }
    {
        match (use_of(command, key), self.value(key)) {
            (Use::Required, None) => false,
            (Use::Unknown, Some(_)) => false,
            (_, None) => true,
            (_, Some(value)) => fits_range(key.range(), value),
        }
    }

    /// With an option more, which didn't stand before.
    fn with(self, key: Key, value: &'a [u8]) -> Option<Options<'a>>
        ensures some { IfSome result (λ more. with_value (Some key) (given_of self.entry) value.now ≡ Some (given_of more)) }
        ensures none { result ≡ None → with_value (Some key) (given_of self.entry) value.now ≡ None }
    {
        if self.value(key).is_some() {
            return None;
        }
        let mut values = self.values;
        values[key.place()] = Some(value);
        Some(Options { values })
    }
}

/// Whether a value is in the form of its option.
fn fits_range(range: Option<Range>, value: &[u8]) -> bool
    ensures { result ≡ range_test range value.now }
{
    match range {
        None => true,
        Some(range) => number_in(value, range).is_some(),
    }
}

/// The options that these words are, each once at most.
pub(crate) fn options_in(words: &[String]) -> Option<Options<'_>>
    ensures some { IfSome result (λ options. given_in (map string_bytes words.now) ≡ Some (given_of options)) }
    ensures none { result ≡ None → given_in (map string_bytes words.now) ≡ None }
{
    let mut options = Options {
        values: [None; KEYS],
    };
    let mut rest = words;
    while let [word, later @ ..] = rest {
        let first = first_option(word.as_bytes(), later)?;
        options = with_option(options, first.name, first.value)?;
        rest = first.later;
    }
    Some(options)
}

/// The option with which words begin, whose first one this is.
fn first_option<'a>(word: &'a [u8], later: &'a [String]) -> Option<First<'a>>
    ensures some { IfSome result (λ first. first_of word.now (map string_bytes later.now) ≡ Some (record { name = first.name.now; value = first.value.now; later = map string_bytes first.later.now })) }
    ensures none { result ≡ None → first_of word.now (map string_bytes later.now) ≡ None }
    ensures less { IfSome result (λ first. length first.later.now ≤ length later.now) }
{
    if let Some(place) = place_of_equals(word) {
        let (name, value) = word.split_at(place);
        let (_, value) = value.split_at(1);
        return Some(First { name, value, later });
    }
    match later {
        [] => None,
        [value, later @ ..] => Some(First {
            name: word,
            value: value.as_bytes(),
            later,
        }),
    }
}

fn place_of_equals(word: &[u8]) -> Option<usize>
    ensures { result ≡ position is_equals word.now }
{
    word.iter().position(|octet| *octet == b'=')
}

/// One option more, by its name.
fn with_option<'a>(options: Options<'a>, name: &[u8], value: &'a [u8]) -> Option<Options<'a>>
    ensures some { IfSome result (λ more. option_meant (given_of options.entry) name.now value.now ≡ Some (given_of more)) }
    ensures none { result ≡ None → option_meant (given_of options.entry) name.now value.now ≡ None }
{
    if !is_value(value) {
        return None;
    }
    let key = key_named(name)?;
    options.with(key, value)
}

/// The number of this range whose decimal digits, without leading zeros, these are.
fn number_in(digits: &[u8], range: Range) -> Option<u32>
    ensures value { result ≡ number_meant digits.now range }
    ensures bound { IfSome result (λ number. number ≤ range.most) }
{
    if begins_badly(digits) {
        return None;
    }
    let mut number = 0_u64;
    for digit in digits {
        if !is_digit(*digit) {
            return None;
        }
        number = 10 * number + (*digit - b'0') as u64;
        if number > range.most as u64 {
            return None;
        }
    }
    if number < range.least as u64 {
        return None;
    }
    Some(number as u32)
}

/// Whether digits begin as no number does: there is none, or a zero stands before others.
fn begins_badly(digits: &[u8]) -> bool
    ensures { result ≡ badly_test digits.now }
{
    match digits {
        [] => true,
        [_] => false,
        [first, ..] => *first == b'0',
    }
}

fn is_digit(octet: u8) -> bool
    ensures { result ≡ digit_test octet }
{
    (b'0'..=b'9').contains(&octet)
}

/// Whether a text is a value: a name that doesn't begin with `-`.
fn is_value(text: &[u8]) -> bool
    ensures { result ≡ value_test text.now }
{
    !begins_with_dash(text) && is_name(text)
}

fn begins_with_dash(text: &[u8]) -> bool
    ensures { result ≡ dash_test text.now }
{
    match text {
        [] => false,
        [first, ..] => *first == b'-',
    }
}

fn is_name(text: &[u8]) -> bool
    ensures { result ≡ name_test text.now }
{
    if text.is_empty() || text.len() > 255 {
        return false;
    }
    all_printable(text)
}

fn all_printable(text: &[u8]) -> bool
    ensures { result ≡ list_all is_printable text.now }
{
    text.iter().all(|octet| (b' '..=b'~').contains(octet))
}
