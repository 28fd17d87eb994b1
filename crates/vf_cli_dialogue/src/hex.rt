//! Octets as text in hexadecimal: two digits an octet, the high half first, each 0 to 9 or A to F.
ghost use Rattle.std.specs.Prelude.{◌≡◌, ◌+◌, ◌*◌, ◌/◌, ◌≤◌, ◌<◌, ◌++◌, [], length, vec_len, vec_capacity, slice_index, IfOk, IfSome, OnOk, OnErr};
ghost use Rattle.vf_cli_dialogue.specs.Hex.{IsHalfOf, Spells, Takes, TakesOctets, TakesPairs, digit_of, first_digits, first_half_of, half_of, hex_of};
ghost use Rattle.vf_cli_dialogue.specs.Lines.{IsInLine, hex_line};

use std::alloc::Global;
use std::marker::Model;
use std::mem;
use vf_base::NoMemory;

/// So many octets are written at once where there are as many, by a loop of fixed length without branches, which the
/// compiler makes vector instructions of.
const RUN: usize = 32;

/// The digits of so many octets.
const RUN_DIGITS: usize = 64;

/// Appends the line that spells octets to a text that has room for it.
pub(crate) fn put_hex_line(octets: &[u8], text: &mut Vec<u8>)
    requires { vec_len text.old + 2 * length octets.now < vec_capacity text.old }
    ensures { text.new.items ≡ text.old.items ++ hex_line octets.now }
{
    let done = put_runs(octets, text);
    let (_, rest) = octets.split_at(done);
    put_each(rest, text);
    text.push_reserved(10);
}

/// Appends the digits of the octets that stand in whole runs, and says how many these are.
fn put_runs(octets: &[u8], text: &mut Vec<u8>) -> usize
    requires { vec_len text.old + 2 * length octets.now ≤ vec_capacity text.old }
    ensures items { text.new.items ≡ text.old.items ++ first_digits result octets.now }
    ensures within { result ≤ length octets.now }
    ensures len { vec_len text.new ≡ vec_len text.old + 2 * result }
    ensures capacity { vec_capacity text.old ≤ vec_capacity text.new }
{
    let runs = octets.len() / RUN;
    for run in 0..runs {
        let at = RUN * run;
        let digits = digits_of_run(&octets[at..at + RUN]);
        text.extend_from_slice(&digits).unwrap();
    }
    RUN * runs
}

/// Appends the digits of octets one by one.
fn put_each(octets: &[u8], text: &mut Vec<u8>)
    requires { vec_len text.old + 2 * length octets.now ≤ vec_capacity text.old }
    ensures items { text.new.items ≡ text.old.items ++ hex_of octets.now }
    ensures len { vec_len text.new ≡ vec_len text.old + 2 * length octets.now }
    ensures capacity { vec_capacity text.old ≤ vec_capacity text.new }
{
    for octet in octets {
        text.push_reserved(digit(*octet / 16));
        text.push_reserved(digit(*octet % 16));
    }
}

/// The digits of a run of octets.
fn digits_of_run(octets: &[u8]) -> [u8; RUN_DIGITS]
    requires { length octets.now ≡ 32 }
    ensures value { result ≡ hex_of octets.now }
    ensures len { length result ≡ 64 }
{
    let mut digits = [0; RUN_DIGITS];
    for place in 0..RUN {
        let octet = octets[place];
        digits[2 * place] = digit(octet / 16);
        digits[2 * place + 1] = digit(octet % 16);
    }
    digits
}

/// The digits of a line as far as it was read, which are kept as the octets that they spell.
#[derive(Drop)]
pub(crate) struct Digits {
    octets: Vec<u8>,
    /// The half octet of a last digit that has no partner yet.
    high: Option<u8>,
}

impl Model for Digits {
    ghost use Rattle.std.specs.Prelude.{◌<◌, ◌++◌, All, IfSome, List, ℕ};
    ghost use Rattle.vf_cli_dialogue.specs.Hex.{half_text, hex_of};

    ghost Value = { List ℕ };

    ghost view = { λ digits. hex_of digits.octets.items ++ half_text digits.high };

    ghost invariant = { λ digits. All (λ octet. octet < 256) digits.octets.items × IfSome digits.high (λ half. half < 16) };
}

impl Digits {
    pub(crate) fn new(alloc: Global) -> Digits
        ensures { result ≡ [] }
    {
        Digits {
            octets: Vec::new(alloc),
            high: None,
        }
    }

    pub(crate) fn len(&self) -> usize
        ensures { result ≡ length self.now }
    {
        let whole = 2 * self.octets.len();
        match self.high {
            Some(_) => whole + 1,
            None => whole,
        }
    }

    /// Takes the digits that a text begins with, and says how many these are. Without memory it takes none.
    pub(crate) fn take(&mut self, text: &[u8]) -> Result<usize, NoMemory>
        ensures ok { IfOk result (λ count. Takes self.old self.new text.now count) }
        ensures line { IsInLine self.new }
        ensures err { OnErr result (self.new ≡ self.old) }
    {
        self.octets.reserve(text.len() / 2 + 1)?;
        let (count, high) = take_digits(&mut self.octets, self.high, text);
        self.high = high;
        Ok(count)
    }

    /// Gives the octets that the digits spell, one at least, in place of what `octets` has, and forgets the digits; or
    /// says that they spell none.
    pub(crate) fn finish(&mut self, octets: &mut Vec<u8>) -> bool
        ensures { Spells self.old self.new octets.old.items octets.new.items result }
    {
        if self.octets.is_empty() || self.high.is_some() {
            return false;
        }
        octets.clear();
        mem::swap(&mut self.octets, octets);
        true
    }
}

/// Appends the octets of the digits that a text begins with, after half an octet that waits for its other half. Says
/// how many digits these are, and which half octet waits then.
fn take_digits(octets: &mut Vec<u8>, high: Option<u8>, text: &[u8]) -> (usize, Option<u8>)
    requires room { vec_len octets.old + length text.now / 2 < vec_capacity octets.old }
    requires small { IfSome high (λ half. half < 16) }
    ensures { TakesOctets octets.old.items high octets.new.items result.1 text.now result.0 }
{
    let Some(high) = high else {
        return take_pairs(octets, text);
    };
    let Some(low) = first_half(text) else {
        return (0, Some(high));
    };
    octets.push_reserved(high * 16 + low);
    let (_, rest) = text.split_at(1);
    let (count, high) = take_pairs(octets, rest);
    (1 + count, high)
}

/// The same where no half octet waits.
fn take_pairs(octets: &mut Vec<u8>, text: &[u8]) -> (usize, Option<u8>)
    requires { vec_len octets.old + length text.now / 2 ≤ vec_capacity octets.old }
    ensures { TakesOctets octets.old.items None octets.new.items result.1 text.now result.0 }
{
    let count = 2 * append_pairs(octets, text);
    let (_, rest) = text.split_at(count);
    match first_half(rest) {
        Some(high) => (count + 1, Some(high)),
        None => (count, None),
    }
}

/// Appends the octets of the pairs of digits that a text begins with, and says how many these are.
fn append_pairs(octets: &mut Vec<u8>, text: &[u8]) -> usize
    requires { vec_len octets.old + length text.now / 2 ≤ vec_capacity octets.old }
    ensures { TakesPairs octets.old.items octets.new.items text.now result }
{
    for place in 0..text.len() / 2 {
        let high = half_or_more(text[2 * place]);
        let low = half_or_more(text[2 * place + 1]);
        let octet = high * 16 + low;
        // One test for both, since two digits make less.
        if octet >= 256 {
            return place;
        }
        octets.push_reserved(octet as u8);
    }
    text.len() / 2
}

fn first_half(text: &[u8]) -> Option<u8>
    ensures value { result ≡ first_half_of text.now }
    ensures digit { IfSome result (λ half. IsHalfOf half (slice_index text.now 0)) }
{
    if text.is_empty() {
        return None;
    }
    half(text[0])
}

pub(crate) fn digit(half: u8) -> u8
    requires { half < 16 }
    ensures { result ≡ digit_of half }
{
    if half < 10 { 48 + half } else { 55 + half }
}

fn half(digit: u8) -> Option<u8>
    ensures value { result ≡ half_of digit }
    ensures digit { IfSome result (λ half. IsHalfOf half digit) }
{
    let half = half_or_more(digit);
    if half < 16 { Some(half as u8) } else { None }
}

/// The half octet of a digit, and 256 of what is no digit. A table takes the fewest instructions.
fn half_or_more(digit: u8) -> u16
    ensures some { result < 256 → half_of digit ≡ Some result }
    ensures digit { result < 256 → IsHalfOf result digit }
    ensures none { 256 ≤ result → half_of digit ≡ None }
    ensures most { result ≤ 256 }
{
    HALVES[digit as usize]
}

/// The half octet of each digit, and 256 at what is no digit.
static HALVES: [u16; 256] = [
    256, 256, 256, 256, 256, 256, 256, 256, 256, 256, 256, 256, 256, 256, 256, 256, 256, 256, 256,
    256, 256, 256, 256, 256, 256, 256, 256, 256, 256, 256, 256, 256, 256, 256, 256, 256, 256, 256,
    256, 256, 256, 256, 256, 256, 256, 256, 256, 256, 0, 1, 2, 3, 4, 5, 6, 7, 8, 9, 256, 256, 256,
    256, 256, 256, 256, 10, 11, 12, 13, 14, 15, 256, 256, 256, 256, 256, 256, 256, 256, 256, 256,
    256, 256, 256, 256, 256, 256, 256, 256, 256, 256, 256, 256, 256, 256, 256, 256, 256, 256, 256,
    256, 256, 256, 256, 256, 256, 256, 256, 256, 256, 256, 256, 256, 256, 256, 256, 256, 256, 256,
    256, 256, 256, 256, 256, 256, 256, 256, 256, 256, 256, 256, 256, 256, 256, 256, 256, 256, 256,
    256, 256, 256, 256, 256, 256, 256, 256, 256, 256, 256, 256, 256, 256, 256, 256, 256, 256, 256,
    256, 256, 256, 256, 256, 256, 256, 256, 256, 256, 256, 256, 256, 256, 256, 256, 256, 256, 256,
    256, 256, 256, 256, 256, 256, 256, 256, 256, 256, 256, 256, 256, 256, 256, 256, 256, 256, 256,
    256, 256, 256, 256, 256, 256, 256, 256, 256, 256, 256, 256, 256, 256, 256, 256, 256, 256, 256,
    256, 256, 256, 256, 256, 256, 256, 256, 256, 256, 256, 256, 256, 256, 256, 256, 256, 256, 256,
    256, 256, 256, 256, 256, 256, 256, 256, 256, 256, 256, 256, 256, 256, 256, 256, 256, 256, 256,
    256, 256, 256, 256,
];
