//! The words of a command line, without the program's name.
ghost use Rattle.std.specs.Prelude.{◌≡◌, ◌↔◌, None, Some, IfOk, IfSome, IsErrOf, map, option_copied, string_bytes};
ghost use Rattle.std.specs.Option.{unwrap_or};
ghost use Rattle.vf_cli_words.specs.Given.{asked_of, given_of};
ghost use Rattle.vf_cli_words.specs.Words.{asked_by, command_named as command_meant, command_of, drawn_in, number_at, wanted_of};

use crate::command::{Command, Wanted};
use crate::options::{Key, Options, options_in};
use std::alloc::Global;
use vf_base::{NoMemory, Octets};

/// Why words ask for no command.
#[derive(Clone, Copy, Debug, PartialEq, Eq)]
pub enum WordsError {
    /// They are outside the grammar.
    Usage,
    /// Memory is wanting.
    NoMemory,
}

/// The idle rounds after which serving ends, where the words don't tell.
const USUAL_IDLE: u64 = 1_000_000;

/// A command with its options.
#[derive(Clone, Copy)]
pub struct AskedWords<'a> {
    pub command: Command,
    pub options: Options<'a>,
}

/// The files that `generate` makes.
#[derive(Clone, Copy, PartialEq, Eq)]
pub struct Drawn {
    /// The number with which their drawing begins.
    pub number: u32,
    /// How many there are.
    pub count: u32,
}

/// The command that the words ask for; `None` exactly where they are outside the grammar.
pub fn parse(words: &Vec<String>) -> Option<Command>
    ensures { result ≡ command_of (map string_bytes words.now.items) }
{
    let asked = asked(words)?;
    Some(asked.command)
}

/// The command that the words ask for, with its options; `None` exactly where they are outside the grammar.
pub fn asked(words: &Vec<String>) -> Option<AskedWords<'_>>
    ensures some { IfSome result (λ asked. asked_by (map string_bytes words.now.items) ≡ Some (asked_of asked)) }
    ensures none { result ≡ None → asked_by (map string_bytes words.now.items) ≡ None }
{
    let [name, options @ ..] = words.as_slice() else {
        return None;
    };
    let command = command_named(name.as_str())?;
    let options = options_in(options)?;
    if options.fit(command) {
        Some(AskedWords { command, options })
    } else {
        None
    }
}

fn command_named(name: &str) -> Option<Command>
    ensures { result ≡ command_meant name.now }
{
    match name {
        "dialogue" => Some(Command::Dialogue),
        "init" => Some(Command::InitStore),
        "list" => Some(Command::ListFiles),
        "dockets" => Some(Command::ListDockets),
        "drop" => Some(Command::DropKept),
        "replay" => Some(Command::Replay),
        "serve" => Some(Command::Serve),
        "put" => Some(Command::Put),
        "get" => Some(Command::Get),
        "generate" => Some(Command::Generate),
        _ => None,
    }
}

/// What the command line wants of the outside; `Usage` exactly where its words ask for no command.
pub fn wanted(alloc: Global, words: &Vec<String>) -> Result<Wanted, WordsError>
    ensures ok { IfOk result (λ wanted. wanted_of (map string_bytes words.now.items) ≡ Some wanted) }
    ensures usage { IsErrOf result WordsError.Usage ↔ (command_of (map string_bytes words.now.items) ≡ None) }
{
    let Some(asked) = asked(words) else {
        return Err(WordsError::Usage);
    };
    let Ok(store) = octets_of(alloc, asked.options.value(Key::Store)) else {
        return Err(WordsError::NoMemory);
    };
    let Ok(host) = octets_of(alloc, asked.options.value(Key::Host)) else {
        return Err(WordsError::NoMemory);
    };
    Ok(Wanted {
        store,
        host,
        port: port_in(asked.options),
        idle: idle_in(asked.options),
    })
}

fn port_in(options: Options<'_>) -> Option<u16>
    ensures { result ≡ number_at Key.Port (given_of options.entry) }
{
    match options.number(Key::Port) {
        Some(port) => Some(port as u16),
        None => None,
    }
}

fn idle_in(options: Options<'_>) -> u64
    ensures { result ≡ unwrap_or (number_at Key.Idle (given_of options.entry)) 1000000 }
{
    match options.number(Key::Idle) {
        Some(idle) => idle as u64,
        None => USUAL_IDLE,
    }
}

fn octets_of(alloc: Global, text: Option<&[u8]>) -> Result<Option<Octets>, NoMemory>
    ensures { IfOk result (λ octets. octets ≡ option_copied text.entry) }
{
    let Some(text) = text else {
        return Ok(None);
    };
    let octets = Octets::of(alloc, text)?;
    Ok(Some(octets))
}

/// The files that `generate` is to make, where the words ask for it.
pub fn drawn_by(words: &Vec<String>) -> Option<Drawn>
    ensures { result ≡ drawn_in (map string_bytes words.now.items) }
{
    let asked = asked(words)?;
    if asked.command != Command::Generate {
        return None;
    }
    let number = asked.options.number(Key::Number)?;
    let count = asked.options.number(Key::Count)?;
    Some(Drawn { number, count })
}
