//! The task of `put` and `get`, by the options of the words.
ghost use Rattle.std.specs.Prelude.{◌≡◌, [], IfOk, Some, map, option_copied, string_bytes};
ghost use Rattle.std.specs.Option.{unwrap_or};
ghost use Rattle.vf_cli.specs.TaskWords.{task_in, task_with as task_meant};
ghost use Rattle.vf_cli_words.specs.Given.{given_of};
ghost use Rattle.vf_cli_words.specs.Words.{number_at};

use std::alloc::Global;
use vf_base::{BaseError, Name, NoMemory, Octets};
use vf_cli_words::{Command, Key, Options, WordsError, asked};
use vf_transact::PlanWords;

/// The document type of a file, where the words don't tell: FTAM-3.
const USUAL_KIND: u8 = 3;

/// How many elements stand between two checkpoints, where the words don't tell.
const USUAL_EVERY: u32 = 64;

/// How many connections are tried after the first one, where the words don't tell.
const USUAL_TRIES: u32 = 3;

fn kind_in(options: Options<'_>) -> u8
    ensures { result ≡ unwrap_or (number_at Key.Kind (given_of options.entry)) 3 }
{
    match options.number(Key::Kind) {
        Some(kind) => kind as u8,
        None => USUAL_KIND,
    }
}

/// The name that an option gives, which words within the grammar have.
fn name_in(alloc: Global, text: Option<&[u8]>) -> Result<Name, WordsError>
    ensures { IfOk result (λ name. name ≡ unwrap_or (option_copied text.entry) []) }
{
    let Some(text) = text else {
        return Err(WordsError::Usage);
    };
    match Name::of(alloc, text) {
        Ok(name) => Ok(name),
        Err(BaseError::NoMemory) => Err(WordsError::NoMemory),
        Err(_) => Err(WordsError::Usage),
    }
}

fn octets_of(alloc: Global, text: Option<&[u8]>) -> Result<Option<Octets>, NoMemory>
    ensures { IfOk result (λ octets. octets ≡ option_copied text.entry) }
{
    let Some(text) = text else {
        return Ok(None);
    };
    let octets = Octets::of(alloc, text)?;
    Ok(Some(octets))
}

/// The task of these options, which goes this way.
fn task_with(alloc: Global, put: bool, options: Options<'_>) -> Result<PlanWords, WordsError>
    ensures { IfOk result (λ task. task ≡ task_meant put (given_of options.entry)) }
{
    let name = name_in(alloc, options.value(Key::Name))?;
    let identity = name_in(alloc, options.value(Key::User))?;
    let Ok(password) = octets_of(alloc, options.value(Key::Password)) else {
        return Err(WordsError::NoMemory);
    };
    Ok(PlanWords {
        put,
        name,
        kind: kind_in(options),
        every: options.number(Key::Every).unwrap_or(USUAL_EVERY),
        identity,
        password,
        activity: options.number(Key::Activity),
        tries: options.number(Key::Tries).unwrap_or(USUAL_TRIES),
    })
}

/// The task of `put` or `get` that the words tell; `Usage` where they ask for neither.
pub(crate) fn task_words(alloc: Global, words: &Vec<String>) -> Result<PlanWords, WordsError>
    ensures { IfOk result (λ task. task_in (map string_bytes words.now.items) ≡ Some task) }
{
    let Some(asked) = asked(words) else {
        return Err(WordsError::Usage);
    };
    match asked.command {
        Command::Put => task_with(alloc, true, asked.options),
        Command::Get => task_with(alloc, false, asked.options),
        _ => Err(WordsError::Usage),
    }
}
