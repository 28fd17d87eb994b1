//! The docket or the task of `drop`, by the options of the words.
ghost use Rattle.std.specs.Prelude.{◌≡◌, IfOk, Some, map, option_copied, string_bytes};
ghost use Rattle.vf_cli.specs.KeptWords.{kept_in, kept_of};

use std::alloc::Global;
use vf_base::{BaseError, Name};
use vf_cli_words::{Command, Key, WordsError, asked};
use vf_store_commands::KeptEntry;

/// The docket of this user's activity, or without a user the task of this activity.
fn kept_with(alloc: Global, activity: u32, user: Option<&[u8]>) -> Result<KeptEntry, WordsError>
    ensures { IfOk result (λ kept. kept ≡ kept_of activity (option_copied user.entry)) }
{
    let Some(user) = user else {
        return Ok(KeptEntry::Task { activity });
    };
    match Name::of(alloc, user) {
        Ok(identity) => Ok(KeptEntry::Docket { identity, activity }),
        Err(BaseError::NoMemory) => Err(WordsError::NoMemory),
        Err(_) => Err(WordsError::Usage),
    }
}

/// What the words of `drop` tell to be dropped; `Usage` where they ask for another command.
pub(crate) fn kept_words(alloc: Global, words: &Vec<String>) -> Result<KeptEntry, WordsError>
    ensures { IfOk result (λ kept. kept_in (map string_bytes words.now.items) ≡ Some kept) }
{
    let Some(asked) = asked(words) else {
        return Err(WordsError::Usage);
    };
    if asked.command != Command::DropKept {
        return Err(WordsError::Usage);
    }
    let Some(activity) = asked.options.number(Key::Activity) else {
        return Err(WordsError::Usage);
    };
    kept_with(alloc, activity, asked.options.value(Key::User))
}
