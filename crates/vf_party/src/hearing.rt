//! What came of a message that a party took in its place, and what came of one that it took by value.
ghost use Rattle.std.specs.Prelude.{◌≡◌};
ghost use Rattle.vf_party.specs.Hearing.{outcome_in, turn_in};

use crate::Said;
use crate::outcomes::put;
use crate::party::{Outcome, Party};
use vf_base::NoMemory;
use vf_tables::Changes;

/// What came of a message that a party took in its place.
#[derive(Drop)]
pub struct Answered {
    /// A party is left, which stands in the place.
    pub goes: bool,
    pub said: Vec<Said>,
    pub changes: Changes,
}

/// Puts the party that is left, if one is, in the place of one that has just arrived.
#[inline(never)]
pub(crate) fn settled(
    party: &mut Party,
    taken: Result<Outcome, (Party, NoMemory)>,
) -> Result<Answered, NoMemory>
    ensures { turn_in party.new result ≡ taken }
{
    match taken {
        Ok(outcome) => Ok(left(party, outcome)),
        Err((back, error)) => {
            put(party, back);
            Err(error)
        }
    }
}

/// Puts the party that an outcome leaves, if it leaves one, in the place of one that has just arrived.
fn left(party: &mut Party, outcome: Outcome) -> Answered
    ensures { outcome_in party.new result ≡ outcome }
{
    let Outcome {
        party: next,
        said,
        changes,
    } = outcome;
    let Some(next) = next else {
        return Answered {
            goes: false,
            said,
            changes,
        };
    };
    put(party, next);
    Answered {
        goes: true,
        said,
        changes,
    }
}

/// What came of a message that this party took in its place.
pub(crate) fn told(
    party: Party,
    heard: Result<Answered, NoMemory>,
) -> Result<Outcome, (Party, NoMemory)>
    ensures { result ≡ turn_in party heard }
{
    match heard {
        Ok(heard) => Ok(outcome_with(party, heard)),
        Err(error) => Err((party, error)),
    }
}

/// What came of the message, with this party where one is left.
fn outcome_with(party: Party, heard: Answered) -> Outcome
    ensures { result ≡ outcome_in party heard }
{
    let Answered {
        goes,
        said,
        changes,
    } = heard;
    Outcome {
        party: goes.then_some(party),
        said,
        changes,
    }
}
