//! What comes of a message by which a party is gone.
ghost use Rattle.std.specs.Prelude.{[], ◌∷◌};
ghost use Rattle.vf_elements.specs.declared.message.Said.TheVariants as answers;
ghost use Rattle.vf_party.specs.Turns.{EndsSaying, IsEnded};

use crate::party::{Outcome, Party, PartyState};
use crate::{Message, Said};
use std::alloc::Global;
use vf_base::NoMemory;
use vf_locks::Locks;
use vf_party_steps::one_said;
use vf_tables::Changes;

/// The party is gone, once this is said.
pub(crate) fn ended<S: PartyState>(
    alloc: Global,
    state: S,
    said: Vec<Said>,
    locks: &mut Locks,
) -> Outcome
    ensures { IsEnded S.represents state said.items locks.old locks.new result }
{
    state.leave(locks);
    Outcome {
        party: None,
        said,
        changes: Changes::new(alloc),
    }
}

/// The party is gone, once this alone is said.
pub(crate) fn ended_saying<S: PartyState>(
    alloc: Global,
    state: S,
    said: Said,
    locks: &mut Locks,
) -> Result<Outcome, (Party, NoMemory)>
    ensures { EndsSaying S.represents S.party_of state (said ∷ []) locks.old locks.new result }
{
    let Ok(said) = one_said(alloc, said) else {
        return Err((state.into_party(), NoMemory));
    };
    Ok(ended(alloc, state, said, locks))
}

/// The provider aborts, and the party is gone.
pub(crate) fn aborted<S: PartyState>(
    alloc: Global,
    state: S,
    number: u16,
    locks: &mut Locks,
) -> Result<Outcome, (Party, NoMemory)>
    ensures { EndsSaying S.represents S.party_of state (answers.Abort number 0 ∷ []) locks.old locks.new result }
{
    return ended_saying(alloc, state, Said::Abort { number, place: 0 }, locks);
}

/// The provider aborts at this message, and the party is gone.
pub(crate) fn aborted_at<S: PartyState>(
    alloc: Global,
    state: S,
    message: Message,
    number: u16,
    locks: &mut Locks,
) -> Result<Outcome, (Party, NoMemory)>
    ensures { EndsSaying S.represents S.party_of state (answers.Abort number 0 ∷ []) locks.old locks.new result }
{
    drop(message);
    return aborted(alloc, state, number, locks);
}
