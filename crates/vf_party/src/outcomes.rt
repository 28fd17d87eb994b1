//! From what a typed step answers to what came of the message.
ghost use Rattle.std.specs.Prelude.{◌≡◌};
ghost use Rattle.std.specs.List.{list_any};
ghost use Rattle.vf_filestore.specs.Conclusion.{has_abort as has_abort_meant};
ghost use Rattle.vf_party.specs.Hearing.{outcome_in, turn_in};
ghost use Rattle.vf_party.specs.Turns.{ComesTo, IsOutcomeOf, is_abort as is_abort_meant};

use crate::hearing::Answered;
use crate::party::{Outcome, Party, PartyState};
use crate::refusals::refusal;
use crate::{Said, Step, StepError};
use std::alloc::Global;
use std::mem;
use vf_base::NoMemory;
use vf_locks::Locks;
use vf_tables::Changes;

/// What comes of a request of this number, from what its step answers.
pub(crate) fn concluded<Old: PartyState, New: PartyState>(
    alloc: Global,
    number: u16,
    answer: Result<Step<New>, (Old, StepError)>,
    locks: &mut Locks,
) -> Result<Outcome, (Party, NoMemory)>
    ensures { ComesTo New.represents Old.party_of New.party_of number locks.old locks.new answer result }
{
    match answer {
        Ok(step) => Ok(outcome_of(step, locks)),
        Err((state, error)) => {
            let party = state.into_party();
            match error {
                StepError::Refused(diagnostic) => {
                    let Ok(said) = refusal(alloc, number, diagnostic) else {
                        return Err((party, NoMemory));
                    };
                    Ok(Outcome {
                        party: Some(party),
                        said,
                        changes: Changes::new(alloc),
                    })
                }
                StepError::NoMemory => Err((party, NoMemory)),
            }
        }
    }
}

/// The same, with the party that is left in the place of another.
pub(crate) fn conclude<Old: PartyState, New: PartyState>(
    party: &mut Party,
    alloc: Global,
    number: u16,
    answer: Result<Step<New>, (Old, StepError)>,
    locks: &mut Locks,
) -> Result<Answered, NoMemory>
    ensures { ComesTo New.represents Old.party_of New.party_of number locks.old locks.new answer (turn_in party.new result) }
{
    match answer {
        Ok(step) => Ok(put_outcome(party, step, locks)),
        Err((state, error)) => {
            put(party, state.into_party());
            match error {
                StepError::Refused(diagnostic) => {
                    let Ok(said) = refusal(alloc, number, diagnostic) else {
                        return Err(NoMemory);
                    };
                    Ok(Answered {
                        goes: true,
                        said,
                        changes: Changes::new(alloc),
                    })
                }
                StepError::NoMemory => Err(NoMemory),
            }
        }
    }
}

/// What comes of a good step, with the party that is left in the place of another.
fn put_outcome<New: PartyState>(party: &mut Party, step: Step<New>, locks: &mut Locks) -> Answered
    ensures { IsOutcomeOf New.represents New.party_of locks.old locks.new step (outcome_in party.new result) }
{
    if has_abort(step.said.as_slice()) {
        step.state.leave(locks);
        return Answered {
            goes: false,
            said: step.said,
            changes: step.changes,
        };
    }
    put(party, step.state.into_party());
    Answered {
        goes: true,
        said: step.said,
        changes: step.changes,
    }
}

/// Puts a party in the place of one that has just arrived, which owns nothing that has to be given up.
pub(crate) fn put(place: &mut Party, party: Party)
    ensures { place.new ≡ party }
{
    mem::forget(mem::replace(place, party));
}

/// What comes of a good step; where it says an abort, the party is gone.
pub(crate) fn outcome_of<New: PartyState>(step: Step<New>, locks: &mut Locks) -> Outcome
    ensures { IsOutcomeOf New.represents New.party_of locks.old locks.new step result }
{
    if has_abort(step.said.as_slice()) {
        step.state.leave(locks);
        return Outcome {
            party: None,
            said: step.said,
            changes: step.changes,
        };
    }
    Outcome {
        party: Some(step.state.into_party()),
        said: step.said,
        changes: step.changes,
    }
}

/// Whether an abort is among what is said.
#[tactic(auto, using(crate::proofs::Abortions::any_aborts))]
fn has_abort(said: &[Said]) -> bool
    ensures { result ≡ has_abort_meant said.now }
{
    any_aborts(said)
}

fn any_aborts(said: &[Said]) -> bool
    ensures { result ≡ list_any is_abort_meant said.now }
{
    said.iter().any(|one| is_abort(one))
}

fn is_abort(said: &Said) -> bool
    ensures { result ≡ is_abort_meant said.now }
{
    matches!(said, Said::Abort { .. })
}
