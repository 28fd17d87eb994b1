ghost use Rattle.std.specs.Prelude.{◌≡◌, [], ◌∷◌, ◌++◌, IfOk};

use std::alloc::Global;
use vf_base::{Diagnostic, NoMemory};
use vf_elements::Said;
use vf_tables::{Change, Changes};

/// What a good step of a typed state gives: the next state, what is said, and what changes in the tables.
#[derive(Drop)]
pub struct Step<S> {
    pub state: S,
    pub said: Vec<Said>,
    pub changes: Changes,
}

/// Why a step gave its state back.
#[derive(Drop)]
pub enum StepError {
    /// The request was refused with this diagnostic.
    Refused(Diagnostic),
    NoMemory,
}

/// A list of one thing that is said.
#[inline(always)]
pub fn one_said(alloc: Global, said: Said) -> Result<Vec<Said>, NoMemory>
    ensures { IfOk result (λ list. list.items ≡ said ∷ []) }
{
    let Ok(mut list) = Vec::with_capacity(alloc, 1) else {
        drop(said);
        return Err(NoMemory);
    };
    list.push_reserved(said);
    Ok(list)
}

/// A list of one change.
pub(crate) fn one_change(alloc: Global, change: Change) -> Result<Changes, NoMemory>
    ensures { IfOk result (λ list. list ≡ change ∷ []) }
{
    let mut list = Changes::new(alloc);
    list.push(change)?;
    Ok(list)
}

/// These changes one after the other.
pub fn followed_by(changes: Changes, later: Changes) -> Result<Changes, NoMemory>
    ensures { IfOk result (λ all. all ≡ changes ++ later) }
{
    let mut all = changes;
    for change in later.into_vec() {
        all.push(change)?;
    }
    Ok(all)
}
