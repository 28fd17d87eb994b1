//! The end of a group, at which it comes to all of its items or to none (ISO 8571-3, F-END-GROUP; profile).
ghost use Rattle.std.specs.Prelude.{◌≡◌, [], IfErr, IfOk, IfSome, if◌then◌else◌};
ghost use Rattle.vf_filestore.specs.Groups.{between as between_meant};
ghost use Rattle.vf_party.specs.GroupEnds.{IsEnd, IsPerformed};
ghost use Rattle.vf_party_steps.specs.Sameness.{unless_same as unless_same_meant};
ghost use Rattle.vf_party.specs.Settings.{setting_of};
ghost use Rattle.vf_party.specs.Trials.{AreTried};
ghost use Rattle.vf_party_steps.specs.declared.step.StepError.TheVariants as errors;
ghost use Rattle.vf_tables.specs.Changes.{after_all};

use crate::apart::are_apart;
use crate::tried::Tried;
use crate::trying::{Trial, said_before, try_items};
use crate::{Quiet, Said, Setting, Step, StepError};
use std::alloc::Global;
use vf_base::NoMemory;
use vf_locks::Locks;
use vf_party_steps::{are_same, one_said};
use vf_pdu::Pdu;
use vf_tables::{Change, Changes, Tables};

/// Takes the end of a group of these items (ISO 8571-3, F-END-GROUP), of which at least the threshold have to be good: they
/// are tried on copies, in their order. Where so many are good the good ones are performed, with their changes one after
/// another; where fewer are, or where all is as it was after them, nothing changes. What is said to the items stands
/// between the responses of the group's begin and its end. Without memory all is as it was.
///
/// The tables of `spare`, where it has any, are those on which the items are tried. Afterwards it has the tables after the
/// changes of the group, or none where they were changed in vain.
pub(crate) fn end_group(
    quiet: Quiet,
    alloc: Global,
    threshold: u8,
    items: &[Pdu],
    setting: &Setting,
    tables: &Tables,
    locks: &mut Locks,
    spare: &mut Option<Tables>,
) -> Result<Step<Quiet>, (Quiet, StepError)>
    requires { IfSome spare.old (λ second. second ≡ tables.now) }
    ensures consequence { IsEnd quiet threshold items.now tables.now locks.old locks.new (setting_of setting.now) result }
    ensures kept { IfErr result (λ back. back.0 ≡ quiet) }
    ensures memory { IfErr result (λ back. back.1 ≡ errors.NoMemory) }
    ensures ahead { IfOk result (λ step. IfSome spare.new (λ second. second ≡ after_all tables.now step.changes)) }
{
    let lent = spare.take();
    let Ok(attempt) = tried(alloc, &quiet, items, setting, tables, lent, locks) else {
        return Err((quiet, StepError::NoMemory));
    };
    let Attempt {
        trial,
        locks: after,
    } = attempt;
    if (threshold as usize) <= trial.good {
        let Ok(done) = performed(alloc, tables, trial) else {
            return Err((quiet, StepError::NoMemory));
        };
        let (step, second) = done;
        *locks = after;
        *spare = second;
        return Ok(step);
    }
    let Ok(done) = in_vain(alloc, trial) else {
        return Err((quiet, StepError::NoMemory));
    };
    let (said, second) = done;
    *spare = second;
    Ok(Step {
        state: quiet,
        said,
        changes: Changes::new(alloc),
    })
}

/// Items that were tried on copies.
#[derive(Drop)]
struct Attempt<'t> {
    trial: Trial<'t>,
    /// The holders of all files after the good items.
    locks: Locks,
}

fn tried<'t>(
    alloc: Global,
    quiet: &Quiet,
    items: &[Pdu],
    setting: &Setting,
    tables: &'t Tables,
    lent: Option<Tables>,
    locks: &Locks,
) -> Result<Attempt<'t>, NoMemory>
    requires { IfSome lent (λ second. second ≡ tables.now) }
    ensures tried { IfOk result (λ attempt. AreTried quiet.now tables.now locks.now attempt.locks (setting_of setting.now) items.now attempt.trial) }
    ensures led { IfOk result (λ attempt. attempt.trial.tables ≡ after_all tables.now attempt.trial.changes) }
{
    let (quiet, mut locks) = copies(alloc, quiet, locks)?;
    let tables = Tried::of(tables, lent);
    let trial = try_items(alloc, quiet, items, setting, tables, &mut locks)?;
    Ok(Attempt { trial, locks })
}

/// A copy of the party and one of the locks.
fn copies(alloc: Global, quiet: &Quiet, locks: &Locks) -> Result<(Quiet, Locks), NoMemory>
    ensures quiet { IfOk result (λ both. both.0 ≡ quiet.now) }
    ensures locks { IfOk result (λ both. both.1 ≡ locks.now) }
{
    let locks = locks.copy(alloc)?;
    let quiet = quiet.copy(alloc)?;
    Ok((quiet, locks))
}

/// What a group comes to that is performed, and a second of the tables after it.
fn performed(
    alloc: Global,
    tables: &Tables,
    trial: Trial<'_>,
) -> Result<(Step<Quiet>, Option<Tables>), NoMemory>
    requires { trial.tables ≡ after_all tables.now trial.changes }
    ensures step { IfOk result (λ done. IsPerformed tables.now trial.entry done.0) }
    ensures ahead { IfOk result (λ done. IfSome done.1 (λ second. second ≡ after_all tables.now done.0.changes)) }
{
    let Trial {
        quiet,
        said,
        changes,
        tables: after,
        ..
    } = trial;
    let said = between(alloc, said)?;
    let (changes, second) = unless_led_back(alloc, tables, changes, after);
    let step = Step {
        state: quiet,
        said,
        changes,
    };
    Ok((step, second))
}

/// The changes that are kept, and a second of the tables after them: none where they lead to the same tables.
fn unless_led_back(
    alloc: Global,
    tables: &Tables,
    changes: Changes,
    after: Tried<'_>,
) -> (Changes, Option<Tables>)
    requires { after ≡ after_all tables.now changes }
    ensures changes { result.0 ≡ unless_same_meant tables.now after.entry changes }
    ensures ahead { IfSome result.1 (λ second. second ≡ after_all tables.now result.0) }
{
    if lead_on(tables, after.tables(), changes.as_slice()) {
        return (changes, after.into_second());
    }
    (Changes::new(alloc), None)
}

/// What is said to a group that isn't performed, and a second of the tables, where it was lent and no item changed it.
fn in_vain(alloc: Global, trial: Trial<'_>) -> Result<(Vec<Said>, Option<Tables>), NoMemory>
    ensures says { IfOk result (λ done. done.0.items ≡ between_meant trial.entry.vain.items) }
    ensures unchanged { IfOk result (λ done. IfSome done.1 (λ second. (second ≡ trial.entry.tables) × (trial.entry.changes ≡ []))) }
{
    let Trial {
        vain,
        changes,
        tables,
        ..
    } = trial;
    let all = between(alloc, vain)?;
    Ok((all, unless_changed(&changes, tables)))
}

/// The second of the tables, where there are no changes.
fn unless_changed(changes: &Changes, tables: Tried<'_>) -> Option<Tables>
    ensures { IfSome result (λ second. (second ≡ tables.entry) × (changes.now ≡ [])) }
{
    if changes.as_slice().is_empty() {
        return tables.into_second();
    }
    None
}

/// What is said to the items, between the responses of the group's begin and its end.
fn between(alloc: Global, said: Vec<Said>) -> Result<Vec<Said>, NoMemory>
    ensures { IfOk result (λ all. all.items ≡ between_meant said.items) }
{
    let begin = one_said(alloc, Said::Pdu(Pdu::BeginGroupResponse))?;
    let end = one_said(alloc, Said::Pdu(Pdu::EndGroupResponse))?;
    let later = said_before(said, end)?;
    let all = said_before(begin, later)?;
    Ok(all)
}

/// Whether the changes are kept: not where they lead to the same tables. Of none that isn't asked.
#[tactic(auto, using(crate::proofs::Differing::tables_apart))]
fn lead_on(before: &Tables, after: &Tables, changes: &[Change]) -> bool
    ensures { unless_same_meant before.now after.now changes.now ≡ (if result then changes.now else []) }
{
    if changes.is_empty() {
        return true;
    }
    if are_apart(&before.files, &after.files, changes) {
        return true;
    }
    !are_same(before, after)
}
