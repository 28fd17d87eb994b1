//! The items of a group, tried in their order (ISO 8571-3, grouping; profile).
ghost use Rattle.std.specs.Prelude.{◌≡◌, ◌≤◌, ◌<◌, ◌+◌, ◌^◌, [], ◌∷◌, ◌++◌, IfOk, length};
ghost use Rattle.vf_party.specs.Quiets.{stage_of};
ghost use Rattle.vf_party.specs.Refusals.{refusal_numbered};
ghost use Rattle.vf_party.specs.Settings.{setting_of};
ghost use Rattle.vf_party.specs.Trials.{AreTried, ComesOf, IsBadItem, IsGoodItem, IsJoined, IsUntried, pdu_of, taken_in};
ghost use Rattle.vf_tables.specs.Changes.{after_all};

use crate::items::is_item;
use crate::refusals::refusal;
use crate::tried::Tried;
use crate::{Message, Quiet, Said, Setting, Step, StepError};
use std::alloc::Global;
use vf_base::{Diagnostic, NoMemory};
use vf_filestore::diagnostics::{BELOW_THRESHOLD, WRONG_REGIME, plain};
use vf_locks::Locks;
use vf_party_steps::followed_by;
use vf_pdu::Pdu;
use vf_tables::Changes;

/// What comes of items of a group that are tried, each as if the good ones before it had been performed.
#[derive(Drop)]
pub(crate) struct Trial<'t> {
    /// The party after the good items.
    pub(crate) quiet: Quiet,
    /// What is said to the items, where their group is performed.
    pub(crate) said: Vec<Said>,
    /// What is said to them where it isn't: that they could have been, or their own diagnostics.
    pub(crate) vain: Vec<Said>,
    /// How many of them are good.
    pub(crate) good: usize,
    /// What the good ones change in the tables, one after another.
    pub(crate) changes: Changes,
    /// The tables with these changes.
    pub(crate) tables: Tried<'t>,
}

/// Tries the items of a group in their order. One that its regime doesn't take is refused with 37.
pub(crate) fn try_items<'t>(
    alloc: Global,
    quiet: Quiet,
    items: &[Pdu],
    setting: &Setting,
    tables: Tried<'t>,
    locks: &mut Locks,
) -> Result<Trial<'t>, NoMemory>
    ensures trial { IfOk result (AreTried quiet tables.entry locks.old locks.new (setting_of setting.now) items.now) }
    ensures counted { IfOk result (λ trial. trial.good ≤ length items.now) }
    ensures led { IfOk result (λ trial. trial.tables ≡ after_all tables.entry trial.changes) }
{
    let Some((item, others)) = items.split_first() else {
        return Ok(untried(alloc, quiet, tables));
    };
    let first = try_item(alloc, quiet, item, setting, tables, locks)?;
    let later = try_items(alloc, first.quiet, others, setting, first.tables, locks)?;
    let trial = joined(first.said, first.vain, first.good, first.changes, later)?;
    Ok(trial)
}

/// What comes of no items.
fn untried<'t>(alloc: Global, quiet: Quiet, tables: Tried<'t>) -> Trial<'t>
    ensures { IsUntried quiet tables.entry result }
{
    Trial {
        quiet,
        said: Vec::new(alloc),
        vain: Vec::new(alloc),
        good: 0,
        changes: Changes::new(alloc),
        tables,
    }
}

/// What came of an item, and then that of later ones.
fn joined<'t>(
    said: Vec<Said>,
    vain: Vec<Said>,
    good: usize,
    changes: Changes,
    later: Trial<'t>,
) -> Result<Trial<'t>, NoMemory>
    requires { good + later.good < 2 ^ 64 }
    ensures { IfOk result (IsJoined said.items vain.items good changes later.entry) }
{
    let Trial {
        quiet,
        said: said_later,
        vain: vain_later,
        good: good_later,
        changes: changes_later,
        tables,
    } = later;
    let (said, vain) = both_before(said, said_later, vain, vain_later)?;
    let changes = followed_by(changes, changes_later)?;
    Ok(Trial {
        quiet,
        said,
        vain,
        good: good + good_later,
        changes,
        tables,
    })
}

/// What was said of one kind and of another, each with what was said later.
fn both_before(
    said: Vec<Said>,
    said_later: Vec<Said>,
    vain: Vec<Said>,
    vain_later: Vec<Said>,
) -> Result<(Vec<Said>, Vec<Said>), NoMemory>
    ensures said { IfOk result (λ both. both.0.items ≡ said.items ++ said_later.items) }
    ensures vain { IfOk result (λ both. both.1.items ≡ vain.items ++ vain_later.items) }
{
    let said = said_before(said, said_later)?;
    let vain = said_before(vain, vain_later)?;
    Ok((said, vain))
}

/// What was said, and then what was said later.
pub(crate) fn said_before(said: Vec<Said>, later: Vec<Said>) -> Result<Vec<Said>, NoMemory>
    ensures { IfOk result (λ all. all.items ≡ said.items ++ later.items) }
{
    let mut all = said;
    for one in later {
        all.push(one)?;
    }
    Ok(all)
}

/// Tries one item of a group. Where its regime doesn't take it, it is refused with 37.
pub(crate) fn try_item<'t>(
    alloc: Global,
    quiet: Quiet,
    item: &Pdu,
    setting: &Setting,
    tables: Tried<'t>,
    locks: &mut Locks,
) -> Result<Trial<'t>, NoMemory>
    ensures trial { IfOk result (AreTried quiet tables.entry locks.old locks.new (setting_of setting.now) (item.now ∷ [])) }
    ensures counted { IfOk result (λ trial. trial.good ≤ 1) }
    ensures led { IfOk result (λ trial. trial.tables ≡ after_all tables.entry trial.changes) }
{
    let Some(request) = taken(alloc, &quiet, item)? else {
        let trial = refused(alloc, quiet, item.number(), plain(WRONG_REGIME), tables)?;
        return Ok(trial);
    };
    let answer = quiet.take_item(alloc, request, same(setting), tables.tables(), locks);
    let trial = answered(alloc, item.number(), answer, tables)?;
    Ok(trial)
}

fn same(setting: &Setting) -> Setting
    ensures { result ≡ setting.now }
{
    Setting {
        moment: setting.moment,
        serial: setting.serial,
        token: setting.token,
        sync: setting.sync,
    }
}

/// A copy of the item, where it is one and its regime takes it.
fn taken(alloc: Global, quiet: &Quiet, item: &Pdu) -> Result<Option<Pdu>, NoMemory>
    ensures { IfOk result (λ request. request ≡ taken_in (stage_of quiet.now) item.now) }
{
    if !is_item(item) {
        return Ok(None);
    }
    let copy = item.copy(alloc)?;
    let message = Message::Pdu(copy);
    if !quiet.stage().takes(&message) {
        drop(message);
        return Ok(None);
    }
    Ok(pdu_in(message))
}

/// The PDU that the message is, if it is one.
fn pdu_in(message: Message) -> Option<Pdu>
    ensures { result ≡ pdu_of message }
{
    match message {
        Message::Pdu(pdu) => Some(pdu),
        other => {
            drop(other);
            None
        }
    }
}

/// What comes of a request of this number to which a step answered this.
fn answered<'t>(
    alloc: Global,
    number: u16,
    answer: Result<Step<Quiet>, (Quiet, StepError)>,
    tables: Tried<'t>,
) -> Result<Trial<'t>, NoMemory>
    ensures { IfOk result (ComesOf number answer tables.entry) }
{
    match answer {
        Ok(step) => granted(alloc, number, step, tables),
        Err((quiet, error)) => match error {
            StepError::Refused(diagnostic) => refused(alloc, quiet, number, diagnostic, tables),
            StepError::NoMemory => Err(NoMemory),
        },
    }
}

/// What comes of a request of this number that is granted by this step.
fn granted<'t>(
    alloc: Global,
    number: u16,
    step: Step<Quiet>,
    tables: Tried<'t>,
) -> Result<Trial<'t>, NoMemory>
    ensures { IfOk result (IsGoodItem number step tables.entry) }
{
    let vain = refusal(alloc, number, plain(BELOW_THRESHOLD))?;
    let tables = tables.after(alloc, step.changes.as_slice())?;
    let Step {
        state,
        said,
        changes,
    } = step;
    Ok(Trial {
        quiet: state,
        said,
        vain,
        good: 1,
        changes,
        tables,
    })
}

/// What comes of a request of this number that the diagnostic refuses.
fn refused<'t>(
    alloc: Global,
    quiet: Quiet,
    number: u16,
    diagnostic: Diagnostic,
    tables: Tried<'t>,
) -> Result<Trial<'t>, NoMemory>
    ensures { IfOk result (IsBadItem quiet number diagnostic tables.entry) }
{
    let (said, vain) = refused_twice(alloc, number, diagnostic)?;
    Ok(Trial {
        quiet,
        said,
        vain,
        good: 0,
        changes: Changes::new(alloc),
        tables,
    })
}

/// A refusal, and the same once more.
fn refused_twice(
    alloc: Global,
    number: u16,
    diagnostic: Diagnostic,
) -> Result<(Vec<Said>, Vec<Said>), NoMemory>
    ensures first { IfOk result (λ both. both.0.items ≡ refusal_numbered number diagnostic) }
    ensures second { IfOk result (λ both. both.1.items ≡ refusal_numbered number diagnostic) }
{
    let said = refusal(alloc, number, diagnostic)?;
    let vain = refusal(alloc, number, diagnostic)?;
    Ok((said, vain))
}
