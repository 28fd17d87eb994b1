//! What comes of a request that is no item of a group, in a regime in which no transfer is under way.
ghost use Rattle.std.specs.Prelude.{◌≡◌, ◌==◌, ◌||◌, [], ◌∷◌, None, false, true};
ghost use Rattle.vf_elements.specs.Stages.{takes};
ghost use Rattle.vf_elements.specs.declared.message.Message.TheVariants as messages;
ghost use Rattle.vf_elements.specs.declared.message.Said.TheVariants as answers;
ghost use Rattle.vf_elements.specs.declared.stage.Stage.TheVariants as stages;
ghost use Rattle.vf_filestore.specs.Aborts.{first_abort};
ghost use Rattle.vf_party.specs.Aborting.{aborts_of_quiet};
ghost use Rattle.vf_party.specs.Items.{is_item as is_item_meant};
ghost use Rattle.vf_party.specs.Quiets.{IsQuiet};
ghost use Rattle.vf_party_steps.specs.Represents.{IsAssociated};
ghost use Rattle.vf_party.specs.Settings.{setting_of};
ghost use Rattle.vf_party.specs.Turns.{EndsSaying, IsBegun, IsTurnOf};
ghost use Rattle.vf_party.specs.declared.party.Party.TheVariants as parties;
ghost use Rattle.vf_party.specs.declared.quiet.Quiet.TheVariants as quiets;
ghost use Rattle.vf_pdu.specs.PduNumbers.{number_of};
ghost use Rattle.vf_pdu.specs.declared.pdu.Pdu.TheVariants as pdus;

use crate::aborting::WRONG_STATE;
use crate::departing::{aborted, ended_saying};
use crate::outcomes::concluded;
use crate::party::{Grouping, Outcome, Party};
use crate::quiet::quieted;
use crate::{Associated, Open, Quiet, Said, Setting};
use std::alloc::Global;
use vf_base::{NoMemory, Sequence};
use vf_locks::Locks;
use vf_pdu::Pdu;
use vf_tables::{Changes, Tables};

/// A group begins.
pub(crate) fn grouped(alloc: Global, quiet: Quiet, threshold: u8) -> Outcome
    ensures { IsBegun quiet threshold result }
{
    let grouping = Grouping {
        quiet,
        threshold,
        items: Sequence::new(alloc),
    };
    Outcome {
        party: Some(Party::Grouping(grouping)),
        said: Vec::new(alloc),
        changes: Changes::new(alloc),
    }
}

/// Takes a request with an association and no selected file that its stage takes and nothing aborts, that is no item and
/// by which the initiator doesn't leave.
pub(crate) fn take_associated(
    associated: Associated,
    alloc: Global,
    request: Pdu,
    setting: Setting,
    tables: &Tables,
    locks: &mut Locks,
) -> Result<Outcome, (Party, NoMemory)>
    requires taken { takes stages.Associated (messages.Pdu request) ≡ true }
    requires item { is_item_meant request ≡ false }
    requires stays { (number_of request == 4 || number_of request == 5) ≡ false }
    requires unbarred { first_abort (aborts_of_quiet (quiets.Associated associated) setting.token request) ≡ None }
    requires single { number_of request == 22 ≡ false }
    ensures { IsTurnOf IsQuiet parties.Quiet tables.now locks.old locks.new (quiets.Associated associated) (setting_of setting) (messages.Pdu request) result }
{
    match request {
        Pdu::TerminateRequest => return terminate(alloc, associated, locks),
        Pdu::RecoverRequest {
            activity,
            number,
            point,
        } => {
            return take_recovery(
                associated, alloc, activity, number, point, setting, tables, locks,
            );
        }
        _ => unreachable!(),
    }
}

/// The association ends.
fn terminate(
    alloc: Global,
    associated: Associated,
    locks: &mut Locks,
) -> Result<Outcome, (Party, NoMemory)>
    ensures { EndsSaying IsAssociated (λ one. parties.Quiet (quiets.Associated one)) associated (answers.Pdu pdus.TerminateResponse ∷ []) locks.old locks.new result }
{
    return ended_saying(alloc, associated, Said::Pdu(Pdu::TerminateResponse), locks);
}

/// Takes a recovery. One by which a read would go on needs the token.
fn take_recovery(
    associated: Associated,
    alloc: Global,
    activity: u32,
    number: u32,
    point: u32,
    setting: Setting,
    tables: &Tables,
    locks: &mut Locks,
) -> Result<Outcome, (Party, NoMemory)>
    ensures { IsTurnOf IsQuiet parties.Quiet tables.now locks.old locks.new (quiets.Associated associated) (setting_of setting) (messages.Pdu (pdus.RecoverRequest activity number point)) result }
{
    let Setting {
        moment,
        serial,
        token,
        sync,
    } = setting;
    let Ok(reads) = associated.would_read(alloc, activity, number, point, tables, locks) else {
        return Err((Party::Quiet(Quiet::Associated(associated)), NoMemory));
    };
    if reads && !token {
        return aborted(alloc, associated, WRONG_STATE, locks);
    }
    let request = Pdu::RecoverRequest {
        activity,
        number,
        point,
    };
    let answer = associated.recover(alloc, request, moment, serial, token, sync, tables, locks);
    return concluded(alloc, 26, answer, locks);
}

/// Takes such a request with an open file.
pub(crate) fn take_open(
    regimes: Open,
    alloc: Global,
    request: Pdu,
    setting: Setting,
    tables: &Tables,
    locks: &mut Locks,
) -> Result<Outcome, (Party, NoMemory)>
    requires taken { takes stages.Opened (messages.Pdu request) ≡ true }
    requires item { is_item_meant request ≡ false }
    requires stays { (number_of request == 4 || number_of request == 5) ≡ false }
    requires unbarred { first_abort (aborts_of_quiet (quiets.Open regimes) setting.token request) ≡ None }
    requires single { number_of request == 22 ≡ false }
    ensures { IsTurnOf IsQuiet parties.Quiet tables.now locks.old locks.new (quiets.Open regimes) (setting_of setting) (messages.Pdu request) result }
{
    let Setting {
        moment,
        serial,
        token,
        sync,
    } = setting;
    match request {
        request @ Pdu::LocateRequest { .. } => {
            let answer = regimes.locate(alloc, request, moment, serial, token, sync, tables, locks);
            return concluded(alloc, 28, answer, locks);
        }
        request @ Pdu::EraseRequest { .. } => {
            let answer = regimes.erase(alloc, request, moment, serial, token, sync, tables, locks);
            return concluded(alloc, 30, answer, locks);
        }
        request @ Pdu::ReadRequest { .. } => {
            let answer = regimes.read(alloc, request, moment, serial, token, sync, tables, locks);
            return concluded(alloc, 32, answer, locks);
        }
        request @ Pdu::WriteRequest { .. } => {
            let answer = regimes.write(alloc, request, moment, serial, token, sync, tables, locks);
            return concluded(alloc, 33, answer, locks);
        }
        _ => unreachable!(),
    }
}
