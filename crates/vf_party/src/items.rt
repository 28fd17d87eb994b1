//! Requests that may be items of a group (ISO 8571-3, grouping), each in the regime that takes it.
ghost use Rattle.std.specs.Prelude.{◌≡◌, IfErr, true};
ghost use Rattle.vf_elements.specs.Stages.{takes};
ghost use Rattle.vf_elements.specs.declared.message.Message.TheVariants as messages;
ghost use Rattle.vf_elements.specs.declared.stage.Stage.TheVariants as stages;
ghost use Rattle.vf_party.specs.Items.{is_item as is_item_meant};
ghost use Rattle.vf_party.specs.Quiets.{IsQuiet};
ghost use Rattle.vf_party.specs.Settings.{setting_of};
ghost use Rattle.vf_party_steps.specs.Steps.{IsStep};
ghost use Rattle.vf_party.specs.declared.quiet.Quiet.TheVariants as quiets;
ghost use Rattle.vf_pdu.specs.PduNumbers.{number_of};

use crate::quiet::quieted;
use crate::{Associated, Open, Quiet, Selected, Setting, Step, StepError};
use std::alloc::Global;
use vf_locks::Locks;
use vf_pdu::Pdu;
use vf_tables::Tables;

/// Whether a request may be an item of a group.
pub(crate) fn is_item(request: &Pdu) -> bool
    ensures { result ≡ is_item_meant request.now }
{
    matches!(request.number(), 6 | 8 | 10 | 12 | 14 | 16 | 18 | 20)
}

/// Takes such a request with an association and no selected file.
pub(crate) fn take_associated(
    associated: Associated,
    alloc: Global,
    request: Pdu,
    setting: Setting,
    tables: &Tables,
    locks: &mut Locks,
) -> Result<Step<Quiet>, (Quiet, StepError)>
    requires item { is_item_meant request ≡ true }
    requires taken { takes stages.Associated (messages.Pdu request) ≡ true }
    ensures consequence { IsStep IsQuiet IsQuiet tables.now locks.old locks.new (quiets.Associated associated) (setting_of setting) (messages.Pdu request) result }
    ensures kept { IfErr result (λ back. back.0 ≡ quiets.Associated associated) }
{
    let Setting {
        moment,
        serial,
        token,
        sync,
    } = setting;
    match request {
        request @ Pdu::SelectRequest { .. } => {
            let answer = associated.select(
                alloc, request, moment, serial, token, sync, tables, locks,
            );
            return quieted(answer);
        }
        request @ Pdu::CreateRequest { .. } => {
            return take_create(associated, alloc, request, setting, tables, locks);
        }
        _ => unreachable!(),
    }
}

/// Takes such a request with a selected file that isn't open.
pub(crate) fn take_selected(
    selected: Selected,
    alloc: Global,
    request: Pdu,
    setting: Setting,
    tables: &Tables,
    locks: &mut Locks,
) -> Result<Step<Quiet>, (Quiet, StepError)>
    requires item { is_item_meant request ≡ true }
    requires taken { takes stages.Selected (messages.Pdu request) ≡ true }
    ensures consequence { IsStep IsQuiet IsQuiet tables.now locks.old locks.new (quiets.Selected selected) (setting_of setting) (messages.Pdu request) result }
    ensures kept { IfErr result (λ back. back.0 ≡ quiets.Selected selected) }
{
    let Setting {
        moment,
        serial,
        token,
        sync,
    } = setting;
    match request {
        request @ Pdu::DeselectRequest => {
            let answer = selected.deselect(
                alloc, request, moment, serial, token, sync, tables, locks,
            );
            return quieted(answer);
        }
        request @ Pdu::DeleteRequest => {
            return take_delete(selected, alloc, request, setting, tables, locks);
        }
        request @ Pdu::ReadAttribRequest { .. } => {
            return take_read_attrib(selected, alloc, request, setting, tables, locks);
        }
        request @ Pdu::ChangeAttribRequest { .. } => {
            return take_change_attrib(selected, alloc, request, setting, tables, locks);
        }
        request @ Pdu::OpenRequest { .. } => {
            return open_selected(selected, alloc, request, setting, tables, locks);
        }
        _ => unreachable!(),
    }
}

/// Takes such a request with an open file.
#[inline(never)]
pub(crate) fn take_open(
    regimes: Open,
    alloc: Global,
    request: Pdu,
    setting: Setting,
    tables: &Tables,
    locks: &mut Locks,
) -> Result<Step<Quiet>, (Quiet, StepError)>
    requires item { is_item_meant request ≡ true }
    requires taken { takes stages.Opened (messages.Pdu request) ≡ true }
    ensures consequence { IsStep IsQuiet IsQuiet tables.now locks.old locks.new (quiets.Open regimes) (setting_of setting) (messages.Pdu request) result }
    ensures kept { IfErr result (λ back. back.0 ≡ quiets.Open regimes) }
{
    let Setting {
        moment,
        serial,
        token,
        sync,
    } = setting;
    match request {
        request @ Pdu::CloseRequest => {
            let answer = regimes.close(alloc, request, moment, serial, token, sync, tables, locks);
            return quieted(answer);
        }
        _ => unreachable!(),
    }
}

// These are functions of their own, out of line, since the room for what they keep costs each request that comes through
// one function with them.
/// A creation.
#[inline(never)]
fn take_create(
    associated: Associated,
    alloc: Global,
    request: Pdu,
    setting: Setting,
    tables: &Tables,
    locks: &mut Locks,
) -> Result<Step<Quiet>, (Quiet, StepError)>
    requires { number_of request ≡ 10 }
    ensures consequence { IsStep IsQuiet IsQuiet tables.now locks.old locks.new (quiets.Associated associated) (setting_of setting) (messages.Pdu request) result }
    ensures kept { IfErr result (λ back. back.0 ≡ quiets.Associated associated) }
{
    let Setting {
        moment,
        serial,
        token,
        sync,
    } = setting;
    let answer = associated.create(alloc, request, moment, serial, token, sync, tables, locks);
    return quieted(answer);
}

/// A deletion.
#[inline(never)]
fn take_delete(
    selected: Selected,
    alloc: Global,
    request: Pdu,
    setting: Setting,
    tables: &Tables,
    locks: &mut Locks,
) -> Result<Step<Quiet>, (Quiet, StepError)>
    requires { number_of request ≡ 12 }
    ensures consequence { IsStep IsQuiet IsQuiet tables.now locks.old locks.new (quiets.Selected selected) (setting_of setting) (messages.Pdu request) result }
    ensures kept { IfErr result (λ back. back.0 ≡ quiets.Selected selected) }
{
    let Setting {
        moment,
        serial,
        token,
        sync,
    } = setting;
    let answer = selected.delete(alloc, request, moment, serial, token, sync, tables, locks);
    return quieted(answer);
}

/// Attributes are read.
#[inline(never)]
fn take_read_attrib(
    selected: Selected,
    alloc: Global,
    request: Pdu,
    setting: Setting,
    tables: &Tables,
    locks: &mut Locks,
) -> Result<Step<Quiet>, (Quiet, StepError)>
    requires { number_of request ≡ 14 }
    ensures consequence { IsStep IsQuiet IsQuiet tables.now locks.old locks.new (quiets.Selected selected) (setting_of setting) (messages.Pdu request) result }
    ensures kept { IfErr result (λ back. back.0 ≡ quiets.Selected selected) }
{
    let Setting {
        moment,
        serial,
        token,
        sync,
    } = setting;
    let answer = selected.read_attrib(alloc, request, moment, serial, token, sync, tables, locks);
    return quieted(answer);
}

/// Attributes are changed.
#[inline(never)]
fn take_change_attrib(
    selected: Selected,
    alloc: Global,
    request: Pdu,
    setting: Setting,
    tables: &Tables,
    locks: &mut Locks,
) -> Result<Step<Quiet>, (Quiet, StepError)>
    requires { number_of request ≡ 16 }
    ensures consequence { IsStep IsQuiet IsQuiet tables.now locks.old locks.new (quiets.Selected selected) (setting_of setting) (messages.Pdu request) result }
    ensures kept { IfErr result (λ back. back.0 ≡ quiets.Selected selected) }
{
    let Setting {
        moment,
        serial,
        token,
        sync,
    } = setting;
    let answer = selected.change_attrib(alloc, request, moment, serial, token, sync, tables, locks);
    return quieted(answer);
}

/// The selected file is opened.
#[inline(never)]
fn open_selected(
    selected: Selected,
    alloc: Global,
    request: Pdu,
    setting: Setting,
    tables: &Tables,
    locks: &mut Locks,
) -> Result<Step<Quiet>, (Quiet, StepError)>
    requires { number_of request ≡ 18 }
    ensures consequence { IsStep IsQuiet IsQuiet tables.now locks.old locks.new (quiets.Selected selected) (setting_of setting) (messages.Pdu request) result }
    ensures kept { IfErr result (λ back. back.0 ≡ quiets.Selected selected) }
{
    let Setting {
        moment,
        serial,
        token,
        sync,
    } = setting;
    let answer = selected.open(alloc, request, moment, serial, token, sync, tables, locks);
    return quieted(answer);
}
