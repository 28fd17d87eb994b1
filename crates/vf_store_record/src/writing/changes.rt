//! Changes, put after the octets that stand, and the record as a whole.
ghost use Rattle.std.specs.Prelude.{◌≡◌, ◌++◌, ◌<◌, ◌^◌, true, OnOk, Some, length};
ghost use Rattle.std.specs.List.{list_all};
ghost use Rattle.vf_store_record.specs.Records.{change as change_format, changes as changes_format, changes_of, docketed, piece, record_of};
ghost use Rattle.vf_store_record.specs.Writing.{Always, AreChanges, AreElements, IsChange, Writes};
ghost use Rattle.vf_tables.specs.Fitting.{is_in_range};
ghost use Rattle.vf_tables.specs.declared.change.Change.TheVariants.{CutStage, CutTask, DropDocket, DropFile, DropTask, PutAttributes, PutDocket, PutFile, PutTask, PutUser, Stage, StageTask};

use super::contents::put_file;
use super::elements::{put_elements, put_user};
use super::fields::{put_count, put_name, put_octet, put_u32};
use super::files::put_attributes;
use super::plans::put_plan;
use super::regimes::put_regime;
use vf_attr::{Attributes, File};
use vf_base::{Elements, Name, NoMemory};
use vf_disk::Parts;
use vf_tables::{Change, Plan, Regime, User};

fn put_docketed(identity: &Name, activity: u32, out: &mut Parts) -> Result<(), NoMemory>
    ensures { OnOk result (Writes docketed (record { identity = identity.now; activity = activity }) Always out.old.items out.new.items) }
{
    put_name(identity, out)?;
    put_u32(activity, out)?;
    Ok(())
}

fn put_piece(first: u32, last: u32, elements: &Elements, out: &mut Parts) -> Result<(), NoMemory>
    ensures { OnOk result (Writes piece (record { first = first; last = last; elements = elements.now }) (AreElements elements.now) out.old.items out.new.items) }
{
    put_u32(first, out)?;
    put_u32(last, out)?;
    put_elements(elements.as_slice(), out)?;
    Ok(())
}

fn user_put(user: &User, out: &mut Parts) -> Result<(), NoMemory>
    ensures { OnOk result (Writes change_format (PutUser user.now) (IsChange (PutUser user.now)) out.old.items out.new.items) }
{
    put_octet(1, out)?;
    put_user(user, out)?;
    Ok(())
}

fn file_put(file: &File, out: &mut Parts) -> Result<(), NoMemory>
    ensures { OnOk result (Writes change_format (PutFile file.now) (IsChange (PutFile file.now)) out.old.items out.new.items) }
{
    put_octet(2, out)?;
    put_file(file, out)?;
    Ok(())
}

fn attributes_put(
    old: &Name,
    name: &Name,
    attributes: &Attributes,
    out: &mut Parts,
) -> Result<(), NoMemory>
    ensures { OnOk result (Writes change_format (PutAttributes old.now name.now attributes.now) (IsChange (PutAttributes old.now name.now attributes.now)) out.old.items out.new.items) }
{
    put_octet(3, out)?;
    put_name(old, out)?;
    put_name(name, out)?;
    put_attributes(attributes, out)?;
    Ok(())
}

fn file_dropped(name: &Name, out: &mut Parts) -> Result<(), NoMemory>
    ensures { OnOk result (Writes change_format (DropFile name.now) (IsChange (DropFile name.now)) out.old.items out.new.items) }
{
    put_octet(4, out)?;
    put_name(name, out)?;
    Ok(())
}

fn docket_put(regime: &Regime, out: &mut Parts) -> Result<(), NoMemory>
    ensures { OnOk result (Writes change_format (PutDocket regime.now) (IsChange (PutDocket regime.now)) out.old.items out.new.items) }
{
    put_octet(5, out)?;
    put_regime(regime, out)?;
    Ok(())
}

fn staged(
    identity: &Name,
    activity: u32,
    first: u32,
    last: u32,
    elements: &Elements,
    out: &mut Parts,
) -> Result<(), NoMemory>
    ensures { OnOk result (Writes change_format (Stage identity.now activity first last elements.now) (IsChange (Stage identity.now activity first last elements.now)) out.old.items out.new.items) }
{
    put_octet(6, out)?;
    put_docketed(identity, activity, out)?;
    put_piece(first, last, elements, out)?;
    Ok(())
}

fn stage_cut(identity: &Name, activity: u32, point: u32, out: &mut Parts) -> Result<(), NoMemory>
    ensures { OnOk result (Writes change_format (CutStage identity.now activity point) (IsChange (CutStage identity.now activity point)) out.old.items out.new.items) }
{
    put_octet(7, out)?;
    put_docketed(identity, activity, out)?;
    put_u32(point, out)?;
    Ok(())
}

fn docket_dropped(identity: &Name, activity: u32, out: &mut Parts) -> Result<(), NoMemory>
    ensures { OnOk result (Writes change_format (DropDocket identity.now activity) (IsChange (DropDocket identity.now activity)) out.old.items out.new.items) }
{
    put_octet(8, out)?;
    put_docketed(identity, activity, out)?;
    Ok(())
}

fn task_put(plan: &Plan, out: &mut Parts) -> Result<(), NoMemory>
    ensures { OnOk result (Writes change_format (PutTask plan.now) (IsChange (PutTask plan.now)) out.old.items out.new.items) }
{
    put_octet(9, out)?;
    put_plan(plan, out)?;
    Ok(())
}

fn task_staged(
    activity: u32,
    point: u32,
    elements: &Elements,
    out: &mut Parts,
) -> Result<(), NoMemory>
    ensures { OnOk result (Writes change_format (StageTask activity point elements.now) (IsChange (StageTask activity point elements.now)) out.old.items out.new.items) }
{
    put_octet(10, out)?;
    put_u32(activity, out)?;
    put_u32(point, out)?;
    put_elements(elements.as_slice(), out)?;
    Ok(())
}

fn task_cut(activity: u32, point: u32, out: &mut Parts) -> Result<(), NoMemory>
    ensures { OnOk result (Writes change_format (CutTask activity point) (IsChange (CutTask activity point)) out.old.items out.new.items) }
{
    put_octet(11, out)?;
    put_u32(activity, out)?;
    put_u32(point, out)?;
    Ok(())
}

fn task_dropped(activity: u32, out: &mut Parts) -> Result<(), NoMemory>
    ensures { OnOk result (Writes change_format (DropTask activity) (IsChange (DropTask activity)) out.old.items out.new.items) }
{
    put_octet(12, out)?;
    put_u32(activity, out)?;
    Ok(())
}

fn put_change(change: &Change, out: &mut Parts) -> Result<(), NoMemory>
    ensures { OnOk result (Writes change_format change.now (IsChange change.now) out.old.items out.new.items) }
{
    match change {
        Change::PutUser { user } => user_put(user, out),
        Change::PutFile { file } => file_put(file, out),
        Change::PutAttributes {
            old,
            name,
            attributes,
        } => attributes_put(old, name, attributes, out),
        Change::DropFile { name } => file_dropped(name, out),
        Change::PutDocket { regime } => docket_put(regime, out),
        Change::Stage {
            identity,
            activity,
            first,
            last,
            elements,
        } => staged(identity, *activity, *first, *last, elements, out),
        Change::CutStage {
            identity,
            activity,
            point,
        } => stage_cut(identity, *activity, *point, out),
        Change::DropDocket { identity, activity } => docket_dropped(identity, *activity, out),
        Change::PutTask { plan } => task_put(plan, out),
        Change::StageTask {
            activity,
            point,
            elements,
        } => task_staged(*activity, *point, elements, out),
        Change::CutTask { activity, point } => task_cut(*activity, *point, out),
        Change::DropTask { activity } => task_dropped(*activity, out),
    }
}

fn put_changes(changes: &[Change], out: &mut Parts) -> Result<(), NoMemory>
    ensures { OnOk result (Writes changes_format changes.now (AreChanges changes.now) out.old.items out.new.items) }
{
    put_count(changes.len(), out)?;
    for change in changes {
        put_change(change, out)?;
    }
    Ok(())
}

/// Puts the record of changes after the octets that stand. Where memory is wanting, some of its octets may stand there.
///
/// Where each change is in its range and the record has fewer than 2^32 octets, it is read again as these changes.
pub fn write(changes: &[Change], out: &mut Parts) -> Result<(), NoMemory>
    ensures octets { OnOk result (out.new.items ≡ out.old.items ++ record_of changes.now) }
    ensures read { list_all is_in_range changes.now ≡ true → length (record_of changes.now) < 2 ^ 32 → OnOk result (changes_of (record_of changes.now) ≡ Some changes.now) }
{
    put_changes(changes, out)?;
    Ok(())
}
