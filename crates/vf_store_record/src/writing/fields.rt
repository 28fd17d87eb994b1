//! The fields of changes, each put after the octets that stand.
ghost use Rattle.std.specs.Prelude.{◌≡◌, ◌++◌, true, OnOk};
ghost use Rattle.std.specs.Int.{to_be_bytes, w32};
ghost use Rattle.vf_store_record.specs.Fields.{actions as actions_format, control as control_format, control_number as control_meant, moment as moment_format, name as name_format, number16, number32, number64, optional_name as optional_name_format, optional_stamp as optional_stamp_format, optional_text as optional_text_format, stamp as stamp_format, string as string_format, term as term_format, text as text_format, truth as truth_format, truth_number as truth_meant};
ghost use Rattle.vf_store_record.specs.Formats.{octet as octet_format};
ghost use Rattle.vf_store_record.specs.Writing.{Always, IsShortList, IsShortText, IsTerm, Writes};
ghost use Rattle.vf_tables.specs.Fitting.{is_short};

use vf_attr::Stamp;
use vf_base::{Actions, Control, Moment, Name, NoMemory, Octets, Term};
use vf_disk::Parts;

pub(crate) fn put_octet(octet: u8, out: &mut Parts) -> Result<(), NoMemory>
    ensures { OnOk result (Writes octet_format octet Always out.old.items out.new.items) }
{
    out.push(octet)?;
    Ok(())
}

#[tactic(auto, unfolding(crate::specs::Fields::number16))]
pub(crate) fn put_u16(number: u16, out: &mut Parts) -> Result<(), NoMemory>
    ensures { OnOk result (Writes number16 number Always out.old.items out.new.items) }
{
    out.extend_from_slice(&number.to_be_bytes())?;
    Ok(())
}

#[tactic(auto, unfolding(crate::specs::Fields::number32))]
pub(crate) fn put_u32(number: u32, out: &mut Parts) -> Result<(), NoMemory>
    ensures { OnOk result (Writes number32 number Always out.old.items out.new.items) }
{
    out.extend_from_slice(&number.to_be_bytes())?;
    Ok(())
}

#[tactic(auto, unfolding(crate::specs::Fields::number64))]
pub(crate) fn put_u64(number: u64, out: &mut Parts) -> Result<(), NoMemory>
    ensures { OnOk result (Writes number64 number Always out.old.items out.new.items) }
{
    out.extend_from_slice(&number.to_be_bytes())?;
    Ok(())
}

/// A number of items in four octets, the lowest ones of more.
pub(crate) fn put_count(count: usize, out: &mut Parts) -> Result<(), NoMemory>
    ensures { OnOk result (out.new.items ≡ out.old.items ++ to_be_bytes w32 count) }
{
    let number = (count % 4_294_967_296) as u32;
    out.extend_from_slice(&number.to_be_bytes())?;
    Ok(())
}

/// Octets after their number in two octets, the lowest ones of more.
pub(crate) fn put_text(text: &Octets, out: &mut Parts) -> Result<(), NoMemory>
    ensures { OnOk result (Writes text_format text.now (IsShortText text.now) out.old.items out.new.items) }
{
    let number = (text.len() % 65_536) as u16;
    out.extend_from_slice(&number.to_be_bytes())?;
    out.extend_from_slice(text.as_slice())?;
    Ok(())
}

pub(crate) fn put_string(string: &Octets, out: &mut Parts) -> Result<(), NoMemory>
    ensures { OnOk result (Writes string_format string.now (IsShortList string.now) out.old.items out.new.items) }
{
    put_count(string.len(), out)?;
    out.push_shared(string)?;
    Ok(())
}

pub(crate) fn put_name(name: &Name, out: &mut Parts) -> Result<(), NoMemory>
    ensures { OnOk result (Writes name_format name.now Always out.old.items out.new.items) }
{
    let octets = name.as_slice();
    let number = octets.len() as u16;
    out.extend_from_slice(&number.to_be_bytes())?;
    out.extend_from_slice(octets)?;
    Ok(())
}

fn truth_number(truth: bool) -> u8
    ensures { result ≡ truth_meant truth }
{
    if truth { 1 } else { 0 }
}

pub(crate) fn put_truth(truth: bool, out: &mut Parts) -> Result<(), NoMemory>
    ensures { OnOk result (Writes truth_format truth Always out.old.items out.new.items) }
{
    put_octet(truth_number(truth), out)?;
    Ok(())
}

pub(crate) fn put_actions(actions: Actions, out: &mut Parts) -> Result<(), NoMemory>
    ensures { OnOk result (Writes actions_format actions Always out.old.items out.new.items) }
{
    put_octet(actions.value, out)?;
    Ok(())
}

fn control_number(control: Control) -> u8
    ensures { result ≡ control_meant control }
{
    match control {
        Control::NotRequired => 0,
        Control::Shared => 1,
        Control::Exclusive => 2,
        Control::NoAccess => 3,
    }
}

pub(crate) fn put_control(control: Control, out: &mut Parts) -> Result<(), NoMemory>
    ensures { OnOk result (Writes control_format control Always out.old.items out.new.items) }
{
    put_octet(control_number(control), out)?;
    Ok(())
}

fn put_moment(moment: Moment, out: &mut Parts) -> Result<(), NoMemory>
    ensures { OnOk result (Writes moment_format moment Always out.old.items out.new.items) }
{
    put_u64(moment.seconds(), out)?;
    Ok(())
}

pub(crate) fn put_stamp(stamp: &Stamp, out: &mut Parts) -> Result<(), NoMemory>
    ensures { OnOk result (Writes stamp_format stamp.now Always out.old.items out.new.items) }
{
    put_moment(stamp.moment, out)?;
    put_name(&stamp.identity, out)?;
    Ok(())
}

pub(crate) fn put_optional_stamp(stamp: &Option<Stamp>, out: &mut Parts) -> Result<(), NoMemory>
    ensures { OnOk result (Writes optional_stamp_format stamp.now Always out.old.items out.new.items) }
{
    let Some(stamp) = stamp else {
        put_octet(0, out)?;
        return Ok(());
    };
    put_octet(1, out)?;
    put_stamp(stamp, out)?;
    Ok(())
}

pub(crate) fn put_optional_name(name: &Option<Name>, out: &mut Parts) -> Result<(), NoMemory>
    ensures { OnOk result (Writes optional_name_format name.now Always out.old.items out.new.items) }
{
    let Some(name) = name else {
        put_octet(0, out)?;
        return Ok(());
    };
    put_octet(1, out)?;
    put_name(name, out)?;
    Ok(())
}

pub(crate) fn put_optional_text(text: &Option<Octets>, out: &mut Parts) -> Result<(), NoMemory>
    ensures { OnOk result (Writes optional_text_format text.now (is_short text.now ≡ true) out.old.items out.new.items) }
{
    let Some(text) = text else {
        put_octet(0, out)?;
        return Ok(());
    };
    put_octet(1, out)?;
    put_text(text, out)?;
    Ok(())
}

pub(crate) fn put_term(term: &Term, out: &mut Parts) -> Result<(), NoMemory>
    ensures { OnOk result (Writes term_format term.now (IsTerm term.now) out.old.items out.new.items) }
{
    put_optional_name(&term.identity, out)?;
    put_actions(term.actions, out)?;
    put_optional_text(&term.password, out)?;
    Ok(())
}
