//! The fields of changes, read from the first octets of what is left of a record; what follows them is left then.
ghost use Rattle.std.specs.Prelude.{◌≡◌};
ghost use Rattle.vf_store_record.specs.Fields.{actions, control, name, number16, number32, number64, optional_name, optional_stamp, optional_text, stamp, string, term, text, truth};
ghost use Rattle.vf_store_record.specs.Formats.{first, these};
ghost use Rattle.vf_store_record.specs.Reading.{Gives};

use crate::{ReadError, Rest};
use std::alloc::Global;
use vf_attr::Stamp;
use vf_base::{Actions, BaseError, Control, Moment, Name, Octets, Term};

pub(crate) fn octet_at(rest: &mut Rest<'_>) -> Result<u8, ReadError>
    ensures { Gives (λ found. (found, rest.new)) result (first rest.old) }
{
    if rest.is_empty() {
        return Err(ReadError::Foreign);
    }
    let octet = rest.take(1);
    Ok(octet[0])
}

#[tactic(auto, unfolding(crate::specs::Fields::number16))]
pub(crate) fn u16_at(rest: &mut Rest<'_>) -> Result<u16, ReadError>
    ensures { Gives (λ found. (found, rest.new)) result (number16.read rest.old) }
{
    if rest.len() < 2 {
        return Err(ReadError::Foreign);
    }
    let number = rest.take(2);
    let number = u16::from_be_bytes([number[0], number[1]]);
    Ok(number)
}

#[tactic(auto, unfolding(crate::specs::Fields::number32))]
pub(crate) fn u32_at(rest: &mut Rest<'_>) -> Result<u32, ReadError>
    ensures { Gives (λ found. (found, rest.new)) result (number32.read rest.old) }
{
    if rest.len() < 4 {
        return Err(ReadError::Foreign);
    }
    let number = rest.take(4);
    let number = u32::from_be_bytes([number[0], number[1], number[2], number[3]]);
    Ok(number)
}

#[tactic(auto, unfolding(crate::specs::Fields::number64))]
pub(crate) fn u64_at(rest: &mut Rest<'_>) -> Result<u64, ReadError>
    ensures { Gives (λ found. (found, rest.new)) result (number64.read rest.old) }
{
    if rest.len() < 8 {
        return Err(ReadError::Foreign);
    }
    let number = rest.take(8);
    let number = u64::from_be_bytes([
        number[0], number[1], number[2], number[3], number[4], number[5], number[6], number[7],
    ]);
    Ok(number)
}

/// So many octets.
fn these_at<'a>(rest: &mut Rest<'a>, count: usize) -> Result<&'a [u8], ReadError>
    ensures { Gives (λ found. (found.now, rest.new)) result (these count rest.old) }
{
    if rest.len() < count {
        return Err(ReadError::Foreign);
    }
    Ok(rest.take(count))
}

#[tactic(auto, unfolding(crate::specs::Fields::text, crate::specs::Fields::number16))]
pub(crate) fn text_at(alloc: Global, rest: &mut Rest<'_>) -> Result<Octets, ReadError>
    ensures { Gives (λ found. (found, rest.new)) result (text.read rest.old) }
{
    let count = u16_at(rest)?;
    let text = these_at(rest, count as usize)?;
    Ok(Octets::of(alloc, text)?)
}

#[tactic(auto, unfolding(crate::specs::Fields::string, crate::specs::Fields::number32))]
pub(crate) fn string_at(alloc: Global, rest: &mut Rest<'_>) -> Result<Octets, ReadError>
    ensures { Gives (λ found. (found, rest.new)) result (string.read rest.old) }
{
    let count = u32_at(rest)?;
    let count = count as usize;
    if rest.len() < count {
        return Err(ReadError::Foreign);
    }
    let string = rest.string(alloc, count)?;
    rest.take(count);
    Ok(string)
}

#[tactic(auto, unfolding(crate::specs::Fields::name, crate::specs::Fields::text, crate::specs::Fields::number16))]
pub(crate) fn name_at(alloc: Global, rest: &mut Rest<'_>) -> Result<Name, ReadError>
    ensures { Gives (λ found. (found, rest.new)) result (name.read rest.old) }
{
    let count = u16_at(rest)?;
    let text = these_at(rest, count as usize)?;
    match Name::of(alloc, text) {
        Ok(name) => Ok(name),
        Err(BaseError::NoMemory) => Err(ReadError::NoMemory),
        Err(_) => Err(ReadError::Foreign),
    }
}

#[tactic(auto, unfolding(crate::specs::Fields::truth))]
pub(crate) fn truth_at(rest: &mut Rest<'_>) -> Result<bool, ReadError>
    ensures { Gives (λ found. (found, rest.new)) result (truth.read rest.old) }
{
    let octet = octet_at(rest)?;
    match octet {
        0 => Ok(false),
        1 => Ok(true),
        _ => Err(ReadError::Foreign),
    }
}

#[tactic(auto, unfolding(crate::specs::Fields::actions))]
pub(crate) fn actions_at(rest: &mut Rest<'_>) -> Result<Actions, ReadError>
    ensures { Gives (λ found. (found, rest.new)) result (actions.read rest.old) }
{
    let value = octet_at(rest)?;
    Ok(Actions { value })
}

#[tactic(auto, unfolding(crate::specs::Fields::control))]
pub(crate) fn control_at(rest: &mut Rest<'_>) -> Result<Control, ReadError>
    ensures { Gives (λ found. (found, rest.new)) result (control.read rest.old) }
{
    let octet = octet_at(rest)?;
    match octet {
        0 => Ok(Control::NotRequired),
        1 => Ok(Control::Shared),
        2 => Ok(Control::Exclusive),
        3 => Ok(Control::NoAccess),
        _ => Err(ReadError::Foreign),
    }
}

#[tactic(auto, unfolding(crate::specs::Fields::stamp, crate::specs::Fields::moment))]
pub(crate) fn stamp_at(alloc: Global, rest: &mut Rest<'_>) -> Result<Stamp, ReadError>
    ensures { Gives (λ found. (found, rest.new)) result (stamp.read rest.old) }
{
    let seconds = u64_at(rest)?;
    let Ok(moment) = Moment::of(seconds) else {
        return Err(ReadError::Foreign);
    };
    let identity = name_at(alloc, rest)?;
    Ok(Stamp { moment, identity })
}

#[tactic(auto, unfolding(crate::specs::Fields::optional_stamp))]
pub(crate) fn optional_stamp_at(
    alloc: Global,
    rest: &mut Rest<'_>,
) -> Result<Option<Stamp>, ReadError>
    ensures { Gives (λ found. (found, rest.new)) result (optional_stamp.read rest.old) }
{
    let octet = octet_at(rest)?;
    match octet {
        0 => Ok(None),
        1 => {
            let stamp = stamp_at(alloc, rest)?;
            Ok(Some(stamp))
        }
        _ => Err(ReadError::Foreign),
    }
}

#[tactic(auto, unfolding(crate::specs::Fields::optional_name))]
pub(crate) fn optional_name_at(
    alloc: Global,
    rest: &mut Rest<'_>,
) -> Result<Option<Name>, ReadError>
    ensures { Gives (λ found. (found, rest.new)) result (optional_name.read rest.old) }
{
    let octet = octet_at(rest)?;
    match octet {
        0 => Ok(None),
        1 => {
            let name = name_at(alloc, rest)?;
            Ok(Some(name))
        }
        _ => Err(ReadError::Foreign),
    }
}

#[tactic(auto, unfolding(crate::specs::Fields::optional_text))]
pub(crate) fn optional_text_at(
    alloc: Global,
    rest: &mut Rest<'_>,
) -> Result<Option<Octets>, ReadError>
    ensures { Gives (λ found. (found, rest.new)) result (optional_text.read rest.old) }
{
    let octet = octet_at(rest)?;
    match octet {
        0 => Ok(None),
        1 => {
            let text = text_at(alloc, rest)?;
            Ok(Some(text))
        }
        _ => Err(ReadError::Foreign),
    }
}

#[tactic(auto, unfolding(crate::specs::Fields::term))]
pub(crate) fn term_at(alloc: Global, rest: &mut Rest<'_>) -> Result<Term, ReadError>
    ensures { Gives (λ found. (found, rest.new)) result (term.read rest.old) }
{
    let identity = optional_name_at(alloc, rest)?;
    let actions = actions_at(rest)?;
    let password = optional_text_at(alloc, rest)?;
    Ok(Term {
        identity,
        actions,
        password,
    })
}
