//! Values as PDUs.
ghost use Rattle.std.specs.Prelude.{◌≤◌, ◌<◌, ◌^◌, [], ◌∷◌, IfOk, IfErr, length};
ghost use Rattle.vf_ber.specs.Views.{tree_of, trees_in};
ghost use Rattle.vf_pdu.specs.PduFaults.{fault};
ghost use Rattle.vf_pdu.specs.PduMeaning.{IsInRange, Means};
ghost use Rattle.vf_pdu.specs.PduReading.{pdu_in};
ghost use Rattle.vf_pdu_fields.specs.Reading.{reading};
ghost use Rattle.vf_pdu_fields.specs.Results.{Gives, Names};
ghost use Rattle.vf_pdu.specs.PduResults.{Reads};
ghost use Rattle.vf_pdu.specs.PduEntry.{answer as answer_row};
ghost use Rattle.vf_pdu.specs.PduRows.{row_of};
ghost use Rattle.vf_pdu_parameters.specs.ParameterSlots.{maybe_diagnostic};

use crate::Pdu;
use crate::access::read_access;
use crate::association::read_association;
use crate::attribute::read_attribute;
use crate::group::read_group;
use crate::selection::read_selection;
use crate::transfer::read_transfer;
use std::alloc::Global;
use vf_base::Diagnostic;
use vf_ber::Value;
use vf_pdu_fields::{PduError, end};
use vf_pdu_parameters::optional_parameter;

/// The PDU that the value means (ISO 8571-4). `Unknown` comes exactly where the value isn't constructed of context
/// class with a number of 0 to 40. Else the first faulty part decides: `Field` with its place, from 0 on, where its
/// tag is none of the PDU's or doesn't rise, or its contents aren't of the field's form; `Range` with its tag where
/// they are of the form and out of range. Where no part is faulty, `Missing` names the lowest required field that is
/// absent.
pub fn of_value(alloc: Global, value: &Value) -> Result<Pdu, PduError>
    ensures meaning { IfOk result (λ pdu. Means (tree_of value.now) pdu) }
    ensures range { IfOk result (λ pdu. IsInRange pdu) }
    ensures faults { IfErr result (λ error. Names error (fault (tree_of value.now))) }
    ensures read { Gives (λ pdu. pdu) result (pdu_in (tree_of value.now)) }
{
    let Value::Built { tag, parts } = value else {
        return Err(PduError::Unknown { tag: value.tag() });
    };
    if tag.class != 2 || tag.number > 40 {
        return Err(PduError::Unknown { tag: *tag });
    }
    read_fields(alloc, tag.number, parts.as_slice())
}

fn read_fields(alloc: Global, number: u16, parts: &[Value]) -> Result<Pdu, PduError>
    requires few { length parts.now < 2 ^ 32 }
    requires known { number ≤ 40 }
    ensures { Reads number (row_of number) (trees_in parts.now) result }
{
    if number <= 5 {
        return read_association(alloc, number, parts);
    }
    if number <= 13 {
        return read_selection(alloc, number, parts);
    }
    if number <= 21 {
        return read_attribute(alloc, number, parts);
    }
    if number <= 27 {
        return read_group(alloc, number, parts);
    }
    if number <= 33 {
        return read_access(alloc, number, parts);
    }
    read_transfer(alloc, number, parts)
}

/// A response that has a diagnostic alone.
pub(crate) fn answer(alloc: Global, parts: &[Value]) -> Result<Option<Diagnostic>, PduError>
    requires { length parts.now < 2 ^ 32 }
    ensures { Gives (λ d. maybe_diagnostic d ∷ []) result (reading answer_row (trees_in parts.now)) }
{
    let mut at = 0;
    let found = optional_parameter(alloc, parts, &mut at, 0)?;
    end(parts, at)?;
    Ok(found)
}
