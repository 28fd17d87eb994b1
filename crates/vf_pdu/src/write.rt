//! PDUs as values.
ghost use Rattle.std.specs.Prelude.{◌≡◌, [], ◌∷◌, IfOk};
ghost use Rattle.vf_ber.specs.Tree.{none};
ghost use Rattle.vf_ber.specs.Views.{tree_of};
ghost use Rattle.vf_pdu_fields.specs.Writing.{appended};
ghost use Rattle.vf_pdu_parameters.specs.ParameterSlots.{maybe_diagnostic};
ghost use Rattle.vf_pdu.specs.PduEntry.{answer as answer_row};
ghost use Rattle.vf_pdu.specs.PduMeaning.{IsInRange};
ghost use Rattle.vf_pdu.specs.PduValue.{parts_put, value as value_meant};

use crate::Pdu;
use crate::access::write_access;
use crate::association::write_association;
use crate::attribute::write_attribute;
use crate::group::write_group;
use crate::selection::write_selection;
use crate::transfer::write_transfer;
use std::alloc::Global;
use vf_base::{Diagnostic, NoMemory};
use vf_ber::{Value, Values};
use vf_pdu_fields::context;
use vf_pdu_parameters::put_diagnostic;

/// The value of the PDU (ISO 8571-4), where each field is in the range of its row: defaults are left out, and each part
/// is in one piece and in the fewest octets. What `of_value` answers is in range.
pub fn to_value(alloc: Global, pdu: &Pdu) -> Result<Value, NoMemory>
    requires { IsInRange pdu.now }
    ensures { IfOk result (λ made. tree_of made ≡ value_meant pdu.now) }
{
    let parts = write_fields(alloc, pdu)?;
    Ok(Value::Built {
        tag: context(pdu.number()),
        parts,
    })
}

fn write_fields(alloc: Global, pdu: &Pdu) -> Result<Values, NoMemory>
    requires { IsInRange pdu.now }
    ensures { IfOk result (λ made. made ≡ parts_put pdu.now) }
{
    let number = pdu.number();
    if number <= 5 {
        write_association(alloc, pdu)
    } else if number <= 13 {
        write_selection(alloc, pdu)
    } else if number <= 21 {
        write_attribute(alloc, pdu)
    } else if number <= 27 {
        write_group(alloc, pdu)
    } else if number <= 33 {
        write_access(alloc, pdu)
    } else {
        write_transfer(alloc, pdu)
    }
}

/// The fields of a response that has a diagnostic alone.
pub(crate) fn write_answer(
    alloc: Global,
    diagnostic: &Option<Diagnostic>,
) -> Result<Values, NoMemory>
    ensures { IfOk result (λ made. made ≡ appended none answer_row (maybe_diagnostic diagnostic.now ∷ [])) }
{
    let mut parts = Values::new(alloc);
    put_diagnostic(alloc, &mut parts, 0, diagnostic)?;
    Ok(parts)
}
