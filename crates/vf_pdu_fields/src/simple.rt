//! Numbers and truth values: whether a part has the form, and whether its contents are in range.
ghost use Rattle.std.specs.Prelude.{◌≡◌, ◌≤◌, IfOk, Some};
ghost use Rattle.vf_ber.specs.Views.{tree_of};
ghost use Rattle.vf_pdu_fields.specs.Content.{Truth};
ghost use Rattle.vf_pdu_fields.specs.Reading.{checked, needed, shape};
ghost use Rattle.vf_pdu_fields.specs.Results.{Gives};
ghost use Rattle.vf_pdu_fields.specs.Rows.{Boolean, int, one};
ghost use Rattle.vf_pdu_fields.specs.Rows.{fadu};
ghost use Rattle.vf_pdu_fields.specs.Slots.{fadu_slot, num};

use crate::PduError;
use crate::numbers::{fadu_in, natural_in};
use vf_base::FaduId;
use vf_ber::Value;

pub(crate) fn natural_of(
    part: &Value,
    place: u32,
    field: u16,
    low: u64,
    high: u64,
) -> Result<u64, PduError>
    ensures value { Gives num result (checked place field (int low high) (shape (int low high) (tree_of part.now))) }
    ensures range { IfOk result (λ n. (low ≤ n) × (n ≤ high)) }
{
    let Some(n) = vf_ber::integer(part) else {
        return Err(PduError::Field { place });
    };
    match natural_in(n, low, high) {
        Some(n) => Ok(n),
        None => Err(PduError::Range { field }),
    }
}

pub(crate) fn fadu_of(part: &Value, place: u32, field: u16) -> Result<FaduId, PduError>
    ensures value { Gives fadu_slot result (checked place field fadu (shape fadu (tree_of part.now))) }
    ensures there { IfOk result (λ unit. needed field (fadu_slot unit) ≡ Ok (fadu_slot unit)) }
{
    let Some(n) = vf_ber::integer(part) else {
        return Err(PduError::Field { place });
    };
    match fadu_in(n) {
        Some(unit) => Ok(unit),
        None => Err(PduError::Range { field }),
    }
}

pub(crate) fn boolean_of(part: &Value, place: u32, field: u16) -> Result<bool, PduError>
    ensures { Gives (λ truth. Some (Truth truth)) result (checked place field (one Boolean) (shape (one Boolean) (tree_of part.now))) }
{
    match vf_ber::boolean(part) {
        Some(truth) => Ok(truth),
        None => Err(PduError::Field { place }),
    }
}
