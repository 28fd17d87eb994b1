//! Whether fields are in the range of their row.
ghost use Rattle.std.specs.Prelude.{◌≡◌};
ghost use Rattle.std.specs.Option.{option_map};
ghost use Rattle.vf_pdu_fields.specs.InRange.{slot_fits};
ghost use Rattle.vf_pdu_fields.specs.Meaning.{fits};
ghost use Rattle.vf_pdu_fields.specs.Rows.{fadu as fadu_form, int, natural, optional, or, required};
ghost use Rattle.vf_pdu_fields.specs.Slots.{fadu_slot};

use crate::Field;
use vf_base::FaduId;

/// Whether a number is from `low` to `high`.
pub fn is_within(n: u64, low: u64, high: u64) -> bool
    ensures { result ≡ fits (int low high) (natural n) }
{
    low <= n && n <= high
}

/// Whether a number is from `low` to `high` where it is there.
pub fn maybe_within(n: Option<u32>, low: u64, high: u64) -> bool
    ensures { result ≡ slot_fits (int low high) optional (option_map natural n) }
{
    match n {
        Some(n) => is_within(u64::from(n), low, high),
        None => true,
    }
}

/// Whether a field is in range where it is there.
pub fn maybe_in_range<F: Field>(field: &Option<F>) -> bool
    ensures { result ≡ slot_fits F.form optional (option_map F.content field.now) }
{
    match field {
        Some(field) => field.is_in_range(),
        None => true,
    }
}

/// Whether there is such a FADU: units are numbered from 1 on.
pub fn is_fadu(fadu: FaduId) -> bool
    ensures required { result ≡ slot_fits fadu_form required (fadu_slot fadu) }
    ensures usual { result ≡ slot_fits fadu_form (or 0) (fadu_slot fadu) }
{
    match fadu {
        FaduId::Number(n) => n != 0,
        _ => true,
    }
}
