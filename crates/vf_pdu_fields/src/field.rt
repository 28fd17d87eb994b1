//! What a part is read as, by the type of its field.
ghost use Rattle.std.specs.Prelude.{◌≡◌, Some};
ghost use Rattle.vf_ber.specs.Views.{tree_of};
ghost use Rattle.vf_pdu_fields.specs.Content.{Content};
ghost use Rattle.vf_pdu_fields.specs.Meaning.{fits};
ghost use Rattle.vf_pdu_fields.specs.Reading.{checked, shape};
ghost use Rattle.vf_pdu_fields.specs.Results.{Gives};
ghost use Rattle.vf_pdu_fields.specs.Rows.{Form};

use crate::{MOST_TEXT_OCTETS, PduError};
use std::alloc::Global;
use vf_base::{BaseError, Name, Octets};
use vf_ber::Value;

/// A type whose values are the contents of fields of one form.
pub trait Field: Drop {
    ghost form: { Form };

    ghost content: { Self → Content };

    /// The contents of the part at this place, which is the field of this number: `Field` with the place where they
    /// aren't of the form, `Range` with the number where they are and out of range.
    fn of_part(alloc: Global, part: &Value, place: u32, field: u16) -> Result<Self, PduError>
        ensures { Gives (λ value. Some (content value)) result (checked place field form (shape form (tree_of part.now))) };

    /// Whether the contents are in the range of the form.
    fn is_in_range(&self) -> bool
        ensures { result ≡ fits form (content self.now) };
}

/// Any number of 64 bits.
impl Field for i64 {
    ghost use Rattle.vf_pdu_fields.specs.Content.{Number};
    ghost use Rattle.vf_pdu_fields.specs.Rows.{Any, Integer, one};

    ghost form = { one (Integer Any) };

    ghost content = { Number };

    fn of_part(_alloc: Global, part: &Value, place: u32, _field: u16) -> Result<i64, PduError> {
        match vf_ber::integer(part) {
            Some(n) => Ok(n),
            None => Err(PduError::Field { place }),
        }
    }

    #[tactic(auto, using(crate::proofs::ReadAgain::fits_long))]
    fn is_in_range(&self) -> bool {
        let _n = *self;
        true
    }
}

impl Field for Name {
    ghost use Rattle.vf_pdu_fields.specs.Content.{Octets as OctetsContent};
    ghost use Rattle.vf_pdu_fields.specs.Rows.{Text, one};

    ghost form = { one Text };

    ghost content = { OctetsContent };

    fn of_part(alloc: Global, part: &Value, place: u32, field: u16) -> Result<Name, PduError> {
        let Ok(found) = vf_ber::octets(alloc, part) else {
            return Err(PduError::NoMemory);
        };
        let Some(octets) = found else {
            return Err(PduError::Field { place });
        };
        match Name::of(alloc, octets.as_slice()) {
            Ok(name) => Ok(name),
            Err(BaseError::BadName) => Err(PduError::Range { field }),
            Err(_) => Err(PduError::NoMemory),
        }
    }

    fn is_in_range(&self) -> bool {
        !self.as_slice().is_empty()
    }
}

impl Field for Octets {
    ghost use Rattle.vf_pdu_fields.specs.Content.{Octets as OctetsContent};
    ghost use Rattle.vf_pdu_fields.specs.Rows.{String as StringField, one};

    ghost form = { one StringField };

    ghost content = { OctetsContent };

    fn of_part(alloc: Global, part: &Value, place: u32, field: u16) -> Result<Octets, PduError> {
        let Ok(found) = vf_ber::octets(alloc, part) else {
            return Err(PduError::NoMemory);
        };
        let Some(octets) = found else {
            return Err(PduError::Field { place });
        };
        if octets.len() > MOST_TEXT_OCTETS {
            return Err(PduError::Range { field });
        }
        Ok(octets)
    }

    fn is_in_range(&self) -> bool {
        self.len() <= MOST_TEXT_OCTETS
    }
}
