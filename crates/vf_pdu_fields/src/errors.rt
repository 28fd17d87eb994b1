use vf_base::NoMemory;
use vf_ber::Tag;

/// Why a value means no PDU or data element. A place is the index of a part, from 0 on; a field is the number of its tag.
#[derive(Clone, Copy, Debug, PartialEq, Eq)]
pub enum PduError {
    /// The value has the tag of no PDU or data element; its tag.
    Unknown { tag: Tag },
    /// The tag of this part is none of the row's, doesn't rise, or its contents aren't of the field's form.
    Field { place: u32 },
    /// This field has its form, and a number, a length or a set outside its range.
    Range { field: u16 },
    /// This required field is absent, and none below it.
    Missing { field: u16 },
    /// Memory is wanting.
    NoMemory,
}

impl From<NoMemory> for PduError {
    ghost use Rattle.std.specs.Prelude.{◌≡◌};
    ghost use Rattle.vf_pdu_fields.specs.declared.errors.PduError.TheVariants as errors;

    ghost from_gives = { λ _ error. error ≡ errors.NoMemory };

    fn from(_error: NoMemory) -> PduError {
        PduError::NoMemory
    }
}
