ghost use Rattle.std.specs.Prelude.{◌≡◌, true, false, MatchOption};
ghost use Rattle.vf_pdu_fields.specs.Content.{Octets as OctetsContent};
ghost use Rattle.vf_pdu_fields.specs.Forms.{within};
ghost use Rattle.vf_pdu_fields.specs.Rows.{Controls};
ghost use Rattle.vf_pdu_fields.specs.Slots.{attribute_controls, content_controls};

use crate::numbers::control_in;
use crate::{Field, PduError};
use std::alloc::Global;
use vf_base::Control;
use vf_ber::Value;

/// How the actions on the attributes and on the file as a whole are shared (ISO 8571-2, concurrency control).
#[derive(Clone, Copy, PartialEq, Eq)]
pub struct AttributeControls {
    pub read_attribute: Control,
    pub change_attribute: Control,
    pub delete: Control,
}

impl Field for AttributeControls {
    ghost use Rattle.vf_pdu_fields.specs.Rows.{Controls, one};
    ghost use Rattle.vf_pdu_fields.specs.Slots.{attribute_controls};

    ghost form = { one (Controls 3) };

    ghost content = { attribute_controls };

    fn of_part(
        alloc: Global,
        part: &Value,
        place: u32,
        field: u16,
    ) -> Result<AttributeControls, PduError> {
        let Ok(found) = vf_ber::octets(alloc, part) else {
            return Err(PduError::NoMemory);
        };
        let Some(octets) = found else {
            return Err(PduError::Field { place });
        };
        match attribute_controls_in(octets.as_slice()) {
            Some(controls) => Ok(controls),
            None => Err(PduError::Range { field }),
        }
    }

    #[tactic(auto, using(crate::proofs::InRange::in_range))]
    fn is_in_range(&self) -> bool {
        true
    }
}

fn attribute_controls_in(octets: &[u8]) -> Option<AttributeControls>
    ensures { MatchOption result (within (Controls 3) (OctetsContent octets.now) ≡ false) (λ controls. (attribute_controls controls ≡ OctetsContent octets.now) × (within (Controls 3) (OctetsContent octets.now) ≡ true)) }
{
    match octets {
        [read_attribute, change_attribute, delete] => {
            let read_attribute = control_in(*read_attribute)?;
            let change_attribute = control_in(*change_attribute)?;
            let delete = control_in(*delete)?;
            Some(AttributeControls {
                read_attribute,
                change_attribute,
                delete,
            })
        }
        _ => None,
    }
}

/// How the actions on the contents are shared (ISO 8571-2, concurrency control).
#[derive(Clone, Copy, PartialEq, Eq)]
pub struct ContentControls {
    pub read: Control,
    pub insert: Control,
    pub replace: Control,
    pub extend: Control,
    pub erase: Control,
}

impl Field for ContentControls {
    ghost use Rattle.vf_pdu_fields.specs.Rows.{Controls, one};
    ghost use Rattle.vf_pdu_fields.specs.Slots.{content_controls};

    ghost form = { one (Controls 5) };

    ghost content = { content_controls };

    fn of_part(
        alloc: Global,
        part: &Value,
        place: u32,
        field: u16,
    ) -> Result<ContentControls, PduError> {
        let Ok(found) = vf_ber::octets(alloc, part) else {
            return Err(PduError::NoMemory);
        };
        let Some(octets) = found else {
            return Err(PduError::Field { place });
        };
        match content_controls_in(octets.as_slice()) {
            Some(controls) => Ok(controls),
            None => Err(PduError::Range { field }),
        }
    }

    #[tactic(auto, using(crate::proofs::InRange::in_range))]
    fn is_in_range(&self) -> bool {
        true
    }
}

fn content_controls_in(octets: &[u8]) -> Option<ContentControls>
    ensures { MatchOption result (within (Controls 5) (OctetsContent octets.now) ≡ false) (λ controls. (content_controls controls ≡ OctetsContent octets.now) × (within (Controls 5) (OctetsContent octets.now) ≡ true)) }
{
    match octets {
        [read, insert, replace, extend, erase] => {
            let read = control_in(*read)?;
            let insert = control_in(*insert)?;
            let replace = control_in(*replace)?;
            let extend = control_in(*extend)?;
            let erase = control_in(*erase)?;
            Some(ContentControls {
                read,
                insert,
                replace,
                extend,
                erase,
            })
        }
        _ => None,
    }
}
