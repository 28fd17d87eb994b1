//! Contents types.
ghost use Rattle.std.specs.Prelude.{◌≡◌, false, true, IfOk, MatchOption};
ghost use Rattle.std.specs.Option.{option_map};
ghost use Rattle.vf_ber.specs.Views.{tree_of};
ghost use Rattle.vf_pdu_parameters.specs.FormViews.{contents_view};
ghost use Rattle.vf_pdu_fields.specs.Meaning.{fits};
ghost use Rattle.vf_pdu_fields.specs.Reading.{shape};
ghost use Rattle.vf_pdu_parameters.specs.Parameters.{contents as contents_field};
ghost use Rattle.vf_pdu_parameters.specs.ParameterSlots.{contents_content};

use crate::inner::{integer_or, is_oid, oid, parts_of};
use crate::parameters::Parameter;
use std::alloc::Global;
use vf_base::{Contents, NoMemory, Oid};
use vf_ber::Value;
use vf_pdu_fields::{PduError, close, is_within, natural_in};

/// What has the form of a contents type.
#[derive(Drop)]
struct ContentsForm {
    kind: Oid,
    class: i64,
    longest: i64,
    significance: i64,
}

fn contents_form(alloc: Global, part: &Value) -> Result<Option<ContentsForm>, NoMemory>
    ensures { IfOk result (λ found. option_map contents_view found ≡ shape contents_field (tree_of part.now)) }
{
    let Some(fields) = parts_of(part) else {
        return Ok(None);
    };
    let parts = fields.as_slice();
    let mut at = 0;
    let Some(kind) = oid(alloc, parts, &mut at, 0)? else {
        return Ok(None);
    };
    let Some(class) = integer_or(parts, &mut at, 1, 25) else {
        return Ok(None);
    };
    let Some(longest) = integer_or(parts, &mut at, 2, 0) else {
        return Ok(None);
    };
    let Some(significance) = integer_or(parts, &mut at, 3, 0) else {
        return Ok(None);
    };
    let Some(()) = close(parts, at) else {
        return Ok(None);
    };
    Ok(Some(ContentsForm {
        kind,
        class,
        longest,
        significance,
    }))
}

/// The contents type, where its numbers are in range.
fn contents_in(form: ContentsForm) -> Option<Contents>
    ensures { MatchOption result (fits contents_field (contents_view form) ≡ false) (λ k. (contents_content k ≡ contents_view form) × (fits contents_field (contents_view form) ≡ true)) }
{
    let class = natural_in(form.class, 0, 255)?;
    let longest = natural_in(form.longest, 0, 4_294_967_295)?;
    let significance = natural_in(form.significance, 0, 255)?;
    Some(Contents {
        kind: form.kind,
        class: class as u8,
        longest: longest as u32,
        significance: significance as u8,
    })
}

impl Parameter for Contents {
    ghost use Rattle.vf_pdu_parameters.specs.Parameters.{contents};
    ghost use Rattle.vf_pdu_parameters.specs.ParameterSlots.{contents_content};

    ghost form = { contents };

    ghost content = { contents_content };

    fn of_part(alloc: Global, part: &Value, place: u32, field: u16) -> Result<Contents, PduError> {
        let Ok(found) = contents_form(alloc, part) else {
            return Err(PduError::NoMemory);
        };
        let Some(form) = found else {
            return Err(PduError::Field { place });
        };
        match contents_in(form) {
            Some(contents) => Ok(contents),
            None => Err(PduError::Range { field }),
        }
    }

    fn has_form(alloc: Global, part: &Value) -> Result<bool, NoMemory> {
        let found = contents_form(alloc, part)?;
        Ok(found.is_some())
    }

    fn is_in_range(&self) -> bool {
        is_oid(&self.kind)
            && is_within(u64::from(self.class), 0, 255)
            && is_within(u64::from(self.longest), 0, 4_294_967_295)
            && is_within(u64::from(self.significance), 0, 255)
    }
}
