//! Diagnostics of responses.
ghost use Rattle.std.specs.Prelude.{◌≡◌, [], ◌∷◌, Some};
ghost use Rattle.std.specs.Option.{option_map};
ghost use Rattle.vf_ber.specs.Views.{tree_of};
ghost use Rattle.vf_pdu_fields.specs.Content.{Fields, Number, slots};
ghost use Rattle.vf_pdu_fields.specs.Reading.{shape};
ghost use Rattle.vf_pdu_parameters.specs.Parameters.{diagnostic as diagnostic_field};

use crate::inner::{integer, integer_or, parts_of};
use crate::parameters::Parameter;
use std::alloc::Global;
use vf_base::{Diagnostic, NoMemory};
use vf_ber::Value;
use vf_pdu_fields::{Field, PduError, close, is_within, natural_in};

/// What has the form of a diagnostic.
#[derive(Clone, Copy)]
struct DiagnosticForm {
    number: i64,
    first: i64,
    second: i64,
}

fn diagnostic_form(part: &Value) -> Option<DiagnosticForm>
    ensures { option_map (λ d. Fields (slots (Some (Number d.number) ∷ Some (Number d.first) ∷ Some (Number d.second) ∷ []))) result ≡ shape diagnostic_field (tree_of part.now) }
{
    let parts = parts_of(part)?.as_slice();
    let mut at = 0;
    let number = integer(parts, &mut at, 0)?;
    let first = integer_or(parts, &mut at, 1, 0)?;
    let second = integer_or(parts, &mut at, 2, 0)?;
    close(parts, at)?;
    Some(DiagnosticForm {
        number,
        first,
        second,
    })
}

impl Parameter for Diagnostic {
    ghost use Rattle.vf_pdu_parameters.specs.Parameters.{diagnostic};
    ghost use Rattle.vf_pdu_parameters.specs.ParameterSlots.{diagnostic_content};

    ghost form = { diagnostic };

    ghost content = { diagnostic_content };

    fn of_part(
        _alloc: Global,
        part: &Value,
        place: u32,
        field: u16,
    ) -> Result<Diagnostic, PduError> {
        let Some(form) = diagnostic_form(part) else {
            return Err(PduError::Field { place });
        };
        match natural_in(form.number, 1, 65535) {
            Some(number) => Ok(Diagnostic {
                number: number as u16,
                first: form.first,
                second: form.second,
            }),
            None => Err(PduError::Range { field }),
        }
    }

    fn has_form(_alloc: Global, part: &Value) -> Result<bool, NoMemory> {
        Ok(diagnostic_form(part).is_some())
    }

    fn is_in_range(&self) -> bool {
        is_within(u64::from(self.number), 1, 65_535)
            && self.first.is_in_range()
            && self.second.is_in_range()
    }
}
