//! Stamps of attributes.
ghost use Rattle.std.specs.Prelude.{◌≡◌, ◌<◌, ◌^◌, false, true, None, Some, IfOk, MatchOption, length};
ghost use Rattle.std.specs.Option.{option_map};
ghost use Rattle.vf_ber.specs.Views.{tree_of};
ghost use Rattle.vf_pdu_fields.specs.Content.{Octets as OctetsContent};
ghost use Rattle.vf_pdu_parameters.specs.FormViews.{stamp_view};
ghost use Rattle.vf_pdu_fields.specs.Meaning.{fits};
ghost use Rattle.vf_pdu_fields.specs.Reading.{parts_after, part_here, next_place, rest, shape, slot_at};
ghost use Rattle.vf_pdu_fields.specs.Rows.{Date, one};
ghost use Rattle.vf_pdu_parameters.specs.Parameters.{stamp as stamp_field};
ghost use Rattle.vf_pdu_parameters.specs.ParameterSlots.{stamp_content};

use crate::Stamp;
use crate::date::{has_date_form, is_date};
use crate::inner::{name_in, octets, parts_of};
use crate::parameters::Parameter;
use std::alloc::Global;
use vf_base::{NoMemory, Octets};
use vf_ber::Value;
use vf_pdu_fields::{Field, PduError, close, take};

/// What has the form of a stamp.
#[derive(Drop)]
struct StampForm {
    date: Octets,
    identity: Octets,
}

/// A date that has to be there.
#[tactic(auto, unfolding(vf_pdu_fields::specs::Reading::slot_at))]
fn date(
    alloc: Global,
    parts: &[Value],
    at: &mut u32,
    number: u16,
) -> Result<Option<Octets>, NoMemory>
    requires { length parts.now < 2 ^ 32 }
    ensures value { IfOk result (λ found. option_map (λ given. Some (OctetsContent given)) found ≡ slot_at (shape (one Date)) None (part_here number (rest parts.now at.old))) }
    ensures place { at.new ≡ next_place at.old (part_here number (rest parts.now at.old)) }
    ensures others { rest parts.now at.new ≡ parts_after number (rest parts.now at.old) }
{
    let Some(part) = take(parts, at, number) else {
        return Ok(None);
    };
    let Some(given) = vf_ber::octets(alloc, part)? else {
        return Ok(None);
    };
    if !has_date_form(given.as_slice()) {
        return Ok(None);
    }
    Ok(Some(given))
}

fn stamp_form(alloc: Global, part: &Value) -> Result<Option<StampForm>, NoMemory>
    ensures { IfOk result (λ found. option_map stamp_view found ≡ shape stamp_field (tree_of part.now)) }
{
    let Some(fields) = parts_of(part) else {
        return Ok(None);
    };
    let parts = fields.as_slice();
    let mut at = 0;
    let Some(date) = date(alloc, parts, &mut at, 0)? else {
        return Ok(None);
    };
    let Some(identity) = octets(alloc, parts, &mut at, 1)? else {
        return Ok(None);
    };
    let Some(()) = close(parts, at) else {
        return Ok(None);
    };
    Ok(Some(StampForm { date, identity }))
}

fn stamp_in(alloc: Global, form: StampForm) -> Result<Option<Stamp>, NoMemory>
    ensures { IfOk result (λ found. MatchOption found (fits stamp_field (stamp_view form) ≡ false) (λ made. (stamp_content made ≡ stamp_view form) × (fits stamp_field (stamp_view form) ≡ true))) }
{
    if !is_date(form.date.as_slice()) {
        return Ok(None);
    }
    let Some(identity) = name_in(alloc, &form.identity)? else {
        return Ok(None);
    };
    Ok(Some(Stamp {
        date: form.date,
        identity,
    }))
}

impl Parameter for Stamp {
    ghost use Rattle.vf_pdu_parameters.specs.Parameters.{stamp};
    ghost use Rattle.vf_pdu_parameters.specs.ParameterSlots.{stamp_content};

    ghost form = { stamp };

    ghost content = { stamp_content };

    fn of_part(alloc: Global, part: &Value, place: u32, field: u16) -> Result<Stamp, PduError> {
        let Ok(found) = stamp_form(alloc, part) else {
            return Err(PduError::NoMemory);
        };
        let Some(form) = found else {
            return Err(PduError::Field { place });
        };
        match stamp_in(alloc, form) {
            Ok(Some(made)) => Ok(made),
            Ok(None) => Err(PduError::Range { field }),
            Err(_) => Err(PduError::NoMemory),
        }
    }

    fn has_form(alloc: Global, part: &Value) -> Result<bool, NoMemory> {
        let found = stamp_form(alloc, part)?;
        Ok(found.is_some())
    }

    fn is_in_range(&self) -> bool {
        is_date(self.date.as_slice()) && self.identity.is_in_range()
    }
}
