//! The items of access control lists: terms, and grants, which are terms as they are shown.
ghost use Rattle.std.specs.Prelude.{◌≡◌, false, true, IfOk, MatchOption};
ghost use Rattle.std.specs.Option.{option_and_then, option_map};
ghost use Rattle.vf_ber.specs.Views.{tree_of};
ghost use Rattle.vf_pdu_parameters.specs.FormViews.{grant_view, term_view};
ghost use Rattle.vf_pdu_fields.specs.Meaning.{all_fit};
ghost use Rattle.vf_pdu_fields.specs.Reading.{sequence_parts, shapes};
ghost use Rattle.vf_pdu_parameters.specs.Parameters.{grant as grant_row, term as term_row};
ghost use Rattle.vf_pdu_parameters.specs.ParameterSlots.{grant_slots, term_slots};

use crate::Grant;
use crate::inner::{integer, maybe_name, maybe_octets_in, maybe_short, sequence_of};
use crate::lists::Item;
use std::alloc::Global;
use vf_base::{Actions, NoMemory, Octets, Term};
use vf_ber::{Value, Values};
use vf_pdu_fields::{
    close, is_within, maybe_in_range, natural_in, put_integer, put_maybe_string, put_maybe_text,
};

/// What has the form of a term.
#[derive(Drop)]
pub struct TermForm {
    identity: Option<Octets>,
    actions: i64,
    password: Option<Octets>,
}

fn term_form(alloc: Global, part: &Value) -> Result<Option<TermForm>, NoMemory>
    ensures { IfOk result (λ found. option_map term_view found ≡ option_and_then (shapes term_row) (sequence_parts (tree_of part.now))) }
{
    let Some(fields) = sequence_of(part) else {
        return Ok(None);
    };
    let parts = fields.as_slice();
    let mut at = 0;
    let Some(identity) = maybe_octets_in(alloc, parts, &mut at, 0)? else {
        return Ok(None);
    };
    let Some(actions) = integer(parts, &mut at, 1) else {
        return Ok(None);
    };
    let Some(password) = maybe_octets_in(alloc, parts, &mut at, 2)? else {
        return Ok(None);
    };
    let Some(()) = close(parts, at) else {
        return Ok(None);
    };
    Ok(Some(TermForm {
        identity,
        actions,
        password,
    }))
}

fn term_in(alloc: Global, form: &TermForm) -> Result<Option<Term>, NoMemory>
    ensures { IfOk result (λ found. MatchOption found (all_fit term_row (term_view form.now) ≡ false) (λ made. (term_slots made ≡ term_view form.now) × (all_fit term_row (term_view form.now) ≡ true))) }
{
    let Some(identity) = maybe_name(alloc, &form.identity)? else {
        return Ok(None);
    };
    let Some(actions) = natural_in(form.actions, 0, 255) else {
        return Ok(None);
    };
    let Some(password) = maybe_short(alloc, &form.password)? else {
        return Ok(None);
    };
    Ok(Some(Term {
        identity,
        actions: Actions {
            value: actions as u8,
        },
        password,
    }))
}

impl Item for Term {
    type Form = TermForm;

    ghost its_row = { term_row };

    ghost its_slots = { term_slots };

    ghost its_view = { term_view };

    fn form_of(alloc: Global, part: &Value) -> Result<Option<TermForm>, NoMemory> {
        let found = term_form(alloc, part)?;
        Ok(found)
    }

    fn in_range(alloc: Global, form: &TermForm) -> Result<Option<Term>, NoMemory> {
        let found = term_in(alloc, form)?;
        Ok(found)
    }

    fn parts(&self, alloc: Global) -> Result<Values, NoMemory> {
        let mut parts = Values::new(alloc);
        put_maybe_text(alloc, &mut parts, 0, &self.identity)?;
        put_integer(alloc, &mut parts, 1, i64::from(self.actions.value))?;
        put_maybe_string(alloc, &mut parts, 2, &self.password)?;
        Ok(parts)
    }

    #[tactic(auto, using(vf_pdu_fields::proofs::InRange::by_slots))]
    fn fits(&self) -> bool {
        maybe_in_range(&self.identity)
            && is_within(u64::from(self.actions.value), 0, 255)
            && maybe_in_range(&self.password)
    }
}

/// What has the form of a grant.
#[derive(Drop)]
pub struct GrantForm {
    identity: Option<Octets>,
    actions: i64,
}

fn grant_form(alloc: Global, part: &Value) -> Result<Option<GrantForm>, NoMemory>
    ensures { IfOk result (λ found. option_map grant_view found ≡ option_and_then (shapes grant_row) (sequence_parts (tree_of part.now))) }
{
    let Some(fields) = sequence_of(part) else {
        return Ok(None);
    };
    let parts = fields.as_slice();
    let mut at = 0;
    let Some(identity) = maybe_octets_in(alloc, parts, &mut at, 0)? else {
        return Ok(None);
    };
    let Some(actions) = integer(parts, &mut at, 1) else {
        return Ok(None);
    };
    let Some(()) = close(parts, at) else {
        return Ok(None);
    };
    Ok(Some(GrantForm { identity, actions }))
}

fn grant_in(alloc: Global, form: &GrantForm) -> Result<Option<Grant>, NoMemory>
    ensures { IfOk result (λ found. MatchOption found (all_fit grant_row (grant_view form.now) ≡ false) (λ made. (grant_slots made ≡ grant_view form.now) × (all_fit grant_row (grant_view form.now) ≡ true))) }
{
    let Some(identity) = maybe_name(alloc, &form.identity)? else {
        return Ok(None);
    };
    let Some(actions) = natural_in(form.actions, 0, 255) else {
        return Ok(None);
    };
    Ok(Some(Grant {
        identity,
        actions: Actions {
            value: actions as u8,
        },
    }))
}

impl Item for Grant {
    type Form = GrantForm;

    ghost its_row = { grant_row };

    ghost its_slots = { grant_slots };

    ghost its_view = { grant_view };

    fn form_of(alloc: Global, part: &Value) -> Result<Option<GrantForm>, NoMemory> {
        let found = grant_form(alloc, part)?;
        Ok(found)
    }

    fn in_range(alloc: Global, form: &GrantForm) -> Result<Option<Grant>, NoMemory> {
        let found = grant_in(alloc, form)?;
        Ok(found)
    }

    fn parts(&self, alloc: Global) -> Result<Values, NoMemory> {
        let mut parts = Values::new(alloc);
        put_maybe_text(alloc, &mut parts, 0, &self.identity)?;
        put_integer(alloc, &mut parts, 1, i64::from(self.actions.value))?;
        Ok(parts)
    }

    #[tactic(auto, using(vf_pdu_fields::proofs::InRange::by_slots))]
    fn fits(&self) -> bool {
        maybe_in_range(&self.identity) && is_within(u64::from(self.actions.value), 0, 255)
    }
}
