//! Access control lists as they are shown: without their passwords.
ghost use Rattle.std.specs.Prelude.{◌≡◌, IfOk, map};
ghost use Rattle.vf_filestore.specs.Replies.{asked_for, grant_of};

use crate::numbers::is_asked;
use std::alloc::Global;
use vf_base::{NoMemory, Sequence, Term, Terms, copy_option};
use vf_pdu_parameters::{Grant, Grants};

/// The terms, where they are asked for, also where there are none.
pub(crate) fn asked_terms(
    alloc: Global,
    names: u16,
    number: u16,
    terms: &Terms,
) -> Result<Option<Grants>, NoMemory>
    ensures { IfOk result (λ shown. shown ≡ asked_for names number (map grant_of terms.now)) }
{
    if !is_asked(names, number) {
        return Ok(None);
    }
    let shown = grants(alloc, terms.as_slice())?;
    Ok(Some(shown))
}

fn grants(alloc: Global, terms: &[Term]) -> Result<Grants, NoMemory>
    ensures { IfOk result (λ shown. shown ≡ map grant_of terms.now) }
{
    let mut shown = Sequence::new(alloc);
    for term in terms {
        let grant = grant(alloc, term)?;
        shown.push(grant)?;
    }
    Ok(shown)
}

/// The octets of the identity are shared.
fn grant(alloc: Global, term: &Term) -> Result<Grant, NoMemory>
    ensures { IfOk result (λ grant. grant ≡ grant_of term.now) }
{
    let identity = copy_option(alloc, &term.identity)?;
    Ok(Grant {
        identity,
        actions: term.actions,
    })
}
