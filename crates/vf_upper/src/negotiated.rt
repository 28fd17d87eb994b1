//! The contexts in which values stand, and their abstract syntaxes.
ghost use Rattle.std.specs.Prelude.{◌≡◌, List, ◌∷◌, map, true};
ghost use Rattle.std.specs.Option.{option_copied};
ghost use Rattle.vf_upper.specs.Primitives.{answered, offered, with_result, syntax_of};
ghost use Rattle.vf_upper.specs.Written.{acse_id as acse_context};

use crate::{ContextEntry, Offer};
use vf_base::Oid;
use vf_upper_grammar::{is_acse, is_ours};

/// The abstract syntax of an accepted context.
pub(crate) fn accepted_syntax(contexts: &[ContextEntry], id: i64) -> Option<&Oid>
    ensures { option_copied result ≡ syntax_of id (map (with_result true) contexts.now) }
{
    for entry in contexts {
        if entry.id == id {
            return Some(&entry.syntax);
        }
    }
    None
}

/// The abstract syntax of a proposed context that its result accepts.
pub(crate) fn answered_syntax<'a>(
    contexts: &'a [ContextEntry],
    results: &[bool],
    id: i64,
) -> Option<&'a Oid>
    ensures { option_copied result ≡ syntax_of id (answered contexts.now results.now) }
{
    let mut answers = results;
    for entry in contexts {
        let (accepted, after) = answer(answers);
        if entry.id == id {
            return if accepted { Some(&entry.syntax) } else { None };
        }
        answers = after;
    }
    None
}

/// The first result, and those after it; a proposal without one isn't accepted.
fn answer(results: &[bool]) -> (bool, &[bool])
    ensures { (entry : ContextEntry) (entries : List ContextEntry) → answered (entry ∷ entries) results.now ≡ with_result result.0 entry ∷ answered entries result.1.now }
{
    match results.split_first() {
        Some((accepted, others)) => (*accepted, others),
        None => (false, results),
    }
}

/// The abstract syntax of a context of these proposals that a called end accepts.
pub(crate) fn offered_syntax(offers: &[Offer], id: i64) -> Option<&Oid>
    ensures { option_copied result ≡ syntax_of id (map offered offers.now) }
{
    for offer in offers {
        if offer.id == id {
            return if offer.ber && is_ours(&offer.syntax) {
                Some(&offer.syntax)
            } else {
                None
            };
        }
    }
    None
}

/// The first context of ACSE, or 0 where there is none.
pub(crate) fn acse_id(contexts: &[ContextEntry]) -> i64
    ensures { result ≡ acse_context contexts.now }
{
    for entry in contexts {
        if let Some(syntax) = accepted_syntax(contexts, entry.id)
            && is_acse(syntax)
        {
            return entry.id;
        }
    }
    0
}
