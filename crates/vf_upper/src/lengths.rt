//! How many octets the user data of one value take, by its context and its length. The value isn't made, so that no memory
//! is wanted; `None` stands for more than user data may have.
ghost use Rattle.std.specs.Prelude.{◌≡◌, ◌≤◌, ◌&&◌, ◌∷◌, [], List, Some, length, map};
ghost use Rattle.vf_ber.specs.Spelling.{spell};
ghost use Rattle.vf_ber.specs.Tree.{Tree, depth};
ghost use Rattle.vf_upper.specs.Laws.{Measures, in_context};
ghost use Rattle.vf_upper.specs.Sizes.{acse_size as acse_length, both as both_lengths, fitting as fitting_length, listed_size, outcome_size as outcome_length, placed_size as placed_of, wrapped as wrapped_length};
ghost use Rattle.vf_upper.specs.Written.{acse_id as acse_context};
ghost use Rattle.vf_upper.specs.declared.contexts.ContextEntry.{ContextEntry};
ghost use Rattle.vf_upper.specs.declared.primitive.Primitive.TheVariants.{Accepted, Data, Refused};
ghost use Rattle.vf_upper_grammar.specs.Syntaxes.{is_ours as ours_test};

use crate::sizes::{acse_size, both, fitting, in_mode_size, outcome_size, placed_size, wrapped};
use crate::{ContextEntry, Offer};
use vf_upper_grammar::is_ours;

/// A value of so many octets in its context.
fn placed_length(context: i64, octets: u32) -> Option<u32>
    ensures { result ≡ both_lengths (Some 0) (placed_of context (fitting_length octets)) }
{
    let placed = placed_size(context, fitting(u64::from(octets)));
    both(Some(0), placed)
}

/// User data with a response of ACSE to an association request, which has this value in its user information.
fn response_length(contexts: &[ContextEntry], context: i64, octets: u32) -> Option<u32>
    ensures { result ≡ acse_length (acse_context contexts.now) (wrapped_length (both_lengths (Some 21) (wrapped_length (both_lengths (Some 0) (placed_of context (fitting_length octets)))))) }
{
    let information = wrapped(placed_length(context, octets));
    acse_size(contexts, wrapped(both(Some(21), information)))
}

/// The list of a called end's results of these proposals.
fn results_length(offers: &[Offer]) -> Option<u32>
    ensures { result ≡ listed_size (map outcome_length (map (λ offer. offer.ber && ours_test offer.syntax) offers.now)) }
{
    let mut total = Some(0);
    for offer in offers {
        total = both(total, outcome_size(offer.ber && is_ours(&offer.syntax)));
    }
    wrapped(total)
}

/// The octets of P-DATA with a value of so many octets in this context.
pub fn data_length(context: i64, octets: u32) -> Option<u32>
    ensures { (tree : Tree) (contexts : List ContextEntry) → depth tree ≤ 23 → length (spell tree) ≡ octets → Measures (Data (in_context context tree ∷ [])) contexts result }
{
    wrapped(placed_length(context, octets))
}

/// The octets of a called end's acceptance of these proposals, with a value of so many octets in this context.
pub fn acceptance_length(
    offers: &[Offer],
    contexts: &[ContextEntry],
    context: i64,
    octets: u32,
) -> Option<u32>
    ensures { (tree : Tree) → depth tree ≤ 23 → length (spell tree) ≡ octets → Measures (Accepted (map (λ offer. offer.ber && ours_test offer.syntax) offers.now) (in_context context tree ∷ [])) contexts.now result }
{
    in_mode_size(
        results_length(offers),
        response_length(contexts, context, octets),
    )
}

/// The octets of a called end's refusal of these proposals, with a value of so many octets in this context.
pub fn refusal_length(
    offers: &[Offer],
    contexts: &[ContextEntry],
    context: i64,
    octets: u32,
) -> Option<u32>
    ensures { (tree : Tree) → depth tree ≤ 23 → length (spell tree) ≡ octets → Measures (Refused (map (λ offer. offer.ber && ours_test offer.syntax) offers.now) (in_context context tree ∷ [])) contexts.now result }
{
    let list = results_length(offers);
    wrapped(both(list, response_length(contexts, context, octets)))
}
