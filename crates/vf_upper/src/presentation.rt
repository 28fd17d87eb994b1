//! Values of presentation (ISO 8823, 8.2) that are written.
ghost use Rattle.std.specs.Prelude.{◌≡◌, [], ◌∷◌, IfOk, map, pos};
ghost use Rattle.vf_ber.specs.Contents.{oid_octets};
ghost use Rattle.vf_ber.specs.Tree.{plain};
ghost use Rattle.vf_ber.specs.Views.{tag_of, tree_of};
ghost use Rattle.vf_upper.specs.Carried.{carried_of};
ghost use Rattle.vf_upper_grammar.specs.Syntaxes.{ber as ber_arcs};
ghost use Rattle.vf_upper.specs.Written.{carried_list, context as context_tag, holding as held, in_mode as mode_of, outcome as outcome_tree, pdv_list as pdv_tree, proposal as proposal_tree, trees};

use crate::holding::{
    context, holding, holding_three, holding_two, integer, number, object_identifier, universal,
};
use crate::{CarriedValue, CarriedValues, Offer};
use std::alloc::Global;
use vf_base::NoMemory;
use vf_ber::{Tag, Value, Values};

/// The object identifier of the basic encoding rules.
fn ber(alloc: Global, tag: Tag) -> Result<Value, NoMemory>
    ensures { IfOk result (λ made. tree_of made ≡ plain (tag_of tag) (oid_octets ber_arcs)) }
{
    let made = Value::of_octets(alloc, tag, &[0x51, 1])?;
    Ok(made)
}

/// A PDV-list with one value.
pub(crate) fn pdv_list(alloc: Global, id: i64, value: Value) -> Result<Value, NoMemory>
    ensures { IfOk result (λ made. tree_of made ≡ pdv_tree id (tree_of value)) }
{
    let id = integer(alloc, id)?;
    let held = holding(alloc, context(0), value)?;
    let made = holding_two(alloc, universal(16), id, held)?;
    Ok(made)
}

fn carried(alloc: Global, value: &CarriedValue) -> Result<Value, NoMemory>
    ensures { IfOk result (λ made. tree_of made ≡ carried_list (carried_of value.now)) }
{
    let held = value.value.copy(alloc)?;
    let made = pdv_list(alloc, value.context, held)?;
    Ok(made)
}

/// A PDV-list for each of the values.
pub(crate) fn data_lists(alloc: Global, values: &CarriedValues) -> Result<Values, NoMemory>
    ensures { IfOk result (λ made. made ≡ trees (map carried_list values.now)) }
{
    let mut made = Values::new(alloc);
    for value in values.as_slice() {
        let list = carried(alloc, value)?;
        made.push(list)?;
    }
    Ok(made)
}

/// An entry of the context definition list.
fn proposal(alloc: Global, offer: &Offer) -> Result<Value, NoMemory>
    ensures { IfOk result (λ made. tree_of made ≡ proposal_tree offer.now) }
{
    let id = integer(alloc, offer.id)?;
    let syntax = object_identifier(alloc, &offer.syntax)?;
    let rules = ber(alloc, universal(6))?;
    let transfers = holding(alloc, universal(16), rules)?;
    let made = holding_three(alloc, universal(16), id, syntax, transfers)?;
    Ok(made)
}

/// The context definition list.
pub(crate) fn proposals(alloc: Global, offers: &[Offer]) -> Result<Value, NoMemory>
    ensures { IfOk result (λ made. tree_of made ≡ held (context_tag 4) (map proposal_tree offers.now)) }
{
    let mut parts = Values::new(alloc);
    for offer in offers {
        let part = proposal(alloc, offer)?;
        parts.push(part)?;
    }
    Ok(Value::Built {
        tag: context(4),
        parts,
    })
}

/// An entry of the result list.
fn outcome(alloc: Global, accepted: bool) -> Result<Value, NoMemory>
    ensures { IfOk result (λ made. tree_of made ≡ outcome_tree accepted) }
{
    if accepted {
        let result = number(alloc, 0, 0)?;
        let rules = ber(alloc, context(1))?;
        let made = holding_two(alloc, universal(16), result, rules)?;
        return Ok(made);
    }
    let result = number(alloc, 0, 2)?;
    let made = holding(alloc, universal(16), result)?;
    Ok(made)
}

/// The result list.
pub(crate) fn outcomes(alloc: Global, results: &[bool]) -> Result<Value, NoMemory>
    ensures { IfOk result (λ made. tree_of made ≡ held (context_tag 5) (map outcome_tree results.now)) }
{
    let mut parts = Values::new(alloc);
    for accepted in results {
        let part = outcome(alloc, *accepted)?;
        parts.push(part)?;
    }
    Ok(Value::Built {
        tag: context(5),
        parts,
    })
}

/// The mode selector, and two parameters of normal mode.
pub(crate) fn in_mode(alloc: Global, list: Value, user_data: Value) -> Result<Value, NoMemory>
    ensures { IfOk result (λ made. tree_of made ≡ mode_of (tree_of list ∷ tree_of user_data ∷ [])) }
{
    let mode = number(alloc, 0, 1)?;
    let selector = holding(alloc, context(0), mode)?;
    let parameters = holding_two(alloc, context(2), list, user_data)?;
    let made = holding_two(alloc, universal(17), selector, parameters)?;
    Ok(made)
}
