//! Values of ACSE (ISO 8650-1, 9) that are written.
ghost use Rattle.std.specs.Prelude.{◌≡◌, ◌≤◌, [], ◌∷◌, IfOk};
ghost use Rattle.vf_ber.specs.Views.{tag_of, tree_of};
ghost use Rattle.vf_upper.specs.Carried.{carried_of};
ghost use Rattle.vf_upper.specs.Written.{aare as aare_tree, aarq as aarq_tree, application as application_tag, abrt as abrt_tree, acse_data as data_tree, application_context_name as name_tree, external as external_tree, holding as held, source as source_tree, user_information as information_tree};

use crate::holding::{application, context, holding, holding_two, integer, number, universal};
use crate::negotiated::acse_id;
use crate::presentation::pdv_list;
use crate::{CarriedValue, CarriedValues, ContextEntry};
use std::alloc::Global;
use vf_base::NoMemory;
use vf_ber::{Value, Values};

fn external(alloc: Global, value: &CarriedValue) -> Result<Value, NoMemory>
    ensures { IfOk result (λ made. tree_of made ≡ external_tree (carried_of value.now)) }
{
    let id = integer(alloc, value.context)?;
    let copied = value.value.copy(alloc)?;
    let held = holding(alloc, context(0), copied)?;
    let made = holding_two(alloc, universal(8), id, held)?;
    Ok(made)
}

/// User information with these values.
fn user_information(alloc: Global, values: &CarriedValues) -> Result<Value, NoMemory>
    ensures { IfOk result (λ made. tree_of made ≡ information_tree values.now) }
{
    let mut parts = Values::new(alloc);
    for value in values.as_slice() {
        let part = external(alloc, value)?;
        parts.push(part)?;
    }
    Ok(Value::Built {
        tag: context(30),
        parts,
    })
}

/// The application context of FTAM.
fn application_context_name(alloc: Global) -> Result<Value, NoMemory>
    ensures { IfOk result (λ made. tree_of made ≡ name_tree) }
{
    let name = Value::of_octets(alloc, universal(6), &[0x28, 0xC2, 0x7B, 1, 1])?;
    let made = holding(alloc, context(1), name)?;
    Ok(made)
}

pub(crate) fn aarq(alloc: Global, values: &CarriedValues) -> Result<Value, NoMemory>
    ensures { IfOk result (λ made. tree_of made ≡ aarq_tree values.now) }
{
    let name = application_context_name(alloc)?;
    let information = user_information(alloc, values)?;
    let made = holding_two(alloc, application(0), name, information)?;
    Ok(made)
}

/// The source of the diagnostic: the ACSE user, with no reason.
fn source(alloc: Global) -> Result<Value, NoMemory>
    ensures { IfOk result (λ made. tree_of made ≡ source_tree) }
{
    let reason = integer(alloc, 0)?;
    let within = holding(alloc, context(1), reason)?;
    let made = holding(alloc, context(3), within)?;
    Ok(made)
}

/// An AARE with this result.
pub(crate) fn aare(alloc: Global, outcome: i64, values: &CarriedValues) -> Result<Value, NoMemory>
    ensures { IfOk result (λ made. tree_of made ≡ aare_tree outcome values.now) }
{
    let outcome = integer(alloc, outcome)?;
    let mut parts = Values::new(alloc);
    let name = application_context_name(alloc)?;
    parts.push(name)?;
    let result = holding(alloc, context(2), outcome)?;
    parts.push(result)?;
    let source = source(alloc)?;
    parts.push(source)?;
    let information = user_information(alloc, values)?;
    parts.push(information)?;
    Ok(Value::Built {
        tag: application(1),
        parts,
    })
}

/// An RLRQ, with tag 2, or an RLRE, with tag 3.
pub(crate) fn release(alloc: Global, tag: u16, values: &CarriedValues) -> Result<Value, NoMemory>
    requires { tag ≤ 30 }
    ensures { IfOk result (λ made. tree_of made ≡ held (application_tag tag) (information_tree values.now ∷ [])) }
{
    let information = user_information(alloc, values)?;
    let made = holding(alloc, application(tag), information)?;
    Ok(made)
}

pub(crate) fn abrt(alloc: Global, values: &CarriedValues) -> Result<Value, NoMemory>
    ensures { IfOk result (λ made. tree_of made ≡ abrt_tree values.now) }
{
    let source = number(alloc, 0, 0)?;
    let information = user_information(alloc, values)?;
    let made = holding_two(alloc, application(4), source, information)?;
    Ok(made)
}

/// User data with an ACSE value.
pub(crate) fn acse_data(
    alloc: Global,
    contexts: &[ContextEntry],
    apdu: Value,
) -> Result<Value, NoMemory>
    ensures { IfOk result (λ made. tree_of made ≡ data_tree contexts.now (tree_of apdu)) }
{
    let list = pdv_list(alloc, acse_id(contexts), apdu)?;
    let made = holding(alloc, application(1), list)?;
    Ok(made)
}
