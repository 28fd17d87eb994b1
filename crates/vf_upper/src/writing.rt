//! Writing of user data: a value is made of a primitive, and then spelled.
ghost use Rattle.std.specs.Prelude.{◌≡◌, ◌++◌, IfOk, OnErr, OnOk};
ghost use Rattle.vf_ber.specs.Views.{tree_of};
ghost use Rattle.vf_upper.specs.Written.{is_empty as lacks_data, IsWritable, user_octets, written};

use crate::acse::{aare, aarq, abrt, acse_data, release};
use crate::holding::{application, context, holding, holding_two, universal};
use crate::plain::put_plain;
use crate::presentation::{data_lists, in_mode, outcomes, proposals};
use crate::{CarriedValues, ContextEntry, Contexts, Offers, Primitive, Results};
use std::alloc::Global;
use vf_base::NoMemory;
use vf_ber::{Value, WriteError};

fn associate(
    alloc: Global,
    offers: &Offers,
    values: &CarriedValues,
    contexts: &[ContextEntry],
) -> Result<Value, NoMemory>
    ensures { IfOk result (λ made. tree_of made ≡ written (Primitive.Associate offers.now values.now) contexts.now) }
{
    let list = proposals(alloc, offers.as_slice())?;
    let request = aarq(alloc, values)?;
    let user_data = acse_data(alloc, contexts, request)?;
    let made = in_mode(alloc, list, user_data)?;
    Ok(made)
}

fn accepted(
    alloc: Global,
    results: &Results,
    values: &CarriedValues,
    contexts: &[ContextEntry],
) -> Result<Value, NoMemory>
    ensures { IfOk result (λ made. tree_of made ≡ written (Primitive.Accepted results.now values.now) contexts.now) }
{
    let list = outcomes(alloc, results.as_slice())?;
    let response = aare(alloc, 0, values)?;
    let user_data = acse_data(alloc, contexts, response)?;
    let made = in_mode(alloc, list, user_data)?;
    Ok(made)
}

fn refused(
    alloc: Global,
    results: &Results,
    values: &CarriedValues,
    contexts: &[ContextEntry],
) -> Result<Value, NoMemory>
    ensures { IfOk result (λ made. tree_of made ≡ written (Primitive.Refused results.now values.now) contexts.now) }
{
    let list = outcomes(alloc, results.as_slice())?;
    let response = aare(alloc, 1, values)?;
    let user_data = acse_data(alloc, contexts, response)?;
    let made = holding_two(alloc, universal(16), list, user_data)?;
    Ok(made)
}

fn requested_release(
    alloc: Global,
    values: &CarriedValues,
    contexts: &[ContextEntry],
) -> Result<Value, NoMemory>
    ensures { IfOk result (λ made. tree_of made ≡ written (Primitive.Release values.now) contexts.now) }
{
    let request = release(alloc, 2, values)?;
    let made = acse_data(alloc, contexts, request)?;
    Ok(made)
}

fn answered_release(
    alloc: Global,
    values: &CarriedValues,
    contexts: &[ContextEntry],
) -> Result<Value, NoMemory>
    ensures { IfOk result (λ made. tree_of made ≡ written (Primitive.Released values.now) contexts.now) }
{
    let response = release(alloc, 3, values)?;
    let made = acse_data(alloc, contexts, response)?;
    Ok(made)
}

fn carried_data(
    alloc: Global,
    values: &CarriedValues,
    contexts: &[ContextEntry],
) -> Result<Value, NoMemory>
    ensures { IfOk result (λ made. tree_of made ≡ written (Primitive.Data values.now) contexts.now) }
{
    let _ = contexts;
    let parts = data_lists(alloc, values)?;
    Ok(Value::Built {
        tag: application(1),
        parts,
    })
}

fn abort(
    alloc: Global,
    values: &CarriedValues,
    contexts: &[ContextEntry],
) -> Result<Value, NoMemory>
    ensures { IfOk result (λ made. tree_of made ≡ written (Primitive.Abort values.now) contexts.now) }
{
    let abort = abrt(alloc, values)?;
    let user_data = acse_data(alloc, contexts, abort)?;
    let made = holding(alloc, context(0), user_data)?;
    Ok(made)
}

/// The value that user data are.
pub(crate) fn value_of(
    alloc: Global,
    primitive: &Primitive,
    contexts: &[ContextEntry],
) -> Result<Value, NoMemory>
    ensures { IfOk result (λ made. tree_of made ≡ written primitive.now contexts.now) }
{
    match primitive {
        Primitive::Associate { offers, values } => associate(alloc, offers, values, contexts),
        Primitive::Accepted { results, values } => accepted(alloc, results, values, contexts),
        Primitive::Refused { results, values } => refused(alloc, results, values, contexts),
        Primitive::Release { values } => requested_release(alloc, values, contexts),
        Primitive::Released { values } => answered_release(alloc, values, contexts),
        Primitive::Data { values } => carried_data(alloc, values, contexts),
        Primitive::Abort { values } => abort(alloc, values, contexts),
    }
}

/// A refusal without results and without values, or an abort without values: it has no user data.
fn is_empty(primitive: &Primitive) -> bool
    ensures { result ≡ lacks_data primitive.now }
{
    match primitive {
        Primitive::Refused { results, values } => {
            results.as_slice().is_empty() && values.as_slice().is_empty()
        }
        Primitive::Abort { values } => values.as_slice().is_empty(),
        Primitive::Associate { .. } => false,
        Primitive::Accepted { .. } => false,
        Primitive::Release { .. } => false,
        Primitive::Released { .. } => false,
        Primitive::Data { .. } => false,
    }
}

/// Appends the user data of the primitive (ISO 8823, 8.2; ISO 8650-1, 9; profile), each value in \[0\] of its PDV-list
/// or EXTERNAL, an ACSE value in the first context of ACSE. Data are written bare, without the SEQUENCE that a
/// resynchronization has around them. A refusal or an abort without values has no user data.
///
/// The contexts are the accepted ones; of an association request those that it proposes.
pub fn write(
    alloc: Global,
    primitive: &Primitive,
    contexts: &Contexts,
    out: &mut Vec<u8>,
) -> Result<(), NoMemory>
    requires { IsWritable primitive.now contexts.now }
    ensures written { OnOk result (out.new.items ≡ out.old.items ++ user_octets primitive.now contexts.now) }
    ensures err { OnErr result (out.new.items ≡ out.old.items) }
{
    if is_empty(primitive) {
        return Ok(());
    }
    if let Primitive::Data { values } = primitive {
        if put_plain(values.as_slice(), out)? {
            return Ok(());
        }
    }
    let value = value_of(alloc, primitive, contexts.as_slice())?;
    match vf_ber::write(alloc, &value, out) {
        Ok(()) => Ok(()),
        Err(WriteError::TooLarge) => unreachable!(),
        Err(WriteError::NoMemory) => Err(NoMemory),
    }
}
