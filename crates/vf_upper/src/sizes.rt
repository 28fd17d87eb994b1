//! How long user data are, by the lengths of the values that they carry. Nothing is made, so that no memory is wanted;
//! `None` stands for more than a value may have.
ghost use Rattle.std.specs.Prelude.{◌≡◌, ◌≤◌, length, map, Some};
ghost use Rattle.std.specs.List.{flat_map};
ghost use Rattle.vf_ber.specs.Contents.{arc_octets, integer_octets, oid_octets};
ghost use Rattle.vf_ber.specs.Spelling.{length_octets};
ghost use Rattle.vf_upper.specs.Carried.{carried_of};
ghost use Rattle.vf_upper.specs.Written.{acse_id as acse_context};
ghost use Rattle.vf_upper.specs.Sizes.{acse_size as acse_length, all as all_lengths, apdu_size as apdu_length, both as both_lengths, carried_size as carried_length, fitting as fitting_length, in_mode_size as in_mode_length, information_size as information_length, integer_size as integer_length, listed_size, outcome_size as outcome_length, placed_size as placed_length, proposal_size as proposal_length, size_of as length_of, wrapped as wrapped_length};

use crate::negotiated::acse_id;
use crate::{CarriedValue, CarriedValues, ContextEntry, Offer, Primitive};
use vf_base::{MOST_VALUE_OCTETS, Oid};

pub(crate) fn fitting(len: u64) -> Option<u32>
    ensures { result ≡ fitting_length len }
{
    if len <= u64::from(MOST_VALUE_OCTETS) {
        Some(len as u32)
    } else {
        None
    }
}

/// Two values in turn.
pub(crate) fn both(first: Option<u32>, second: Option<u32>) -> Option<u32>
    ensures { result ≡ both_lengths first second }
{
    fitting(u64::from(first?) + u64::from(second?))
}

/// A value with parts of this length.
pub(crate) fn wrapped(parts: Option<u32>) -> Option<u32>
    ensures { result ≡ wrapped_length parts }
{
    let len = parts?;
    fitting(1 + u64::from(length_len(len)) + u64::from(len))
}

/// The number of octets of a length.
fn length_len(len: u32) -> u32
    ensures size { result ≡ length (length_octets len) }
    ensures small { result ≤ 4 }
{
    if len < 128 {
        1
    } else if len < 256 {
        2
    } else if len < 65536 {
        3
    } else {
        4
    }
}

/// An integer with its identifier and length.
fn integer_size(n: i64) -> Option<u32>
    ensures { result ≡ integer_length n }
{
    wrapped(Some(vf_ber::integer_len(n)))
}

fn arc_len(arc: u32) -> u32
    ensures len { result ≡ length (arc_octets arc) }
    ensures small { result ≤ 5 }
{
    if arc < 128 {
        1
    } else if arc < 16384 {
        2
    } else if arc < 2_097_152 {
        3
    } else if arc < 268_435_456 {
        4
    } else {
        5
    }
}

fn arcs_len(arcs: &[u32]) -> u32
    requires { length arcs.now ≤ 16 }
    ensures len { result ≡ length (flat_map arc_octets arcs.now) }
    ensures small { result ≤ 80 }
{
    let mut len = 0;
    for arc in arcs {
        len += arc_len(*arc);
    }
    len
}

/// The contents of an object identifier.
fn oid_len(oid: &Oid) -> u32
    ensures len { result ≡ length (oid_octets oid.now) }
    ensures small { result ≤ 85 }
{
    match oid.arcs() {
        [first, second, others @ ..] => arc_len(40 * *first + *second) + arcs_len(others),
        _ => 0,
    }
}

/// A context and a value in \[0\]: a PDV-list or an EXTERNAL.
pub(crate) fn placed_size(id: i64, size: Option<u32>) -> Option<u32>
    ensures { result ≡ placed_length id size }
{
    wrapped(both(integer_size(id), wrapped(size)))
}

/// A value within this depth, in its context.
fn carried_size(depth: u32, carried: &CarriedValue) -> Option<u32>
    ensures { result ≡ carried_length depth (carried_of carried.now) }
{
    placed_size(
        carried.context,
        vf_ber::spelled_len(&carried.value, depth, MOST_VALUE_OCTETS),
    )
}

/// Values in turn, each in its context.
fn all_carried(depth: u32, values: &[CarriedValue]) -> Option<u32>
    ensures { result ≡ all_lengths (Some 0) (map (carried_length depth) (map carried_of values.now)) }
{
    let mut total = Some(0);
    for value in values {
        total = both(total, carried_size(depth, value));
    }
    total
}

/// An ACSE value with fields of this length before its user information.
fn apdu_size(fields: u32, depth: u32, values: &CarriedValues) -> Option<u32>
    ensures { result ≡ apdu_length fields depth values.now }
{
    let information = wrapped(all_carried(depth, values.as_slice()));
    wrapped(both(Some(fields), information))
}

/// User data with an ACSE value.
pub(crate) fn acse_size(contexts: &[ContextEntry], apdu: Option<u32>) -> Option<u32>
    ensures { result ≡ acse_length (acse_context contexts.now) apdu }
{
    wrapped(placed_size(acse_id(contexts), apdu))
}

fn proposal_size(offer: &Offer) -> Option<u32>
    ensures { result ≡ proposal_length offer.now }
{
    let syntaxes = both(wrapped(Some(oid_len(&offer.syntax))), Some(6));
    wrapped(both(integer_size(offer.id), syntaxes))
}

/// The context definition list.
fn proposals_size(offers: &[Offer]) -> Option<u32>
    ensures { result ≡ listed_size (map proposal_length offers.now) }
{
    let mut total = Some(0);
    for offer in offers {
        total = both(total, proposal_size(offer));
    }
    wrapped(total)
}

pub(crate) fn outcome_size(accepted: bool) -> Option<u32>
    ensures { result ≡ outcome_length accepted }
{
    Some(if accepted { 9 } else { 5 })
}

/// The result list.
fn outcomes_size(results: &[bool]) -> Option<u32>
    ensures { result ≡ listed_size (map outcome_length results.now) }
{
    let mut total = Some(0);
    for accepted in results {
        total = both(total, outcome_size(*accepted));
    }
    wrapped(total)
}

/// The mode selector, a list and user data.
pub(crate) fn in_mode_size(list: Option<u32>, user_data: Option<u32>) -> Option<u32>
    ensures { result ≡ in_mode_length list user_data }
{
    wrapped(both(Some(5), wrapped(both(list, user_data))))
}

/// The user data of a primitive.
pub(crate) fn size_of(primitive: &Primitive, contexts: &[ContextEntry]) -> Option<u32>
    ensures { result ≡ length_of primitive.now contexts.now }
{
    match primitive {
        Primitive::Associate { offers, values } => {
            let list = proposals_size(offers.as_slice());
            in_mode_size(list, acse_size(contexts, apdu_size(9, 23, values)))
        }
        Primitive::Accepted { results, values } => {
            let list = outcomes_size(results.as_slice());
            in_mode_size(list, acse_size(contexts, apdu_size(21, 23, values)))
        }
        Primitive::Refused { results, values } => {
            let list = outcomes_size(results.as_slice());
            wrapped(both(list, acse_size(contexts, apdu_size(21, 24, values))))
        }
        Primitive::Release { values } => acse_size(contexts, apdu_size(0, 25, values)),
        Primitive::Released { values } => acse_size(contexts, apdu_size(0, 25, values)),
        Primitive::Data { values } => wrapped(all_carried(29, values.as_slice())),
        Primitive::Abort { values } => wrapped(acse_size(contexts, apdu_size(3, 24, values))),
    }
}
