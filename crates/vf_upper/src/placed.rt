//! Which primitives have user data to write.
ghost use Rattle.std.specs.Prelude.{◌≡◌, ◌↔◌, IsTrue, map};
ghost use Rattle.std.specs.List.{list_all};
ghost use Rattle.vf_upper.specs.Carried.{carried_of};
ghost use Rattle.vf_upper.specs.Conclusions.{negotiated_of};
ghost use Rattle.vf_upper.specs.Written.{accepted, has_pdu as pdu_test, is_placed as placed_test, IsWritable, suits_in as suits_test};

use crate::conclusion::{Negotiated, is_suited, syntax_in};
use crate::negotiated::acse_id;
use crate::sizes::size_of;
use crate::{CarriedValue, CarriedValues, ContextEntry, Contexts, Offer, Offers, Primitive};
use vf_upper_grammar::NumberLabel;

fn suits_in(negotiated: Negotiated<'_>, label: NumberLabel, id: i64) -> bool
    ensures { result ≡ suits_test (negotiated_of negotiated.entry) label id }
{
    is_suited(label, syntax_in(negotiated, id))
}

/// There is a context of ACSE and one value, both in contexts that suit them.
fn has_pdu(
    negotiated: Negotiated<'_>,
    contexts: &[ContextEntry],
    label: NumberLabel,
    values: &[CarriedValue],
) -> bool
    ensures { result ≡ pdu_test (negotiated_of negotiated.entry) contexts.now label (map carried_of values.now) }
{
    match values {
        [] => false,
        [value] => {
            suits_in(negotiated, NumberLabel::AcseContext, acse_id(contexts))
                && suits_in(negotiated, label, value.context)
        }
        [_, _, ..] => false,
    }
}

fn all_offer_ber(offers: &[Offer]) -> bool
    ensures { result ≡ list_all (λ offer. offer.ber) offers.now }
{
    for offer in offers {
        if !offer.ber {
            return false;
        }
    }
    true
}

fn all_suit(contexts: &[ContextEntry], values: &[CarriedValue]) -> bool
    ensures { result ≡ list_all (λ value. suits_test (accepted contexts.now) NumberLabel.AnyContext value.context) (map carried_of values.now) }
{
    for value in values {
        if !suits_in(
            Negotiated::Accepted(contexts),
            NumberLabel::AnyContext,
            value.context,
        ) {
            return false;
        }
    }
    true
}

fn is_request_placed(offers: &Offers, values: &CarriedValues, contexts: &[ContextEntry]) -> bool
    ensures { result ≡ placed_test (Primitive.Associate offers.now values.now) contexts.now }
{
    all_offer_ber(offers.as_slice())
        && has_pdu(
            Negotiated::Offered(offers.as_slice()),
            contexts,
            NumberLabel::PciContext,
            values.as_slice(),
        )
}

/// The values stand in contexts that suit them.
fn is_placed(primitive: &Primitive, contexts: &[ContextEntry]) -> bool
    ensures { result ≡ placed_test primitive.now contexts.now }
{
    let negotiated = Negotiated::Accepted(contexts);
    match primitive {
        Primitive::Associate { offers, values } => is_request_placed(offers, values, contexts),
        Primitive::Accepted { values, .. } => {
            has_pdu(
                negotiated,
                contexts,
                NumberLabel::PciContext,
                values.as_slice(),
            )
        }
        Primitive::Refused { results, values } => {
            results.as_slice().is_empty() && values.as_slice().is_empty()
                || has_pdu(
                    negotiated,
                    contexts,
                    NumberLabel::PciContext,
                    values.as_slice(),
                )
        }
        Primitive::Release { values } => {
            has_pdu(
                negotiated,
                contexts,
                NumberLabel::AnyContext,
                values.as_slice(),
            )
        }
        Primitive::Released { values } => {
            has_pdu(
                negotiated,
                contexts,
                NumberLabel::AnyContext,
                values.as_slice(),
            )
        }
        Primitive::Data { values } => all_suit(contexts, values.as_slice()),
        Primitive::Abort { values } => {
            values.as_slice().is_empty()
                || has_pdu(
                    negotiated,
                    contexts,
                    NumberLabel::AnyContext,
                    values.as_slice(),
                )
        }
    }
}

/// Whether the primitive may be given to `write` with these contexts: its values stand in contexts that suit them, an
/// association request offers BER in each of its contexts and is asked by these, and the user data are within the
/// limits of a value, a depth of 32 and 1,048,576 octets. It takes no memory.
pub fn is_writable(primitive: &Primitive, contexts: &Contexts) -> bool
    ensures { IsTrue result ↔ IsWritable primitive.now contexts.now }
{
    is_placed(primitive, contexts.as_slice()) && size_of(primitive, contexts.as_slice()).is_some()
}
