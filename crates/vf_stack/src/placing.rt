//! The presentation contexts that values are sent in, and the values in them.
ghost use Rattle.std.specs.Prelude.{◌≡◌, ◌++◌, [], ◌∷◌, IfOk, OnOk, false, true};
ghost use Rattle.vf_base.specs.Oid.{IsOid};
ghost use Rattle.vf_elements.specs.ElementValue.{IsWritable as IsElement};
ghost use Rattle.vf_pdu.specs.PduMeaning.{IsInRange};
ghost use Rattle.vf_stack.specs.Contexts.{entries, is_accepted as accepted_now};
ghost use Rattle.vf_stack.specs.Requests.{element_carried, maybe_carried, own_offer as offer_with, own_offers as offers_own, pdu_carried, results_of as results_among, syntax_for};
ghost use Rattle.vf_stack.specs.Sends.{IsMaybeInRange};
ghost use Rattle.vf_upper.specs.Carried.{carried_of};
ghost use Rattle.vf_upper.specs.Primitives.{syntax_of};
ghost use Rattle.vf_upper.specs.Written.{accepted, acse_id, has_syntax, id_of as first_id, or_zero, suits_in};
ghost use Rattle.vf_upper_grammar.specs.Forms.{are_arcs};
ghost use Rattle.vf_upper_grammar.specs.Syntaxes.{pci};
ghost use Rattle.vf_upper_grammar.specs.declared.labels.NumberLabel.TheVariants.{AcseContext, AnyContext, PciContext};

use crate::contexts::{entries_of, is_accepted};
use std::alloc::Global;
use vf_base::{BaseError, Element, NoMemory, Oid};
use vf_pdu::{Boxed, Pdu};
use vf_upper::{CarriedValue, CarriedValues, ContextEntry, Contexts, Offer, Offers, Results};

// ---- contexts

/// ACSE (ISO 8650).
const ACSE: [u32; 5] = [2, 2, 1, 0, 1];
/// FTAM PCI (ISO 8571-4).
const PCI: [u32; 5] = [1, 0, 8571, 2, 1];
/// FADU (ISO 8571-4; the arcs are profile).
const FADU: [u32; 5] = [1, 0, 8571, 2, 2];
/// Unstructured text (ISO 8571-2).
const TEXT: [u32; 5] = [1, 0, 8571, 2, 3];
/// Unstructured binary (ISO 8571-2).
const BINARY: [u32; 5] = [1, 0, 8571, 2, 4];

/// Whether these are the same arcs.
fn are_same(arcs: &[u32], others: &[u32]) -> bool
    ensures { result ≡ are_arcs arcs.now others.now }
{
    let mut rest = others;
    for arc in arcs {
        let Some((other, later)) = rest.split_first() else {
            return false;
        };
        if arc != other {
            return false;
        }
        rest = later;
    }
    rest.is_empty()
}

/// Whether the first of these contexts with this identifier has this abstract syntax.
fn names(contexts: &[ContextEntry], id: i64, syntax: &[u32]) -> bool
    ensures { result ≡ has_syntax syntax.now (syntax_of id (accepted contexts.now)) }
{
    for entry in contexts {
        if entry.id == id {
            return are_same(entry.syntax.arcs(), syntax);
        }
    }
    false
}

/// The first context of this abstract syntax.
#[tactic(auto, using(crate::proofs::PlacingLemmas::found_soon))]
fn id_of(contexts: &[ContextEntry], syntax: &[u32]) -> Option<i64>
    ensures { result ≡ first_id syntax.now contexts.now }
{
    for entry in contexts {
        if are_same(entry.syntax.arcs(), syntax) && names(contexts, entry.id, syntax) {
            return Some(entry.id);
        }
    }
    None
}

/// The context that PDUs stand in: the first one of FTAM PCI, or 0.
pub(crate) fn pdu_id(contexts: &[ContextEntry]) -> i64
    ensures { result ≡ or_zero (first_id pci contexts.now) }
{
    match id_of(contexts, &PCI) {
        Some(id) => id,
        None => 0,
    }
}

/// The abstract syntax of an element.
fn syntax_of_element(element: &Element) -> &'static [u32]
    ensures { result.now ≡ syntax_for element.now }
{
    match element {
        Element::Text { .. } => &TEXT,
        Element::Binary { .. } => &BINARY,
        Element::Descriptor { .. } => &FADU,
        Element::Enter => &FADU,
        Element::Exit => &FADU,
    }
}

/// The context that an element stands in: the first one of its own syntax, or else that of the PDUs.
pub(crate) fn element_id(contexts: &[ContextEntry], element: &Element) -> i64
    ensures { result ≡ (element_carried contexts.now element.now).context }
{
    match id_of(contexts, syntax_of_element(element)) {
        Some(id) => id,
        None => pdu_id(contexts),
    }
}

/// Whether there is a context of ACSE.
pub(crate) fn has_acse(contexts: &[ContextEntry]) -> bool
    ensures { result ≡ suits_in (accepted contexts.now) AcseContext (acse_id contexts.now) }
{
    match id_of(contexts, &ACSE) {
        Some(id) => names(contexts, id, &ACSE),
        None => names(contexts, 0, &ACSE),
    }
}

/// Whether there is a context of FTAM PCI.
pub(crate) fn has_pci(contexts: &[ContextEntry]) -> bool
    ensures { result ≡ suits_in (accepted contexts.now) PciContext (or_zero (first_id pci contexts.now)) }
{
    names(contexts, pdu_id(contexts), &PCI)
}

/// Whether there is a context with this identifier.
pub(crate) fn has_context(contexts: &[ContextEntry], id: i64) -> bool
    ensures { result ≡ suits_in (accepted contexts.now) AnyContext id }
{
    for entry in contexts {
        if entry.id == id {
            return true;
        }
    }
    false
}

/// A proposal in the basic encoding rules.
fn own_offer(alloc: Global, id: i64, syntax: &[u32]) -> Result<Offer, NoMemory>
    requires { IsOid syntax.now }
    ensures { IfOk result (λ made. made ≡ offer_with id syntax.now) }
{
    match Oid::of(alloc, syntax) {
        Ok(syntax) => Ok(Offer {
            id,
            syntax,
            ber: true,
        }),
        Err(BaseError::NoMemory) => Err(NoMemory),
        Err(_) => unreachable!(),
    }
}

/// Appends such a proposal.
fn propose(alloc: Global, id: i64, syntax: &[u32], offers: &mut Offers) -> Result<(), NoMemory>
    requires { IsOid syntax.now }
    ensures { OnOk result (offers.new ≡ offers.old ++ offer_with id syntax.now ∷ []) }
{
    let offer = own_offer(alloc, id, syntax)?;
    offers.push(offer)?;
    Ok(())
}

/// What a calling end proposes.
pub(crate) fn own_offers(alloc: Global) -> Result<Offers, NoMemory>
    ensures { IfOk result (λ made. made ≡ offers_own) }
{
    let mut made = Offers::new(alloc);
    propose(alloc, 1, &ACSE, &mut made)?;
    propose(alloc, 3, &PCI, &mut made)?;
    propose(alloc, 5, &FADU, &mut made)?;
    propose(alloc, 7, &TEXT, &mut made)?;
    propose(alloc, 9, &BINARY, &mut made)?;
    Ok(made)
}

/// The contexts of these proposals.
pub(crate) fn own_contexts(alloc: Global) -> Result<Contexts, NoMemory>
    ensures { IfOk result (λ made. made ≡ entries offers_own) }
{
    let offers = own_offers(alloc)?;
    entries_of(alloc, offers.as_slice())
}

/// The results of proposals.
pub(crate) fn results_of(alloc: Global, offers: &[Offer]) -> Result<Results, NoMemory>
    ensures { IfOk result (λ made. made ≡ results_among offers.now) }
{
    let mut made = Results::new(alloc);
    for offer in offers {
        made.push(is_accepted(offer))?;
    }
    Ok(made)
}

// ---- values

/// This value alone.
fn only(alloc: Global, value: CarriedValue) -> Result<CarriedValues, NoMemory>
    ensures { IfOk result (λ made. made ≡ carried_of value ∷ []) }
{
    let mut made = CarriedValues::new(alloc);
    made.push(value)?;
    Ok(made)
}

/// A PDU in its context.
pub(crate) fn pdu_in(
    alloc: Global,
    contexts: &[ContextEntry],
    pdu: &Pdu,
) -> Result<CarriedValues, NoMemory>
    requires { IsInRange pdu.now }
    ensures { IfOk result (λ made. made ≡ pdu_carried contexts.now pdu.now ∷ []) }
{
    let value = vf_pdu::to_value(alloc, pdu)?;
    let context = pdu_id(contexts);
    only(alloc, CarriedValue { context, value })
}

/// A PDU in its context, where there is one.
pub(crate) fn maybe_pdu_in(
    alloc: Global,
    contexts: &[ContextEntry],
    pdu: &Option<Boxed<Pdu>>,
) -> Result<CarriedValues, NoMemory>
    requires { IsMaybeInRange pdu.now }
    ensures { IfOk result (λ made. made ≡ maybe_carried contexts.now pdu.now) }
{
    match pdu {
        Some(pdu) => pdu_in(alloc, contexts, pdu.value()),
        None => Ok(CarriedValues::new(alloc)),
    }
}

/// An element in its context.
pub(crate) fn element_in(
    alloc: Global,
    contexts: &[ContextEntry],
    element: &Element,
) -> Result<CarriedValues, NoMemory>
    requires { IsElement element.now }
    ensures { IfOk result (λ made. made ≡ element_carried contexts.now element.now ∷ []) }
{
    let value = vf_elements::to_value(alloc, element)?;
    let context = element_id(contexts, element);
    only(alloc, CarriedValue { context, value })
}
