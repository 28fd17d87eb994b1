//! Whether a request may be sent. Nothing is made, so that no memory is wanted: user data are measured by the lengths of the
//! values in them.
ghost use Rattle.std.specs.Prelude.{◌≡◌, ◌↔◌, ◌&&◌, ◌||◌, [], ◌∷◌, nat_eq, IsTrue, List, Some, length, ℕ};
ghost use Rattle.vf_elements.specs.ElementValue.{IsWritable as IsElement};
ghost use Rattle.vf_pdu.specs.PduNumbers.{number_of};
ghost use Rattle.vf_session.specs.Units.{with_data};
ghost use Rattle.vf_stack.specs.Lengths.{Counts, CountsData, fits_by, needs_length as length_matters, placed};
ghost use Rattle.vf_stack.specs.Represents.{standing_of};
ghost use Rattle.vf_stack.specs.Requests.{element_carried, pdu_carried, results_of};
ghost use Rattle.vf_stack.specs.Sending.{IsCarried, IsDue, IsItem, IsMaybe, IsSendable, abort_suits, cancelled_suits, is_associated as associated, is_kind as kinds_agree, permits as permits_by, suits as suits_by, waits as waits_by};
ghost use Rattle.vf_stack.specs.Sends.{IsPermitted, unit_kept};
ghost use Rattle.vf_upper.specs.Written.{accepted, acse_id, id_of, or_zero, suits_in};
ghost use Rattle.vf_upper.specs.Laws.{Measures};
ghost use Rattle.vf_upper.specs.declared.primitive.Primitive.TheVariants.{Accepted, Data, Refused};
ghost use Rattle.vf_upper_grammar.specs.declared.labels.NumberLabel.TheVariants.{AcseContext, AnyContext, PciContext};
ghost use Rattle.vf_upper_grammar.specs.Syntaxes.{pci};

use crate::exchange::KeptExchange;
use crate::lengths::{element_length, is_element, response_length};
use crate::placing::{element_id, has_acse, has_context, has_pci, pdu_id};
use crate::told::goes_in_data;
use crate::{Ending, Item, Request};
use vf_base::{Element, MOST_VALUE_OCTETS};
use vf_pdu::{Boxed, Pdu, is_in_range};
use vf_session::{PendingResync, Phase, ResyncKind, SayParameters, SessionState};
use vf_upper::{ContextEntry, Offer, acceptance_length, data_length, refusal_length};

// ---- where the connection stands

/// Whether the association was accepted, and isn't over.
pub(crate) fn is_associated(phase: Phase) -> bool
    ensures { result ≡ associated phase }
{
    matches!(phase, Phase::Open | Phase::Leaving | Phase::Left)
}

fn is_kind(a: ResyncKind, b: ResyncKind) -> bool
    ensures { result ≡ kinds_agree a b }
{
    match a {
        ResyncKind::Restart => matches!(b, ResyncKind::Restart),
        ResyncKind::Abandon => matches!(b, ResyncKind::Abandon),
    }
}

/// Whether a resynchronization of this kind waits for its answer.
fn waits(kind: ResyncKind, resync: Option<PendingResync>) -> bool
    ensures { result ≡ waits_by kind resync }
{
    match resync {
        Some(resync) => is_kind(kind, resync.kind),
        None => false,
    }
}

/// Whether the answer to F-CANCEL suits where the connection stands: without sync it is data.
fn suits_cancelled(state: SessionState) -> bool
    ensures { result ≡ cancelled_suits state }
{
    if state.agreed {
        waits(ResyncKind::Abandon, state.resync)
    } else {
        true
    }
}

/// Whether an abort suits it: it has a PDU once the association is accepted.
fn suits_abort(phase: Phase, pdu: &Option<Boxed<Pdu>>) -> bool
    ensures { result ≡ abort_suits phase pdu.now }
{
    match pdu {
        Some(_) => is_associated(phase),
        None => true,
    }
}

/// Whether a request suits it, beside what session asks.
fn suits(state: SessionState, request: &Request) -> bool
    ensures { result ≡ suits_by state request.now }
{
    match request {
        Request::Restarted { .. } => waits(ResyncKind::Restart, state.resync),
        Request::Cancelled { .. } => suits_cancelled(state),
        Request::Abort { pdu } => suits_abort(state.phase, pdu),
        Request::Associate { .. } => true,
        Request::Accept { .. } => true,
        Request::Refuse { .. } => true,
        Request::Release { .. } => true,
        Request::Released { .. } => true,
        Request::Item(_) => true,
        Request::Check { .. } => true,
        Request::Acknowledge { .. } => true,
        Request::Restart { .. } => true,
        Request::Cancel { .. } => true,
        Request::Pass => true,
    }
}

// ---- the PDU or element of a request

fn is_due(due: bool, pdu: &Pdu) -> bool
    ensures { IsTrue result ↔ IsDue due pdu.now }
{
    due && is_in_range(pdu)
}

fn is_refusal(pdu: &Option<Boxed<Pdu>>) -> bool
    ensures { IsTrue result ↔ IsMaybe (λ pdu. nat_eq (number_of pdu) 1) pdu.now }
{
    match pdu {
        Some(pdu) => is_due(pdu.value().number() == 1, pdu.value()),
        None => true,
    }
}

fn is_abort(pdu: &Option<Boxed<Pdu>>) -> bool
    ensures { IsTrue result ↔ IsMaybe (λ pdu. nat_eq (number_of pdu) 4 || nat_eq (number_of pdu) 5) pdu.now }
{
    match pdu {
        Some(pdu) => {
            let number = pdu.value().number();
            is_due(number == 4 || number == 5, pdu.value())
        }
        None => true,
    }
}

/// Whether the length of a request's user data matters.
fn needs_length(request: &Request) -> bool
    ensures { result ≡ length_matters request.now }
{
    match request {
        Request::Accept { .. } => true,
        Request::Refuse { pdu } => pdu.is_some(),
        Request::Item(Item::Element(_)) => true,
        Request::Item(Item::Pdu(_)) => false,
        Request::Associate { .. } => false,
        Request::Release { .. } => false,
        Request::Released { .. } => false,
        Request::Check { .. } => false,
        Request::Acknowledge { .. } => false,
        Request::Restart { .. } => false,
        Request::Restarted { .. } => false,
        Request::Cancel { .. } => false,
        Request::Cancelled { .. } => false,
        Request::Abort { .. } => false,
        Request::Pass => false,
    }
}

fn is_item(sync: bool, item: &Item) -> bool
    ensures { IsTrue result ↔ IsItem sync item.now }
{
    match item {
        Item::Pdu(pdu) => is_due(goes_in_data(sync, pdu.value().number()), pdu.value()),
        Item::Element(element) => is_element(element),
    }
}

// ---- user data

/// The octets of an acceptance's user data, which have a result for each proposal.
fn acceptance_octets(offers: &[Offer], contexts: &[ContextEntry], pdu: &Pdu) -> Option<u32>
    requires { IsDue (nat_eq (number_of pdu.now) 1) pdu.now }
    ensures { Measures (Accepted (results_of offers.now) (pdu_carried contexts.now pdu.now ∷ [])) contexts.now result }
{
    let octets = response_length(pdu);
    acceptance_length(offers, contexts, pdu_id(contexts), octets)
}

/// The same of a refusal.
fn refusal_octets(offers: &[Offer], contexts: &[ContextEntry], pdu: &Pdu) -> Option<u32>
    requires { IsDue (nat_eq (number_of pdu.now) 1) pdu.now }
    ensures { Measures (Refused (results_of offers.now) (pdu_carried contexts.now pdu.now ∷ [])) contexts.now result }
{
    let octets = response_length(pdu);
    refusal_length(offers, contexts, pdu_id(contexts), octets)
}

/// The same of data with an element.
fn element_octets(contexts: &[ContextEntry], element: &Element) -> Option<u32>
    requires { IsElement element.now }
    ensures { Measures (Data (element_carried contexts.now element.now ∷ [])) contexts.now result }
{
    match element_length(element) {
        Some(octets) => data_length(element_id(contexts, element), octets),
        None => None,
    }
}

// ---- limits

/// Whether the TSDU of a unit with so many octets of user data is within the limit. Only data can pass it, which stand
/// after a GT and a header.
fn fits(parameters: SayParameters, octets: u32) -> bool
    ensures { result ≡ fits_by parameters octets }
{
    match parameters {
        SayParameters::Data { pass: true } => octets <= MOST_VALUE_OCTETS - 7,
        SayParameters::Data { pass: false } => octets <= MOST_VALUE_OCTETS - 4,
        _ => true,
    }
}

impl KeptExchange {
    /// Whether a request has a PDU that it carries, in range, or an element that can be written.
    fn is_carried(&self, request: &Request) -> bool
        ensures { IsTrue result ↔ IsCarried (standing_of self.now) request.now }
    {
        match request {
            Request::Associate { pdu, .. } => is_due(pdu.value().number() == 0, pdu.value()),
            Request::Accept { pdu, .. } => is_due(pdu.value().number() == 1, pdu.value()),
            Request::Refuse { pdu } => is_refusal(pdu),
            Request::Release { pdu } => is_due(pdu.value().number() == 2, pdu.value()),
            Request::Released { pdu } => is_due(pdu.value().number() == 3, pdu.value()),
            Request::Item(item) => is_item(self.state.agreed, item),
            Request::Check { .. } => true,
            Request::Acknowledge { .. } => true,
            Request::Restart { pdu, .. } => is_due(pdu.value().number() == 39, pdu.value()),
            Request::Restarted { pdu, .. } => is_due(pdu.value().number() == 40, pdu.value()),
            Request::Cancel { pdu } => is_due(pdu.value().number() == 37, pdu.value()),
            Request::Cancelled { pdu } => is_due(pdu.value().number() == 38, pdu.value()),
            Request::Abort { pdu } => is_abort(pdu),
            Request::Pass => true,
        }
    }

    /// Whether the PDU of an answer to an association request stands in a context that suits it, and ACSE has one.
    fn suits_answer(&self) -> bool
        ensures { result ≡ (suits_in (accepted self.now.accepted) AcseContext (acse_id self.now.accepted) && suits_in (accepted self.now.accepted) PciContext (or_zero (id_of pci self.now.accepted))) }
    {
        let contexts = self.accepted.as_slice();
        has_acse(contexts) && has_pci(contexts)
    }

    /// The same of a PDU in a release or an abort.
    fn suits_end(&self) -> bool
        ensures { result ≡ (suits_in (accepted self.now.accepted) AcseContext (acse_id self.now.accepted) && suits_in (accepted self.now.accepted) AnyContext (or_zero (id_of pci self.now.accepted))) }
    {
        let contexts = self.accepted.as_slice();
        has_acse(contexts) && has_context(contexts, pdu_id(contexts))
    }

    /// The same of a PDU in P-DATA.
    fn suits_data(&self) -> bool
        ensures { result ≡ suits_in (accepted self.now.accepted) AnyContext (or_zero (id_of pci self.now.accepted)) }
    {
        let contexts = self.accepted.as_slice();
        has_context(contexts, pdu_id(contexts))
    }

    fn is_item_placed(&self, item: &Item) -> bool
        ensures { result ≡ placed (standing_of self.now) (Request.Item item.now) }
    {
        match item {
            Item::Pdu(_) => self.suits_data(),
            Item::Element(element) => {
                let contexts = self.accepted.as_slice();
                has_context(contexts, element_id(contexts, element))
            }
        }
    }

    fn is_refusal_placed(&self, pdu: &Option<Boxed<Pdu>>) -> bool
        ensures { result ≡ placed (standing_of self.now) (Request.Refuse pdu.now) }
    {
        match pdu {
            Some(_) => self.suits_answer(),
            None => true,
        }
    }

    fn is_abort_placed(&self, pdu: &Option<Boxed<Pdu>>) -> bool
        ensures { result ≡ placed (standing_of self.now) (Request.Abort pdu.now) }
    {
        match pdu {
            Some(_) => self.suits_end(),
            None => true,
        }
    }

    /// Whether the values of a request stand in contexts that suit them.
    fn is_placed(&self, request: &Request) -> bool
        ensures { result ≡ placed (standing_of self.now) request.now }
    {
        match request {
            Request::Associate { .. } => true,
            Request::Accept { .. } => self.suits_answer(),
            Request::Refuse { pdu } => self.is_refusal_placed(pdu),
            Request::Release { .. } => self.suits_end(),
            Request::Released { .. } => self.suits_end(),
            Request::Item(item) => self.is_item_placed(item),
            Request::Check { .. } => true,
            Request::Acknowledge { .. } => true,
            Request::Restart { .. } => self.suits_data(),
            Request::Restarted { .. } => self.suits_data(),
            Request::Cancel { .. } => self.suits_data(),
            Request::Cancelled { .. } => self.suits_data(),
            Request::Abort { pdu } => self.is_abort_placed(pdu),
            Request::Pass => true,
        }
    }

    // ---- user data

    /// The octets of a refusal's user data; 0 stands for none.
    fn refusal_in(&self, pdu: &Option<Boxed<Pdu>>) -> Option<u32>
        requires carried { IsMaybe (λ pdu. nat_eq (number_of pdu) 1) pdu.now }
        requires placed { IsTrue (placed (standing_of self.now) (Request.Refuse pdu.now)) }
        ensures { CountsData self.now (Request.Refuse pdu.now) result }
    {
        let offers = self.offers.as_slice();
        let contexts = self.accepted.as_slice();
        match pdu {
            Some(pdu) => refusal_octets(offers, contexts, pdu.value()),
            None => Some(0),
        }
    }

    /// The octets of the user data of an element; 0 stands for those of a PDU.
    fn item_in(&self, item: &Item) -> Option<u32>
        requires carried { IsItem self.now.state.agreed item.now }
        requires placed { IsTrue (placed (standing_of self.now) (Request.Item item.now)) }
        ensures { CountsData self.now (Request.Item item.now) result }
    {
        let contexts = self.accepted.as_slice();
        match item {
            Item::Element(element) => element_octets(contexts, element),
            Item::Pdu(_) => Some(0),
        }
    }

    /// The octets of a request's user data, where they matter; 0 stands for others. None where they pass the limits of a value.
    fn octets_in(&self, request: &Request) -> Option<u32>
        requires carried { IsCarried (standing_of self.now) request.now }
        requires placed { IsTrue (placed (standing_of self.now) request.now) }
        ensures { CountsData self.now request.now result }
    {
        let offers = self.offers.as_slice();
        let contexts = self.accepted.as_slice();
        if !needs_length(request) {
            return Some(0);
        }
        match request {
            Request::Accept { pdu, .. } => acceptance_octets(offers, contexts, pdu.value()),
            Request::Refuse { pdu } => self.refusal_in(pdu),
            Request::Item(item) => self.item_in(item),
            _ => Some(0),
        }
    }

    // ---- requests

    /// Whether a unit with so many octets of user data may be sent where the connection stands; after a fault alone an abort.
    fn permits(&self, parameters: SayParameters, octets: u32) -> bool
        ensures { (user_data : List ℕ) → Counts parameters octets (length user_data) → result ≡ permits_by self.now.session.side self.now.session.offer self.now.session.state (with_data parameters user_data) self.now.ending }
    {
        match self.ending {
            Ending::Open => self.session.may_carry(&parameters, octets as usize),
            Ending::Partly => self.session.may_carry(&parameters, octets as usize),
            Ending::Refused => matches!(parameters, SayParameters::Abort) && octets <= 65_528,
            Ending::Closed => false,
            Ending::Broken => false,
        }
    }

    /// Whether a request may be sent whose user data can be written and have so many octets.
    fn is_within(&self, request: &Request, octets: u32) -> bool
        requires suited { IsTrue (suits_by self.now.state request.now) }
        requires carried { IsCarried (standing_of self.now) request.now }
        requires counted { CountsData self.now request.now (Some octets) }
        ensures { IsTrue result ↔ (IsPermitted self.now (unit_kept self.now request.now) × IsSendable self.now.session.side (standing_of self.now) request.now) }
    {
        let parameters = self.parameters_of(request);
        let permitted = self.permits(parameters, octets);
        let fit = fits(parameters, octets);
        permitted && fit
    }

    /// Whether a request may be sent, wherever the transport connection stands.
    pub(crate) fn may(&self, request: &Request) -> bool
        ensures { IsTrue result ↔ (IsPermitted self.now (unit_kept self.now request.now) × IsSendable self.now.session.side (standing_of self.now) request.now) }
    {
        if !suits(self.state, request) {
            return false;
        }
        if !self.is_carried(request) {
            return false;
        }
        if !self.is_placed(request) {
            return false;
        }
        match self.octets_in(request) {
            Some(octets) => self.is_within(request, octets),
            None => false,
        }
    }
}
