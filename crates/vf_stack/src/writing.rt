//! The user data of requests.
ghost use Rattle.std.specs.Prelude.{◌≡◌, ◌++◌, ◌≤◌, [], ◌∷◌, IfOk, OnOk, Some, length, true};
ghost use Rattle.vf_ber.specs.Spelling.{header, length_octets};
ghost use Rattle.vf_elements.specs.ElementValue.{IsWritable as IsElement};
ghost use Rattle.vf_pdu.specs.PduMeaning.{IsInRange};
ghost use Rattle.vf_session.specs.Units.{parameters as parameters_in, user_data as data_in};
ghost use Rattle.vf_stack.specs.Contexts.{entries};
ghost use Rattle.vf_stack.specs.Represents.{standing_of};
ghost use Rattle.vf_stack.specs.Requests.{contexts_of, data_of, element_carried, maybe_carried, octets_by, octets_of as octets_sent, own_offers as offers_own, pdu_carried, primitive_of as primitive_by, results_of as results_among};
ghost use Rattle.vf_stack.specs.Sending.{IsCarried, IsWritten};
ghost use Rattle.vf_stack.specs.Sends.{IsMaybeInRange, unit_kept};
ghost use Rattle.vf_upper.specs.Written.{IsWritable, universal, user_octets};

use crate::contexts::entries_of;
use crate::exchange::KeptExchange;
use crate::placing::{element_in, maybe_pdu_in, own_contexts, own_offers, pdu_in, results_of};
use crate::{Item, Request};
use std::alloc::Global;
use vf_base::{Element, NoMemory, Octets};
use vf_pdu::{Boxed, Pdu};
use vf_session::SayParameters;
use vf_upper::{CarriedValues, ContextEntry, Contexts, Primitive, Results};

/// The user data that a primitive is written as.
fn spelled(alloc: Global, primitive: &Primitive, contexts: &Contexts) -> Result<Octets, NoMemory>
    requires { IsWritable primitive.now contexts.now }
    ensures { IfOk result (λ octets. octets ≡ user_octets primitive.now contexts.now) }
{
    let mut octets = Vec::new(alloc);
    vf_upper::write(alloc, primitive, contexts, &mut octets)?;
    Octets::from_vec(octets)
}

/// Appends the length of the contents of a value.
fn put_length(len: usize, out: &mut Vec<u8>) -> Result<(), NoMemory>
    requires { len ≤ 16777215 }
    ensures ok { OnOk result (out.new.items ≡ out.old.items ++ length_octets len) }
{
    if len < 128 {
        out.push(len as u8)?;
        return Ok(());
    }
    if len < 256 {
        out.extend_from_slice(&[129, len as u8])?;
        return Ok(());
    }
    let low = (len % 256) as u8;
    if len < 65536 {
        out.extend_from_slice(&[130, (len / 256) as u8, low])?;
        return Ok(());
    }
    let middle = (len / 256 % 256) as u8;
    out.extend_from_slice(&[131, (len / 65536) as u8, middle, low])?;
    Ok(())
}

/// The SEQUENCE of a resynchronization, around data.
fn in_sequence(alloc: Global, octets: &Octets) -> Result<Octets, NoMemory>
    requires { length octets.now ≤ 16777215 }
    ensures { IfOk result (λ made. made ≡ header true (universal 16) (length octets.now) ++ octets.now) }
{
    let mut made = Vec::new(alloc);
    made.push(0x30)?;
    put_length(octets.len(), &mut made)?;
    made.extend_from_slice(octets.as_slice())?;
    Octets::from_vec(made)
}

// ---- primitives

/// A-ASSOCIATE request.
fn associate(alloc: Global, pdu: &Pdu) -> Result<Option<Primitive>, NoMemory>
    requires { IsInRange pdu.now }
    ensures { IfOk result (λ made. made ≡ Some (Primitive.Associate offers_own (pdu_carried (entries offers_own) pdu.now ∷ []))) }
{
    let offers = own_offers(alloc)?;
    let contexts = entries_of(alloc, offers.as_slice())?;
    let values = pdu_in(alloc, contexts.as_slice(), pdu)?;
    Ok(Some(Primitive::Associate { offers, values }))
}

/// P-DATA with a PDU.
fn pdu_data(
    alloc: Global,
    contexts: &[ContextEntry],
    pdu: &Pdu,
) -> Result<Option<Primitive>, NoMemory>
    requires { IsInRange pdu.now }
    ensures { IfOk result (λ made. made ≡ data_of contexts.now pdu.now) }
{
    let values = pdu_in(alloc, contexts, pdu)?;
    Ok(Some(Primitive::Data { values }))
}

/// P-DATA with an element.
fn element_data(
    alloc: Global,
    contexts: &[ContextEntry],
    element: &Element,
) -> Result<Option<Primitive>, NoMemory>
    requires { IsElement element.now }
    ensures { IfOk result (λ made. made ≡ Some (Primitive.Data (element_carried contexts.now element.now ∷ []))) }
{
    let values = element_in(alloc, contexts, element)?;
    Ok(Some(Primitive::Data { values }))
}

/// A-ABORT request.
fn abort(
    alloc: Global,
    contexts: &[ContextEntry],
    pdu: &Option<Boxed<Pdu>>,
) -> Result<Option<Primitive>, NoMemory>
    requires { IsMaybeInRange pdu.now }
    ensures { IfOk result (λ made. made ≡ Some (Primitive.Abort (maybe_carried contexts.now pdu.now))) }
{
    let values = maybe_pdu_in(alloc, contexts, pdu)?;
    Ok(Some(Primitive::Abort { values }))
}

impl KeptExchange {
    /// A-ASSOCIATE response that accepts.
    fn acceptance(&self, alloc: Global, pdu: &Pdu) -> Result<Option<Primitive>, NoMemory>
        requires { IsInRange pdu.now }
        ensures { IfOk result (λ made. made ≡ Some (Primitive.Accepted (results_among self.now.offers) (pdu_carried self.now.accepted pdu.now ∷ []))) }
    {
        let results = results_of(alloc, self.offers.as_slice())?;
        let values = pdu_in(alloc, self.accepted.as_slice(), pdu)?;
        Ok(Some(Primitive::Accepted { results, values }))
    }

    /// The same that refuses; without a PDU it has no results.
    fn refusal(
        &self,
        alloc: Global,
        pdu: &Option<Boxed<Pdu>>,
    ) -> Result<Option<Primitive>, NoMemory>
        requires { IsMaybeInRange pdu.now }
        ensures { IfOk result (λ made. made ≡ primitive_by (standing_of self.now) (Request.Refuse pdu.now)) }
    {
        let Some(pdu) = pdu else {
            return Ok(Some(Primitive::Refused {
                results: Results::new(alloc),
                values: CarriedValues::new(alloc),
            }));
        };
        let results = results_of(alloc, self.offers.as_slice())?;
        let values = pdu_in(alloc, self.accepted.as_slice(), pdu.value())?;
        Ok(Some(Primitive::Refused { results, values }))
    }

    /// A-RELEASE request.
    fn release(&self, alloc: Global, pdu: &Pdu) -> Result<Option<Primitive>, NoMemory>
        requires { IsInRange pdu.now }
        ensures { IfOk result (λ made. made ≡ Some (Primitive.Release (pdu_carried self.now.accepted pdu.now ∷ []))) }
    {
        let values = pdu_in(alloc, self.accepted.as_slice(), pdu)?;
        Ok(Some(Primitive::Release { values }))
    }

    /// A-RELEASE response.
    fn released(&self, alloc: Global, pdu: &Pdu) -> Result<Option<Primitive>, NoMemory>
        requires { IsInRange pdu.now }
        ensures { IfOk result (λ made. made ≡ Some (Primitive.Released (pdu_carried self.now.accepted pdu.now ∷ []))) }
    {
        let values = pdu_in(alloc, self.accepted.as_slice(), pdu)?;
        Ok(Some(Primitive::Released { values }))
    }

    /// The primitive of a request; checks, acknowledgements and the token have none.
    fn primitive_of(&self, alloc: Global, request: &Request) -> Result<Option<Primitive>, NoMemory>
        requires { IsCarried (standing_of self.now) request.now }
        ensures { IfOk result (λ made. made ≡ primitive_by (standing_of self.now) request.now) }
    {
        let contexts = self.accepted.as_slice();
        match request {
            Request::Associate { pdu, .. } => associate(alloc, pdu.value()),
            Request::Accept { pdu, .. } => self.acceptance(alloc, pdu.value()),
            Request::Refuse { pdu } => self.refusal(alloc, pdu),
            Request::Release { pdu } => self.release(alloc, pdu.value()),
            Request::Released { pdu } => self.released(alloc, pdu.value()),
            Request::Item(Item::Pdu(pdu)) => pdu_data(alloc, contexts, pdu.value()),
            Request::Item(Item::Element(element)) => element_data(alloc, contexts, element),
            Request::Check { .. } => Ok(None),
            Request::Acknowledge { .. } => Ok(None),
            Request::Restart { pdu, .. } => pdu_data(alloc, contexts, pdu.value()),
            Request::Restarted { pdu, .. } => pdu_data(alloc, contexts, pdu.value()),
            Request::Cancel { pdu } => pdu_data(alloc, contexts, pdu.value()),
            Request::Cancelled { pdu } => pdu_data(alloc, contexts, pdu.value()),
            Request::Abort { pdu } => abort(alloc, contexts, pdu),
            Request::Pass => Ok(None),
        }
    }

    // ---- user data

    /// What a request is written as with these contexts.
    fn written(
        &self,
        alloc: Global,
        request: &Request,
        contexts: &Contexts,
    ) -> Result<Octets, NoMemory>
        requires carried { IsCarried (standing_of self.now) request.now }
        requires is_written { IsWritten contexts.now (primitive_by (standing_of self.now) request.now) }
        ensures { IfOk result (λ octets. octets ≡ octets_by contexts.now (primitive_by (standing_of self.now) request.now)) }
    {
        match self.primitive_of(alloc, request)? {
            Some(primitive) => spelled(alloc, &primitive, contexts),
            None => Octets::of(alloc, &[]),
        }
    }

    /// What a request is written as: an association request with the contexts that it proposes, others with the accepted ones.
    fn octets_of(&self, alloc: Global, request: &Request) -> Result<Octets, NoMemory>
        requires carried { IsCarried (standing_of self.now) request.now }
        requires is_written { IsWritten (contexts_of (standing_of self.now) request.now) (primitive_by (standing_of self.now) request.now) }
        ensures { IfOk result (λ octets. octets ≡ octets_sent (standing_of self.now) request.now) }
    {
        let Request::Associate { .. } = request else {
            return self.written(alloc, request, &self.accepted);
        };
        let contexts = own_contexts(alloc)?;
        self.written(alloc, request, &contexts)
    }

    /// The user data of a request's unit, which has these parameters: in a resynchronization and its answer within a
    /// SEQUENCE.
    pub(crate) fn data_of(
        &self,
        alloc: Global,
        parameters: SayParameters,
        request: &Request,
    ) -> Result<Octets, NoMemory>
        requires carried { IsCarried (standing_of self.now) request.now }
        requires is_written { IsWritten (contexts_of (standing_of self.now) request.now) (primitive_by (standing_of self.now) request.now) }
        requires unit { parameters ≡ parameters_in (unit_kept self.now request.now) }
        ensures { IfOk result (λ octets. octets ≡ data_in (unit_kept self.now request.now)) }
    {
        let octets = self.octets_of(alloc, request)?;
        match parameters {
            SayParameters::Resync { .. } => in_sequence(alloc, &octets),
            SayParameters::Resynced { .. } => in_sequence(alloc, &octets),
            _ => Ok(octets),
        }
    }
}
