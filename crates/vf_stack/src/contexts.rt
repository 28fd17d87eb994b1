//! The presentation contexts that a unit proposes and accepts.
ghost use Rattle.std.specs.Prelude.{◌≡◌, ◌++◌, [], ◌∷◌, ℤ, IfOk, List, not};
ghost use Rattle.vf_stack.specs.Contexts.{accepted_by, accepted_by_proposals, accepted_of as accepted_among, chosen as chosen_among, counted as counts, counted_after, entries, entry_of as entry_by, is_accept as accepts_any, is_accepted as accepted_now, is_connect as connects, is_met, offers_by, offers_in as offers_read, results_in as results_read};
ghost use Rattle.vf_stack.specs.Represents.{AreMet};

use std::alloc::Global;
use std::collections::BTreeSet;
use vf_base::NoMemory;
use vf_session::{SayParameters, TokenSide};
use vf_upper::{ContextEntry, Contexts, Offer, Offers, Primitive, UpperError};
use vf_upper_grammar::is_ours;

fn entry_of(alloc: Global, offer: &Offer) -> Result<ContextEntry, NoMemory>
    ensures { IfOk result (λ made. made ≡ entry_by offer.now) }
{
    let syntax = offer.syntax.copy(alloc)?;
    Ok(ContextEntry {
        id: offer.id,
        syntax,
    })
}

/// The contexts that are proposed.
pub(crate) fn entries_of(alloc: Global, offers: &[Offer]) -> Result<Contexts, NoMemory>
    ensures { IfOk result (λ made. made ≡ entries offers.now) }
{
    let mut made = Contexts::new(alloc);
    for offer in offers {
        made.push(entry_of(alloc, offer)?)?;
    }
    Ok(made)
}

/// Whether a called end accepts a proposal: its own syntaxes in the basic encoding rules.
pub(crate) fn is_accepted(offer: &Offer) -> bool
    ensures { result ≡ accepted_now offer.now }
{
    offer.ber && is_ours(&offer.syntax)
}

/// The contexts that a called end accepts.
fn accepted_of(alloc: Global, offers: &[Offer]) -> Result<Contexts, NoMemory>
    ensures { IfOk result (λ made. made ≡ accepted_among offers.now) }
{
    let mut made = Contexts::new(alloc);
    for offer in offers {
        if is_accepted(offer) {
            made.push(entry_of(alloc, offer)?)?;
        }
    }
    Ok(made)
}

/// The proposals that the results accept.
fn chosen(alloc: Global, proposed: &[ContextEntry], results: &[bool]) -> Result<Contexts, NoMemory>
    ensures { IfOk result (λ made. made ≡ chosen_among proposed.now results.now) }
{
    let mut made = Contexts::new(alloc);
    let mut answers = results;
    for entry in proposed {
        let Some((accepted, after)) = answers.split_first() else {
            return Ok(made);
        };
        if *accepted {
            made.push(entry.copy(alloc)?)?;
        }
        answers = after;
    }
    Ok(made)
}

/// Puts an identifier into the set of those that were met; answers whether it wasn't there.
fn meet(ids: &mut BTreeSet<i64>, id: i64) -> Result<bool, NoMemory>
    ensures { (met : List ℤ) → AreMet ids.old met → IfOk result (λ is_new. (is_new ≡ not (is_met met id)) × AreMet ids.new (met ++ id ∷ [])) }
{
    let is_new = ids.insert(id)?;
    Ok(is_new)
}

/// A proposal as it counts, where it is the first with its identifier and where it isn't.
fn counted(alloc: Global, offer: &Offer, is_first: bool) -> Result<Offer, NoMemory>
    ensures { IfOk result (λ made. made ≡ counts is_first offer.now) }
{
    let syntax = offer.syntax.copy(alloc)?;
    Ok(Offer {
        id: offer.id,
        syntax,
        ber: offer.ber && is_first,
    })
}

/// The proposals as they count. The identifiers that were met are in a tree, so that many of them, whichever a peer
/// chooses, cost little more than their copies.
fn all_counted(alloc: Global, offers: &[Offer]) -> Result<Offers, NoMemory>
    ensures { IfOk result (λ made. made ≡ counted_after [] offers.now) }
{
    let mut made = Offers::new(alloc);
    let mut ids = BTreeSet::new(alloc);
    for offer in offers {
        let is_first = meet(&mut ids, offer.id)?;
        let proposal = counted(alloc, offer, is_first)?;
        made.push(proposal)?;
    }
    Ok(made)
}

/// The contexts that user data propose, as they were read and as they count.
pub(crate) fn offers_in(
    alloc: Global,
    read: &Result<Primitive, UpperError>,
) -> Result<Offers, NoMemory>
    ensures { IfOk result (λ made. made ≡ offers_read read.now) }
{
    match read {
        Ok(Primitive::Associate { offers, .. }) => all_counted(alloc, offers.as_slice()),
        Ok(Primitive::Accepted { .. }) => Ok(Offers::new(alloc)),
        Ok(Primitive::Refused { .. }) => Ok(Offers::new(alloc)),
        Ok(Primitive::Release { .. }) => Ok(Offers::new(alloc)),
        Ok(Primitive::Released { .. }) => Ok(Offers::new(alloc)),
        Ok(Primitive::Data { .. }) => Ok(Offers::new(alloc)),
        Ok(Primitive::Abort { .. }) => Ok(Offers::new(alloc)),
        Err(_) => Ok(Offers::new(alloc)),
    }
}

fn results_in(read: &Result<Primitive, UpperError>) -> &[bool]
    ensures { result.now ≡ results_read read.now }
{
    match read {
        Ok(Primitive::Accepted { results, .. }) => results.as_slice(),
        Ok(Primitive::Associate { .. }) => &[],
        Ok(Primitive::Refused { .. }) => &[],
        Ok(Primitive::Release { .. }) => &[],
        Ok(Primitive::Released { .. }) => &[],
        Ok(Primitive::Data { .. }) => &[],
        Ok(Primitive::Abort { .. }) => &[],
        Err(_) => &[],
    }
}

fn is_connect(unit: SayParameters) -> bool
    ensures { result ≡ connects unit }
{
    matches!(unit, SayParameters::Connect { .. })
}

fn is_accept(unit: SayParameters) -> bool
    ensures { result ≡ accepts_any unit }
{
    matches!(unit, SayParameters::Accept { .. })
}

/// The contexts that a unit proposes, by its user data as they were read; none of other units.
pub(crate) fn offered(
    alloc: Global,
    unit: SayParameters,
    read: &Result<Primitive, UpperError>,
) -> Result<Option<Offers>, NoMemory>
    ensures { IfOk result (λ made. made ≡ offers_by unit read.now) }
{
    if !is_connect(unit) {
        return Ok(None);
    }
    let made = offers_in(alloc, read)?;
    Ok(Some(made))
}

/// The contexts that a unit accepts: at the called end by the proposals, at the calling end by the results of these.
pub(crate) fn accepted(
    alloc: Global,
    own: TokenSide,
    offers: &[Offer],
    unit: SayParameters,
    read: &Result<Primitive, UpperError>,
) -> Result<Option<Contexts>, NoMemory>
    ensures { IfOk result (λ made. made ≡ accepted_by own offers.now unit read.now) }
{
    match own {
        TokenSide::Responder => {
            let made = accepted_proposals(alloc, unit, read)?;
            Ok(made)
        }
        TokenSide::Initiator => {
            let made = accepted_results(alloc, offers, unit, read)?;
            Ok(made)
        }
    }
}

fn accepted_proposals(
    alloc: Global,
    unit: SayParameters,
    read: &Result<Primitive, UpperError>,
) -> Result<Option<Contexts>, NoMemory>
    ensures { IfOk result (λ made. made ≡ accepted_by_proposals unit read.now) }
{
    if !is_connect(unit) {
        return Ok(None);
    }
    let offers = offers_in(alloc, read)?;
    let made = accepted_of(alloc, offers.as_slice())?;
    Ok(Some(made))
}

fn accepted_results(
    alloc: Global,
    offers: &[Offer],
    unit: SayParameters,
    read: &Result<Primitive, UpperError>,
) -> Result<Option<Contexts>, NoMemory>
    ensures { IfOk result (λ made. made ≡ accepted_by TokenSide.Initiator offers.now unit read.now) }
{
    if !is_accept(unit) {
        return Ok(None);
    }
    let proposed = entries_of(alloc, offers)?;
    let made = chosen(alloc, proposed.as_slice(), results_in(read))?;
    Ok(Some(made))
}
