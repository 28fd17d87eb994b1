//! The primitive that is made of what is found, or why it isn't admitted.
ghost use Rattle.std.specs.Prelude.{◌≡◌, IfOk, Ok, map, false};
ghost use Rattle.std.specs.Option.{option_copied};
ghost use Rattle.vf_upper.specs.Conclusions.{Answers, having, is_associated, IsAdmitted, negotiated_of};
ghost use Rattle.vf_upper_grammar.specs.MarkViews.{mark_of, marks_of};
ghost use Rattle.vf_upper.specs.Primitives.{concluded as conclusion, is_abstract as abstract_test, is_application as application_test, is_context as context_test, is_outcome as outcome_test, is_proposal as proposal_test, is_suited as suited_test, is_transfer as transfer_test, offers_ber as ber_offered, offers_of as offers_in, refusal as first_refusal, refused as objection, results_of as results_in, syntax_of, values_of as values_in};

use crate::negotiated::{accepted_syntax, answered_syntax, offered_syntax};
use crate::{
    CarriedValue, CarriedValues, ContextEntry, Offer, Offers, Primitive, Results, UpperError,
};
use std::alloc::Global;
use vf_base::{NoMemory, Oid, SpduKind};
use vf_upper_grammar::{Mark, Marks, NameLabel, NumberLabel, is_acse, is_ber, is_ftam, is_pci};

/// The contexts in which values stand.
#[derive(Clone, Copy)]
pub(crate) enum Negotiated<'a> {
    /// Those that a request proposes.
    Offered(&'a [Offer]),
    /// Those that were proposed, by their results.
    Answered(&'a [ContextEntry], &'a [bool]),
    Accepted(&'a [ContextEntry]),
}

fn is_proposal(label: NumberLabel) -> bool
    ensures { result ≡ proposal_test label }
{
    match label {
        NumberLabel::Proposal => true,
        NumberLabel::Fixed => false,
        NumberLabel::Outcome => false,
        NumberLabel::AcseContext => false,
        NumberLabel::PciContext => false,
        NumberLabel::AnyContext => false,
    }
}

fn is_outcome(label: NumberLabel) -> bool
    ensures { result ≡ outcome_test label }
{
    match label {
        NumberLabel::Outcome => true,
        NumberLabel::Fixed => false,
        NumberLabel::Proposal => false,
        NumberLabel::AcseContext => false,
        NumberLabel::PciContext => false,
        NumberLabel::AnyContext => false,
    }
}

fn is_context(label: NumberLabel) -> bool
    ensures { result ≡ context_test label }
{
    match label {
        NumberLabel::AcseContext => true,
        NumberLabel::PciContext => true,
        NumberLabel::AnyContext => true,
        NumberLabel::Fixed => false,
        NumberLabel::Proposal => false,
        NumberLabel::Outcome => false,
    }
}

fn is_abstract(label: NameLabel) -> bool
    ensures { result ≡ abstract_test label }
{
    match label {
        NameLabel::Abstract => true,
        NameLabel::Stated => false,
        NameLabel::Transfer => false,
        NameLabel::Application => false,
    }
}

fn is_transfer(label: NameLabel) -> bool
    ensures { result ≡ transfer_test label }
{
    match label {
        NameLabel::Transfer => true,
        NameLabel::Stated => false,
        NameLabel::Abstract => false,
        NameLabel::Application => false,
    }
}

fn is_application(label: NameLabel) -> bool
    ensures { result ≡ application_test label }
{
    match label {
        NameLabel::Application => true,
        NameLabel::Stated => false,
        NameLabel::Abstract => false,
        NameLabel::Transfer => false,
    }
}

/// Whether BER is among the transfer syntaxes that come next.
fn offers_ber(marks: &[Mark]) -> bool
    ensures { result ≡ ber_offered (map mark_of marks.now) }
{
    for mark in marks {
        let Mark::Name { label, oid } = mark else {
            return false;
        };
        if !is_transfer(*label) {
            return false;
        }
        if is_ber(oid) {
            return true;
        }
    }
    false
}

/// The proposals.
fn offers_of(alloc: Global, marks: &[Mark]) -> Result<Offers, NoMemory>
    ensures { IfOk result (λ made. made ≡ offers_in (map mark_of marks.now)) }
{
    let mut made = Offers::new(alloc);
    let mut id = 0;
    let mut rest = marks;
    while let Some((mark, others)) = rest.split_first() {
        match mark {
            Mark::Number { label, n } => {
                if is_proposal(*label) {
                    id = *n;
                }
            }
            Mark::Name { label, oid } => {
                if is_abstract(*label) {
                    let syntax = oid.copy(alloc)?;
                    made.push(Offer {
                        id,
                        syntax,
                        ber: offers_ber(others),
                    })?;
                }
            }
            Mark::Value { .. } => {}
        }
        rest = others;
    }
    Ok(made)
}

/// The results of proposals.
fn results_of(alloc: Global, marks: &[Mark]) -> Result<Results, NoMemory>
    ensures { IfOk result (λ made. made ≡ results_in (map mark_of marks.now)) }
{
    let mut made = Results::new(alloc);
    for mark in marks {
        if let Mark::Number { label, n } = mark {
            if is_outcome(*label) {
                made.push(*n == 0)?;
            }
        }
    }
    Ok(made)
}

/// The values, each in the last context before it.
fn values_of(alloc: Global, marks: Marks) -> Result<CarriedValues, NoMemory>
    ensures { IfOk result (λ made. made ≡ values_in (marks_of marks)) }
{
    let mut made = CarriedValues::new(alloc);
    let mut context = 0;
    for mark in marks.items {
        match mark {
            Mark::Number { label, n } => {
                if is_context(label) {
                    context = n;
                }
            }
            Mark::Name { .. } => {}
            Mark::Value { value } => made.push(CarriedValue { context, value })?,
        }
    }
    Ok(made)
}

/// The abstract syntax of the context with this identifier.
pub(crate) fn syntax_in(negotiated: Negotiated<'_>, id: i64) -> Option<&Oid>
    ensures { option_copied result ≡ syntax_of id (negotiated_of negotiated.entry) }
{
    match negotiated {
        Negotiated::Offered(offers) => offered_syntax(offers, id),
        Negotiated::Answered(contexts, results) => answered_syntax(contexts, results, id),
        Negotiated::Accepted(contexts) => accepted_syntax(contexts, id),
    }
}

/// Whether a value of this kind may stand in a context of this syntax.
pub(crate) fn is_suited(label: NumberLabel, syntax: Option<&Oid>) -> bool
    ensures { result ≡ suited_test label (option_copied syntax.entry) }
{
    let Some(syntax) = syntax else {
        return false;
    };
    match label {
        NumberLabel::AcseContext => is_acse(syntax),
        NumberLabel::PciContext => is_pci(syntax),
        NumberLabel::AnyContext => true,
        NumberLabel::Fixed => true,
        NumberLabel::Proposal => true,
        NumberLabel::Outcome => true,
    }
}

/// Why one of the things that are found isn't admitted, if so.
fn refused(negotiated: Negotiated<'_>, mark: &Mark) -> Option<UpperError>
    ensures { result ≡ objection (negotiated_of negotiated.entry) (mark_of mark.now) }
{
    match mark {
        Mark::Number { label, n } => {
            if is_context(*label) && !is_suited(*label, syntax_in(negotiated, *n)) {
                return Some(UpperError::Context { id: *n });
            }
            None
        }
        Mark::Name { label, oid } => {
            if is_application(*label) && !is_ftam(oid) {
                return Some(UpperError::Application);
            }
            None
        }
        Mark::Value { .. } => None,
    }
}

/// The first reason in the order of octets why what is found isn't admitted.
fn refusal(negotiated: Negotiated<'_>, marks: &[Mark]) -> Option<UpperError>
    ensures { result ≡ first_refusal (negotiated_of negotiated.entry) (map mark_of marks.now) }
{
    for mark in marks {
        if let Some(error) = refused(negotiated, mark) {
            return Some(error);
        }
    }
    None
}

/// The values, where their contexts allow them.
fn admitted(
    alloc: Global,
    negotiated: Negotiated<'_>,
    found: Marks,
) -> Result<CarriedValues, UpperError>
    ensures { IsAdmitted (negotiated_of negotiated.entry) (marks_of found) result }
{
    if let Some(error) = refusal(negotiated, found.items.as_slice()) {
        return Err(error);
    }
    let values = values_of(alloc, found)?;
    Ok(values)
}

fn associate(
    alloc: Global,
    contexts: &[ContextEntry],
    found: Marks,
) -> Result<Primitive, UpperError>
    ensures { Answers result (conclusion SpduKind.CN contexts.now (Ok (marks_of found))) }
{
    let _ = contexts;
    let offers = offers_of(alloc, found.items.as_slice())?;
    match admitted(alloc, Negotiated::Offered(offers.as_slice()), found) {
        Ok(values) => Ok(Primitive::Associate { offers, values }),
        Err(error) => Err(error),
    }
}

fn accepted(alloc: Global, contexts: &[ContextEntry], found: Marks) -> Result<Primitive, UpperError>
    ensures { Answers result (conclusion SpduKind.AC contexts.now (Ok (marks_of found))) }
{
    let results = results_of(alloc, found.items.as_slice())?;
    match admitted(
        alloc,
        Negotiated::Answered(contexts, results.as_slice()),
        found,
    ) {
        Ok(values) => Ok(Primitive::Accepted { results, values }),
        Err(error) => Err(error),
    }
}

fn refused_answer(
    alloc: Global,
    contexts: &[ContextEntry],
    found: Marks,
) -> Result<Primitive, UpperError>
    ensures { Answers result (conclusion SpduKind.RF contexts.now (Ok (marks_of found))) }
{
    let results = results_of(alloc, found.items.as_slice())?;
    match admitted(
        alloc,
        Negotiated::Answered(contexts, results.as_slice()),
        found,
    ) {
        Ok(values) => Ok(Primitive::Refused { results, values }),
        Err(error) => Err(error),
    }
}

/// What is answered for an SPDU in whose user data this is found.
pub(crate) fn concluded(
    alloc: Global,
    carrier: SpduKind,
    contexts: &[ContextEntry],
    found: Marks,
) -> Result<Primitive, UpperError>
    ensures { Answers result (conclusion carrier contexts.now (Ok (marks_of found))) }
{
    match carrier {
        SpduKind::CN => associate(alloc, contexts, found),
        SpduKind::AC => accepted(alloc, contexts, found),
        SpduKind::RF => refused_answer(alloc, contexts, found),
        SpduKind::FN => in_accepted(alloc, carrier, contexts, found),
        SpduKind::DN => in_accepted(alloc, carrier, contexts, found),
        SpduKind::AB => in_accepted(alloc, carrier, contexts, found),
        SpduKind::AA => in_accepted(alloc, carrier, contexts, found),
        SpduKind::DT => in_accepted(alloc, carrier, contexts, found),
        SpduKind::GT => in_accepted(alloc, carrier, contexts, found),
        SpduKind::MIP => in_accepted(alloc, carrier, contexts, found),
        SpduKind::MIA => in_accepted(alloc, carrier, contexts, found),
        SpduKind::RS => in_accepted(alloc, carrier, contexts, found),
        SpduKind::RA => in_accepted(alloc, carrier, contexts, found),
    }
}

/// The same where the values stand in the accepted contexts.
fn in_accepted(
    alloc: Global,
    carrier: SpduKind,
    contexts: &[ContextEntry],
    found: Marks,
) -> Result<Primitive, UpperError>
    requires { is_associated carrier ≡ false }
    ensures { Answers result (conclusion carrier contexts.now (Ok (marks_of found))) }
{
    match admitted(alloc, Negotiated::Accepted(contexts), found) {
        Ok(values) => Ok(with_values(carrier, values)),
        Err(error) => Err(error),
    }
}

/// The primitive that has values alone.
fn with_values(carrier: SpduKind, values: CarriedValues) -> Primitive
    requires { is_associated carrier ≡ false }
    ensures { result ≡ having carrier values }
{
    match carrier {
        SpduKind::FN => Primitive::Release { values },
        SpduKind::DN => Primitive::Released { values },
        SpduKind::AB => Primitive::Abort { values },
        SpduKind::CN => Primitive::Data { values },
        SpduKind::AC => Primitive::Data { values },
        SpduKind::RF => Primitive::Data { values },
        SpduKind::AA => Primitive::Data { values },
        SpduKind::DT => Primitive::Data { values },
        SpduKind::GT => Primitive::Data { values },
        SpduKind::MIP => Primitive::Data { values },
        SpduKind::MIA => Primitive::Data { values },
        SpduKind::RS => Primitive::Data { values },
        SpduKind::RA => Primitive::Data { values },
    }
}
