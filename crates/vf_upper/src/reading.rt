//! Finding of user data.
ghost use Rattle.std.specs.Prelude.{◌≡◌, ◌++◌, ◌∷◌, [], OnOk};
ghost use Rattle.vf_upper.specs.Carried.{carried_of};
ghost use Rattle.vf_upper.specs.Conclusions.{Answers};
ghost use Rattle.vf_upper.specs.Primitives.{is_bare as bare, may_lack as may_be_absent, reading};
ghost use Rattle.vf_upper_grammar.specs.MarkViews.{Gives, marks_of};
ghost use Rattle.vf_upper_grammar.specs.Marks.{number, value as value_mark};
ghost use Rattle.vf_upper_grammar.specs.Types.{found_in as finding, user_data_of};
ghost use Rattle.vf_upper_grammar.specs.declared.labels.NumberLabel.TheVariants.{AnyContext};

use crate::conclusion::concluded;
use crate::plain::plain_in;
use crate::{CarriedValue, Contexts, Primitive, UpperError};
use std::alloc::Global;
use vf_base::{NoMemory, Octets, SpduKind};
use vf_upper_grammar::{Mark, Marks, NumberLabel, Stop, find};

/// A refusal or an abort may have no user data.
fn is_bare(carrier: SpduKind, octets: &Octets) -> bool
    ensures { result ≡ bare carrier octets.now }
{
    octets.is_empty() && may_lack(carrier)
}

fn may_lack(carrier: SpduKind) -> bool
    ensures { result ≡ may_be_absent carrier }
{
    match carrier {
        SpduKind::RF => true,
        SpduKind::AB => true,
        SpduKind::CN => false,
        SpduKind::AC => false,
        SpduKind::FN => false,
        SpduKind::DN => false,
        SpduKind::AA => false,
        SpduKind::DT => false,
        SpduKind::GT => false,
        SpduKind::MIP => false,
        SpduKind::MIA => false,
        SpduKind::RS => false,
        SpduKind::RA => false,
    }
}

/// The primitive that the user data of an SPDU are, with its values and their contexts (ISO 8823, 8.2; ISO 8650-1, 9;
/// profile). A refusal or an abort without user data has no values.
///
/// `contexts` are the accepted ones; of AC and RF they are those that were proposed, in their order, and of CN none
/// are asked for. `Grammar` exactly where some octet is the first that is a fault of the form, `Context` and
/// `Application`, by the order of octets, exactly where the form is right and a value stands in a context that isn't
/// accepted or isn't one for it, or the application context isn't that of FTAM. The user data are copied once, and the
/// contents of values are shared with the copy.
pub fn read(
    alloc: Global,
    carrier: SpduKind,
    contexts: &Contexts,
    octets: &[u8],
) -> Result<Primitive, UpperError>
    ensures { Answers result (reading carrier contexts.now octets.now) }
{
    match Octets::of(alloc, octets) {
        Ok(kept) => read_shared(alloc, carrier, contexts, &kept),
        Err(NoMemory) => Err(UpperError::NoMemory),
    }
}

/// Puts a value behind its context.
fn put_carried(carried: CarriedValue, found: &mut Marks) -> Result<(), NoMemory>
    ensures { OnOk result (marks_of found.new ≡ marks_of found.old ++ number AnyContext (carried_of carried).context ∷ value_mark (carried_of carried).tree ∷ []) }
{
    let CarriedValue { context, value } = carried;
    found.push(Mark::Number {
        label: NumberLabel::AnyContext,
        n: context,
    })?;
    found.push(Mark::Value { value })
}

/// Finds what the user data of an SPDU say; those of one plain value are read without a walk over them.
fn found_in(
    alloc: Global,
    carrier: SpduKind,
    octets: &Octets,
    found: &mut Marks,
) -> Result<(), Stop>
    requires { marks_of found.old ≡ [] }
    ensures { Gives result (marks_of found.new) (finding (user_data_of carrier) octets.now) }
{
    if let SpduKind::DT = carrier {
        if let Some(carried) = plain_in(octets)? {
            put_carried(carried, found)?;
            return Ok(());
        }
    }
    find(alloc, carrier, octets, found)
}

/// The primitive that the user data of an SPDU are, as `read` gives it; the contents of values are not copied, but
/// shared with the user data.
pub fn read_shared(
    alloc: Global,
    carrier: SpduKind,
    contexts: &Contexts,
    octets: &Octets,
) -> Result<Primitive, UpperError>
    ensures { Answers result (reading carrier contexts.now octets.now) }
{
    let mut found = Marks::new(alloc);
    if is_bare(carrier, octets) {
        return concluded(alloc, carrier, contexts.as_slice(), found);
    }
    match found_in(alloc, carrier, octets, &mut found) {
        Ok(()) => concluded(alloc, carrier, contexts.as_slice(), found),
        Err(Stop::At(at)) => Err(UpperError::Grammar { at }),
        Err(Stop::NoMemory) => Err(UpperError::NoMemory),
    }
}
