//! The fields of the types of presentation and ACSE.
ghost use Rattle.std.specs.Prelude.{◌≡◌, ◌<◌, [], ◌∷◌, IfSome, map, true};
ghost use Rattle.vf_upper_grammar.specs.Rows.{apdu_in, apdu_tags, are_below, field_of, fields_read, IsUserData, listing_of, listing_rank, pair_of, rank, read_of, skips, tags_of, type_of, type_rank};
ghost use Rattle.vf_upper_grammar.specs.Forms.{sequence_of, set};
ghost use Rattle.vf_upper_grammar.specs.Types.{accepted_outcome as accepted, refused_outcome as refused};

use crate::form::{DataValues, Field, Form, Listing, Pair, TypeName};
use crate::labels::{NameLabel, NumberLabel};
use vf_base::SpduKind;

/// The classes of tags.
const UNIVERSAL: u8 = 0;

const APPLICATION: u8 = 1;

const CONTEXT: u8 = 2;

/// A field that must be there.
macro_rules! required {
    ($class:expr, $number:expr, $form:expr) => {
        Field {
            class: $class,
            from: $number,
            to: $number,
            is_required: true,
            form: $form,
        }
    };
}

/// A field that may be absent.
macro_rules! optional {
    ($class:expr, $number:expr, $form:expr) => {
        Field {
            class: $class,
            from: $number,
            to: $number,
            is_required: false,
            form: $form,
        }
    };
}

/// A value within [0] or [1].
macro_rules! carried {
    ($values:expr) => {
        Field {
            class: CONTEXT,
            from: 0,
            to: 1,
            is_required: true,
            form: Form::Carried($values),
        }
    };
}

const MODE: [Field; 1] = [required!(CONTEXT, 0, Form::Number(Some(1), NumberLabel::Fixed))];

const PARAMETERS: [Field; 2] = [
    required!(CONTEXT, 4, Form::Each(Listing::Proposals)),
    required!(APPLICATION, 1, Form::Fields(TypeName::AcseData)),
];

const RESPONSE: [Field; 2] = [
    required!(CONTEXT, 5, Form::Each(Listing::Outcomes)),
    required!(APPLICATION, 1, Form::Fields(TypeName::AcseData)),
];

const PROPOSAL: [Field; 3] = [
    required!(UNIVERSAL, 2, Form::Number(None, NumberLabel::Proposal)),
    required!(UNIVERSAL, 6, Form::Name(NameLabel::Abstract)),
    required!(UNIVERSAL, 16, Form::Each(Listing::Transfers)),
];

const USER_ABORT: [Field; 1] = [required!(APPLICATION, 1, Form::Fields(TypeName::AcseData))];

const RESYNCHRONIZATION: [Field; 2] = [
    optional!(CONTEXT, 0, Form::Skipped),
    required!(APPLICATION, 1, Form::Fields(TypeName::OneData)),
];

const ACSE_DATA: [Field; 1] = [required!(UNIVERSAL, 16, Form::Fields(TypeName::AcseList))];

const ACSE_LIST: [Field; 3] = [
    optional!(UNIVERSAL, 6, Form::Name(NameLabel::Stated)),
    required!(UNIVERSAL, 2, Form::Number(None, NumberLabel::AcseContext)),
    carried!(DataValues::Apdu),
];

const ONE_DATA: [Field; 1] = [required!(UNIVERSAL, 16, Form::Fields(TypeName::OneList))];

const ONE_LIST: [Field; 3] = [
    optional!(UNIVERSAL, 6, Form::Name(NameLabel::Stated)),
    required!(UNIVERSAL, 2, Form::Number(None, NumberLabel::AnyContext)),
    carried!(DataValues::One),
];

const DATA_LIST: [Field; 3] = [
    optional!(UNIVERSAL, 6, Form::Name(NameLabel::Stated)),
    required!(UNIVERSAL, 2, Form::Number(None, NumberLabel::AnyContext)),
    carried!(DataValues::Some),
];

const AARQ: [Field; 2] = [
    required!(CONTEXT, 1, Form::Fields(TypeName::ContextName)),
    required!(CONTEXT, 30, Form::Fields(TypeName::Information)),
];

const AARE: [Field; 4] = [
    required!(CONTEXT, 1, Form::Fields(TypeName::ContextName)),
    required!(CONTEXT, 2, Form::Fields(TypeName::AareResult)),
    required!(CONTEXT, 3, Form::Fields(TypeName::Source)),
    required!(CONTEXT, 30, Form::Fields(TypeName::Information)),
];

const RELEASE: [Field; 1] = [required!(CONTEXT, 30, Form::Fields(TypeName::Information))];

const ABRT: [Field; 2] = [
    required!(CONTEXT, 0, Form::Number(Some(0), NumberLabel::Fixed)),
    required!(CONTEXT, 30, Form::Fields(TypeName::Information)),
];

const CONTEXT_NAME: [Field; 1] = [required!(UNIVERSAL, 6, Form::Name(NameLabel::Application))];

const AARE_RESULT: [Field; 1] = [required!(UNIVERSAL, 2, Form::AareResult)];

const SOURCE: [Field; 1] = [required!(CONTEXT, 1, Form::Fields(TypeName::Reason))];

const REASON: [Field; 1] = [required!(UNIVERSAL, 2, Form::Number(Some(0), NumberLabel::Fixed))];

const INFORMATION: [Field; 1] = [required!(UNIVERSAL, 8, Form::Fields(TypeName::External))];

const EXTERNAL: [Field; 2] = [
    required!(UNIVERSAL, 2, Form::PduContext),
    carried!(DataValues::One),
];

const REFUSED_OUTCOME: [Field; 1] = [required!(
    CONTEXT,
    0,
    Form::Number(Some(2), NumberLabel::Outcome)
)];

const ACCEPTED_OUTCOME: [Field; 2] = [
    required!(CONTEXT, 0, Form::Number(Some(0), NumberLabel::Outcome)),
    required!(CONTEXT, 1, Form::Ber),
];

const SELECTOR: Field = required!(CONTEXT, 0, Form::Fields(TypeName::Mode));

const REQUEST: Field = required!(CONTEXT, 2, Form::Fields(TypeName::Parameters));

const ANSWER: Field = required!(CONTEXT, 2, Form::Fields(TypeName::Response));

/// The fields of a type, in order.
pub(crate) fn fields(carrier: SpduKind, name: TypeName) -> &'static [Field]
    ensures fields { type_of carrier name ≡ fields_read name (map (field_of carrier) result.now) }
    ensures below { are_below (type_rank name) result.now ≡ true }
{
    match name {
        TypeName::Mode => &MODE,
        TypeName::Parameters => &PARAMETERS,
        TypeName::Response => &RESPONSE,
        TypeName::Proposal => &PROPOSAL,
        TypeName::UserAbort => &USER_ABORT,
        TypeName::Resynchronization => &RESYNCHRONIZATION,
        TypeName::AcseData => &ACSE_DATA,
        TypeName::AcseList => &ACSE_LIST,
        TypeName::OneData => &ONE_DATA,
        TypeName::OneList => &ONE_LIST,
        TypeName::DataList => &DATA_LIST,
        TypeName::Aarq => &AARQ,
        TypeName::Aare => &AARE,
        TypeName::Release => &RELEASE,
        TypeName::Abrt => &ABRT,
        TypeName::ContextName => &CONTEXT_NAME,
        TypeName::AareResult => &AARE_RESULT,
        TypeName::Source => &SOURCE,
        TypeName::Reason => &REASON,
        TypeName::Information => &INFORMATION,
        TypeName::External => &EXTERNAL,
    }
}

/// The two fields of a SET.
pub(crate) fn both(carrier: SpduKind, pair: Pair) -> (Field, Field)
    ensures fields { pair_of carrier pair ≡ set (field_of carrier result.0) (field_of carrier result.1) }
    ensures first { are_below 8 (result.0 ∷ []) ≡ true }
    ensures second { are_below 8 (result.1 ∷ []) ≡ true }
{
    let _ = carrier;
    match pair {
        Pair::Cp => (SELECTOR, REQUEST),
        Pair::Cpa => (SELECTOR, ANSWER),
    }
}

/// The fields of an entry of the result list that refuses.
pub(crate) fn refused_outcome(carrier: SpduKind) -> &'static [Field]
    ensures fields { map (field_of carrier) result.now ≡ refused }
    ensures below { are_below 1 result.now ≡ true }
{
    let _ = carrier;
    &REFUSED_OUTCOME
}

/// The fields of an entry of the result list that accepts.
pub(crate) fn accepted_outcome(carrier: SpduKind) -> &'static [Field]
    ensures fields { map (field_of carrier) result.now ≡ accepted }
    ensures below { are_below 1 result.now ≡ true }
{
    let _ = carrier;
    &ACCEPTED_OUTCOME
}

/// The parts of a list.
pub(crate) fn element(carrier: SpduKind, listing: Listing) -> Field
    ensures element { listing_of listing ≡ sequence_of (tags_of result) (read_of carrier result.form) }
    ensures below { rank result.form < listing_rank listing }
{
    let _ = carrier;
    match listing {
        Listing::Proposals => required!(UNIVERSAL, 16, Form::Fields(TypeName::Proposal)),
        Listing::Transfers => required!(UNIVERSAL, 6, Form::Name(NameLabel::Transfer)),
        Listing::Outcomes => required!(UNIVERSAL, 16, Form::Outcome),
        Listing::Data => required!(UNIVERSAL, 16, Form::Fields(TypeName::DataList)),
    }
}

/// The ACSE value of an SPDU.
pub(crate) fn apdu(carrier: SpduKind) -> Field
    ensures tags { tags_of result ≡ apdu_tags carrier }
    ensures read { read_of carrier result.form ≡ apdu_in carrier }
    ensures required { result.is_required ≡ true }
    ensures below { rank result.form < 4 }
{
    match carrier {
        SpduKind::CN => required!(APPLICATION, 0, Form::Fields(TypeName::Aarq)),
        SpduKind::AC => required!(APPLICATION, 1, Form::Fields(TypeName::Aare)),
        SpduKind::RF => required!(APPLICATION, 1, Form::Fields(TypeName::Aare)),
        SpduKind::FN => required!(APPLICATION, 2, Form::Fields(TypeName::Release)),
        SpduKind::DN => required!(APPLICATION, 3, Form::Fields(TypeName::Release)),
        SpduKind::AB => abrt(),
        SpduKind::AA => abrt(),
        SpduKind::DT => abrt(),
        SpduKind::GT => abrt(),
        SpduKind::MIP => abrt(),
        SpduKind::MIA => abrt(),
        SpduKind::RS => abrt(),
        SpduKind::RA => abrt(),
    }
}

fn abrt() -> Field
    ensures { result ≡ record { class = 1; from = 4; to = 4; is_required = true; form = Form.Fields TypeName.Abrt } }
{
    required!(APPLICATION, 4, Form::Fields(TypeName::Abrt))
}

/// Whether other fields of a type are skipped.
pub(crate) fn skips_others(name: TypeName) -> bool
    ensures { result ≡ skips name }
{
    match name {
        TypeName::Mode => true,
        TypeName::Parameters => true,
        TypeName::Response => true,
        TypeName::UserAbort => true,
        TypeName::Resynchronization => true,
        TypeName::Aarq => true,
        TypeName::Aare => true,
        TypeName::Release => true,
        TypeName::Abrt => true,
        TypeName::Proposal => false,
        TypeName::AcseData => false,
        TypeName::AcseList => false,
        TypeName::OneData => false,
        TypeName::OneList => false,
        TypeName::DataList => false,
        TypeName::ContextName => false,
        TypeName::AareResult => false,
        TypeName::Source => false,
        TypeName::Reason => false,
        TypeName::Information => false,
        TypeName::External => false,
    }
}

/// The value that user data are, where an SPDU may have any.
pub(crate) fn user_data(carrier: SpduKind) -> Option<Field>
    ensures data { IsUserData carrier result }
    ensures required { IfSome result (λ field. field.is_required ≡ true) }
{
    match carrier {
        SpduKind::CN => Some(required!(UNIVERSAL, 17, Form::Set(Pair::Cp))),
        SpduKind::AC => Some(required!(UNIVERSAL, 17, Form::Set(Pair::Cpa))),
        SpduKind::RF => Some(required!(UNIVERSAL, 16, Form::Fields(TypeName::Response))),
        SpduKind::FN => Some(required!(APPLICATION, 1, Form::Fields(TypeName::AcseData))),
        SpduKind::DN => Some(required!(APPLICATION, 1, Form::Fields(TypeName::AcseData))),
        SpduKind::AB => Some(required!(CONTEXT, 0, Form::Fields(TypeName::UserAbort))),
        SpduKind::DT => Some(required!(APPLICATION, 1, Form::Each(Listing::Data))),
        SpduKind::RS => Some(resynchronization()),
        SpduKind::RA => Some(resynchronization()),
        SpduKind::AA => None,
        SpduKind::GT => None,
        SpduKind::MIP => None,
        SpduKind::MIA => None,
    }
}

fn resynchronization() -> Field
    ensures { result ≡ record { class = 0; from = 16; to = 16; is_required = true; form = Form.Fields TypeName.Resynchronization } }
{
    required!(UNIVERSAL, 16, Form::Fields(TypeName::Resynchronization))
}
