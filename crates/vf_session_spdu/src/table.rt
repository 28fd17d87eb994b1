//! The table of parameters.
ghost use Rattle.std.specs.Prelude.{◌≡◌, ◌&&◌, nat_eq, find, option_copied};
ghost use Rattle.std.specs.List.{list_all, list_any};
ghost use Rattle.vf_session_spdu.specs.Fields.{is_absent as absent};
ghost use Rattle.vf_session_spdu.specs.Table.{fits as is_fit, is_digit as digit, opens as opens_group, row_at as row_found, rows as rows_of};

use crate::SpduFields;
use crate::limits::MOST_CONNECT_OCTETS;
use vf_base::SpduKind;

/// What the octets of a parameter's value are to be.
#[derive(Clone, Copy)]
pub(crate) enum Form {
    /// This octet alone.
    Fixed(u8),
    /// One of these two octets alone.
    Either(u8, u8),
    /// Any one octet.
    Octet,
    /// Any two octets.
    Pair,
    /// 1 to 6 decimal digits in ASCII.
    Digits,
    /// A reason and, after it, octets.
    Reasoned,
    /// User data of at most so many octets.
    AtMost(usize),
    /// User data of any length.
    UserData,
}

/// One parameter that an SPDU may have.
#[derive(Clone, Copy)]
pub(crate) struct Row {
    /// The identifier of the group that it stands in; 0 where it stands in none.
    pub(crate) group: u8,
    /// Its identifier.
    pub(crate) code: u8,
    pub(crate) form: Form,
    pub(crate) required: bool,
}

macro_rules! row {
    ($group:literal, $code:literal, $form:expr, $required:literal) => {
        Row { group: $group, code: $code, form: $form, required: $required }
    };
}

const CONNECT: [Row; 7] = [
    row!(5, 19, Form::Fixed(0), false),
    row!(5, 22, Form::Fixed(2), false),
    row!(5, 23, Form::Digits, false),
    row!(5, 26, Form::Fixed(0), false),
    row!(0, 20, Form::Pair, true),
    row!(0, 193, Form::AtMost(512), false),
    row!(0, 194, Form::AtMost(MOST_CONNECT_OCTETS), false),
];

const ACCEPT: [Row; 6] = [
    row!(5, 19, Form::Fixed(0), false),
    row!(5, 22, Form::Fixed(2), false),
    row!(5, 23, Form::Digits, false),
    row!(5, 26, Form::Fixed(0), false),
    row!(0, 20, Form::Pair, true),
    row!(0, 193, Form::UserData, false),
];

const REFUSE: [Row; 1] = [row!(0, 50, Form::Reasoned, true)];

const FINISH: [Row; 1] = [row!(0, 193, Form::UserData, false)];

const ABORT: [Row; 2] = [
    row!(0, 17, Form::Octet, false),
    row!(0, 193, Form::UserData, false),
];

const TOKENS: [Row; 1] = [row!(0, 16, Form::Fixed(4), false)];

const CHECK: [Row; 1] = [row!(0, 42, Form::Digits, true)];

const RESYNCHRONIZE: [Row; 4] = [
    row!(0, 26, Form::Either(0, 4), false),
    row!(0, 27, Form::Either(0, 1), true),
    row!(0, 42, Form::Digits, true),
    row!(0, 193, Form::UserData, false),
];

const RESYNCHRONIZED: [Row; 3] = [
    row!(0, 26, Form::Either(0, 4), false),
    row!(0, 42, Form::Digits, true),
    row!(0, 193, Form::UserData, false),
];

/// The rows of an SPDU.
pub(crate) fn rows(kind: SpduKind) -> &'static [Row]
    ensures { result.now ≡ rows_of kind }
{
    match kind {
        SpduKind::CN => &CONNECT,
        SpduKind::AC => &ACCEPT,
        SpduKind::RF => &REFUSE,
        SpduKind::FN | SpduKind::DN => &FINISH,
        SpduKind::AB => &ABORT,
        SpduKind::AA | SpduKind::DT => &[],
        SpduKind::GT => &TOKENS,
        SpduKind::MIP | SpduKind::MIA => &CHECK,
        SpduKind::RS => &RESYNCHRONIZE,
        SpduKind::RA => &RESYNCHRONIZED,
    }
}

/// The row of a parameter in this group, if the SPDU has one for it.
pub(crate) fn row_at(kind: SpduKind, group: u8, code: u8) -> Option<Row>
    ensures { result ≡ row_found kind group code }
{
    find_row(rows(kind), group, code).copied()
}

fn find_row(rows: &[Row], group: u8, code: u8) -> Option<&Row>
    ensures { option_copied result ≡ find (λ row. nat_eq row.code code && nat_eq row.group group) rows.now }
{
    rows.iter()
        .find(|row| row.code == code && row.group == group)
}

/// Whether a required parameter is absent, by the field that it sets.
fn is_absent(fields: &SpduFields, code: u8) -> bool
    ensures { result ≡ absent fields.now code }
{
    match code {
        20 => fields.units.is_none(),
        27 => fields.resync.is_none(),
        42 => fields.serial.is_none(),
        50 => fields.reason.is_none(),
        _ => false,
    }
}

/// The first row of those that are required and absent.
pub(crate) fn missing(kind: SpduKind, fields: &SpduFields) -> Option<Row>
    ensures { result ≡ find (λ row. row.required && absent fields.now row.code) (rows_of kind) }
{
    find_missing(rows(kind), fields).copied()
}

fn find_missing<'a>(rows: &'a [Row], fields: &SpduFields) -> Option<&'a Row>
    ensures { option_copied result ≡ find (λ row. row.required && absent fields.now row.code) rows.now }
{
    rows.iter()
        .find(|row| row.required && is_absent(fields, row.code))
}

/// Whether this is the identifier of a group within which the SPDU has rows.
pub(crate) fn opens(kind: SpduKind, code: u8) -> bool
    ensures { result ≡ opens_group kind code }
{
    code == 5 && has_item(rows(kind))
}

fn has_item(rows: &[Row]) -> bool
    ensures { result ≡ list_any (λ row. nat_eq row.group 5) rows.now }
{
    rows.iter().any(|row| row.group == 5)
}

impl Form {
    /// Whether a value is of this form.
    pub(crate) fn fits(self, value: &[u8]) -> bool
        ensures { result ≡ is_fit self value.now }
    {
        match self {
            Form::Fixed(octet) => value.len() == 1 && value[0] == octet,
            Form::Either(first, second) => {
                value.len() == 1 && (value[0] == first || value[0] == second)
            }
            Form::Octet => value.len() == 1,
            Form::Pair => value.len() == 2,
            Form::Digits => is_number(value),
            Form::Reasoned => !value.is_empty(),
            Form::AtMost(most) => value.len() <= most,
            Form::UserData => true,
        }
    }
}

/// Whether these are 1 to 6 decimal digits.
fn is_number(value: &[u8]) -> bool
    ensures { result ≡ is_fit Form.Digits value.now }
{
    if value.is_empty() || value.len() > 6 {
        return false;
    }
    all_digits(value)
}

fn all_digits(value: &[u8]) -> bool
    ensures { result ≡ list_all digit value.now }
{
    value.iter().all(|octet| is_digit(*octet))
}

fn is_digit(octet: u8) -> bool
    ensures { result ≡ digit octet }
{
    (48..=57).contains(&octet)
}
