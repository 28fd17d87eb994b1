//! Numbers in their ranges, and what they stand for.
ghost use Rattle.std.specs.Prelude.{◌≡◌, ◌≤◌, pos, true, false, IfSome, IsSome, MatchOption, Some};
ghost use Rattle.vf_pdu_fields.specs.Content.{Number};
ghost use Rattle.vf_pdu_fields.specs.Forms.{is_control, is_from_to, is_unit};
ghost use Rattle.vf_pdu_fields.specs.Slots.{context_slot, control_octet, fadu_slot, maybe_actions, maybe_num, num, operation_slot};

use crate::WriteOperation;
use vf_base::{Actions, Context, Control, FaduId};

/// The number, where it is from `low` to `high`.
pub fn natural_in(n: i64, low: u64, high: u64) -> Option<u64>
    ensures { MatchOption result (is_from_to low high n ≡ false) (λ m. (n ≡ pos m) × (is_from_to low high n ≡ true) × (low ≤ m) × (m ≤ high)) }
{
    if n < 0 {
        return None;
    }
    let n = n as u64;
    if n < low || n > high {
        return None;
    }
    Some(n)
}

/// The FADU of this number.
#[tactic(auto, using(crate::proofs::Numbering::numbering))]
pub(crate) fn fadu_in(n: i64) -> Option<FaduId>
    ensures { MatchOption result (is_unit n ≡ false) (λ fadu. (fadu_slot fadu ≡ Some (Number n)) × (is_unit n ≡ true)) }
{
    match n {
        0 => Some(FaduId::Begin),
        -1 => Some(FaduId::End),
        -2 => Some(FaduId::First),
        -3 => Some(FaduId::Last),
        -4 => Some(FaduId::Current),
        -5 => Some(FaduId::Next),
        -6 => Some(FaduId::Previous),
        1..=4_294_967_295 => Some(FaduId::Number(n as u32)),
        _ => None,
    }
}

pub fn context_of(n: u64) -> Context
    requires { n ≤ 3 }
    ensures { context_slot result ≡ num n }
{
    match n {
        0 => Context::HA,
        1 => Context::FA,
        2 => Context::UA,
        _ => Context::US,
    }
}

pub fn operation_of(n: u64) -> WriteOperation
    requires low { 1 ≤ n }
    requires high { n ≤ 3 }
    ensures { operation_slot result ≡ num n }
{
    match n {
        1 => WriteOperation::Insert,
        2 => WriteOperation::Replace,
        _ => WriteOperation::Extend,
    }
}

pub(crate) fn control_in(octet: u8) -> Option<Control>
    ensures { MatchOption result (is_control octet ≡ false) (λ control. (control_octet control ≡ octet) × (is_control octet ≡ true)) }
{
    match octet {
        0 => Some(Control::NotRequired),
        1 => Some(Control::Shared),
        2 => Some(Control::Exclusive),
        3 => Some(Control::NoAccess),
        _ => None,
    }
}

/// A number that fits.
pub fn small(n: Option<u64>) -> Option<u32>
    requires { IfSome n (λ m. m ≤ 4294967295) }
    ensures { maybe_num result ≡ maybe_num n }
{
    match n {
        Some(n) => Some(n as u32),
        None => None,
    }
}

pub fn actions_of(n: Option<u64>) -> Option<Actions>
    requires { IfSome n (λ m. m ≤ 255) }
    ensures { maybe_actions result ≡ maybe_num n }
{
    match n {
        Some(n) => Some(Actions { value: n as u8 }),
        None => None,
    }
}

/// The number of a FADU; units are numbered from 1 on.
pub(crate) fn fadu_number(fadu: FaduId) -> i64
    requires { IsSome (fadu_slot fadu) }
    ensures { fadu_slot fadu ≡ Some (Number result) }
{
    match fadu {
        FaduId::Begin => 0,
        FaduId::End => -1,
        FaduId::First => -2,
        FaduId::Last => -3,
        FaduId::Current => -4,
        FaduId::Next => -5,
        FaduId::Previous => -6,
        FaduId::Number(n) => i64::from(n),
    }
}

pub(crate) fn context_number(context: Context) -> i64
    ensures { context_slot context ≡ Some (Number result) }
{
    match context {
        Context::HA => 0,
        Context::FA => 1,
        Context::UA => 2,
        Context::US => 3,
    }
}

pub(crate) fn operation_number(operation: WriteOperation) -> i64
    ensures { operation_slot operation ≡ Some (Number result) }
{
    match operation {
        WriteOperation::Insert => 1,
        WriteOperation::Replace => 2,
        WriteOperation::Extend => 3,
    }
}

pub(crate) fn octet_of(control: Control) -> u8
    ensures { result ≡ control_octet control }
{
    match control {
        Control::NotRequired => 0,
        Control::Shared => 1,
        Control::Exclusive => 2,
        Control::NoAccess => 3,
    }
}
