//! What one end may send.
ghost use Rattle.std.specs.Prelude.{◌≡◌, ◌≤◌, ◌-◌, nat_le, if◌then◌else◌};
ghost use Rattle.vf_session.specs.Rooms.{connect_size as connect_octets, carried as carried_octets, room as room_of, token_size as token_octets};
ghost use Rattle.vf_session.specs.Sending.{allows, is_free as free, is_named as named, names_rightly as names, numbers_rightly as numbers, answers_rightly as answers, answer_number as number_answered, is_written as written};

use crate::meaning::{is_side, other};
use crate::resync::PendingResync;
use crate::state::SessionState;
use crate::{Phase, ResyncKind, SayParameters, TokenSide};
use vf_session_spdu::{LAST_SERIAL, MOST_CONNECT_OCTETS, MOST_PARAMETER_OCTETS, digit_count};

/// Whether a unit may be sent where the connection stands so; the number of its octets of user data isn't looked at, but
/// for that of a CN.
pub(crate) fn is_allowed(
    own: TokenSide,
    offer: bool,
    s: &SessionState,
    say: &SayParameters,
    octets: usize,
) -> bool
    ensures { result ≡ allows own offer s.now say.now octets }
{
    match say {
        SayParameters::Connect { sync, serial } => {
            is_side(own, TokenSide::Initiator)
                && matches!(s.phase, Phase::Idle)
                && (if *sync { offer } else { !offer })
                && *serial == 1
                && octets <= MOST_CONNECT_OCTETS
        }
        SayParameters::Accept { sync, serial } => {
            is_side(own, TokenSide::Responder)
                && matches!(s.phase, Phase::Asked)
                && (if *sync { s.proposed } else { true })
                && *serial == s.first
        }
        SayParameters::Refuse => {
            is_side(own, TokenSide::Responder) && matches!(s.phase, Phase::Asked)
        }
        SayParameters::Finish => is_free(s),
        SayParameters::Finished => matches!(s.phase, Phase::Left),
        SayParameters::Data { pass } => {
            is_free(s)
                && (if *pass {
                    s.agreed && is_side(s.token, own)
                } else {
                    true
                })
        }
        SayParameters::Check { serial } => {
            is_free(s)
                && s.agreed
                && is_side(s.token, own)
                && *serial == s.next
                && is_written(*serial)
        }
        SayParameters::Acknowledge { serial } => {
            is_free(s) && s.agreed && s.oldest <= *serial && *serial < s.next
        }
        SayParameters::Resync {
            kind,
            serial,
            token,
        } => {
            is_free(s)
                && s.agreed
                && numbers_rightly(*kind, s, *serial)
                && is_written(*serial)
                && names_rightly(*kind, s, *token)
        }
        SayParameters::Resynced { serial, token } => {
            matches!(s.phase, Phase::Open)
                && is_written(*serial)
                && answers_rightly(own, s, *serial, *token)
        }
        SayParameters::Abort => !matches!(s.phase, Phase::Aborted | Phase::Over),
        SayParameters::Token { to } => {
            is_free(s) && s.agreed && is_side(s.token, own) && is_side(*to, other(own))
        }
    }
}

/// The connection is open, and no RS of either end is without its RA.
fn is_free(s: &SessionState) -> bool
    ensures { result ≡ free s.now }
{
    matches!(s.phase, Phase::Open) && s.resync.is_none()
}

/// A serial number of six digits.
fn is_written(serial: u32) -> bool
    ensures { result ≡ written serial }
{
    serial <= LAST_SERIAL
}

fn is_named(side: TokenSide, token: Option<TokenSide>) -> bool
    ensures { result ≡ named side token }
{
    match token {
        None => false,
        Some(token) => is_side(side, token),
    }
}

fn names_rightly(kind: ResyncKind, s: &SessionState, token: Option<TokenSide>) -> bool
    ensures { result ≡ names kind s.now token }
{
    match kind {
        ResyncKind::Restart => is_named(s.token, token),
        ResyncKind::Abandon => is_named(TokenSide::Initiator, token),
    }
}

fn numbers_rightly(kind: ResyncKind, s: &SessionState, serial: u32) -> bool
    ensures { result ≡ numbers kind s.now serial }
{
    match kind {
        ResyncKind::Restart => serial <= s.next,
        ResyncKind::Abandon => serial == s.next,
    }
}

fn answers_rightly(own: TokenSide, s: &SessionState, serial: u32, token: Option<TokenSide>) -> bool
    ensures { result ≡ answers own s.now s.now.resync serial token }
{
    match s.resync {
        None => false,
        Some(resync) => {
            is_side(other(own), resync.from)
                && serial == answer_number(resync, s.next)
                && names_rightly(resync.kind, s, token)
        }
    }
}

fn answer_number(resync: PendingResync, next: u32) -> u32
    ensures { result ≡ number_answered resync.kind resync.serial next }
{
    match resync.kind {
        ResyncKind::Restart => resync.serial,
        ResyncKind::Abandon => resync.serial.max(next),
    }
}

/// Whether the SPDUs of a unit with so many octets of user data have parameters of at most 65,535 octets.
pub(crate) fn fits(say: &SayParameters, octets: usize) -> bool
    ensures { result ≡ nat_le (carried_octets say.now octets) (room_of say.now) }
{
    carried(say, octets) <= room(say)
}

/// The octets of user data among the parameters; those of a DT stand after them.
fn carried(say: &SayParameters, octets: usize) -> usize
    ensures { result ≡ carried_octets say.now octets }
{
    match say {
        SayParameters::Data { .. }
        | SayParameters::Check { .. }
        | SayParameters::Acknowledge { .. }
        | SayParameters::Token { .. } => 0,
        SayParameters::Connect { .. }
        | SayParameters::Accept { .. }
        | SayParameters::Refuse
        | SayParameters::Finish
        | SayParameters::Finished
        | SayParameters::Resync { .. }
        | SayParameters::Resynced { .. }
        | SayParameters::Abort => octets,
    }
}

/// The most octets of user data for which there is room beside the other parameters.
fn room(say: &SayParameters) -> usize
    ensures { result ≡ room_of say.now }
{
    match say {
        SayParameters::Connect { sync, serial } | SayParameters::Accept { sync, serial } => {
            MOST_PARAMETER_OCTETS - 4 - connect_size(*sync, *serial)
        }
        SayParameters::Refuse => MOST_PARAMETER_OCTETS - 5,
        SayParameters::Finish | SayParameters::Finished => MOST_PARAMETER_OCTETS - 4,
        SayParameters::Resync { serial, token, .. } => {
            MOST_PARAMETER_OCTETS - 9 - token_size(*token) - digit_count(*serial)
        }
        SayParameters::Resynced { serial, token } => {
            MOST_PARAMETER_OCTETS - 6 - token_size(*token) - digit_count(*serial)
        }
        SayParameters::Abort => MOST_PARAMETER_OCTETS - 7,
        SayParameters::Data { .. }
        | SayParameters::Check { .. }
        | SayParameters::Acknowledge { .. }
        | SayParameters::Token { .. } => 0,
    }
}

/// The octets of the connect/accept item and of the session user requirements.
fn connect_size(sync: bool, serial: u32) -> usize
    ensures size { result ≡ connect_octets sync serial }
    ensures bound { result ≤ 23 }
{
    if sync { 17 + digit_count(serial) } else { 12 }
}

/// The octets of a token setting item.
fn token_size(token: Option<TokenSide>) -> usize
    ensures size { result ≡ token_octets token }
    ensures bound { result ≤ 3 }
{
    match token {
        None => 0,
        Some(_) => 3,
    }
}
