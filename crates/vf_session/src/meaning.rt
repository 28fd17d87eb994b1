//! What an SPDU tells one end.
ghost use Rattle.std.specs.Prelude.{◌≡◌};
ghost use Rattle.vf_session.specs.Trace.{other as other_side, is_side as same_side, wins as winner};
ghost use Rattle.vf_session.specs.Receiving.{receives as told_by, unwaiting_receives as told_unwaiting, waiting_receives as told_waiting, allowed_receives as told_allowed, may_come as comes, receives_data as data_comes, owes as owed, has_sync as sync_in, kind_of as kind_by, named as named_side, number_of as number_in, resync_of as resync_in, crossing_received as crossing, answer_received as answer, answers as answered, token_received as token_told, check_received as check_told, acknowledgement_received as acknowledgement_told, resync_received as resync_told_by, resync_told as resync_tells};
ghost use Rattle.vf_session.specs.declared.meaning.SpduMeaning.TheVariants as told;

use crate::resync::PendingResync;
use crate::state::SessionState;
use crate::{Phase, ResyncKind, SessionError, SessionSay, Spdu, SpduFields, TokenSide};
use vf_base::{Octets, SpduKind};
use vf_session_spdu::code_of;

/// What an SPDU tells.
#[derive(Drop)]
pub enum SpduMeaning {
    Nothing,
    Tells(SessionSay),
    Faulty(SessionError),
}

/// The other end.
pub(crate) fn other(side: TokenSide) -> TokenSide
    ensures { result ≡ other_side side }
{
    match side {
        TokenSide::Initiator => TokenSide::Responder,
        TokenSide::Responder => TokenSide::Initiator,
    }
}

pub(crate) fn is_side(a: TokenSide, b: TokenSide) -> bool
    ensures { result ≡ same_side a b }
{
    match a {
        TokenSide::Initiator => matches!(b, TokenSide::Initiator),
        TokenSide::Responder => matches!(b, TokenSide::Responder),
    }
}

/// What an SPDU tells the end on this side.
pub(crate) fn receives(own: TokenSide, s: &SessionState, spdu: Spdu) -> SpduMeaning
    ensures { result ≡ told_by own s.now spdu }
{
    let Spdu {
        kind,
        fields,
        octets,
    } = spdu;
    match s.resync {
        None => unwaiting_receives(own, s, fields, octets, kind),
        Some(resync) => {
            if is_side(own, resync.from) {
                waiting_receives(own, resync, fields, octets, kind)
            } else {
                unwaiting_receives(own, s, fields, octets, kind)
            }
        }
    }
}

/// While an RS of its own waits for its RA.
fn waiting_receives(
    own: TokenSide,
    resync: PendingResync,
    fields: SpduFields,
    octets: Octets,
    kind: SpduKind,
) -> SpduMeaning
    ensures { result ≡ told_waiting own resync fields octets kind }
{
    match kind {
        SpduKind::RS => crossing_received(resync, resync_of(own, fields), octets),
        SpduKind::RA => {
            answer_received(resync, number_of(fields), named(own, fields.tokens), octets)
        }
        SpduKind::AB => SpduMeaning::Tells(SessionSay::Abort { data: octets }),
        _ => SpduMeaning::Nothing,
    }
}

fn crossing_received(own: PendingResync, theirs: PendingResync, octets: Octets) -> SpduMeaning
    ensures { result ≡ crossing own theirs octets }
{
    if wins(theirs, own) {
        resync_told(theirs, octets)
    } else {
        SpduMeaning::Nothing
    }
}

fn answer_received(
    resync: PendingResync,
    number: u32,
    token: Option<TokenSide>,
    octets: Octets,
) -> SpduMeaning
    ensures { result ≡ answer resync number token octets }
{
    if answers(resync.kind, resync.serial, number) {
        SpduMeaning::Tells(SessionSay::Resynced {
            serial: number,
            token,
            data: octets,
        })
    } else {
        SpduMeaning::Faulty(SessionError::Serial {
            expected: resync.serial,
            found: number,
        })
    }
}

fn answers(kind: ResyncKind, asked: u32, number: u32) -> bool
    ensures { result ≡ answered kind asked number }
{
    match kind {
        ResyncKind::Restart => number == asked,
        ResyncKind::Abandon => asked <= number,
    }
}

/// Abandon wins over restart, and of equals the calling end's.
pub(crate) fn wins(a: PendingResync, b: PendingResync) -> bool
    ensures { result ≡ winner a b }
{
    match a.kind {
        ResyncKind::Abandon => match b.kind {
            ResyncKind::Restart => true,
            ResyncKind::Abandon => is_side(a.from, TokenSide::Initiator),
        },
        ResyncKind::Restart => match b.kind {
            ResyncKind::Abandon => false,
            ResyncKind::Restart => is_side(a.from, TokenSide::Initiator),
        },
    }
}

fn resync_told(resync: PendingResync, octets: Octets) -> SpduMeaning
    ensures { result ≡ resync_tells resync octets }
{
    SpduMeaning::Tells(SessionSay::Resync {
        kind: resync.kind,
        serial: resync.serial,
        token: resync.token,
        data: octets,
    })
}

/// The serial number of an SPDU that has one.
fn number_of(fields: SpduFields) -> u32
    ensures { result ≡ number_in fields }
{
    fields.serial.unwrap_or(0)
}

fn resync_of(own: TokenSide, fields: SpduFields) -> PendingResync
    ensures { result ≡ resync_in own fields }
{
    PendingResync {
        from: other(own),
        kind: kind_of(fields.resync),
        serial: number_of(fields),
        token: named(own, fields.tokens),
    }
}

fn kind_of(resync: Option<u8>) -> ResyncKind
    ensures { result ≡ kind_by resync }
{
    match resync {
        None => ResyncKind::Restart,
        Some(code) => {
            if code == 0 {
                ResyncKind::Restart
            } else {
                ResyncKind::Abandon
            }
        }
    }
}

/// The end that a token setting item of the other end names.
fn named(own: TokenSide, item: Option<u8>) -> Option<TokenSide>
    ensures { result ≡ named_side own item }
{
    match item {
        None => None,
        Some(item) => {
            if item == 0 {
                Some(other(own))
            } else {
                Some(own)
            }
        }
    }
}

/// While no RS of its own waits.
fn unwaiting_receives(
    own: TokenSide,
    s: &SessionState,
    fields: SpduFields,
    octets: Octets,
    kind: SpduKind,
) -> SpduMeaning
    ensures { result ≡ told_unwaiting own s.now fields octets kind }
{
    if may_come(own, s, kind) {
        allowed_receives(own, s, fields, octets, kind)
    } else {
        SpduMeaning::Faulty(SessionError::State {
            spdu: code_of(kind),
        })
    }
}

/// Whether this SPDU may come.
fn may_come(own: TokenSide, s: &SessionState, kind: SpduKind) -> bool
    ensures { result ≡ comes own s.now kind }
{
    match kind {
        SpduKind::CN => is_side(own, TokenSide::Responder) && matches!(s.phase, Phase::Idle),
        SpduKind::AC | SpduKind::RF => {
            is_side(own, TokenSide::Initiator) && matches!(s.phase, Phase::Asked)
        }
        SpduKind::FN => matches!(s.phase, Phase::Open) && !owes(own, s),
        SpduKind::DN => matches!(s.phase, Phase::Leaving),
        SpduKind::AB => !matches!(s.phase, Phase::Aborted | Phase::Over),
        SpduKind::AA => matches!(s.phase, Phase::Aborted),
        SpduKind::DT | SpduKind::GT => receives_data(own, s),
        SpduKind::MIP | SpduKind::MIA | SpduKind::RS => receives_data(own, s) && s.agreed,
        SpduKind::RA => false,
    }
}

/// Whether an RA is owed to the other end.
pub(crate) fn owes(own: TokenSide, s: &SessionState) -> bool
    ensures { result ≡ owed own s.now }
{
    match s.resync {
        None => false,
        Some(resync) => is_side(other(own), resync.from),
    }
}

fn receives_data(own: TokenSide, s: &SessionState) -> bool
    ensures { result ≡ data_comes own s.now }
{
    matches!(s.phase, Phase::Open | Phase::Leaving) && !owes(own, s)
}

/// What an SPDU that may come tells.
fn allowed_receives(
    own: TokenSide,
    s: &SessionState,
    fields: SpduFields,
    octets: Octets,
    kind: SpduKind,
) -> SpduMeaning
    ensures { result ≡ told_allowed own s.now fields octets kind }
{
    match kind {
        SpduKind::CN => SpduMeaning::Tells(SessionSay::Connect {
            sync: has_sync(fields.units),
            serial: fields.first.unwrap_or(1),
            data: octets,
        }),
        SpduKind::AC => SpduMeaning::Tells(SessionSay::Accept {
            sync: has_sync(fields.units) && s.proposed,
            serial: fields.first.unwrap_or(s.first),
            data: octets,
        }),
        SpduKind::RF => SpduMeaning::Tells(SessionSay::Refuse { data: octets }),
        SpduKind::FN => SpduMeaning::Tells(SessionSay::Finish { data: octets }),
        SpduKind::DN => SpduMeaning::Tells(SessionSay::Finished { data: octets }),
        SpduKind::AB => SpduMeaning::Tells(SessionSay::Abort { data: octets }),
        SpduKind::AA => SpduMeaning::Nothing,
        SpduKind::DT => SpduMeaning::Tells(SessionSay::Data {
            pass: false,
            data: octets,
        }),
        SpduKind::GT => token_received(own, s, fields.given),
        SpduKind::MIP => check_received(own, s, number_of(fields)),
        SpduKind::MIA => acknowledgement_received(s, number_of(fields)),
        SpduKind::RS => resync_received(s, resync_of(own, fields), octets),
        SpduKind::RA => SpduMeaning::Faulty(SessionError::State { spdu: 34 }),
    }
}

/// Whether both functional units of sync are in the set: minor synchronize (0008) and resynchronize (0020).
fn has_sync(units: Option<u16>) -> bool
    ensures { result ≡ sync_in units }
{
    match units {
        None => false,
        Some(units) => units / 8 % 2 == 1 && units / 32 % 2 == 1,
    }
}

fn token_received(own: TokenSide, s: &SessionState, given: Option<u8>) -> SpduMeaning
    ensures { result ≡ token_told own s.now given }
{
    match given {
        None => SpduMeaning::Nothing,
        Some(_) => {
            if is_side(s.token, own) {
                SpduMeaning::Faulty(SessionError::Token)
            } else {
                SpduMeaning::Tells(SessionSay::Token { to: own })
            }
        }
    }
}

fn check_received(own: TokenSide, s: &SessionState, number: u32) -> SpduMeaning
    ensures { result ≡ check_told own s.now number }
{
    if is_side(s.token, own) {
        return SpduMeaning::Faulty(SessionError::Token);
    }
    if number == s.next {
        SpduMeaning::Tells(SessionSay::Check { serial: number })
    } else {
        SpduMeaning::Faulty(SessionError::Serial {
            expected: s.next,
            found: number,
        })
    }
}

fn acknowledgement_received(s: &SessionState, number: u32) -> SpduMeaning
    ensures { result ≡ acknowledgement_told s.now number }
{
    if s.oldest <= number && number < s.next {
        SpduMeaning::Tells(SessionSay::Acknowledge { serial: number })
    } else {
        SpduMeaning::Faulty(SessionError::Serial {
            expected: s.oldest,
            found: number,
        })
    }
}

fn resync_received(s: &SessionState, resync: PendingResync, octets: Octets) -> SpduMeaning
    ensures { result ≡ resync_told_by s.now resync octets }
{
    match resync.kind {
        ResyncKind::Restart => {
            if resync.serial <= s.next {
                resync_told(resync, octets)
            } else {
                SpduMeaning::Faulty(SessionError::Serial {
                    expected: s.next,
                    found: resync.serial,
                })
            }
        }
        ResyncKind::Abandon => resync_told(resync, octets),
    }
}
