//! The docket of a recoverable open, as the store keeps it while the open stands (ISO 8571-3, docket; profile).
ghost use Rattle.std.specs.Prelude.{◌≡◌, [], IfOk, if◌then◌else◌, not};
ghost use Rattle.vf_filestore.specs.Changes.{is_same_direction as direction_meant, is_same_fadu as fadu_meant, is_same_regime, is_same_setting, is_same_transfer};
ghost use Rattle.vf_party_steps.specs.Dockets.{docket_with, fields_of as fields_meant, fields_with as fields_with_meant, no_transfer, own_changes};

use crate::Open;
use crate::files::is_same_octets;
use crate::step::one_change;
use std::alloc::Global;
use vf_base::{FaduId, NoMemory, copy_option};
use vf_regime_refusals::joined;
use vf_tables::{Change, Changes, Direction, Regime};

/// What a docket has of the transfer that is under way in its open; where there is none, each field is as `none` has it.
#[derive(Clone, Copy)]
pub(crate) struct Underway {
    pub(crate) direction: Direction,
    pub(crate) fadu: FaduId,
    /// The number of the diagnostic that refuses it, or 0.
    pub(crate) refused: u16,
    /// Its last check that is acknowledged.
    pub(crate) point: u32,
    /// The version of the file that a read shows.
    pub(crate) version: u32,
}

impl Underway {
    pub(crate) fn none() -> Underway
        ensures { result ≡ no_transfer }
    {
        Underway {
            direction: Direction::Idle,
            fadu: FaduId::Begin,
            refused: 0,
            point: 0,
            version: 0,
        }
    }
}

/// The fields of the docket of an open with this transfer in it, where the open is recoverable. More transfers than a
/// number counts, which no open has, want memory.
pub(crate) fn fields_of(
    alloc: Global,
    regimes: &Open,
    moving: Underway,
) -> Result<Option<Regime>, NoMemory>
    ensures { IfOk result (λ fields. fields ≡ fields_meant regimes.now moving) }
{
    let Some(activity) = regimes.regime.activity else {
        return Ok(None);
    };
    let fields = fields_with(alloc, activity, regimes, moving)?;
    Ok(Some(fields))
}

fn fields_with(
    alloc: Global,
    activity: u32,
    regimes: &Open,
    moving: Underway,
) -> Result<Regime, NoMemory>
    ensures { IfOk result (λ fields. fields ≡ fields_with_meant activity regimes.now moving) }
{
    let selection = &regimes.selected.selection;
    let Some(number) = regimes.regime.done.checked_add(1) else {
        return Err(NoMemory);
    };
    let identity = regimes
        .selected
        .associated
        .association
        .identity
        .copy(alloc)?;
    let file = selection.file.copy(alloc)?;
    let password = copy_option(alloc, &selection.password)?;
    Ok(Regime {
        identity,
        activity,
        file,
        requested: selection.requested,
        controls: joined(regimes.regime.controls, selection.controls),
        mode: regimes.regime.mode,
        password,
        position: regimes.regime.position,
        number,
        last: regimes.regime.last,
        window: 0,
        direction: moving.direction,
        fadu: moving.fadu,
        refused: moving.refused,
        point: moving.point,
        ended: false,
        version: moving.version,
    })
}

/// The changes by which a docket has these fields in the place of those before, where it has others; its pieces stay.
pub(crate) fn field_changes(
    alloc: Global,
    before: Option<Regime>,
    after: Option<Regime>,
) -> Result<Changes, NoMemory>
    ensures { IfOk result (λ changes. changes ≡ own_changes (docket_with before []) (docket_with after [])) }
{
    let (Some(before), Some(after)) = (before, after) else {
        return Ok(Changes::new(alloc));
    };
    if is_same(&before, &after) {
        return Ok(Changes::new(alloc));
    }
    let changes = one_change(alloc, Change::PutDocket { regime: after })?;
    Ok(changes)
}

pub(crate) fn is_same(one: &Regime, other: &Regime) -> bool
    ensures { result ≡ is_same_regime one.now other.now }
{
    has_same_setting(one, other) && has_same_transfer(one, other)
}

fn has_same_setting(one: &Regime, other: &Regime) -> bool
    ensures { result ≡ is_same_setting one.now other.now }
{
    one.identity == other.identity
        && one.activity == other.activity
        && one.file == other.file
        && one.requested == other.requested
        && one.controls == other.controls
        && one.mode == other.mode
        && is_same_octets(&one.password, &other.password)
        && one.window == other.window
}

fn has_same_transfer(one: &Regime, other: &Regime) -> bool
    ensures { result ≡ is_same_transfer one.now other.now }
{
    one.position == other.position
        && one.number == other.number
        && one.last == other.last
        && is_same_direction(one.direction, other.direction)
        && is_same_fadu(one.fadu, other.fadu)
        && one.refused == other.refused
        && one.point == other.point
        && is_same_flag(one.ended, other.ended)
        && one.version == other.version
}

fn is_same_direction(one: Direction, other: Direction) -> bool
    ensures { result ≡ direction_meant one other }
{
    match (one, other) {
        (Direction::Idle, Direction::Idle) => true,
        (Direction::Read { context }, Direction::Read { context: other }) => context == other,
        (Direction::Write { operation }, Direction::Write { operation: other }) => {
            operation == other
        }
        _ => false,
    }
}

fn is_same_fadu(one: FaduId, other: FaduId) -> bool
    ensures { result ≡ fadu_meant one other }
{
    one == other
}

fn is_same_flag(one: bool, other: bool) -> bool
    ensures { result ≡ (if one then other else not other) }
{
    if one {
        return other;
    }
    !other
}
