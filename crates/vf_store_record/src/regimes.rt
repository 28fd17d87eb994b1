//! Recoverable regimes in a record, group by group of their fields.
ghost use Rattle.std.specs.Prelude.{◌≡◌};
ghost use Rattle.vf_store_record.specs.Entries.{direction_of as direction_meant, ownership, permission, progress, reading_of as reading_meant, regime, regime_from, standing, transfer, writing_of as writing_meant};
ghost use Rattle.vf_store_record.specs.Fields.{controls, fadu, fadu_of as fadu_meant};
ghost use Rattle.vf_store_record.specs.Formats.{both};
ghost use Rattle.vf_store_record.specs.Reading.{Gives};

use crate::fields::{
    actions_at, control_at, name_at, octet_at, optional_text_at, truth_at, u16_at, u32_at, u64_at,
};
use crate::{ReadError, Rest};
use std::alloc::Global;
use vf_base::{Actions, Context, Control, Controls, FaduId, Name, Octets};
use vf_tables::{Direction, Operation, Regime};

/// Whose it is, and of which file.
#[derive(Drop)]
pub(crate) struct Ownership {
    pub(crate) identity: Name,
    pub(crate) activity: u32,
    pub(crate) file: Name,
}

/// What was requested and opened.
#[derive(Drop)]
pub(crate) struct Permission {
    pub(crate) requested: Actions,
    pub(crate) controls: Controls,
    pub(crate) mode: Actions,
    pub(crate) password: Option<Octets>,
}

/// What stands between transfers.
#[derive(Clone, Copy)]
pub(crate) struct Progress {
    pub(crate) position: u32,
    pub(crate) number: u32,
    pub(crate) last: u16,
    pub(crate) window: u16,
}

/// The transfer under way.
#[derive(Clone, Copy)]
pub(crate) struct Transfer {
    pub(crate) direction: Direction,
    pub(crate) fadu: FaduId,
}

/// How the transfer under way stands.
#[derive(Clone, Copy)]
pub(crate) struct Standing {
    pub(crate) refused: u16,
    pub(crate) point: u32,
    pub(crate) ended: bool,
    pub(crate) version: u32,
}

#[tactic(auto, unfolding(crate::specs::Entries::ownership))]
fn ownership_at(alloc: Global, rest: &mut Rest<'_>) -> Result<Ownership, ReadError>
    ensures { Gives (λ found. (found, rest.new)) result (ownership.read rest.old) }
{
    let identity = name_at(alloc, rest)?;
    let activity = u32_at(rest)?;
    let file = name_at(alloc, rest)?;
    Ok(Ownership {
        identity,
        activity,
        file,
    })
}

#[tactic(auto, unfolding(crate::specs::Fields::controls))]
fn controls_at(rest: &mut Rest<'_>) -> Result<Controls, ReadError>
    ensures { Gives (λ found. (found, rest.new)) result (controls.read rest.old) }
{
    let read = control_at(rest)?;
    let insert = control_at(rest)?;
    let replace = control_at(rest)?;
    let extend = control_at(rest)?;
    let erase = control_at(rest)?;
    let read_attribute = control_at(rest)?;
    let change_attribute = control_at(rest)?;
    let delete = control_at(rest)?;
    let each = [
        read,
        insert,
        replace,
        extend,
        erase,
        read_attribute,
        change_attribute,
        delete,
    ];
    Ok(Controls { each })
}

#[tactic(auto, unfolding(crate::specs::Entries::permission))]
fn permission_at(alloc: Global, rest: &mut Rest<'_>) -> Result<Permission, ReadError>
    ensures { Gives (λ found. (found, rest.new)) result (permission.read rest.old) }
{
    let requested = actions_at(rest)?;
    let controls = controls_at(rest)?;
    let mode = actions_at(rest)?;
    let password = optional_text_at(alloc, rest)?;
    Ok(Permission {
        requested,
        controls,
        mode,
        password,
    })
}

#[tactic(auto, unfolding(crate::specs::Entries::progress))]
fn progress_at(rest: &mut Rest<'_>) -> Result<Progress, ReadError>
    ensures { Gives (λ found. (found, rest.new)) result (progress.read rest.old) }
{
    let position = u32_at(rest)?;
    let number = u32_at(rest)?;
    let last = u16_at(rest)?;
    let window = u16_at(rest)?;
    Ok(Progress {
        position,
        number,
        last,
        window,
    })
}

#[tactic(auto, unfolding(crate::specs::Entries::standing))]
fn standing_at(rest: &mut Rest<'_>) -> Result<Standing, ReadError>
    ensures { Gives (λ found. (found, rest.new)) result (standing.read rest.old) }
{
    let refused = u16_at(rest)?;
    let point = u32_at(rest)?;
    let ended = truth_at(rest)?;
    let version = u32_at(rest)?;
    Ok(Standing {
        refused,
        point,
        ended,
        version,
    })
}

fn reading_of(method: u8) -> Option<Direction>
    ensures { result ≡ reading_meant method }
{
    let context = match method {
        0 => Context::HA,
        1 => Context::FA,
        2 => Context::UA,
        3 => Context::US,
        _ => return None,
    };
    Some(Direction::Read { context })
}

fn writing_of(method: u8) -> Option<Direction>
    ensures { result ≡ writing_meant method }
{
    let operation = match method {
        1 => Operation::Insert,
        2 => Operation::Replace,
        3 => Operation::Extend,
        _ => return None,
    };
    Some(Direction::Write { operation })
}

fn direction_of(direction: u8, method: u8) -> Option<Direction>
    ensures { result ≡ direction_meant direction method }
{
    match direction {
        0 if method == 0 => Some(Direction::Idle),
        0 => None,
        1 => reading_of(method),
        2 => writing_of(method),
        _ => None,
    }
}

fn fadu_of(number: u64) -> Option<FaduId>
    ensures { result ≡ fadu_meant number }
{
    match number {
        0 => Some(FaduId::Begin),
        18_446_744_073_709_551_615 => Some(FaduId::End),
        18_446_744_073_709_551_614 => Some(FaduId::First),
        18_446_744_073_709_551_613 => Some(FaduId::Last),
        18_446_744_073_709_551_612 => Some(FaduId::Current),
        18_446_744_073_709_551_611 => Some(FaduId::Next),
        18_446_744_073_709_551_610 => Some(FaduId::Previous),
        1..=4_294_967_295 => Some(FaduId::Number(number as u32)),
        _ => None,
    }
}

#[tactic(auto, unfolding(crate::specs::Fields::fadu))]
fn fadu_at(rest: &mut Rest<'_>) -> Result<FaduId, ReadError>
    ensures { Gives (λ found. (found, rest.new)) result (fadu.read rest.old) }
{
    let number = u64_at(rest)?;
    match fadu_of(number) {
        Some(fadu) => Ok(fadu),
        None => Err(ReadError::Foreign),
    }
}

#[tactic(auto, unfolding(crate::specs::Entries::transfer))]
fn transfer_at(rest: &mut Rest<'_>) -> Result<Transfer, ReadError>
    ensures { Gives (λ found. (found, rest.new)) result (transfer.read rest.old) }
{
    let direction = octet_at(rest)?;
    let fadu = fadu_at(rest)?;
    let method = octet_at(rest)?;
    match direction_of(direction, method) {
        Some(direction) => Ok(Transfer { direction, fadu }),
        None => Err(ReadError::Foreign),
    }
}

/// What stands between transfers, and the transfer under way.
fn state_at(rest: &mut Rest<'_>) -> Result<(Progress, Transfer, Standing), ReadError>
    ensures { Gives (λ found. ((found.0, (found.1, found.2)), rest.new)) result ((both progress (both transfer standing)).read rest.old) }
{
    let progress = progress_at(rest)?;
    let transfer = transfer_at(rest)?;
    let standing = standing_at(rest)?;
    Ok((progress, transfer, standing))
}

fn joined(
    ownership: Ownership,
    permission: Permission,
    progress: Progress,
    transfer: Transfer,
    standing: Standing,
) -> Regime
    ensures { result ≡ regime_from (ownership, (permission, (progress, (transfer, standing)))) }
{
    Regime {
        identity: ownership.identity,
        activity: ownership.activity,
        file: ownership.file,
        requested: permission.requested,
        controls: permission.controls,
        mode: permission.mode,
        password: permission.password,
        position: progress.position,
        number: progress.number,
        last: progress.last,
        window: progress.window,
        direction: transfer.direction,
        fadu: transfer.fadu,
        refused: standing.refused,
        point: standing.point,
        ended: standing.ended,
        version: standing.version,
    }
}

#[tactic(auto, unfolding(crate::specs::Entries::regime))]
pub(crate) fn regime_at(alloc: Global, rest: &mut Rest<'_>) -> Result<Regime, ReadError>
    ensures { Gives (λ found. (found, rest.new)) result (regime.read rest.old) }
{
    let ownership = ownership_at(alloc, rest)?;
    let permission = permission_at(alloc, rest)?;
    let (progress, transfer, standing) = state_at(rest)?;
    Ok(joined(ownership, permission, progress, transfer, standing))
}
