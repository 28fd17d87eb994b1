//! Changes in a record, and the record as a whole.
ghost use Rattle.std.specs.Prelude.{◌≡◌, IfOk};
ghost use Rattle.vf_store_record.specs.Formats.{repeated_read};
ghost use Rattle.vf_store_record.specs.Reading.{Gives};
ghost use Rattle.vf_store_record.specs.Records.{change, change_after, changes_of, docketed, piece};

use crate::contents::file_at;
use crate::elements::{elements_at, user_at};
use crate::fields::{name_at, octet_at, u32_at};
use crate::files::attributes_at;
use crate::plans::plan_at;
use crate::regimes::regime_at;
use crate::{ReadError, Rest};
use std::alloc::Global;
use vf_base::{Elements, Name, NoMemory, Octets, Sequence};
use vf_tables::{Change, Changes};

/// Which docket is meant.
#[derive(Drop)]
pub(crate) struct Docketed {
    pub(crate) identity: Name,
    pub(crate) activity: u32,
}

/// A piece of a docket, between two checkpoints.
#[derive(Drop)]
pub(crate) struct Piece {
    pub(crate) first: u32,
    pub(crate) last: u32,
    pub(crate) elements: Elements,
}

#[tactic(auto, unfolding(crate::specs::Records::docketed))]
fn docketed_at(alloc: Global, rest: &mut Rest<'_>) -> Result<Docketed, ReadError>
    ensures { Gives (λ found. (found, rest.new)) result (docketed.read rest.old) }
{
    let identity = name_at(alloc, rest)?;
    let activity = u32_at(rest)?;
    Ok(Docketed { identity, activity })
}

#[tactic(auto, unfolding(crate::specs::Records::piece))]
fn piece_at(alloc: Global, rest: &mut Rest<'_>) -> Result<Piece, ReadError>
    ensures { Gives (λ found. (found, rest.new)) result (piece.read rest.old) }
{
    let first = u32_at(rest)?;
    let last = u32_at(rest)?;
    let elements = elements_at(alloc, rest)?;
    Ok(Piece {
        first,
        last,
        elements,
    })
}

fn put_user_at(alloc: Global, rest: &mut Rest<'_>) -> Result<Change, ReadError>
    ensures { Gives (λ found. (found, rest.new)) result (change_after 1 rest.old) }
{
    let user = user_at(alloc, rest)?;
    Ok(Change::PutUser { user })
}

fn put_file_at(alloc: Global, rest: &mut Rest<'_>) -> Result<Change, ReadError>
    ensures { Gives (λ found. (found, rest.new)) result (change_after 2 rest.old) }
{
    let file = file_at(alloc, rest)?;
    Ok(Change::PutFile { file })
}

#[tactic(auto, unfolding(crate::specs::Records::renaming))]
fn put_attributes_at(alloc: Global, rest: &mut Rest<'_>) -> Result<Change, ReadError>
    ensures { Gives (λ found. (found, rest.new)) result (change_after 3 rest.old) }
{
    let old = name_at(alloc, rest)?;
    let name = name_at(alloc, rest)?;
    let attributes = attributes_at(alloc, rest)?;
    Ok(Change::PutAttributes {
        old,
        name,
        attributes,
    })
}

fn drop_file_at(alloc: Global, rest: &mut Rest<'_>) -> Result<Change, ReadError>
    ensures { Gives (λ found. (found, rest.new)) result (change_after 4 rest.old) }
{
    let name = name_at(alloc, rest)?;
    Ok(Change::DropFile { name })
}

fn put_docket_at(alloc: Global, rest: &mut Rest<'_>) -> Result<Change, ReadError>
    ensures { Gives (λ found. (found, rest.new)) result (change_after 5 rest.old) }
{
    let regime = regime_at(alloc, rest)?;
    Ok(Change::PutDocket { regime })
}

#[tactic(auto, unfolding(crate::specs::Records::staging))]
fn stage_at(alloc: Global, rest: &mut Rest<'_>) -> Result<Change, ReadError>
    ensures { Gives (λ found. (found, rest.new)) result (change_after 6 rest.old) }
{
    let docket = docketed_at(alloc, rest)?;
    let piece = piece_at(alloc, rest)?;
    let change = Change::Stage {
        identity: docket.identity,
        activity: docket.activity,
        first: piece.first,
        last: piece.last,
        elements: piece.elements,
    };
    Ok(change)
}

#[tactic(auto, unfolding(crate::specs::Records::cutting))]
fn cut_stage_at(alloc: Global, rest: &mut Rest<'_>) -> Result<Change, ReadError>
    ensures { Gives (λ found. (found, rest.new)) result (change_after 7 rest.old) }
{
    let docket = docketed_at(alloc, rest)?;
    let point = u32_at(rest)?;
    let change = Change::CutStage {
        identity: docket.identity,
        activity: docket.activity,
        point,
    };
    Ok(change)
}

fn drop_docket_at(alloc: Global, rest: &mut Rest<'_>) -> Result<Change, ReadError>
    ensures { Gives (λ found. (found, rest.new)) result (change_after 8 rest.old) }
{
    let docket = docketed_at(alloc, rest)?;
    let change = Change::DropDocket {
        identity: docket.identity,
        activity: docket.activity,
    };
    Ok(change)
}

fn put_task_at(alloc: Global, rest: &mut Rest<'_>) -> Result<Change, ReadError>
    ensures { Gives (λ found. (found, rest.new)) result (change_after 9 rest.old) }
{
    let plan = plan_at(alloc, rest)?;
    Ok(Change::PutTask { plan })
}

#[tactic(auto, unfolding(crate::specs::Records::task_staging))]
fn stage_task_at(alloc: Global, rest: &mut Rest<'_>) -> Result<Change, ReadError>
    ensures { Gives (λ found. (found, rest.new)) result (change_after 10 rest.old) }
{
    let activity = u32_at(rest)?;
    let point = u32_at(rest)?;
    let elements = elements_at(alloc, rest)?;
    Ok(Change::StageTask {
        activity,
        point,
        elements,
    })
}

#[tactic(auto, unfolding(crate::specs::Records::task_cutting))]
fn cut_task_at(rest: &mut Rest<'_>) -> Result<Change, ReadError>
    ensures { Gives (λ found. (found, rest.new)) result (change_after 11 rest.old) }
{
    let activity = u32_at(rest)?;
    let point = u32_at(rest)?;
    Ok(Change::CutTask { activity, point })
}

fn drop_task_at(rest: &mut Rest<'_>) -> Result<Change, ReadError>
    ensures { Gives (λ found. (found, rest.new)) result (change_after 12 rest.old) }
{
    let activity = u32_at(rest)?;
    Ok(Change::DropTask { activity })
}

/// A change whose kind was read.
fn change_of(alloc: Global, kind: u8, rest: &mut Rest<'_>) -> Result<Change, ReadError>
    ensures { Gives (λ found. (found, rest.new)) result (change_after kind rest.old) }
{
    match kind {
        1 => put_user_at(alloc, rest),
        2 => put_file_at(alloc, rest),
        3 => put_attributes_at(alloc, rest),
        4 => drop_file_at(alloc, rest),
        5 => put_docket_at(alloc, rest),
        6 => stage_at(alloc, rest),
        7 => cut_stage_at(alloc, rest),
        8 => drop_docket_at(alloc, rest),
        9 => put_task_at(alloc, rest),
        10 => stage_task_at(alloc, rest),
        11 => cut_task_at(rest),
        12 => drop_task_at(rest),
        _ => Err(ReadError::Foreign),
    }
}

#[tactic(auto, unfolding(crate::specs::Records::change))]
fn change_at(alloc: Global, rest: &mut Rest<'_>) -> Result<Change, ReadError>
    ensures { Gives (λ found. (found, rest.new)) result (change.read rest.old) }
{
    let kind = octet_at(rest)?;
    change_of(alloc, kind, rest)
}

fn changes_in(alloc: Global, count: u32, rest: &mut Rest<'_>) -> Result<Changes, ReadError>
    ensures { Gives (λ found. (found, rest.new)) result (repeated_read change count rest.old) }
{
    let mut changes = Sequence::new(alloc);
    for _ in 0..count {
        let change = change_at(alloc, rest)?;
        changes.push(change)?;
    }
    Ok(changes)
}

#[tactic(auto, unfolding(crate::specs::Records::changes, crate::specs::Fields::number32))]
fn whole(alloc: Global, octets: &Octets) -> Result<Changes, ReadError>
    ensures { Gives (λ found. found) result (changes_of octets.now) }
{
    let mut rest = Rest::of(octets);
    let count = u32_at(&mut rest)?;
    let changes = changes_in(alloc, count, &mut rest)?;
    if !rest.is_empty() {
        return Err(ReadError::Foreign);
    }
    Ok(changes)
}

/// The changes of a record; `None` exactly where the octets are no record of changes. Strings of 4,096 octets and more in
/// contents and elements are parts of the record: each keeps all of it.
pub fn read(alloc: Global, octets: &Octets) -> Result<Option<Changes>, NoMemory>
    ensures { IfOk result (λ found. found ≡ changes_of octets.now) }
{
    match whole(alloc, octets) {
        Ok(changes) => Ok(Some(changes)),
        Err(ReadError::Foreign) => Ok(None),
        Err(ReadError::NoMemory) => Err(NoMemory),
    }
}
