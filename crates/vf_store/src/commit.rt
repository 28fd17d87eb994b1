//! A commit: all that it needs is made before the first call of the disk.
ghost use Rattle.std.specs.Prelude.{◌≡◌, ◌+◌, ◌≤◌, ◌<◌, ◌^◌, [], ◌∷◌, ◌++◌, ℕ, List, true, IsTrue, Some, IfOk, IfSome, OnOk, OnErr, is_err, length};
ghost use Rattle.std.specs.List.{list_all};
ghost use Rattle.std.specs.Option.{option_map};
ghost use Rattle.vf_disk.specs.Disk.{LeavesOnly, greatest_length};
ghost use Rattle.vf_journal.specs.JournalState.{IsWithin, JournalState, placing};
ghost use Rattle.vf_journal.specs.Records.{area_with, entry_of, longest};
ghost use Rattle.vf_journal.specs.Writes.{Shows};
ghost use Rattle.vf_store_record.specs.Records.{changes_of, record_of};
ghost use Rattle.vf_store.specs.Answers.{CommitAnswers, CommitSteps};
ghost use Rattle.vf_store.specs.Built.{IsBuilt, LeadsOn};
ghost use Rattle.vf_store.specs.Commit.{AreFitting, after_commit, commit_steps, placed};
ghost use Rattle.vf_store.specs.Represented.{RepresentsEither, made};
ghost use Rattle.vf_store.specs.StoreState.{TablesStand};
ghost use Rattle.vf_tables.specs.Changes.{after_all};
ghost use Rattle.vf_tables.specs.Fitting.{is_in_range};
ghost use Rattle.vf_tables.specs.Snapshot.{HasFewPieces, snapshot as snapshot_meant};
ghost use Rattle.vf_tables.specs.declared.tables.Tables.{Tables as TablesMeant};

use crate::StoreError;
use crate::room::room_for;
use crate::writing::write;
use std::alloc::Global;
use vf_base::NoMemory;
use vf_disk::{Disk, Parts};
use vf_journal::{Journal, end_record};
use vf_tables::{Changes, Doubled, Tables, kept_stay, snapshot_makes};

/// What a commit makes before its first call of the disk.
#[derive(Drop)]
struct Built {
    /// An area of one record, which makes the tables that stand, where a switch is due and possible.
    area: Option<Parts>,
    /// The record of the changes, in its built form.
    entry: Parts,
    /// Where the record is to end, in octets.
    end: u64,
}

/// The record of changes after these octets. Its long strings are shared, and the room for all else is taken at once.
fn spelled(alloc: Global, before: &[u8], changes: &Changes) -> Result<Parts, NoMemory>
    ensures octets { IfOk result (λ octets. octets.items ≡ before.now ++ record_of changes.now) }
    ensures read { list_all is_in_range changes.now ≡ true → length (record_of changes.now) < 2 ^ 32 → OnOk result (changes_of (record_of changes.now) ≡ Some changes.now) }
{
    let mut octets = Parts::with_capacity(alloc, room_for(changes.as_slice()))?;
    octets.extend_from_slice(before)?;
    vf_store_record::write(changes.as_slice(), &mut octets)?;
    Ok(octets)
}

/// The record of changes in its built form, and its length.
fn entry_of_changes(alloc: Global, changes: &Changes) -> Result<(Parts, u64), NoMemory>
    ensures octets { IfOk result (λ entry. entry.0.items ≡ entry_of (record_of changes.now)) }
    ensures count { IfOk result (λ entry. entry.1 ≡ length (record_of changes.now)) }
    ensures short { OnOk result (length (record_of changes.now) ≤ longest) }
    ensures read { list_all is_in_range changes.now ≡ true → OnOk result (changes_of (record_of changes.now) ≡ Some changes.now) }
{
    let mut octets = spelled(alloc, &[0, 0, 0, 0], changes)?;
    let count = octets.len() as u64 - 4;
    end_record(&mut octets, 0)?;
    Ok((octets, count))
}

/// An area of one record, which makes the tables, and the length of that record. It isn't ended: the four octets for the
/// length hold nothing yet.
fn area_begun(alloc: Global, tables: &Tables) -> Result<(Parts, u64), NoMemory>
    ensures octets { IfOk result (λ area. area.0.items ≡ (1 ∷ 0 ∷ 0 ∷ 0 ∷ 0 ∷ []) ++ record_of (snapshot_meant tables.now)) }
    ensures count { IfOk result (λ area. area.1 ≡ length (record_of (snapshot_meant tables.now))) }
    ensures bound { IfOk result (λ area. area.1 ≤ greatest_length) }
    ensures read { list_all is_in_range (snapshot_meant tables.now) ≡ true → length (record_of (snapshot_meant tables.now)) < 2 ^ 32
        → OnOk result (changes_of (record_of (snapshot_meant tables.now)) ≡ Some (snapshot_meant tables.now)) }
{
    if !has_few_pieces(tables) {
        return Err(NoMemory);
    }
    let changes = tables.snapshot(alloc)?;
    let octets = spelled(alloc, &[1, 0, 0, 0, 0], &changes)?;
    let count = octets.len() as u64 - 5;
    Ok((octets, count))
}

/// Whether a snapshot can number the pieces of each docket and each task.
fn has_few_pieces(tables: &Tables) -> bool
    ensures { IsTrue result → HasFewPieces tables.now }
{
    let dockets = tables.dockets.as_slice();
    let tasks = tables.tasks.as_slice();
    dockets
        .iter()
        .all(|docket| docket.staged.len() < 4_294_967_296)
        && tasks.iter().all(|task| task.staged.len() < 4_294_967_296)
}

/// For a record of `count` octets: an area of one record, which makes the tables, where a switch is due and possible; and
/// where the record is to end, in octets.
fn place(
    alloc: Global,
    journal: &Journal,
    tables: &Doubled,
    count: u64,
) -> Result<(Option<Parts>, u64), NoMemory>
    requires { count ≤ longest }
    ensures area { let placed = placing journal.now count (length (record_of (snapshot_meant tables.now))) in
        IfOk result (λ place. option_map (λ octets. octets.items) place.0 ≡ option_map (λ (start : ℕ). area_with (record_of (snapshot_meant tables.now))) placed.switch) }
    ensures end { IfOk result (λ place. place.1 ≡ (placing journal.now count (length (record_of (snapshot_meant tables.now)))).end) }
    ensures read { list_all is_in_range (snapshot_meant tables.now) ≡ true
        → IfOk result (λ place. IfSome place.0 (λ area. changes_of (record_of (snapshot_meant tables.now)) ≡ Some (snapshot_meant tables.now))) }
{
    if !journal.is_due(count) {
        let placing = journal.plan(count, 0);
        return Ok((None, placing.end));
    }
    let (mut area, snapshot) = area_begun(alloc, tables.tables())?;
    let placing = journal.plan(count, snapshot);
    if placing.switch.is_none() {
        return Ok((None, placing.end));
    }
    end_record(&mut area, 1)?;
    Ok((Some(area), placing.end))
}

/// Makes all that a commit of the changes writes. A record has at most 4,294,967,295 octets: for a longer one memory is
/// wanting.
fn build(
    alloc: Global,
    journal: &Journal,
    tables: &Doubled,
    changes: &Changes,
) -> Result<Built, NoMemory>
    ensures built { IfOk result (λ built. IsBuilt journal.now tables.now changes.now built) }
    ensures short { OnOk result (length (record_of changes.now) ≤ longest) }
    ensures leads { (records : List (List ℕ)) → made records ≡ Some tables.now → AreFitting tables.now changes.now → IfOk result (λ built. LeadsOn built tables.now (after_all tables.now changes.now)) }
{
    kept_stay();
    snapshot_makes();
    let (entry, count) = entry_of_changes(alloc, changes)?;
    let (area, end) = place(alloc, journal, tables, count)?;
    Ok(Built { area, entry, end })
}

/// Makes the changes of the tables on the disk and in memory, where they may be made already `ahead`. At `Full` and
/// `NoMemory` all is as before.
pub(crate) fn commit_on<D: Disk>(
    alloc: Global,
    journal: &mut Journal,
    disk: &mut D,
    tables: &mut Doubled,
    changes: &Changes,
    ahead: Option<Tables>,
) -> Result<(), StoreError>
    requires within { IsWithin journal.old (D.size disk.old) }
    requires over { IfSome ahead (λ next. next ≡ after_all tables.old changes.now) }
    ensures tables { OnOk result (tables.new ≡ after_all tables.old changes.now) }
    ensures ok { AreFitting tables.old changes.now → TablesStand D.shown D.may_leave journal.old disk.old tables.old
        → OnOk result (TablesStand D.shown D.may_leave journal.new disk.new (after_all tables.old changes.now)) }
    ensures seen { AreFitting tables.old changes.now → TablesStand D.shown D.may_leave journal.old disk.old tables.old
        → Shows (D.shown disk.new) (RepresentsEither tables.old (after_all tables.old changes.now)) }
    ensures any_moment { AreFitting tables.old changes.now → TablesStand D.shown D.may_leave journal.old disk.old tables.old
        → LeavesOnly D.moment D.left_since disk.old disk.new (RepresentsEither tables.old (after_all tables.old changes.now)) }
    ensures answers { CommitAnswers {S = JournalState × D × TablesMeant} (journal.old, disk.old, tables.old) (journal.new, disk.new, tables.new) (placed journal.old tables.old changes.now).end journal.old.limit (D.fault_count disk.old) (D.fault_count disk.new) result }
    ensures steps { CommitSteps (commit_steps journal.old tables.old changes.now) (D.plan disk.old) (D.plan disk.new) (D.state disk.old) (D.state disk.new) (D.lack_count disk.old) (D.lack_count disk.new) result }
    ensures moved { OnOk result (journal.new ≡ after_commit journal.old tables.old changes.now) }
    ensures limit { journal.new.limit ≡ journal.old.limit }
    ensures within { IsWithin journal.new (D.size disk.new) }
{
    let built = build(alloc, journal, tables, changes)?;
    let limit = journal.limit();
    if built.end > limit {
        return Err(StoreError::Full {
            length: built.end,
            limit,
        });
    }
    tables.apply_over(alloc, changes.as_slice(), ahead)?;
    write(journal, disk, &built.area, &built.entry)?;
    Ok(())
}
