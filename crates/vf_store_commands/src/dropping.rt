//! The command `drop`.
ghost use Rattle.std.specs.Prelude.{◌≡◌, ◌≤◌, ℕ, List, [], ◌∷◌, Some, IfErr, IfOk, OnOk, true};
ghost use Rattle.vf_base.specs.Faults.{HasRisen};
ghost use Rattle.vf_disk.specs.Disk.{LeavesOnly};
ghost use Rattle.vf_journal.specs.declared.error.JournalError.TheVariants as errors;
ghost use Rattle.vf_store.specs.Represented.{Represents, RepresentsEither};
ghost use Rattle.vf_store.specs.StoreState.{IsRepresented};
ghost use Rattle.vf_store_commands.specs.Dropping.{Drops, EndsDrop, HasActivity, IsDropError, KeepsWhereFull, PrintsDrop, drop_of, dropped_line, end_of_drop, printed_by_drop, unknown_line, without};
ghost use Rattle.vf_store_commands.specs.Making.{IsAsBefore, disk_in};
ghost use Rattle.vf_cli_printing.specs.Printed.{IsOneOf, Prints};
ghost use Rattle.vf_tables.specs.Fitting.{stands_in};
ghost use Rattle.vf_tables.specs.declared.tables.Tables.{Tables as TablesMeant};

use crate::error_lines::print_error;
use crate::limits::STORE_LIMIT;
use std::alloc::Global;
use vf_base::{Name, NoMemory, Sink};
use vf_cli_printing::print;
use vf_disk::Disk;
use vf_store::{Store, StoreError};
use vf_tables::{Change, Changes, Tables, kept_stay};

/// The status where there is nothing to be dropped.
const REFUSED: u8 = 1;

/// What a store keeps until it is taken up again, or dropped. An activity is 1 to 2,147,483,647.
#[derive(Drop)]
pub enum KeptEntry {
    /// A docket (ISO 8571-3): of a recoverable regime that this identity opened.
    Docket { identity: Name, activity: u32 },
    /// A task of the initiator.
    Task { activity: u32 },
}

/// Drops a docket or a task of the store on a disk, and prints `dropped` (profile). Nothing else of the store changes, and
/// nothing at all where there is no such docket or task, or where the record that drops it would end past the limit of a store.
///
/// The statuses: 0 it is dropped; 1 there is none, which the line `refused 27` tells; 4 the output failed; 5 the disk failed; 8
/// the disk has no store, and 12 the store is full, which lines tell; 9 memory is wanting.
pub fn drop_kept<D: Disk, O: Sink>(alloc: Global, kept: KeptEntry, disk: D, out: &mut O) -> (D, u8)
    ensures prints { (image : List ℕ) → D.shown disk ≡ Some image → PrintsDrop kept image result.1 (O.taken out.old) (O.taken out.new) }
    ensures ends { EndsDrop result.1 }
    ensures drops { (image : List ℕ) (tables : TablesMeant) → D.shown disk ≡ Some image → Represents image tables → HasActivity kept → result.1 ≡ 0
        → Drops D.shown D.may_leave result.0 kept tables }
    ensures keeps { IsOneOf (1 ∷ 8 ∷ 12 ∷ []) result.1 → IsAsBefore D.shown D.may_leave disk result.0 }
    ensures any_moment { (image : List ℕ) (tables : TablesMeant) → D.shown disk ≡ Some image → Represents image tables → ((image : List ℕ) → D.may_leave disk image → Represents image tables)
        → HasActivity kept → LeavesOnly D.moment D.left_since disk result.0 (RepresentsEither tables (without kept tables)) }
    ensures disk_cause { result.1 ≡ 5 → HasRisen (D.fault_count disk) (D.fault_count result.0) }
    ensures output_cause { result.1 ≡ 4 → HasRisen (O.fault_count out.old) (O.fault_count out.new) }
{
    match Store::open(alloc, disk, STORE_LIMIT) {
        Ok(store) => drop_in(alloc, store, kept, out),
        Err((disk, error)) => {
            let status = print_error(alloc, error, out);
            (disk, status)
        }
    }
}

/// The same, in a store that is open.
fn drop_in<D: Disk, O: Sink>(
    alloc: Global,
    store: Store<D>,
    kept: KeptEntry,
    out: &mut O,
) -> (D, u8)
    requires { store.journal.limit ≡ STORE_LIMIT }
    ensures prints { Prints (4 ∷ 5 ∷ 9 ∷ []) (printed_by_drop (stands_in store.tables (drop_of kept)) (end_of_drop kept store.journal store.tables)) result.1 (O.taken out.old) (O.taken out.new) }
    ensures ends { IsOneOf (0 ∷ 1 ∷ 4 ∷ 5 ∷ 9 ∷ 12 ∷ []) result.1 }
    ensures drops { IsRepresented D.shown D.may_leave store → HasActivity kept → result.1 ≡ 0 → Drops D.shown D.may_leave result.0 kept store.tables }
    ensures keeps { IsOneOf (1 ∷ 12 ∷ []) result.1 → result.0 ≡ store.disk }
    ensures any_moment { IsRepresented D.shown D.may_leave store → HasActivity kept → LeavesOnly D.moment D.left_since store.disk result.0 (RepresentsEither store.tables (without kept store.tables)) }
    ensures disk_cause { result.1 ≡ 5 → HasRisen (D.fault_count store.disk) (D.fault_count result.0) }
    ensures output_cause { result.1 ≡ 4 → HasRisen (O.fault_count out.old) (O.fault_count out.new) }
{
    if !is_kept(store.tables(), &kept) {
        let status = print(out, unknown_text(), REFUSED);
        return (store.close(), status);
    }
    match commit_drop(alloc, store, kept) {
        Ok(disk) => {
            let status = print(out, dropped_text(), 0);
            (disk, status)
        }
        Err((disk, error)) => {
            let status = print_error(alloc, error, out);
            (disk, status)
        }
    }
}

/// Whether tables have it.
fn is_kept(tables: &Tables, kept: &KeptEntry) -> bool
    ensures { result ≡ stands_in tables.now (drop_of kept.now) }
{
    match kept {
        KeptEntry::Docket { identity, activity } => tables.docket(identity, *activity).is_some(),
        KeptEntry::Task { activity } => tables.task(*activity).is_some(),
    }
}

/// The change that drops it.
fn changes_for(alloc: Global, kept: KeptEntry) -> Result<Changes, NoMemory>
    ensures { IfOk result (λ changes. changes ≡ drop_of kept ∷ []) }
{
    let change = match kept {
        KeptEntry::Docket { identity, activity } => Change::DropDocket { identity, activity },
        KeptEntry::Task { activity } => Change::DropTask { activity },
    };
    let mut changes = Changes::new(alloc);
    changes.push(change)?;
    Ok(changes)
}

/// Commits the change.
fn commit_drop<D: Disk>(
    alloc: Global,
    store: Store<D>,
    kept: KeptEntry,
) -> Result<D, (D, StoreError)>
    requires limit { store.journal.limit ≡ STORE_LIMIT }
    requires stands { stands_in store.tables (drop_of kept) ≡ true }
    ensures drops { IsRepresented D.shown D.may_leave store → HasActivity kept → IfOk result (λ disk. Drops D.shown D.may_leave disk kept store.tables) }
    ensures any_moment { IsRepresented D.shown D.may_leave store → HasActivity kept
        → LeavesOnly D.moment D.left_since store.disk (disk_in result) (RepresentsEither store.tables (without kept store.tables)) }
    ensures within { OnOk result (end_of_drop kept store.journal store.tables ≤ STORE_LIMIT) }
    ensures errors { IfErr result (λ back. IsDropError (end_of_drop kept store.journal store.tables) back.1) }
    ensures keeps { IfErr result (λ back. KeepsWhereFull back.1 store.disk back.0) }
    ensures cause { IfErr result (λ back. back.1 ≡ errors.DiskFault → HasRisen (D.fault_count store.disk) (D.fault_count back.0)) }
{
    kept_stay();
    let mut store = store;
    let Ok(changes) = changes_for(alloc, kept) else {
        return Err((store.close(), StoreError::NoMemory));
    };
    match store.commit(alloc, changes) {
        Ok(()) => Ok(store.close()),
        Err(error) => Err((store.close(), error)),
    }
}

fn dropped_text() -> &'static [u8]
    ensures { result.now ≡ dropped_line }
{
    b"dropped\n"
}

fn unknown_text() -> &'static [u8]
    ensures { result.now ≡ unknown_line }
{
    b"refused 27\n"
}
