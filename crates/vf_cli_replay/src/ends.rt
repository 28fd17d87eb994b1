//! The disk of a script before its first incarnation, and the files after its last.
ghost use Rattle.std.specs.Prelude.{◌≡◌, ◌++◌, ◌∷◌, [], List, ℕ, Some, IfOk, OnOk, codes, decimal};
ghost use Rattle.std.specs.String.{string_bytes};
ghost use Rattle.vf_attr.specs.declared.file.File.{File as FileMeant};
ghost use Rattle.vf_cli_replay.specs.Replayed.{files_lines};
ghost use Rattle.vf_cli_printing.specs.Printed.{line_feed};
ghost use Rattle.vf_cli_replay.specs.Calls.{first_image};
ghost use Rattle.vf_cli_replay.specs.Disks.{Keeps, may_leave, shown};
ghost use Rattle.vf_cli_replay.specs.Standing.{IsFirst, IsNew, Opens};
ghost use Rattle.vf_cli_replay.specs.Users.{AreGood};
ghost use Rattle.vf_filestore.specs.Runs.{beginning};
ghost use Rattle.vf_filestore.specs.State.{State};
ghost use Rattle.vf_store.specs.Represented.{Represents};
ghost use Rattle.vf_store.specs.StoreState.{IsRepresented};
ghost use Rattle.vf_store_commands.specs.Listing.{IsInOrder};
ghost use Rattle.vf_store_commands.specs.Making.{users_alone};
ghost use Rattle.vf_tables.specs.Entries.{no_tables};
ghost use Rattle.vf_tables.specs.Snapshot.{snapshot};
ghost use Rattle.vf_tables.specs.declared.tables.Tables.{Tables as TablesMeant};

use std::alloc::Global;
use vf_attr::File;
use vf_base::NoMemory;
use vf_disk::{CrashForm, MemoryDisk};
use vf_store::Store;
use vf_store_commands::text_of_files;
use vf_tables::{Changes, Dockets, Files, Tables, Tasks, Users, snapshot_makes};

/// A store for which no record is too long.
const NO_LIMIT: u64 = 18_446_744_073_709_551_615;

/// A new store, with these users.
pub(crate) fn first_disk(alloc: Global, users: Users) -> Result<MemoryDisk, NoMemory>
    ensures { AreGood users → IfOk result (λ disk. Keeps disk (first_image users) (beginning users [])) }
{
    let mut store = new_store(alloc)?;
    put_users(alloc, &mut store, users)?;
    store.close().crash(CrashForm::Keep)
}

/// A new store, without users.
fn new_store(alloc: Global) -> Result<Store<MemoryDisk>, NoMemory>
    ensures { IfOk result (λ store. (store.tables ≡ no_tables) × IsRepresented shown may_leave store × IsNew store) }
{
    let mut disk = MemoryDisk::of(alloc, &[], Vec::new(alloc))?;
    match Store::create(&mut disk) {
        Ok(()) => opened(alloc, disk),
        Err(_) => Err(NoMemory),
    }
}

/// The store on a disk.
fn opened(alloc: Global, disk: MemoryDisk) -> Result<Store<MemoryDisk>, NoMemory>
    ensures { (image : List ℕ) (tables : TablesMeant) → shown disk ≡ Some image → Represents image tables
        → IfOk result (λ store. (store.tables ≡ tables) × IsRepresented shown may_leave store × Opens image disk store) }
{
    match Store::open(alloc, disk, NO_LIMIT) {
        Ok(store) => Ok(store),
        Err(_) => Err(NoMemory),
    }
}

/// The changes that make these users of the tables without entries.
fn changes_for(alloc: Global, users: Users) -> Result<Changes, NoMemory>
    ensures { IfOk result (λ changes. changes ≡ snapshot (users_alone users)) }
{
    let tables = Tables {
        users,
        files: Files::new(alloc),
        dockets: Dockets::new(alloc),
        tasks: Tasks::new(alloc),
    };
    let changes = tables.snapshot(alloc)?;
    Ok(changes)
}

/// Puts these users into a store without entries, in one record.
fn put_users(alloc: Global, store: &mut Store<MemoryDisk>, users: Users) -> Result<(), NoMemory>
    ensures { AreGood users → store.old.tables ≡ no_tables → IsRepresented shown may_leave store.old → IsNew store.old
        → OnOk result ((store.new.tables ≡ users_alone users) × IsRepresented shown may_leave store.new × IsFirst users store.new) }
{
    snapshot_makes();
    if users.len() == 0 {
        return Ok(());
    }
    let changes = changes_for(alloc, users)?;
    match store.commit(alloc, changes) {
        Ok(()) => Ok(()),
        Err(_) => Err(NoMemory),
    }
}

/// Appends how many files there are, and the line of each.
pub(crate) fn append_files(
    alloc: Global,
    disk: MemoryDisk,
    text: &mut Vec<u8>,
) -> Result<(), NoMemory>
    ensures { (image : List ℕ) (state : State) → Keeps disk image state → OnOk result ((sorted : List FileMeant) × (IsInOrder state.files sorted × (text.new.items ≡ text.old.items ++ files_lines state.files sorted))) }
{
    let store = opened(alloc, disk)?;
    append_files_of(alloc, store.tables().files.as_slice(), text)
}

fn append_files_of(alloc: Global, files: &[File], text: &mut Vec<u8>) -> Result<(), NoMemory>
    ensures { OnOk result ((sorted : List FileMeant) × (IsInOrder files.now sorted × (text.new.items ≡ text.old.items ++ files_lines files.now sorted))) }
{
    let head = files_head(alloc, files.len())?;
    let lines = text_of_files(alloc, files)?;
    text.extend_from_slice(head.as_bytes())?;
    text.extend_from_slice(lines.as_slice())?;
    Ok(())
}

fn files_head(alloc: Global, count: usize) -> Result<String, NoMemory>
    ensures { IfOk result (λ text. string_bytes text ≡ codes "files " ++ (decimal count ++ line_feed ∷ [])) }
{
    let text = format!(in alloc; "files {count}\n")?;
    Ok(text)
}
