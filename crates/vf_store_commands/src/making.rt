//! A store of users on an empty disk.
ghost use Rattle.std.specs.Prelude.{◌≡◌, List, [], Some, IfErr, IfOk};
ghost use Rattle.vf_base.specs.Faults.{HasRisen};
ghost use Rattle.vf_disk.specs.Disk.{LeavesOnly, LeavesShown};
ghost use Rattle.vf_journal.specs.declared.error.JournalError.TheVariants as errors;
ghost use Rattle.vf_store.specs.Represented.{IsNoneOrNew};
ghost use Rattle.vf_store.specs.StoreState.{disk_of};
ghost use Rattle.vf_store_commands.specs.Making.{AreUsers, IsMaking, IsNew, IsOutside, IsStoreOf, disk_in, users_alone};
ghost use Rattle.vf_tables.specs.Snapshot.{snapshot};
ghost use Rattle.vf_tables.specs.declared.user.User.{User as UserMeant};

use crate::limits::STORE_LIMIT;
use std::alloc::Global;
use vf_base::NoMemory;
use vf_disk::Disk;
use vf_journal::{held_is_read, new_holds_none};
use vf_store::{Store, StoreError};
use vf_tables::{Changes, Dockets, Files, Tables, Tasks, Users, snapshot_makes};

/// The changes that make these users of the tables without entries.
pub(crate) fn changes_for(alloc: Global, users: Users) -> Result<Changes, NoMemory>
    ensures { IfOk result (λ changes. changes ≡ snapshot (users_alone users)) }
{
    let tables = Tables {
        users,
        files: Files::new(alloc),
        dockets: Dockets::new(alloc),
        tasks: Tasks::new(alloc),
    };
    let changes = tables.snapshot(alloc)?;
    Ok(changes)
}

/// Makes a store on an empty disk, and opens it.
fn new_store<D: Disk>(alloc: Global, disk: D) -> Result<Store<D>, (D, StoreError)>
    requires { D.size disk ≡ 0 }
    ensures new { D.shown disk ≡ Some [] → IfOk result (IsNew D.shown D.may_leave) }
    ensures errors { D.shown disk ≡ Some [] → IfErr result (λ back. IsOutside back.1) }
    ensures any_moment { D.shown disk ≡ Some [] → LeavesShown (D.shown disk) (D.may_leave disk) → LeavesOnly D.moment D.left_since disk (disk_of result) IsNoneOrNew }
    ensures count { IfOk result (λ store. D.fault_count store.disk ≡ D.fault_count disk) }
    ensures cause { IfErr result (λ back. back.1 ≡ errors.DiskFault → HasRisen (D.fault_count disk) (D.fault_count back.0)) }
{
    held_is_read();
    new_holds_none();
    let mut disk = disk;
    match Store::create(&mut disk) {
        Ok(()) => Store::open(alloc, disk, STORE_LIMIT),
        Err(error) => Err((disk, error)),
    }
}

/// Commits the changes that make users to a store without any; where there are none, it stays as it is.
fn commit_users<D: Disk>(
    alloc: Global,
    store: Store<D>,
    changes: Changes,
) -> Result<D, (D, StoreError)>
    ensures made { (users : List UserMeant) → AreUsers users → changes ≡ snapshot (users_alone users) → IsNew D.shown D.may_leave store
        → IfOk result (λ disk. IsStoreOf D.shown D.may_leave disk users) }
    ensures errors { (users : List UserMeant) → AreUsers users → changes ≡ snapshot (users_alone users) → IsNew D.shown D.may_leave store
        → IfErr result (λ back. IsOutside back.1) }
    ensures any_moment { (users : List UserMeant) → AreUsers users → changes ≡ snapshot (users_alone users) → IsNew D.shown D.may_leave store
        → LeavesOnly D.moment D.left_since store.disk (disk_in result) (IsMaking users) }
    ensures cause { IfErr result (λ back. back.1 ≡ errors.DiskFault → HasRisen (D.fault_count store.disk) (D.fault_count back.0)) }
{
    snapshot_makes();
    let mut store = store;
    if changes.len() == 0 {
        return Ok(store.close());
    }
    match store.commit(alloc, changes) {
        Ok(()) => Ok(store.close()),
        Err(error) => Err((store.close(), error)),
    }
}

/// Makes a store with the users that the changes make, on an empty disk.
pub(crate) fn store_with<D: Disk>(
    alloc: Global,
    disk: D,
    changes: Changes,
) -> Result<D, (D, StoreError)>
    requires { D.size disk ≡ 0 }
    ensures made { (users : List UserMeant) → AreUsers users → changes ≡ snapshot (users_alone users) → D.shown disk ≡ Some []
        → IfOk result (λ disk. IsStoreOf D.shown D.may_leave disk users) }
    ensures errors { (users : List UserMeant) → AreUsers users → changes ≡ snapshot (users_alone users) → D.shown disk ≡ Some []
        → IfErr result (λ back. IsOutside back.1) }
    ensures any_moment { (users : List UserMeant) → AreUsers users → changes ≡ snapshot (users_alone users) → D.shown disk ≡ Some []
        → LeavesShown (D.shown disk) (D.may_leave disk) → LeavesOnly D.moment D.left_since disk (disk_in result) (IsMaking users) }
    ensures cause { IfErr result (λ back. back.1 ≡ errors.DiskFault → HasRisen (D.fault_count disk) (D.fault_count back.0)) }
{
    let store = new_store(alloc, disk)?;
    commit_users(alloc, store, changes)
}
