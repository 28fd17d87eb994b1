//! The changes by which the store keeps a task.
ghost use Rattle.std.specs.Prelude.{◌≡◌, [], ◌∷◌, is_ok, if◌then◌else◌};
ghost use Rattle.vf_initiator.specs.Keepable.{LeadTo};
ghost use Rattle.vf_store.specs.StoreState.{IsRepresented};
ghost use Rattle.vf_tables.specs.declared.tables.Tables.{Tables as TablesMeant};
ghost use Rattle.vf_transact.specs.Transaction.{CommitByCause, FullAt, KeepsStore, has_disk_fault};

use crate::TransactError;
use std::alloc::Global;
use vf_disk::Disk;
use vf_store::Store;
use vf_tables::Changes;

/// Makes changes, where there are any: all of them or none.
pub(crate) fn commit<D: Disk>(
    alloc: Global,
    changes: Changes,
    store: &mut Store<D>,
) -> Result<(), TransactError>
    // Of any tables to which the changes lead.
    ensures kept { (tables : TablesMeant) → LeadTo store.old.tables changes tables → IsRepresented D.shown D.may_leave store.old
        → KeepsStore D.shown D.may_leave D.moment D.left_since store.old store.new (tables ∷ []) (if is_ok result then tables else store.old.tables) (has_disk_fault result) }
    ensures full { FullAt changes store.old store.new result }
    ensures cause { CommitByCause store.old.journal.limit (D.fault_count store.old.disk) (D.fault_count store.new.disk) result }
    ensures limit { store.new.journal.limit ≡ store.old.journal.limit }
{
    if changes.len() == 0 {
        return Ok(());
    }
    match store.commit(alloc, changes) {
        Ok(()) => Ok(()),
        Err(error) => Err(TransactError::Store(error)),
    }
}
