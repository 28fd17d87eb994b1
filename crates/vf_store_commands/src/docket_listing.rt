//! The command `dockets`.
ghost use Rattle.std.specs.Prelude.{◌≡◌, ℕ, List, [], ◌∷◌, Some, nat_eq};
ghost use Rattle.vf_base.specs.Faults.{HasRisen};
ghost use Rattle.vf_disk.specs.Disk.{LeavesOnly};
ghost use Rattle.vf_journal.specs.Looking.{IsSyncedAndLookedAt};
ghost use Rattle.vf_store.specs.Represented.{Represents};
ghost use Rattle.vf_store_commands.specs.Dockets.{PrintsDockets, docket_lines};
ghost use Rattle.vf_store_commands.specs.Listing.{EndsList};
ghost use Rattle.vf_cli_printing.specs.Printed.{IsOneOf, Prints};
ghost use Rattle.vf_tables.specs.declared.tables.Tables.{Tables as TablesMeant};

use crate::docket_lines::text_of_dockets;
use crate::error_lines::print_error;
use crate::limits::STORE_LIMIT;
use std::alloc::Global;
use vf_base::Sink;
use vf_cli_printing::{NO_MEMORY, print};
use vf_disk::Disk;
use vf_store::Store;
use vf_tables::Tables;

/// Lists the dockets of the store on a disk, a line each, in the order of their opens, and after them its tasks (profile).
/// The disk is synced, and otherwise only looked at.
///
/// The statuses: 0 all was written; 4 the output failed; 5 the disk failed; 8 the disk has no store, which a line tells; 9
/// memory is wanting.
pub fn dockets<D: Disk, O: Sink>(alloc: Global, disk: D, out: &mut O) -> (D, u8)
    ensures prints { (image : List ℕ) → D.shown disk ≡ Some image → PrintsDockets image result.1 (O.taken out.old) (O.taken out.new) }
    ensures ends { EndsList result.1 }
    ensures any_moment { (tables : TablesMeant) → ((image : List ℕ) → D.may_leave disk image → Represents image tables)
        → LeavesOnly D.moment D.left_since disk result.0 (λ image. Represents image tables) }
    ensures looks { IsSyncedAndLookedAt D.shown D.size D.may_leave D.moment D.left_since D.plan D.state D.lack_count (nat_eq result.1 5) disk result.0 }
    ensures disk_cause { result.1 ≡ 5 → HasRisen (D.fault_count disk) (D.fault_count result.0) }
    ensures output_cause { result.1 ≡ 4 → HasRisen (O.fault_count out.old) (O.fault_count out.new) }
{
    match Store::open(alloc, disk, STORE_LIMIT) {
        Ok(store) => {
            let status = print_dockets(alloc, store.tables(), out);
            (store.close(), status)
        }
        Err((disk, error)) => {
            let status = print_error(alloc, error, out);
            (disk, status)
        }
    }
}

/// Writes the lines of dockets and tasks.
fn print_dockets<O: Sink>(alloc: Global, tables: &Tables, out: &mut O) -> u8
    ensures prints { Prints (4 ∷ 9 ∷ []) (record { octets = docket_lines tables.now; status = 0 }) result (O.taken out.old) (O.taken out.new) }
    ensures ends { IsOneOf (0 ∷ 4 ∷ 9 ∷ []) result }
    ensures cause { result ≡ 4 → HasRisen (O.fault_count out.old) (O.fault_count out.new) }
{
    let Ok(text) = text_of_dockets(alloc, tables) else {
        return NO_MEMORY;
    };
    print(out, text.as_slice(), 0)
}
