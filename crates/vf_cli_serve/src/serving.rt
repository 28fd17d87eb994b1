//! Serving links, and the line that tells how much was served.
ghost use Rattle.std.specs.Prelude.{◌≡◌, ℕ, Err, IfOk, List, Some, [], ◌∷◌};
ghost use Rattle.std.specs.String.{string_bytes};
ghost use Rattle.vf_base.specs.Faults.{HasRisen};
ghost use Rattle.vf_base.specs.declared.events.ScriptEvent.{ScriptEvent};
ghost use Rattle.vf_cli_printing.specs.Printed.{IsOneOf, Prints};
ghost use Rattle.vf_cli_serve.specs.Served.{EndsServe, PrintsServed, ServesLinks, served_line};
ghost use Rattle.vf_disk.specs.Disk.{LeavesOnly};
ghost use Rattle.vf_responder.specs.Served.{RepresentsServed, untold};
ghost use Rattle.vf_responder.specs.Serving.{IsBegun, Serving};
ghost use Rattle.vf_responder.specs.declared.error.ServeError.TheVariants as errors;
ghost use Rattle.vf_journal.specs.declared.error.JournalError.TheVariants as store_errors;
ghost use Rattle.vf_store.specs.Represented.{Represents};
ghost use Rattle.vf_tables.specs.declared.tables.Tables.{Tables as TablesMeant};

use std::alloc::Global;
use vf_base::{Links, NoMemory, Sink};
use vf_cli_printing::{LINKS_FAULT, NO_MEMORY, print};
use vf_disk::Disk;
use vf_responder::{ServeError, Served};
use vf_store_commands::{STORE_LIMIT, print_error};

/// Serves links from the store on a disk until they are through; prints how many links arrived, and how many events there were.
/// Nothing is printed before.
///
/// The statuses: 0 the links were through; 4 the output failed; 5 the disk failed; 8 the disk has no store, which a line tells; 9
/// memory is wanting; 10 the links failed; 12 the store is full, which a line tells.
pub fn serve<L: Links, D: Disk, O: Sink>(
    alloc: Global,
    links: &mut L,
    disk: D,
    out: &mut O,
) -> (D, u8)
    ensures serves { ServesLinks D.shown D.size D.may_leave disk result.0 (D.fault_count disk) (D.fault_count result.0) (L.told links.old) (L.told links.new) (L.fault_count links.old) (L.fault_count links.new)
        (L.turns links.new) (L.through links.new) result.1 (O.taken out.old) (O.taken out.new) }
    ensures any_moment { (left : List ScriptEvent) (image : List ℕ) (tables : TablesMeant) (serving : Serving) → L.told links.old ≡ Some (untold left) → D.shown disk ≡ Some image
        → Represents image tables → ((image : List ℕ) → D.may_leave disk image → Represents image tables) → IsBegun tables serving
        → LeavesOnly D.moment D.left_since disk result.0 (RepresentsServed serving (L.told links.new)) }
    ensures ends { EndsServe result.1 }
    ensures output_cause { result.1 ≡ 4 → HasRisen (O.fault_count out.old) (O.fault_count out.new) }
    ensures disk_cause { result.1 ≡ 5 → HasRisen (D.fault_count disk) (D.fault_count result.0) }
    ensures links_cause { result.1 ≡ 10 → HasRisen (L.fault_count links.old) (L.fault_count links.new) }
{
    let (disk, served) = vf_responder::serve(alloc, links, disk, STORE_LIMIT);
    let status = print_served(alloc, served, out);
    (disk, status)
}

/// Tells how serving ended; answers the status.
fn print_served<O: Sink>(alloc: Global, served: Result<Served, ServeError>, out: &mut O) -> u8
    ensures prints { PrintsServed served result (O.taken out.old) (O.taken out.new) }
    ensures ends { EndsServe result }
    ensures disk_fault { result ≡ 5 → served ≡ Err (errors.Respond store_errors.DiskFault) }
    ensures links_fault { result ≡ 10 → served ≡ Err errors.LinksFault }
    ensures cause { result ≡ 4 → HasRisen (O.fault_count out.old) (O.fault_count out.new) }
{
    match served {
        Ok(served) => print_counts(alloc, served, out),
        Err(ServeError::Respond(error)) => print_error(alloc, error, out),
        Err(ServeError::LinksFault) => LINKS_FAULT,
        Err(ServeError::NoMemory) => NO_MEMORY,
    }
}

/// Tells how much was served; answers the status.
fn print_counts<O: Sink>(alloc: Global, served: Served, out: &mut O) -> u8
    ensures prints { Prints (4 ∷ 9 ∷ []) (record { octets = served_line served.links served.events; status = 0 }) result (O.taken out.old) (O.taken out.new) }
    ensures ends { IsOneOf (0 ∷ 4 ∷ 9 ∷ []) result }
    ensures cause { result ≡ 4 → HasRisen (O.fault_count out.old) (O.fault_count out.new) }
{
    let Ok(text) = served_text(alloc, served) else {
        return NO_MEMORY;
    };
    print(out, text.as_bytes(), 0)
}

fn served_text(alloc: Global, served: Served) -> Result<String, NoMemory>
    ensures { IfOk result (λ text. string_bytes text ≡ served_line served.links served.events) }
{
    let Served { links, events } = served;
    let text = format!(in alloc; "served {links} {events}\n")?;
    Ok(text)
}
