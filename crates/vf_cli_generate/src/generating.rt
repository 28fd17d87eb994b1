//! Files of drawn contents.
ghost use Rattle.std.specs.Prelude.{◌≡◌, ◌∷◌, [], ℕ, Err, IfOk};
ghost use Rattle.std.specs.String.{string_bytes};
ghost use Rattle.vf_base.specs.Faults.{HasRisen};
ghost use Rattle.vf_cli_generate.specs.Drawing.{contents_after, name_of as name_meant};
ghost use Rattle.vf_cli_generate.specs.Generating.{DoesGenerate, EndsGenerate, FrontOfFile, FrontOfFiles, Goes, MakesFile, MakesFiles, PrintsMade, counts_lines, counts_printed};
ghost use Rattle.vf_cli_generate.specs.Requests.{requests_for as requests_meant};
ghost use Rattle.vf_cli_printing.specs.Printed.{IsOneOf, Prints};
ghost use Rattle.vf_journal.specs.declared.error.JournalError.TheVariants as errors;
ghost use Rattle.vf_responder.specs.Represents.{AnswerCauses, Represents};
ghost use Rattle.vf_responder.specs.Serving.{Serving};
ghost use Rattle.vf_store.specs.StoreState.{IsRepresented};

use crate::contents::drawn;
use crate::numbers::Numbers;
use crate::peer::Peer;
use std::alloc::Global;
use vf_base::{NoMemory, Sink};
use vf_cli_printing::{NO_MEMORY, print};
use vf_disk::Disk;
use vf_responder::{RespondError, Responder};
use vf_stack::Request;
use vf_store_commands::{STORE_LIMIT, print_error};
use vf_tables::Tables;

/// Makes a file, by a link of its own.
fn make_file<D: Disk>(
    alloc: Global,
    link: u32,
    requests: &[Request],
    responder: &mut Responder<D>,
) -> Result<(), RespondError>
    ensures makes { (number : ℕ) (serving : Serving) → requests.now ≡ requests_meant (name_meant link) (contents_after number) → Represents responder.old serving
        → IsRepresented D.shown D.may_leave responder.old.store
        → Goes D.shown D.may_leave D.moment D.left_since (MakesFile number link serving) (FrontOfFile number link serving) serving responder.old responder.new result }
    ensures causes { AnswerCauses responder.old.store.journal.limit (D.fault_count responder.old.store.disk) (D.fault_count responder.new.store.disk) result }
    ensures limit { responder.new.store.journal.limit ≡ responder.old.store.journal.limit }
{
    match Peer::arrive(alloc, link, responder) {
        Ok(peer) => {
            let mut peer = peer;
            peer.say_all(alloc, requests, responder)
        }
        Err(error) => Err(error),
    }
}

/// Makes so many files, one after another, each by a link of its own.
fn make_files<D: Disk>(
    alloc: Global,
    number: u32,
    count: u32,
    responder: &mut Responder<D>,
) -> Result<(), RespondError>
    ensures makes { (serving : Serving) → Represents responder.old serving → IsRepresented D.shown D.may_leave responder.old.store
        → Goes D.shown D.may_leave D.moment D.left_since (MakesFiles number count serving) (FrontOfFiles number count serving) serving responder.old responder.new result }
    ensures causes { AnswerCauses responder.old.store.journal.limit (D.fault_count responder.old.store.disk) (D.fault_count responder.new.store.disk) result }
    ensures limit { responder.new.store.journal.limit ≡ responder.old.store.journal.limit }
{
    let mut numbers = Numbers::after(number);
    for made in 0..count {
        let link = made + 1;
        let Ok(requests) = drawn(alloc, link, &mut numbers) else {
            return Err(RespondError::NoMemory);
        };
        match make_file(alloc, link, requests.as_slice(), responder) {
            Ok(()) => {}
            Err(error) => return Err(error),
        }
    }
    Ok(())
}

/// How many files the tables have, and how many octets.
fn counts_text(alloc: Global, tables: &Tables) -> Result<String, NoMemory>
    ensures { IfOk result (λ text. string_bytes text ≡ counts_lines tables.now) }
{
    let files = tables.files.len();
    let octets = tables.files.octets();
    let text = format!(in alloc; "files {files}\noctets {octets}\n")?;
    Ok(text)
}

fn print_counts<O: Sink>(alloc: Global, tables: &Tables, out: &mut O) -> u8
    ensures prints { Prints (4 ∷ 9 ∷ []) (counts_printed tables.now) result (O.taken out.old) (O.taken out.new) }
    ensures ends { IsOneOf (0 ∷ 4 ∷ 9 ∷ []) result }
    ensures cause { result ≡ 4 → HasRisen (O.fault_count out.old) (O.fault_count out.new) }
{
    let Ok(text) = counts_text(alloc, tables) else {
        return NO_MEMORY;
    };
    print(out, text.as_bytes(), 0)
}

/// Tells what the tables have then, or why the files couldn't be made; answers the status.
fn print_made<O: Sink>(
    alloc: Global,
    answer: Result<(), RespondError>,
    tables: &Tables,
    out: &mut O,
) -> u8
    ensures prints { PrintsMade tables.now answer result (O.taken out.old) (O.taken out.new) }
    ensures ends { EndsGenerate result }
    ensures fault { result ≡ 5 → answer ≡ Err errors.DiskFault }
    ensures cause { result ≡ 4 → HasRisen (O.fault_count out.old) (O.fault_count out.new) }
{
    match answer {
        Ok(()) => print_counts(alloc, tables, out),
        Err(error) => print_error(alloc, error, out),
    }
}

/// Makes files of drawn contents on the store of a disk, from 1 to 1,000 of them; prints how many files it has then, and how many
/// octets. Each file is made by an association of its own, message by message.
///
/// The statuses: 0 they are made; 4 the output failed; 5 the disk failed; 8 the disk has no store, which a line tells; 9 memory is
/// wanting; 12 the store is full, which a line tells.
pub fn generate<D: Disk, O: Sink>(
    alloc: Global,
    number: u32,
    count: u32,
    disk: D,
    out: &mut O,
) -> (D, u8)
    ensures does { DoesGenerate D.shown D.size D.may_leave D.moment D.left_since number count disk result.0 (D.fault_count disk) (D.fault_count result.0) result.1 (O.taken out.old) (O.taken out.new) }
    ensures ends { EndsGenerate result.1 }
    ensures output_cause { result.1 ≡ 4 → HasRisen (O.fault_count out.old) (O.fault_count out.new) }
    ensures disk_cause { result.1 ≡ 5 → HasRisen (D.fault_count disk) (D.fault_count result.0) }
{
    match Responder::open(alloc, disk, STORE_LIMIT) {
        Ok(responder) => {
            let mut responder = responder;
            let answer = make_files(alloc, number, count, &mut responder);
            responder.lies_within();
            let status = print_made(alloc, answer, responder.tables(), out);
            (responder.close(), status)
        }
        Err((disk, error)) => {
            let status = print_error(alloc, error, out);
            (disk, status)
        }
    }
}
