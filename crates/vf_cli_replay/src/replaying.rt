//! The command `replay`.
ghost use Rattle.std.specs.Prelude.{◌≡◌, ◌++◌, ◌∷◌, [], List, ℕ, Some, IfOk};
ghost use Rattle.vf_cli_printing.specs.Printed.{HasCauses, IsOneOf, Prints, bad_line};
ghost use Rattle.vf_cli_replay.specs.Replayed.{EndsReplay, IsReplayed, OrNothing, PrintsReplay, PrintsScript};
ghost use Rattle.vf_cli_replay.specs.Disks.{Keeps};
ghost use Rattle.vf_cli_replay.specs.Standing.{HaveLived};
ghost use Rattle.vf_cli_replay.specs.Users.{AreGood};
ghost use Rattle.vf_base.specs.Faults.{HasRisen};
ghost use Rattle.vf_filestore.specs.State.{State};

use crate::ends::{append_files, first_disk};
use crate::incarnation::live;
use std::alloc::Global;
use vf_base::{NoMemory, Sink, Source};
use vf_cli_printing::{BAD_LINE, INPUT_FAULT, NO_MEMORY, append_bad_line, print};
use vf_cli_script::{Life, ReadError, Script, Told, read_script};
use vf_disk::MemoryDisk;

/// Runs the script that is the input (profile): incarnations of the responder, each over the disk that the one before it left,
/// on a disk in memory. Tells what is heard on the links, where an incarnation ends before its last line, and at the end the
/// files.
///
/// The statuses: 0 all was written; 3 the input failed; 4 the output failed; 9 memory is wanting; 11 a line is bad, of which the
/// first is told by its number.
pub fn replay<I: Source, O: Sink>(alloc: Global, input: &mut I, out: &mut O) -> u8
    ensures prints { (octets : List ℕ) → I.left input.old ≡ Some octets → PrintsReplay octets result (O.taken out.old) (O.taken out.new) }
    ensures causes { HasCauses result (I.fault_count input.old) (I.fault_count input.new) (O.fault_count out.old) (O.fault_count out.new) }
    ensures ends { EndsReplay result }
{
    match read_script(alloc, input) {
        Ok(Told::Script(script)) => print_replayed(alloc, script, out),
        Ok(Told::Bad(number)) => print_bad_line(alloc, number, out),
        Err(ReadError::Failed) => INPUT_FAULT,
        Err(ReadError::NoMemory) => NO_MEMORY,
    }
}

/// Tells that a line is bad, by its number.
fn print_bad_line<O: Sink>(alloc: Global, number: usize, out: &mut O) -> u8
    ensures prints { OrNothing result (O.taken out.old) (O.taken out.new) (Prints (4 ∷ []) (record { octets = bad_line number; status = 11 }) result (O.taken out.old) (O.taken out.new)) }
    ensures ends { IsOneOf (4 ∷ 9 ∷ 11 ∷ []) result }
    ensures cause { result ≡ 4 → HasRisen (O.fault_count out.old) (O.fault_count out.new) }
{
    let mut text = Vec::new(alloc);
    if append_bad_line(alloc, number, &mut text).is_err() {
        return NO_MEMORY;
    }
    print(out, text.as_slice(), BAD_LINE)
}

/// Runs a script, and tells its lines.
fn print_replayed<O: Sink>(alloc: Global, script: Script, out: &mut O) -> u8
    ensures prints { AreGood script.users → OrNothing result (O.taken out.old) (O.taken out.new) (PrintsScript script result (O.taken out.old) (O.taken out.new)) }
    ensures ends { IsOneOf (0 ∷ 4 ∷ 9 ∷ []) result }
    ensures cause { result ≡ 4 → HasRisen (O.fault_count out.old) (O.fault_count out.new) }
{
    let Ok(text) = replayed(alloc, script) else {
        return NO_MEMORY;
    };
    print(out, text.as_slice(), 0)
}

/// The lines of a script.
fn replayed(alloc: Global, script: Script) -> Result<Vec<u8>, NoMemory>
    ensures { AreGood script.users → IfOk result (λ text. IsReplayed script text.items) }
{
    let Script { users, lives } = script;
    let first = first_disk(alloc, users)?;
    let mut text = Vec::new(alloc);
    let last = live_all(alloc, lives.as_slice(), first, &mut text)?;
    append_files(alloc, last, &mut text)?;
    Ok(text)
}

/// Lives incarnations, one after another, each over the disk that the one before it left.
fn live_all(
    alloc: Global,
    lives: &[Life],
    disk: MemoryDisk,
    text: &mut Vec<u8>,
) -> Result<MemoryDisk, NoMemory>
    ensures { (image : List ℕ) (state : State) → Keeps disk image state → IfOk result (λ left. HaveLived image state lives.now text.old.items left text.new.items) }
{
    let mut disk = disk;
    for life in lives {
        let left = live(alloc, life, disk, text)?;
        disk = left;
    }
    Ok(disk)
}
