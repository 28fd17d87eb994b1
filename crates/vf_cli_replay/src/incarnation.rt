//! An incarnation of the responder: it is opened over a disk, and things happen on its links until it stops or they are through.
ghost use Rattle.std.specs.Prelude.{◌≡◌, IfOk, List, OnOk, ℕ};
ghost use Rattle.vf_cli_replay.specs.Calls.{form_by};
ghost use Rattle.vf_cli_replay.specs.Disks.{Keeps, may_leave, shown};
ghost use Rattle.vf_cli_replay.specs.Living.{opened};
ghost use Rattle.vf_cli_replay.specs.Standing.{HasLived, IsOpened, LivesOn, Stands, with_stop};
ghost use Rattle.vf_filestore.specs.State.{State};
ghost use Rattle.vf_responder.specs.Represents.{Represents};
ghost use Rattle.vf_responder.specs.Serving.{unheard};
ghost use Rattle.vf_store.specs.StoreState.{IsRepresented};

use crate::halt::{append_halt, halt_of};
use crate::links::Links;
use indexmap::IndexMap;
use std::alloc::Global;
use vf_base::NoMemory;
use vf_cli_script::{Life, Stop};
use vf_disk::{CrashForm, MemoryDisk};
use vf_journal::held_is_read;
use vf_responder::Responder;

/// Lives an incarnation over a disk, and appends the lines of what is heard; gives what its end leaves of the disk.
pub(crate) fn live(
    alloc: Global,
    life: &Life,
    disk: MemoryDisk,
    text: &mut Vec<u8>,
) -> Result<MemoryDisk, NoMemory>
    ensures { (image : List ℕ) (state : State) → Keeps disk image state → IfOk result (λ left. HasLived life.now image state text.old.items left text.new.items) }
{
    let disk = live_on(alloc, life, disk, text)?;
    if disk.lacked() {
        return Err(NoMemory);
    }
    disk.crash(form_of(life.stop))
}

/// What a crash leaves of the disk at the end. Where no call of it was stopped all of it is synced.
fn form_of(stop: Option<Stop>) -> CrashForm
    ensures { result ≡ form_by stop }
{
    match stop {
        Some(stop) => stop.form,
        None => CrashForm::Keep,
    }
}

/// The disk with the stop that is asked for. Calls count from 1.
fn stopping(disk: MemoryDisk, stop: Option<Stop>) -> MemoryDisk
    ensures { result ≡ with_stop stop disk }
{
    let mut disk = disk;
    if let Some(stop) = stop {
        disk.stop(stop.call.max(1));
    }
    disk
}

/// The same as `live`, up to its end; gives the disk as it is then.
fn live_on(
    alloc: Global,
    life: &Life,
    disk: MemoryDisk,
    text: &mut Vec<u8>,
) -> Result<MemoryDisk, NoMemory>
    ensures { (image : List ℕ) (state : State) → Keeps disk image state → IfOk result (λ left. LivesOn life.now image state text.old.items left text.new.items) }
{
    // What the opened store holds is read as its journal.
    held_is_read();
    let disk = stopping(disk, life.stop);
    match Responder::open(alloc, disk, life.limit) {
        Ok(responder) => live_in(alloc, life, responder, text),
        Err((disk, error)) => {
            let halt = halt_of(error)?;
            append_halt(life.stop, halt, text)?;
            Ok(disk)
        }
    }
}

/// The same, once the responder is open.
fn live_in(
    alloc: Global,
    life: &Life,
    responder: Responder<MemoryDisk>,
    text: &mut Vec<u8>,
) -> Result<MemoryDisk, NoMemory>
    ensures { (image : List ℕ) (state : State) → Represents responder (unheard state) → IsRepresented shown may_leave responder.store → IsOpened life.now image responder.store
        → IfOk result (λ left. LivesOn life.now image state text.old.items left text.new.items) }
{
    let callers = IndexMap::new(alloc);
    let mut links = Links { responder, callers };
    let lived = live_through(alloc, life, &mut links, text);
    let disk = links.close();
    lived?;
    Ok(disk)
}

/// What happens on the links, line by line, and the line of an end before the last one.
// The links are lent, since each way out of a function that owns them is checked to drop all of them.
fn live_through(
    alloc: Global,
    life: &Life,
    links: &mut Links,
    text: &mut Vec<u8>,
) -> Result<(), NoMemory>
    ensures { (image : List ℕ) (state : State) → Stands links.old (opened state) → IsOpened life.now image links.old.responder.store
        → OnOk result (LivesOn life.now image state text.old.items links.new.responder.store.disk text.new.items) }
{
    let halted = links.happen_all(alloc, life.lines.as_slice(), text)?;
    let Some(halt) = halted else {
        return Ok(());
    };
    append_halt(life.stop, halt, text)?;
    Ok(())
}
