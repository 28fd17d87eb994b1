//! A run: lives of one store, which begins new.
//!
//! The first life begins with its way, `deliver` or `serve`. Each later one begins with what the crash leaves of the disk
//! after the one before, `keep`, `lose` or `fill`, goes by `deliver`, and first tells the tables of the store as it is opened.
//! A life through `deliver` that has events ends with `=` and the tables, where the responder goes on to its end.
use crate::fault::Fault;
use crate::responder::deliver::{deliver_all, put_error};
use crate::responder::life::{Life, Plan, broken_after, listed, octets_in_all, users_in};
use crate::responder::served::{links_of, put_served};
use crate::responder::tables::put_tables;
use crate::text::Text;
use std::alloc::Global;
use vf_base::ScriptLinks;
use vf_disk::{CrashForm, Disk, GREATEST_LENGTH, MemoryDisk};
use vf_responder::{Responder, serve};
use vf_store::Store;
use vf_tables::Changes;

/// What is another way in a run than its line says.
#[derive(Clone, Copy)]
pub enum Change<'a> {
    Nothing,
    /// A call of this kind fails in the first life.
    Fails(&'a str, u64),
    /// The first life is broken after so many octets.
    Breaks(usize),
}

/// The same disk, on whose store these changes are made.
fn with_changes<D: Disk + Drop>(alloc: Global, disk: D, changes: Changes) -> Result<D, Fault> {
    let mut store = match Store::open(alloc, disk, GREATEST_LENGTH) {
        Ok(store) => store,
        Err(_) => return Err(Fault::NoMemory),
    };
    match store.commit(alloc, changes) {
        Ok(()) => Ok(store.close()),
        Err(_) => Err(Fault::NoMemory),
    }
}

/// The disk of a store that is just made.
fn created(alloc: Global) -> Result<MemoryDisk, Fault> {
    let mut disk = MemoryDisk::of(alloc, &[], Vec::new(alloc))?;
    match Store::create(&mut disk) {
        Ok(()) => Ok(disk),
        Err(_) => Err(Fault::NoMemory),
    }
}

/// The octets of a new store with the users of these words.
fn store_with(alloc: Global, words: &str) -> Result<Vec<u8>, Fault> {
    let users = users_in(alloc, words)?;
    let disk = created(alloc)?;
    if users.len() == 0 {
        return Ok(Vec::from_slice(alloc, disk.octets())?);
    }
    let disk = with_changes(alloc, disk, users)?;
    Ok(Vec::from_slice(alloc, disk.octets())?)
}

/// A disk of these octets, of which calls fail by a plan.
fn planned(alloc: Global, octets: &[u8], plan: Plan) -> Result<MemoryDisk, Fault> {
    let failing = listed(alloc, plan.disk)?;
    let mut disk = MemoryDisk::of(alloc, octets, failing)?;
    if plan.stop > 0 {
        disk.stop(plan.stop);
    }
    Ok(disk)
}

/// The octets that a crash leaves of a disk.
fn left_of(alloc: Global, disk: MemoryDisk, form: CrashForm) -> Result<Vec<u8>, Fault> {
    let left = disk.crash(form)?;
    Ok(Vec::from_slice(alloc, left.octets())?)
}

fn form_of(word: &str) -> Result<CrashForm, Fault> {
    match word {
        "keep" => Ok(CrashForm::Keep),
        "lose" => Ok(CrashForm::Lose),
        "fill" => Ok(CrashForm::Fill(0x5A)),
        _ => Err(Fault::Line),
    }
}

/// The events of a life come to a responder, whose tables are told first where the life is later than another, and last where
/// it goes on to its end.
fn play<D: Disk>(
    alloc: Global,
    responder: &mut Responder<D>,
    life: &Life,
    later: bool,
    seed: u64,
    out: &mut Text,
) {
    if later {
        put_tables(alloc, responder.tables(), out);
    }
    if life.events.is_empty() {
        return;
    }
    if deliver_all(alloc, responder, life.events.as_slice(), seed, out) {
        out.put("= ");
        put_tables(alloc, responder.tables(), out);
    }
}

/// A life through the responder, which gives the disk back.
fn delivered<D: Disk + Drop>(
    alloc: Global,
    disk: D,
    life: &Life,
    later: bool,
    seed: u64,
    out: &mut Text,
) -> D {
    match Responder::open(alloc, disk, life.plan.limit) {
        Ok(responder) => {
            let mut responder = responder;
            play(alloc, &mut responder, life, later, seed, out);
            responder.close()
        }
        Err((disk, error)) => {
            put_error(error, out);
            disk
        }
    }
}

/// A life through `serve`, which gives the disk back.
fn served<D: Disk + Drop>(
    alloc: Global,
    disk: D,
    links: &mut ScriptLinks,
    limit: u64,
    out: &mut Text,
) -> D {
    let (disk, answer) = serve(alloc, links, disk, limit);
    put_served(links, answer, out);
    disk
}

/// A life of the store of these octets, and those that the crash after it leaves.
fn deliver_life(
    alloc: Global,
    octets: &[u8],
    life: &Life,
    later: bool,
    seed: u64,
    form: CrashForm,
    out: &mut Text,
) -> Result<Vec<u8>, Fault> {
    let disk = planned(alloc, octets, life.plan)?;
    let disk = delivered(alloc, disk, life, later, seed, out);
    left_of(alloc, disk, form)
}

fn serve_life(
    alloc: Global,
    octets: &[u8],
    links: &mut ScriptLinks,
    plan: Plan,
    form: CrashForm,
    out: &mut Text,
) -> Result<Vec<u8>, Fault> {
    let disk = planned(alloc, octets, plan)?;
    let disk = served(alloc, disk, links, plan.limit, out);
    left_of(alloc, disk, form)
}

/// The first life of these words, with a change.
fn changed_life(alloc: Global, words: &str, change: Change<'_>) -> Result<Life, Fault> {
    let mut life = Life::of(alloc, words)?;
    match change {
        Change::Nothing => {}
        Change::Fails(name, number) => life.plan.set(name, number)?,
        Change::Breaks(count) => life.events = broken_after(alloc, life.events.as_slice(), count)?,
    }
    Ok(life)
}

/// A first life, and the octets that the crash after it leaves.
fn first_life(
    alloc: Global,
    words: &str,
    seed: u64,
    change: Change<'_>,
    form: CrashForm,
    out: &mut Text,
) -> Result<Vec<u8>, Fault> {
    let (way, words) = words.split_once(' ').unwrap_or((words, ""));
    let octets = store_with(alloc, words)?;
    let life = changed_life(alloc, words, change)?;
    match way {
        "deliver" => deliver_life(alloc, octets.as_slice(), &life, false, seed, form, out),
        "serve" => {
            let plan = life.plan;
            let mut links = links_of(alloc, life)?;
            serve_life(alloc, octets.as_slice(), &mut links, plan, form, out)
        }
        _ => Err(Fault::Line),
    }
}

fn later_life(
    alloc: Global,
    octets: &[u8],
    words: &str,
    seed: u64,
    form: CrashForm,
    out: &mut Text,
) -> Result<Vec<u8>, Fault> {
    let (_, words) = words.split_once(' ').unwrap_or((words, ""));
    let life = Life::of(alloc, words)?;
    out.put("/ ");
    deliver_life(alloc, octets, &life, true, seed, form, out)
}

/// What the crash before the life of these words leaves.
fn form_before(words: &str) -> Result<CrashForm, Fault> {
    let (form, _) = words.split_once(' ').unwrap_or((words, ""));
    form_of(form)
}

/// The lives after the first one, which left these octets. The crash after a life is told by the next one.
fn put_later(
    alloc: Global,
    octets: Vec<u8>,
    lives: &str,
    seed: u64,
    out: &mut Text,
) -> Result<(), Fault> {
    let mut octets = octets;
    let mut after = lives.split(" / ").skip(1);
    for words in lives.split(" / ") {
        let form = match after.next() {
            Some(next) => form_before(next)?,
            None => CrashForm::Keep,
        };
        octets = later_life(alloc, octets.as_slice(), words, seed, form, out)?;
    }
    Ok(())
}

/// Appends what comes of a run, whose octets are cut by a seed.
fn put_run(
    alloc: Global,
    line: &str,
    seed: u64,
    change: Change<'_>,
    out: &mut Text,
) -> Result<(), Fault> {
    match line.split_once(" / ") {
        None => {
            first_life(alloc, line, seed, change, CrashForm::Keep, out)?;
            Ok(())
        }
        Some((first, later)) => {
            let form = form_before(later)?;
            let octets = first_life(alloc, first, seed, change, form, out)?;
            put_later(alloc, octets, later, seed, out)
        }
    }
}

/// What comes of a run.
pub fn told_by(alloc: Global, line: &str, seed: u64, change: Change<'_>) -> Result<Vec<u8>, Fault> {
    let mut out = Text::new(alloc);
    if let Err(fault) = put_run(alloc, line, seed, change, &mut out) {
        out.fail(fault);
    }
    out.end()
}

/// How many octets come in the first life of a line.
pub fn octets_of_first(alloc: Global, line: &str) -> Result<usize, Fault> {
    let (first, _) = line.split_once(" / ").unwrap_or((line, ""));
    let (_, words) = first.split_once(' ').unwrap_or((first, ""));
    let life = Life::of(alloc, words)?;
    Ok(octets_in_all(life.events.as_slice()))
}
