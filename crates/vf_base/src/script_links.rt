ghost use Rattle.std.specs.Prelude.{◌≡◌, ◌≤◌, ◌++◌, [], ◌∷◌, IsTrue, true, false, List, ℕ, Some, length, nat_eq, IfOk, OnOk, OnErr, vec_capacity, vec_len};
ghost use Rattle.std.specs.List.{count_by};
ghost use Rattle.vf_base.specs.Faults.{HasRisen};
ghost use Rattle.vf_base.specs.Links.{after_octets, after_fault, noted, is_script, arrives as arrives_test, has_arrived as arrived_test, has_note as note_test};
ghost use Rattle.vf_base.specs.Script.{OnceEach, traffic_of, is_arrival as arrival_test};

use crate::plan::{Plan, fail};
use crate::{Failed, LinkEvent, LinkFault, Links, NoMemory, Octets, Piece, ScriptEvent};
use std::alloc::Global;
use std::marker::Model;

/// Links in memory: they hand out these events and take all that is sent. The calls of `next` and of `send` of the
/// numbers in `failing_next` and `failing_send`, each from 1, fail, a send with half of its octets taken.
#[derive(Drop)]
pub struct ScriptLinks {
    alloc: Global,
    events: Vec<ScriptEvent>,
    place: usize,
    pieces: Vec<Piece>,
    shut: Vec<(u32, u64)>,
    failed: Vec<(u32, u64)>,
    last: u32,
    plan: Plan,
    send_plan: Plan,
    faults: u64,
    send_faults: u64,
}

impl Model for ScriptLinks {
    ghost use Rattle.std.specs.Prelude.{take, drop, IsTrue, ◌≤◌, length, vec_capacity};
    ghost use Rattle.std.specs.List.{count_by};
    ghost use Rattle.vf_base.specs.Links.{is_script};
    ghost use Rattle.vf_base.specs.Script.{Script, OnceEach, is_arrival};

    ghost Value = { Script };

    ghost view = { λ links. record {
      events = take links.place links.events.items;
      left = drop links.place links.events.items;
      pieces = links.pieces.items;
      shut = links.shut.items;
      failed = links.failed.items;
      last = links.last;
      plan = links.plan;
      send_plan = links.send_plan;
      faults = links.faults;
      send_faults = links.send_faults;
    } };

    ghost invariant = { λ links. record {
      inside : links.place ≤ length links.events.items;
      script : IsTrue (is_script links.last (drop links.place links.events.items));
      shut_once : OnceEach (take links.place links.events.items) links.shut.items;
      shut_room : count_by is_arrival links.events.items ≤ vec_capacity links.shut;
      failed_once : OnceEach (take links.place links.events.items) links.failed.items;
      failed_room : count_by is_arrival links.events.items ≤ vec_capacity links.failed;
    } };
}

impl ScriptLinks {
    /// Links that hand out these events, which meet the rules of `next`. The room for what is noted of links is
    /// made here.
    pub fn new(
        alloc: Global,
        events: Vec<ScriptEvent>,
        failing_next: Vec<u64>,
        failing_send: Vec<u64>,
    ) -> Result<ScriptLinks, NoMemory>
        requires { IsTrue (is_script 0 events.items) }
        ensures { IfOk result (λ links. links ≡ record { events = []; left = events.items; pieces = []; shut = []; failed = []; last = 0; plan = record { failing = failing_next.items; calls = 0 }; send_plan = record { failing = failing_send.items; calls = 0 }; faults = 0; send_faults = 0 }) }
    {
        let arriving = arriving(events.as_slice());
        let shut = Vec::with_capacity(alloc, arriving)?;
        let failed = Vec::with_capacity(alloc, arriving)?;
        Ok(ScriptLinks {
            alloc,
            events,
            place: 0,
            pieces: Vec::new(alloc),
            shut,
            failed,
            last: 0,
            plan: Plan::new(failing_next),
            send_plan: Plan::new(failing_send),
            faults: 0,
            send_faults: 0,
        })
    }

    /// The octets that were taken, piece by piece.
    pub fn pieces(&self) -> &[Piece]
        ensures { result.now ≡ self.now.pieces }
    {
        self.pieces.as_slice()
    }

    /// The links that were shut, each with the number of events that were handed out before.
    pub fn shut_links(&self) -> &[(u32, u64)]
        ensures { result.now ≡ self.now.shut }
    {
        self.shut.as_slice()
    }

    /// The links a send of which has failed, each with the number of events that were handed out before the first.
    pub fn failed_sends(&self) -> &[(u32, u64)]
        ensures { result.now ≡ self.now.failed }
    {
        self.failed.as_slice()
    }

    /// Takes octets on a link.
    fn take(&mut self, link: u32, octets: &[u8]) -> Result<(), NoMemory>
        ensures ok { OnOk result (traffic_of self.new ≡ after_octets link octets.now (traffic_of self.old)) }
        ensures err { OnErr result (traffic_of self.new ≡ traffic_of self.old) }
        ensures last { self.new.last ≡ self.old.last }
        ensures plan { self.new.plan ≡ self.old.plan }
        ensures send_plan { self.new.send_plan ≡ self.old.send_plan }
        ensures faults { self.new.faults ≡ self.old.faults }
        ensures send_faults { self.new.send_faults ≡ self.old.send_faults }
    {
        let octets = Octets::of(self.alloc, octets)?;
        self.pieces.push(Piece { link, octets })?;
        Ok(())
    }

    /// Counts a send that failed, and notes its link.
    fn fail(&mut self, link: u32) -> Failed
        ensures traffic { traffic_of self.new ≡ after_fault link (traffic_of self.old) }
        ensures last { self.new.last ≡ self.old.last }
        ensures plan { self.new.plan ≡ self.old.plan }
        ensures send_plan { self.new.send_plan ≡ self.old.send_plan }
        ensures faults { self.new.faults ≡ self.old.faults }
        ensures risen { HasRisen self.old.send_faults self.new.send_faults }
    {
        let (events, _) = self.events.as_slice().split_at(self.place);
        note(&mut self.failed, events, link);
        fail(&mut self.send_faults)
    }
}

/// How many links arrive.
fn arriving(events: &[ScriptEvent]) -> usize
    ensures { result ≡ count_by arrival_test events.now }
{
    events.iter().filter(|event| is_arrival(event)).count()
}

fn is_arrival(event: &ScriptEvent) -> bool
    ensures { result ≡ arrival_test event.now }
{
    matches!(event, ScriptEvent::Arrived { .. })
}

/// Whether a link has arrived.
fn has_arrived(events: &[ScriptEvent], link: u32) -> bool
    ensures { result ≡ arrived_test link events.now }
{
    events.iter().any(|event| arrives(event, link))
}

fn arrives(event: &ScriptEvent, link: u32) -> bool
    ensures { result ≡ arrives_test link event.now }
{
    match event {
        ScriptEvent::Arrived { link: number } => link == *number,
        _ => false,
    }
}

/// Whether a link is noted.
fn has_note(notes: &[(u32, u64)], link: u32) -> bool
    ensures { result ≡ note_test link notes.now }
{
    notes.iter().any(|note| link == note.0)
}

/// Notes a link that has arrived, at its first time alone.
fn note(notes: &mut Vec<(u32, u64)>, events: &[ScriptEvent], link: u32)
    requires once { OnceEach events.now notes.old.items }
    requires room { count_by arrival_test events.now ≤ vec_capacity notes.old }
    ensures notes { notes.new.items ≡ noted link events.now notes.old.items }
    ensures once { OnceEach events.now notes.new.items }
    ensures room { vec_capacity notes.new ≡ vec_capacity notes.old }
{
    if !has_arrived(events, link) || has_note(notes.as_slice(), link) {
        return;
    }
    notes.push_reserved((link, events.len() as u64));
}

impl Links for ScriptLinks {
    ghost told = { λ links. Some (traffic_of links) };

    ghost turns = { λ links. length links.left };

    ghost last_link = { λ links. links.last };

    ghost through = { λ links. nat_eq (length links.left) 0 };

    ghost fault_count = { λ links. links.faults };

    ghost send_fault_count = { λ links. links.send_faults };

    ghost plan = { λ links. Some links.plan };

    ghost send_plan = { λ links. Some links.send_plan };

    fn next(&mut self, _alloc: Global, piece: &mut Vec<u8>) -> Result<LinkEvent, LinkFault> {
        piece.clear();
        if self.plan.fails() {
            let _ = fail(&mut self.faults);
            return Err(LinkFault::Failed);
        }
        let Some(event) = self.events.get(self.place) else {
            return Ok(LinkEvent::Done);
        };
        match event {
            ScriptEvent::Arrived { link } => {
                self.last = *link;
                self.place += 1;
                Ok(LinkEvent::Arrived { link: *link })
            }
            ScriptEvent::Octets {
                link,
                moment,
                octets,
            } => {
                if piece.extend_from_slice(octets.as_slice()).is_err() {
                    return Err(LinkFault::NoMemory);
                }
                self.place += 1;
                Ok(LinkEvent::Octets {
                    link: *link,
                    moment: *moment,
                })
            }
            ScriptEvent::Ended { link } => {
                self.place += 1;
                Ok(LinkEvent::Ended { link: *link })
            }
        }
    }

    fn send(&mut self, link: u32, octets: &[u8]) -> Result<(), Failed> {
        let fails = self.send_plan.fails();
        if self.take(link, planned(octets, fails)).is_err() {
            return Err(self.fail(link));
        }
        if fails {
            return Err(self.fail(link));
        }
        Ok(())
    }

    fn shut(&mut self, link: u32) {
        let (events, _) = self.events.as_slice().split_at(self.place);
        note(&mut self.shut, events, link);
    }

    fn turns_left(&self) -> u64 {
        (self.events.len() - self.place) as u64
    }

    fn send_faults(&self) -> u64 {
        self.send_faults
    }

    fn faults(&self) -> u64 {
        self.faults
    }
}

/// The octets that a send takes: half of them where it is to fail.
fn planned(octets: &[u8], fails: bool) -> &[u8]
    ensures whole { fails ≡ false → result.now ≡ octets.now }
    ensures prefix { (rest : List ℕ) × (octets.now ≡ result.now ++ rest) }
{
    if fails {
        let (prefix, _) = octets.split_at(octets.len() / 2);
        return prefix;
    }
    octets
}
