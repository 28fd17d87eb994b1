ghost use Rattle.std.specs.Prelude.{◌≡◌, ◌<◌, ◌≤◌, ◌++◌, [], ◌∷◌, List, ℕ, Some, vec_len, vec_capacity, true, false, length, take, drop, reverse, option_to_list, option_copied, slice_get, None, IfOk, OnOk, OnErr};
ghost use Rattle.vf_base.specs.Dial.{Hears, says, after_connect, next_of};
ghost use Rattle.vf_base.specs.Memory.{Said, Heard, after_loss, said};
ghost use Rattle.vf_base.specs.Faults.{HasRisen, counted};

use crate::plan::{Plan, fail};
use crate::{Dial, Failed, NoMemory, Octets};
use std::alloc::Global;
use std::marker::Model;

/// A connection of a dial in memory.
#[derive(Drop)]
struct Line {
    said: Vec<u8>,
    octets: Octets,
    heard: usize,
}

impl Model for Line {
    ghost use Rattle.std.specs.Prelude.{◌≤◌, length, take, drop};
    ghost use Rattle.vf_base.specs.Dial.{Call};

    ghost Value = { Call };

    ghost view = { λ line. record { said = line.said.items; heard = take line.heard line.octets; left = drop line.heard line.octets } };

    ghost invariant = { λ line. line.heard ≤ length line.octets };
}

impl Line {
    /// A connection whose peer gives these octets and ends the stream.
    fn new(alloc: Global, octets: Octets) -> Line
        ensures { result ≡ record { said = []; heard = []; left = octets } }
    {
        Line {
            said: Vec::new(alloc),
            octets,
            heard: 0,
        }
    }

    fn say(&mut self, octets: &[u8]) -> Result<(), NoMemory>
        ensures ok { OnOk result (self.new ≡ says octets.now self.old) }
        ensures err { OnErr result (self.new ≡ self.old) }
    {
        self.said.extend_from_slice(octets)?;
        Ok(())
    }

    fn hear(&mut self, into: &mut [u8]) -> usize
        requires { 0 < length into.old }
        ensures within { result ≤ length into.new }
        ensures heard { Hears self.old self.new into.new result }
    {
        let (_, rest) = self.octets.as_slice().split_at(self.heard);
        let count = fill(into, rest);
        self.heard += count;
        count
    }
}

/// Copies what fits, and says how many octets.
fn fill(into: &mut [u8], from: &[u8]) -> usize
    requires { 0 < length into.old }
    ensures within { result ≤ length into.new }
    ensures inside { result ≤ length from.now }
    ensures prefix { take result into.new ≡ take result from.now }
    ensures last { result ≡ 0 → from.now ≡ [] }
{
    let count = into.len().min(from.len());
    let (prefix, _) = from.split_at(count);
    into[..count].copy_from_slice(prefix);
    count
}

/// A dial in memory. `heard` has the octets of each connection in turn, and a connection after them hears
/// nothing. The calls of the numbers in `failing`, from 1 over `connect`, `read` and `send`, fail, a send with half
/// of its octets said.
#[derive(Drop)]
pub struct ScriptDial {
    alloc: Global,
    /// The octets of the connections to come, the next one last.
    coming: Vec<Octets>,
    earlier: Vec<Line>,
    last: Option<Line>,
    stands: bool,
    lost: u64,
    plan: Plan,
    faults: u64,
}

impl Model for ScriptDial {
    ghost use Rattle.std.specs.Prelude.{◌≡◌, ◌≤◌, ◌++◌, true, is_some, option_to_list, reverse};
    ghost use Rattle.vf_base.specs.Memory.{Dialled};

    ghost Value = { Dialled };

    ghost view = { λ dial. record {
      connections = record { calls = option_to_list dial.last ++ reverse dial.earlier.items; coming = reverse dial.coming.items };
      stands = dial.stands;
      lost = dial.lost;
      plan = dial.plan;
      faults = dial.faults;
    } };

    ghost invariant = { λ dial. dial.stands ≡ true → is_some dial.last ≡ true };
}

impl ScriptDial {
    pub fn new(
        alloc: Global,
        mut heard: Vec<Octets>,
        failing: Vec<u64>,
    ) -> Result<ScriptDial, NoMemory>
        ensures { IfOk result (λ dial. dial ≡ record { connections = record { calls = []; coming = heard.items }; stands = false; lost = 0; plan = record { failing = failing.items; calls = 0 }; faults = 0 }) }
    {
        heard.reverse();
        Ok(ScriptDial {
            alloc,
            coming: heard,
            earlier: Vec::new(alloc),
            last: None,
            stands: false,
            lost: 0,
            plan: Plan::new(failing),
            faults: 0,
        })
    }

    /// What was said on a connection, the first one being 0; absent exactly where there is none.
    pub fn said(&self, connection: usize) -> Option<&[u8]>
        ensures { option_copied result ≡ slice_get (said self.now) connection }
    {
        match line_at(self.earlier.as_slice(), &self.last, connection) {
            Some(line) => Some(line.said.as_slice()),
            None => None,
        }
    }

    /// Begins a connection.
    fn begin(&mut self) -> Result<(), NoMemory>
        ensures ok { OnOk result (self.new ≡ record self.old { connections = after_connect self.old.connections; stands = true }) }
        ensures err { OnErr result (self.new ≡ self.old) }
    {
        self.earlier.reserve(1)?;
        let octets = next_octets(self.alloc, &mut self.coming)?;
        set_by(&mut self.earlier, &mut self.last);
        self.last = Some(Line::new(self.alloc, octets));
        self.stands = true;
        Ok(())
    }

    fn say(&mut self, octets: &[u8]) -> Result<(), NoMemory>
        requires { self.old.stands ≡ true }
        ensures ok { OnOk result (Said self.old self.new octets.now) }
        ensures err { OnErr result (self.new ≡ self.old) }
    {
        let Some(line) = &mut self.last else {
            unreachable!()
        };
        line.say(octets)?;
        Ok(())
    }

    fn hear(&mut self, into: &mut [u8]) -> usize
        requires stands { self.old.stands ≡ true }
        requires room { 0 < length into.old }
        ensures within { result ≤ length into.new }
        ensures heard { Heard self.old self.new into.new result }
    {
        let Some(line) = &mut self.last else {
            unreachable!()
        };
        line.hear(into)
    }

    /// Ends the connection as one that was lost.
    fn lose(&mut self)
        ensures { self.new ≡ after_loss self.old.faults self.old }
    {
        self.stands = false;
        self.lost = self.lost.saturating_add(1);
    }

    /// Ends it by a fault.
    fn fail(&mut self) -> Failed
        ensures value { self.new ≡ after_loss (counted self.old.faults) self.old }
        ensures risen { HasRisen self.old.faults self.new.faults }
    {
        self.stands = false;
        self.lost = self.lost.saturating_add(1);
        fail(&mut self.faults)
    }
}

impl Dial for ScriptDial {
    ghost told = { λ dial. Some dial.connections };

    ghost stands = { λ dial. dial.stands };

    ghost lost_count = { λ dial. dial.lost };

    ghost fault_count = { λ dial. dial.faults };

    ghost plan = { λ dial. Some dial.plan };

    fn connect(&mut self) -> Result<(), Failed> {
        if self.plan.fails() || self.begin().is_err() {
            return Err(self.fail());
        }
        Ok(())
    }

    fn read(&mut self, into: &mut [u8]) -> Result<usize, Failed> {
        if self.plan.fails() {
            return Err(self.fail());
        }
        let count = self.hear(into);
        if count == 0 {
            self.lose();
        }
        Ok(count)
    }

    fn send(&mut self, octets: &[u8]) -> Result<(), Failed> {
        if self.plan.fails() {
            let (prefix, _) = octets.split_at(octets.len() / 2);
            let _ = self.say(prefix);
            return Err(self.fail());
        }
        if self.say(octets).is_err() {
            return Err(self.fail());
        }
        Ok(())
    }

    fn close(&mut self) {
        self.stands = false;
    }

    fn lost(&self) -> u64 {
        self.lost
    }

    fn faults(&self) -> u64 {
        self.faults
    }
}

/// The octets of the next connection, which stand last.
fn next_octets(alloc: Global, coming: &mut Vec<Octets>) -> Result<Octets, NoMemory>
    ensures next { IfOk result (λ octets. octets ≡ next_of (reverse coming.old.items)) }
    ensures rest { OnOk result (reverse coming.new.items ≡ drop 1 (reverse coming.old.items)) }
    ensures err { OnErr result (coming.new.items ≡ coming.old.items) }
{
    let Some(octets) = coming.pop() else {
        let none = Octets::of(alloc, &[])?;
        return Ok(none);
    };
    Ok(octets)
}

/// Puts the last connection after the earlier ones, which have room.
fn set_by(earlier: &mut Vec<Line>, last: &mut Option<Line>)
    requires { vec_len earlier.old < vec_capacity earlier.old }
    ensures earlier { reverse earlier.new.items ≡ option_to_list last.old ++ reverse earlier.old.items }
    ensures last { last.new ≡ None }
{
    if let Some(line) = last.take() {
        earlier.push_reserved(line);
    }
}

/// The line at a place, the last one standing after the earlier ones.
fn line_at<'a>(earlier: &'a [Line], last: &'a Option<Line>, place: usize) -> Option<&'a Line>
    ensures { option_copied result ≡ slice_get (earlier.now ++ option_to_list last.now) place }
{
    if place < earlier.len() {
        return Some(&earlier[place]);
    }
    if place > earlier.len() {
        return None;
    }
    last.as_ref()
}
