ghost use Rattle.std.specs.Prelude.{◌≡◌, ◌↔◌, ◌+◌, ◌<◌, ◌≤◌, [], ◌∷◌, ◌++◌, List, ℕ, Some, IfOk, IsErr, IsTrue, OnOk, OnErr, length, is_err, is_ok, if◌then◌else◌, nat_lt, true, vec_capacity, vec_len};
ghost use Rattle.std.proofs.Common.{arith, subst, sym};
ghost use Rattle.std.proofs.lemmas.List.{take_all};
ghost use Rattle.vf_base.specs.Faults.{HasRisen, NeverFalls, counted};
ghost use Rattle.vf_disk.specs.Disk.{greatest_length, Torn, Shortened, Follows, Within, LeavesShown, Gives, Writes, Cuts, length_written, length_cut, overwritten, Elapses};
ghost use Rattle.vf_disk.specs.Memory.{Keeps, Leaves, LeftSince, Memory, fresh, state, with_sync};
ghost use Rattle.vf_disk.specs.State.{IsImage, left_by, state_of};
ghost use Rattle.vf_disk.specs.Steps.{LeavesState, MakesSteps};
ghost use Rattle.vf_disk.specs.declared.step.Step.TheVariants.{Wrote, CutTo, Synced};
ghost use Rattle.vf_disk.specs.declared.step.Step.{Step};
ghost use Rattle.vf_disk.specs.Plans.{ChangesWherePlanned, LooksAsPlanned, SyncsAsPlanned, after_change, sooner};

use crate::admitted::is_admitted;
use crate::overwrite::overwrite;
use crate::plan::Plan;
use crate::replay::{is_settled, last_sync, make_all, mark_all, shown_by};
use crate::step::copy_steps;
use crate::{CrashForm, Disk, GREATEST_LENGTH, Parts, Step};
use std::alloc::Global;
use std::marker::Model;
use vf_base::{Failed, NoMemory, Octets};

/// A disk in memory, which keeps its calls. Calls fail by a plan, or for want of memory.
pub struct MemoryDisk {
    alloc: Global,
    first: Octets,
    steps: Vec<Step>,
    octets: Vec<u8>,
    plan: Plan,
    faults: u64,
    lacks: u64,
}

impl Drop for MemoryDisk {
    fn drop(self) {
        let MemoryDisk {
            alloc: _,
            first,
            steps,
            octets,
            plan,
            faults: _,
            lacks: _,
        } = self;
        drop(first);
        drop(steps);
        drop(octets);
        drop(plan);
    }
}

impl Model for MemoryDisk {
    ghost use Rattle.std.specs.Prelude.{vec_capacity};
    ghost use Rattle.vf_disk.specs.Memory.{HasRoom, IsShown, Memory};

    ghost Value = { Memory };

    ghost view = { λ disk. record { first = disk.first; steps = disk.steps.items; plan = disk.plan; faults = disk.faults; lacks = disk.lacks } };

    ghost invariant = { λ disk. record { shown : IsShown disk.octets.items disk.first disk.steps.items; room : HasRoom disk.steps.items (vec_capacity disk.steps) } };
}

impl MemoryDisk {
    /// A disk that holds these octets as synced. The calls of `len`, `read`, `write_at`, `write_parts`, `cut` and
    /// `sync` of the numbers in `failing`, counted together from 1, fail.
    pub fn of(alloc: Global, octets: &[u8], failing: Vec<u64>) -> Result<MemoryDisk, NoMemory>
        ensures disk { IfOk result (λ disk. disk ≡ fresh octets.now failing.items) }
        ensures synced { IfOk result (λ disk. LeavesShown (Some octets.now) (IsImage (state disk))) }
    {
        let first = Octets::of(alloc, octets)?;
        let octets = octets.to_vec(alloc)?;
        Ok(MemoryDisk {
            alloc,
            first,
            steps: Vec::new(alloc),
            octets,
            plan: Plan::new(failing),
            faults: 0,
            lacks: 0,
        })
    }

    /// A call failed because it found no memory. It failed as any other does.
    pub fn lacked(&self) -> bool
        ensures { result ≡ nat_lt 0 self.now.lacks }
    {
        self.lacks > 0
    }

    /// What a read gives.
    pub fn octets(&self) -> &[u8]
        ensures { result.now ≡ (state self.now).shown }
    {
        self.octets.as_slice()
    }

    /// Lets the `call`-th write, cut or sync from now, and every call after it, fail, unless a stop that is planned
    /// already comes sooner. A crash may leave the stopped call made; those after it leave no trace.
    pub fn stop(&mut self, call: u32)
        requires { 0 < call }
        ensures { self.new ≡ record self.old { plan = record self.old.plan { until_stop = Some (sooner call self.old.plan.until_stop) } } }
    {
        self.plan.stop(call);
    }

    /// The disk that a crash leaves, all of it synced and with no failure planned.
    pub fn crash(self, form: CrashForm) -> Result<MemoryDisk, NoMemory>
        ensures left { IfOk result (λ disk. disk ≡ fresh (left_by form (state self)) []) }
        ensures image { IfOk result (λ disk. IsImage (state self) disk.first) }
        ensures synced { IfOk result (λ disk. LeavesShown (Some disk.first) (IsImage (state disk))) }
    {
        let image = self.image(form)?;
        let disk = MemoryDisk::of(self.alloc, &image, Vec::new(self.alloc))?;
        Ok(disk)
    }

    /// The image that a crash leaves.
    fn image(&self, form: CrashForm) -> Result<Vec<u8>, NoMemory>
        ensures { IfOk result (λ image. image.items ≡ left_by form (state self.now)) }
    {
        let steps = self.steps.as_slice();
        let (before, since) = steps.split_at(last_sync(steps));
        let mut image = shown_by(self.alloc, self.first.as_slice(), before)?;
        match form {
            CrashForm::Keep => {
                make_all(&mut image, since)?;
                Ok(image)
            }
            CrashForm::Lose => Ok(image),
            CrashForm::Fill(octet) => {
                make_all(&mut image, since)?;
                mark_all(&mut image, octet, since);
                Ok(image)
            }
        }
    }

    /// Whether a crash now may leave these octets. It looks at each octet and at each call since the last sync, and
    /// takes memory for the octets that stood there then.
    pub fn admits(&self, image: &[u8]) -> Result<bool, NoMemory>
        ensures { IfOk result (λ admitted. IsTrue admitted ↔ IsImage (state self.now) image.now) }
    {
        let steps = self.steps.as_slice();
        let (before, since) = steps.split_at(last_sync(steps));
        let synced = shown_by(self.alloc, self.first.as_slice(), before)?;
        Ok(is_admitted(&synced, since, image))
    }

    /// A disk that holds the same and has made the same calls; what fails of its calls to come is the same too.
    pub fn copy(&self, alloc: Global) -> Result<MemoryDisk, NoMemory>
        ensures { IfOk result (λ disk. disk ≡ self.now) }
    {
        let first = self.first.copy(alloc)?;
        let steps = copy_steps(alloc, self.steps.as_slice())?;
        let octets = self.octets.as_slice().to_vec(alloc)?;
        let plan = self.plan.copy(alloc)?;
        Ok(MemoryDisk {
            alloc,
            first,
            steps,
            octets,
            plan,
            faults: self.faults,
            lacks: self.lacks,
        })
    }

    /// Counts a fault.
    fn fail(&mut self) -> Failed
        ensures fault { self.new ≡ record self.old { faults = counted self.old.faults } }
        ensures risen { HasRisen self.old.faults self.new.faults }
    {
        self.faults = self.faults.saturating_add(1);
        Failed
    }

    /// Counts a fault for want of memory.
    fn lack(&mut self) -> Failed
        ensures fault { self.new ≡ record self.old { faults = counted self.old.faults; lacks = counted self.old.lacks } }
        ensures risen { HasRisen self.old.faults self.new.faults }
        ensures memory { HasRisen self.old.lacks self.new.lacks }
    {
        self.lacks = self.lacks.saturating_add(1);
        self.fail()
    }

    /// Keeps a write as the plan has it, and makes it where it is good.
    fn write(&mut self, at: u64, octets: &[u8]) -> Result<(), Failed>
        requires { at ≤ length (state self.old).shown }
        ensures kept { Keeps self.old self.new (Wrote at octets.now true) (is_err result) }
        ensures plan { self.new.plan ≡ after_change self.old.plan }
        ensures ok { OnOk result (self.new.faults ≡ self.old.faults) }
        ensures falls { NeverFalls self.old.faults self.new.faults }
        ensures failed { OnErr result (HasRisen self.old.faults self.new.faults) }
    {
        let stopped = self.plan.is_after_stop();
        let good = !self.plan.changes();
        if stopped || octets.len() as u64 > GREATEST_LENGTH - at {
            return Err(self.fail());
        }
        let (steps, shown) = (&mut self.steps, &mut self.octets);
        let Ok(()) = keep_write(self.alloc, steps, shown, at, octets, good) else {
            return Err(self.lack());
        };
        if !good {
            return Err(self.fail());
        }
        Ok(())
    }

    /// Keeps a cut as the plan has it, and makes it where it is good.
    fn shorten(&mut self, to: u64) -> Result<(), Failed>
        requires { to ≤ length (state self.old).shown }
        ensures kept { Keeps self.old self.new (CutTo to true) (is_err result) }
        ensures plan { self.new.plan ≡ after_change self.old.plan }
        ensures ok { OnOk result (self.new.faults ≡ self.old.faults) }
        ensures falls { NeverFalls self.old.faults self.new.faults }
        ensures failed { OnErr result (HasRisen self.old.faults self.new.faults) }
    {
        let stopped = self.plan.is_after_stop();
        let good = !self.plan.changes();
        if stopped {
            return Err(self.fail());
        }
        let Ok(()) = keep(&mut self.steps, Step::CutTo { length: to, good }) else {
            return Err(self.lack());
        };
        if !good {
            return Err(self.fail());
        }
        self.octets.truncate(to as usize);
        Ok(())
    }
}

/// Puts a call after the others, with room for a sync after it; without memory they stay as they are.
fn keep(steps: &mut Vec<Step>, step: Step) -> Result<(), NoMemory>
    ensures ok { OnOk result (steps.new.items ≡ steps.old.items ++ step ∷ []) }
    ensures room { OnOk result (vec_len steps.new < vec_capacity steps.new) }
    ensures err { OnErr result (steps.new.items ≡ steps.old.items) }
    ensures capacity { vec_capacity steps.old ≤ vec_capacity steps.new }
{
    steps.reserve(2)?;
    steps.push_reserved(step);
    Ok(())
}

/// Keeps a write, and makes it where it is good; without memory the calls and the octets stay as they are.
fn keep_write(
    alloc: Global,
    steps: &mut Vec<Step>,
    shown: &mut Vec<u8>,
    at: u64,
    octets: &[u8],
    good: bool,
) -> Result<(), NoMemory>
    requires { at ≤ length shown.old.items }
    ensures ok { OnOk result (steps.new.items ≡ steps.old.items ++ Wrote at octets.now good ∷ []) }
    ensures shown { OnOk result (shown.new.items ≡ (if good then overwritten shown.old.items at octets.now else shown.old.items)) }
    ensures room { OnOk result (vec_len steps.new < vec_capacity steps.new) }
    ensures err { OnErr result ((steps.new.items ≡ steps.old.items) × (shown.new.items ≡ shown.old.items)) }
    ensures capacity { vec_capacity steps.old ≤ vec_capacity steps.new }
{
    steps.reserve(2)?;
    let kept = Octets::of(alloc, octets)?;
    if good {
        overwrite(shown, at as usize, octets)?;
    }
    steps.push_reserved(Step::Wrote {
        at,
        octets: kept,
        good,
    });
    Ok(())
}

impl Disk for MemoryDisk {
    ghost shown = { λ disk. Some (state disk).shown };

    ghost size = { λ disk. length (state disk).shown };

    ghost may_leave = { λ disk. IsImage (state disk) };

    ghost moment = { λ disk. length disk.steps };

    ghost left_since = { LeftSince };

    ghost fault_count = { λ disk. disk.faults };

    ghost plan = { λ disk. Some disk.plan };

    ghost state = { λ disk. Some (state disk) };

    ghost lack_count = { λ disk. disk.lacks };

    ghost measured = { λ disk octets same. Prim.cc };

    ghost counts_now = { λ disk since image le now.
        let all = take_all (length disk.steps) disk.steps (Prim.omega arith) in
        (length disk.steps, le, Prim.omega arith, subst (λ (steps : List Step). IsImage (state_of disk.first steps) image) (sym all) now) };

    ghost only_now = { λ disk image left. subst (λ (steps : List Step). IsImage (state_of disk.first steps) image) (take_all left.0 disk.steps left.1) left.3 };

    ghost told = { λ disk now same. Prim.cc };

    fn len(&mut self) -> Result<u64, Failed>
        ensures length { IfOk result (λ count. count ≡ length (state self.old).shown) }
        ensures bound { IfOk result (λ count. count ≤ greatest_length) }
        ensures shown { Some (state self.new).shown ≡ Some (state self.old).shown }
        ensures size { length (state self.new).shown ≡ length (state self.old).shown }
        ensures crash { Within (IsImage (state self.old)) (IsImage (state self.new)) }
        ensures time { Elapses (length self.old.steps) (length self.new.steps) (LeftSince self.old) (LeftSince self.new) (IsImage (state self.new)) }
        ensures plan { LooksAsPlanned (Some self.old.plan) (Some self.new.plan) (is_err result) }
        ensures state { (Some (state self.new) ≡ Some (state self.old)) × (self.new.lacks ≡ self.old.lacks) }
        ensures ok { OnOk result (self.new.faults ≡ self.old.faults) }
        ensures falls { NeverFalls self.old.faults self.new.faults }
        ensures failed { OnErr result (HasRisen self.old.faults self.new.faults) }
        ensures rest { Leaves self.old self.new self.old.steps }
    {
        if self.plan.looks() {
            return Err(self.fail());
        }
        Ok(self.octets.len() as u64)
    }

    fn read(&mut self, at: u64, into: &mut [u8]) -> Result<(), Failed>
        requires { at + length into.old ≤ length (state self.old).shown }
        ensures octets { Gives (Some (state self.old).shown) at into.new result }
        ensures shown { Some (state self.new).shown ≡ Some (state self.old).shown }
        ensures size { length (state self.new).shown ≡ length (state self.old).shown }
        ensures crash { Within (IsImage (state self.old)) (IsImage (state self.new)) }
        ensures time { Elapses (length self.old.steps) (length self.new.steps) (LeftSince self.old) (LeftSince self.new) (IsImage (state self.new)) }
        ensures plan { LooksAsPlanned (Some self.old.plan) (Some self.new.plan) (is_err result) }
        ensures state { (Some (state self.new) ≡ Some (state self.old)) × (self.new.lacks ≡ self.old.lacks) }
        ensures ok { OnOk result (self.new.faults ≡ self.old.faults) }
        ensures falls { NeverFalls self.old.faults self.new.faults }
        ensures failed { OnErr result (HasRisen self.old.faults self.new.faults) }
        ensures rest { Leaves self.old self.new self.old.steps }
    {
        if self.plan.looks() {
            return Err(self.fail());
        }
        let at = at as usize;
        let count = into.len();
        into.copy_from_slice(&self.octets[at..at + count]);
        Ok(())
    }

    fn write_at(&mut self, at: u64, octets: &[u8]) -> Result<(), Failed>
        requires { at ≤ length (state self.old).shown }
        ensures shown { Writes (Some (state self.old).shown) (Some (state self.new).shown) at octets.now result }
        ensures size { length (state self.new).shown ≡ length_written (length (state self.old).shown) at (length octets.now) result }
        ensures crash { Follows (Torn at (length octets.now)) (IsImage (state self.old)) (IsImage (state self.new)) }
        ensures long { greatest_length < at + length octets.now → IsErr result × (Some (state self.new).shown ≡ Some (state self.old).shown) × Within (IsImage (state self.old)) (IsImage (state self.new)) }
        ensures time { Elapses (length self.old.steps) (length self.new.steps) (LeftSince self.old) (LeftSince self.new) (IsImage (state self.new)) }
        ensures plan { ChangesWherePlanned (Some self.old.plan) (Some self.new.plan) (is_err result) }
        ensures state { MakesSteps (Wrote at octets.now true ∷ []) (Some self.old.plan) (Some self.new.plan) (Some (state self.old)) (Some (state self.new)) (is_err result) self.old.lacks self.new.lacks }
        ensures ok { OnOk result (self.new.faults ≡ self.old.faults) }
        ensures falls { NeverFalls self.old.faults self.new.faults }
        ensures failed { OnErr result (HasRisen self.old.faults self.new.faults) }
        ensures kept { Keeps self.old self.new (Wrote at octets.now true) (is_err result) }
    {
        self.write(at, octets)
    }

    fn write_parts(&mut self, at: u64, octets: &Parts) -> Result<(), Failed>
        requires { at ≤ length (state self.old).shown }
        ensures shown { Writes (Some (state self.old).shown) (Some (state self.new).shown) at octets.now.items result }
        ensures size { length (state self.new).shown ≡ length_written (length (state self.old).shown) at (length octets.now.items) result }
        ensures crash { Follows (Torn at (length octets.now.items)) (IsImage (state self.old)) (IsImage (state self.new)) }
        ensures long { greatest_length < at + length octets.now.items → IsErr result × (Some (state self.new).shown ≡ Some (state self.old).shown) × Within (IsImage (state self.old)) (IsImage (state self.new)) }
        ensures time { Elapses (length self.old.steps) (length self.new.steps) (LeftSince self.old) (LeftSince self.new) (IsImage (state self.new)) }
        ensures plan { ChangesWherePlanned (Some self.old.plan) (Some self.new.plan) (is_err result) }
        ensures state { MakesSteps (Wrote at octets.now.items true ∷ []) (Some self.old.plan) (Some self.new.plan) (Some (state self.old)) (Some (state self.new)) (is_err result) self.old.lacks self.new.lacks }
        ensures ok { OnOk result (self.new.faults ≡ self.old.faults) }
        ensures falls { NeverFalls self.old.faults self.new.faults }
        ensures failed { OnErr result (HasRisen self.old.faults self.new.faults) }
        ensures kept { Keeps self.old self.new (Wrote at octets.now.items true) (is_err result) }
    {
        let Ok(joined) = octets.to_vec(self.alloc) else {
            let _ = self.plan.changes();
            return Err(self.lack());
        };
        self.write_at(at, joined.as_slice())
    }

    fn cut(&mut self, to: u64) -> Result<(), Failed>
        requires { to ≤ length (state self.old).shown }
        ensures shown { Cuts (Some (state self.old).shown) (Some (state self.new).shown) to result }
        ensures size { length (state self.new).shown ≡ length_cut (length (state self.old).shown) to result }
        ensures crash { Follows (Shortened to) (IsImage (state self.old)) (IsImage (state self.new)) }
        ensures time { Elapses (length self.old.steps) (length self.new.steps) (LeftSince self.old) (LeftSince self.new) (IsImage (state self.new)) }
        ensures plan { ChangesWherePlanned (Some self.old.plan) (Some self.new.plan) (is_err result) }
        ensures state { MakesSteps (CutTo to true ∷ []) (Some self.old.plan) (Some self.new.plan) (Some (state self.old)) (Some (state self.new)) (is_err result) self.old.lacks self.new.lacks }
        ensures ok { OnOk result (self.new.faults ≡ self.old.faults) }
        ensures falls { NeverFalls self.old.faults self.new.faults }
        ensures failed { OnErr result (HasRisen self.old.faults self.new.faults) }
        ensures kept { Keeps self.old self.new (CutTo to true) (is_err result) }
    {
        self.shorten(to)
    }

    fn sync(&mut self) -> Result<(), Failed>
        ensures durable { OnOk result (LeavesShown (Some (state self.new).shown) (IsImage (state self.new))) }
        ensures shown { Some (state self.new).shown ≡ Some (state self.old).shown }
        ensures size { length (state self.new).shown ≡ length (state self.old).shown }
        ensures crash { Within (IsImage (state self.old)) (IsImage (state self.new)) }
        ensures time { Elapses (length self.old.steps) (length self.new.steps) (LeftSince self.old) (LeftSince self.new) (IsImage (state self.new)) }
        ensures plan { SyncsAsPlanned (Some self.old.plan) (Some self.new.plan) (is_err result) }
        ensures state { LeavesState (Synced ∷ []) (Some self.old.plan) (Some (state self.old)) (Some (state self.new)) }
        ensures memory { self.new.lacks ≡ self.old.lacks }
        ensures ok { OnOk result (self.new.faults ≡ self.old.faults) }
        ensures falls { NeverFalls self.old.faults self.new.faults }
        ensures failed { OnErr result (HasRisen self.old.faults self.new.faults) }
        ensures kept { Leaves self.old self.new (if is_ok result then with_sync self.old.steps else self.old.steps) }
    {
        if self.plan.changes() {
            return Err(self.fail());
        }
        if !is_settled(&self.steps) {
            self.steps.push_reserved(Step::Synced);
        }
        Ok(())
    }

    fn faults(&self) -> u64 {
        self.faults
    }
}
