ghost use Rattle.std.specs.Prelude.{◌≡◌, ◌↔◌, [], None, IfErr, IfOk, IsOk, IsSome, OnOk, OnErr, List, ℕ, if◌then◌else◌, nat_eq, option_copied};
ghost use Rattle.std.specs.Cmp.Lexicographic.{pointwise};
ghost use Rattle.indexmap.specs.IndexMap.{get};
ghost use Rattle.vf_locks.specs.Clash.{conflict};
ghost use Rattle.vf_locks.specs.Holders.{IsOrdered, controls_of, first_other as other_than, granted, others, passed};
ghost use Rattle.vf_locks.specs.Table.{IsAsBefore, IsCause, IsWith, counts_of, held};

use crate::file_holders::FileHolders;
use crate::search::first_other;
use crate::{GrantError, Held, HeldCounts, Holder};
use indexmap::IndexMap;
use std::alloc::Global;
use std::marker::Model;
use vf_base::{Controls, Name, NoMemory};

/// So many entries of files without holders are kept, so that their room serves the next holders.
const MOST_EMPTY: usize = 16;

/// The holders of all files with their controls.
pub struct Locks {
    by_file: IndexMap<Name, FileHolders>,
}

impl Drop for Locks {
    fn drop(self) {
        let Locks { by_file } = self;
        drop(by_file);
    }
}

impl Model for Locks {
    ghost use Rattle.std.specs.Prelude.{List, ℕ};
    ghost use Rattle.vf_locks.specs.declared.held.Held.{Held};

    ghost Value = { List (List ℕ × List Held) };

    ghost view = { λ locks. locks.by_file.entries };
}

impl Locks {
    /// No holders; the allocator is kept for those that come.
    pub fn new(alloc: Global) -> Locks
        ensures { result ≡ [] }
    {
        Locks {
            by_file: IndexMap::new(alloc),
        }
    }

    /// The same holders of the same files; names' octets are shared.
    pub fn copy(&self, alloc: Global) -> Result<Locks, NoMemory>
        ensures { IfOk result (λ locks. locks ≡ self.now) }
    {
        let by_file = copy_table(alloc, &self.by_file)?;
        Ok(Locks { by_file })
    }

    /// Whether `grant` would find no clash; memory is taken only to name the holder of one.
    pub fn allows(
        &self,
        alloc: Global,
        file: &Name,
        holder: &Holder,
        wanted: &Controls,
    ) -> Result<(), GrantError>
        ensures allowed { IsOk result ↔ (conflict holder.now wanted.now (held file.now self.now) ≡ None) }
        ensures refused { IfErr result (IsCause (conflict holder.now wanted.now (held file.now self.now))) }
    {
        match self.by_file.get(file) {
            Some(holders) => holders.allows(alloc, holder, wanted),
            None => Ok(()),
        }
    }

    /// The holder stands on the file with these controls, in the place of its own where it had any; that takes no memory.
    /// `Clash` comes where another holder of the file stands against them. After a refusal every file is as before.
    pub fn grant(
        &mut self,
        alloc: Global,
        file: &Name,
        holder: &Holder,
        wanted: &Controls,
    ) -> Result<(), GrantError>
        ensures allowed { IsOk result → conflict holder.now wanted.now (held file.now self.old) ≡ None }
        ensures refused { IfErr result (IsCause (conflict holder.now wanted.now (held file.now self.old))) }
        ensures ok { OnOk result (IsWith file.now (granted holder.now wanted.now (held file.now self.old)) self.old self.new) }
        ensures err { OnErr result (IsAsBefore self.old self.new) }
        ensures stands { conflict holder.now wanted.now (held file.now self.old) ≡ None → IsSome (controls_of holder.now (held file.now self.old)) → IsOk result }
    {
        let Some(holders) = self.by_file.get_mut(file) else {
            self.put_first(alloc, file, holder, wanted)?;
            return Ok(());
        };
        holders.grant(alloc, holder, wanted)?;
        Ok(())
    }

    /// The holder no longer stands on the file.
    pub fn release(&mut self, file: &Name, holder: &Holder)
        ensures { IsWith file.now (others holder.now (held file.now self.old)) self.old self.new }
    {
        if let Some(holders) = self.by_file.get_mut(file) {
            holders.release(holder);
        }
        if self.by_file.len() > MOST_EMPTY {
            self.forget_empty(file);
        }
    }

    /// The holder `to` stands on the file in the place of `from`, with its controls.
    pub fn pass(&mut self, file: &Name, from: &Holder, to: Holder)
        requires stands { IsSome (controls_of from.now (held file.now self.old)) }
        requires free { controls_of to (held file.now self.old) ≡ None }
        ensures { IsWith file.now (passed from.now to (held file.now self.old)) self.old self.new }
    {
        if let Some(holders) = self.by_file.get_mut(file) {
            holders.pass(from, to);
        }
    }

    /// The first holder of the file that isn't this one; `None` exactly where there is none.
    pub fn first_other(&self, file: &Name, holder: &Holder) -> Option<&Holder>
        ensures { option_copied result ≡ other_than holder.now (held file.now self.now) }
    {
        let holders = self.by_file.get(file)?;
        first_other(holders.as_slice(), holder)
    }

    /// The holders of the file with their controls: parties by rising link, then dockets by identity and activity.
    pub fn holders(&self, file: &Name) -> &[Held]
        ensures holders { result.now ≡ held file.now self.now }
        ensures ordered { IsOrdered (held file.now self.now) }
    {
        match self.by_file.get(file) {
            Some(holders) => holders.as_slice(),
            None => &[],
        }
    }

    /// How many holders of the file have each control on each action; `None` exactly where it has no holder.
    pub fn counts(&self, file: &Name) -> Option<&HeldCounts>
        ensures { option_copied result ≡ counts_of (held file.now self.now) }
    {
        let holders = self.by_file.get(file)?;
        if holders.as_slice().is_empty() {
            return None;
        }
        Some(holders.counts())
    }

    /// The controls of the holder on the file; `None` exactly where it doesn't stand there.
    pub fn controls(&self, file: &Name, holder: &Holder) -> Option<&Controls>
        ensures { option_copied result ≡ controls_of holder.now (held file.now self.now) }
    {
        let holders = self.by_file.get(file)?;
        holders.controls(holder)
    }

    /// Gives up the file's entry where no holder is left.
    fn forget_empty(&mut self, file: &Name)
        ensures { IsAsBefore self.old self.new }
    {
        let Some(holders) = self.by_file.get(file) else {
            return;
        };
        if holders.as_slice().is_empty() {
            take_out(&mut self.by_file, file);
        }
    }

    fn put_first(
        &mut self,
        alloc: Global,
        file: &Name,
        holder: &Holder,
        wanted: &Controls,
    ) -> Result<(), NoMemory>
        ensures ok { OnOk result (IsWith file.now (granted holder.now wanted.now []) self.old self.new) }
        ensures err { OnErr result (IsAsBefore self.old self.new) }
    {
        let mut holders = FileHolders::new(alloc);
        holders.put(alloc, holder, wanted)?;
        let name = file.copy(alloc)?;
        self.by_file.insert(name, holders)?;
        Ok(())
    }
}

fn copy_table(
    alloc: Global,
    by_file: &IndexMap<Name, FileHolders>,
) -> Result<IndexMap<Name, FileHolders>, NoMemory>
    ensures { IfOk result (λ made. made.entries ≡ by_file.now.entries) }
{
    let mut made = IndexMap::with_capacity(alloc, by_file.len())?;
    for (name, holders) in by_file.iter() {
        let name = name.copy(alloc)?;
        let holders = holders.copy(alloc)?;
        made.insert(name, holders)?;
    }
    Ok(made)
}

fn take_out(by_file: &mut IndexMap<Name, FileHolders>, file: &Name)
    ensures { (other : List ℕ) → get (pointwise nat_eq) by_file.new other ≡ (if pointwise nat_eq file.now other then None else get (pointwise nat_eq) by_file.old other) }
{
    let _ = by_file.swap_remove(file);
}
