ghost use Rattle.std.specs.Prelude.{◌≡◌, ◌↔◌, [], IfErr, IfOk, IsOk, IsSome, OnOk, OnErr, Ok, Err, None, Some, option_copied};
ghost use Rattle.std.specs.Option.{option_map};
ghost use Rattle.vf_locks.specs.Clash.{conflict};
ghost use Rattle.vf_locks.specs.Counts.{numbers_of};
ghost use Rattle.vf_locks.specs.Holders.{IsOrdered, controls_of, granted, in_order, others, passed};
ghost use Rattle.vf_locks.specs.Place.{place_of};
ghost use Rattle.vf_locks.specs.Table.{IsCause};

use crate::counts::show_clash;
use crate::search::{first_against, search};
use crate::{Conflict, GrantError, Held, HeldCounts, Holder};
use std::alloc::Global;
use std::marker::Model;
use vf_base::{Action, Controls, NoMemory};

/// The holders of one file in their order, with the numbers of their controls.
#[derive(Drop)]
pub struct FileHolders {
    standing: Vec<Held>,
    counts: HeldCounts,
}

impl Model for FileHolders {
    ghost use Rattle.std.specs.Prelude.{◌≡◌, List};
    ghost use Rattle.vf_locks.specs.declared.held.Held.{Held};
    ghost use Rattle.vf_locks.specs.Counts.{numbers_of};
    ghost use Rattle.vf_locks.specs.Holders.{IsOrdered};

    ghost Value = { List Held };

    ghost view = { λ holders. holders.standing.items };

    ghost invariant = { λ holders. IsOrdered holders.standing.items × (holders.counts.numbers ≡ numbers_of holders.standing.items) };
}

impl FileHolders {
    /// No holders; the allocator is kept for those that come.
    pub fn new(alloc: Global) -> FileHolders
        ensures { result ≡ [] }
    {
        FileHolders {
            standing: Vec::new(alloc),
            counts: HeldCounts {
                numbers: [[0; 4]; 8],
            },
        }
    }

    /// The same holders with the same numbers.
    pub fn copy(&self, alloc: Global) -> Result<FileHolders, NoMemory>
        ensures { IfOk result (λ holders. holders ≡ self.now) }
    {
        let standing = copy_all(alloc, self.standing.as_slice())?;
        Ok(FileHolders {
            standing,
            counts: self.counts,
        })
    }

    pub fn counts(&self) -> &HeldCounts
        ensures { result.now.numbers ≡ numbers_of self.now }
    {
        &self.counts
    }

    pub fn as_slice(&self) -> &[Held]
        ensures holders { result.now ≡ self.now }
        ensures ordered { IsOrdered self.now }
    {
        self.standing.as_slice()
    }

    /// The controls of the holder, where it stands.
    pub fn controls(&self, holder: &Holder) -> Option<&Controls>
        ensures { option_copied result ≡ controls_of holder.now self.now }
    {
        match search(self.standing.as_slice(), holder) {
            Ok(place) => Some(&self.standing[place].controls),
            Err(_) => None,
        }
    }

    /// Whether no other holder stands against what this one wants; memory is taken only to name one that does.
    pub fn allows(
        &self,
        alloc: Global,
        holder: &Holder,
        wanted: &Controls,
    ) -> Result<(), GrantError>
        ensures allowed { IsOk result ↔ (conflict holder.now wanted.now self.now ≡ None) }
        ensures refused { IfErr result (IsCause (conflict holder.now wanted.now self.now)) }
    {
        match self.first_against(holder, wanted) {
            Some((against, action)) => Err(clash(alloc, against, action)),
            None => Ok(()),
        }
    }

    /// The controls in the place of the holder's own, or beside those of the others, unless one of these stands against
    /// them. After a refusal nothing is changed.
    pub fn grant(
        &mut self,
        alloc: Global,
        holder: &Holder,
        wanted: &Controls,
    ) -> Result<(), GrantError>
        ensures allowed { IsOk result → conflict holder.now wanted.now self.old ≡ None }
        ensures refused { IfErr result (IsCause (conflict holder.now wanted.now self.old)) }
        ensures ok { OnOk result (self.new ≡ granted holder.now wanted.now self.old) }
        ensures err { OnErr result (self.new ≡ self.old) }
        ensures stands { conflict holder.now wanted.now self.old ≡ None → IsSome (controls_of holder.now self.old) → IsOk result }
    {
        self.allows(alloc, holder, wanted)?;
        self.put(alloc, holder, wanted)?;
        Ok(())
    }

    /// The controls in the place of the holder's own, or beside those of the others; without memory nothing changes.
    pub fn put(&mut self, alloc: Global, holder: &Holder, wanted: &Controls) -> Result<(), NoMemory>
        ensures ok { OnOk result (self.new ≡ granted holder.now wanted.now self.old) }
        ensures err { OnErr result (self.new ≡ self.old) }
        ensures stands { IsSome (controls_of holder.now self.old) → IsOk result }
    {
        match search(self.as_slice(), holder) {
            Ok(place) => {
                self.replace(place, holder, wanted);
                Ok(())
            }
            Err(place) => {
                self.insert(alloc, place, holder, wanted)?;
                Ok(())
            }
        }
    }

    /// Without the holder.
    pub fn release(&mut self, holder: &Holder)
        ensures { self.new ≡ others holder.now self.old }
    {
        if let Ok(place) = search(self.as_slice(), holder) {
            self.remove(place, holder);
        }
    }

    /// The holder `to` in the place of `from`, with its controls.
    pub fn pass(&mut self, from: &Holder, to: Holder)
        requires stands { IsSome (controls_of from.now self.old) }
        requires free { controls_of to self.old ≡ None }
        ensures { self.new ≡ passed from.now to self.old }
    {
        let Ok(place) = search(self.standing.as_slice(), from) else {
            unreachable!()
        };
        let held = self.standing.remove(place);
        let Err(place) = search(self.standing.as_slice(), &to) else {
            unreachable!()
        };
        let controls = held.controls;
        let _ = self.standing.insert(
            place,
            Held {
                holder: to,
                controls,
            },
        );
    }

    /// The first other holder that stands against what this one wants, and the lowest action on which it does.
    pub fn first_against(&self, holder: &Holder, wanted: &Controls) -> Option<(&Holder, Action)>
        ensures { option_map (λ found. record { holder = found.0.now; action = found.1 }) result ≡ conflict holder.now wanted.now self.now }
    {
        if self.standing.is_empty() {
            return None;
        }
        if !show_clash(&self.counts.numbers, wanted) {
            return None;
        }
        first_against(self.standing.as_slice(), holder, wanted)
    }

    fn replace(&mut self, place: usize, holder: &Holder, wanted: &Controls)
        requires { place_of holder.now self.old ≡ Ok place }
        ensures { self.new ≡ granted holder.now wanted.now self.old }
    {
        let held = self.standing[place].controls;
        self.standing[place].controls = *wanted;
        self.counts.take(&held);
        self.counts.add(wanted);
    }

    fn insert(
        &mut self,
        alloc: Global,
        place: usize,
        holder: &Holder,
        wanted: &Controls,
    ) -> Result<(), NoMemory>
        requires { place_of holder.now self.old ≡ Err place }
        ensures ok { OnOk result (self.new ≡ granted holder.now wanted.now self.old) }
        ensures err { OnErr result (self.new ≡ self.old) }
    {
        let holder = holder.copy(alloc)?;
        self.standing.insert(
            place,
            Held {
                holder,
                controls: *wanted,
            },
        )?;
        self.counts.add(wanted);
        Ok(())
    }

    fn remove(&mut self, place: usize, holder: &Holder)
        requires { place_of holder.now self.old ≡ Ok place }
        ensures { self.new ≡ others holder.now self.old }
    {
        let held = self.standing.remove(place);
        self.counts.take(&held.controls);
    }
}

/// The clash on the action with the holder, where there is memory to name it.
fn clash(alloc: Global, against: &Holder, action: Action) -> GrantError
    ensures { IsCause (Some (record { holder = against.now; action = action })) result }
{
    let Ok(holder) = against.copy(alloc) else {
        return GrantError::NoMemory;
    };
    GrantError::Clash(Conflict { holder, action })
}

fn copy_all(alloc: Global, standing: &[Held]) -> Result<Vec<Held>, NoMemory>
    ensures { IfOk result (λ made. made.items ≡ standing.now) }
{
    let mut made = Vec::with_capacity(alloc, standing.len())?;
    for held in standing {
        let held = held.copy(alloc)?;
        made.push(held)?;
    }
    Ok(made)
}
