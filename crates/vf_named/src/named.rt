ghost use Rattle.std.specs.Prelude.{◌≡◌, ◌++◌, ◌<◌, [], ◌∷◌, IfOk, IsTrue, OnErr, OnOk, find, length, map, nat_eq, option_copied, slice_get, slice_set, vec_capacity, vec_len};
ghost use Rattle.std.specs.Cmp.Lexicographic.{pointwise};
ghost use Rattle.std.specs.List.{IsDistinct, position, remove};

use crate::names::Names;
use std::alloc::Global;
use std::marker::Model;
use vf_base::{Duplicate, Name, NoMemory};

/// What has a name.
pub trait HasName {
    ghost use Rattle.std.specs.Prelude.{List, ℕ};

    /// The octets of the name.
    ghost name_of: { Self → List ℕ };

    fn name(&self) -> &Name
        ensures { result.now ≡ name_of self.now };
}

/// A list of what has names, in the order in which it was made, which is changed in place. As long as no two names are
/// equal, an entry is found by its name in a time that doesn't grow with the list. Places count from 0.
pub struct Named<T: HasName> {
    items: Vec<T>,
    names: Names,
}

impl<T: HasName + Drop> Drop for Named<T> {
    fn drop(self) {
        let Named { items, names } = self;
        drop(items);
        drop(names);
    }
}

impl<T: HasName> Model for Named<T> {
    ghost use Rattle.std.specs.Prelude.{List, map};
    ghost use Rattle.vf_named.specs.Names.{AreNames};

    ghost Value = { List T };

    ghost view = { λ named. named.items.items };

    ghost invariant = { λ named. AreNames named.names (map T.name_of named.items.items) };
}

impl<T: HasName> Named<T> {
    /// No entries; the allocator is kept for those that come.
    pub fn new(alloc: Global) -> Named<T>
        ensures { result ≡ [] }
    {
        Named {
            items: Vec::new(alloc),
            names: Names::new(alloc),
        }
    }

    pub fn len(&self) -> usize
        ensures { result ≡ length self.now }
    {
        self.items.len()
    }

    /// The entry at this place, which is absent exactly from the length on.
    pub fn get(&self, place: usize) -> Option<&T>
        ensures { option_copied result ≡ slice_get self.now place }
    {
        self.items.get(place)
    }

    pub fn as_slice(&self) -> &[T]
        ensures { result.now ≡ self.now }
    {
        self.items.as_slice()
    }

    /// The place of the first entry of this name; `None` exactly where there is none.
    pub fn place_of(&self, name: &Name) -> Option<usize>
        ensures { result ≡ position (λ entry. pointwise nat_eq name.now (T.name_of entry)) self.now }
    {
        if self.names.has_all() {
            return self.names.place_of(name);
        }
        place_among(self.items.as_slice(), name)
    }

    /// The first entry of this name; `None` exactly where there is none.
    pub fn with_name(&self, name: &Name) -> Option<&T>
        ensures { option_copied result ≡ find (λ entry. pointwise nat_eq name.now (T.name_of entry)) self.now }
    {
        let Some(place) = self.place_of(name) else {
            return None;
        };
        self.get(place)
    }

    /// Whether no two names are known to be equal. Then no two are.
    pub fn are_distinct(&self) -> bool
        ensures { IsTrue result → IsDistinct (pointwise nat_eq) (map T.name_of self.now) }
    {
        self.names.has_all()
    }
}

impl<T: HasName + Drop> Named<T> {
    /// Puts an entry after the others; without memory the list stays as it is.
    pub fn push(&mut self, entry: T) -> Result<(), NoMemory>
        ensures ok { OnOk result (self.new ≡ self.old ++ entry ∷ []) }
        ensures err { OnErr result (self.new ≡ self.old) }
    {
        self.items.reserve(1)?;
        self.names.push(entry.name())?;
        put_last(&mut self.items, entry);
        Ok(())
    }

    /// Puts an entry in the place of another; without memory the list stays as it is.
    pub fn replace(&mut self, place: usize, entry: T) -> Result<(), NoMemory>
        requires { place < length self.old }
        ensures ok { OnOk result (self.new ≡ slice_set self.old place entry) }
        ensures err { OnErr result (self.new ≡ self.old) }
    {
        self.names.replace(place, entry.name())?;
        self.items[place] = entry;
        Ok(())
    }

    /// Takes the entry at this place away; those after it keep their order.
    pub fn remove(&mut self, place: usize)
        requires { place < length self.old }
        ensures { self.new ≡ remove self.old place }
    {
        self.names.remove(place);
        self.items.remove(place);
    }
}

impl<T: HasName + Duplicate> Named<T> {
    /// Equal entries.
    pub fn copy(&self, alloc: Global) -> Result<Named<T>, NoMemory>
        ensures { IfOk result (λ made. made ≡ self.now) }
    {
        let mut made = Named::new(alloc);
        for entry in self.items.as_slice() {
            let entry = entry.duplicate(alloc)?;
            made.push(entry)?;
        }
        Ok(made)
    }
}

/// Puts an entry, for which there is room, after the others.
fn put_last<T: Drop>(items: &mut Vec<T>, entry: T)
    requires { vec_len items.old < vec_capacity items.old }
    ensures { items.new.items ≡ items.old.items ++ entry ∷ [] }
{
    let Ok(()) = items.push(entry) else {
        unreachable!()
    };
}

fn has_name<T: HasName>(entry: &T, name: &Name) -> bool
    ensures { result ≡ pointwise nat_eq name.now (T.name_of entry.now) }
{
    *name == *entry.name()
}

/// The place of the first of these entries that has this name.
fn place_among<T: HasName>(entries: &[T], name: &Name) -> Option<usize>
    ensures { result ≡ position (λ entry. pointwise nat_eq name.now (T.name_of entry)) entries.now }
{
    entries.iter().position(|entry| has_name(entry, name))
}
