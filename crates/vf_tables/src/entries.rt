ghost use Rattle.std.specs.Prelude.{◌≡◌, ◌++◌, ◌<◌, [], ◌∷◌, IfOk, IfSome, OnOk, OnErr, length, slice_get, option_copied, take};
ghost use Rattle.vf_tables.specs.Places.{dropped_at};

use std::alloc::Global;
use std::marker::Model;
use vf_base::{Duplicate, NoMemory};

/// What a filestore keeps of one sort, in the order in which it was made: a list that is changed in place. Places
/// count from 0.
#[derive(Drop)]
pub struct Entries<T> {
    pub(crate) items: Vec<T>,
}

impl<T> Model for Entries<T> {
    ghost use Rattle.std.specs.Prelude.{List};

    ghost Value = { List T };

    ghost view = { λ entries. entries.items.items };
}

impl<T> Entries<T> {
    /// No entries; the allocator is kept for those that come.
    pub fn new(alloc: Global) -> Entries<T>
        ensures { result ≡ [] }
    {
        Entries {
            items: Vec::new(alloc),
        }
    }

    pub fn len(&self) -> usize
        ensures { result ≡ length self.now }
    {
        self.items.len()
    }

    /// The entry at this place, which is absent exactly from the length on.
    pub fn get(&self, place: usize) -> Option<&T>
        ensures { option_copied result ≡ slice_get self.now place }
    {
        self.items.get(place)
    }

    pub fn as_slice(&self) -> &[T]
        ensures { result.now ≡ self.now }
    {
        self.items.as_slice()
    }
}

impl<T: Drop> Entries<T> {
    /// Puts an entry after the others; without memory the list stays as it is.
    pub fn push(&mut self, entry: T) -> Result<(), NoMemory>
        ensures ok { OnOk result (self.new ≡ self.old ++ entry ∷ []) }
        ensures err { OnErr result (self.new ≡ self.old) }
    {
        self.items.push(entry)?;
        Ok(())
    }

    /// Takes the entry at this place away, where there is one.
    pub(crate) fn drop_at(&mut self, place: Option<usize>)
        requires { IfSome place (λ place. place < length self.old) }
        ensures { self.new ≡ dropped_at place self.old }
    {
        if let Some(place) = place {
            self.items.remove(place);
        }
    }

    /// Takes the entries after so many away.
    pub(crate) fn truncate(&mut self, count: usize)
        ensures { self.new ≡ take count self.old }
    {
        self.items.truncate(count);
    }
}

impl<T: Duplicate> Entries<T> {
    /// Equal entries.
    pub fn copy(&self, alloc: Global) -> Result<Entries<T>, NoMemory>
        ensures { IfOk result (λ made. made ≡ self.now) }
    {
        let mut made = Entries::new(alloc);
        for entry in self.items.as_slice() {
            let entry = entry.duplicate(alloc)?;
            made.push(entry)?;
        }
        Ok(made)
    }
}
