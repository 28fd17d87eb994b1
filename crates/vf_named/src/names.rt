//! The names of entries, by which their places are found.
ghost use Rattle.std.specs.Prelude.{◌≡◌, ◌<◌, ◌++◌, [], ◌∷◌, ℕ, List, true, false, IfOk, OnErr, OnOk, length, nat_eq, slice_set};
ghost use Rattle.std.specs.Cmp.Lexicographic.{pointwise};
ghost use Rattle.std.specs.List.{IsDistinct, list_any, position, remove};
ghost use Rattle.vf_named.specs.Names.{AreNames};

use indexmap::IndexSet;
use std::alloc::Global;
use vf_base::{Name, NoMemory};

/// The names of entries in their order, kept as long as no two are equal.
#[derive(Drop)]
pub(crate) struct Names {
    by_name: IndexSet<Name>,
    are_kept: bool,
    alloc: Global,
}

impl Names {
    /// No names; the allocator is kept for those that come.
    pub(crate) fn new(alloc: Global) -> Names
        ensures { AreNames result [] }
    {
        Names {
            by_name: IndexSet::new(alloc),
            are_kept: true,
            alloc,
        }
    }

    /// Whether they are kept. No two of those in the set are equal.
    pub(crate) fn has_all(&self) -> bool
        ensures kept { result ≡ self.now.are_kept }
        ensures differ { IsDistinct (pointwise nat_eq) self.now.by_name.keys }
    {
        // `len` says that no two are equal.
        let _len = self.by_name.len();
        self.are_kept
    }

    /// The place of a name in the set.
    pub(crate) fn place_of(&self, name: &Name) -> Option<usize>
        ensures { result ≡ position (pointwise nat_eq name.now) self.now.by_name.keys }
    {
        self.by_name.get_index_of(name)
    }

    /// Puts a name after the others.
    pub(crate) fn push(&mut self, name: &Name) -> Result<(), NoMemory>
        ensures ok { (names : List (List ℕ)) → AreNames self.old names → OnOk result (AreNames self.new (names ++ name.now ∷ [])) }
        ensures err { (names : List (List ℕ)) → AreNames self.old names → OnErr result (AreNames self.new names) }
    {
        if !self.are_kept {
            return Ok(());
        }
        let name = name.copy(self.alloc)?;
        self.are_kept = insert(&mut self.by_name, name)?;
        Ok(())
    }

    /// Puts a name in the place of another.
    pub(crate) fn replace(&mut self, place: usize, name: &Name) -> Result<(), NoMemory>
        requires { self.old.are_kept ≡ true → place < length self.old.by_name.keys }
        ensures ok { (names : List (List ℕ)) → AreNames self.old names → OnOk result (AreNames self.new (slice_set names place name.now)) }
        ensures err { (names : List (List ℕ)) → AreNames self.old names → OnErr result (AreNames self.new names) }
    {
        if !self.are_kept {
            return Ok(());
        }
        let name = name.copy(self.alloc)?;
        self.are_kept = rename(&mut self.by_name, place, name)?;
        Ok(())
    }

    /// Takes the name at this place away.
    pub(crate) fn remove(&mut self, place: usize)
        ensures { (names : List (List ℕ)) → AreNames self.old names → AreNames self.new (remove names place) }
    {
        let _ = self.by_name.shift_remove_index(place);
    }
}

/// Puts a name after the others; `false` where it is one of them.
fn insert(by_name: &mut IndexSet<Name>, name: Name) -> Result<bool, NoMemory>
    ensures ok { IfOk result (λ is_new. is_new ≡ true → by_name.new.keys ≡ by_name.old.keys ++ name ∷ []) }
    ensures err { OnErr result (by_name.new.keys ≡ by_name.old.keys) }
{
    let is_new = by_name.insert(name)?;
    Ok(is_new)
}

/// Puts a name in the place of another; `false` where it stands at another place already.
fn rename(by_name: &mut IndexSet<Name>, place: usize, name: Name) -> Result<bool, NoMemory>
    requires { place < length by_name.old.keys }
    ensures ok { IfOk result (λ differ. differ ≡ true → by_name.new.keys ≡ slice_set by_name.old.keys place name) }
    ensures err { OnErr result (by_name.new.keys ≡ by_name.old.keys) }
{
    let Some(there) = by_name.get_index_of(&name) else {
        swap_in(by_name, place, name)?;
        return Ok(true);
    };
    if there != place {
        return Ok(false);
    }
    Ok(true)
}

/// Puts a name that isn't there in the place of another: after all others, and then to this place.
fn swap_in(by_name: &mut IndexSet<Name>, place: usize, name: Name) -> Result<(), NoMemory>
    requires within { place < length by_name.old.keys }
    requires new { list_any (pointwise nat_eq name) by_name.old.keys ≡ false }
    ensures ok { OnOk result (by_name.new.keys ≡ slice_set by_name.old.keys place name) }
    ensures err { OnErr result (by_name.new.keys ≡ by_name.old.keys) }
{
    by_name.insert(name)?;
    let _ = by_name.swap_remove_index(place);
    Ok(())
}
