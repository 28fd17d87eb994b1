ghost use Rattle.std.specs.Prelude.{◌≡◌, ◌++◌, [], ◌∷◌, IfOk, OnOk, OnErr, length, slice_get};
ghost use Rattle.std.specs.Option.{option_copied};

use std::alloc::Global;
use std::marker::Model;
use vf_base::NoMemory;

/// The results of proposals, in their order: true where a context was accepted.
#[derive(Drop)]
pub struct Results {
    items: Vec<bool>,
}

impl Model for Results {
    ghost use Rattle.std.specs.Prelude.{List, Bool};

    ghost Value = { List Bool };

    ghost view = { λ results. results.items.items };
}

impl Results {
    /// No results; the list keeps the allocator for what is pushed.
    pub fn new(alloc: Global) -> Results
        ensures { result ≡ [] }
    {
        Results {
            items: Vec::new(alloc),
        }
    }

    /// Puts a result after the others; without memory the list stays as it is.
    pub fn push(&mut self, accepted: bool) -> Result<(), NoMemory>
        ensures ok { OnOk result (self.new ≡ self.old ++ accepted ∷ []) }
        ensures err { OnErr result (self.new ≡ self.old) }
    {
        self.items.push(accepted)?;
        Ok(())
    }

    pub fn len(&self) -> usize
        ensures { result ≡ length self.now }
    {
        self.items.len()
    }

    /// The result at this place, which is absent exactly from the length on.
    pub fn get(&self, place: usize) -> Option<&bool>
        ensures { option_copied result ≡ slice_get self.now place }
    {
        self.items.get(place)
    }

    pub fn as_slice(&self) -> &[bool]
        ensures { result.now ≡ self.now }
    {
        self.items.as_slice()
    }

    /// An equal list.
    pub fn copy(&self, alloc: Global) -> Result<Results, NoMemory>
        ensures { IfOk result (λ made. made ≡ self.now) }
    {
        let items = self.items.as_slice().to_vec(alloc)?;
        Ok(Results { items })
    }
}
