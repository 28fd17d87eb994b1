//! What is found in user data.
ghost use Rattle.std.specs.Prelude.{◌≡◌, ◌++◌, [], ◌∷◌, OnErr, OnOk};
ghost use Rattle.vf_upper_grammar.specs.MarkViews.{mark_of, marks_of};

use crate::labels::{NameLabel, NumberLabel};
use std::alloc::Global;
use vf_base::{NoMemory, Oid};
use vf_ber::Value;

/// One of the things that are found, in the order of octets.
#[derive(Drop)]
pub enum Mark {
    Number { label: NumberLabel, n: i64 },
    Name { label: NameLabel, oid: Oid },
    Value { value: Value },
}

/// All that was found so far.
#[derive(Drop)]
pub struct Marks {
    pub items: Vec<Mark>,
}

impl Marks {
    pub fn new(alloc: Global) -> Marks
        ensures { marks_of result ≡ [] }
    {
        Marks {
            items: Vec::new(alloc),
        }
    }

    /// Puts a mark after the others; without memory the marks stay as they are.
    pub fn push(&mut self, mark: Mark) -> Result<(), NoMemory>
        ensures ok { OnOk result (marks_of self.new ≡ marks_of self.old ++ mark_of mark ∷ []) }
        ensures err { OnErr result (marks_of self.new ≡ marks_of self.old) }
    {
        self.items.push(mark)?;
        Ok(())
    }
}

/// Why a part isn't read to its end.
#[derive(Clone, Copy, PartialEq, Eq)]
pub enum Stop {
    /// A fault at this place.
    At(u32),
    NoMemory,
}

impl From<NoMemory> for Stop {
    ghost use Rattle.std.specs.Prelude.{◌≡◌};
    ghost use Rattle.vf_upper_grammar.specs.declared.marks.Stop.TheVariants as stops;

    ghost from_gives = { λ _ stop. stop ≡ stops.NoMemory };

    fn from(_error: NoMemory) -> Stop {
        Stop::NoMemory
    }
}
