ghost use Rattle.std.specs.Prelude.{◌≡◌, ◌<◌, ◌^◌, nat_eq, length, IfOk, OnOk, OnErr};
ghost use Rattle.std.specs.Option.{option_copied, option_map};
ghost use Rattle.vf_ber.specs.Tree.{count, joined, more, none, part_at, root};
ghost use Rattle.vf_ber.specs.Views.{tag_of, tree_of, trees_in};

use crate::Tag;
use std::alloc::Global;
use std::marker::Model;
use vf_base::{NoMemory, Octets};

/// A value: primitive with octets, or constructed of parts (ISO 8825, 8.1.4 and 8.1.2.5).
#[cycle(value)]
#[derive(Drop)]
pub enum Value {
    Plain { tag: Tag, octets: Octets },
    Built { tag: Tag, parts: Values },
}

/// A list of fewer than 2^32 values.
#[cycle(value)]
#[derive(Drop)]
pub struct Values {
    items: Vec<Value>,
}

impl Model for Values {
    ghost use Rattle.std.specs.Prelude.{◌<◌, ◌^◌, length};
    ghost use Rattle.vf_ber.specs.Tree.{Trees, nodes_in};
    ghost use Rattle.vf_ber.specs.Code.{trees_code};

    ghost Value = { Trees };

    ghost coded = { trees_code };

    ghost use Rattle.vf_ber.specs.Views.{trees_in};

    ghost view = { λ a. trees_in a.items.items };

    ghost invariant = { λ a. length a.items.items < 2 ^ 32 };

    ghost size = { nodes_in };

    ghost use Rattle.vf_ber.specs.Falls.{falls};

    ghost size_decreases = { λ a h. falls a.items.items };
}

impl Value {
    pub fn tag(&self) -> Tag
        ensures { tag_of result ≡ root (tree_of self.now) }
    {
        match self {
            Value::Plain { tag, .. } => *tag,
            Value::Built { tag, .. } => *tag,
        }
    }

    /// The same value; its octets are shared.
    #[cycle(copy)]
    pub fn copy(&self, alloc: Global) -> Result<Value, NoMemory>
        ensures { IfOk result (λ made. tree_of made ≡ tree_of self.now) }
    {
        match self {
            Value::Plain { tag, octets } => {
                let octets = octets.copy(alloc)?;
                Ok(Value::Plain { tag: *tag, octets })
            }
            Value::Built { tag, parts } => {
                let parts = parts.copy(alloc)?;
                Ok(Value::Built { tag: *tag, parts })
            }
        }
    }
}

#[tactic(auto, using(crate::proofs::Lists::lists))]
impl Values {
    pub fn new(alloc: Global) -> Values
        ensures { result ≡ none }
    {
        Values {
            items: Vec::new(alloc),
        }
    }

    /// Puts a value at the end. `NoMemory` also where 2^32 - 1 values are there.
    pub fn push(&mut self, value: Value) -> Result<(), NoMemory>
        ensures ok { OnOk result (self.new ≡ joined self.old (more (tree_of value) none)) }
        ensures err { OnErr result (self.new ≡ self.old) }
    {
        if self.items.len() >= 4_294_967_295 {
            return Err(NoMemory);
        }
        self.items.push(value)?;
        Ok(())
    }

    pub fn len(&self) -> usize
        ensures { result ≡ count self.now }
    {
        self.items.len()
    }

    pub fn is_empty(&self) -> bool
        ensures { result ≡ nat_eq (count self.now) 0 }
    {
        self.items.len() == 0
    }

    /// The value at a place, from 0 on.
    pub fn get(&self, place: usize) -> Option<&Value>
        ensures { option_map tree_of (option_copied result) ≡ part_at self.now place }
    {
        self.items.get(place)
    }

    pub fn as_slice(&self) -> &[Value]
        ensures values { trees_in result.now ≡ self.now }
        ensures within { length result.now < 2 ^ 32 }
    {
        self.items.as_slice()
    }

    /// The same values; their octets are shared.
    #[cycle(copy)]
    pub fn copy(&self, alloc: Global) -> Result<Values, NoMemory>
        ensures { IfOk result (λ made. made ≡ self.now) }
    {
        let mut made = Values::new(alloc);
        for value in self.as_slice() {
            let value = value.copy(alloc)?;
            made.push(value)?;
        }
        Ok(made)
    }
}
