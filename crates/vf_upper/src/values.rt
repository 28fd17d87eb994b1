ghost use Rattle.std.specs.Prelude.{◌≡◌, ◌++◌, [], ◌∷◌, IfOk, OnOk, OnErr, length, map, slice_get};
ghost use Rattle.std.specs.Option.{option_copied, option_map};
ghost use Rattle.vf_upper.specs.Carried.{carried_of};

use std::alloc::Global;
use std::marker::Model;
use vf_base::NoMemory;
use vf_ber::Value;

/// A value and the identifier of the presentation context that it stands in.
#[derive(Drop)]
pub struct CarriedValue {
    pub context: i64,
    pub value: Value,
}

impl CarriedValue {
    /// An equal value in the same context; its octets are shared.
    pub fn copy(&self, alloc: Global) -> Result<CarriedValue, NoMemory>
        ensures { IfOk result (λ made. carried_of made ≡ carried_of self.now) }
    {
        let value = self.value.copy(alloc)?;
        Ok(CarriedValue {
            context: self.context,
            value,
        })
    }
}

/// The values that user data carry, in order, seen as their trees and contexts.
#[derive(Drop)]
pub struct CarriedValues {
    items: Vec<CarriedValue>,
}

impl Model for CarriedValues {
    ghost use Rattle.std.specs.Prelude.{List, map};
    ghost use Rattle.std.specs.Coded.{coded_list};
    ghost use Rattle.vf_upper.specs.CarriedCode.{Carried, carried_code};

    ghost Value = { List Carried };

    ghost coded = { coded_list carried_code };

    ghost use Rattle.vf_upper.specs.Carried.{carried_of};

    ghost view = { λ values. map carried_of values.items.items };
}

impl CarriedValues {
    /// No values; the list keeps the allocator for what is pushed.
    pub fn new(alloc: Global) -> CarriedValues
        ensures { result ≡ [] }
    {
        CarriedValues {
            items: Vec::new(alloc),
        }
    }

    /// Puts a value after the others; without memory the list stays as it is.
    pub fn push(&mut self, value: CarriedValue) -> Result<(), NoMemory>
        ensures ok { OnOk result (self.new ≡ self.old ++ carried_of value ∷ []) }
        ensures err { OnErr result (self.new ≡ self.old) }
    {
        self.items.push(value)?;
        Ok(())
    }

    pub fn len(&self) -> usize
        ensures { result ≡ length self.now }
    {
        self.items.len()
    }

    /// The value at this place, which is absent exactly from the length on.
    pub fn get(&self, place: usize) -> Option<&CarriedValue>
        ensures { option_map carried_of (option_copied result) ≡ slice_get self.now place }
    {
        self.items.get(place)
    }

    pub fn as_slice(&self) -> &[CarriedValue]
        ensures { map carried_of result.now ≡ self.now }
    {
        self.items.as_slice()
    }

    /// An equal list; the octets of its values are shared.
    pub fn copy(&self, alloc: Global) -> Result<CarriedValues, NoMemory>
        ensures { IfOk result (λ made. made ≡ self.now) }
    {
        let mut made = CarriedValues::new(alloc);
        for value in self.items.as_slice() {
            let value = value.copy(alloc)?;
            made.push(value)?;
        }
        Ok(made)
    }
}
