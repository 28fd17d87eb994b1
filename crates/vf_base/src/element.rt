ghost use Rattle.std.specs.Prelude.{◌≡◌, IfOk};

use crate::{Duplicate, Name, NoMemory, Octets, copy_option};
use std::alloc::Global;

/// A data element of a transfer (ISO 8571-2, file model): the octets of a string, or structure around strings.
#[derive(Drop)]
pub enum Element {
    /// A FADU begins, with its name, and with a data unit where it is filled.
    Descriptor { name: Option<Name>, filled: bool },
    /// The children of a FADU begin.
    Enter,
    /// The children of a FADU end.
    Exit,
    /// A character string of a universal class.
    Text { class: u8, octets: Octets },
    /// An octet string.
    Binary { octets: Octets },
}

impl Element {
    /// The same element; the octets of its string are shared.
    pub fn copy(&self, alloc: Global) -> Result<Element, NoMemory>
        ensures { IfOk result (λ made. made ≡ self.now) }
    {
        match self {
            Element::Descriptor { name, filled } => {
                let name = copy_option(alloc, name)?;
                Ok(Element::Descriptor {
                    name,
                    filled: *filled,
                })
            }
            Element::Enter => Ok(Element::Enter),
            Element::Exit => Ok(Element::Exit),
            Element::Text { class, octets } => {
                let octets = octets.copy(alloc)?;
                Ok(Element::Text {
                    class: *class,
                    octets,
                })
            }
            Element::Binary { octets } => {
                let octets = octets.copy(alloc)?;
                Ok(Element::Binary { octets })
            }
        }
    }
}

impl Duplicate for Element {
    fn duplicate(&self, alloc: Global) -> Result<Element, NoMemory> {
        let made = self.copy(alloc)?;
        Ok(made)
    }
}
