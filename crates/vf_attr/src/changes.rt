ghost use Rattle.std.specs.Prelude.{◌≡◌, ◌↔◌, ◌<◌, unwrap_or, IfOk, OnOk, OnErr, Err};
ghost use Rattle.vf_attr.specs.Change.{after_change};

use crate::{ChangeError, File, Stamp};
use std::alloc::Global;
use vf_base::{Actions, Moment, Name, NoMemory, Terms, copy_option};

/// What F-CHANGE-ATTRIB changes (ISO 8571-3): the new value of each attribute, where it has one.
#[derive(Drop)]
pub struct AttributeChange {
    pub name: Option<Name>,
    pub permitted: Option<Actions>,
    pub terms: Option<Terms>,
    /// 0, or which attributes else are to be changed.
    pub others: u16,
}

impl AttributeChange {
    /// The same change; the octets of its texts are shared.
    pub fn copy(&self, alloc: Global) -> Result<AttributeChange, NoMemory>
        ensures { IfOk result (λ change. change ≡ self.now) }
    {
        let name = copy_option(alloc, &self.name)?;
        let terms = copy_option(alloc, &self.terms)?;
        Ok(AttributeChange {
            name,
            permitted: self.permitted,
            terms,
            others: self.others,
        })
    }
}

/// Gives the attributes of a file new values, and sets its stamp of the last change, also where no attribute has a
/// new value. After an error the file is as before.
///
/// `Unsupported` exactly where the field `others` isn't 0.
pub fn change(
    alloc: Global,
    file: &mut File,
    who: &Name,
    moment: Moment,
    change: &AttributeChange,
) -> Result<(), ChangeError>
    ensures changed { OnOk result (file.new ≡ after_change file.old (record { moment = moment; identity = who.now }) change.now) }
    ensures unsupported { (result ≡ Err ChangeError.Unsupported) ↔ (0 < change.now.others) }
    ensures kept { OnErr result (file.new ≡ file.old) }
{
    if change.others != 0 {
        return Err(ChangeError::Unsupported);
    }
    let name = copy_option(alloc, &change.name)?;
    let terms = copy_option(alloc, &change.terms)?;
    let identity = who.copy(alloc)?;
    put(&mut file.name, name);
    put(&mut file.permitted, change.permitted);
    put(&mut file.terms, terms);
    file.changed = Some(Stamp { moment, identity });
    Ok(())
}

/// Puts a value in the place of another, where there is one.
fn put<T: Drop>(place: &mut T, value: Option<T>)
    ensures { place.new ≡ unwrap_or value place.old }
{
    if let Some(value) = value {
        *place = value;
    }
}
