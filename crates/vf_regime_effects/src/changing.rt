ghost use Rattle.std.specs.Prelude.{◌≡◌, IfOk, unwrap_or};
ghost use Rattle.vf_attr.specs.Change.{after_change};

use std::alloc::Global;
use vf_attr::{AttributeChange, File, Stamp};
use vf_base::NoMemory;

/// The file after a change of its attributes (ISO 8571-3, F-CHANGE-ATTRIB): each that has a new value, and the stamp of
/// the change, also where none has. Other attributes, which the profile doesn't have, aren't looked at.
pub fn changed(
    alloc: Global,
    file: &File,
    stamp: Stamp,
    change: AttributeChange,
) -> Result<File, NoMemory>
    ensures { IfOk result (λ after. after ≡ after_change file.now stamp change) }
{
    let mut after = file.copy(alloc)?;
    put(&mut after.name, change.name);
    put(&mut after.permitted, change.permitted);
    put(&mut after.terms, change.terms);
    after.changed = Some(stamp);
    Ok(after)
}

/// Puts a value in the place of another, where there is one.
fn put<T: Drop>(place: &mut T, value: Option<T>)
    ensures { place.new ≡ unwrap_or value place.old }
{
    if let Some(value) = value {
        *place = value;
    }
}
