//! Records and areas in their built form.
ghost use Rattle.std.specs.Prelude.{◌≡◌, ◌+◌, ◌≤◌, ◌++◌, IfOk, OnErr, OnOk, drop, length, take};
ghost use Rattle.vf_journal.specs.Layout.{length_octets};
ghost use Rattle.vf_journal.specs.Records.{IsArea, IsEntry, area_with, entry_of, longest};

use std::alloc::Global;
use vf_base::NoMemory;
use vf_disk::Parts;

/// A record in its built form, in which it is appended: its length in four octets, the record, and the octet 0. The
/// record has at most 4,294,967,295 octets.
#[tactic(auto, using(crate::proofs::Numbers::length_octets_are))]
pub fn built_entry(alloc: Global, item: &[u8]) -> Result<Parts, NoMemory>
    requires { length item.now ≤ longest }
    ensures octets { IfOk result (λ entry. entry.items ≡ entry_of item.now) }
    ensures form { IfOk result (λ entry. IsEntry entry.items) }
{
    let mut entry = Parts::with_capacity(alloc, item.len() + 5)?;
    entry.extend_from_slice(&(item.len() as u32).to_be_bytes())?;
    entry.extend_from_slice(item)?;
    entry.push(0)?;
    Ok(entry)
}

/// An area of one record in its built form, in which it is prepared: the octet 1, and the record in its built form.
#[tactic(auto, using(crate::proofs::Numbers::length_octets_are))]
pub fn built_area(alloc: Global, item: &[u8]) -> Result<Parts, NoMemory>
    requires { length item.now ≤ longest }
    ensures octets { IfOk result (λ area. area.items ≡ area_with item.now) }
    ensures form { IfOk result (λ area. IsArea area.items) }
{
    let mut area = Parts::with_capacity(alloc, item.len() + 6)?;
    area.push(1)?;
    area.extend_from_slice(&(item.len() as u32).to_be_bytes())?;
    area.extend_from_slice(item)?;
    area.push(0)?;
    Ok(area)
}

/// Ends a record that was put after four octets at a place, so that it stands there in its built form: its length takes
/// the place of these octets, and the octet 0 is put after it. A record has at most 4,294,967,295 octets: for a longer one
/// memory is wanting. Without memory nothing is changed.
#[tactic(auto, using(crate::proofs::Numbers::length_octets_are))]
pub fn end_record(octets: &mut Parts, at: usize) -> Result<(), NoMemory>
    requires { at + 4 ≤ length octets.old.items }
    ensures built { OnOk result (octets.new.items ≡ take at octets.old.items ++ entry_of (drop (at + 4) octets.old.items)) }
    ensures short { OnOk result (length (drop (at + 4) octets.old.items) ≤ longest) }
    ensures err { OnErr result (octets.new.items ≡ octets.old.items) }
{
    let Ok(count) = u32::try_from(octets.len() - at - 4) else {
        return Err(NoMemory);
    };
    octets.end(at, &count.to_be_bytes(), 0)?;
    Ok(())
}
