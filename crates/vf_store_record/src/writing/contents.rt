//! Files, put after the octets that stand: their units as lists of strings.
ghost use Rattle.std.specs.Prelude.{ℕ, [], OnOk};
ghost use Rattle.vf_store_record.specs.Entries.{octets_of as octets_meant, string_in, unit_in, units_in};
ghost use Rattle.vf_store_record.specs.Fields.{string as string_format};
ghost use Rattle.vf_store_record.specs.Records.{file as file_format};
ghost use Rattle.vf_store_record.specs.Writing.{AreStrings, AreUnits, IsShortList, IsString, IsWholeFile, Writes};

use super::fields::{put_count, put_name, put_string};
use super::files::put_attributes_of;
use vf_attr::File;
use vf_base::{Contents, DataUnit, Element, NoMemory};
use vf_disk::Parts;

/// The octets of an element that has no string.
fn put_no_string(out: &mut Parts) -> Result<(), NoMemory>
    ensures { OnOk result (Writes string_format [] (IsShortList {A = ℕ} []) out.old.items out.new.items) }
{
    put_count(0, out)?;
    Ok(())
}

fn put_octets_of(element: &Element, out: &mut Parts) -> Result<(), NoMemory>
    ensures { OnOk result (Writes string_format (octets_meant element.now) (IsShortList (octets_meant element.now)) out.old.items out.new.items) }
{
    match element {
        Element::Text { octets, .. } => put_string(octets, out),
        Element::Binary { octets } => put_string(octets, out),
        Element::Descriptor { .. } => put_no_string(out),
        Element::Enter => put_no_string(out),
        Element::Exit => put_no_string(out),
    }
}

/// The string of an element.
fn put_string_of(contents: &Contents, element: &Element, out: &mut Parts) -> Result<(), NoMemory>
    ensures { OnOk result (Writes (string_in contents.now) element.now (IsString contents.now element.now) out.old.items out.new.items) }
{
    let _ = contents;
    put_octets_of(element, out)?;
    Ok(())
}

fn put_unit(contents: &Contents, unit: &[Element], out: &mut Parts) -> Result<(), NoMemory>
    ensures { OnOk result (Writes (unit_in contents.now) unit.now (AreStrings contents.now unit.now) out.old.items out.new.items) }
{
    put_count(unit.len(), out)?;
    for element in unit {
        put_string_of(contents, element, out)?;
    }
    Ok(())
}

fn put_units(contents: &Contents, units: &[DataUnit], out: &mut Parts) -> Result<(), NoMemory>
    ensures { OnOk result (Writes (units_in contents.now) units.now (AreUnits contents.now units.now) out.old.items out.new.items) }
{
    put_count(units.len(), out)?;
    for unit in units {
        put_unit(contents, unit.as_slice(), out)?;
    }
    Ok(())
}

pub(crate) fn put_file(file: &File, out: &mut Parts) -> Result<(), NoMemory>
    ensures { OnOk result (Writes file_format file.now (IsWholeFile file.now) out.old.items out.new.items) }
{
    put_name(&file.name, out)?;
    put_attributes_of(file, out)?;
    put_units(&file.contents, file.tree.units(), out)?;
    Ok(())
}
