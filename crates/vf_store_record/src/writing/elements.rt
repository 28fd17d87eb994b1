//! Users and data elements, put after the octets that stand.
ghost use Rattle.std.specs.Prelude.{◌≡◌, true, OnOk};
ghost use Rattle.vf_store_record.specs.Entries.{descriptor as descriptor_format, element as element_format, elements as elements_format, user as user_format};
ghost use Rattle.vf_store_record.specs.Writing.{Always, AreElements, IsElement, Writes};
ghost use Rattle.vf_tables.specs.Fitting.{is_short};

use super::fields::{
    put_count, put_name, put_octet, put_optional_name, put_optional_text, put_string, put_truth,
};
use vf_base::{Element, Name, NoMemory};
use vf_disk::Parts;
use vf_tables::User;

pub(crate) fn put_user(user: &User, out: &mut Parts) -> Result<(), NoMemory>
    ensures { OnOk result (Writes user_format user.now (is_short user.now.password ≡ true) out.old.items out.new.items) }
{
    put_name(&user.identity, out)?;
    put_optional_text(&user.password, out)?;
    Ok(())
}

fn put_descriptor(name: &Option<Name>, filled: bool, out: &mut Parts) -> Result<(), NoMemory>
    ensures { OnOk result (Writes descriptor_format (name.now, filled) Always out.old.items out.new.items) }
{
    put_optional_name(name, out)?;
    put_truth(filled, out)?;
    Ok(())
}

fn put_element(element: &Element, out: &mut Parts) -> Result<(), NoMemory>
    ensures { OnOk result (Writes element_format element.now (IsElement element.now) out.old.items out.new.items) }
{
    match element {
        Element::Descriptor { name, filled } => {
            put_octet(0, out)?;
            put_descriptor(name, *filled, out)?;
        }
        Element::Enter => put_octet(1, out)?,
        Element::Exit => put_octet(2, out)?,
        Element::Text { class, octets } => {
            put_octet(*class, out)?;
            put_string(octets, out)?;
        }
        Element::Binary { octets } => {
            put_octet(4, out)?;
            put_string(octets, out)?;
        }
    }
    Ok(())
}

pub(crate) fn put_elements(elements: &[Element], out: &mut Parts) -> Result<(), NoMemory>
    ensures { OnOk result (Writes elements_format elements.now (AreElements elements.now) out.old.items out.new.items) }
{
    put_count(elements.len(), out)?;
    for element in elements {
        put_element(element, out)?;
    }
    Ok(())
}
