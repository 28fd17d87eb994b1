//! Attributes of files, put after the octets that stand.
ghost use Rattle.std.specs.Prelude.{◌≡◌, true, OnOk};
ghost use Rattle.vf_attr.specs.Attributes.{attributes_of};
ghost use Rattle.vf_store_record.specs.Entries.{attributes as attributes_format, contents as contents_format, settings as settings_format, stamps as stamps_format};
ghost use Rattle.vf_store_record.specs.Fields.{terms as terms_format};
ghost use Rattle.vf_store_record.specs.Writing.{Always, AreSettings, AreTerms, Writes};
ghost use Rattle.vf_tables.specs.Fitting.{has_kind};

use super::fields::{
    put_actions, put_count, put_octet, put_optional_stamp, put_stamp, put_term, put_u32,
};
use crate::contents::kind_number;
use vf_attr::{Attributes, File, Stamp};
use vf_base::{Actions, Contents, NoMemory, Term, Terms};
use vf_disk::Parts;

/// A contents type, which of FTAM-1, FTAM-2 and FTAM-3 is spelled by its number.
fn put_contents(contents: &Contents, out: &mut Parts) -> Result<(), NoMemory>
    ensures { OnOk result (Writes contents_format contents.now (has_kind contents.now ≡ true) out.old.items out.new.items) }
{
    put_octet(kind_number(contents), out)?;
    put_octet(contents.class, out)?;
    put_u32(contents.longest, out)?;
    put_octet(contents.significance, out)?;
    Ok(())
}

fn put_terms(terms: &[Term], out: &mut Parts) -> Result<(), NoMemory>
    ensures { OnOk result (Writes terms_format terms.now (AreTerms terms.now) out.old.items out.new.items) }
{
    put_count(terms.len(), out)?;
    for term in terms {
        put_term(term, out)?;
    }
    Ok(())
}

fn put_settings(
    permitted: Actions,
    contents: &Contents,
    terms: &Terms,
    out: &mut Parts,
) -> Result<(), NoMemory>
    ensures { OnOk result (Writes settings_format (record { permitted = permitted; contents = contents.now; terms = terms.now }) (AreSettings contents.now terms.now) out.old.items out.new.items) }
{
    put_actions(permitted, out)?;
    put_contents(contents, out)?;
    put_terms(terms.as_slice(), out)?;
    Ok(())
}

fn put_stamps(
    created: &Stamp,
    modified: &Option<Stamp>,
    read: &Option<Stamp>,
    changed: &Option<Stamp>,
    out: &mut Parts,
) -> Result<(), NoMemory>
    ensures { OnOk result (Writes stamps_format (record { created = created.now; modified = modified.now; read = read.now; changed = changed.now }) Always out.old.items out.new.items) }
{
    put_stamp(created, out)?;
    put_optional_stamp(modified, out)?;
    put_optional_stamp(read, out)?;
    put_optional_stamp(changed, out)?;
    Ok(())
}

pub(crate) fn put_attributes(attributes: &Attributes, out: &mut Parts) -> Result<(), NoMemory>
    ensures { OnOk result (Writes attributes_format attributes.now (AreSettings attributes.now.contents attributes.now.terms) out.old.items out.new.items) }
{
    put_settings(
        attributes.permitted,
        &attributes.contents,
        &attributes.terms,
        out,
    )?;
    put_stamps(
        &attributes.created,
        &attributes.modified,
        &attributes.read,
        &attributes.changed,
        out,
    )?;
    put_u32(attributes.version, out)?;
    Ok(())
}

/// The attributes of a file, without its name.
pub(crate) fn put_attributes_of(file: &File, out: &mut Parts) -> Result<(), NoMemory>
    ensures { OnOk result (Writes attributes_format (attributes_of file.now) (AreSettings file.now.contents file.now.terms) out.old.items out.new.items) }
{
    put_settings(file.permitted, &file.contents, &file.terms, out)?;
    put_stamps(
        &file.created,
        &file.modified,
        &file.read,
        &file.changed,
        out,
    )?;
    put_u32(file.version, out)?;
    Ok(())
}
