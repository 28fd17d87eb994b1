ghost use Rattle.std.specs.Prelude.{◌≡◌, IfOk, map, pos};
ghost use Rattle.std.specs.Option.{option_map};
ghost use Rattle.vf_filestore.specs.Replies.{asked_for, asked_option as asked_option_meant, attributes_of as attributes_meant, grant_of, stamp_text};
ghost use Rattle.vf_tree.specs.FileTree.{octets_in};

use crate::numbers::is_asked;
use crate::room::octets_of;
use crate::stamps::{asked_option, asked_stamp};
use crate::terms::asked_terms;
use std::alloc::Global;
use vf_attr::File;
use vf_base::{Contents, Duplicate, Name, NoMemory};
use vf_pdu_parameters::{Attributes, Grants, Stamp};
use vf_tree::Tree;

// The attributes of a file by their numbers (ISO 8571-3, F-READ-ATTRIB; the numbers are profile).
const NAME: u16 = 1;

const PERMITTED: u16 = 2;

const CONTENTS: u16 = 4;

const TERMS: u16 = 8;

const CREATED: u16 = 16;

const MODIFIED: u16 = 32;

const READ: u16 = 64;

const CHANGED: u16 = 128;

const SIZE: u16 = 256;

/// The attributes of a file that are asked for and there (ISO 8571-3, F-READ-ATTRIB): `names` is the sum of their
/// numbers, and the other numbers in it aren't looked at. Stamps have dates as text, terms are without their passwords,
/// and the size is in octets. The octets of texts are shared.
pub fn attributes_of(alloc: Global, names: u16, file: &File) -> Result<Attributes, NoMemory>
    ensures { IfOk result (λ attributes. attributes ≡ attributes_meant names file.now) }
{
    let texts = asked_texts(alloc, names, file)?;
    match asked_stamps(alloc, names, file) {
        Ok(stamps) => Ok(Attributes {
            name: texts.name,
            permitted: asked_number(names, PERMITTED, i64::from(file.permitted.value)),
            contents: texts.contents,
            terms: texts.terms,
            created: stamps.created,
            modified: stamps.modified,
            read: stamps.read,
            changed: stamps.changed,
            size: asked_number(names, SIZE, size_of(&file.tree)),
        }),
        Err(error) => {
            drop(texts);
            Err(error)
        }
    }
}

/// What is asked for of a file's attributes that are neither numbers nor stamps.
#[derive(Drop)]
struct Texts {
    name: Option<Name>,
    contents: Option<Contents>,
    terms: Option<Grants>,
}

fn asked_texts(alloc: Global, names: u16, file: &File) -> Result<Texts, NoMemory>
    ensures name { IfOk result (λ texts. texts.name ≡ asked_for names 1 file.now.name) }
    ensures contents { IfOk result (λ texts. texts.contents ≡ asked_for names 4 file.now.contents) }
    ensures terms { IfOk result (λ texts. texts.terms ≡ asked_for names 8 (map grant_of file.now.terms)) }
{
    let name = asked(alloc, names, NAME, &file.name)?;
    let contents = asked(alloc, names, CONTENTS, &file.contents)?;
    let terms = asked_terms(alloc, names, TERMS, &file.terms)?;
    Ok(Texts {
        name,
        contents,
        terms,
    })
}

/// What is asked for of a file's stamps.
#[derive(Drop)]
struct Stamps {
    created: Option<Stamp>,
    modified: Option<Stamp>,
    read: Option<Stamp>,
    changed: Option<Stamp>,
}

fn asked_stamps(alloc: Global, names: u16, file: &File) -> Result<Stamps, NoMemory>
    ensures created { IfOk result (λ stamps. stamps.created ≡ asked_for names 16 (stamp_text file.now.created)) }
    ensures modified { IfOk result (λ stamps. stamps.modified ≡ asked_option_meant names 32 (option_map stamp_text file.now.modified)) }
    ensures read { IfOk result (λ stamps. stamps.read ≡ asked_option_meant names 64 (option_map stamp_text file.now.read)) }
    ensures changed { IfOk result (λ stamps. stamps.changed ≡ asked_option_meant names 128 (option_map stamp_text file.now.changed)) }
{
    let created = asked_stamp(alloc, names, CREATED, &file.created)?;
    let modified = asked_option(alloc, names, MODIFIED, &file.modified)?;
    let read = asked_option(alloc, names, READ, &file.read)?;
    let changed = asked_option(alloc, names, CHANGED, &file.changed)?;
    Ok(Stamps {
        created,
        modified,
        read,
        changed,
    })
}

/// A value, where its attribute is asked for.
fn asked<T: Duplicate>(
    alloc: Global,
    names: u16,
    number: u16,
    value: &T,
) -> Result<Option<T>, NoMemory>
    ensures { IfOk result (λ made. made ≡ asked_for names number value.now) }
{
    if !is_asked(names, number) {
        return Ok(None);
    }
    let made = value.duplicate(alloc)?;
    Ok(Some(made))
}

fn asked_number(names: u16, number: u16, value: i64) -> Option<i64>
    ensures { result ≡ asked_for names number value }
{
    if !is_asked(names, number) {
        return None;
    }
    Some(value)
}

/// The octets of all strings.
fn size_of(tree: &Tree) -> i64
    ensures { result ≡ pos (octets_in tree.now.units) }
{
    octets_of(tree) as i64
}
