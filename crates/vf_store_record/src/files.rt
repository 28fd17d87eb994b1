//! Attributes and contents of files in a record.
ghost use Rattle.std.specs.Prelude.{◌≡◌, IfOk};
ghost use Rattle.vf_doctype.specs.DocumentTypes.{entry as entry_meant};
ghost use Rattle.vf_store_record.specs.Entries.{attributes, attributes_from, contents, kind, kind_named as kind_meant, settings, stamps};
ghost use Rattle.vf_store_record.specs.Fields.{number32, term, terms};
ghost use Rattle.vf_store_record.specs.Formats.{both, repeated_read};
ghost use Rattle.vf_store_record.specs.Reading.{Gives};

use crate::fields::{actions_at, octet_at, optional_stamp_at, stamp_at, term_at, u32_at};
use crate::{ReadError, Rest};
use std::alloc::Global;
use vf_attr::{Attributes, Stamp};
use vf_base::{Actions, Contents, NoMemory, Oid, Sequence, Terms};

/// What is set at the creation or by a change of attributes.
pub(crate) struct Settings {
    pub(crate) permitted: Actions,
    pub(crate) contents: Contents,
    pub(crate) terms: Terms,
}

impl Drop for Settings {
    fn drop(self) {
        let Settings {
            permitted: _,
            contents,
            terms,
        } = self;
        drop(contents);
        drop(terms);
    }
}

impl Settings {
    /// All of a file's attributes.
    fn with(self, past: Past) -> Attributes
        ensures { result ≡ attributes_from (self, (past.stamps, past.version)) }
    {
        let Settings {
            permitted,
            contents,
            terms,
        } = self;
        Attributes {
            permitted,
            contents,
            terms,
            created: past.stamps.created,
            modified: past.stamps.modified,
            read: past.stamps.read,
            changed: past.stamps.changed,
            version: past.version,
        }
    }
}

/// When something was done to the file, and by whom.
#[derive(Drop)]
pub(crate) struct Stamps {
    pub(crate) created: Stamp,
    pub(crate) modified: Option<Stamp>,
    pub(crate) read: Option<Stamp>,
    pub(crate) changed: Option<Stamp>,
}

/// What was done to the file, and its version.
#[derive(Drop)]
struct Past {
    stamps: Stamps,
    version: u32,
}

/// The object identifier of the document type of this number, up to 3.
fn entry(alloc: Global, number: u32) -> Result<Oid, NoMemory>
    ensures { IfOk result (λ kind. kind ≡ entry_meant number) }
{
    match Oid::of(alloc, &[1, 0, 8571, 5, number]) {
        Ok(kind) => Ok(kind),
        Err(_) => Err(NoMemory),
    }
}

fn kind_named(alloc: Global, number: u8) -> Result<Oid, ReadError>
    ensures { Gives (λ kind. kind) result (kind_meant number) }
{
    match number {
        1 => Ok(entry(alloc, 1)?),
        2 => Ok(entry(alloc, 2)?),
        3 => Ok(entry(alloc, 3)?),
        _ => Err(ReadError::Foreign),
    }
}

#[tactic(auto, unfolding(crate::specs::Entries::kind))]
fn kind_at(alloc: Global, rest: &mut Rest<'_>) -> Result<Oid, ReadError>
    ensures { Gives (λ found. (found, rest.new)) result (kind.read rest.old) }
{
    let number = octet_at(rest)?;
    let kind = kind_named(alloc, number)?;
    Ok(kind)
}

#[tactic(auto, unfolding(crate::specs::Entries::contents))]
fn contents_at(alloc: Global, rest: &mut Rest<'_>) -> Result<Contents, ReadError>
    ensures { Gives (λ found. (found, rest.new)) result (contents.read rest.old) }
{
    let kind = kind_at(alloc, rest)?;
    let class = octet_at(rest)?;
    let longest = u32_at(rest)?;
    let significance = octet_at(rest)?;
    Ok(Contents {
        kind,
        class,
        longest,
        significance,
    })
}

fn terms_of(alloc: Global, count: u32, rest: &mut Rest<'_>) -> Result<Terms, ReadError>
    ensures { Gives (λ found. (found, rest.new)) result (repeated_read term count rest.old) }
{
    let mut terms = Sequence::new(alloc);
    for _ in 0..count {
        let term = term_at(alloc, rest)?;
        terms.push(term)?;
    }
    Ok(terms)
}

#[tactic(auto, unfolding(crate::specs::Fields::terms, crate::specs::Fields::number32))]
fn terms_at(alloc: Global, rest: &mut Rest<'_>) -> Result<Terms, ReadError>
    ensures { Gives (λ found. (found, rest.new)) result (terms.read rest.old) }
{
    let count = u32_at(rest)?;
    terms_of(alloc, count, rest)
}

#[tactic(auto, unfolding(crate::specs::Entries::settings))]
fn settings_at(alloc: Global, rest: &mut Rest<'_>) -> Result<Settings, ReadError>
    ensures { Gives (λ found. (found, rest.new)) result (settings.read rest.old) }
{
    let permitted = actions_at(rest)?;
    let contents = contents_at(alloc, rest)?;
    let terms = terms_at(alloc, rest)?;
    Ok(Settings {
        permitted,
        contents,
        terms,
    })
}

#[tactic(auto, unfolding(crate::specs::Entries::stamps))]
fn stamps_at(alloc: Global, rest: &mut Rest<'_>) -> Result<Stamps, ReadError>
    ensures { Gives (λ found. (found, rest.new)) result (stamps.read rest.old) }
{
    let created = stamp_at(alloc, rest)?;
    let modified = optional_stamp_at(alloc, rest)?;
    let read = optional_stamp_at(alloc, rest)?;
    let changed = optional_stamp_at(alloc, rest)?;
    Ok(Stamps {
        created,
        modified,
        read,
        changed,
    })
}

fn past_at(alloc: Global, rest: &mut Rest<'_>) -> Result<Past, ReadError>
    ensures { Gives (λ past. ((past.stamps, past.version), rest.new)) result ((both stamps number32).read rest.old) }
{
    let stamps = stamps_at(alloc, rest)?;
    let version = u32_at(rest)?;
    Ok(Past { stamps, version })
}

#[tactic(auto, unfolding(crate::specs::Entries::attributes))]
pub(crate) fn attributes_at(alloc: Global, rest: &mut Rest<'_>) -> Result<Attributes, ReadError>
    ensures { Gives (λ found. (found, rest.new)) result (attributes.read rest.old) }
{
    let settings = settings_at(alloc, rest)?;
    let past = past_at(alloc, rest)?;
    Ok(settings.with(past))
}
