//! What changes where a file is put in the place of the one that was.
ghost use Rattle.std.specs.Prelude.{◌≡◌, IfOk, true};
ghost use Rattle.std.specs.Cmp.Lexicographic.{pointwise};
ghost use Rattle.vf_attr.specs.Attributes.{are_same_attributes, attributes_of, is_same_contents, is_same_option, is_same_term as term_meant, is_same_text as text_meant};
ghost use Rattle.vf_filestore.specs.Changes.{is_same_file};
ghost use Rattle.vf_party_steps.specs.Files.{changes_of_file};
ghost use Rattle.vf_tree.specs.Same.{are_same_units};

use crate::step::one_change;
use std::alloc::Global;
use vf_attr::{File, Stamp};
use vf_base::{Contents, Name, NoMemory, Octets, Term};
use vf_tables::{Change, Changes};

/// The change by which a file stands in the place of another: of its attributes alone where the contents are equal, and
/// none where all is.
pub(crate) fn file_change(alloc: Global, before: &File, after: File) -> Result<Changes, NoMemory>
    ensures { IfOk result (λ changes. changes ≡ changes_of_file before.now after) }
{
    if !before.tree.has_same_units(&after.tree) {
        let changes = one_change(alloc, Change::PutFile { file: after })?;
        return Ok(changes);
    }
    let changes = attributes_change(alloc, before, after)?;
    Ok(changes)
}

/// The same of a file whose contents are known to be those that they were: they aren't compared, which takes time by each of
/// their octets.
pub(crate) fn attributes_change(
    alloc: Global,
    before: &File,
    after: File,
) -> Result<Changes, NoMemory>
    requires { are_same_units before.now.tree.units after.tree.units ≡ true }
    ensures { IfOk result (λ changes. changes ≡ changes_of_file before.now after) }
{
    if is_unchanged(before, &after) {
        return Ok(Changes::new(alloc));
    }
    let old = before.name.copy(alloc)?;
    let changes = one_change(alloc, attributes_put(old, after))?;
    Ok(changes)
}

/// Whether a file with the contents that it had is as it was.
fn is_unchanged(before: &File, after: &File) -> bool
    requires { are_same_units before.now.tree.units after.now.tree.units ≡ true }
    ensures { result ≡ is_same_file before.now after.now }
{
    before.name == after.name && have_same_attributes(before, after)
}

/// The change by which the file of this name has the name and the attributes of another.
fn attributes_put(old: Name, after: File) -> Change
    ensures { result ≡ Change.PutAttributes old after.name (attributes_of after) }
{
    let (name, attributes) = after.into_attributes();
    Change::PutAttributes {
        old,
        name,
        attributes,
    }
}

#[tactic(auto, unfolding(vf_attr::specs::Attributes::are_same_attributes))]
pub(crate) fn have_same_attributes(file: &File, other: &File) -> bool
    ensures { result ≡ are_same_attributes (attributes_of file.now) (attributes_of other.now) }
{
    file.version == other.version
        && file.permitted == other.permitted
        && is_same_type(&file.contents, &other.contents)
        && are_same_terms(file.terms.as_slice(), other.terms.as_slice())
        && file.created.is_same(&other.created)
        && is_same_stamp(&file.changed, &other.changed)
        && is_same_stamp(&file.modified, &other.modified)
        && is_same_stamp(&file.read, &other.read)
}

fn is_same_type(one: &Contents, other: &Contents) -> bool
    ensures { result ≡ is_same_contents one.now other.now }
{
    one.kind.arcs() == other.kind.arcs()
        && one.class == other.class
        && one.longest == other.longest
        && one.significance == other.significance
}

#[tactic(auto, using(vf_tree::proofs::EqualUnits::same))]
fn are_same_terms(terms: &[Term], others: &[Term]) -> bool
    ensures { result ≡ pointwise term_meant terms.now others.now }
{
    if terms.len() != others.len() {
        return false;
    }
    for (place, term) in terms.iter().enumerate() {
        if !is_same_term(term, &others[place]) {
            return false;
        }
    }
    true
}

fn is_same_term(term: &Term, other: &Term) -> bool
    ensures { result ≡ term_meant term.now other.now }
{
    is_same_name(&term.identity, &other.identity)
        && term.actions == other.actions
        && is_same_octets(&term.password, &other.password)
}

pub(crate) fn is_same_name(name: &Option<Name>, other: &Option<Name>) -> bool
    ensures { result ≡ text_meant name.now other.now }
{
    match (name, other) {
        (Some(name), Some(other)) => name == other,
        (None, None) => true,
        _ => false,
    }
}

pub(crate) fn is_same_octets(octets: &Option<Octets>, other: &Option<Octets>) -> bool
    ensures { result ≡ text_meant octets.now other.now }
{
    match (octets, other) {
        (Some(octets), Some(other)) => octets == other,
        (None, None) => true,
        _ => false,
    }
}

fn is_same_stamp(stamp: &Option<Stamp>, other: &Option<Stamp>) -> bool
    ensures { result ≡ is_same_option stamp.now other.now }
{
    match (stamp, other) {
        (Some(stamp), Some(other)) => stamp.is_same(other),
        (None, None) => true,
        _ => false,
    }
}
