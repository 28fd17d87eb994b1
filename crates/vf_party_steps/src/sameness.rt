//! Whether tables are equal in files and dockets: then no change leads from the one to the other (profile).
ghost use Rattle.std.specs.Prelude.{◌≡◌, ◌&&◌, not, if◌then◌else◌};
ghost use Rattle.std.specs.Cmp.Lexicographic.{pointwise};
ghost use Rattle.std.specs.List.{list_all};
ghost use Rattle.vf_filestore.specs.Changes.{is_same_file as file_meant};
ghost use Rattle.vf_party_steps.specs.Sameness.{are_same_pieces as pieces_meant, are_same_tables, is_same_docket as docket_meant, keeps_pieces as keeps_meant};

use crate::dockets::is_same;
use crate::files::have_same_attributes;
use vf_attr::File;
use vf_base::Elements;
use vf_tables::{Docket, Tables};
use vf_tree::is_same_unit;

/// Whether no change leads from the tables before to those after: whether they are equal in files and dockets. Contents are
/// looked at only where all else is equal.
pub fn are_same(before: &Tables, after: &Tables) -> bool
    ensures { result ≡ are_same_tables before.now after.now }
{
    are_same_dockets(before.dockets.as_slice(), after.dockets.as_slice())
        && are_same_files(before.files.as_slice(), after.files.as_slice())
        && keep_pieces(before, after.dockets.as_slice())
}

#[tactic(auto, using(vf_tree::proofs::EqualUnits::same))]
fn are_same_files(files: &[File], others: &[File]) -> bool
    ensures { result ≡ pointwise file_meant files.now others.now }
{
    if files.len() != others.len() {
        return false;
    }
    for (place, file) in files.iter().enumerate() {
        if !is_same_file(file, &others[place]) {
            return false;
        }
    }
    true
}

fn is_same_file(file: &File, other: &File) -> bool
    ensures { result ≡ file_meant file.now other.now }
{
    if !have_same_attributes(file, other) {
        return false;
    }
    file.name == other.name && file.tree.has_same_units(&other.tree)
}

#[tactic(auto, using(vf_tree::proofs::EqualUnits::same))]
fn are_same_dockets(dockets: &[Docket], others: &[Docket]) -> bool
    ensures { result ≡ pointwise docket_meant dockets.now others.now }
{
    if dockets.len() != others.len() {
        return false;
    }
    for (place, docket) in dockets.iter().enumerate() {
        if !is_same(&docket.regime, &others[place].regime) {
            return false;
        }
    }
    true
}

/// Whether each docket has the pieces that the one of its open had.
fn keep_pieces(before: &Tables, dockets: &[Docket]) -> bool
    ensures { result ≡ list_all (keeps_meant before.now.dockets) dockets.now }
{
    for docket in dockets {
        if !keeps_pieces(before, docket) {
            return false;
        }
    }
    true
}

fn keeps_pieces(before: &Tables, docket: &Docket) -> bool
    ensures { result ≡ keeps_meant before.now.dockets docket.now }
{
    let Some(standing) = before.docket(&docket.regime.identity, docket.regime.activity) else {
        return docket.staged.len() == 0;
    };
    are_same_pieces(standing.staged.as_slice(), docket.staged.as_slice())
}

#[tactic(auto, using(vf_tree::proofs::EqualUnits::same))]
fn are_same_pieces(pieces: &[Elements], others: &[Elements]) -> bool
    ensures { result ≡ pieces_meant pieces.now others.now }
{
    if pieces.len() != others.len() {
        return false;
    }
    for (place, piece) in pieces.iter().enumerate() {
        if !is_same_unit(piece.as_slice(), others[place].as_slice()) {
            return false;
        }
    }
    true
}
