//! Staged pieces, and what is in all of them.
ghost use Rattle.std.specs.Prelude.{◌≡◌, ◌+◌, ◌++◌, [], ◌∷◌, ℕ, IfOk, IfSome, OnErr, OnOk, drop, length, min, take};
ghost use Rattle.vf_tree.specs.FileTree.{octets_of_unit};
ghost use Rattle.vf_tables.specs.Sums.{elements_staged, octets_staged};

use crate::Entries;
use std::alloc::Global;
use std::marker::Model;
use vf_base::{Element, Elements, NoMemory};
use vf_tree::octets_of;

/// The staged pieces of a docket or a task, in their order, and how much is in all of them. Places count from 0.
#[derive(Drop)]
pub struct Pieces {
    pieces: Entries<Elements>,
    /// The octets of all strings, or the type's end where they are more.
    octets: u64,
    /// The elements of all pieces, or the type's end where they are more.
    elements: u64,
}

impl Model for Pieces {
    ghost use Rattle.std.specs.Prelude.{◌≡◌, List, min};
    ghost use Rattle.vf_base.specs.declared.element.Element.{Element};
    ghost use Rattle.vf_tables.specs.Sums.{elements_staged, octets_staged};

    ghost Value = { List (List Element) };

    ghost view = { λ staged. staged.pieces };

    ghost invariant = { λ staged. (staged.octets ≡ min (octets_staged staged.pieces) 18446744073709551615) × (staged.elements ≡ min (elements_staged staged.pieces) 18446744073709551615) };
}

impl Pieces {
    /// No pieces; the allocator is kept for those that come.
    pub fn new(alloc: Global) -> Pieces
        ensures { result ≡ [] }
    {
        Pieces {
            pieces: Entries::new(alloc),
            octets: 0,
            elements: 0,
        }
    }

    pub fn len(&self) -> usize
        ensures { result ≡ length self.now }
    {
        self.pieces.len()
    }

    pub fn as_slice(&self) -> &[Elements]
        ensures { result.now ≡ self.now }
    {
        self.pieces.as_slice()
    }

    /// The octets of all strings, or the type's end where they are more.
    pub fn octets(&self) -> u64
        ensures { result ≡ min (octets_staged self.now) 18446744073709551615 }
    {
        self.octets
    }

    /// The elements of all pieces, or the type's end where they are more.
    pub fn elements(&self) -> u64
        ensures { result ≡ min (elements_staged self.now) 18446744073709551615 }
    {
        self.elements
    }

    /// Puts a piece after the others; without memory the pieces stay as they are.
    pub fn push(&mut self, piece: Elements) -> Result<(), NoMemory>
        ensures ok { OnOk result (self.new ≡ self.old ++ piece ∷ []) }
        ensures err { OnErr result (self.new ≡ self.old) }
    {
        let octets = octets_of_piece(piece.as_slice());
        let elements = piece.len() as u64;
        self.pieces.push(piece)?;
        self.octets = self.octets.saturating_add(octets);
        self.elements = self.elements.saturating_add(elements);
        Ok(())
    }

    /// Takes the pieces after so many away.
    pub(crate) fn truncate(&mut self, count: usize)
        ensures { self.new ≡ take count self.old }
    {
        let gone = after(self.pieces.as_slice(), count);
        let octets = octets_of_pieces(gone);
        let elements = elements_of_pieces(gone);
        self.pieces.truncate(count);
        self.octets = octets_left(self.pieces.as_slice(), self.octets, octets);
        self.elements = elements_left(self.pieces.as_slice(), self.elements, elements);
    }

    /// Equal pieces; octets are shared.
    pub fn copy(&self, alloc: Global) -> Result<Pieces, NoMemory>
        ensures { IfOk result (λ made. made ≡ self.now) }
    {
        let pieces = self.pieces.copy(alloc)?;
        Ok(Pieces {
            pieces,
            octets: self.octets,
            elements: self.elements,
        })
    }
}

/// The pieces after so many.
fn after(pieces: &[Elements], count: usize) -> &[Elements]
    ensures { result.now ≡ drop count pieces.now }
{
    let (_, gone) = pieces.split_at(count.min(pieces.len()));
    gone
}

/// What is left of a sum, where neither it nor what went stands at its type's end.
fn left_of(sum: u64, gone: u64) -> Option<u64>
    ensures { (all less rest : ℕ) → sum ≡ min all 18446744073709551615 → gone ≡ min less 18446744073709551615 → rest + less ≡ all
        → IfSome result (λ left. left ≡ min rest 18446744073709551615) }
{
    if sum == u64::MAX {
        return None;
    }
    if sum < gone {
        return None;
    }
    Some(sum - gone)
}

/// The octets of the pieces that are left of those with this sum, where pieces with the other one went.
fn octets_left(pieces: &[Elements], sum: u64, gone: u64) -> u64
    requires { (all : ℕ) × (less : ℕ) × (sum ≡ min all 18446744073709551615) × (gone ≡ min less 18446744073709551615) × (octets_staged pieces.now + less ≡ all) }
    ensures { result ≡ min (octets_staged pieces.now) 18446744073709551615 }
{
    match left_of(sum, gone) {
        Some(left) => left,
        None => octets_of_pieces(pieces),
    }
}

/// The elements of the pieces that are left of those with this sum, where pieces with the other one went.
fn elements_left(pieces: &[Elements], sum: u64, gone: u64) -> u64
    requires { (all : ℕ) × (less : ℕ) × (sum ≡ min all 18446744073709551615) × (gone ≡ min less 18446744073709551615) × (elements_staged pieces.now + less ≡ all) }
    ensures { result ≡ min (elements_staged pieces.now) 18446744073709551615 }
{
    match left_of(sum, gone) {
        Some(left) => left,
        None => elements_of_pieces(pieces),
    }
}

/// The octets of a piece's strings, or the type's end where they are more.
fn octets_of_piece(piece: &[Element]) -> u64
    ensures { result ≡ min (octets_of_unit piece.now) 18446744073709551615 }
{
    let mut octets: u64 = 0;
    for element in piece {
        octets = octets.saturating_add(octets_of(element));
    }
    octets
}

/// The octets of all pieces, or the type's end where they are more.
fn octets_of_pieces(pieces: &[Elements]) -> u64
    ensures { result ≡ min (octets_staged pieces.now) 18446744073709551615 }
{
    let mut octets: u64 = 0;
    for piece in pieces {
        octets = octets.saturating_add(octets_of_piece(piece.as_slice()));
    }
    octets
}

/// The elements of all pieces, or the type's end where they are more.
fn elements_of_pieces(pieces: &[Elements]) -> u64
    ensures { result ≡ min (elements_staged pieces.now) 18446744073709551615 }
{
    let mut elements: u64 = 0;
    for piece in pieces {
        elements = elements.saturating_add(piece.len() as u64);
    }
    elements
}
