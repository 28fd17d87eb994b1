//! What a get has received, in the pieces in which it is kept.
ghost use Rattle.std.specs.Prelude.{◌≡◌, ◌+◌, ◌<◌, ◌≤◌, ◌++◌, [], ◌∷◌, IfOk, IsFalse, IsTrue, length, min, nat_lt, slice_get, take};
ghost use Rattle.vf_tree.specs.FileTree.{octets_of_unit};
ghost use Rattle.vf_initiator.specs.Gathering.{AreMarks, IsBack, IsOther, after_marks, all_of, by_marks, common, cut_to, end_of, has_room as room_meant, kept_by, kept_whole, marked, started};

use crate::given::append;
use std::alloc::Global;
use std::marker::Model;
use vf_base::{Element, Elements, MOST_STRING_OCTETS, NoMemory, Sequence};
use vf_tree::{MOST_FILE_OCTETS, MOST_FILE_PARTS, is_same_unit, octets_of};

/// So many pieces can be kept, which is more than there are checkpoints.
const MOST_PIECES: usize = 4_294_967_294;

/// The elements of a get: pieces, each of which a checkpoint or the end of the data has ended, and those after the last
/// piece. Seen so; places count from 0.
pub(crate) struct Gathered {
    elements: Elements,
    /// For each piece, how many elements stand before its end.
    marks: Vec<usize>,
    /// The octets of all strings, or the type's end where they are more.
    octets: u64,
    /// So many pieces are the same as at `mark`, from the first one on.
    standing: usize,
    /// The pieces at `mark`, once some of them were cut; empty as long as none was.
    before: Vec<Elements>,
}

impl Drop for Gathered {
    fn drop(self) {
        let Gathered {
            elements,
            marks,
            octets: _,
            standing: _,
            before,
        } = self;
        drop(elements);
        drop(marks);
        drop(before);
    }
}

impl Model for Gathered {
    ghost use Rattle.vf_initiator.specs.Gathering.{AreMarks, Gathering, after_marks, by_marks, common, kept_by};
    ghost use Rattle.std.specs.Prelude.{◌≡◌, ◌<◌, ◌≤◌, length, min};
    ghost use Rattle.vf_tree.specs.FileTree.{octets_of_unit};

    ghost Value = { Gathering };

    ghost view = { λ g. record { pieces = by_marks 0 g.marks.items g.elements; fresh = after_marks 0 g.marks.items g.elements; kept = kept_by g.before.items g.standing (by_marks 0 g.marks.items g.elements) } };

    ghost invariant = { λ g. (AreMarks 0 g.marks.items g.elements) × (length g.marks.items < 4294967295) × (g.standing ≤ length g.marks.items) × (common (kept_by g.before.items g.standing (by_marks 0 g.marks.items g.elements)) (by_marks 0 g.marks.items g.elements) ≡ g.standing) × (g.octets ≡ min (octets_of_unit g.elements) 18446744073709551615) };
}

#[tactic(auto, using(crate::proofs::Marks::marks))]
impl Gathered {
    /// These pieces.
    pub(crate) fn of(alloc: Global, pieces: &[Elements]) -> Result<Gathered, NoMemory>
        ensures { IfOk result (λ made. made ≡ started pieces.now) }
    {
        let mut made = Gathered {
            elements: Sequence::new(alloc),
            marks: Vec::new(alloc),
            octets: 0,
            standing: 0,
            before: Vec::new(alloc),
        };
        for piece in pieces {
            made.values(alloc, piece.as_slice())?;
            made.keep()?;
        }
        made.mark();
        Ok(made)
    }

    /// All elements in their order.
    pub(crate) fn elements(&self) -> &Elements
        ensures { result.now ≡ all_of self.now }
    {
        &self.elements
    }

    /// How many pieces there are.
    pub(crate) fn pieces(&self) -> usize
        ensures count { result ≡ length self.now.pieces }
        ensures few { result < 4294967295 }
    {
        self.marks.len()
    }

    /// How many of the pieces are the same as at `mark`, from the first one on.
    pub(crate) fn standing(&self) -> usize
        ensures count { result ≡ common self.now.kept self.now.pieces }
        ensures few { result < 4294967295 }
    {
        self.standing
    }

    /// There were more pieces at `mark` than are the same.
    pub(crate) fn is_cut(&self) -> bool
        ensures { result ≡ nat_lt (common self.now.kept self.now.pieces) (length self.now.kept) }
    {
        self.standing < self.before.len()
    }

    /// A copy of a piece; its octets are shared.
    pub(crate) fn piece(&self, alloc: Global, place: usize) -> Result<Elements, NoMemory>
        requires { place < length self.now.pieces }
        ensures { IfOk result (λ made. slice_get self.now.pieces place ≡ Some made) }
    {
        piece_of(
            alloc,
            self.elements.as_slice(),
            self.marks.as_slice(),
            place,
        )
    }

    /// Whether all elements are within a file with this one, and this one's string is not too long (profile).
    pub(crate) fn has_room(&self, element: &Element) -> bool
        ensures { result ≡ room_meant self.now element.now }
    {
        let octets = octets_of(element);
        octets <= u64::from(MOST_STRING_OCTETS)
            && self.octets.saturating_add(octets) <= MOST_FILE_OCTETS
            && self.elements.len() < MOST_FILE_PARTS as usize
    }

    /// Takes an element.
    pub(crate) fn value(&mut self, element: Element) -> Result<(), NoMemory>
        ensures { IfOk result (λ done. self.new ≡ record self.old { fresh = self.old.fresh ++ element ∷ [] }) }
    {
        let octets = octets_of(&element);
        self.elements.push(element)?;
        self.octets = self.octets.saturating_add(octets);
        Ok(())
    }

    /// Takes copies of elements.
    fn values(&mut self, alloc: Global, elements: &[Element]) -> Result<(), NoMemory>
        ensures { IfOk result (λ done. self.new ≡ record self.old { fresh = self.old.fresh ++ elements.now }) }
    {
        for element in elements {
            let element = element.copy(alloc)?;
            self.value(element)?;
        }
        Ok(())
    }

    /// Makes a piece of the elements after the last one. There are fewer than 2^32 - 1: for more, memory is wanting.
    pub(crate) fn keep(&mut self) -> Result<(), NoMemory>
        ensures { IfOk result (λ done. self.new ≡ kept_whole self.old) }
    {
        if self.marks.len() >= MOST_PIECES {
            return Err(NoMemory);
        }
        let (all, marks) = (self.elements.as_slice(), self.marks.as_slice());
        let is_back = is_back(all, marks, self.standing, self.before.as_slice());
        self.marks.push(self.elements.len())?;
        if is_back {
            self.standing += 1;
        }
        Ok(())
    }

    /// Keeps so many pieces, and nothing after them.
    #[tactic(auto, using(crate::proofs::Marks::marks, crate::proofs::Cuts::cuts))]
    pub(crate) fn cut(&mut self, alloc: Global, pieces: usize) -> Result<(), NoMemory>
        ensures { IfOk result (λ done. self.new ≡ cut_to pieces self.old) }
    {
        let pieces = pieces.min(self.pieces());
        let (all, marks) = (self.elements.as_slice(), self.marks.as_slice());
        let before = kept_pieces(alloc, all, marks, self.standing, self.before.as_slice())?;
        let elements = first_of(alloc, all, marks, pieces)?;
        self.octets = octets_of_all(elements.as_slice());
        self.before = before;
        self.elements = elements;
        self.marks.truncate(pieces);
        self.standing = self.standing.min(pieces);
        Ok(())
    }

    /// The pieces are kept as they are.
    pub(crate) fn mark(&mut self)
        ensures { self.new ≡ marked self.old }
    {
        self.standing = self.pieces();
        self.before.clear();
    }
}

/// How many elements stand before the end of so many pieces with these marks.
#[tactic(auto, using(crate::proofs::Cuts::cuts))]
fn before(marks: &[usize], pieces: usize) -> usize
    requires { pieces ≤ length marks.now }
    ensures { result ≡ end_of 0 pieces marks.now }
{
    if pieces == 0 {
        return 0;
    }
    marks[pieces - 1]
}

/// A copy of a piece of elements with these marks.
#[tactic(auto, using(crate::proofs::Cuts::cuts))]
fn piece_of(
    alloc: Global,
    elements: &[Element],
    marks: &[usize],
    place: usize,
) -> Result<Elements, NoMemory>
    requires there { place + 1 ≤ length marks.now }
    requires marks { AreMarks 0 marks.now elements.now }
    ensures { IfOk result (λ made. slice_get (by_marks 0 marks.now elements.now) place ≡ Some made) }
{
    let start = before(marks, place);
    let (front, _) = elements.split_at(before(marks, place + 1));
    let (_, piece) = front.split_at(start);
    let mut made = Sequence::new(alloc);
    append(alloc, piece, &mut made)?;
    Ok(made)
}

/// Copies of the elements of so many pieces with these marks.
#[tactic(auto, using(crate::proofs::Cuts::cuts))]
fn first_of(
    alloc: Global,
    elements: &[Element],
    marks: &[usize],
    pieces: usize,
) -> Result<Elements, NoMemory>
    requires within { pieces ≤ length marks.now }
    requires marks { AreMarks 0 marks.now elements.now }
    ensures { IfOk result (λ made. made ≡ take (end_of 0 pieces marks.now) elements.now) }
{
    let (first, _) = elements.split_at(before(marks, pieces));
    let mut made = Sequence::new(alloc);
    append(alloc, first, &mut made)?;
    Ok(made)
}

/// The elements after all pieces with these marks are the piece that stood in their place at the last mark, and so many
/// pieces before it are the same.
#[tactic(auto, using(crate::proofs::Cuts::cuts))]
fn is_back(elements: &[Element], marks: &[usize], standing: usize, aside: &[Elements]) -> bool
    requires within { standing ≤ length marks.now }
    requires marks { AreMarks 0 marks.now elements.now }
    requires same { common (kept_by aside.now standing (by_marks 0 marks.now elements.now)) (by_marks 0 marks.now elements.now) ≡ standing }
    ensures back { IsTrue result → IsBack aside.now standing (by_marks 0 marks.now elements.now) (after_marks 0 marks.now elements.now) }
    ensures other { IsFalse result → IsOther aside.now standing (by_marks 0 marks.now elements.now) (after_marks 0 marks.now elements.now) }
{
    if standing != marks.len() {
        return false;
    }
    let Some(piece) = aside.get(standing) else {
        return false;
    };
    let (_, fresh) = elements.split_at(before(marks, marks.len()));
    is_same_unit(piece.as_slice(), fresh)
}

/// Copies of the pieces at the last mark: of those that were put aside, or else of so many with these marks.
fn kept_pieces(
    alloc: Global,
    elements: &[Element],
    marks: &[usize],
    standing: usize,
    aside: &[Elements],
) -> Result<Vec<Elements>, NoMemory>
    requires within { standing ≤ length marks.now }
    requires marks { AreMarks 0 marks.now elements.now }
    ensures { IfOk result (λ made. made.items ≡ kept_by aside.now standing (by_marks 0 marks.now elements.now)) }
{
    if aside.is_empty() {
        return first_pieces(alloc, elements, marks, standing);
    }
    let mut made = Vec::new(alloc);
    for piece in aside {
        made.push(piece.copy(alloc)?)?;
    }
    Ok(made)
}

/// Copies of so many pieces with these marks.
#[tactic(auto, using(crate::proofs::Marks::marks))]
fn first_pieces(
    alloc: Global,
    elements: &[Element],
    marks: &[usize],
    pieces: usize,
) -> Result<Vec<Elements>, NoMemory>
    requires within { pieces ≤ length marks.now }
    requires marks { AreMarks 0 marks.now elements.now }
    ensures { IfOk result (λ made. made.items ≡ take pieces (by_marks 0 marks.now elements.now)) }
{
    let mut made = Vec::new(alloc);
    for place in 0..pieces {
        made.push(piece_of(alloc, elements, marks, place)?)?;
    }
    Ok(made)
}

/// The octets of all strings, or the type's end where they are more.
fn octets_of_all(elements: &[Element]) -> u64
    ensures { result ≡ min (octets_of_unit elements.now) 18446744073709551615 }
{
    let mut octets: u64 = 0;
    for element in elements {
        octets = octets.saturating_add(octets_of(element));
    }
    octets
}
