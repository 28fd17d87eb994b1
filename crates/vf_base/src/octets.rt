ghost use Rattle.std.specs.Prelude.{◌≡◌, ◌+◌, ◌≤◌, IfOk, drop, length, nat_eq, take};
ghost use Rattle.std.specs.Cmp.Lexicographic.{pointwise, nat_list_eq_equiv};
ghost use Rattle.std.specs.Cmp.{partial_equiv_from_equiv};
ghost use Rattle.std.specs.Rc.{rc_slice_items};

use crate::NoMemory;
use std::alloc::Global;
use std::marker::Model;
use std::rc::RcSlice;

/// So many octets and fewer stand in place.
const FEW: usize = 22;

/// Octets that never change. A few stand in place; more are all or some in turn of those that are kept, which they share: a
/// copy takes no octets along. There are fewer than 2^32: for more, memory is wanting.
pub struct Octets {
    held: Held,
}

// One call, however octets are held: the proofs of functions that drop many are shorter by it.
impl Drop for Octets {
    fn drop(self) {
        let Octets { held } = self;
        drop(held);
    }
}

#[derive(Drop)]
enum Held {
    /// The first so many of these.
    Few {
        len: u8,
        octets: [u8; FEW],
    },
    /// So many of those that are kept, from a place on.
    Part {
        start: u32,
        len: u32,
        kept: RcSlice<u8>,
    },
}

impl Model for Octets {
    ghost use Rattle.std.specs.Prelude.{List, ℕ};
    ghost use Rattle.vf_base.specs.Octets.{IsWithin, items};

    ghost Value = { List ℕ };

    ghost view = { λ octets. items octets.held };

    ghost invariant = { λ octets. IsWithin octets.held };
}

#[tactic(auto, using(crate::proofs::SliceLemmas::slices))]
impl Octets {
    /// These octets, copied once.
    pub fn of(alloc: Global, octets: &[u8]) -> Result<Octets, NoMemory>
        ensures { IfOk result (λ made. made ≡ octets.now) }
    {
        if octets.len() <= FEW {
            return Ok(few(octets));
        }
        let kept = RcSlice::from_slice(alloc, octets)?;
        all(kept)
    }

    /// The octets of a vector, which are copied only where they are few.
    pub fn from_vec(octets: Vec<u8>) -> Result<Octets, NoMemory>
        ensures { IfOk result (λ made. made ≡ octets.items) }
    {
        if octets.len() <= FEW {
            return Ok(few(octets.as_slice()));
        }
        let kept = RcSlice::from_vec(octets)?;
        all(kept)
    }

    /// The same octets, shared.
    pub fn copy(&self, _alloc: Global) -> Result<Octets, NoMemory>
        ensures { IfOk result (λ made. made ≡ self.now) }
    {
        let held = match &self.held {
            Held::Few { len, octets } => Held::Few {
                len: *len,
                octets: *octets,
            },
            Held::Part { start, len, kept } => Held::Part {
                start: *start,
                len: *len,
                kept: kept.clone()?,
            },
        };
        Ok(Octets { held })
    }

    /// So many of these octets from a place on. Unless they are few, they are shared: all of them are kept as long as the
    /// part is.
    pub fn slice(&self, start: usize, len: usize) -> Result<Octets, NoMemory>
        requires { start + len ≤ length self.now }
        ensures { IfOk result (λ made. made ≡ take len (drop start self.now)) }
    {
        if len <= FEW {
            let (_, rest) = self.as_slice().split_at(start);
            let (part, _) = rest.split_at(len);
            return Ok(few(part));
        }
        match &self.held {
            Held::Few { .. } => unreachable!(),
            Held::Part {
                start: first,
                kept,
                ..
            } => {
                let held = Held::Part {
                    start: *first + start as u32,
                    len: len as u32,
                    kept: kept.clone()?,
                };
                Ok(Octets { held })
            }
        }
    }

    pub fn as_slice(&self) -> &[u8]
        ensures { result.now ≡ self.now }
    {
        match &self.held {
            Held::Few { len, octets } => {
                let (octets, _) = octets.split_at(*len as usize);
                octets
            }
            Held::Part { start, len, kept } => {
                let (_, octets) = kept.as_slice().split_at(*start as usize);
                let (octets, _) = octets.split_at(*len as usize);
                octets
            }
        }
    }

    pub fn len(&self) -> usize
        ensures { result ≡ length self.now }
    {
        match &self.held {
            Held::Few { len, .. } => *len as usize,
            Held::Part { len, .. } => *len as usize,
        }
    }

    pub fn is_empty(&self) -> bool
        ensures { result ≡ nat_eq (length self.now) 0 }
    {
        self.len() == 0
    }
}

/// A few octets in place.
fn few(octets: &[u8]) -> Octets
    requires { length octets.now ≤ 22 }
    ensures { result ≡ octets.now }
{
    let mut held = [0; FEW];
    let (first, _) = held.split_at_mut(octets.len());
    first.copy_from_slice(octets);
    Octets {
        held: Held::Few {
            len: octets.len() as u8,
            octets: held,
        },
    }
}

/// All of these octets.
#[tactic(auto, using(crate::proofs::SliceLemmas::slices))]
fn all(kept: RcSlice<u8>) -> Result<Octets, NoMemory>
    ensures { IfOk result (λ made. made ≡ rc_slice_items kept) }
{
    let Ok(len) = u32::try_from(kept.len()) else {
        return Err(NoMemory);
    };
    let held = Held::Part {
        start: 0,
        len,
        kept,
    };
    Ok(Octets { held })
}

impl PartialEq for Octets {
    ghost eq = { pointwise nat_eq };

    ghost laws = { partial_equiv_from_equiv nat_list_eq_equiv };

    fn eq(&self, other: &Octets) -> bool {
        self.as_slice() == other.as_slice()
    }
}

impl Eq for Octets {
    ghost laws = { nat_list_eq_equiv };
}
