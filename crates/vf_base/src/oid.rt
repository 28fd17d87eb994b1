ghost use Rattle.std.specs.Prelude.{◌≡◌, ◌↔◌, ◌⊎◌, IfOk, IfErr, IsErrOf};
ghost use Rattle.std.specs.List.{list_all};
ghost use Rattle.vf_base.specs.Oid.{IsOid, is_arc, is_oid as oid_test, is_root};

use crate::{BaseError, NoMemory};
use std::alloc::Global;
use std::marker::Model;
use std::rc::RcSlice;

/// An object identifier of 2 to 16 arcs, seen as the list of its arcs (ISO 8824; the limits are profile).
#[derive(Drop)]
pub struct Oid {
    arcs: RcSlice<u32>,
}

impl Model for Oid {
    ghost use Rattle.std.specs.Prelude.{List, ℕ};
    ghost use Rattle.std.specs.Rc.{rc_slice_items};
    ghost use Rattle.vf_base.specs.Oid.{IsOid};

    ghost Value = { List ℕ };

    ghost view = { λ oid. rc_slice_items oid.arcs };

    ghost invariant = { λ oid. IsOid (rc_slice_items oid.arcs) };
}

impl Oid {
    /// These arcs as an object identifier; `BadOid` exactly where they are none.
    pub fn of(alloc: Global, arcs: &[u32]) -> Result<Oid, BaseError>
        ensures value { IfOk result (λ oid. oid ≡ arcs.now) }
        ensures within { IfOk result (λ oid. IsOid oid) }
        ensures bad { IsErrOf result BaseError.BadOid ↔ (IsOid arcs.now → ⊥) }
        ensures others { IfErr result (λ error. (error ≡ BaseError.BadOid) ⊎ (error ≡ BaseError.NoMemory)) }
    {
        if !is_oid(arcs) {
            return Err(BaseError::BadOid);
        }
        let Ok(arcs) = RcSlice::from_slice(alloc, arcs) else {
            return Err(BaseError::NoMemory);
        };
        Ok(Oid { arcs })
    }

    /// The same object identifier; its arcs are shared.
    pub fn copy(&self, _alloc: Global) -> Result<Oid, NoMemory>
        ensures { IfOk result (λ oid. oid ≡ self.now) }
    {
        let arcs = self.arcs.clone()?;
        Ok(Oid { arcs })
    }

    /// The arcs, from the root on.
    pub fn arcs(&self) -> &[u32]
        ensures arcs { result.now ≡ self.now }
        ensures within { IsOid self.now }
    {
        self.arcs.as_slice()
    }
}

fn is_oid(arcs: &[u32]) -> bool
    ensures { result ≡ oid_test arcs.now }
{
    if arcs.len() > 16 || !has_root(arcs) {
        return false;
    }
    all_small(arcs)
}

fn all_small(arcs: &[u32]) -> bool
    ensures { result ≡ list_all is_arc arcs.now }
{
    arcs.iter().all(|&arc| arc <= 268_435_455)
}

/// The first two arcs are in their ranges.
fn has_root(arcs: &[u32]) -> bool
    ensures { result ≡ is_root arcs.now }
{
    match arcs {
        [first, second, ..] => *first <= 2 && (*first == 2 || *second <= 39),
        _ => false,
    }
}
