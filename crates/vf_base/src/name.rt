ghost use Rattle.std.specs.Prelude.{◌≡◌, ◌↔◌, ◌⊎◌, IfOk, IfErr, IsErrOf, nat_eq};
ghost use Rattle.std.specs.List.{list_all};
ghost use Rattle.std.specs.Hash as fed;
ghost use Rattle.std.specs.Cmp.Lexicographic.{pointwise, nat_list_eq_equiv};
ghost use Rattle.std.specs.Cmp.{partial_equiv_from_equiv};
ghost use Rattle.std.specs.Cmp.Rules.{hashing};
ghost use Rattle.std.proofs.Common.{rules};
ghost use Rattle.vf_base.specs.Name.{IsName, is_name as name_test, is_printable};

use crate::{BaseError, NoMemory, Octets};
use std::alloc::Global;
use std::hash::{Hash, Hasher};
use std::marker::Model;

/// The name of a file, a user or a unit: 1 to 255 octets, each 0x20 to 0x7E (profile).
#[derive(Drop)]
pub struct Name {
    octets: Octets,
}

impl Model for Name {
    ghost use Rattle.std.specs.Prelude.{List, ℕ};
    ghost use Rattle.vf_base.specs.Name.{IsName};

    ghost Value = { List ℕ };

    ghost view = { λ name. name.octets };

    ghost invariant = { λ name. IsName name.octets };
}

impl Name {
    /// These octets as a name; `BadName` exactly where they are none.
    pub fn of(alloc: Global, octets: &[u8]) -> Result<Name, BaseError>
        ensures value { IfOk result (λ name. name ≡ octets.now) }
        ensures within { IfOk result (λ name. IsName name) }
        ensures bad { IsErrOf result BaseError.BadName ↔ (IsName octets.now → ⊥) }
        ensures others { IfErr result (λ error. (error ≡ BaseError.BadName) ⊎ (error ≡ BaseError.NoMemory)) }
    {
        if !is_name(octets) {
            return Err(BaseError::BadName);
        }
        let Ok(octets) = Octets::of(alloc, octets) else {
            return Err(BaseError::NoMemory);
        };
        Ok(Name { octets })
    }

    /// The same name; its octets are shared.
    pub fn copy(&self, alloc: Global) -> Result<Name, NoMemory>
        ensures { IfOk result (λ name. name ≡ self.now) }
    {
        let octets = self.octets.copy(alloc)?;
        Ok(Name { octets })
    }

    pub fn as_slice(&self) -> &[u8]
        ensures octets { result.now ≡ self.now }
        ensures within { IsName self.now }
    {
        self.octets.as_slice()
    }
}

fn is_name(octets: &[u8]) -> bool
    ensures { result ≡ name_test octets.now }
{
    if octets.is_empty() || octets.len() > 255 {
        return false;
    }
    all_printable(octets)
}

fn all_printable(octets: &[u8]) -> bool
    ensures { result ≡ list_all is_printable octets.now }
{
    octets.iter().all(|octet| (0x20..=0x7e).contains(octet))
}

impl PartialEq for Name {
    ghost eq = { pointwise nat_eq };

    ghost laws = { partial_equiv_from_equiv nat_list_eq_equiv };

    fn eq(&self, other: &Name) -> bool {
        self.as_slice() == other.as_slice()
    }
}

impl Eq for Name {
    ghost laws = { nat_list_eq_equiv };
}

impl Hash for Name {
    ghost hash_input = { fed.slice fed.u8 };

    ghost respects_eq = { Prim.search (hashing, rules) };

    fn hash<H: Hasher>(&self, state: &mut H) {
        self.as_slice().hash(state);
    }
}
