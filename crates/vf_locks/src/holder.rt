ghost use Rattle.std.specs.Prelude.{◌≡◌, IfOk};
ghost use Rattle.std.specs.Cmp.Lexicographic.{slice_cmp};
ghost use Rattle.std.specs.Ordering.{nat_cmp, ordering_then};
ghost use Rattle.vf_locks.specs.Holders.{holder_cmp, is_same as same_holder};

use std::alloc::Global;
use std::cmp::Ordering;
use vf_base::{Name, NoMemory};

/// Who has controls on a file: a party that has it selected, or the docket of a recoverable open of it (ISO 8571-2, concurrency control).
#[derive(Drop)]
pub enum Holder {
    /// The party of a link, by the link's number.
    Party { link: u32 },
    /// A docket, by its initiator's identity and the number of its activity.
    Docket { identity: Name, activity: u32 },
}

impl Holder {
    /// The same holder; a name's octets are shared.
    pub fn copy(&self, alloc: Global) -> Result<Holder, NoMemory>
        ensures { IfOk result (λ holder. holder ≡ self.now) }
    {
        match self {
            Holder::Party { link } => Ok(Holder::Party { link: *link }),
            Holder::Docket { identity, activity } => {
                let identity = identity.copy(alloc)?;
                Ok(Holder::Docket {
                    identity,
                    activity: *activity,
                })
            }
        }
    }

    /// The order of holders (profile): parties by rising link, then dockets by the octets of their identities and by activity.
    pub fn compare(&self, other: &Holder) -> Ordering
        ensures { result ≡ holder_cmp self.now other.now }
    {
        match (self, other) {
            (Holder::Party { link }, Holder::Party { link: second }) => link.cmp(second),
            (Holder::Party { .. }, Holder::Docket { .. }) => Ordering::Less,
            (Holder::Docket { .. }, Holder::Party { .. }) => Ordering::Greater,
            (
                Holder::Docket { identity, activity },
                Holder::Docket {
                    identity: second,
                    activity: later,
                },
            ) => compare_dockets(identity, *activity, second, *later),
        }
    }

    /// Whether the two are one holder.
    pub fn is_same(&self, other: &Holder) -> bool
        ensures { result ≡ same_holder self.now other.now }
    {
        self.compare(other).is_eq()
    }
}

fn compare_dockets(identity: &Name, activity: u32, second: &Name, later: u32) -> Ordering
    ensures { result ≡ ordering_then (slice_cmp nat_cmp identity.now second.now) (nat_cmp activity later) }
{
    let names = identity.as_slice().cmp(second.as_slice());
    names.then(activity.cmp(&later))
}
