ghost use Rattle.std.specs.Prelude.{◌≡◌, ◌<◌, IfOk, length, vec_capacity};

use std::alloc::Global;
use vf_base::{NoMemory, Octets};

/// A call that a disk in memory keeps: one that changes what a crash may leave. A write or a cut that failed is kept
/// too.
#[derive(Drop)]
pub enum Step {
    /// These octets at a place.
    Wrote { at: u64, octets: Octets, good: bool },
    /// The disk was cut to this length.
    CutTo { length: u64, good: bool },
    /// A sync that succeeded.
    Synced,
}

impl Step {
    /// An equal call; its octets are shared.
    pub fn copy(&self, alloc: Global) -> Result<Step, NoMemory>
        ensures { IfOk result (λ step. step ≡ self.now) }
    {
        match self {
            Step::Wrote { at, octets, good } => {
                let octets = octets.copy(alloc)?;
                Ok(Step::Wrote {
                    at: *at,
                    octets,
                    good: *good,
                })
            }
            Step::CutTo { length, good } => Ok(Step::CutTo {
                length: *length,
                good: *good,
            }),
            Step::Synced => Ok(Step::Synced),
        }
    }
}

/// The same calls, with room for one more.
pub(crate) fn copy_steps(alloc: Global, steps: &[Step]) -> Result<Vec<Step>, NoMemory>
    ensures steps { IfOk result (λ made. made.items ≡ steps.now) }
    ensures room { IfOk result (λ made. length steps.now < vec_capacity made) }
{
    let mut made = Vec::with_capacity(alloc, steps.len() + 1)?;
    for step in steps {
        let step = step.copy(alloc)?;
        made.push(step)?;
    }
    Ok(made)
}
