//! Copies of parties, which share their octets: what is tried on a copy leaves the party as it was.
ghost use Rattle.std.specs.Prelude.{◌≡◌, IfOk};

use crate::Quiet;
use std::alloc::Global;
use vf_base::NoMemory;

impl Quiet {
    /// The same state; its octets are shared.
    pub(crate) fn copy(&self, alloc: Global) -> Result<Quiet, NoMemory>
        ensures { IfOk result (λ made. made ≡ self.now) }
    {
        match self {
            Quiet::Associated(associated) => {
                let associated = associated.copy(alloc)?;
                Ok(Quiet::Associated(associated))
            }
            Quiet::Selected(selected) => {
                let selected = selected.copy(alloc)?;
                Ok(Quiet::Selected(selected))
            }
            Quiet::Open(regimes) => {
                let regimes = regimes.copy(alloc)?;
                Ok(Quiet::Open(regimes))
            }
        }
    }
}
