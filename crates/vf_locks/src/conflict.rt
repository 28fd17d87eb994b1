ghost use Rattle.std.specs.Prelude.{◌≡◌, IfOk};

use crate::Holder;
use std::alloc::Global;
use vf_base::{Action, NoMemory};

/// What stands against a request: a holder, and an action on which its control and the one that is wanted clash.
#[derive(Drop)]
pub struct Conflict {
    pub holder: Holder,
    pub action: Action,
}

impl Conflict {
    /// The same conflict; a name's octets are shared.
    pub fn copy(&self, alloc: Global) -> Result<Conflict, NoMemory>
        ensures { IfOk result (λ conflict. conflict ≡ self.now) }
    {
        let holder = self.holder.copy(alloc)?;
        Ok(Conflict {
            holder,
            action: self.action,
        })
    }
}

/// Why controls are not granted.
#[derive(Drop)]
pub enum GrantError {
    /// Another holder of the file stands against them: the first one that does, and the lowest such action.
    Clash(Conflict),
    /// Memory is wanting.
    NoMemory,
}

impl GrantError {
    /// The same cause; a name's octets are shared.
    pub fn copy(&self, alloc: Global) -> Result<GrantError, NoMemory>
        ensures { IfOk result (λ error. error ≡ self.now) }
    {
        match self {
            GrantError::Clash(conflict) => {
                let conflict = conflict.copy(alloc)?;
                Ok(GrantError::Clash(conflict))
            }
            GrantError::NoMemory => Ok(GrantError::NoMemory),
        }
    }
}

impl From<NoMemory> for GrantError {
    ghost use Rattle.std.specs.Prelude.{◌≡◌};
    ghost use Rattle.vf_locks.specs.declared.conflict.GrantError.TheVariants as errors;

    ghost from_gives = { λ _ error. error ≡ errors.NoMemory };

    fn from(_error: NoMemory) -> GrantError {
        GrantError::NoMemory
    }
}
