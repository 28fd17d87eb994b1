ghost use Rattle.std.specs.Prelude.{◌≡◌, IfOk};

use crate::{Actions, Duplicate, Name, NoMemory, Octets, copy_option};
use std::alloc::Global;

/// A term of an access control list (ISO 8571-2, access control attribute): who may do what.
#[derive(Drop)]
pub struct Term {
    /// Whom it speaks of; everybody where it is absent.
    pub identity: Option<Name>,
    /// What it grants.
    pub actions: Actions,
    /// What has to be given; nothing where it is absent.
    pub password: Option<Octets>,
}

impl Term {
    /// The same term; its octets are shared.
    pub fn copy(&self, alloc: Global) -> Result<Term, NoMemory>
        ensures { IfOk result (λ made. made ≡ self.now) }
    {
        let identity = copy_option(alloc, &self.identity)?;
        let password = copy_option(alloc, &self.password)?;
        Ok(Term {
            identity,
            actions: self.actions,
            password,
        })
    }
}

impl Duplicate for Term {
    fn duplicate(&self, alloc: Global) -> Result<Term, NoMemory> {
        let made = self.copy(alloc)?;
        Ok(made)
    }
}
