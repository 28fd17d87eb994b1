ghost use Rattle.std.specs.Prelude.{◌≡◌, IfOk};

use std::alloc::Global;
use vf_base::{Duplicate, Name, NoMemory, Octets, copy_option};
use vf_named::HasName;

/// A user of the filestore (profile).
#[derive(Drop)]
pub struct User {
    pub identity: Name,
    /// What has to be given at the association, at most 255 octets; nothing where it is absent.
    pub password: Option<Octets>,
}

impl User {
    /// The same user; the octets are shared.
    pub fn copy(&self, alloc: Global) -> Result<User, NoMemory>
        ensures { IfOk result (λ user. user ≡ self.now) }
    {
        let identity = self.identity.copy(alloc)?;
        let password = copy_option(alloc, &self.password)?;
        Ok(User { identity, password })
    }
}

impl Duplicate for User {
    fn duplicate(&self, alloc: Global) -> Result<User, NoMemory> {
        let made = self.copy(alloc)?;
        Ok(made)
    }
}

impl HasName for User {
    ghost name_of = { λ user. user.identity };

    fn name(&self) -> &Name {
        &self.identity
    }
}
