ghost use Rattle.std.specs.Prelude.{◌≡◌, IfOk};

use std::alloc::Global;
use vf_base::{Actions, Contents, Duplicate, Name, NoMemory, Octets, Sequence, copy_option};

/// A term of an access control list as it is shown: its password stays out.
#[derive(Drop)]
pub struct Grant {
    /// Whom it speaks of; everybody where it is absent.
    pub identity: Option<Name>,
    /// What it grants.
    pub actions: Actions,
}

impl Grant {
    /// The same grant; its octets are shared.
    pub fn copy(&self, alloc: Global) -> Result<Grant, NoMemory>
        ensures { IfOk result (λ made. made ≡ self.now) }
    {
        let identity = copy_option(alloc, &self.identity)?;
        Ok(Grant {
            identity,
            actions: self.actions,
        })
    }
}

impl Duplicate for Grant {
    fn duplicate(&self, alloc: Global) -> Result<Grant, NoMemory> {
        let made = self.copy(alloc)?;
        Ok(made)
    }
}

/// An access control list as it is shown.
pub type Grants = Sequence<Grant>;

/// When an attribute was last set, and by whom (ISO 8571-2, date and identity attributes).
#[derive(Drop)]
pub struct Stamp {
    /// A moment of the years 1970 to 9999 as `YYYYMMDDHHMMSSZ`.
    pub date: Octets,
    pub identity: Name,
}

impl Stamp {
    /// The same stamp; its octets are shared.
    pub fn copy(&self, alloc: Global) -> Result<Stamp, NoMemory>
        ensures { IfOk result (λ made. made ≡ self.now) }
    {
        let date = self.date.copy(alloc)?;
        let identity = self.identity.copy(alloc)?;
        Ok(Stamp { date, identity })
    }
}

impl Duplicate for Stamp {
    fn duplicate(&self, alloc: Global) -> Result<Stamp, NoMemory> {
        let made = self.copy(alloc)?;
        Ok(made)
    }
}

/// The attributes of a file that were asked for and are there (ISO 8571-2, file attributes).
#[derive(Drop)]
pub struct Attributes {
    pub name: Option<Name>,
    /// A set of actions, as `vf_base::Actions`.
    pub permitted: Option<i64>,
    pub contents: Option<Contents>,
    pub terms: Option<Grants>,
    pub created: Option<Stamp>,
    pub modified: Option<Stamp>,
    pub read: Option<Stamp>,
    pub changed: Option<Stamp>,
    /// In octets.
    pub size: Option<i64>,
}

impl Attributes {
    /// The same attributes; their octets are shared.
    pub fn copy(&self, alloc: Global) -> Result<Attributes, NoMemory>
        ensures { IfOk result (λ made. made ≡ self.now) }
    {
        let name = copy_option(alloc, &self.name)?;
        let contents = copy_option(alloc, &self.contents)?;
        let terms = copy_option(alloc, &self.terms)?;
        let created = copy_option(alloc, &self.created)?;
        let modified = copy_option(alloc, &self.modified)?;
        let read = copy_option(alloc, &self.read)?;
        let changed = copy_option(alloc, &self.changed)?;
        Ok(Attributes {
            name,
            permitted: self.permitted,
            contents,
            terms,
            created,
            modified,
            read,
            changed,
            size: self.size,
        })
    }
}

impl Duplicate for Attributes {
    fn duplicate(&self, alloc: Global) -> Result<Attributes, NoMemory> {
        let made = self.copy(alloc)?;
        Ok(made)
    }
}
