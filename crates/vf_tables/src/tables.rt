ghost use Rattle.std.specs.Prelude.{◌≡◌, IfOk, option_copied};
ghost use Rattle.vf_tables.specs.Entries.{docket_of, file_of, no_tables, task_of, user_of};

use crate::places::{docket_in, task_in};
use crate::{Docket, Entries, Files, Task, User};
use std::alloc::Global;
use vf_attr::File;
use vf_base::{Name, NoMemory};
use vf_named::Named;

/// The users, in the order in which they were made, found by their identities.
pub type Users = Named<User>;

/// The dockets of recoverable regimes, those of the regimes that stand among them, in the order of their opens.
pub type Dockets = Entries<Docket>;

/// The tasks of the initiator, in the order in which they were made.
pub type Tasks = Entries<Task>;

/// What a filestore keeps.
pub struct Tables {
    pub users: Users,
    pub files: Files,
    pub dockets: Dockets,
    pub tasks: Tasks,
}

impl Drop for Tables {
    fn drop(self) {
        let Tables {
            users,
            files,
            dockets,
            tasks,
        } = self;
        drop(users);
        drop(files);
        drop(dockets);
        drop(tasks);
    }
}

impl Tables {
    /// The tables of a filestore that is just made.
    pub fn new(alloc: Global) -> Tables
        ensures { result ≡ no_tables }
    {
        Tables {
            users: Named::new(alloc),
            files: Files::new(alloc),
            dockets: Entries::new(alloc),
            tasks: Entries::new(alloc),
        }
    }

    /// The user of this identity; `None` exactly where there is none.
    pub fn user(&self, identity: &Name) -> Option<&User>
        ensures { option_copied result ≡ user_of identity.now self.now }
    {
        self.users.with_name(identity)
    }

    /// The file of this name; `None` exactly where there is none.
    pub fn file(&self, name: &Name) -> Option<&File>
        ensures { option_copied result ≡ file_of name.now self.now }
    {
        self.files.with_name(name)
    }

    /// The docket of this identity and activity; `None` exactly where there is none.
    pub fn docket(&self, identity: &Name, activity: u32) -> Option<&Docket>
        ensures { option_copied result ≡ docket_of identity.now activity self.now }
    {
        docket_in(self.dockets.as_slice(), identity, activity)
    }

    /// The task of this activity; `None` exactly where there is none.
    pub fn task(&self, activity: u32) -> Option<&Task>
        ensures { option_copied result ≡ task_of activity self.now }
    {
        task_in(self.tasks.as_slice(), activity)
    }

    /// Equal tables; octets are shared.
    pub fn copy(&self, alloc: Global) -> Result<Tables, NoMemory>
        ensures { IfOk result (λ tables. tables ≡ self.now) }
    {
        let users = self.users.copy(alloc)?;
        let files = copied(alloc, self.files.as_slice())?;
        let dockets = self.dockets.copy(alloc)?;
        let tasks = self.tasks.copy(alloc)?;
        Ok(Tables {
            users,
            files,
            dockets,
            tasks,
        })
    }
}

/// Equal files, which share their units.
fn copied(alloc: Global, files: &[File]) -> Result<Files, NoMemory>
    ensures { IfOk result (λ made. made ≡ files.now) }
{
    let mut made = Files::new(alloc);
    for file in files {
        let file = file.copy(alloc)?;
        made.push(file)?;
    }
    Ok(made)
}
