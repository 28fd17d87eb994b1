//! The changes that make all of some tables.
ghost use Rattle.std.specs.Prelude.{◌≡◌, ◌++◌, ◌-◌, ◌<◌, ◌^◌, IfOk, OnOk, length, map, All};
ghost use Rattle.std.specs.List.{flat_map};
ghost use Rattle.vf_attr.specs.declared.file.File.{File as FileValue};
ghost use Rattle.vf_tables.specs.declared.change.Change.TheVariants.{PutDocket, PutFile, PutTask, PutUser};
ghost use Rattle.vf_tables.specs.declared.docket.Docket.{Docket as DocketValue};
ghost use Rattle.vf_tables.specs.declared.task.Task.{Task as TaskValue};
ghost use Rattle.vf_tables.specs.declared.user.User.{User as UserValue};
ghost use Rattle.vf_tables.specs.Snapshot.{HasFewPieces, point_after as point_after_meant, snapshot as snapshot_meant, stages_of, task_stages_of};

use crate::{Change, Changes, Docket, Tables, Task, User, Way};
use std::alloc::Global;
use vf_attr::File;
use vf_base::{NoMemory, Sequence};

impl Tables {
    /// The changes that make all of these tables of the tables without entries; octets are shared. Each docket and each
    /// task has fewer than 2^32 pieces, as those of valid tables have.
    pub fn snapshot(&self, alloc: Global) -> Result<Changes, NoMemory>
        requires { HasFewPieces self.now }
        ensures { IfOk result (λ changes. changes ≡ snapshot_meant self.now) }
    {
        let mut changes = Sequence::new(alloc);
        put_users(alloc, self.users.as_slice(), &mut changes)?;
        put_files(alloc, self.files.as_slice(), &mut changes)?;
        put_regimes(alloc, self.dockets.as_slice(), &mut changes)?;
        stage_dockets(alloc, self.dockets.as_slice(), &mut changes)?;
        put_plans(alloc, self.tasks.as_slice(), &mut changes)?;
        stage_tasks(alloc, self.tasks.as_slice(), &mut changes)?;
        Ok(changes)
    }
}

fn put_users(alloc: Global, users: &[User], changes: &mut Changes) -> Result<(), NoMemory>
    ensures { OnOk result (changes.new ≡ changes.old ++ map (λ (user : UserValue). PutUser user) users.now) }
{
    for user in users {
        let user = user.copy(alloc)?;
        changes.push(Change::PutUser { user })?;
    }
    Ok(())
}

fn put_files(alloc: Global, files: &[File], changes: &mut Changes) -> Result<(), NoMemory>
    ensures { OnOk result (changes.new ≡ changes.old ++ map (λ (file : FileValue). PutFile file) files.now) }
{
    for file in files {
        let file = file.copy(alloc)?;
        changes.push(Change::PutFile { file })?;
    }
    Ok(())
}

fn put_regimes(alloc: Global, dockets: &[Docket], changes: &mut Changes) -> Result<(), NoMemory>
    ensures { OnOk result (changes.new ≡ changes.old ++ map (λ (docket : DocketValue). PutDocket docket.regime) dockets.now) }
{
    for docket in dockets {
        let regime = docket.regime.copy(alloc)?;
        changes.push(Change::PutDocket { regime })?;
    }
    Ok(())
}

fn put_plans(alloc: Global, tasks: &[Task], changes: &mut Changes) -> Result<(), NoMemory>
    ensures { OnOk result (changes.new ≡ changes.old ++ map (λ (task : TaskValue). PutTask task.plan) tasks.now) }
{
    for task in tasks {
        let plan = task.plan.copy(alloc)?;
        changes.push(Change::PutTask { plan })?;
    }
    Ok(())
}

/// The pieces of a docket, one after the other.
fn stage_docket(alloc: Global, docket: &Docket, changes: &mut Changes) -> Result<(), NoMemory>
    requires { length docket.now.staged < 2 ^ 32 }
    ensures { OnOk result (changes.new ≡ changes.old ++ stages_of docket.now) }
{
    for (place, elements) in docket.staged.as_slice().iter().enumerate() {
        let identity = docket.regime.identity.copy(alloc)?;
        let elements = elements.copy(alloc)?;
        changes.push(Change::Stage {
            identity,
            activity: docket.regime.activity,
            first: place as u32,
            last: place as u32 + 1,
            elements,
        })?;
    }
    Ok(())
}

fn stage_dockets(alloc: Global, dockets: &[Docket], changes: &mut Changes) -> Result<(), NoMemory>
    requires { All (λ (docket : DocketValue). length docket.staged < 2 ^ 32) dockets.now }
    ensures { OnOk result (changes.new ≡ changes.old ++ flat_map stages_of dockets.now) }
{
    for docket in dockets {
        stage_docket(alloc, docket, changes)?;
    }
    Ok(())
}

/// The point of the piece of a task after so many.
fn point_after(way: Way, pieces: u32) -> u32
    requires { pieces < 2 ^ 32 - 1 }
    ensures { result ≡ point_after_meant way pieces }
{
    match way {
        Way::Get => pieces + 1,
        Way::Put => 0,
    }
}

/// The pieces of a task, one after the other.
fn stage_task(alloc: Global, task: &Task, changes: &mut Changes) -> Result<(), NoMemory>
    requires { length task.now.staged < 2 ^ 32 }
    ensures { OnOk result (changes.new ≡ changes.old ++ task_stages_of task.now) }
{
    for (place, elements) in task.staged.as_slice().iter().enumerate() {
        let elements = elements.copy(alloc)?;
        changes.push(Change::StageTask {
            activity: task.plan.activity,
            point: point_after(task.plan.way, place as u32),
            elements,
        })?;
    }
    Ok(())
}

fn stage_tasks(alloc: Global, tasks: &[Task], changes: &mut Changes) -> Result<(), NoMemory>
    requires { All (λ (task : TaskValue). length task.staged < 2 ^ 32) tasks.now }
    ensures { OnOk result (changes.new ≡ changes.old ++ flat_map task_stages_of tasks.now) }
{
    for task in tasks {
        stage_task(alloc, task, changes)?;
    }
    Ok(())
}
