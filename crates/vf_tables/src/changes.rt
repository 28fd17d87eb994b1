//! Changes made: tables after a change, and after all of a list of changes.
ghost use Rattle.std.specs.Prelude.{◌≡◌, IfOk, OnErr, OnOk};
ghost use Rattle.vf_tables.specs.Changes.{after, after_all, cut_to, renamed, task_cut_to, with_piece, with_plan, with_regime, with_task_piece};
ghost use Rattle.vf_tables.specs.Entries.{changed, dropped, is_docket, is_file, is_task, is_user, put};

use crate::places::{place_of_docket, place_of_task};
use crate::{
    Change, Changes, Docket, Dockets, Files, Pieces, Plan, Regime, Tables, Task, Tasks, User, Users,
};
use std::alloc::Global;
use vf_attr::{Attributes, File};
use vf_base::{Elements, Name, NoMemory, copy_option};

impl Tables {
    /// The tables after these changes, in their order; octets are shared.
    pub fn with(&self, alloc: Global, changes: &[Change]) -> Result<Tables, NoMemory>
        ensures { IfOk result (λ tables. tables ≡ after_all self.now changes.now) }
    {
        let mut tables = self.copy(alloc)?;
        tables.make_all(alloc, changes)?;
        Ok(tables)
    }

    /// Makes all of the changes in their order, or none.
    pub fn apply(&mut self, alloc: Global, changes: &[Change]) -> Result<(), NoMemory>
        ensures ok { OnOk result (self.new ≡ after_all self.old changes.now) }
        ensures err { OnErr result (self.new ≡ self.old) }
    {
        *self = self.with(alloc, changes)?;
        Ok(())
    }

    /// Makes the changes in their order. Without memory they may be made in part.
    pub fn make_all(&mut self, alloc: Global, changes: &[Change]) -> Result<(), NoMemory>
        ensures { OnOk result (self.new ≡ after_all self.old changes.now) }
    {
        for change in changes {
            self.make(alloc, change)?;
        }
        Ok(())
    }

    /// Makes a change. Without memory it may be made in part.
    pub(crate) fn make(&mut self, alloc: Global, change: &Change) -> Result<(), NoMemory>
        ensures { OnOk result (self.new ≡ after self.old change.now) }
    {
        match change {
            Change::PutUser { user } => put_user(alloc, &mut self.users, user),
            Change::PutFile { file } => put_file(alloc, &mut self.files, file),
            Change::PutAttributes {
                old,
                name,
                attributes,
            } => put_attributes(alloc, &mut self.files, old, name, attributes),
            Change::DropFile { name } => drop_file(&mut self.files, name),
            Change::PutDocket { regime } => put_regime(alloc, &mut self.dockets, regime),
            Change::Stage {
                identity,
                activity,
                elements,
                ..
            } => stage(alloc, &mut self.dockets, identity, *activity, elements),
            Change::CutStage {
                identity,
                activity,
                point,
            } => cut_stage(&mut self.dockets, identity, *activity, *point),
            Change::DropDocket { identity, activity } => {
                drop_docket(&mut self.dockets, identity, *activity)
            }
            Change::PutTask { plan } => put_plan(alloc, &mut self.tasks, plan),
            Change::StageTask {
                activity,
                elements,
                ..
            } => stage_task(alloc, &mut self.tasks, *activity, elements),
            Change::CutTask { activity, point } => cut_task(&mut self.tasks, *activity, *point),
            Change::DropTask { activity } => drop_task(&mut self.tasks, *activity),
        }
    }
}

fn put_user(alloc: Global, users: &mut Users, user: &User) -> Result<(), NoMemory>
    ensures { OnOk result (users.new ≡ put (is_user user.now.identity) user.now users.old) }
{
    let user = user.copy(alloc)?;
    let Some(place) = users.place_of(&user.identity) else {
        users.push(user)?;
        return Ok(());
    };
    users.replace(place, user)?;
    Ok(())
}

fn put_file(alloc: Global, files: &mut Files, file: &File) -> Result<(), NoMemory>
    ensures { OnOk result (files.new ≡ put (is_file file.now.name) file.now files.old) }
{
    let file = file.copy(alloc)?;
    let Some(place) = files.place_of(&file.name) else {
        files.push(file)?;
        return Ok(());
    };
    files.replace(place, file)?;
    Ok(())
}

/// Equal attributes; octets are shared.
fn copied(alloc: Global, attributes: &Attributes) -> Result<Attributes, NoMemory>
    ensures { IfOk result (λ made. made ≡ attributes.now) }
{
    let contents = attributes.contents.copy(alloc)?;
    let terms = attributes.terms.copy(alloc)?;
    let created = attributes.created.copy(alloc)?;
    let modified = copy_option(alloc, &attributes.modified)?;
    let read = copy_option(alloc, &attributes.read)?;
    let changed = copy_option(alloc, &attributes.changed)?;
    Ok(Attributes {
        permitted: attributes.permitted,
        contents,
        terms,
        created,
        modified,
        read,
        changed,
        version: attributes.version,
    })
}

fn rename(file: &mut File, name: Name, attributes: Attributes)
    ensures { file.new ≡ renamed name attributes file.old }
{
    file.set_attributes(attributes);
    file.name = name;
}

/// The file with this name and these attributes; octets are shared.
fn renamed_copy(
    alloc: Global,
    file: &File,
    name: &Name,
    attributes: &Attributes,
) -> Result<File, NoMemory>
    ensures { IfOk result (λ made. made ≡ renamed name.now attributes.now file.now) }
{
    let mut made = file.copy(alloc)?;
    let name = name.copy(alloc)?;
    let attributes = copied(alloc, attributes)?;
    rename(&mut made, name, attributes);
    Ok(made)
}

fn put_attributes(
    alloc: Global,
    files: &mut Files,
    old: &Name,
    name: &Name,
    attributes: &Attributes,
) -> Result<(), NoMemory>
    ensures { OnOk result (files.new ≡ changed (is_file old.now) (renamed name.now attributes.now) files.old) }
{
    let Some(place) = files.place_of(old) else {
        return Ok(());
    };
    let file = renamed_copy(alloc, &files.as_slice()[place], name, attributes)?;
    files.replace(place, file)?;
    Ok(())
}

fn drop_file(files: &mut Files, name: &Name) -> Result<(), NoMemory>
    ensures { OnOk result (files.new ≡ dropped (is_file name.now) files.old) }
{
    let Some(place) = files.place_of(name) else {
        return Ok(());
    };
    files.remove(place);
    Ok(())
}

fn set_regime(docket: &mut Docket, regime: Regime)
    ensures { docket.new ≡ record docket.old { regime = regime } }
{
    docket.regime = regime;
}

fn put_regime(alloc: Global, dockets: &mut Dockets, regime: &Regime) -> Result<(), NoMemory>
    ensures { OnOk result (dockets.new ≡ with_regime regime.now dockets.old) }
{
    let made = regime.copy(alloc)?;
    let Some(place) = place_of_docket(dockets.as_slice(), &regime.identity, regime.activity) else {
        dockets.push(Docket {
            regime: made,
            staged: Pieces::new(alloc),
        })?;
        return Ok(());
    };
    set_regime(&mut dockets.items[place], made);
    Ok(())
}

fn add_piece(docket: &mut Docket, elements: Elements) -> Result<(), NoMemory>
    ensures { OnOk result (docket.new ≡ with_piece elements docket.old) }
{
    docket.staged.push(elements)?;
    Ok(())
}

fn stage(
    alloc: Global,
    dockets: &mut Dockets,
    identity: &Name,
    activity: u32,
    elements: &Elements,
) -> Result<(), NoMemory>
    ensures { OnOk result (dockets.new ≡ changed (is_docket identity.now activity) (with_piece elements.now) dockets.old) }
{
    let Some(place) = place_of_docket(dockets.as_slice(), identity, activity) else {
        return Ok(());
    };
    let elements = elements.copy(alloc)?;
    add_piece(&mut dockets.items[place], elements)?;
    Ok(())
}

fn cut(docket: &mut Docket, point: u32)
    ensures { docket.new ≡ cut_to point docket.old }
{
    docket.staged.truncate(point as usize);
}

fn cut_stage(
    dockets: &mut Dockets,
    identity: &Name,
    activity: u32,
    point: u32,
) -> Result<(), NoMemory>
    ensures { OnOk result (dockets.new ≡ changed (is_docket identity.now activity) (cut_to point) dockets.old) }
{
    let Some(place) = place_of_docket(dockets.as_slice(), identity, activity) else {
        return Ok(());
    };
    cut(&mut dockets.items[place], point);
    Ok(())
}

fn drop_docket(dockets: &mut Dockets, identity: &Name, activity: u32) -> Result<(), NoMemory>
    ensures { OnOk result (dockets.new ≡ dropped (is_docket identity.now activity) dockets.old) }
{
    let place = place_of_docket(dockets.as_slice(), identity, activity);
    dockets.drop_at(place);
    Ok(())
}

fn set_plan(task: &mut Task, plan: Plan)
    ensures { task.new ≡ record task.old { plan = plan } }
{
    task.plan = plan;
}

fn put_plan(alloc: Global, tasks: &mut Tasks, plan: &Plan) -> Result<(), NoMemory>
    ensures { OnOk result (tasks.new ≡ with_plan plan.now tasks.old) }
{
    let made = plan.copy(alloc)?;
    let Some(place) = place_of_task(tasks.as_slice(), plan.activity) else {
        tasks.push(Task {
            plan: made,
            staged: Pieces::new(alloc),
        })?;
        return Ok(());
    };
    set_plan(&mut tasks.items[place], made);
    Ok(())
}

fn add_task_piece(task: &mut Task, elements: Elements) -> Result<(), NoMemory>
    ensures { OnOk result (task.new ≡ with_task_piece elements task.old) }
{
    task.staged.push(elements)?;
    Ok(())
}

fn stage_task(
    alloc: Global,
    tasks: &mut Tasks,
    activity: u32,
    elements: &Elements,
) -> Result<(), NoMemory>
    ensures { OnOk result (tasks.new ≡ changed (is_task activity) (with_task_piece elements.now) tasks.old) }
{
    let Some(place) = place_of_task(tasks.as_slice(), activity) else {
        return Ok(());
    };
    let elements = elements.copy(alloc)?;
    add_task_piece(&mut tasks.items[place], elements)?;
    Ok(())
}

fn cut_of_task(task: &mut Task, point: u32)
    ensures { task.new ≡ task_cut_to point task.old }
{
    task.staged.truncate(point as usize);
}

fn cut_task(tasks: &mut Tasks, activity: u32, point: u32) -> Result<(), NoMemory>
    ensures { OnOk result (tasks.new ≡ changed (is_task activity) (task_cut_to point) tasks.old) }
{
    let Some(place) = place_of_task(tasks.as_slice(), activity) else {
        return Ok(());
    };
    cut_of_task(&mut tasks.items[place], point);
    Ok(())
}

fn drop_task(tasks: &mut Tasks, activity: u32) -> Result<(), NoMemory>
    ensures { OnOk result (tasks.new ≡ dropped (is_task activity) tasks.old) }
{
    let place = place_of_task(tasks.as_slice(), activity);
    tasks.drop_at(place);
    Ok(())
}
