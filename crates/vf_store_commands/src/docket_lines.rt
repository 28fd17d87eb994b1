//! The lines of dockets and tasks.
ghost use Rattle.std.specs.Prelude.{◌≡◌, ◌++◌, IfOk, OnOk};
ghost use Rattle.std.specs.List.{flat_map};
ghost use Rattle.vf_store_commands.specs.Dockets.{direction_word, docket_line, docket_lines, number_between, task_line, way_word};

use crate::file_lines::append_numbers;
use std::alloc::Global;
use vf_base::NoMemory;
use vf_tables::{Direction, Docket, Tables, Task, Way};

/// The lines of the dockets, and after them those of the tasks.
pub(crate) fn text_of_dockets(alloc: Global, tables: &Tables) -> Result<Vec<u8>, NoMemory>
    ensures { IfOk result (λ text. text.items ≡ docket_lines tables.now) }
{
    let mut text = Vec::new(alloc);
    append_dockets(alloc, tables.dockets.as_slice(), &mut text)?;
    append_tasks(alloc, tables.tasks.as_slice(), &mut text)?;
    Ok(text)
}

fn append_dockets(alloc: Global, dockets: &[Docket], text: &mut Vec<u8>) -> Result<(), NoMemory>
    ensures { OnOk result (text.new.items ≡ text.old.items ++ flat_map docket_line dockets.now) }
{
    for docket in dockets {
        append_docket(alloc, docket, text)?;
    }
    Ok(())
}

fn append_tasks(alloc: Global, tasks: &[Task], text: &mut Vec<u8>) -> Result<(), NoMemory>
    ensures { OnOk result (text.new.items ≡ text.old.items ++ flat_map task_line tasks.now) }
{
    for task in tasks {
        append_task(alloc, task, text)?;
    }
    Ok(())
}

/// Appends the line of a docket.
fn append_docket(alloc: Global, docket: &Docket, text: &mut Vec<u8>) -> Result<(), NoMemory>
    ensures { OnOk result (text.new.items ≡ text.old.items ++ docket_line docket.now) }
{
    let regime = &docket.regime;
    text.extend_from_slice(b"docket\t")?;
    text.extend_from_slice(regime.identity.as_slice())?;
    append_number(alloc, regime.activity, text)?;
    text.extend_from_slice(word_of(regime.direction))?;
    append_numbers(alloc, u64::from(regime.number), regime.point, text)?;
    text.extend_from_slice(regime.file.as_slice())?;
    text.push(b'\n')?;
    Ok(())
}

/// Appends the line of a task.
fn append_task(alloc: Global, task: &Task, text: &mut Vec<u8>) -> Result<(), NoMemory>
    ensures { OnOk result (text.new.items ≡ text.old.items ++ task_line task.now) }
{
    let plan = &task.plan;
    text.extend_from_slice(b"task")?;
    append_number(alloc, plan.activity, text)?;
    text.extend_from_slice(word_of_way(plan.way))?;
    append_numbers(alloc, u64::from(plan.number), plan.point, text)?;
    text.extend_from_slice(plan.file.as_slice())?;
    text.push(b'\n')?;
    Ok(())
}

/// Appends a number between tabs.
fn append_number(alloc: Global, number: u32, text: &mut Vec<u8>) -> Result<(), NoMemory>
    ensures { OnOk result (text.new.items ≡ text.old.items ++ number_between number) }
{
    let number = format!(in alloc; "\t{number}\t")?;
    text.extend_from_slice(number.as_bytes())?;
    Ok(())
}

/// Which transfer is under way.
fn word_of(direction: Direction) -> &'static [u8]
    ensures { result.now ≡ direction_word direction }
{
    match direction {
        Direction::Idle => b"idle",
        Direction::Read { .. } => b"read",
        Direction::Write { .. } => b"write",
    }
}

fn word_of_way(way: Way) -> &'static [u8]
    ensures { result.now ≡ way_word way }
{
    match way {
        Way::Get => b"get",
        Way::Put => b"put",
    }
}
