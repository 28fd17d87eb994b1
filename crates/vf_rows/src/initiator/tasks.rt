//! Tasks in rows: `put` or `get`, the kind, `every`, the activity or `-`, and of a put its elements in digits.
use crate::initiator::requests::element_of;
use std::alloc::Global;
use std::test::Fail;
use vf_base::{Elements, Name, Sequence};
use vf_initiator::{Plan, Task};
use vf_tables::{Change, Changes, Phase, Plan as KeptPlan, Way};

fn elements_of(alloc: Global, words: &str) -> Result<Elements, Fail> {
    let mut elements = Sequence::new(alloc);
    for word in words.split_whitespace() {
        elements.push(element_of(alloc, word)?)?;
    }
    Ok(elements)
}

/// The first word, and the rest.
fn split(words: &str) -> (&str, &str) {
    words.split_once(' ').unwrap_or((words, ""))
}

/// The task of some words, which is done on the file `a`, with its activity.
fn task_of(alloc: Global, words: &str) -> Result<(Task, Option<u32>), Fail> {
    let (way, words) = split(words);
    let (kind, words) = split(words);
    let (every, words) = split(words);
    let (activity, words) = split(words);
    let (kind, every, activity) = (
        kind.parse::<u8>()?,
        every.parse::<u32>()?,
        activity.parse::<u32>().ok(),
    );
    let name = Name::of(alloc, b"a")?;
    if way == "get" {
        return Ok((Task::Get { name, kind, every }, activity));
    }
    let elements = elements_of(alloc, words)?;
    let task = Task::Put {
        name,
        kind,
        every,
        elements,
    };
    Ok((task, activity))
}

/// The plan of some words, in the name of `guest`.
pub(crate) fn plan_of(alloc: Global, words: &str) -> Result<Plan, Fail> {
    let (task, activity) = task_of(alloc, words)?;
    let identity = Name::of(alloc, b"guest")?;
    Ok(Plan {
        task,
        identity,
        password: None,
        activity,
    })
}

/// The way of a task, its kind, and the elements between its checkpoints.
fn form_of(task: &Task) -> (Way, u8, u32) {
    match task {
        Task::Put { kind, every, .. } => (Way::Put, *kind, *every),
        Task::Get { kind, every, .. } => (Way::Get, *kind, *every),
    }
}

/// The row of a task that is new.
fn new_row(alloc: Global, plan: &Plan, activity: u32) -> Result<KeptPlan, Fail> {
    let (way, kind, every) = form_of(&plan.task);
    let file = Name::of(alloc, b"a")?;
    let identity = plan.identity.copy(alloc)?;
    Ok(KeptPlan {
        activity,
        way,
        kind,
        every,
        file,
        identity,
        number: 1,
        point: 0,
        phase: Phase::New,
        outcome: 0,
    })
}

/// The changes by which a task with an activity is kept before its first octet is sent.
pub(crate) fn kept_first(alloc: Global, plan: &Plan) -> Result<Changes, Fail> {
    let mut changes = Sequence::new(alloc);
    let Some(activity) = plan.activity else {
        return Ok(changes);
    };
    changes.push(Change::PutTask {
        plan: new_row(alloc, plan, activity)?,
    })?;
    if let Task::Put { elements, .. } = &plan.task {
        changes.push(Change::StageTask {
            activity,
            point: 0,
            elements: elements.copy(alloc)?,
        })?;
    }
    Ok(changes)
}
