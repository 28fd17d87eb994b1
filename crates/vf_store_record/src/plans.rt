//! Tasks in a record.
ghost use Rattle.std.specs.Prelude.{◌≡◌};
ghost use Rattle.vf_store_record.specs.Entries.{course, phase, plan, plan_from, purpose, way};
ghost use Rattle.vf_store_record.specs.Reading.{Gives};

use crate::fields::{name_at, octet_at, u16_at, u32_at};
use crate::{ReadError, Rest};
use std::alloc::Global;
use vf_base::Name;
use vf_tables::{Phase, Plan, Way};

/// What the task is to do.
#[derive(Clone, Copy)]
pub(crate) struct Purpose {
    pub(crate) activity: u32,
    pub(crate) way: Way,
    pub(crate) kind: u8,
    pub(crate) every: u32,
}

/// How far it has come.
#[derive(Clone, Copy)]
pub(crate) struct Course {
    pub(crate) number: u32,
    pub(crate) point: u32,
    pub(crate) phase: Phase,
    pub(crate) outcome: u16,
}

#[tactic(auto, unfolding(crate::specs::Entries::way))]
fn way_at(rest: &mut Rest<'_>) -> Result<Way, ReadError>
    ensures { Gives (λ found. (found, rest.new)) result (way.read rest.old) }
{
    let octet = octet_at(rest)?;
    match octet {
        1 => Ok(Way::Get),
        2 => Ok(Way::Put),
        _ => Err(ReadError::Foreign),
    }
}

#[tactic(auto, unfolding(crate::specs::Entries::phase))]
fn phase_at(rest: &mut Rest<'_>) -> Result<Phase, ReadError>
    ensures { Gives (λ found. (found, rest.new)) result (phase.read rest.old) }
{
    let octet = octet_at(rest)?;
    match octet {
        0 => Ok(Phase::New),
        1 => Ok(Phase::Open),
        2 => Ok(Phase::Whole),
        3 => Ok(Phase::Concluded),
        _ => Err(ReadError::Foreign),
    }
}

#[tactic(auto, unfolding(crate::specs::Entries::purpose))]
fn purpose_at(rest: &mut Rest<'_>) -> Result<Purpose, ReadError>
    ensures { Gives (λ found. (found, rest.new)) result (purpose.read rest.old) }
{
    let activity = u32_at(rest)?;
    let way = way_at(rest)?;
    let kind = octet_at(rest)?;
    let every = u32_at(rest)?;
    Ok(Purpose {
        activity,
        way,
        kind,
        every,
    })
}

#[tactic(auto, unfolding(crate::specs::Entries::course))]
fn course_at(rest: &mut Rest<'_>) -> Result<Course, ReadError>
    ensures { Gives (λ found. (found, rest.new)) result (course.read rest.old) }
{
    let number = u32_at(rest)?;
    let point = u32_at(rest)?;
    let phase = phase_at(rest)?;
    let outcome = u16_at(rest)?;
    Ok(Course {
        number,
        point,
        phase,
        outcome,
    })
}

fn joined(purpose: Purpose, file: Name, identity: Name, course: Course) -> Plan
    ensures { result ≡ plan_from (purpose, (file, (identity, course))) }
{
    Plan {
        activity: purpose.activity,
        way: purpose.way,
        kind: purpose.kind,
        every: purpose.every,
        file,
        identity,
        number: course.number,
        point: course.point,
        phase: course.phase,
        outcome: course.outcome,
    }
}

#[tactic(auto, unfolding(crate::specs::Entries::plan))]
pub(crate) fn plan_at(alloc: Global, rest: &mut Rest<'_>) -> Result<Plan, ReadError>
    ensures { Gives (λ found. (found, rest.new)) result (plan.read rest.old) }
{
    let purpose = purpose_at(rest)?;
    let file = name_at(alloc, rest)?;
    let identity = name_at(alloc, rest)?;
    let course = course_at(rest)?;
    Ok(joined(purpose, file, identity, course))
}
