//! Tasks, put after the octets that stand.
ghost use Rattle.std.specs.Prelude.{◌≡◌, OnOk};
ghost use Rattle.vf_store_record.specs.Entries.{course, phase as phase_format, phase_number as phase_meant, plan as plan_format, purpose, way as way_format, way_number as way_meant};
ghost use Rattle.vf_store_record.specs.Writing.{Always, Writes};

use super::fields::{put_name, put_octet, put_u16, put_u32};
use vf_base::NoMemory;
use vf_disk::Parts;
use vf_tables::{Phase, Plan, Way};

fn way_number(way: Way) -> u8
    ensures { result ≡ way_meant way }
{
    match way {
        Way::Get => 1,
        Way::Put => 2,
    }
}

fn put_way(way: Way, out: &mut Parts) -> Result<(), NoMemory>
    ensures { OnOk result (Writes way_format way Always out.old.items out.new.items) }
{
    put_octet(way_number(way), out)?;
    Ok(())
}

fn phase_number(phase: Phase) -> u8
    ensures { result ≡ phase_meant phase }
{
    match phase {
        Phase::New => 0,
        Phase::Open => 1,
        Phase::Whole => 2,
        Phase::Concluded => 3,
    }
}

fn put_phase(phase: Phase, out: &mut Parts) -> Result<(), NoMemory>
    ensures { OnOk result (Writes phase_format phase Always out.old.items out.new.items) }
{
    put_octet(phase_number(phase), out)?;
    Ok(())
}

fn put_purpose(plan: &Plan, out: &mut Parts) -> Result<(), NoMemory>
    ensures { OnOk result (Writes purpose (record { activity = plan.now.activity; way = plan.now.way; kind = plan.now.kind; every = plan.now.every }) Always out.old.items out.new.items) }
{
    put_u32(plan.activity, out)?;
    put_way(plan.way, out)?;
    put_octet(plan.kind, out)?;
    put_u32(plan.every, out)?;
    Ok(())
}

fn put_course(plan: &Plan, out: &mut Parts) -> Result<(), NoMemory>
    ensures { OnOk result (Writes course (record { number = plan.now.number; point = plan.now.point; phase = plan.now.phase; outcome = plan.now.outcome }) Always out.old.items out.new.items) }
{
    put_u32(plan.number, out)?;
    put_u32(plan.point, out)?;
    put_phase(plan.phase, out)?;
    put_u16(plan.outcome, out)?;
    Ok(())
}

pub(crate) fn put_plan(plan: &Plan, out: &mut Parts) -> Result<(), NoMemory>
    ensures { OnOk result (Writes plan_format plan.now Always out.old.items out.new.items) }
{
    put_purpose(plan, out)?;
    put_name(&plan.file, out)?;
    put_name(&plan.identity, out)?;
    put_course(plan, out)?;
    Ok(())
}
