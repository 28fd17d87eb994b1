//! Recoverable regimes, put after the octets that stand, group by group of their fields.
ghost use Rattle.std.specs.Prelude.{◌≡◌, true, OnOk, Some, length};
ghost use Rattle.vf_store_record.specs.Entries.{context_number as context_meant, direction_number as direction_meant, method_number as method_meant, operation_number as operation_meant, ownership, permission, progress, regime as regime_format, standing, transfer};
ghost use Rattle.vf_store_record.specs.Fields.{control, controls as controls_format, fadu as fadu_format, fadu_number as fadu_meant, fadu_of};
ghost use Rattle.vf_store_record.specs.Formats.{repeated};
ghost use Rattle.vf_store_record.specs.Writing.{Always, Writes};
ghost use Rattle.vf_tables.specs.Fitting.{is_numbered, is_regime, is_short};

use super::fields::{
    put_actions, put_control, put_name, put_octet, put_optional_text, put_truth, put_u16, put_u32,
    put_u64,
};
use vf_base::{Context, Control, Controls, FaduId, NoMemory};
use vf_disk::Parts;
use vf_tables::{Direction, Operation, Regime};

fn put_ownership(regime: &Regime, out: &mut Parts) -> Result<(), NoMemory>
    ensures { OnOk result (Writes ownership (record { identity = regime.now.identity; activity = regime.now.activity; file = regime.now.file }) Always out.old.items out.new.items) }
{
    put_name(&regime.identity, out)?;
    put_u32(regime.activity, out)?;
    put_name(&regime.file, out)?;
    Ok(())
}

fn put_each(each: &[Control], out: &mut Parts) -> Result<(), NoMemory>
    requires { length each.now ≡ 8 }
    ensures { OnOk result (Writes (repeated 8 control) each.now Always out.old.items out.new.items) }
{
    for control in each {
        put_control(*control, out)?;
    }
    Ok(())
}

fn put_controls(controls: &Controls, out: &mut Parts) -> Result<(), NoMemory>
    ensures { OnOk result (Writes controls_format controls.now Always out.old.items out.new.items) }
{
    put_each(&controls.each, out)?;
    Ok(())
}

fn put_permission(regime: &Regime, out: &mut Parts) -> Result<(), NoMemory>
    ensures { OnOk result (Writes permission (record { requested = regime.now.requested; controls = regime.now.controls; mode = regime.now.mode; password = regime.now.password }) (is_short regime.now.password ≡ true) out.old.items out.new.items) }
{
    put_actions(regime.requested, out)?;
    put_controls(&regime.controls, out)?;
    put_actions(regime.mode, out)?;
    put_optional_text(&regime.password, out)?;
    Ok(())
}

fn put_progress(regime: &Regime, out: &mut Parts) -> Result<(), NoMemory>
    ensures { OnOk result (Writes progress (record { position = regime.now.position; number = regime.now.number; last = regime.now.last; window = regime.now.window }) Always out.old.items out.new.items) }
{
    put_u32(regime.position, out)?;
    put_u32(regime.number, out)?;
    put_u16(regime.last, out)?;
    put_u16(regime.window, out)?;
    Ok(())
}

fn put_standing(regime: &Regime, out: &mut Parts) -> Result<(), NoMemory>
    ensures { OnOk result (Writes standing (record { refused = regime.now.refused; point = regime.now.point; ended = regime.now.ended; version = regime.now.version }) Always out.old.items out.new.items) }
{
    put_u16(regime.refused, out)?;
    put_u32(regime.point, out)?;
    put_truth(regime.ended, out)?;
    put_u32(regime.version, out)?;
    Ok(())
}

fn direction_number(direction: Direction) -> u8
    ensures { result ≡ direction_meant direction }
{
    match direction {
        Direction::Idle => 0,
        Direction::Read { .. } => 1,
        Direction::Write { .. } => 2,
    }
}

fn context_number(context: Context) -> u8
    ensures { result ≡ context_meant context }
{
    match context {
        Context::HA => 0,
        Context::FA => 1,
        Context::UA => 2,
        Context::US => 3,
    }
}

fn operation_number(operation: Operation) -> u8
    ensures { result ≡ operation_meant operation }
{
    match operation {
        Operation::Insert => 1,
        Operation::Replace => 2,
        Operation::Extend => 3,
    }
}

/// The number of a read's context or of a write's operation, and 0 where there is neither.
fn method_number(direction: Direction) -> u8
    ensures { result ≡ method_meant direction }
{
    match direction {
        Direction::Idle => 0,
        Direction::Read { context } => context_number(context),
        Direction::Write { operation } => operation_number(operation),
    }
}

fn fadu_number(fadu: FaduId) -> u64
    ensures number { result ≡ fadu_meant fadu }
    ensures known { is_numbered fadu ≡ true → fadu_of (fadu_meant fadu) ≡ Some fadu }
{
    match fadu {
        FaduId::Begin => 0,
        FaduId::End => 18_446_744_073_709_551_615,
        FaduId::First => 18_446_744_073_709_551_614,
        FaduId::Last => 18_446_744_073_709_551_613,
        FaduId::Current => 18_446_744_073_709_551_612,
        FaduId::Next => 18_446_744_073_709_551_611,
        FaduId::Previous => 18_446_744_073_709_551_610,
        FaduId::Number(number) => number as u64,
    }
}

fn put_fadu(fadu: FaduId, out: &mut Parts) -> Result<(), NoMemory>
    ensures { OnOk result (Writes fadu_format fadu (is_numbered fadu ≡ true) out.old.items out.new.items) }
{
    put_u64(fadu_number(fadu), out)?;
    Ok(())
}

fn put_transfer(regime: &Regime, out: &mut Parts) -> Result<(), NoMemory>
    ensures { OnOk result (Writes transfer (record { direction = regime.now.direction; fadu = regime.now.fadu }) (is_numbered regime.now.fadu ≡ true) out.old.items out.new.items) }
{
    put_octet(direction_number(regime.direction), out)?;
    put_fadu(regime.fadu, out)?;
    put_octet(method_number(regime.direction), out)?;
    Ok(())
}

pub(crate) fn put_regime(regime: &Regime, out: &mut Parts) -> Result<(), NoMemory>
    ensures { OnOk result (Writes regime_format regime.now (is_regime regime.now ≡ true) out.old.items out.new.items) }
{
    put_ownership(regime, out)?;
    put_permission(regime, out)?;
    put_progress(regime, out)?;
    put_transfer(regime, out)?;
    put_standing(regime, out)?;
    Ok(())
}
