//! The docket that a recovery finds, and what refuses it (ISO 8571-3, F-RECOVER; which dockets it may is profile).
ghost use Rattle.std.specs.Prelude.{◌≡◌, IfOk, Some, true, option_copied};
ghost use Rattle.vf_filestore.specs.Diagnostics.{first_row, plain as plain_meant};
ghost use Rattle.vf_filestore.specs.Units.{recovery_unit};
ghost use Rattle.vf_locks.specs.declared.holder.Holder.TheVariants as holders;
ghost use Rattle.vf_tables.specs.Validity.{includes};
ghost use Rattle.vf_party_steps.specs.Recoveries.{changed_row_in, docket_row, is_idle as idle_meant, is_numbered_in, refusal_in, rows_of};

use std::alloc::Global;
use vf_base::{Diagnostic, Name, NoMemory};
use vf_filestore::diagnostics::{
    DOCKET_UNKNOWN, FILE_CHANGED, UNIT_NOT_AGREED, WRONG_TRANSFER, plain,
};
use vf_locks::{Holder, Locks};
use vf_regime_effects::selected;
use vf_tables::{Direction, Docket, Files, Regime, Tables};

/// The unit of recovery.
const RECOVERY_UNIT: u16 = 128;

/// The holder of a docket's file.
pub(crate) fn holder_of(alloc: Global, identity: &Name, activity: u32) -> Result<Holder, NoMemory>
    ensures { IfOk result (λ holder. holder ≡ holders.Docket identity.now activity) }
{
    let identity = identity.copy(alloc)?;
    Ok(Holder::Docket { identity, activity })
}

/// The docket of this activity, by its holder; `None` exactly where there is none, also where its open stands.
pub(crate) fn docket_in<'t>(
    tables: &'t Tables,
    locks: &Locks,
    identity: &Name,
    activity: u32,
    holder: &Holder,
) -> Option<&'t Docket>
    requires { holder.now ≡ holders.Docket identity.now activity }
    ensures { option_copied result ≡ docket_row tables.now locks.now identity.now activity }
{
    let docket = tables.docket(identity, activity)?;
    if locks.controls(&docket.regime.file, holder).is_none() {
        return None;
    }
    Some(docket)
}

/// What refuses a recovery (ISO 8571-3, F-RECOVER): 33 without the unit of recovery, 27 where there is no docket, 29
/// where the number isn't that of its transfer, and 34 where the file of a read isn't as it was.
pub(crate) fn refused_recover(
    files: &Files,
    units: u16,
    found: Option<&Docket>,
    number: u32,
) -> Option<Diagnostic>
    ensures { result ≡ refusal_in files.now units (option_copied found.entry) number }
{
    if !has_recovery(units) {
        return refused(UNIT_NOT_AGREED);
    }
    let Some(docket) = found else {
        return refused(DOCKET_UNKNOWN);
    };
    refused_docket(files, &docket.regime, number)
}

fn refused_docket(files: &Files, regime: &Regime, number: u32) -> Option<Diagnostic>
    ensures { result ≡ first_row (rows_of files.now regime.now number) }
{
    if !is_numbered(regime, number) {
        return refused(WRONG_TRANSFER);
    }
    refused_change(files, regime)
}

fn has_recovery(units: u16) -> bool
    ensures { result ≡ includes units recovery_unit }
{
    RECOVERY_UNIT & units == RECOVERY_UNIT
}

fn refused(number: u16) -> Option<Diagnostic>
    ensures { result ≡ Some (plain_meant number) }
{
    Some(plain(number))
}

/// Whether this is the number of the transfer under way, or with none under way that of the next or of the last.
fn is_numbered(regime: &Regime, number: u32) -> bool
    ensures { result ≡ is_numbered_in regime.now number }
{
    number == regime.number
        || is_idle(regime.direction) && number == regime.number.saturating_sub(1)
}

fn is_idle(direction: Direction) -> bool
    ensures { result ≡ idle_meant direction }
{
    match direction {
        Direction::Idle => true,
        Direction::Read { .. } => false,
        Direction::Write { .. } => false,
    }
}

/// A read goes on only in the file as it was: the diagnostic tells the version at its request and that of now.
fn refused_change(files: &Files, regime: &Regime) -> Option<Diagnostic>
    ensures { result ≡ changed_row_in files.now regime.now }
{
    let Direction::Read { .. } = regime.direction else {
        return None;
    };
    let version = match selected(files, &regime.file) {
        Some(file) => file.version,
        None => 0,
    };
    if regime.version == version {
        return None;
    }
    Some(Diagnostic {
        number: FILE_CHANGED,
        first: i64::from(regime.version),
        second: i64::from(version),
    })
}
