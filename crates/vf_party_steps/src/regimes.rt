//! What an open regime becomes by a transfer in it, and the changes of its docket by which it does.
ghost use Rattle.std.specs.Prelude.{◌≡◌, ◌+◌, [], IfOk};
ghost use Rattle.vf_party_steps.specs.Dockets.{docket_with, fields_of as fields_meant, no_transfer, own_changes};
ghost use Rattle.vf_party_steps.specs.Locations.{at_position};
ghost use Rattle.vf_party_steps.specs.Regimes.{docket_changes, with_regime};

use crate::Open;
use crate::dockets::{Underway, field_changes, fields_of};
use crate::states::OpenRegime;
use std::alloc::Global;
use vf_base::NoMemory;
use vf_tables::{Changes, Regime};

/// The same regime at this position.
pub(crate) fn placed(regime: &OpenRegime, position: u32) -> OpenRegime
    ensures { result ≡ record regime.now { position = position } }
{
    OpenRegime {
        mode: regime.mode,
        controls: regime.controls,
        activity: regime.activity,
        position,
        done: regime.done,
        last: regime.last,
    }
}

/// The same regime with a transfer more that is concluded, which ended so.
pub(crate) fn concluded(regime: &OpenRegime, last: u16) -> Result<OpenRegime, NoMemory>
    ensures { IfOk result (λ after. after ≡ record regime.now { done = regime.now.done + 1; last = last }) }
{
    let Some(done) = regime.done.checked_add(1) else {
        return Err(NoMemory);
    };
    Ok(OpenRegime {
        mode: regime.mode,
        controls: regime.controls,
        activity: regime.activity,
        position: regime.position,
        done,
        last,
    })
}

/// The changes of the docket of an open with this transfer in it, whose position and transfers become these.
pub(crate) fn changed(
    alloc: Global,
    regimes: &Open,
    was: Underway,
    regime: &OpenRegime,
    is: Underway,
) -> Result<Changes, NoMemory>
    ensures { IfOk result (λ changes. changes ≡ docket_changes regimes.now was regime.now is) }
{
    let before = fields_of(alloc, regimes, was)?;
    let after = fields_after(alloc, regimes, regime, is)?;
    let changes = field_changes(alloc, before, after)?;
    Ok(changes)
}

/// What changes where an open in which no transfer is under way has another position, in units: its docket, where it is
/// recoverable.
pub(crate) fn position_changes(
    alloc: Global,
    regimes: &Open,
    position: u32,
) -> Result<Changes, NoMemory>
    ensures { IfOk result (λ changes. changes ≡ own_changes (docket_with (fields_meant regimes.now no_transfer) []) (docket_with (fields_meant (at_position position regimes.now) no_transfer) [])) }
{
    let none = Underway::none();
    let regime = placed(&regimes.regime, position);
    let changes = changed(alloc, regimes, none, &regime, none)?;
    Ok(changes)
}

/// The fields of the docket of an open whose position and transfers become these.
fn fields_after(
    alloc: Global,
    regimes: &Open,
    regime: &OpenRegime,
    moving: Underway,
) -> Result<Option<Regime>, NoMemory>
    ensures { IfOk result (λ fields. fields ≡ fields_meant (with_regime regime.now regimes.now) moving) }
{
    let fields = fields_of(alloc, regimes, moving)?;
    let Some(number) = regime.done.checked_add(1) else {
        return Err(NoMemory);
    };
    let Some(mut fields) = fields else {
        return Ok(None);
    };
    fields.position = regime.position;
    fields.number = number;
    fields.last = regime.last;
    Ok(Some(fields))
}
