//! Who holds a file that a selection or a creation has selected.
ghost use Rattle.std.specs.Prelude.{◌≡◌, ◌<◌, [], IfOk, OnErr, OnOk, None, vec_capacity, vec_len};
ghost use Rattle.vf_filestore.specs.Controls.{joined as joined_meant, not_opened as not_opened_meant};
ghost use Rattle.vf_locks.specs.Clash.{conflict};
ghost use Rattle.vf_locks.specs.Holders.{granted};
ghost use Rattle.vf_locks.specs.Table.{IsAsBefore, IsWith, held};
ghost use Rattle.vf_locks.specs.declared.holder.Holder.TheVariants as holders;

use crate::{Associated, Said, Selected};
use std::alloc::Global;
use vf_base::NoMemory;
use vf_locks::{GrantError, Holder, Locks};
use vf_pdu_fields::ContentControls;
use vf_regime_refusals::{Selection, joined, not_opened};

/// The party holds the selected file with the controls of the selection, against which no other holder stands; gives room
/// for its answer. Without memory each file has the holders that it had.
pub(crate) fn hold_selected(
    alloc: Global,
    associated: &Associated,
    selection: &Selection,
    locks: &mut Locks,
) -> Result<Vec<Said>, NoMemory>
    requires { conflict (holders.Party associated.now.association.link) (joined_meant not_opened_meant selection.now.controls) (held selection.now.file locks.now) ≡ None }
    ensures said { IfOk result (λ said. said.items ≡ []) }
    ensures room { IfOk result (λ said. vec_len said < vec_capacity said) }
    ensures held { OnOk result (IsWith selection.now.file (granted (holders.Party associated.now.association.link) (joined_meant not_opened_meant selection.now.controls) (held selection.now.file locks.old)) locks.old locks.new) }
    ensures kept { OnErr result (IsAsBefore locks.old locks.new) }
{
    let said = Vec::with_capacity(alloc, 1)?;
    let holder = Holder::Party {
        link: associated.association.link,
    };
    let wanted = joined(not_opened(), selection.controls);
    match locks.grant(alloc, &selection.file, &holder, &wanted) {
        Ok(()) => Ok(said),
        Err(GrantError::NoMemory) => Err(NoMemory),
        Err(GrantError::Clash(_)) => unreachable!(),
    }
}

/// The party holds the selected file with these controls and those of the selection, in the place of its own. Without
/// memory, and where another holder stands against them, each file has the holders that it had.
pub(crate) fn hold_with(
    alloc: Global,
    selected: &Selected,
    opened: ContentControls,
    locks: &mut Locks,
) -> Result<(), NoMemory>
    ensures held { OnOk result (IsWith selected.now.selection.file (granted (holders.Party selected.now.associated.association.link) (joined_meant opened selected.now.selection.controls) (held selected.now.selection.file locks.old)) locks.old locks.new) }
    ensures kept { OnErr result (IsAsBefore locks.old locks.new) }
{
    let holder = Holder::Party {
        link: selected.associated.association.link,
    };
    let wanted = joined(opened, selected.selection.controls);
    let Ok(()) = locks.grant(alloc, &selected.selection.file, &holder, &wanted) else {
        return Err(NoMemory);
    };
    Ok(())
}
