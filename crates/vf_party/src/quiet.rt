ghost use Rattle.std.specs.Prelude.{◌≡◌, ◌==◌, ◌||◌, ℕ, IfErr, None, false, true};
ghost use Rattle.vf_elements.specs.Stages.{takes};
ghost use Rattle.vf_elements.specs.declared.message.Message.TheVariants as messages;
ghost use Rattle.vf_filestore.specs.Aborts.{first_abort};
ghost use Rattle.vf_filestore.specs.History.{History};
ghost use Rattle.vf_party.specs.Aborting.{aborts_of_quiet};
ghost use Rattle.vf_party.specs.Items.{is_item};
ghost use Rattle.vf_party.specs.Quiets.{IsQuiet, stage_of as stage_meant, taken_as};
ghost use Rattle.vf_party.specs.Settings.{setting_of};
ghost use Rattle.vf_party.specs.Turns.{IsTurnOf};
ghost use Rattle.vf_party_steps.specs.Leaving.{LeavesHolders};
ghost use Rattle.vf_party_steps.specs.Represents.{IsAssociated, IsOpen, IsSelected};
ghost use Rattle.vf_party_steps.specs.Steps.{IsStep};
ghost use Rattle.vf_party.specs.declared.party.Party.TheVariants as parties;
ghost use Rattle.vf_party.specs.declared.quiet.Quiet.{Quiet as QuietMeant};
ghost use Rattle.vf_party.specs.declared.quiet.Quiet.TheVariants as quiets;
ghost use Rattle.vf_party_steps.specs.declared.states.Associated.{Associated as AssociatedMeant};
ghost use Rattle.vf_party_steps.specs.declared.states.Selected.{Selected as SelectedMeant};
ghost use Rattle.vf_pdu.specs.PduNumbers.{number_of};

use crate::party::{Outcome, Party};
use crate::taking_regime::grouped;
use crate::{Associated, Open, Selected, Setting, Step, StepError, items, taking_regime};
use std::alloc::Global;
use vf_base::NoMemory;
use vf_elements::Stage;
use vf_locks::Locks;
use vf_pdu::Pdu;
use vf_tables::Tables;

/// A party with an association, in which no transfer is under way.
pub enum Quiet {
    Associated(Associated),
    Selected(Selected),
    Open(Open),
}

impl Drop for Quiet {
    fn drop(self) {
        match self {
            Quiet::Associated(associated) => drop(associated),
            Quiet::Selected(selected) => drop(selected),
            Quiet::Open(regimes) => drop(regimes),
        }
    }
}

impl Quiet {
    /// The innermost regime (ISO 8571-4).
    pub fn stage(&self) -> Stage
        ensures { result ≡ stage_meant self.now }
    {
        match self {
            Quiet::Associated(_) => Stage::Associated,
            Quiet::Selected(_) => Stage::Selected,
            Quiet::Open(_) => Stage::Opened,
        }
    }

    /// The state with an association and no selected file.
    pub(crate) fn into_associated(self) -> Associated
        requires { (associated : AssociatedMeant) × (self ≡ quiets.Associated associated) }
        ensures { self ≡ quiets.Associated result }
    {
        let Quiet::Associated(associated) = self else {
            unreachable!()
        };
        associated
    }

    /// The state with a selected file that isn't open.
    pub(crate) fn into_selected(self) -> Selected
        requires { (selected : SelectedMeant) × (self ≡ quiets.Selected selected) }
        ensures { self ≡ quiets.Selected result }
    {
        let Quiet::Selected(selected) = self else {
            unreachable!()
        };
        selected
    }

    /// Takes a request that may be an item of a group and that its regime takes.
    pub(crate) fn take_item(
        self,
        alloc: Global,
        request: Pdu,
        setting: Setting,
        tables: &Tables,
        locks: &mut Locks,
    ) -> Result<Step<Quiet>, (Quiet, StepError)>
        requires item { is_item request ≡ true }
        requires taken { takes (stage_meant self) (messages.Pdu request) ≡ true }
        ensures consequence { IsStep IsQuiet IsQuiet tables.now locks.old locks.new self (setting_of setting) (messages.Pdu request) result }
        ensures kept { IfErr result (λ back. back.0 ≡ self) }
    {
        match self {
            Quiet::Associated(associated) => {
                return items::take_associated(associated, alloc, request, setting, tables, locks);
            }
            Quiet::Selected(selected) => {
                return items::take_selected(selected, alloc, request, setting, tables, locks);
            }
            Quiet::Open(regimes) => {
                return items::take_open(regimes, alloc, request, setting, tables, locks);
            }
        }
    }

    /// Takes a request that its stage takes and nothing aborts, that is no item and by which the initiator doesn't leave.
    #[inline(never)]
    pub(crate) fn take_own(
        self,
        alloc: Global,
        request: Pdu,
        setting: Setting,
        tables: &Tables,
        locks: &mut Locks,
    ) -> Result<Outcome, (Party, NoMemory)>
        requires taken { takes (stage_meant self) (messages.Pdu request) ≡ true }
        requires item { is_item request ≡ false }
        requires stays { (number_of request == 4 || number_of request == 5) ≡ false }
        requires unbarred { first_abort (aborts_of_quiet self setting.token request) ≡ None }
        ensures { IsTurnOf IsQuiet parties.Quiet tables.now locks.old locks.new self (setting_of setting) (messages.Pdu request) result }
    {
        if let Pdu::BeginGroupRequest { threshold } = request {
            return Ok(grouped(alloc, self, threshold));
        }
        match self {
            Quiet::Associated(associated) => {
                return taking_regime::take_associated(
                    associated, alloc, request, setting, tables, locks,
                );
            }
            Quiet::Selected(_) => unreachable!(),
            Quiet::Open(regimes) => {
                return taking_regime::take_open(regimes, alloc, request, setting, tables, locks);
            }
        }
    }

    /// The association is gone: what is left of the party.
    pub(crate) fn leave(self, locks: &mut Locks)
        ensures { LeavesHolders IsQuiet self locks.old locks.new }
    {
        match self {
            Quiet::Associated(associated) => associated.leave(locks),
            Quiet::Selected(selected) => selected.leave(locks),
            Quiet::Open(regimes) => regimes.leave(locks),
        }
    }
}

/// A typed state in which no transfer is under way.
pub(crate) trait QuietState {
    /// Which links and histories it represents.
    ghost represents: { Self → ℕ → History → Type 0 };

    ghost quiet_of: { Self → QuietMeant };

    fn into_quiet(self) -> Quiet
        ensures { result ≡ quiet_of self };

    ghost enters: { (state : Self) (link : ℕ) (history : History) → represents state link history → IsQuiet (quiet_of state) link history };

    ghost leaves: { (state : Self) (link : ℕ) (history : History) → IsQuiet (quiet_of state) link history → represents state link history };
}

impl QuietState for Associated {
    ghost represents = { IsAssociated };

    ghost quiet_of = { quiets.Associated };

    ghost enters = { λ state link history represents. represents };

    ghost leaves = { λ state link history represents. represents };

    fn into_quiet(self) -> Quiet {
        Quiet::Associated(self)
    }
}

impl QuietState for Selected {
    ghost represents = { IsSelected };

    ghost quiet_of = { quiets.Selected };

    ghost enters = { λ state link history represents. represents };

    ghost leaves = { λ state link history represents. represents };

    fn into_quiet(self) -> Quiet {
        Quiet::Selected(self)
    }
}

impl QuietState for Open {
    ghost represents = { IsOpen };

    ghost quiet_of = { quiets.Open };

    ghost enters = { λ state link history represents. represents };

    ghost leaves = { λ state link history represents. represents };

    fn into_quiet(self) -> Quiet {
        Quiet::Open(self)
    }
}

/// What a step answers, with its states as one type.
pub(crate) fn quieted<Old: QuietState, New: QuietState>(
    answer: Result<Step<New>, (Old, StepError)>,
) -> Result<Step<Quiet>, (Quiet, StepError)>
    ensures { result ≡ taken_as Old.quiet_of New.quiet_of answer }
{
    match answer {
        Ok(step) => Ok(Step {
            state: step.state.into_quiet(),
            said: step.said,
            changes: step.changes,
        }),
        Err((state, error)) => Err((state.into_quiet(), error)),
    }
}
