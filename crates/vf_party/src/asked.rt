//! What others ask of a party.
ghost use Rattle.std.specs.Prelude.{◌≡◌, ℕ, Some, option_copied, option_map};
ghost use Rattle.vf_filestore.specs.History.{History, association, regime};
ghost use Rattle.vf_filestore.specs.Opening.{is_at as is_at_meant};
ghost use Rattle.vf_filestore.specs.Stage.{stage as stage_meant};
ghost use Rattle.vf_filestore.specs.State.{StandingParty, activity_in as activity_meant, activity_of};
ghost use Rattle.vf_filestore.specs.Transfers.{last_check as last_check_meant, under_way};
ghost use Rattle.vf_party.specs.Quiets.{IsQuiet};
ghost use Rattle.vf_party.specs.Turns.{IsParty};

use crate::{Party, Quiet};
use vf_base::Name;
use vf_elements::Stage;

impl Party {
    /// The stage of the party (ISO 8571-4).
    pub fn stage(&self) -> Stage
        ensures { (standing : StandingParty) → IsParty self.now standing → result ≡ stage_meant standing }
    {
        match self {
            Party::Idle(_) => Stage::Idle,
            Party::Quiet(quiet) => quiet.stage(),
            Party::Reading(reading) => reading.stage(),
            Party::Writing(writing) => writing.stage(),
            Party::Grouping(_) => Stage::Grouping,
        }
    }

    /// The identity of its association; absent where it has none.
    pub fn identity(&self) -> Option<&Name>
        ensures { (standing : StandingParty) → IsParty self.now standing → option_copied result ≡ option_map (λ association. association.identity) (association standing.history) }
    {
        match self {
            Party::Idle(_) => None,
            Party::Quiet(quiet) => Some(quiet.identity()),
            Party::Reading(reading) => Some(&reading.association().identity),
            Party::Writing(writing) => Some(&writing.association().identity),
            Party::Grouping(grouping) => Some(grouping.quiet.identity()),
        }
    }

    /// The activity of its open, where it has one and that is recoverable.
    pub fn activity(&self) -> Option<u32>
        ensures { (standing : StandingParty) → IsParty self.now standing → result ≡ activity_of standing }
    {
        match self {
            Party::Idle(_) => None,
            Party::Quiet(quiet) => quiet.activity(),
            Party::Reading(reading) => reading.activity(),
            Party::Writing(writing) => writing.activity(),
            Party::Grouping(grouping) => grouping.quiet.activity(),
        }
    }

    /// Whether it has this identity and a recoverable open of this activity.
    pub fn is_at(&self, identity: &Name, activity: u32) -> bool
        ensures { (standing : StandingParty) → IsParty self.now standing → result ≡ is_at_meant identity.now activity standing }
    {
        if self.activity() != Some(activity) {
            return false;
        }
        match self.identity() {
            Some(own) => own == identity,
            None => false,
        }
    }

    /// The last check that stands of the transfer that is under way, 0 before the first; absent where none is under way.
    pub fn last_check(&self) -> Option<u32>
        ensures { (standing : StandingParty) → IsParty self.now standing → result ≡ option_map (λ transfer. last_check_meant standing.history) (under_way standing.history) }
    {
        match self {
            Party::Idle(_) => None,
            Party::Quiet(_) => None,
            Party::Reading(reading) => Some(reading.check_number()),
            Party::Writing(writing) => Some(writing.check_number()),
            Party::Grouping(_) => None,
        }
    }
}

impl Quiet {
    /// The identity of the association.
    fn identity(&self) -> &Name
        ensures { (link : ℕ) (history : History) → IsQuiet self.now link history → option_map (λ association. association.identity) (association history) ≡ Some result.now }
    {
        match self {
            Quiet::Associated(associated) => &associated.association().identity,
            Quiet::Selected(selected) => &selected.association().identity,
            Quiet::Open(open) => &open.association().identity,
        }
    }

    /// The activity of the open, where it has one and that is recoverable.
    fn activity(&self) -> Option<u32>
        ensures { (link : ℕ) (history : History) → IsQuiet self.now link history → result ≡ activity_meant (regime history) }
    {
        match self {
            Quiet::Associated(_) => None,
            Quiet::Selected(_) => None,
            Quiet::Open(open) => open.activity(),
        }
    }
}
