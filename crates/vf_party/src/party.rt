ghost use Rattle.std.specs.Prelude.{◌≡◌, ℕ, IfOk, IfSome};
ghost use Rattle.vf_filestore.specs.History.{History};
ghost use Rattle.vf_filestore.specs.State.{arrived as arrived_meant};
ghost use Rattle.vf_party_steps.specs.Leaving.{LeavesHolders};
ghost use Rattle.vf_party.specs.GroupEnds.{ends_group as ends_group_meant};
ghost use Rattle.vf_party.specs.Hearing.{turn_in};
ghost use Rattle.vf_party.specs.Quiets.{IsQuiet};
ghost use Rattle.vf_party_steps.specs.Reads.{IsReading};
ghost use Rattle.vf_party_steps.specs.Recoveries.{IsRecovered};
ghost use Rattle.vf_party.specs.Settings.{setting_of};
ghost use Rattle.vf_party.specs.Turns.{IsParty, IsTurn, LeavesParty, party_of_recovered};
ghost use Rattle.vf_party_steps.specs.Represents.{IsAssociated, IsIdle, IsOpen, IsSelected};
ghost use Rattle.vf_party_steps.specs.Writes.{IsWriting};
ghost use Rattle.vf_party.specs.declared.party.Party.{Party as PartyMeant};
ghost use Rattle.vf_party.specs.declared.party.Party.TheVariants as parties;
ghost use Rattle.vf_party.specs.declared.quiet.Quiet.TheVariants as quiets;
ghost use Rattle.vf_tables.specs.Changes.{after_all};

use crate::hearing::{Answered, settled, told};
use crate::selecting::{deselects, hear_deselect, hear_select, selects};
use crate::taking_group::{hear_end, take_grouping};
use crate::taking_idle::take_idle;
use crate::taking_quiet::take_quiet;
use crate::taking_reading::take_reading;
use crate::taking_writing::take_writing;
use crate::writing_on::{hear_element, writes_on};
use crate::{
    Associated, Idle, Message, Open, Quiet, Reading, Recovered, Said, Selected, Setting, Writing,
};
use std::alloc::Global;
use std::mem;
use vf_base::{NoMemory, Sequence};
use vf_locks::Locks;
use vf_pdu::Pdu;
use vf_tables::{Changes, Tables};

/// One party of the filestore, in its innermost regime (ISO 8571-4).
#[derive(Drop)]
pub enum Party {
    Idle(Idle),
    Quiet(Quiet),
    Reading(Reading),
    Writing(Writing),
    Grouping(Grouping),
}

impl Party {
    /// The party of a link that has just arrived.
    pub fn arrived(link: u32) -> Party
        ensures { IsParty result (arrived_meant link) }
    {
        Party::Idle(Idle::new(link))
    }

    /// Takes a message: one transition of the filestore that keeps these tables and holders (ISO 8571-4). What it says is
    /// said on its link; a party that is gone has none after it. Without memory the party is given back as it was, and
    /// each file keeps its holders.
    pub fn take(
        self,
        alloc: Global,
        message: Message,
        setting: Setting,
        tables: &Tables,
        locks: &mut Locks,
    ) -> Result<Outcome, (Party, NoMemory)>
        ensures { IsTurn tables.now locks.old locks.new self (setting_of setting) message result }
    {
        match self {
            Party::Idle(idle) => return take_idle(idle, alloc, message, setting, tables, locks),
            Party::Quiet(quiet) => {
                let mut party = Party::arrived(0);
                let heard = take_quiet(&mut party, quiet, alloc, message, setting, tables, locks);
                return told(party, heard);
            }
            Party::Reading(reading) => {
                return take_reading(reading, alloc, message, setting, tables, locks);
            }
            Party::Writing(writing) => {
                return take_writing(writing, alloc, message, setting, tables, locks);
            }
            Party::Grouping(grouping) => {
                return take_grouping(grouping, alloc, message, setting, tables, locks);
            }
        }
    }

    /// Takes a message as `take` does, in the place of the party: one that is left stands there.
    pub fn hear(
        &mut self,
        alloc: Global,
        message: Message,
        setting: Setting,
        tables: &Tables,
        locks: &mut Locks,
    ) -> Result<Answered, NoMemory>
        ensures { IsTurn tables.now locks.old locks.new self.old (setting_of setting) message (turn_in self.new result) }
    {
        if writes_on(self, setting.serial, &message) {
            return hear_element(self, alloc, message, setting, tables, locks);
        }
        if selects(self, &message) {
            return hear_select(self, alloc, message, setting, tables, locks);
        }
        if deselects(self, &message) {
            return hear_deselect(self, alloc, message, setting, tables, locks);
        }
        return hear_any(self, alloc, message, setting, tables, locks);
    }

    /// Whether the message ends the group that the party is in.
    pub fn ends_group(&self, message: &Message) -> bool
        ensures { result ≡ ends_group_meant self.now message.now }
    {
        match self {
            Party::Grouping(_) => matches!(message, Message::Pdu(Pdu::EndGroupRequest)),
            _ => false,
        }
    }

    /// Takes a message as `hear` does. The end of a group tries its items on the tables of `spare`, where it has any, so
    /// that the tables aren't copied. After it `spare` has those after the changes, or none: where items changed them and
    /// the group isn't performed, where all changes undo each other, and after any other message.
    pub fn hear_over(
        &mut self,
        alloc: Global,
        message: Message,
        setting: Setting,
        tables: &Tables,
        locks: &mut Locks,
        spare: &mut Option<Tables>,
    ) -> Result<Answered, NoMemory>
        requires { IfSome spare.old (λ second. second ≡ tables.now) }
        ensures turn { IsTurn tables.now locks.old locks.new self.old (setting_of setting) message (turn_in self.new result) }
        ensures ahead { IfOk result (λ heard. IfSome spare.new (λ second. second ≡ after_all tables.now heard.changes)) }
    {
        if self.ends_group(&message) {
            drop(message);
            return hear_end(self, alloc, setting, tables, locks, spare);
        }
        *spare = None;
        return self.hear(alloc, message, setting, tables, locks);
    }

    /// The association is gone, without an answer: the docket of a recoverable open holds its file in the place of the
    /// party, and no other file is held by it.
    pub fn leave(self, locks: &mut Locks)
        ensures { LeavesParty self locks.old locks.new }
    {
        match self {
            Party::Idle(idle) => PartyState::leave(idle, locks),
            Party::Quiet(quiet) => PartyState::leave(quiet, locks),
            Party::Reading(reading) => PartyState::leave(reading, locks),
            Party::Writing(writing) => PartyState::leave(writing, locks),
            Party::Grouping(grouping) => PartyState::leave(grouping, locks),
        }
    }
}

/// Takes any message.
#[inline(never)]
fn hear_any(
    party: &mut Party,
    alloc: Global,
    message: Message,
    setting: Setting,
    tables: &Tables,
    locks: &mut Locks,
) -> Result<Answered, NoMemory>
    ensures { IsTurn tables.now locks.old locks.new party.old (setting_of setting) message (turn_in party.new result) }
{
    match mem::replace(party, Party::arrived(0)) {
        Party::Quiet(quiet) => {
            return take_quiet(party, quiet, alloc, message, setting, tables, locks);
        }
        before => {
            let taken = before.take(alloc, message, setting, tables, locks);
            return settled(party, taken);
        }
    }
}

/// A party in a group that isn't ended (ISO 8571-3, F-BEGIN-GROUP): nothing comes of its items before its end.
#[derive(Drop)]
pub struct Grouping {
    pub(crate) quiet: Quiet,
    /// How many items have to succeed.
    pub(crate) threshold: u8,
    pub(crate) items: Sequence<Pdu>,
}

/// What came of a message.
#[derive(Drop)]
pub struct Outcome {
    /// The party after it; absent where it is gone.
    pub party: Option<Party>,
    pub said: Vec<Said>,
    pub changes: Changes,
}

/// A state of a party outside of a group.
pub(crate) trait PartyState {
    /// Which links and histories it represents.
    ghost represents: { Self → ℕ → History → Type 0 };

    ghost party_of: { Self → PartyMeant };

    fn into_party(self) -> Party
        ensures { result ≡ party_of self };

    /// The association is gone.
    fn leave(self, locks: &mut Locks)
        ensures { LeavesHolders represents self locks.old locks.new };
}

impl PartyState for Idle {
    ghost represents = { IsIdle };

    ghost party_of = { parties.Idle };

    fn into_party(self) -> Party {
        Party::Idle(self)
    }

    fn leave(self, locks: &mut Locks) {
        Idle::leave(self, locks);
    }
}

impl PartyState for Quiet {
    ghost represents = { IsQuiet };

    ghost party_of = { parties.Quiet };

    fn into_party(self) -> Party {
        Party::Quiet(self)
    }

    fn leave(self, locks: &mut Locks) {
        Quiet::leave(self, locks);
    }
}

impl PartyState for Reading {
    ghost represents = { IsReading };

    ghost party_of = { parties.Reading };

    fn into_party(self) -> Party {
        Party::Reading(self)
    }

    fn leave(self, locks: &mut Locks) {
        Reading::leave(self, locks);
    }
}

impl PartyState for Writing {
    ghost represents = { IsWriting };

    ghost party_of = { parties.Writing };

    fn into_party(self) -> Party {
        Party::Writing(self)
    }

    fn leave(self, locks: &mut Locks) {
        Writing::leave(self, locks);
    }
}

impl PartyState for Associated {
    ghost represents = { IsAssociated };

    ghost party_of = { λ associated. parties.Quiet (quiets.Associated associated) };

    fn into_party(self) -> Party {
        Party::Quiet(Quiet::Associated(self))
    }

    fn leave(self, locks: &mut Locks) {
        Associated::leave(self, locks);
    }
}

impl PartyState for Selected {
    ghost represents = { IsSelected };

    ghost party_of = { λ selected. parties.Quiet (quiets.Selected selected) };

    fn into_party(self) -> Party {
        Party::Quiet(Quiet::Selected(self))
    }

    fn leave(self, locks: &mut Locks) {
        Selected::leave(self, locks);
    }
}

impl PartyState for Open {
    ghost represents = { IsOpen };

    ghost party_of = { λ regimes. parties.Quiet (quiets.Open regimes) };

    fn into_party(self) -> Party {
        Party::Quiet(Quiet::Open(self))
    }

    fn leave(self, locks: &mut Locks) {
        Open::leave(self, locks);
    }
}

impl PartyState for Recovered {
    ghost represents = { IsRecovered };

    ghost party_of = { party_of_recovered };

    fn into_party(self) -> Party {
        match self {
            Recovered::Open(regimes) => Party::Quiet(Quiet::Open(regimes)),
            Recovered::Reading(reading) => Party::Reading(reading),
            Recovered::Writing(writing) => Party::Writing(writing),
        }
    }

    fn leave(self, locks: &mut Locks) {
        match self {
            Recovered::Open(regimes) => regimes.leave(locks),
            Recovered::Reading(reading) => reading.leave(locks),
            Recovered::Writing(writing) => writing.leave(locks),
        }
    }
}
