//! A link that stands.
ghost use Rattle.std.specs.Prelude.{◌≡◌, IfOk, IfSome, None, OnOk, true};
ghost use Rattle.vf_filestore.specs.State.{arrived as arrived_meant};
ghost use Rattle.vf_party.specs.Hearing.{outcome_in};
ghost use Rattle.vf_party.specs.Settings.{setting_of};
ghost use Rattle.vf_party.specs.Turns.{LeavesParty};
ghost use Rattle.vf_responder.specs.Answers.{setting_at};
ghost use Rattle.vf_responder.specs.Hears.{IsHeard};
ghost use Rattle.vf_responder.specs.Replies.{sending_all};
ghost use Rattle.vf_responder.specs.Represents.{IsLink};
ghost use Rattle.vf_responder.specs.Steps.{IsAsked, IsCalled, IsSaid, TakesOn};
ghost use Rattle.vf_session.specs.declared.units.TokenSide.TheVariants as sides;
ghost use Rattle.vf_stack.specs.Association.{Association, beginning};
ghost use Rattle.vf_stack.specs.Receiving.{octets_received};
ghost use Rattle.vf_stack.specs.declared.indication.Indication.{Indication as IndicationMeant};
ghost use Rattle.vf_stack.specs.declared.indication.Indication.TheVariants as indications;
ghost use Rattle.vf_tables.specs.Changes.{after_all};

use crate::event::Reply;
use crate::meaning::{Asked, PLAIN};
use crate::replies::{send_all, speak};
use crate::spoken::Spoken;
use std::alloc::Global;
use std::mem;
use vf_base::{Moment, NoMemory};
use vf_elements::Said;
use vf_locks::Locks;
use vf_party::{Answered, Message, Party, Setting};
use vf_stack::{Indication, Stack};
use vf_tables::Tables;

/// What its lower layers have received and sent, and the party on it.
pub(crate) struct Link {
    pub(crate) number: u32,
    pub(crate) stack: Stack,
    /// One that has just arrived where it is gone.
    pub(crate) party: Party,
}

impl Drop for Link {
    fn drop(self) {
        let Link {
            number: _,
            stack,
            party,
        } = self;
        drop(stack);
        drop(party);
    }
}

impl Link {
    /// A link that has just arrived.
    pub(crate) fn arrived(alloc: Global, number: u32) -> Result<Link, NoMemory>
        ensures { IfOk result (λ link. IsLink number link (arrived_meant number) beginning) }
    {
        let stack = Stack::called(alloc)?;
        Ok(Link {
            number,
            stack,
            party: Party::arrived(number),
        })
    }

    /// Hears octets, and speaks what transport answers to them. Says what they tell.
    pub(crate) fn hear(
        &mut self,
        alloc: Global,
        octets: &[u8],
        replies: &mut Vec<Reply>,
    ) -> Result<Vec<Indication>, NoMemory>
        ensures heard { IfOk result (λ told. (association : Association) → IsCalled self.old.stack association
            → IsHeard self.old.number (octets_received sides.Responder association octets.now) replies.old.items self.new.stack told.items replies.new.items) }
        ensures party { self.new.party ≡ self.old.party }
        ensures number { self.new.number ≡ self.old.number }
    {
        let mut told = Vec::new(alloc);
        let mut answers = Vec::new(alloc);
        self.stack.feed(octets, &mut told, &mut answers)?;
        speak(self.number, Spoken::of(alloc, answers), false, replies)?;
        Ok(told)
    }

    /// What the session says of the moment.
    fn setting(&self, moment: Moment, asked: Asked) -> Setting
        ensures { (association : Association) (indication : IndicationMeant) → IsCalled self.now.stack association → IsAsked asked indication
            → setting_of result ≡ setting_at moment association indication }
    {
        Setting {
            moment,
            serial: self.stack.next_serial(),
            token: self.stack.token(),
            sync: asked.sync,
        }
    }

    /// The party takes a message in its place: one that is left stands there. Where it is lent a second of the tables, that
    /// is left with the changes, or none is.
    pub(crate) fn turn(
        &mut self,
        alloc: Global,
        moment: Moment,
        asked: Asked,
        message: Message,
        tables: &Tables,
        locks: &mut Locks,
        spare: &mut Option<Tables>,
    ) -> Result<Answered, NoMemory>
        requires { IfSome spare.old (λ second. second ≡ tables.now) }
        ensures taken { IfOk result (λ heard. TakesOn tables.now locks.old locks.new self.old moment asked message (outcome_in self.new.party heard)) }
        ensures ahead { IfOk result (λ heard. IfSome spare.new (λ second. second ≡ after_all tables.now heard.changes)) }
        ensures stack { self.new.stack ≡ self.old.stack }
        ensures number { self.new.number ≡ self.old.number }
    {
        let setting = self.setting(moment, asked);
        let heard = self
            .party
            .hear_over(alloc, message, setting, tables, locks, spare)?;
        Ok(heard)
    }

    /// Speaks what the party says, and shuts the link after it or not.
    pub(crate) fn speak(
        &mut self,
        alloc: Global,
        asked: Asked,
        said: Vec<Said>,
        shut: bool,
        replies: &mut Vec<Reply>,
    ) -> Result<(), NoMemory>
        ensures said { OnOk result ((association : Association) (indication : IndicationMeant) → IsCalled self.old.stack association → IsAsked asked indication
            → IsSaid self.old.number (sending_all indication association said.items) shut replies.old.items self.new.stack replies.new.items) }
        ensures party { self.new.party ≡ self.old.party }
        ensures number { self.new.number ≡ self.old.number }
    {
        let mut out = Spoken::new(alloc);
        send_all(alloc, &mut self.stack, asked, said, &mut out)?;
        speak(self.number, out, shut, replies)?;
        Ok(())
    }

    /// The party is gone, once this is said, and the link is shut.
    pub(crate) fn leave(
        &mut self,
        alloc: Global,
        said: Vec<Said>,
        locks: &mut Locks,
        replies: &mut Vec<Reply>,
    ) -> Result<(), NoMemory>
        ensures said { OnOk result ((association : Association) → IsCalled self.old.stack association
            → IsSaid self.old.number (sending_all (indications.Abort None) association said.items) true replies.old.items self.new.stack replies.new.items) }
        ensures leaves { LeavesParty self.old.party locks.old locks.new }
        ensures number { self.new.number ≡ self.old.number }
    {
        let party = mem::replace(&mut self.party, Party::arrived(self.number));
        party.leave(locks);
        self.speak(alloc, PLAIN, said, true, replies)?;
        Ok(())
    }

    /// The link has ended, and its party is gone.
    pub(crate) fn end(self, locks: &mut Locks)
        ensures { LeavesParty self.party locks.old locks.new }
    {
        let Link {
            number: _,
            stack,
            party,
        } = self;
        party.leave(locks);
        drop(stack);
    }
}
