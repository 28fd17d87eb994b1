//! What is answered to octets, one thing that they tell after the other.
ghost use Rattle.std.specs.Prelude.{◌≡◌, ◌+◌, ◌<◌, ◌≤◌, ◌∷◌, [], ℕ, IfNone, IfOk, IfSome, None, OnErr, OnOk, Some, false, length, true};
ghost use Rattle.vf_elements.specs.declared.message.Said.TheVariants as answers;
ghost use Rattle.std.specs.List.{AllByRecursion};
ghost use Rattle.vf_filestore.specs.Ranges.{IsRead};
ghost use Rattle.vf_filestore.specs.State.{StandingParty};
ghost use Rattle.vf_party.specs.Turns.{IsParty};
ghost use Rattle.vf_responder.specs.Answers.{octets_heard, told, told_all};
ghost use Rattle.vf_responder.specs.Commits.{CommitsAlong, CommitsSo, commit_of, commits_heard, commits_taking, commits_told, commits_told_all, telling};
ghost use Rattle.vf_responder.specs.Full.{FullAlong, WhereFull};
ghost use Rattle.vf_responder.specs.Represents.{AnswerCauses, Does, GivesWay, IsErrorOf, IsWith, KeepsAlong, kept_of, Represents, link_of, put_back, recovered_by, with_link};
ghost use Rattle.vf_responder.specs.declared.link.Link.{Link as LinkMeant};
ghost use Rattle.vf_responder.specs.Serving.{Serving};
ghost use Rattle.vf_responder.specs.Steps.{IsAsked, IsReadTold, taking};
ghost use Rattle.vf_disk.specs.Disk.{LeavesOnly};
ghost use Rattle.vf_store.specs.Commit.{AreFitting, placed};
ghost use Rattle.vf_store.specs.Represented.{RepresentsEither};
ghost use Rattle.vf_store.specs.StoreState.{IsRepresented};
ghost use Rattle.vf_tables.specs.Changes.{after_all};
ghost use Rattle.vf_tpkt.specs.Wanting.{lacking};
ghost use Rattle.vf_stack.specs.declared.indication.Indication.{Indication as IndicationMeant};

use crate::event::Reply;
use crate::keeping::{Keeping, put};
use crate::link::Link;
use crate::meaning::{Asked, Meaning, SUPERSEDED, asked_by, meaning_of};
use std::alloc::Global;
use vf_base::{Moment, Name, NoMemory};
use vf_disk::Disk;
use vf_elements::Stage;
use vf_party::{Answered, Message, Said};
use vf_pdu::Pdu;
use vf_stack::Indication;
use vf_store::StoreError;
use vf_tables::{Changes, Tables};

/// A list of one abort.
fn abort(alloc: Global, number: u16, place: u64) -> Result<Vec<Said>, NoMemory>
    ensures { IfOk result (λ said. said.items ≡ answers.Abort number place ∷ []) }
{
    let mut said = Vec::new(alloc);
    said.push(Said::Abort { number, place })?;
    Ok(said)
}

/// The activity that a message asks to recover, where the link's stage takes it.
fn recovering(link: &Link, message: &Message) -> Option<u32>
    ensures { (party : StandingParty) → IsParty link.now.party party → result ≡ recovered_by party message.now }
{
    match message {
        Message::Pdu(Pdu::RecoverRequest { activity, .. }) => {
            if link.party.stage() == Stage::Associated {
                Some(*activity)
            } else {
                None
            }
        }
        _ => None,
    }
}

impl<D: Disk> Keeping<D> {
    /// Octets come on a link. What is said is said before the next of them is heard; after an error nothing of it is appended.
    pub(crate) fn hear(
        &mut self,
        alloc: Global,
        number: u32,
        moment: Moment,
        octets: &[u8],
        replies: &mut Vec<Reply>,
    ) -> Result<(), StoreError>
        ensures answers { OnOk result (Does (λ serving. octets_heard moment number serving octets.now) (kept_of self.old) replies.old.items (kept_of self.new) replies.new.items) }
        ensures represented { (serving : Serving) → Represents (kept_of self.old) serving → IsRepresented D.shown D.may_leave self.old.store → OnOk result (IsRepresented D.shown D.may_leave self.new.store) }
        ensures any_moment { KeepsAlong (λ serving. octets_heard moment number serving octets.now) D.shown D.may_leave D.moment D.left_since (kept_of self.old) (kept_of self.new) }
        ensures full { FullAlong (λ serving. octets_heard moment number serving octets.now) (kept_of self.old) self.new.store result }
        ensures commits { CommitsAlong (telling D.plan D.state D.lack_count) (λ serving. commits_heard moment number serving octets.now) (kept_of self.old) self.new.store result }
        ensures causes { AnswerCauses self.old.store.journal.limit (D.fault_count self.old.store.disk) (D.fault_count self.new.store.disk) result }
        ensures limit { self.new.store.journal.limit ≡ self.old.store.journal.limit }
        ensures bound { length self.old.links.entries ≤ 64 → length self.new.links.entries ≤ 64 }
        ensures err { OnErr result (replies.new.items ≡ replies.old.items) }
    {
        let Some(link) = self.links.swap_remove(&number) else {
            return Ok(());
        };
        let mut link = link;
        let mut said = Vec::new(alloc);
        let heard = self.hear_all(alloc, &mut link, moment, octets, &mut said);
        self.put_back(link, heard)?;
        replies.append(&mut said)?;
        Ok(())
    }

    /// A link that was taken out of the others is put back where it goes on.
    fn put_back(&mut self, link: Link, heard: Result<bool, StoreError>) -> Result<(), StoreError>
        ensures answers { OnOk result (IfOk heard (λ goes. link_of link.number self.old.links.entries ≡ None → self.new.links.entries ≡ (put_back goes link (kept_of self.old)).links)) }
        ensures rest { (self.new.store ≡ self.old.store) × (self.new.locks ≡ self.old.locks) }
        ensures error { IsErrorOf heard result }
        ensures length { length self.new.links.entries ≤ length self.old.links.entries + 1 }
    {
        match heard {
            Ok(true) => {
                put(&mut self.links, link)?;
                Ok(())
            }
            Ok(false) => {
                drop(link);
                Ok(())
            }
            Err(error) => {
                drop(link);
                Err(error)
            }
        }
    }

    /// Hears octets up to the one with which the link's party is gone. Says whether it goes on.
    fn hear_all(
        &mut self,
        alloc: Global,
        link: &mut Link,
        moment: Moment,
        octets: &[u8],
        replies: &mut Vec<Reply>,
    ) -> Result<bool, StoreError>
        ensures answers { IfOk result (λ goes. Does (λ serving. octets_heard moment link.old.number serving octets.now) (with_link link.old (kept_of self.old)) replies.old.items (put_back goes link.new (kept_of self.new)) replies.new.items) }
        ensures represented { (serving : Serving) → Represents (with_link link.old (kept_of self.old)) serving → IsRepresented D.shown D.may_leave self.old.store → OnOk result (IsRepresented D.shown D.may_leave self.new.store) }
        ensures any_moment { KeepsAlong (λ serving. octets_heard moment link.old.number serving octets.now) D.shown D.may_leave D.moment D.left_since (with_link link.old (kept_of self.old)) (kept_of self.new) }
        ensures full { FullAlong (λ serving. octets_heard moment link.old.number serving octets.now) (with_link link.old (kept_of self.old)) self.new.store result }
        ensures commits { CommitsAlong (telling D.plan D.state D.lack_count) (λ serving. commits_heard moment link.old.number serving octets.now) (with_link link.old (kept_of self.old)) self.new.store result }
        ensures causes { AnswerCauses self.old.store.journal.limit (D.fault_count self.old.store.disk) (D.fault_count self.new.store.disk) result }
        ensures limit { self.new.store.journal.limit ≡ self.old.store.journal.limit }
        ensures number { link.new.number ≡ link.old.number }
        ensures fewer { length self.new.links.entries ≤ length self.old.links.entries }
        ensures apart { link_of link.old.number self.old.links.entries ≡ None → link_of link.old.number self.new.links.entries ≡ None }
    {
        let mut rest = octets;
        while !rest.is_empty() {
            let (front, more) = rest.split_at(link.stack.wanted().min(rest.len()));
            if !self.hear_few(alloc, link, moment, front, replies)? {
                return Ok(false);
            }
            rest = more;
        }
        Ok(true)
    }

    /// Hears so few octets that they tell one thing at most, by the last of them or by one that ends receiving.
    fn hear_few(
        &mut self,
        alloc: Global,
        link: &mut Link,
        moment: Moment,
        octets: &[u8],
        replies: &mut Vec<Reply>,
    ) -> Result<bool, StoreError>
        requires some { 0 < length octets.now }
        requires few { length octets.now ≤ lacking link.old.stack.transport.packet }
        ensures answers { IfOk result (λ goes. Does (λ serving. octets_heard moment link.old.number serving octets.now) (with_link link.old (kept_of self.old)) replies.old.items (put_back goes link.new (kept_of self.new)) replies.new.items) }
        ensures represented { (serving : Serving) → Represents (with_link link.old (kept_of self.old)) serving → IsRepresented D.shown D.may_leave self.old.store → OnOk result (IsRepresented D.shown D.may_leave self.new.store) }
        ensures any_moment { KeepsAlong (λ serving. octets_heard moment link.old.number serving octets.now) D.shown D.may_leave D.moment D.left_since (with_link link.old (kept_of self.old)) (kept_of self.new) }
        ensures full { FullAlong (λ serving. octets_heard moment link.old.number serving octets.now) (with_link link.old (kept_of self.old)) self.new.store result }
        ensures commits { CommitsAlong (telling D.plan D.state D.lack_count) (λ serving. commits_heard moment link.old.number serving octets.now) (with_link link.old (kept_of self.old)) self.new.store result }
        ensures causes { AnswerCauses self.old.store.journal.limit (D.fault_count self.old.store.disk) (D.fault_count self.new.store.disk) result }
        ensures limit { self.new.store.journal.limit ≡ self.old.store.journal.limit }
        ensures number { link.new.number ≡ link.old.number }
        ensures fewer { length self.new.links.entries ≤ length self.old.links.entries }
        ensures apart { link_of link.old.number self.old.links.entries ≡ None → link_of link.old.number self.new.links.entries ≡ None }
    {
        let told = link.hear(alloc, octets, replies)?;
        if !self.tell_all(alloc, link, moment, told, replies)? {
            return Ok(false);
        }
        if link.stack.ended() {
            link.leave(alloc, Vec::new(alloc), &mut self.locks, replies)?;
            return Ok(false);
        }
        Ok(true)
    }

    fn tell_all(
        &mut self,
        alloc: Global,
        link: &mut Link,
        moment: Moment,
        indications: Vec<Indication>,
        replies: &mut Vec<Reply>,
    ) -> Result<bool, StoreError>
        ensures answers { AllByRecursion IsReadTold indications.items → IfOk result (λ goes. Does (λ serving. told_all moment link.old.number serving indications.items) (with_link link.old (kept_of self.old)) replies.old.items (put_back goes link.new (kept_of self.new)) replies.new.items) }
        ensures represented { AllByRecursion IsReadTold indications.items → (serving : Serving) → Represents (with_link link.old (kept_of self.old)) serving → IsRepresented D.shown D.may_leave self.old.store → OnOk result (IsRepresented D.shown D.may_leave self.new.store) }
        ensures any_moment { AllByRecursion IsReadTold indications.items → KeepsAlong (λ serving. told_all moment link.old.number serving indications.items) D.shown D.may_leave D.moment D.left_since (with_link link.old (kept_of self.old)) (kept_of self.new) }
        ensures full { AllByRecursion IsReadTold indications.items → FullAlong (λ serving. told_all moment link.old.number serving indications.items) (with_link link.old (kept_of self.old)) self.new.store result }
        ensures commits { AllByRecursion IsReadTold indications.items → CommitsAlong (telling D.plan D.state D.lack_count) (λ serving. commits_told_all moment link.old.number serving indications.items) (with_link link.old (kept_of self.old)) self.new.store result }
        ensures causes { AnswerCauses self.old.store.journal.limit (D.fault_count self.old.store.disk) (D.fault_count self.new.store.disk) result }
        ensures limit { self.new.store.journal.limit ≡ self.old.store.journal.limit }
        ensures number { link.new.number ≡ link.old.number }
        ensures fewer { length self.new.links.entries ≤ length self.old.links.entries }
        ensures apart { link_of link.old.number self.old.links.entries ≡ None → link_of link.old.number self.new.links.entries ≡ None }
    {
        for indication in indications {
            if !self.tell(alloc, link, moment, indication, replies)? {
                return Ok(false);
            }
        }
        Ok(true)
    }

    /// An indication comes to the link's party.
    fn tell(
        &mut self,
        alloc: Global,
        link: &mut Link,
        moment: Moment,
        indication: Indication,
        replies: &mut Vec<Reply>,
    ) -> Result<bool, StoreError>
        ensures answers { IsReadTold indication → IfOk result (λ goes. Does (λ serving. told moment link.old.number serving indication) (with_link link.old (kept_of self.old)) replies.old.items (put_back goes link.new (kept_of self.new)) replies.new.items) }
        ensures represented { IsReadTold indication → (serving : Serving) → Represents (with_link link.old (kept_of self.old)) serving → IsRepresented D.shown D.may_leave self.old.store → OnOk result (IsRepresented D.shown D.may_leave self.new.store) }
        ensures any_moment { IsReadTold indication → KeepsAlong (λ serving. told moment link.old.number serving indication) D.shown D.may_leave D.moment D.left_since (with_link link.old (kept_of self.old)) (kept_of self.new) }
        ensures full { IsReadTold indication → FullAlong (λ serving. told moment link.old.number serving indication) (with_link link.old (kept_of self.old)) self.new.store result }
        ensures commits { IsReadTold indication → CommitsAlong (telling D.plan D.state D.lack_count) (λ serving. commits_told moment link.old.number serving indication) (with_link link.old (kept_of self.old)) self.new.store result }
        ensures causes { AnswerCauses self.old.store.journal.limit (D.fault_count self.old.store.disk) (D.fault_count self.new.store.disk) result }
        ensures limit { self.new.store.journal.limit ≡ self.old.store.journal.limit }
        ensures number { link.new.number ≡ link.old.number }
        ensures fewer { length self.new.links.entries ≤ length self.old.links.entries }
        ensures apart { link_of link.old.number self.old.links.entries ≡ None → link_of link.old.number self.new.links.entries ≡ None }
    {
        let asked = asked_by(&indication);
        let next = link.stack.next_serial();
        match meaning_of(next, link.party.last_check(), indication) {
            Meaning::Takes(message) => self.take(alloc, link, moment, asked, message, replies),
            Meaning::Faults { number, place } => {
                let said = abort(alloc, number, place)?;
                link.leave(alloc, said, &mut self.locks, replies)?;
                Ok(false)
            }
            Meaning::Nothing => Ok(true),
        }
    }

    /// A message comes to the link's party: what it changes is on the disk before anything is said.
    fn take(
        &mut self,
        alloc: Global,
        link: &mut Link,
        moment: Moment,
        asked: Asked,
        message: Message,
        replies: &mut Vec<Reply>,
    ) -> Result<bool, StoreError>
        ensures answers { (indication : IndicationMeant) → IsRead message → IsAsked asked indication → IfOk result (λ goes. Does (λ serving. taking moment link.old.number serving indication message) (with_link link.old (kept_of self.old)) replies.old.items (put_back goes link.new (kept_of self.new)) replies.new.items) }
        ensures represented { (serving : Serving) → Represents (with_link link.old (kept_of self.old)) serving → (indication : IndicationMeant) → IsRead message → IsAsked asked indication → IsRepresented D.shown D.may_leave self.old.store → OnOk result (IsRepresented D.shown D.may_leave self.new.store) }
        ensures any_moment { (indication : IndicationMeant) → IsRead message → IsAsked asked indication → KeepsAlong (λ serving. taking moment link.old.number serving indication message) D.shown D.may_leave D.moment D.left_since (with_link link.old (kept_of self.old)) (kept_of self.new) }
        ensures full { (indication : IndicationMeant) → IsRead message → IsAsked asked indication → FullAlong (λ serving. taking moment link.old.number serving indication message) (with_link link.old (kept_of self.old)) self.new.store result }
        ensures commits { (indication : IndicationMeant) → IsAsked asked indication → CommitsAlong (telling D.plan D.state D.lack_count) (λ serving. commits_taking moment link.old.number serving indication message) (with_link link.old (kept_of self.old)) self.new.store result }
        ensures causes { AnswerCauses self.old.store.journal.limit (D.fault_count self.old.store.disk) (D.fault_count self.new.store.disk) result }
        ensures limit { self.new.store.journal.limit ≡ self.old.store.journal.limit }
        ensures number { link.new.number ≡ link.old.number }
        ensures fewer { length self.new.links.entries ≤ length self.old.links.entries }
        ensures apart { link_of link.old.number self.old.links.entries ≡ None → link_of link.old.number self.new.links.entries ≡ None }
    {
        let Ok(()) = self.give_way(alloc, link, &message, replies) else {
            drop(message);
            return Err(StoreError::NoMemory);
        };
        let mut spare = self.lend(link, &message);
        let tables = self.store.tables();
        let Answered {
            goes,
            said,
            changes,
        } = link.turn(
            alloc,
            moment,
            asked,
            message,
            tables,
            &mut self.locks,
            &mut spare,
        )?;
        if let Err(error) = self.keep(alloc, changes, spare) {
            drop(said);
            return Err(error);
        }
        link.speak(alloc, asked, said, !goes, replies)?;
        Ok(goes)
    }

    /// Lends a second of the tables to a message that ends a group.
    fn lend(&mut self, link: &Link, message: &Message) -> Option<Tables>
        ensures lent { IfSome result (λ second. second ≡ self.old.store.tables) }
        ensures store { self.new.store ≡ self.old.store }
        ensures rest { (self.new.links ≡ self.old.links) × (self.new.locks ≡ self.old.locks) }
    {
        if !link.party.ends_group(message) {
            return None;
        }
        self.store.lend()
    }

    /// Makes the changes of a message, which may be made already in a second of the tables; without any the disk isn't called.
    fn keep(
        &mut self,
        alloc: Global,
        changes: Changes,
        ahead: Option<Tables>,
    ) -> Result<(), StoreError>
        requires { IfSome ahead (λ next. next ≡ after_all self.old.store.tables changes) }
        ensures tables { OnOk result (self.new.store.tables ≡ after_all self.old.store.tables changes) }
        ensures represented { AreFitting self.old.store.tables changes → IsRepresented D.shown D.may_leave self.old.store → OnOk result (IsRepresented D.shown D.may_leave self.new.store) }
        ensures any_moment { AreFitting self.old.store.tables changes → IsRepresented D.shown D.may_leave self.old.store
            → LeavesOnly D.moment D.left_since self.old.store.disk self.new.store.disk (RepresentsEither self.old.store.tables (after_all self.old.store.tables changes)) }
        ensures full { WhereFull result (λ place. (place ≡ (placed self.old.store.journal self.old.store.tables changes).end) × (self.new.store ≡ self.old.store)) }
        ensures commits { CommitsSo (telling D.plan D.state D.lack_count) (commit_of self.old.store.tables changes) self.old.store self.new.store result }
        ensures causes { AnswerCauses self.old.store.journal.limit (D.fault_count self.old.store.disk) (D.fault_count self.new.store.disk) result }
        ensures rest { (self.new.links ≡ self.old.links) × (self.new.locks ≡ self.old.locks) }
        ensures limit { self.new.store.journal.limit ≡ self.old.store.journal.limit }
    {
        if changes.as_slice().is_empty() {
            self.store.give_back(ahead);
            return Ok(());
        }
        self.store.commit_over(alloc, changes, ahead)
    }

    /// An association that stands with the identity and the activity that a recovery asks for is told so on its own link,
    /// and is gone.
    fn give_way(
        &mut self,
        alloc: Global,
        link: &Link,
        message: &Message,
        replies: &mut Vec<Reply>,
    ) -> Result<(), NoMemory>
        ensures way { OnOk result (GivesWay link.now message.now (kept_of self.old) replies.old.items (kept_of self.new) replies.new.items) }
        ensures store { self.new.store ≡ self.old.store }
        ensures fewer { length self.new.links.entries ≤ length self.old.links.entries }
        ensures apart { link_of link.now.number self.old.links.entries ≡ None → link_of link.now.number self.new.links.entries ≡ None }
    {
        let Some(activity) = recovering(link, message) else {
            return Ok(());
        };
        let Some(identity) = link.party.identity() else {
            return Ok(());
        };
        let Some(number) = self.link_with(identity, activity) else {
            return Ok(());
        };
        let said = abort(alloc, SUPERSEDED, 0)?;
        let Some(other) = self.links.swap_remove(&number) else {
            return Ok(());
        };
        let mut other = other;
        let left = other.leave(alloc, said, &mut self.locks, replies);
        drop(other);
        left?;
        Ok(())
    }

    /// The number of another link whose party has this identity and a recoverable open of this activity.
    fn link_with(&self, identity: &Name, activity: u32) -> Option<u32>
        ensures found { IfSome result (λ number. (link : LinkMeant) × (link_of number self.now.links.entries ≡ Some link) × IsWith identity.now activity true link) }
        ensures none { IfNone result ((number : ℕ) (link : LinkMeant) → link_of number self.now.links.entries ≡ Some link → IsWith identity.now activity false link) }
    {
        for index in 0..self.links.len() {
            let Some((number, link)) = self.links.get_index(index) else {
                return None;
            };
            if link.party.is_at(identity, activity) {
                return Some(*number);
            }
        }
        None
    }
}
