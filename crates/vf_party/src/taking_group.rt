//! What comes of a message in a group that isn't ended (ISO 8571-3, grouping; profile).
ghost use Rattle.std.specs.Prelude.{◌≡◌, IfOk, IfSome, true};
ghost use Rattle.vf_elements.specs.Stages.{takes};
ghost use Rattle.vf_elements.specs.declared.message.Message.TheVariants as messages;
ghost use Rattle.vf_elements.specs.declared.stage.Stage.TheVariants as stages;
ghost use Rattle.vf_party.specs.GroupEnds.{end_message};
ghost use Rattle.vf_party.specs.GroupTurns.{EndsAs, IsAdded, IsGroupTurn, IsInGroup};
ghost use Rattle.vf_party.specs.Hearing.{turn_in};
ghost use Rattle.vf_party.specs.Settings.{setting_of};
ghost use Rattle.vf_party.specs.Turns.{IsTurn};
ghost use Rattle.vf_party.specs.declared.party.Grouping.{Grouping as GroupingMeant};
ghost use Rattle.vf_party.specs.declared.party.Party.TheVariants as parties;
ghost use Rattle.vf_tables.specs.Changes.{after_all};

use crate::aborting::WRONG_STATE;
use crate::departing::{aborted_at, ended};
use crate::grouping::end_group;
use crate::hearing::{Answered, settled};
use crate::items::is_item;
use crate::party::{Grouping, Outcome, Party, PartyState};
use crate::{Message, Quiet, Setting, Step, StepError};
use std::alloc::Global;
use std::mem;
use vf_base::{NoMemory, Sequence};
use vf_elements::Stage;
use vf_locks::Locks;
use vf_pdu::Pdu;
use vf_tables::{Changes, Tables};

/// How many items a group has at most.
const MOST_ITEMS: usize = 16;

impl PartyState for Grouping {
    ghost represents = { IsInGroup };

    ghost party_of = { parties.Grouping };

    fn into_party(self) -> Party {
        Party::Grouping(self)
    }

    fn leave(self, locks: &mut Locks) {
        Quiet::leave(self.quiet, locks);
    }
}

/// Takes a message: an item more, the group's end, or what ends the association.
#[inline(never)]
pub(crate) fn take_grouping(
    grouping: Grouping,
    alloc: Global,
    message: Message,
    setting: Setting,
    tables: &Tables,
    locks: &mut Locks,
) -> Result<Outcome, (Party, NoMemory)>
    ensures { IsGroupTurn tables.now locks.old locks.new grouping (setting_of setting) message result }
{
    let stage = Stage::Grouping;
    if !stage.takes(&message) {
        return aborted_at(alloc, grouping, message, WRONG_STATE, locks);
    }
    return take_taken(grouping, alloc, message, setting, tables, locks);
}

/// Takes a message that a group takes.
fn take_taken(
    grouping: Grouping,
    alloc: Global,
    message: Message,
    setting: Setting,
    tables: &Tables,
    locks: &mut Locks,
) -> Result<Outcome, (Party, NoMemory)>
    requires { takes stages.Grouping message ≡ true }
    ensures { IsGroupTurn tables.now locks.old locks.new grouping (setting_of setting) message result }
{
    match message {
        Message::Pdu(request) => {
            return take_request(grouping, alloc, request, setting, tables, locks);
        }
        Message::Break => Ok(ended(alloc, grouping, Vec::new(alloc), locks)),
        Message::Element(_) => unreachable!(),
        Message::Check => unreachable!(),
        Message::Acknowledge { .. } => unreachable!(),
        Message::Restart { .. } => unreachable!(),
    }
}

/// Takes a request that a group takes. Where the group is full, an item more aborts.
fn take_request(
    grouping: Grouping,
    alloc: Global,
    request: Pdu,
    setting: Setting,
    tables: &Tables,
    locks: &mut Locks,
) -> Result<Outcome, (Party, NoMemory)>
    requires { takes stages.Grouping (messages.Pdu request) ≡ true }
    ensures { IsGroupTurn tables.now locks.old locks.new grouping (setting_of setting) (messages.Pdu request) result }
{
    let is_item = is_item(&request);
    if is_item {
        if MOST_ITEMS <= grouping.items.len() {
            return aborted_at(alloc, grouping, Message::Pdu(request), WRONG_STATE, locks);
        }
        return added(alloc, grouping, request);
    }
    let number = request.number();
    drop(request);
    if number == 24 {
        return take_end(grouping, alloc, setting, tables, locks);
    }
    Ok(ended(alloc, grouping, Vec::new(alloc), locks))
}

/// The group has an item more.
fn added(alloc: Global, grouping: Grouping, item: Pdu) -> Result<Outcome, (Party, NoMemory)>
    ensures { IsAdded grouping item result }
{
    let Grouping {
        quiet,
        threshold,
        items,
    } = grouping;
    let mut items = items;
    let pushed = items.push(item);
    let grouping = Grouping {
        quiet,
        threshold,
        items,
    };
    if pushed.is_err() {
        return Err((Party::Grouping(grouping), NoMemory));
    }
    Ok(Outcome {
        party: Some(Party::Grouping(grouping)),
        said: Vec::new(alloc),
        changes: Changes::new(alloc),
    })
}

/// The group ends.
fn take_end(
    grouping: Grouping,
    alloc: Global,
    setting: Setting,
    tables: &Tables,
    locks: &mut Locks,
) -> Result<Outcome, (Party, NoMemory)>
    ensures { IsGroupTurn tables.now locks.old locks.new grouping (setting_of setting) end_message result }
{
    let mut spare = None;
    return end_over(grouping, alloc, setting, tables, locks, &mut spare);
}

/// The end of the group of a party comes, which it takes in its place.
#[inline(never)]
pub(crate) fn hear_end(
    party: &mut Party,
    alloc: Global,
    setting: Setting,
    tables: &Tables,
    locks: &mut Locks,
    spare: &mut Option<Tables>,
) -> Result<Answered, NoMemory>
    requires party { (grouping : GroupingMeant) × (party.old ≡ parties.Grouping grouping) }
    requires lent { IfSome spare.old (λ second. second ≡ tables.now) }
    ensures turn { IsTurn tables.now locks.old locks.new party.old (setting_of setting) end_message (turn_in party.new result) }
    ensures ahead { IfOk result (λ heard. IfSome spare.new (λ second. second ≡ after_all tables.now heard.changes)) }
{
    let grouping = grouping_in(mem::replace(party, Party::arrived(0)));
    let taken = end_over(grouping, alloc, setting, tables, locks, spare);
    return settled(party, taken);
}

/// The group that a party is in.
fn grouping_in(party: Party) -> Grouping
    requires { (grouping : GroupingMeant) × (party ≡ parties.Grouping grouping) }
    ensures { party ≡ parties.Grouping result }
{
    let Party::Grouping(grouping) = party else {
        unreachable!()
    };
    grouping
}

/// The group ends; its items are tried on the tables of `spare`, if it has any.
fn end_over(
    grouping: Grouping,
    alloc: Global,
    setting: Setting,
    tables: &Tables,
    locks: &mut Locks,
    spare: &mut Option<Tables>,
) -> Result<Outcome, (Party, NoMemory)>
    requires { IfSome spare.old (λ second. second ≡ tables.now) }
    ensures turn { IsGroupTurn tables.now locks.old locks.new grouping (setting_of setting) end_message result }
    ensures ahead { IfOk result (λ outcome. IfSome spare.new (λ second. second ≡ after_all tables.now outcome.changes)) }
{
    let Grouping {
        quiet,
        threshold,
        items,
    } = grouping;
    let answer = end_group(
        quiet,
        alloc,
        threshold,
        items.as_slice(),
        &setting,
        tables,
        locks,
        spare,
    );
    return over(threshold, items, answer);
}

/// What comes of the end of a group of these items, from what the end answers.
fn over(
    threshold: u8,
    items: Sequence<Pdu>,
    answer: Result<Step<Quiet>, (Quiet, StepError)>,
) -> Result<Outcome, (Party, NoMemory)>
    ensures { EndsAs threshold items answer result }
{
    match answer {
        Ok(step) => Ok(Outcome {
            party: Some(Party::Quiet(step.state)),
            said: step.said,
            changes: step.changes,
        }),
        Err((quiet, _error)) => {
            let grouping = Grouping {
                quiet,
                threshold,
                items,
            };
            Err((Party::Grouping(grouping), NoMemory))
        }
    }
}
