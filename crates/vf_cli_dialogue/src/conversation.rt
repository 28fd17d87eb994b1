//! A conversation with one party.
ghost use Rattle.std.specs.Prelude.{◌≡◌, ◌++◌, ◌+◌, ◌<◌, ◌≤◌, [], ◌∷◌, drop, false, true, if◌then◌else◌, IfOk, All, IfSome, OnOk, Some, length, List, Ok, ℕ};
ghost use Rattle.std.specs.List.{flat_map, list_any};
ghost use Rattle.vf_ber.specs.Reader.{reading};
ghost use Rattle.vf_ber.specs.Reading.{IsReading, Read, Short};
ghost use Rattle.vf_ber.specs.Tree.{Tree, built, none};
ghost use Rattle.vf_elements.specs.Messages.{message_in};
ghost use Rattle.vf_elements.specs.declared.message.Message.TheVariants as messages;
ghost use Rattle.vf_ber.specs.Views.{tree_of};
ghost use Rattle.vf_ber_scan.specs.Scanned.{HasTaken};
ghost use Rattle.vf_cli_dialogue.specs.declared.conversation.After.TheVariants as ends;
ghost use Rattle.vf_cli_dialogue.specs.Conversation.{Adds, Advances, Appends, Holds, IsAnsweredBy, IsRest, IsTaking, Makes, Stands, TakesFirst, TakesReady, is_ready as ready_test, left_in, octets_in, size_of};
ghost use Rattle.vf_cli_dialogue.specs.Dialogue.{is_abort as abort_test, link, opened, outside, reply, setting as setting_meant};
ghost use Rattle.vf_filestore.specs.Sayable.{IsReadWhole, IsSayable};
ghost use Rattle.vf_filestore.specs.State.{State};
ghost use Rattle.vf_filestore.specs.Transition.{transition};
ghost use Rattle.vf_party.specs.Settings.{setting_of};
ghost use Rattle.vf_tables.specs.Changes.{after_all};

use crate::message::{append_reply, fault_in_octets, fault_in_value};
use crate::printed::Replies;
use std::alloc::Global;
use std::mem;
use vf_base::{Moment, NoMemory, Octets};
use vf_ber::Value;
use vf_ber_scan::Scan;
use vf_elements::{Message, Said};
use vf_locks::Locks;
use vf_party::{Answered, Party, Setting};
use vf_pdu::Pdu;
use vf_tables::{Changes, Doubled, Tables};

/// A filestore with one party.
pub(crate) struct Filestore {
    /// One that has just arrived where the party is gone.
    pub(crate) party: Party,
    pub(crate) tables: Doubled,
    pub(crate) locks: Locks,
}

impl Drop for Filestore {
    fn drop(self) {
        let Filestore {
            party,
            tables,
            locks,
        } = self;
        drop(party);
        drop(tables);
        drop(locks);
    }
}

impl Filestore {
    /// It has no user and no file, and its party has just arrived.
    fn new(alloc: Global) -> Filestore
        ensures { Holds result opened }
    {
        Filestore {
            party: Party::arrived(LINK),
            tables: Doubled::new(alloc),
            locks: Locks::new(alloc),
        }
    }
}

/// The octets of a stream that its party hasn't taken.
#[derive(Drop)]
pub(crate) enum Stream {
    /// The party is gone.
    Gone,
    /// They are the begin of a message.
    Waiting { pending: Vec<u8> },
    /// They may begin with messages.
    Ready { octets: Octets },
    /// So may these two, which are a whole line.
    Pair { first: u8, second: u8 },
}

/// A conversation with one party over a filestore that starts empty. What is large stays where it is.
pub(crate) struct Conversation {
    filestore: Filestore,
    stream: Stream,
    /// Of the octets that wait.
    scan: Scan,
}

impl Drop for Conversation {
    fn drop(self) {
        let Conversation {
            filestore,
            stream,
            scan,
        } = self;
        drop(filestore);
        drop(stream);
        drop(scan);
    }
}

impl Conversation {
    pub(crate) fn new(alloc: Global) -> Conversation
        ensures stands { Stands result opened }
        ensures none { octets_in result.stream ≡ [] }
    {
        Conversation {
            filestore: Filestore::new(alloc),
            stream: Stream::Waiting {
                pending: Vec::new(alloc),
            },
            scan: Scan::new(),
        }
    }

    /// Whether messages are to be taken before more octets come.
    pub(crate) fn is_ready(&self) -> bool
        ensures { result ≡ ready_test self.now.stream }
    {
        match &self.stream {
            Stream::Gone => false,
            Stream::Waiting { .. } => false,
            Stream::Ready { .. } => true,
            Stream::Pair { .. } => true,
        }
    }

    /// Adds the next piece to the stream, out of which it may be moved. A party that is gone takes nothing. Where memory is
    /// wanting, the party is gone.
    pub(crate) fn add(&mut self, alloc: Global, piece: &mut Vec<u8>) -> Result<(), NoMemory>
        requires { ready_test self.old.stream ≡ false }
        ensures adds { OnOk result ((state : State) → Stands self.old state → Adds state self.old piece.old.items self.new) }
        ensures size { OnOk result (size_of self.new.stream ≤ size_of self.old.stream + length piece.old.items + 1) }
    {
        match mem::replace(&mut self.stream, Stream::Gone) {
            Stream::Waiting { pending } => {
                self.stream = added(alloc, pending, &mut self.scan, piece)?;
                Ok(())
            }
            Stream::Ready { .. } => unreachable!(),
            Stream::Pair { .. } => unreachable!(),
            Stream::Gone => Ok(()),
        }
    }

    /// Takes messages that are ready, until their replies have `MOST_REPLIES` octets or more. Appends these as lines, and says
    /// whether an abort is among them. Where memory is wanting, the party is gone.
    pub(crate) fn take(&mut self, alloc: Global, replies: &mut Replies) -> Result<bool, NoMemory>
        requires ready { ready_test self.old.stream ≡ true }
        requires stands { (state : State) × Stands self.old state }
        ensures takes { IfOk result (λ aborted. (state : State) → Stands self.old state
            → TakesReady state self.old replies.old.lines.items replies.new.lines.items self.new aborted) }
        ensures size { IfOk result (λ aborted. size_of self.new.stream < size_of self.old.stream) }
    {
        let stream = mem::replace(&mut self.stream, Stream::Gone);
        let Taken { after, rest, more } = take_stream(alloc, &mut self.filestore, stream, replies)?;
        match after {
            After::Goes => {
                self.stream = rest_after(alloc, rest, more, &mut self.scan)?;
                Ok(false)
            }
            After::Gone => Ok(false),
            After::Aborted => Ok(true),
        }
    }
}

/// A stream with a piece more. Where no octets are pending, the piece is looked at for messages as it is; else it is only
/// scanned until a message is whole. A piece of two octets stands in place.
fn added(
    alloc: Global,
    pending: Vec<u8>,
    scan: &mut Scan,
    piece: &mut Vec<u8>,
) -> Result<Stream, NoMemory>
    ensures octets { IfOk result (λ stream. octets_in stream ≡ pending.items ++ piece.old.items) }
    ensures size { IfOk result (λ stream. size_of stream ≤ length pending.items + length piece.old.items + 1) }
    ensures takes { IfOk result (λ stream. HasTaken scan.old pending.items → IsTaking stream scan.new) }
{
    if pending.is_empty() {
        if let [first, second] = piece.as_slice() {
            return Ok(Stream::Pair {
                first: *first,
                second: *second,
            });
        }
        let octets = octets_of_piece(alloc, piece)?;
        return Ok(Stream::Ready { octets });
    }
    let mut pending = pending;
    let ended = scan.feed(piece.as_slice()).is_some();
    pending.extend_from_slice(piece.as_slice())?;
    if !ended {
        return Ok(Stream::Waiting { pending });
    }
    let octets = Octets::from_vec(pending)?;
    Ok(Stream::Ready { octets })
}

/// Pieces of so many octets and fewer are copied.
const MOST_COPIED: usize = 256;

/// The octets of a piece. A short one is copied, so that its room serves the next line too; a longer one is moved.
fn octets_of_piece(alloc: Global, piece: &mut Vec<u8>) -> Result<Octets, NoMemory>
    ensures { IfOk result (λ octets. octets ≡ piece.old.items) }
{
    let octets = if piece.len() <= MOST_COPIED {
        Octets::of(alloc, piece.as_slice())?
    } else {
        Octets::from_vec(mem::replace(piece, Vec::new(alloc)))?
    };
    Ok(octets)
}

/// The stream of the octets that are left; `more` says that there may be messages among them.
fn rest_after(
    alloc: Global,
    rest: Option<Octets>,
    more: bool,
    scan: &mut Scan,
) -> Result<Stream, NoMemory>
    requires { more ≡ false → reading (left_in rest) ≡ Short }
    ensures octets { IfOk result (λ stream. octets_in stream ≡ left_in rest) }
    ensures size { IfOk result (λ stream. size_of stream ≤ (if more then length (left_in rest) + 1 else length (left_in rest))) }
    ensures takes { IfOk result (λ stream. IsTaking stream scan.new) }
{
    let mut pending = Vec::new(alloc);
    scan.clear();
    let Some(octets) = rest else {
        return Ok(Stream::Waiting { pending });
    };
    if more {
        return Ok(Stream::Ready { octets });
    }
    pending.extend_from_slice(octets.as_slice())?;
    let _ = scan.feed(octets.as_slice());
    Ok(Stream::Waiting { pending })
}

/// The octets from a place on.
fn rest_of(octets: &Octets, place: usize) -> Result<Octets, NoMemory>
    requires { place ≤ length octets.now }
    ensures { IfOk result (λ rest. rest ≡ drop place octets.now) }
{
    let rest = octets.slice(place, octets.len() - place)?;
    Ok(rest)
}

/// What became of a party after it received something.
#[derive(Clone, Copy)]
pub(crate) enum After {
    /// It goes on.
    Goes,
    /// It is gone.
    Gone,
    /// It was told an abort, and is gone.
    Aborted,
}

/// What came of messages.
#[derive(Drop)]
pub(crate) struct Taken {
    pub(crate) after: After,
    /// The octets that are left, where there are any.
    pub(crate) rest: Option<Octets>,
    /// There may be messages among them.
    pub(crate) more: bool,
}

/// What came of the first octets.
#[derive(Clone, Copy)]
pub(crate) struct First {
    pub(crate) after: After,
    /// How many these are.
    pub(crate) length: usize,
}

/// The number of the one link.
const LINK: u32 = 1;

/// So many octets of replies are written before more messages are taken.
const MOST_REPLIES: usize = 65_536;

/// What the party makes of the messages that the octets of a stream begin with, as `take_messages` tells it. A request that
/// is all of them is taken without `Octets`.
fn take_stream(
    alloc: Global,
    filestore: &mut Filestore,
    stream: Stream,
    replies: &mut Replies,
) -> Result<Taken, NoMemory>
    requires ready { ready_test stream ≡ true }
    requires stands { (state : State) × Holds filestore.old state }
    ensures less { IfOk result (λ taken. (length (left_in taken.rest) < size_of stream) × (taken.more ≡ true → length (left_in taken.rest) + 1 < size_of stream)) }
    ensures rest { IfOk result (λ taken. IsRest taken.after taken.more (left_in taken.rest)) }
    ensures took { IfOk result (λ taken. (state : State) → Holds filestore.old state
        → Appends state (octets_in stream) replies.old.lines.items replies.new.lines.items filestore.new taken.after (left_in taken.rest)) }
{
    if let Some(request) = request_in(&stream) {
        let after = take_message(alloc, filestore, Message::Pdu(request), replies)?;
        return Ok(Taken {
            after,
            rest: None,
            more: false,
        });
    }
    let octets = octets_of(alloc, stream)?;
    take_messages(alloc, filestore, octets, replies)
}

/// The request without parameters that two octets of a stream are.
fn request_in(stream: &Stream) -> Option<Pdu>
    ensures { IfSome result (λ request. (length (octets_in stream.now) ≡ 2) × ((tree : Tree) × IsReading (octets_in stream.now) (Read tree 2) × (message_in tree ≡ Ok (messages.Pdu request)))) }
{
    let Stream::Pair { first, second } = stream else {
        return None;
    };
    request_alone(&[*first, *second])
}

/// The octets of a stream that is ready.
fn octets_of(alloc: Global, stream: Stream) -> Result<Octets, NoMemory>
    requires { ready_test stream ≡ true }
    ensures { IfOk result (λ octets. octets ≡ octets_in stream) }
{
    match stream {
        Stream::Ready { octets } => Ok(octets),
        Stream::Pair { first, second } => {
            let octets = Octets::of(alloc, &[first, second])?;
            Ok(octets)
        }
        Stream::Waiting { .. } => unreachable!(),
        Stream::Gone => unreachable!(),
    }
}

/// What the party makes of the messages that the octets begin with. Its replies are appended as lines, and its changes made.
/// Where memory is wanting, the party is gone.
pub(crate) fn take_messages(
    alloc: Global,
    filestore: &mut Filestore,
    octets: Octets,
    replies: &mut Replies,
) -> Result<Taken, NoMemory>
    requires { (state : State) × Holds filestore.old state }
    ensures less { IfOk result (λ taken. (length (left_in taken.rest) ≤ length octets) × (taken.more ≡ true → length (left_in taken.rest) < length octets)) }
    ensures rest { IfOk result (λ taken. IsRest taken.after taken.more (left_in taken.rest)) }
    ensures took { IfOk result (λ taken. (state : State) → Holds filestore.old state
        → Appends state octets replies.old.lines.items replies.new.lines.items filestore.new taken.after (left_in taken.rest)) }
{
    let mut rest = octets;
    loop {
        let Some(First { after, length }) = take_first(alloc, filestore, &rest, replies)? else {
            return Ok(Taken {
                after: After::Goes,
                rest: Some(rest),
                more: false,
            });
        };
        if length == rest.len() {
            return Ok(Taken {
                after,
                rest: None,
                more: false,
            });
        }
        rest = rest_of(&rest, length)?;
        match after {
            After::Goes => {
                let len = replies.lines.len();
                if len >= MOST_REPLIES {
                    return Ok(Taken {
                        after,
                        rest: Some(rest),
                        more: true,
                    });
                }
            }
            ended => {
                return Ok(Taken {
                    after: ended,
                    rest: Some(rest),
                    more: false,
                });
            }
        }
    }
}

/// What the party makes of the message that the octets begin with, or of their fault; `None` where they are a proper prefix
/// of a message, and nothing changes.
fn take_first(
    alloc: Global,
    filestore: &mut Filestore,
    octets: &Octets,
    replies: &mut Replies,
) -> Result<Option<First>, NoMemory>
    requires { (state : State) × Holds filestore.old state }
    ensures advances { IfOk result (λ first. IfSome first (Advances octets.now)) }
    ensures took { IfOk result (λ first. (state : State) → Holds filestore.old state
        → TakesFirst state octets.now replies.old.lines.items replies.new.lines.items filestore.old filestore.new first) }
{
    if let Some(request) = request_alone(octets.as_slice()) {
        let after = take_message(alloc, filestore, Message::Pdu(request), replies)?;
        return Ok(Some(First { after, length: 2 }));
    }
    let (value, length) = match vf_ber::read_shared(alloc, octets) {
        Ok(read) => read,
        Err(error) => {
            let Some(place) = fault_in_octets(&error)? else {
                return Ok(None);
            };
            let first = append_abort(alloc, place, replies)?;
            return Ok(Some(first));
        }
    };
    let first = take_value(alloc, filestore, &value, length, replies)?;
    Ok(Some(first))
}

/// The request without parameters that octets begin with, as its identifier and a length of 0 (ISO 8571-4; ISO 8825, 8.1).
fn request_alone(octets: &[u8]) -> Option<Pdu>
    ensures { IfSome result (λ request. (tree : Tree) × IsReading octets.now (Read tree 2) × (message_in tree ≡ Ok (messages.Pdu request))) }
{
    let number = number_alone(octets)?;
    request_numbered(number)
}

/// The number of the value of context class without parts that octets begin with, where it fits one octet with its class
/// and its form, and its length is in the short form (ISO 8825, 8.1).
fn number_alone(octets: &[u8]) -> Option<u16>
    ensures { IfSome result (λ number. IsReading octets.now (Read (built (record { class = 2; number = number }) none) 2)) }
{
    let (first, rest) = octets.split_first()?;
    let (second, _) = rest.split_first()?;
    if *second != 0 || *first < 160 || *first > 190 {
        return None;
    }
    Some(u16::from(*first - 160))
}

/// The request without parameters that a value of this number without parts means (ISO 8571-4).
fn request_numbered(number: u16) -> Option<Pdu>
    ensures { IfSome result (λ request. message_in (built (record { class = 2; number = number }) none) ≡ Ok (messages.Pdu request)) }
{
    match number {
        8 => Some(Pdu::DeselectRequest),
        12 => Some(Pdu::DeleteRequest),
        20 => Some(Pdu::CloseRequest),
        24 => Some(Pdu::EndGroupRequest),
        _ => None,
    }
}

/// What the party makes of a value of so many octets.
fn take_value(
    alloc: Global,
    filestore: &mut Filestore,
    value: &Value,
    length: usize,
    replies: &mut Replies,
) -> Result<First, NoMemory>
    requires { (state : State) × Holds filestore.old state }
    ensures advances { IfOk result (λ first. (octets : List ℕ) → reading octets ≡ Read (tree_of value.now) length → Advances octets first) }
    ensures took { IfOk result (λ first. (octets : List ℕ) (state : State) → reading octets ≡ Read (tree_of value.now) length → Holds filestore.old state
        → Appends state octets replies.old.lines.items replies.new.lines.items filestore.new first.after (drop first.length octets)) }
{
    match vf_elements::message_of(alloc, value) {
        Ok(message) => {
            let after = take_message(alloc, filestore, message, replies)?;
            Ok(First { after, length })
        }
        Err(error) => {
            let place = fault_in_value(&error)?;
            let first = append_abort(alloc, place, replies)?;
            Ok(first)
        }
    }
}

/// What the party makes of a message that was read.
// In line, with `answer` and `make_changes`, since their room and their calls cost each message.
#[inline(always)]
fn take_message(
    alloc: Global,
    filestore: &mut Filestore,
    message: Message,
    replies: &mut Replies,
) -> Result<After, NoMemory>
    requires stands { (state : State) × Holds filestore.old state }
    requires read { IsReadWhole message }
    ensures { IfOk result (λ rest. (state : State) → Holds filestore.old state
        → Makes (transition state link setting_meant message) replies.old.lines.items replies.new.lines.items filestore.new rest) }
{
    if filestore.party.ends_group(&message) {
        return end_group(alloc, filestore, message, replies);
    }
    let Answered {
        goes,
        said,
        changes,
    } = answer(alloc, filestore, message)?;
    make_changes(alloc, &mut filestore.tables, changes)?;
    if append_replies(alloc, said.as_slice(), replies)? {
        return Ok(After::Aborted);
    }
    Ok(after_replies(goes))
}

/// What the party makes of the end of its group, of which the items are tried on a second of the tables. It is a function of
/// its own, since the room for that costs each message that comes through one function with it.
#[inline(never)]
fn end_group(
    alloc: Global,
    filestore: &mut Filestore,
    message: Message,
    replies: &mut Replies,
) -> Result<After, NoMemory>
    requires stands { (state : State) × Holds filestore.old state }
    requires read { IsReadWhole message }
    ensures { IfOk result (λ rest. (state : State) → Holds filestore.old state
        → Makes (transition state link setting_meant message) replies.old.lines.items replies.new.lines.items filestore.new rest) }
{
    let (answered, ahead) = answer_over(alloc, filestore, message)?;
    keep_changes(alloc, &mut filestore.tables, &answered.changes, ahead)?;
    if append_replies(alloc, answered.said.as_slice(), replies)? {
        return Ok(After::Aborted);
    }
    Ok(after_replies(answered.goes))
}

/// What became of a party that was told no abort.
fn after_replies(goes: bool) -> After
    ensures { result ≡ (if goes then ends.Goes else ends.Gone) }
{
    if goes { After::Goes } else { After::Gone }
}

/// The party takes a message, and the next one stands in its place. Where memory is wanting, the party is gone.
#[inline(always)]
fn answer(alloc: Global, filestore: &mut Filestore, message: Message) -> Result<Answered, NoMemory>
    ensures tables { filestore.new.tables ≡ filestore.old.tables }
    ensures answers { IfOk result (λ heard. (state : State) → (holds : Holds filestore.old state)
        → IsAnsweredBy state filestore.old holds message filestore.new heard.goes heard.said.items heard.changes) }
{
    let heard = filestore.party.hear(
        alloc,
        message,
        setting(),
        filestore.tables.tables(),
        &mut filestore.locks,
    )?;
    Ok(heard)
}

/// The party takes a message as by `answer`, and is lent a second of the tables: it is left with the changes, or none is.
fn answer_over(
    alloc: Global,
    filestore: &mut Filestore,
    message: Message,
) -> Result<(Answered, Option<Tables>), NoMemory>
    ensures tables { filestore.new.tables ≡ filestore.old.tables }
    ensures answers { IfOk result (λ done. (state : State) → (holds : Holds filestore.old state)
        → IsAnsweredBy state filestore.old holds message filestore.new done.0.goes done.0.said.items done.0.changes) }
    ensures ahead { IfOk result (λ done. IfSome done.1 (λ next. next ≡ after_all filestore.old.tables done.0.changes)) }
{
    let mut spare = filestore.tables.lend();
    let heard = filestore.party.hear_over(
        alloc,
        message,
        setting(),
        filestore.tables.tables(),
        &mut filestore.locks,
        &mut spare,
    )?;
    Ok((heard, spare))
}

/// The setting of every message: it comes at moment 0, and no session stands below.
fn setting() -> Setting
    ensures { setting_of result ≡ setting_meant }
{
    let Ok(moment) = Moment::of(0) else {
        unreachable!()
    };
    Setting {
        moment,
        serial: 1,
        token: false,
        sync: false,
    }
}

/// Makes all of the changes or none. Most messages have none, for which the tables need no look.
#[inline(always)]
fn make_changes(alloc: Global, tables: &mut Doubled, changes: Changes) -> Result<(), NoMemory>
    ensures { OnOk result (tables.new ≡ after_all tables.old changes) }
{
    if changes.as_slice().is_empty() {
        return Ok(());
    }
    tables.apply(alloc, changes.as_slice())?;
    Ok(())
}

/// Makes all of the changes or none, which may be made already in a second of the tables.
fn keep_changes(
    alloc: Global,
    tables: &mut Doubled,
    changes: &Changes,
    ahead: Option<Tables>,
) -> Result<(), NoMemory>
    requires { IfSome ahead (λ next. next ≡ after_all tables.old changes.now) }
    ensures { OnOk result (tables.new ≡ after_all tables.old changes.now) }
{
    let changes = changes.as_slice();
    if changes.is_empty() {
        tables.give_back(ahead);
        return Ok(());
    }
    return tables.apply_over(alloc, changes, ahead);
}

/// Appends the replies as lines, and says whether an abort is among them.
fn append_replies(alloc: Global, said: &[Said], replies: &mut Replies) -> Result<bool, NoMemory>
    requires { All IsSayable said.now }
    ensures lines { IfOk result (λ _. replies.new.lines.items ≡ replies.old.lines.items ++ flat_map reply said.now) }
    ensures abort { IfOk result (λ aborted. aborted ≡ list_any abort_test said.now) }
{
    let mut aborted = false;
    for one in said {
        append_reply(alloc, one, replies)?;
        aborted = aborted || is_abort(one);
    }
    Ok(aborted)
}

fn is_abort(said: &Said) -> bool
    ensures { result ≡ abort_test said.now }
{
    match said {
        Said::Pdu(_) => false,
        Said::Element(_) => false,
        Said::Check { .. } => false,
        Said::Acknowledge { .. } => false,
        Said::Abort { .. } => true,
    }
}

/// The abort of octets that are no message (profile).
const OUTSIDE: u16 = 101;

/// Appends the abort of octets with a fault at this place, and says that the party was told it.
fn append_abort(alloc: Global, place: u32, replies: &mut Replies) -> Result<First, NoMemory>
    ensures { IfOk result (λ first. (first.after ≡ ends.Aborted) × (first.length ≡ 0)
        × (replies.new.lines.items ≡ replies.old.lines.items ++ reply (Said.Abort outside place))) }
{
    let abort = Said::Abort {
        number: OUTSIDE,
        place: u64::from(place),
    };
    append_reply(alloc, &abort, replies)?;
    Ok(First {
        after: After::Aborted,
        length: 0,
    })
}
