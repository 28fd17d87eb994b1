//! The calling end that a script keeps on a link.
ghost use Rattle.std.specs.Prelude.{◌≡◌, ◌++◌, ◌≤◌, IfOk, OnErr, OnOk, length};
ghost use Rattle.vf_elements.specs.declared.message.Message.TheVariants as messages;
ghost use Rattle.vf_stack.specs.Ranges.{AreRead, IsRead};
ghost use Rattle.vf_stack.specs.declared.request.Request.TheVariants as requests;
ghost use Rattle.vf_tpkt.specs.Tpdu.{packet, request as connecting};
ghost use Rattle.vf_tpkt.specs.Wanting.{lacking};
ghost use Rattle.vf_cli_calling.specs.Calling.{Calling, Says, SaysAcknowledgement, SaysAll, SaysCheck, SaysPass, SaysRestart, SendsOne, begins_transfer as begins_meant, begun, begun_by, hearing, noted, pdu_begins as pdu_begins_meant, pdu_point as pdu_point_meant, point_of as point_meant, told as told_meant, with_base};
ghost use Rattle.vf_cli_calling.specs.Represents.{Asks, Hears, Represents, Speaks, Tells};

use crate::base::Base;
use crate::heard::append_heard;
use crate::requests::request_of;
use std::alloc::Global;
use vf_base::NoMemory;
use vf_elements::Message;
use vf_pdu::Pdu;
use vf_stack::{Indication, Item, Request, Stack, few_octets_tell_last, told_was_read};

/// The calling end of an association that says messages and checkpoints as a script has it, and tells what it hears by lines.
#[derive(Drop)]
pub struct Caller {
    stack: Stack,
    /// Whether it proposes sync.
    sync: bool,
    /// That of the last transfer.
    base: Base,
}

impl Caller {
    /// A calling end, which appends its first octets, the CR of its transport (ISO 8073). Without memory nothing is appended.
    pub fn new(alloc: Global, sync: bool, out: &mut Vec<u8>) -> Result<Caller, NoMemory>
        ensures caller { IfOk result (λ caller. Represents caller (begun sync)) }
        ensures ok { OnOk result (out.new.items ≡ out.old.items ++ packet connecting) }
        ensures err { OnErr result (out.new.items ≡ out.old.items) }
    {
        let stack = Stack::calling(alloc, sync, out)?;
        Ok(Caller {
            stack,
            sync,
            base: Base::first(),
        })
    }

    /// Says messages one after another, those of them that it may when their turn comes, and appends their octets. Without
    /// memory the calling end is only to be dropped.
    pub fn say_all(
        &mut self,
        alloc: Global,
        messages: &[Message],
        out: &mut Vec<u8>,
    ) -> Result<(), NoMemory>
        // Of every calling end that this one represents.
        ensures { (calling : Calling) → Represents self.old calling → OnOk result (Speaks (SaysAll calling messages.now) out.old.items self.new out.new.items) }
    {
        for message in messages {
            self.say(alloc, message, out)?;
        }
        Ok(())
    }

    fn say(&mut self, alloc: Global, message: &Message, out: &mut Vec<u8>) -> Result<(), NoMemory>
        ensures { (calling : Calling) → Represents self.old calling → OnOk result (Speaks (Says calling message.now) out.old.items self.new out.new.items) }
    {
        let found = request_of(alloc, self.sync, self.base, message)?;
        let Some(request) = found else {
            return Ok(());
        };
        let sent = self.send(alloc, request, out)?;
        if !sent {
            return Ok(());
        }
        self.begin_by(message);
        Ok(())
    }

    /// Says a message, and drops it.
    fn say_once(
        &mut self,
        alloc: Global,
        message: Message,
        out: &mut Vec<u8>,
    ) -> Result<(), NoMemory>
        ensures { (calling : Calling) → Represents self.old calling → OnOk result (Speaks (Says calling message) out.old.items self.new out.new.items) }
    {
        let said = self.say(alloc, &message, out);
        drop(message);
        said
    }

    /// Offers the next check, where it may (ISO 8571-3, F-CHECK). Without memory the calling end is only to be dropped.
    pub fn check(&mut self, alloc: Global, out: &mut Vec<u8>) -> Result<(), NoMemory>
        ensures { (calling : Calling) → Represents self.old calling → OnOk result (Speaks (SaysCheck calling) out.old.items self.new out.new.items) }
    {
        let serial = self.stack.next_serial();
        self.offer(alloc, Request::Check { serial }, out)?;
        Ok(())
    }

    /// Acknowledges the checks of its last transfer up to this one, where it may. Without memory the calling end is only to be
    /// dropped.
    pub fn acknowledge(
        &mut self,
        alloc: Global,
        point: u32,
        out: &mut Vec<u8>,
    ) -> Result<(), NoMemory>
        ensures { (calling : Calling) → Represents self.old calling → OnOk result (Speaks (SaysAcknowledgement calling point) out.old.items self.new out.new.items) }
    {
        match self.base.serial_of(point) {
            Some(serial) => {
                self.offer(alloc, Request::Acknowledge { serial }, out)?;
                Ok(())
            }
            None => Ok(()),
        }
    }

    /// Restarts its last transfer after this check, where it may (ISO 8571-3, F-RESTART). Without memory the calling end is
    /// only to be dropped.
    pub fn restart(&mut self, alloc: Global, point: u32, out: &mut Vec<u8>) -> Result<(), NoMemory>
        ensures { (calling : Calling) → Represents self.old calling → OnOk result (Speaks (SaysRestart calling point) out.old.items self.new out.new.items) }
    {
        self.say_once(alloc, Message::Pdu(Pdu::RestartRequest { point }), out)?;
        Ok(())
    }

    /// Passes the token, where it may (ISO 8327, give tokens). Without memory the calling end is only to be dropped.
    pub fn pass(&mut self, alloc: Global, out: &mut Vec<u8>) -> Result<(), NoMemory>
        ensures { (calling : Calling) → Represents self.old calling → OnOk result (Speaks (SaysPass calling) out.old.items self.new out.new.items) }
    {
        self.offer(alloc, Request::Pass, out)?;
        Ok(())
    }

    /// Sends a request where it may.
    fn offer(&mut self, alloc: Global, request: Request, out: &mut Vec<u8>) -> Result<(), NoMemory>
        ensures { (calling : Calling) → Represents self.old calling → OnOk result (Speaks (SendsOne calling request) out.old.items self.new out.new.items) }
    {
        let _sent = self.send(alloc, request, out)?;
        Ok(())
    }

    /// Sends a request where it may, says whether it did, and drops it.
    fn send(&mut self, alloc: Global, request: Request, out: &mut Vec<u8>) -> Result<bool, NoMemory>
        ensures { (calling : Calling) → Represents self.old calling → IfOk result (Asks calling request out.old.items self.new out.new.items) }
    {
        let sent = self.try_send(alloc, &request, out);
        drop(request);
        sent
    }

    /// Sends a request where it may, and says whether it did.
    fn try_send(
        &mut self,
        alloc: Global,
        request: &Request,
        out: &mut Vec<u8>,
    ) -> Result<bool, NoMemory>
        ensures { (calling : Calling) → Represents self.old calling → IfOk result (Asks calling request.now out.old.items self.new out.new.items) }
    {
        if !self.stack.may(request) {
            return Ok(false);
        }
        self.stack.send(alloc, request, out)?;
        Ok(true)
    }

    /// Hears octets, any number of them, and appends the lines of what they tell. Without memory the calling end is only to be
    /// dropped.
    pub fn hear(
        &mut self,
        alloc: Global,
        link: u32,
        octets: &[u8],
        text: &mut Vec<u8>,
    ) -> Result<(), NoMemory>
        // Of every calling end that this one represents.
        ensures { (calling : Calling) → Represents self.old calling → OnOk result (Hears (hearing link calling octets.now) text.old.items self.new text.new.items) }
    {
        let mut rest = octets;
        while !rest.is_empty() {
            let wanted = self.stack.wanted();
            let (front, more) = rest.split_at(wanted.min(rest.len()));
            self.hear_few(alloc, link, front, text)?;
            rest = more;
        }
        Ok(())
    }

    /// Hears so few octets that they tell one thing at most: a transfer that goes on by it has its base from where the session
    /// then stands.
    fn hear_few(
        &mut self,
        alloc: Global,
        link: u32,
        octets: &[u8],
        text: &mut Vec<u8>,
    ) -> Result<(), NoMemory>
        requires { length octets.now ≤ lacking self.old.stack.transport.packet }
        ensures { (calling : Calling) → Represents self.old calling → OnOk result (Hears (hearing link calling octets.now) text.old.items self.new text.new.items) }
    {
        few_octets_tell_last();
        told_was_read();
        let mut told = Vec::new(alloc);
        let mut answers = Vec::new(alloc);
        self.stack.feed(octets, &mut told, &mut answers)?;
        self.tell_all(alloc, link, told.as_slice(), text)?;
        Ok(())
    }

    /// Appends the lines of what was heard.
    fn tell_all(
        &mut self,
        alloc: Global,
        link: u32,
        told: &[Indication],
        text: &mut Vec<u8>,
    ) -> Result<(), NoMemory>
        ensures { (calling : Calling) → Represents self.old calling → AreRead told.now → OnOk result (Hears (told_meant link calling told.now) text.old.items self.new text.new.items) }
    {
        for indication in told {
            self.tell(alloc, link, indication, text)?;
        }
        Ok(())
    }

    fn tell(
        &mut self,
        alloc: Global,
        link: u32,
        indication: &Indication,
        text: &mut Vec<u8>,
    ) -> Result<(), NoMemory>
        ensures { (calling : Calling) → Represents self.old calling → IsRead indication.now → OnOk result (Tells link (noted calling indication.now) indication.now text.old.items self.new text.new.items) }
    {
        self.note(indication);
        append_heard(alloc, link, self.base, indication, text)?;
        Ok(())
    }

    /// Notes the base of a transfer that goes on after a recovery.
    fn note(&mut self, indication: &Indication)
        ensures { (calling : Calling) → Represents self.old calling → Represents self.new (noted calling indication.now) }
    {
        match point_of(indication) {
            Some(point) => self.begin(point),
            None => {}
        }
    }

    /// Notes the base of a transfer that begins with a message that was said.
    fn begin_by(&mut self, message: &Message)
        ensures { (calling : Calling) → Represents self.old calling → Represents self.new (begun_by calling message.now) }
    {
        if begins_transfer(message) {
            self.begin(0);
        }
    }

    /// A transfer begins, or goes on after a check.
    fn begin(&mut self, point: u32)
        ensures { (calling : Calling) → Represents self.old calling → Represents self.new (with_base calling point) }
    {
        self.base = Base {
            next: self.stack.next_serial(),
            point,
        };
    }
}

fn begins_transfer(message: &Message) -> bool
    ensures { result ≡ begins_meant message.now }
{
    match message {
        Message::Pdu(pdu) => pdu_begins(pdu),
        _ => false,
    }
}

fn pdu_begins(pdu: &Pdu) -> bool
    ensures { result ≡ pdu_begins_meant pdu.now }
{
    matches!(pdu, Pdu::ReadRequest { .. } | Pdu::WriteRequest { .. })
}

/// The point at which a transfer goes on after a recovery that was heard.
fn point_of(indication: &Indication) -> Option<u32>
    ensures { result ≡ point_meant indication.now }
{
    match indication {
        Indication::Item(Item::Pdu(pdu)) => pdu_point(pdu.value()),
        _ => None,
    }
}

fn pdu_point(pdu: &Pdu) -> Option<u32>
    ensures { result ≡ pdu_point_meant pdu.now }
{
    match pdu {
        Pdu::RecoverResponse {
            moving: true,
            point,
            ..
        } => Some(*point),
        _ => None,
    }
}
