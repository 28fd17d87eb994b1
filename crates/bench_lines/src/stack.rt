//! One end of an association over its four lower layers.
//!
//! A line such as `called <0300000B06E00000000100 >Abort` has an end and steps: `<` takes a piece of the stream, in
//! hexadecimal digits, and `>` sends a request, by the words of `stack/request.rt`, or is told `no` where it may not be
//! sent. The end is `called`, or a calling one that proposes sync (`sync`) or doesn't (`plain`).
//!
//! The answer has a word for each indication, a colon, the octets that the end has sent, a colon, `open` or `ended`, how
//! many octets are held and wanted, the next serial number, and `*` where the end has the token. A word of an indication is
//! its name, `+` or `-` where it has sync or hasn't, its number, and after a colon the one spelling of its PDU. A data
//! element is told as it is: `String4:6869`, `Descriptor+:61`, `Enter`, `Exit`; a fault as `Fault:Session:State:0`.
//!
//! `cut` before a line asks for the same with each piece fed octet by octet and at seven other cuts, which must tell the
//! same; the first that doesn't stands before what it tells.
use crate::digests::next_random;
use crate::fault::Fault;
use crate::pdu::put_pdu;
use crate::reading::{octets_in, text_of};
use crate::text::Text;
use crate::transport::show;
use std::alloc::Global;
use vf_base::{Element, Name, NoMemory};
use vf_pdu::{Boxed, Pdu};
use vf_stack::{Indication, Item, Request, Stack};

mod request;

use request::request_of;

/// One end, the words of what it was told, and what it has sent.
#[derive(Drop)]
struct End {
    stack: Stack,
    told: Text,
    sent: Vec<u8>,
}

/// Appends a name, and the PDU after it.
fn put_named(alloc: Global, name: &str, pdu: &Boxed<Pdu>, out: &mut Text) {
    out.put(name);
    out.put(":");
    put_pdu(alloc, pdu.value(), out);
}

/// The same with a mark of sync.
fn put_synced(alloc: Global, name: &str, sync: bool, pdu: &Boxed<Pdu>, out: &mut Text) {
    out.put(name);
    put_named(alloc, if sync { "+" } else { "-" }, pdu, out);
}

/// The same with a serial number.
fn put_numbered(alloc: Global, name: &str, serial: u32, pdu: &Boxed<Pdu>, out: &mut Text) {
    put_serial(name, serial, out);
    put_named(alloc, "", pdu, out);
}

fn put_maybe(alloc: Global, name: &str, pdu: &Option<Boxed<Pdu>>, out: &mut Text) {
    match pdu {
        Some(pdu) => put_named(alloc, name, pdu, out),
        None => out.put(name),
    }
}

/// Appends a name and a serial number.
fn put_serial(name: &str, serial: u32, out: &mut Text) {
    out.put_number(name, u64::from(serial), "");
}

fn put_descriptor(name: &Option<Name>, filled: bool, out: &mut Text) {
    out.put(if filled { "Descriptor+" } else { "Descriptor-" });
    if let Some(name) = name {
        out.put(":");
        show(name.as_slice(), out);
    }
}

fn put_string(class: u8, octets: &[u8], out: &mut Text) {
    out.put_number("String", u64::from(class), ":");
    show(octets, out);
}

fn put_element(element: &Element, out: &mut Text) {
    match element {
        Element::Descriptor { name, filled } => put_descriptor(name, *filled, out),
        Element::Enter => out.put("Enter"),
        Element::Exit => out.put("Exit"),
        Element::Text { class, octets } => put_string(*class, octets.as_slice(), out),
        Element::Binary { octets } => put_string(4, octets.as_slice(), out),
    }
}

fn put_item(alloc: Global, item: &Item, out: &mut Text) {
    match item {
        Item::Pdu(pdu) => put_named(alloc, "Item", pdu, out),
        Item::Element(element) => put_element(element, out),
    }
}

/// Appends the word of an indication.
fn put_indication(alloc: Global, told: &Indication, out: &mut Text) {
    match told {
        Indication::Associate { sync, pdu } => put_synced(alloc, "Associate", *sync, pdu, out),
        Indication::Accepted { sync, pdu } => put_synced(alloc, "Accepted", *sync, pdu, out),
        Indication::Refused { pdu } => put_maybe(alloc, "Refused", pdu, out),
        Indication::Release { pdu } => put_named(alloc, "Release", pdu, out),
        Indication::Released { pdu } => put_named(alloc, "Released", pdu, out),
        Indication::Item(item) => put_item(alloc, item, out),
        Indication::Check { serial } => put_serial("Check", *serial, out),
        Indication::Acknowledged { serial } => put_serial("Acknowledged", *serial, out),
        Indication::Restart { serial, pdu } => put_numbered(alloc, "Restart", *serial, pdu, out),
        Indication::Restarted { serial, pdu } => {
            put_numbered(alloc, "Restarted", *serial, pdu, out)
        }
        Indication::Cancel { pdu } => put_named(alloc, "Cancel", pdu, out),
        Indication::Cancelled { pdu } => put_named(alloc, "Cancelled", pdu, out),
        Indication::Abort { pdu } => put_maybe(alloc, "Abort", pdu, out),
        Indication::Fault { layer, name, at } => {
            out.put_made(format!(in alloc; "Fault:{layer:?}:{name:?}:{at}"));
        }
    }
}

/// How many octets the next piece of a cut has: the whole of them (seed 0), one (1), as many as are wanted (2), or at most
/// 39 by the seed, which goes on.
fn count_of(seed: &mut u64, len: usize, wanted: usize) -> usize {
    match *seed {
        0 => len,
        1 => 1,
        2 => wanted,
        _ => {
            *seed = next_random(*seed);
            ((*seed % 39) as usize).saturating_add(1)
        }
    }
}

/// The stack of the end of a name, which sends what it begins with.
fn stack_of(alloc: Global, name: &str, sent: &mut Vec<u8>) -> Option<Result<Stack, NoMemory>> {
    match name {
        "called" => Some(Stack::called(alloc)),
        "plain" => Some(Stack::calling(alloc, false, sent)),
        "sync" => Some(Stack::calling(alloc, true, sent)),
        _ => None,
    }
}

impl End {
    fn new(alloc: Global, name: &str) -> Result<End, Fault> {
        let mut sent = Vec::new(alloc);
        match stack_of(alloc, name, &mut sent) {
            Some(Ok(stack)) => Ok(End {
                stack,
                told: Text::new(alloc),
                sent,
            }),
            Some(Err(_)) => Err(Fault::NoMemory),
            None => Err(Fault::Line),
        }
    }

    /// Feeds octets, cut by a seed.
    fn feed(
        &mut self,
        octets: &[u8],
        seed: &mut u64,
        told: &mut Vec<Indication>,
    ) -> Result<(), NoMemory> {
        let mut rest = octets;
        for _ in 0..octets.len() {
            let count = count_of(seed, rest.len(), self.stack.wanted());
            let (piece, after) = rest.split_at(count.min(rest.len()));
            self.stack.feed(piece, told, &mut self.sent)?;
            if piece.is_empty() {
                break;
            }
            rest = after;
        }
        Ok(())
    }

    /// Octets come, cut by a seed, and what they tell is told.
    fn hear(&mut self, alloc: Global, octets: &[u8], seed: &mut u64) {
        let mut told = Vec::new(alloc);
        if self.feed(octets, seed, &mut told).is_err() {
            self.told.fail(Fault::NoMemory);
        }
        for indication in &told {
            put_indication(alloc, indication, &mut self.told);
            self.told.put(" ");
        }
    }

    /// Sends a request; `no` is told where it may not be sent.
    fn send(&mut self, alloc: Global, request: &Request) {
        if !self.stack.may(request) {
            self.told.put("no ");
            return;
        }
        if self.stack.send(alloc, request, &mut self.sent).is_err() {
            self.told.fail(Fault::NoMemory);
        }
    }

    /// A step of a line.
    fn step(&mut self, alloc: Global, step: &str, seed: &mut u64) -> Result<(), Fault> {
        if let Some(word) = step.strip_prefix('>') {
            let request = request_of(alloc, word)?;
            self.send(alloc, &request);
            return Ok(());
        }
        let digits = step.strip_prefix('<').ok_or(Fault::Line)?;
        let octets = octets_in(alloc, digits.as_bytes())?;
        self.hear(alloc, octets.as_slice(), seed);
        Ok(())
    }

    fn put(&self, out: &mut Text) {
        out.put_text(&self.told);
        out.put(": ");
        out.put_digits(self.sent.as_slice());
        put_state(&self.stack, out);
    }
}

/// Appends whether a stack is ended, what it holds and wants, its next serial number, and the token.
fn put_state(stack: &Stack, out: &mut Text) {
    let ended = if stack.ended() {
        " : ended "
    } else {
        " : open "
    };
    let token = if stack.token() { "*\n" } else { "\n" };
    out.put_number(ended, stack.held(), " ");
    out.put_number("", stack.wanted() as u64, " ");
    out.put_number("", u64::from(stack.next_serial()), token);
}

/// Does the steps of a line, whose pieces are cut by a seed.
fn take_steps(alloc: Global, steps: &str, seed: u64, end: &mut End) -> Result<(), Fault> {
    let mut seed = seed;
    for step in steps.split(' ') {
        if !step.is_empty() {
            end.step(alloc, step, &mut seed)?;
        }
    }
    Ok(())
}

/// What the steps of a line tell, whose pieces are cut by a seed.
fn told_by(alloc: Global, line: &str, seed: u64) -> Result<Vec<u8>, Fault> {
    let (name, steps) = line.split_once(' ').unwrap_or((line, ""));
    let mut end = End::new(alloc, name)?;
    let mut out = Text::new(alloc);
    if let Err(fault) = take_steps(alloc, steps, seed, &mut end) {
        out.fail(fault);
    }
    end.put(&mut out);
    out.end()
}

/// Appends what the steps of a line tell, which must be the same at each cut.
fn put_cuts(alloc: Global, line: &str, first: &[u8], out: &mut Text) -> Result<(), Fault> {
    for seed in 1..9 {
        let again = told_by(alloc, line, seed)?;
        if again.as_slice() != first {
            out.put_number("seed ", seed, ": ");
            out.put_octets(again.as_slice());
            return Ok(());
        }
    }
    out.put_octets(first);
    Ok(())
}

/// Appends what a line tells.
pub fn put_line(alloc: Global, line: &[u8], out: &mut Text) -> Result<(), Fault> {
    let line = text_of(line)?;
    let cut = line.strip_prefix("cut ");
    let first = told_by(alloc, cut.unwrap_or(line), 0)?;
    match cut {
        Some(line) => put_cuts(alloc, line, first.as_slice(), out),
        None => {
            out.put_octets(first.as_slice());
            Ok(())
        }
    }
}
