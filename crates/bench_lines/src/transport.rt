//! One end of a transport connection.
//!
//! A line such as `called <0300000B <06E00000000100 >6162` has an end and steps: `<` takes these octets of the stream, and
//! `>` sends them as a TSDU, or nothing where none may be sent. Octets are hexadecimal digits, with as many `x` after them
//! as a number after `*` says. The answer has the units (`C` connected, `E` ended, `D` data) with the octets of a TSDU, a
//! colon, the octets that answer and that are sent, a colon, the fault, a colon, and how many octets are held and wanted.
//! Of more than 32 octets the first 12 are shown and how many there are.
//!
//! `sends` in the place of an end answers with all octets that the called end sends at the steps.
//!
//! `pieces OCTETS` answers what the stream tells the called end, which must be the same in pieces of 200 cuts. `changes
//! PLACE OCTETS` answers a digest (FNV-1a of 32 bits) of what it tells with each octet at this place.
use crate::digests::{NO_OCTETS, digest, next_random};
use crate::fault::Fault;
use crate::reading::{octets_in, text_of};
use crate::text::Text;
use std::alloc::Global;
use vf_base::NoMemory;
use vf_tpkt::{Side, Tpkt, TpktError, Unit};

/// The most octets of a TSDU.
const MOST: usize = 1_048_576;

/// What one end was told.
#[derive(Drop)]
struct Told {
    tpkt: Tpkt,
    units: Vec<Unit>,
    answers: Vec<u8>,
    fault: Option<TpktError>,
}

/// Appends all octets, or the first 12 of more than 32, and how many there are.
pub fn show(octets: &[u8], out: &mut Text) {
    if octets.len() <= 32 {
        out.put_capitals(octets);
        return;
    }
    out.put_capitals(octets.get(..12).unwrap_or(&[]));
    out.put_number("..", octets.len() as u64, "");
}

fn put_unit(unit: &Unit, out: &mut Text) {
    match unit {
        Unit::Connected => out.put("C "),
        Unit::Ended => out.put("E "),
        Unit::Data(octets) => {
            out.put("D");
            show(octets.as_slice(), out);
            out.put(" ");
        }
    }
}

fn put_fault(fault: TpktError, out: &mut Text) {
    match fault {
        TpktError::Version { at } => out.put_number("Version ", at, ""),
        TpktError::Length { at } => out.put_number("Length ", at, ""),
        TpktError::Code { at, code } => put_code("Code ", at, code, out),
        TpktError::State { at, code } => put_code("State ", at, code, out),
        TpktError::Size { at } => out.put_number("Size ", at, ""),
        TpktError::NoMemory => out.fail(Fault::NoMemory),
    }
}

fn put_code(name: &str, at: u64, code: u8, out: &mut Text) {
    out.put_number(name, at, " ");
    show(&[code], out);
}

/// An end of this side.
fn end_of(alloc: Global, side: Side) -> Result<Tpkt, NoMemory> {
    match side {
        Side::Calling => Tpkt::calling(alloc, &mut Vec::new(alloc)),
        Side::Called => Tpkt::called(alloc),
    }
}

impl Told {
    fn new(alloc: Global, tpkt: Tpkt) -> Told {
        Told {
            tpkt,
            units: Vec::new(alloc),
            answers: Vec::new(alloc),
            fault: None,
        }
    }

    fn feed(&mut self, octets: &[u8]) {
        let fed = self.tpkt.feed(octets, &mut self.units, &mut self.answers);
        self.fault = fed.err();
    }

    fn send(&mut self, alloc: Global, octets: &[u8]) -> Result<(), Fault> {
        if self.tpkt.stands() && octets.len() > 0 && octets.len() <= MOST {
            self.tpkt.wrap(alloc, octets, &mut self.answers)?;
        }
        Ok(())
    }

    /// A step of a line.
    fn step(&mut self, alloc: Global, step: &str) -> Result<(), Fault> {
        if let Some(word) = step.strip_prefix('>') {
            let octets = octets_of(alloc, word)?;
            return self.send(alloc, octets.as_slice());
        }
        let word = step.strip_prefix('<').ok_or(Fault::Line)?;
        let octets = octets_of(alloc, word)?;
        self.feed(octets.as_slice());
        Ok(())
    }

    fn put_units(&self, alloc: Global, out: &mut Text) {
        for unit in &self.units {
            match unit.copy(alloc) {
                Ok(copied) => put_unit(&copied, out),
                Err(_) => out.fail(Fault::NoMemory),
            }
        }
    }

    fn put(&self, alloc: Global, out: &mut Text) {
        self.put_units(alloc, out);
        out.put(": ");
        show(self.answers.as_slice(), out);
        out.put(" : ");
        if let Some(fault) = self.fault {
            put_fault(fault, out);
        }
        out.put_number(" : ", self.tpkt.held(), " ");
        out.put_number("", self.tpkt.wanted() as u64, "\n");
    }
}

/// The octets of digits, and as many `x` as a number after `*` says.
fn octets_of(alloc: Global, word: &str) -> Result<Vec<u8>, Fault> {
    let (digits, count) = word.split_once('*').unwrap_or((word, "0"));
    let count = count.parse::<u16>().ok().ok_or(Fault::Line)?;
    let mut octets = octets_in(alloc, digits.as_bytes())?;
    let len = octets.len().saturating_add(usize::from(count));
    octets.resize(len, b'x')?;
    Ok(octets)
}

/// How many octets the next piece has: one (seed 0), all that are left (1), as many as are wanted (2), or less than 40 by the
/// seed, which goes on.
fn count_of(seed: &mut u64, left: usize, wanted: usize) -> usize {
    match *seed {
        0 => 1,
        1 => left,
        2 => wanted,
        _ => {
            *seed = next_random(*seed);
            (*seed % 40) as usize
        }
    }
}

/// A stream comes in pieces by a seed.
fn feed_all(told: &mut Told, stream: &[u8], seed: u64) {
    let mut seed = seed;
    let mut rest = stream;
    for _ in 0..stream.len() {
        let count = count_of(&mut seed, rest.len(), told.tpkt.wanted());
        let (piece, others) = rest.split_at(count.min(rest.len()));
        rest = others;
        told.feed(piece);
    }
}

/// What a stream tells the called end in pieces by a seed.
fn fed(alloc: Global, stream: &[u8], seed: u64) -> Result<Vec<u8>, Fault> {
    let mut out = Text::new(alloc);
    match Tpkt::called(alloc) {
        Ok(tpkt) => {
            let mut told = Told::new(alloc, tpkt);
            feed_all(&mut told, stream, seed);
            told.put(alloc, &mut out);
        }
        Err(_) => out.fail(Fault::NoMemory),
    }
    out.end()
}

/// Appends what a stream tells in every piece, where that is so.
fn put_same(alloc: Global, stream: &[u8], first: &[u8], out: &mut Text) -> Result<(), Fault> {
    for seed in 1..200 {
        let next = fed(alloc, stream, seed)?;
        if next.as_slice() != first {
            out.put_number("seed ", seed, ": ");
            out.put_octets(next.as_slice());
            return Ok(());
        }
    }
    out.put_octets(first);
    Ok(())
}

fn put_pieces(alloc: Global, digits: &str, out: &mut Text) -> Result<(), Fault> {
    let stream = octets_in(alloc, digits.as_bytes())?;
    let first = fed(alloc, stream.as_slice(), 0)?;
    put_same(alloc, stream.as_slice(), first.as_slice(), out)
}

/// The digest that goes on with what a stream tells.
fn digest_of(alloc: Global, start: u32, stream: &[u8]) -> Result<u32, Fault> {
    let told = fed(alloc, stream, 1)?;
    let text = told.as_slice().strip_suffix(b"\n").unwrap_or(&[]);
    Ok(digest(start, text))
}

/// The digest of what a stream tells with each octet at a place.
fn digest_of_all(alloc: Global, place: usize, stream: &mut [u8]) -> Result<u32, Fault> {
    let mut found = NO_OCTETS;
    for octet in 0..=255 {
        let Some(changed) = stream.get_mut(place) else {
            return Err(Fault::Line);
        };
        *changed = octet;
        found = digest_of(alloc, found, stream)?;
    }
    Ok(found)
}

fn put_changes(alloc: Global, words: &str, out: &mut Text) -> Result<(), Fault> {
    let (place, digits) = words.split_once(' ').ok_or(Fault::Line)?;
    let place = place.parse::<u16>().ok().ok_or(Fault::Line)?;
    let mut stream = octets_in(alloc, digits.as_bytes())?;
    let found = digest_of_all(alloc, usize::from(place), stream.as_mut_slice())?;
    out.put_digest(found);
    out.put("\n");
    Ok(())
}

/// Does the steps of a line.
fn take_steps(alloc: Global, steps: &str, told: &mut Told) -> Result<(), Fault> {
    for step in steps.split(' ') {
        if !step.is_empty() {
            told.step(alloc, step)?;
        }
    }
    Ok(())
}

/// Does the steps of a line, and appends what they tell.
fn put_steps(alloc: Global, side: Side, steps: &str, out: &mut Text) -> Result<(), Fault> {
    let tpkt = end_of(alloc, side)?;
    let mut told = Told::new(alloc, tpkt);
    let taken = take_steps(alloc, steps, &mut told);
    told.put(alloc, out);
    taken
}

/// Does the steps of a line at a called end, and appends all that it sends.
fn put_sent(alloc: Global, steps: &str, out: &mut Text) -> Result<(), Fault> {
    let tpkt = Tpkt::called(alloc)?;
    let mut told = Told::new(alloc, tpkt);
    let taken = take_steps(alloc, steps, &mut told);
    out.put_digits(told.answers.as_slice());
    out.put("\n");
    taken
}

/// Appends what a line tells.
pub fn put_line(alloc: Global, line: &[u8], out: &mut Text) -> Result<(), Fault> {
    let line = text_of(line)?;
    let (first, rest) = line.split_once(' ').unwrap_or((line, ""));
    match first {
        "calling" => put_steps(alloc, Side::Calling, rest, out),
        "called" => put_steps(alloc, Side::Called, rest, out),
        "sends" => put_sent(alloc, rest, out),
        "pieces" => put_pieces(alloc, rest, out),
        "changes" => put_changes(alloc, rest, out),
        _ => Err(Fault::Line),
    }
}
