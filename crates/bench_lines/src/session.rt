//! Two ends of session connections: a line is a row of steps.
//!
//! The first word says how the row begins: with ends at which nothing came yet (`sync` and `calling`, whose calling end
//! proposes sync, `plain`, whose doesn't, and `called`), with ends at which a connection with sync stands from a number on
//! (`5`, `I5`, `O5`), or with the ends as the line before left them (`on`).
//!
//! A step has the letter of its end, `I` for the calling one and `O` for the other; without it it is a step of the end
//! that the first word names. `>K5` sends a unit, whose TSDU joins those that the other end is to take, or is answered by
//! `no` where it may not be sent. `<` takes the next TSDU, and is answered by the letter of the end and what that told.
//! `<K5` takes an SPDU that no end sent, by the letters of `prefix`. `=K5` sends a unit that the other end takes at once,
//! and is answered by what that told and by the TSDU in hexadecimal digits, the first 12 octets and their number where
//! there are more than 1,024.
//!
//! A unit is a letter, its number and, after a colon, its user data, so many `x` where these are `*` and a number. Of
//! what is taken the units are told, and the fault that ends it. After the steps stands a colon, with the next serial
//! number of each end that the first word names, and `*` where the end has the token.
use crate::fault::Fault;
use crate::reading::text_of;
use crate::text::Text;
use std::alloc::Global;
use vf_base::Octets;
use vf_session::{
    Session, SessionError, SessionOut, SessionSay, SpduError, TokenSide, read, write,
};

mod units;

use units::{letter_and_number, prefix, put_unit, unit_of};

/// The most octets of a TSDU that are shown whole.
const SHOWN: usize = 1024;

/// An AA, which no end sends by itself.
const ABORT_ACCEPTED: [u8; 2] = [0x1A, 0];

/// One end, and the TSDUs that it is to take: those from `taken` on are left.
#[derive(Drop)]
struct End {
    session: Session,
    inbox: Vec<Vec<u8>>,
    taken: usize,
}

impl End {
    fn new(alloc: Global, session: Session) -> End {
        End {
            session,
            inbox: Vec::new(alloc),
            taken: 0,
        }
    }
}

fn put_fault(fault: SessionError, out: &mut Text) {
    match fault {
        SessionError::State { spdu } => out.put_number("State ", u64::from(spdu), " "),
        SessionError::Serial { expected, found } => {
            out.put_number("Serial ", u64::from(expected), " ");
            out.put_number("", u64::from(found), " ");
        }
        SessionError::Token => out.put("Token "),
        SessionError::NoMemory => out.fail(Fault::NoMemory),
    }
}

/// The TSDU in which an end sends a unit; none where it may not.
fn sent(alloc: Global, from: &mut Session, unit: &SessionSay) -> Result<Option<Vec<u8>>, Fault> {
    if !from.may(unit) {
        return Ok(None);
    }
    let mut spdus = Vec::new(alloc);
    from.say(alloc, &unit.copy(alloc)?, &mut spdus)?;
    let mut tsdu = Vec::new(alloc);
    for spdu in &spdus {
        write(alloc, spdu, &mut tsdu)?;
    }
    Ok(Some(tsdu))
}

/// The TSDU of a word; none where its unit may not be sent.
fn tsdu_of(alloc: Global, from: &mut Session, word: &str) -> Result<Option<Vec<u8>>, Fault> {
    if word == "q" {
        return Ok(Some(Vec::from_slice(alloc, &ABORT_ACCEPTED)?));
    }
    let unit = unit_of(alloc, word)?;
    if from.may(&unit) != from.may_carry(&unit.parameters(), unit.data_length()) {
        return Err(Fault::Received);
    }
    sent(alloc, from, &unit)
}

/// Takes the SPDUs of a TSDU, up to a fault.
fn take_all(
    alloc: Global,
    to: &mut Session,
    tsdu: &[u8],
    told: &mut Vec<SessionOut>,
) -> Result<Option<SessionError>, Fault> {
    let spdus = match read(alloc, tsdu) {
        Ok(spdus) => spdus,
        Err(SpduError::NoMemory) => return Err(Fault::NoMemory),
        Err(_) => return Err(Fault::Received),
    };
    for spdu in spdus {
        if let Err(fault) = to.take(alloc, spdu, told) {
            return Ok(Some(fault));
        }
    }
    Ok(None)
}

/// An end takes a TSDU, and what that told is appended.
fn take(alloc: Global, to: &mut Session, tsdu: &[u8], out: &mut Text) {
    let mut told = Vec::new(alloc);
    let taken = take_all(alloc, to, tsdu, &mut told);
    for unit in &told {
        put_unit(unit, out);
    }
    match taken {
        Ok(None) => {}
        Ok(Some(fault)) => put_fault(fault, out),
        Err(fault) => out.fail(fault),
    }
}

/// The word of an end.
fn side_of(session: &Session) -> &'static str {
    match session.side() {
        TokenSide::Initiator => "I ",
        TokenSide::Responder => "O ",
    }
}

/// An end takes the next TSDU.
fn take_next(alloc: Global, end: &mut End, out: &mut Text) {
    out.put(side_of(&end.session));
    match end.inbox.get(end.taken) {
        Some(tsdu) => take(alloc, &mut end.session, tsdu.as_slice(), out),
        None => out.fail(Fault::Line),
    }
    end.taken = end.taken.saturating_add(1);
}

/// An end takes the SPDU of a letter and a number.
fn take_made(alloc: Global, to: &mut Session, word: &str, out: &mut Text) -> Result<(), Fault> {
    let (letter, number) = letter_and_number(word).ok_or(Fault::Line)?;
    let tsdu = made_of(alloc, letter, number)?;
    take(alloc, to, tsdu.as_slice(), out);
    Ok(())
}

/// The SPDU of a letter and a number.
fn made_of(alloc: Global, letter: u8, number: u32) -> Result<Vec<u8>, Fault> {
    let mut tsdu = Text::new(alloc);
    tsdu.put_octets(prefix(letter));
    match letter {
        b'U' | b'V' => tsdu.put_octets(&number.to_be_bytes()[2..]),
        _ => tsdu.put_made(format!(in alloc; "{number:06}")),
    }
    tsdu.end()
}

/// An end sends a unit, which the other one is to take.
fn send(
    alloc: Global,
    from: &mut Session,
    to: &mut End,
    word: &str,
    out: &mut Text,
) -> Result<(), Fault> {
    match tsdu_of(alloc, from, word)? {
        None => out.put("no "),
        Some(tsdu) => to.inbox.push(tsdu)?,
    }
    Ok(())
}

/// An end sends a unit, which the other one takes at once, and which is shown after what it told.
fn pass(
    alloc: Global,
    from: &mut Session,
    to: &mut Session,
    word: &str,
    out: &mut Text,
) -> Result<(), Fault> {
    match tsdu_of(alloc, from, word)? {
        None => out.put("no "),
        Some(tsdu) => {
            take(alloc, to, tsdu.as_slice(), out);
            out.put_front(tsdu.as_slice(), SHOWN, 12);
            out.put(" ");
        }
    }
    Ok(())
}

/// A step of one end.
fn step(
    alloc: Global,
    end: &mut End,
    peer: &mut End,
    word: &str,
    out: &mut Text,
) -> Result<(), Fault> {
    if let Some(unit) = word.strip_prefix('>') {
        return send(alloc, &mut end.session, peer, unit, out);
    }
    if let Some(unit) = word.strip_prefix('=') {
        return pass(alloc, &mut end.session, &mut peer.session, unit, out);
    }
    match word.strip_prefix('<') {
        Some("") => {
            take_next(alloc, end, out);
            Ok(())
        }
        Some(made) => take_made(alloc, &mut end.session, made, out),
        None => Err(Fault::Line),
    }
}

/// A calling end takes an AC with this number, so that a connection with sync stands from it on.
fn open_calling(alloc: Global, number: u32, session: &mut Session) -> Result<(), Fault> {
    tsdu_of(alloc, session, "C1")?;
    let tsdu = made_of(alloc, b'A', number)?;
    take(alloc, session, tsdu.as_slice(), &mut Text::new(alloc));
    Ok(())
}

/// A called end takes a CN with this number and accepts it, so that such a connection stands there.
fn open_called(alloc: Global, number: u32, session: &mut Session) -> Result<(), Fault> {
    let tsdu = made_of(alloc, b'C', number)?;
    take(alloc, session, tsdu.as_slice(), &mut Text::new(alloc));
    let unit = SessionSay::Accept {
        sync: true,
        serial: number,
        data: Octets::of(alloc, &[])?,
    };
    sent(alloc, session, &unit)?;
    Ok(())
}

fn put_left(session: &Session, out: &mut Text) {
    let token = if session.has_token() { "*" } else { "" };
    out.put_number(" ", u64::from(session.next_serial()), token);
}

/// The ends that the first word of a row names.
#[derive(Clone, Copy, PartialEq, Eq)]
enum Named {
    Calling,
    Called,
    Both,
}

fn named_by(word: &str) -> Named {
    match word.as_bytes() {
        b"calling" | b"plain" | [b'I', ..] => Named::Calling,
        b"called" | [b'O', ..] => Named::Called,
        _ => Named::Both,
    }
}

/// The end of a step, by its letter or as the one that is named, and the step without the letter.
fn end_of(named: Named, word: &str) -> (Named, &str) {
    if let Some(word) = word.strip_prefix('I') {
        return (Named::Calling, word);
    }
    match word.strip_prefix('O') {
        Some(word) => (Named::Called, word),
        None => (named, word),
    }
}

/// The two ends of a connection.
#[derive(Drop)]
pub struct Ends {
    calling: End,
    called: End,
}

impl Ends {
    /// Those of a connection that doesn't stand, whose calling end proposes sync or not.
    pub fn new(alloc: Global, sync: bool) -> Ends {
        Ends {
            calling: End::new(alloc, Session::calling(sync)),
            called: End::new(alloc, Session::called()),
        }
    }

    /// Those with which a row begins.
    fn begin(&mut self, alloc: Global, word: &str) -> Result<(), Fault> {
        if word == "on" {
            return Ok(());
        }
        *self = Ends::new(alloc, word != "plain");
        match word {
            "sync" | "calling" | "called" | "plain" => Ok(()),
            _ => self.open(alloc, word),
        }
    }

    /// A connection with sync stands at them, from the number of a word on.
    fn open(&mut self, alloc: Global, word: &str) -> Result<(), Fault> {
        let number = word.trim_start_matches(['I', 'O']).parse::<u32>();
        let number = number.ok().ok_or(Fault::Line)?;
        open_calling(alloc, number, &mut self.calling.session)?;
        open_called(alloc, number, &mut self.called.session)
    }

    /// A step, of an end by its letter or of the one that is named.
    fn step(
        &mut self,
        alloc: Global,
        named: Named,
        word: &str,
        out: &mut Text,
    ) -> Result<(), Fault> {
        match end_of(named, word) {
            (Named::Calling, word) => step(alloc, &mut self.calling, &mut self.called, word, out),
            (Named::Called, word) => step(alloc, &mut self.called, &mut self.calling, word, out),
            (Named::Both, _) => Err(Fault::Line),
        }
    }

    /// What the ends that are named have after a row.
    fn put_left(&self, named: Named, out: &mut Text) {
        out.put(":");
        if named != Named::Called {
            put_left(&self.calling.session, out);
        }
        if named != Named::Calling {
            put_left(&self.called.session, out);
        }
        out.put("\n");
    }

    /// Does the steps of a row, and appends what they tell.
    pub fn put_line(&mut self, alloc: Global, line: &[u8], out: &mut Text) -> Result<(), Fault> {
        let mut words = text_of(line)?.split(' ');
        let first = words.next().ok_or(Fault::Line)?;
        self.begin(alloc, first)?;
        let named = named_by(first);
        for word in words {
            self.step(alloc, named, word, out)?;
        }
        self.put_left(named, out);
        Ok(())
    }
}
