//! Units of sessions, and SPDUs that are taken, by letters.
use crate::fault::Fault;
use crate::text::Text;
use std::alloc::Global;
use vf_base::Octets;
use vf_session::{ResyncKind, SessionSay, TokenSide};

/// A letter and a number.
pub(super) fn letter_and_number(word: &str) -> Option<(u8, u32)> {
    let [letter, digits @ ..] = word.as_bytes() else {
        return None;
    };
    let number = std::str::from_utf8(digits).ok()?.parse::<u32>().ok()?;
    Some((*letter, number))
}

/// User data: these octets, or so many `x` after a `*`.
fn data_of(alloc: Global, word: &str) -> Result<Octets, Fault> {
    if let Some(count) = word.strip_prefix('*') {
        let count = count.parse::<u16>().ok().ok_or(Fault::Line)?;
        let data = vec![in alloc; b'x'; usize::from(count)]?;
        return Ok(Octets::from_vec(data)?);
    }
    let data = Octets::of(alloc, word.as_bytes())?;
    Ok(data)
}

/// The unit of a word.
pub(super) fn unit_of(alloc: Global, word: &str) -> Result<SessionSay, Fault> {
    let (name, data) = word.split_once(':').unwrap_or((word, ""));
    let (letter, serial) = letter_and_number(name).ok_or(Fault::Line)?;
    let data = data_of(alloc, data)?;
    Ok(named(letter, serial, data))
}

/// The end that a letter names.
fn side_named(letter: u8) -> TokenSide {
    if letter.is_ascii_uppercase() {
        TokenSide::Initiator
    } else {
        TokenSide::Responder
    }
}

/// The same where a letter names one.
fn token_named(letter: u8) -> Option<TokenSide> {
    match letter {
        b'p' | b'P' | b'o' => None,
        _ => Some(side_named(letter)),
    }
}

fn kind_named(letter: u8) -> ResyncKind {
    match letter {
        b'r' | b'R' | b'p' => ResyncKind::Restart,
        _ => ResyncKind::Abandon,
    }
}

/// The unit of a letter. A capital asks for sync, passes the token or names the calling end; a small letter doesn't, or
/// names the other end. A restart, an abandon and an answer by `p`, `P` and `o` name nobody.
fn named(letter: u8, serial: u32, data: Octets) -> SessionSay {
    let sync = letter.is_ascii_uppercase();
    let to = side_named(letter);
    let token = token_named(letter);
    let kind = kind_named(letter);
    match letter.to_ascii_lowercase() {
        b'c' => SessionSay::Connect { sync, serial, data },
        b'a' => SessionSay::Accept { sync, serial, data },
        b'n' => SessionSay::Refuse { data },
        b'f' => SessionSay::Finish { data },
        b'g' => SessionSay::Finished { data },
        b'd' => SessionSay::Data { pass: sync, data },
        b'k' => SessionSay::Check { serial },
        b'l' => SessionSay::Acknowledge { serial },
        b'r' | b's' | b'p' => SessionSay::Resync {
            kind,
            serial,
            token,
            data,
        },
        b'e' | b'o' => SessionSay::Resynced {
            serial,
            token,
            data,
        },
        b't' => SessionSay::Token { to },
        _ => SessionSay::Abort { data },
    }
}

/// The octets before the six digits of an SPDU that is taken, or before the two octets of its units (`U` and `V`). A
/// capital proposes or accepts sync, passes the token, or names the sender as the one who has it; a small letter doesn't,
/// or names the other end.
pub(super) fn prefix(letter: u8) -> &'static [u8] {
    match letter {
        b'U' => b"\x0D\x04\x14\x02",
        b'V' => b"\x0E\x04\x14\x02",
        b'C' => b"\x0D\x0E\x14\x02\x00\x2A\x05\x08\x17\x06",
        b'c' => b"\x0D\x0E\x14\x02\x00\x02\x05\x08\x17\x06",
        b'A' => b"\x0E\x0E\x14\x02\x00\x2A\x05\x08\x17\x06",
        b'a' => b"\x0E\x0E\x14\x02\x00\x02\x05\x08\x17\x06",
        b'n' => b"\x0C\x09\x32\x07\x02",
        b'f' => b"\x09\x08\xC1\x06",
        b'g' => b"\x0A\x08\xC1\x06",
        b'D' => b"\x01\x03\x10\x01\x04\x01\x00",
        b'd' => b"\x01\x00\x01\x00",
        // a check, alone and after the token
        b'K' => b"\x01\x00\x31\x08\x2A\x06",
        b'k' => b"\x01\x03\x10\x01\x04\x31\x08\x2A\x06",
        b'L' => b"\x01\x00\x32\x08\x2A\x06",
        b'R' => b"\x01\x00\x35\x0E\x1A\x01\x00\x1B\x01\x00\x2A\x06",
        b'r' => b"\x01\x00\x35\x0E\x1A\x01\x04\x1B\x01\x00\x2A\x06",
        b'S' => b"\x01\x00\x35\x0E\x1A\x01\x00\x1B\x01\x01\x2A\x06",
        b's' => b"\x01\x00\x35\x0E\x1A\x01\x04\x1B\x01\x01\x2A\x06",
        b'E' => b"\x01\x00\x22\x0B\x1A\x01\x00\x2A\x06",
        b'e' => b"\x01\x00\x22\x0B\x1A\x01\x04\x2A\x06",
        // a restart, an abandon and an answer that name nobody
        b'p' => b"\x01\x00\x35\x0B\x1B\x01\x00\x2A\x06",
        b'P' => b"\x01\x00\x35\x0B\x1B\x01\x01\x2A\x06",
        b'o' => b"\x01\x00\x22\x08\x2A\x06",
        // a GT that passes the token, and one that passes none
        b't' => b"\x01\x0B\x10\x01\x04\x63\x06",
        b'G' => b"\x01\x08\x63\x06",
        b'x' => b"\x19\x08\xC1\x06",
        _ => b"\x1A\x08\xC1\x06",
    }
}

/// What is told of a unit: its letter, its number, the end that it names, and its user data.
#[derive(Clone, Copy)]
struct Told<'a> {
    letter: &'static str,
    serial: Option<u32>,
    side: &'static str,
    data: &'a [u8],
}

/// What is told of a unit that names no end.
fn nameless<'a>(letter: &'static str, serial: Option<u32>, data: &'a [u8]) -> Told<'a> {
    Told {
        letter,
        serial,
        side: "",
        data,
    }
}

/// The same of one that names this end, or none.
fn naming<'a>(
    letter: &'static str,
    serial: u32,
    token: Option<TokenSide>,
    data: &'a [u8],
) -> Told<'a> {
    Told {
        letter,
        serial: Some(serial),
        side: token.map_or("-", side_text),
        data,
    }
}

fn side_text(side: TokenSide) -> &'static str {
    match side {
        TokenSide::Initiator => "I",
        TokenSide::Responder => "O",
    }
}

fn chosen(first: bool, yes: &'static str, no: &'static str) -> &'static str {
    if first { yes } else { no }
}

/// What is told of a unit. Its letter is a capital where it asks for sync or passes the token.
fn told_of(unit: &SessionSay) -> Told<'_> {
    match unit {
        SessionSay::Connect { sync, serial, data } => {
            nameless(chosen(*sync, "C", "c"), Some(*serial), data.as_slice())
        }
        SessionSay::Accept { sync, serial, data } => {
            nameless(chosen(*sync, "A", "a"), Some(*serial), data.as_slice())
        }
        SessionSay::Refuse { data } => nameless("n", None, data.as_slice()),
        SessionSay::Finish { data } => nameless("f", None, data.as_slice()),
        SessionSay::Finished { data } => nameless("g", None, data.as_slice()),
        SessionSay::Data { pass, data } => nameless(chosen(*pass, "D", "d"), None, data.as_slice()),
        SessionSay::Check { serial } => nameless("k", Some(*serial), &[]),
        SessionSay::Acknowledge { serial } => nameless("l", Some(*serial), &[]),
        SessionSay::Resync {
            kind,
            serial,
            token,
            data,
        } => {
            let letter = chosen(*kind == ResyncKind::Restart, "r", "s");
            naming(letter, *serial, *token, data.as_slice())
        }
        SessionSay::Resynced {
            serial,
            token,
            data,
        } => naming("e", *serial, *token, data.as_slice()),
        SessionSay::Abort { data } => nameless("x", None, data.as_slice()),
        SessionSay::Token { to } => Told {
            letter: "t",
            serial: None,
            side: side_text(*to),
            data: &[],
        },
    }
}

/// Appends user data after a colon: more than 32 `x` by their number.
fn put_data(data: &[u8], out: &mut Text) {
    if data.is_empty() {
        return;
    }
    if data.len() > 32 && data.iter().all(|octet| *octet == b'x') {
        out.put_number(":*", data.len() as u64, "");
        return;
    }
    out.put(":");
    out.put_octets(data);
}

/// Appends a unit: its letter, its number, the end that it names, and its user data.
pub(super) fn put_unit(unit: &SessionSay, out: &mut Text) {
    let told = told_of(unit);
    out.put(told.letter);
    if let Some(serial) = told.serial {
        out.put_number("", u64::from(serial), "");
    }
    out.put(told.side);
    put_data(told.data, out);
    out.put(" ");
}
