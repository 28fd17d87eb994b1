//! User data of presentation and ACSE: a line such as `DT 1a,3p 6100` has an SPDU, contexts, and user data in hexadecimal
//! digits. A context is an identifier and a letter: `a` ACSE, `p` FTAM PCI, `f` FADU, `t` text, `b` binary, another one
//! any other syntax; `-` stands for no contexts.
//!
//! The answer is `grammar AT`, `context ID`, `application`, or `ok` with the offers or the results, the values, each with
//! its context before it, and the user data that are written for what was read, `-` where none can be.
use crate::fault::Fault;
use crate::reading::{octets_in, text_of};
use crate::spelling::put_spelling;
use crate::text::Text;
use std::alloc::Global;
use vf_base::{Oid, SpduKind};
use vf_upper::{
    CarriedValues, ContextEntry, Contexts, Offers, Primitive, Results, UpperError, is_writable,
    read, write,
};

fn carrier_of(name: &str) -> Option<SpduKind> {
    match name {
        "CN" => Some(SpduKind::CN),
        "AC" => Some(SpduKind::AC),
        "RF" => Some(SpduKind::RF),
        "FN" => Some(SpduKind::FN),
        "DN" => Some(SpduKind::DN),
        "AB" => Some(SpduKind::AB),
        "DT" => Some(SpduKind::DT),
        "RS" => Some(SpduKind::RS),
        "RA" => Some(SpduKind::RA),
        "GT" => Some(SpduKind::GT),
        _ => None,
    }
}

fn arcs_of(letter: char) -> [u32; 5] {
    match letter {
        'a' => [2, 2, 1, 0, 1],
        'p' => [1, 0, 8571, 2, 1],
        'f' => [1, 0, 8571, 2, 2],
        't' => [1, 0, 8571, 2, 3],
        'b' => [1, 0, 8571, 2, 4],
        _ => [1, 3, 9999, 1, 1],
    }
}

fn letter_of(oid: &Oid) -> &'static str {
    let arcs = oid.arcs();
    for (letter, word) in [('a', "a"), ('p', "p"), ('f', "f"), ('t', "t"), ('b', "b")] {
        if arcs == arcs_of(letter).as_slice() {
            return word;
        }
    }
    "u"
}

fn context_of(alloc: Global, word: &str) -> Result<ContextEntry, Fault> {
    let (id, letter) = id_and_letter(word).ok_or(Fault::Line)?;
    match Oid::of(alloc, arcs_of(letter).as_slice()) {
        Ok(syntax) => Ok(ContextEntry { id, syntax }),
        Err(_) => Err(Fault::NoMemory),
    }
}

/// The number of a word, and the letter after it.
fn id_and_letter(word: &str) -> Option<(i64, char)> {
    let letter = word.chars().next_back()?;
    let digits = word.trim_end_matches(letter);
    let id = digits.parse::<i64>().ok()?;
    Some((id, letter))
}

fn contexts_of(alloc: Global, words: &str) -> Result<Contexts, Fault> {
    let mut made = Contexts::new(alloc);
    if words == "-" {
        return Ok(made);
    }
    for word in words.split(',') {
        let entry = context_of(alloc, word)?;
        made.push(entry)?;
    }
    Ok(made)
}

/// Appends the identifier of a context between two texts.
fn put_id(alloc: Global, before: &str, id: i64, after: &str, out: &mut Text) {
    out.put_made(format!(in alloc; "{before}{id}{after}"));
}

fn put_offers(alloc: Global, offers: &Offers, out: &mut Text) {
    for offer in offers.as_slice() {
        put_id(alloc, " ", offer.id, letter_of(&offer.syntax), out);
        out.put(if offer.ber { "+" } else { "-" });
    }
}

fn put_results(results: &Results, out: &mut Text) {
    for accepted in results.as_slice() {
        out.put(if *accepted { " +" } else { " -" });
    }
}

fn put_values(alloc: Global, values: &CarriedValues, out: &mut Text) {
    for value in values.as_slice() {
        put_id(alloc, " ", value.context, ":", out);
        put_spelling(alloc, &value.value, out);
    }
}

/// Appends the offers or the results of a primitive.
fn put_contexts(alloc: Global, primitive: &Primitive, out: &mut Text) {
    match primitive {
        Primitive::Associate { offers, .. } => put_offers(alloc, offers, out),
        Primitive::Accepted { results, .. } => put_results(results, out),
        Primitive::Refused { results, .. } => put_results(results, out),
        _ => {}
    }
}

fn values_of(primitive: &Primitive) -> &CarriedValues {
    match primitive {
        Primitive::Associate { values, .. }
        | Primitive::Accepted { values, .. }
        | Primitive::Refused { values, .. }
        | Primitive::Release { values }
        | Primitive::Released { values }
        | Primitive::Data { values }
        | Primitive::Abort { values } => values,
    }
}

/// Appends the user data that are written for a primitive, where they can be.
fn put_written(alloc: Global, primitive: &Primitive, contexts: &Contexts, out: &mut Text) {
    if !is_writable(primitive, contexts) {
        out.put(" -\n");
        return;
    }
    let mut written = Vec::new(alloc);
    match write(alloc, primitive, contexts, &mut written) {
        Ok(()) => {
            out.put(" ");
            out.put_digits(written.as_slice());
            out.put("\n");
        }
        Err(_) => out.fail(Fault::NoMemory),
    }
}

fn put_read(alloc: Global, primitive: &Primitive, contexts: &Contexts, out: &mut Text) {
    out.put("ok");
    put_contexts(alloc, primitive, out);
    put_values(alloc, values_of(primitive), out);
    put_written(alloc, primitive, contexts, out);
}

fn put_error(alloc: Global, error: UpperError, out: &mut Text) {
    match error {
        UpperError::Grammar { at } => out.put_number("grammar ", u64::from(at), "\n"),
        UpperError::Context { id } => put_id(alloc, "context ", id, "\n", out),
        UpperError::Application => out.put("application\n"),
        UpperError::NoMemory => out.fail(Fault::NoMemory),
    }
}

fn put_answer(
    alloc: Global,
    carrier: SpduKind,
    contexts: &Contexts,
    octets: &[u8],
    out: &mut Text,
) {
    match read(alloc, carrier, contexts, octets) {
        Ok(primitive) => put_read(alloc, &primitive, contexts, out),
        Err(error) => put_error(alloc, error, out),
    }
}

/// Appends what is read of a line.
pub fn put_line(alloc: Global, line: &[u8], out: &mut Text) -> Result<(), Fault> {
    let mut words = text_of(line)?.split(' ');
    let carrier = words.next().and_then(carrier_of).ok_or(Fault::Line)?;
    let contexts = words.next().ok_or(Fault::Line)?;
    let digits = words.next().ok_or(Fault::Line)?;
    let octets = octets_in(alloc, digits.as_bytes())?;
    let contexts = contexts_of(alloc, contexts)?;
    put_answer(alloc, carrier, &contexts, octets.as_slice(), out);
    Ok(())
}
