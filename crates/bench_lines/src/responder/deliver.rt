//! A life through the responder itself: what is sent goes into words, `1:` and the octets, with `!` where the link is shut after
//! them.
use crate::digests::{NO_OCTETS, digest, next_random};
use crate::fault::Fault;
use crate::text::Text;
use std::alloc::Global;
use vf_base::{Moment, ScriptEvent};
use vf_disk::Disk;
use vf_responder::{Event, Reply, RespondError, Responder};

/// Appends octets as hexadecimal digits; of more than 256 the first 8, how many there are and the digest of all.
pub fn put_octets(octets: &[u8], out: &mut Text) {
    out.put_front(octets, 256, 8);
    if octets.len() > 256 {
        out.put("#");
        out.put_digest(digest(NO_OCTETS, octets));
    }
}

/// Appends why a responder doesn't go on.
pub fn put_error(error: RespondError, out: &mut Text) {
    match error {
        RespondError::NotAStore { at, .. } => out.put_number("NotAStore:", at, " "),
        RespondError::Full { length, limit } => {
            out.put_number("Full:", length, ":");
            out.put_number("", limit, " ");
        }
        RespondError::DiskFault => out.put("DiskFault "),
        RespondError::NoMemory => out.fail(Fault::NoMemory),
    }
}

/// Appends octets that are sent on a link.
pub fn put_sent(link: u32, octets: &[u8], out: &mut Text) {
    out.put_number("", u64::from(link), ":");
    put_octets(octets, out);
}

/// Appends a reply.
fn put_reply(alloc: Global, reply: &Reply, out: &mut Text) {
    match reply.octets.to_vec(alloc) {
        Ok(octets) => put_sent(reply.link, octets.as_slice(), out),
        Err(_) => out.fail(Fault::NoMemory),
    }
    out.put(if reply.shut { "! " } else { " " });
}

fn put_replies(alloc: Global, replies: &[Reply], out: &mut Text) {
    for reply in replies {
        put_reply(alloc, reply, out);
    }
}

/// How many octets the next piece of a cut has: the whole of them (seed 0), one (1), or at most 39 by the seed, which goes on.
fn count_of(seed: &mut u64, len: usize) -> usize {
    match *seed {
        0 => len,
        1 => 1,
        _ => {
            *seed = next_random(*seed);
            ((*seed % 39) as usize).saturating_add(1)
        }
    }
}

/// Appends what an event is answered. False where the responder doesn't go on.
fn put_answer(
    alloc: Global,
    answer: Result<(), RespondError>,
    replies: &[Reply],
    out: &mut Text,
) -> bool {
    put_replies(alloc, replies, out);
    match answer {
        Ok(()) => true,
        Err(error) => {
            put_error(error, out);
            false
        }
    }
}

fn arrive<D: Disk>(alloc: Global, responder: &mut Responder<D>, link: u32, out: &mut Text) -> bool {
    let mut replies = Vec::new(alloc);
    let answer = responder.deliver(alloc, Event::Arrived { link }, &mut replies);
    put_answer(alloc, answer, replies.as_slice(), out)
}

fn end<D: Disk>(alloc: Global, responder: &mut Responder<D>, link: u32, out: &mut Text) -> bool {
    let mut replies = Vec::new(alloc);
    let answer = responder.deliver(alloc, Event::Ended { link }, &mut replies);
    put_answer(alloc, answer, replies.as_slice(), out)
}

/// A piece of octets comes on a link.
fn hear<D: Disk>(
    alloc: Global,
    responder: &mut Responder<D>,
    link: u32,
    moment: Moment,
    octets: &[u8],
    out: &mut Text,
) -> bool {
    let mut replies = Vec::new(alloc);
    let answer = responder.deliver(
        alloc,
        Event::Octets {
            link,
            moment,
            octets,
        },
        &mut replies,
    );
    put_answer(alloc, answer, replies.as_slice(), out)
}

/// Octets come on a link, cut by a seed.
fn hear_all<D: Disk>(
    alloc: Global,
    responder: &mut Responder<D>,
    link: u32,
    moment: Moment,
    octets: &[u8],
    seed: &mut u64,
    out: &mut Text,
) -> bool {
    let mut rest = octets;
    for _ in 0..octets.len() {
        if rest.is_empty() {
            break;
        }
        let count = count_of(seed, rest.len());
        let (piece, after) = rest.split_at(count.min(rest.len()));
        if !hear(alloc, responder, link, moment, piece, out) {
            return false;
        }
        rest = after;
    }
    true
}

fn deliver<D: Disk>(
    alloc: Global,
    responder: &mut Responder<D>,
    event: &ScriptEvent,
    seed: &mut u64,
    out: &mut Text,
) -> bool {
    match event {
        ScriptEvent::Arrived { link } => arrive(alloc, responder, *link, out),
        ScriptEvent::Octets {
            link,
            moment,
            octets,
        } => hear_all(
            alloc,
            responder,
            *link,
            *moment,
            octets.as_slice(),
            seed,
            out,
        ),
        ScriptEvent::Ended { link } => end(alloc, responder, *link, out),
    }
}

/// All events come, cut by a seed. False where the responder doesn't go on to their end.
pub fn deliver_all<D: Disk>(
    alloc: Global,
    responder: &mut Responder<D>,
    events: &[ScriptEvent],
    seed: u64,
    out: &mut Text,
) -> bool {
    let mut seed = seed;
    for event in events {
        if !deliver(alloc, responder, event, &mut seed, out) {
            return false;
        }
    }
    true
}
