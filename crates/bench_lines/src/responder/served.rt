//! A life through `serve`, over links in memory: the octets that were taken go into words, `1:` and the octets of a send; then
//! `shut 1@4` tells a link that was shut after so many events, `failed 1@4` one a send of which failed, and `served 1 4` how
//! many links and events there were, in place of which a fault may stand.
ghost use Rattle.std.specs.Prelude.{◌≡◌, ◌∷◌, List, true, false, IfSome, IsNone, IsTrue};
ghost use Rattle.vf_base.specs.Links.{is_script};
ghost use Rattle.vf_base.specs.declared.events.ScriptEvent.{ScriptEvent as ScriptEventMeant};

use crate::fault::Fault;
use crate::responder::deliver::{put_error, put_sent};
use crate::responder::life::{Life, listed};
use crate::text::Text;
use std::alloc::Global;
use vf_base::{ScriptEvent, ScriptLinks};
use vf_responder::{ServeError, Served};

/// The last link that arrived, after this event behind such a one; none where links may not hand it out then.
fn last_after(last: u32, event: &ScriptEvent) -> Option<u32>
    ensures some { IfSome result (λ after. (later : List ScriptEventMeant) → is_script last (event.now ∷ later) ≡ is_script after later) }
    ensures none { IsNone result → (later : List ScriptEventMeant) → is_script last (event.now ∷ later) ≡ false }
{
    match event {
        ScriptEvent::Arrived { link } => {
            if last < *link {
                return Some(*link);
            }
            None
        }
        ScriptEvent::Octets { octets, .. } => {
            let count = octets.len();
            if 1 <= count && count <= 65_536 {
                return Some(last);
            }
            None
        }
        ScriptEvent::Ended { .. } => Some(last),
    }
}

/// Whether links may hand out these events.
fn may_come(events: &[ScriptEvent]) -> bool
    ensures { result ≡ true → IsTrue (is_script 0 events.now) }
{
    let mut last = 0;
    for event in events {
        match last_after(last, event) {
            Some(after) => last = after,
            None => return false,
        }
    }
    true
}

/// The links on which the events of a life happen.
pub fn links_of(alloc: Global, life: Life) -> Result<ScriptLinks, Fault> {
    let next = listed(alloc, life.plan.next)?;
    let send = listed(alloc, life.plan.send)?;
    let events = life.events;
    if !may_come(events.as_slice()) {
        return Err(Fault::Line);
    }
    Ok(ScriptLinks::new(alloc, events, next, send)?)
}

fn put_notes(name: &str, notes: &[(u32, u64)], out: &mut Text) {
    for (link, events) in notes {
        out.put_number(name, u64::from(*link), "@");
        out.put_number("", *events, " ");
    }
}

fn put_traffic(links: &ScriptLinks, out: &mut Text) {
    for piece in links.pieces() {
        put_sent(piece.link, piece.octets.as_slice(), out);
        out.put(" ");
    }
}

/// Appends what came of serving.
pub fn put_served(links: &ScriptLinks, answer: Result<Served, ServeError>, out: &mut Text) {
    put_traffic(links, out);
    put_notes("shut ", links.shut_links(), out);
    put_notes("failed ", links.failed_sends(), out);
    match answer {
        Ok(served) => {
            out.put_number("served ", served.links, " ");
            out.put_number("", served.events, " ");
        }
        Err(ServeError::Respond(error)) => put_error(error, out),
        Err(ServeError::LinksFault) => out.put("LinksFault "),
        Err(ServeError::NoMemory) => out.fail(Fault::NoMemory),
    }
}
