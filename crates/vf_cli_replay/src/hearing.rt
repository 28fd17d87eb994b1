//! What is heard on links by their calling ends.
ghost use Rattle.std.specs.Prelude.{◌≡◌, OnOk};
ghost use Rattle.vf_cli_calling.specs.Calling.{Calling};
ghost use Rattle.vf_cli_calling.specs.Represents.{Represents};
ghost use Rattle.vf_cli_replay.specs.Running.{Ends, end_on, goes_on as goes_on_meant, heard_all, heard_by, heard_on, joined, with_end};
ghost use Rattle.vf_cli_replay.specs.Hearing.{AreEnds, AreOthers, HasHeard};

use indexmap::IndexMap;
use std::alloc::Global;
use vf_base::NoMemory;
use vf_cli_calling::{Caller, append_octets, append_shut};
use vf_responder::Reply;

/// Keeps the calling end of a link.
pub(crate) fn put(
    callers: &mut IndexMap<u32, Caller>,
    link: u32,
    caller: Caller,
) -> Result<(), NoMemory>
    ensures { (ends : Ends) (calling : Calling) → AreOthers link callers.old.entries ends → Represents caller calling
        → OnOk result (AreEnds callers.new.entries (with_end link calling ends)) }
{
    let before = callers.insert(link, caller)?;
    drop(before);
    Ok(())
}

/// What is said on a link is heard by its calling end, or told as octets where it has none.
fn hear_by(
    alloc: Global,
    callers: &mut IndexMap<u32, Caller>,
    link: u32,
    octets: &[u8],
    text: &mut Vec<u8>,
) -> Result<(), NoMemory>
    ensures { (ends : Ends) → AreEnds callers.old.entries ends
        → OnOk result (HasHeard (heard_by (end_on link ends) link octets.now ends) text.old.items callers.new.entries text.new.items) }
{
    let Some(caller) = callers.swap_remove(&link) else {
        return append_octets(alloc, link, octets, text);
    };
    let mut caller = caller;
    caller.hear(alloc, link, octets, text)?;
    put(callers, link, caller)
}

/// The same, after which the link may be shut.
fn hear_on(
    alloc: Global,
    callers: &mut IndexMap<u32, Caller>,
    link: u32,
    octets: &[u8],
    shut: bool,
    text: &mut Vec<u8>,
) -> Result<(), NoMemory>
    ensures { (ends : Ends) → AreEnds callers.old.entries ends
        → OnOk result (HasHeard (heard_on (record { link = link; octets = octets.now; shut = shut }) ends) text.old.items callers.new.entries text.new.items) }
{
    hear_by(alloc, callers, link, octets, text)?;
    if shut {
        append_shut(alloc, link, text)?;
    }
    Ok(())
}

/// Whether the reply after this one goes on with what it says.
fn goes_on(reply: &Reply, later: &[Reply]) -> bool
    ensures { result ≡ goes_on_meant reply.now later.now }
{
    match later.first() {
        Some(next) => !reply.shut && next.link == reply.link,
        None => false,
    }
}

/// What is said on a link in neighbouring replies is heard at once.
pub(crate) fn hear_all(
    alloc: Global,
    callers: &mut IndexMap<u32, Caller>,
    replies: &[Reply],
    text: &mut Vec<u8>,
) -> Result<(), NoMemory>
    ensures { (ends : Ends) → AreEnds callers.old.entries ends
        → OnOk result (HasHeard (heard_all (joined replies.now) ends) text.old.items callers.new.entries text.new.items) }
{
    let mut octets = Vec::new(alloc);
    for place in 0..replies.len() {
        let reply = &replies[place];
        reply.octets.append_to(&mut octets)?;
        if !goes_on(reply, &replies[place + 1..]) {
            hear_on(
                alloc,
                callers,
                reply.link,
                octets.as_slice(),
                reply.shut,
                text,
            )?;
            octets.clear();
        }
    }
    Ok(())
}
