//! Sources, sinks, links and dials in memory, and over readers and writers.
ghost use Rattle.std.specs.Prelude.{◌≡◌, ◌<◌, IsTrue, false, length, IfOk};
ghost use Rattle.vf_base.specs.Links.{is_script};

use std::alloc::Global;
use std::test::Fail;
use vf_base::{
    Dial, Failed, LinkEvent, LinkFault, Links, Moment, NoMemory, Octets, Piece, ReadSource,
    ScriptDial, ScriptEvent, ScriptLinks, Sink, SliceSource, Source, VecSink, WriteSink,
    read_up_to,
};

/// Whether the source gives these octets up to its end or the limit.
fn gives<S: Source>(alloc: Global, source: &mut S, limit: usize, octets: &[u8]) -> bool {
    match read_up_to(alloc, source, limit) {
        Ok(all) => all.as_slice() == octets,
        Err(_) => false,
    }
}

#[test]
fn sources_are_read_to_their_end(rt: HostRuntime) -> Result<(), Fail> {
    let mut source = SliceSource::new(b"abcdef", [3].to_vec(rt.alloc())?);
    assert!(rt; gives(rt.alloc(), &mut source, 6, b"abcdef"));
    assert!(rt; read_up_to(rt.alloc(), &mut source, 6).is_err());
    assert!(rt; source.faults() == 1);
    Ok(())
}

#[test]
fn readers_are_read_past_the_limit(rt: HostRuntime) {
    let mut source = ReadSource::new(b"abcdef".as_slice());
    assert!(rt; gives(rt.alloc(), &mut source, 5, b"abcdef"));
}

#[test]
fn sinks_take_octets(rt: HostRuntime) -> Result<(), Fail> {
    let mut sink = VecSink::new(rt.alloc(), [2].to_vec(rt.alloc())?);
    let first = wrote(&mut sink, b"ab");
    let second = wrote(&mut sink, b"cdef");
    assert!(rt; first && !second);
    assert!(rt; sink.octets() == b"abcd".as_slice());
    assert!(rt; sink.faults() == 1);
    Ok(())
}

#[test]
fn writers_take_octets(rt: HostRuntime) {
    let mut octets = Vec::new(rt.alloc());
    let mut sink = WriteSink::new(&mut octets);
    assert!(rt; wrote(&mut sink, b"ab"));
    assert!(rt; octets.as_slice() == b"ab".as_slice());
}

fn wrote<S: Sink>(sink: &mut S, octets: &[u8]) -> bool {
    sink.write(octets).is_ok()
}

/// An arrival, four octets, and the end of the link.
fn script(alloc: Global) -> Result<Vec<ScriptEvent>, NoMemory>
    ensures { IfOk result (λ events. IsTrue (is_script 0 events.items)) }
{
    let Ok(moment) = Moment::of(0) else {
        return Err(NoMemory);
    };
    let octets = Octets::of(alloc, b"abcd")?;
    let events = vec![in alloc;
        ScriptEvent::Arrived { link: 1 },
        ScriptEvent::Octets {
            link: 1,
            moment,
            octets
        },
        ScriptEvent::Ended { link: 1 },
    ]?;
    Ok(events)
}

/// Sends back what comes, twice, and ends links that end; answers how many calls failed before the end.
fn echo<L: Links>(alloc: Global, links: &mut L) -> Result<u64, NoMemory> {
    let mut piece = Vec::new(alloc);
    let mut failed = 0;
    for _ in 0..8 {
        match links.next(alloc, &mut piece) {
            Ok(LinkEvent::Arrived { .. }) => {}
            Ok(LinkEvent::Octets { link, .. }) => {
                let _ = links.send(link, piece.as_slice());
                let _ = links.send(link, piece.as_slice());
            }
            Ok(LinkEvent::Ended { link }) => links.shut(link),
            Ok(LinkEvent::Done) => return Ok(failed),
            Err(LinkFault::Failed) => failed = 1,
            Err(LinkFault::NoMemory) => return Err(NoMemory),
        }
    }
    Err(NoMemory)
}

/// Whether the pieces hold these octets, in turn.
fn are_pieces(pieces: &[Piece], first: &[u8], second: &[u8]) -> bool {
    match pieces {
        [a, b] => a.octets.as_slice() == first && b.octets.as_slice() == second,
        _ => false,
    }
}

/// Whether the links tell what `echo` did.
fn has_echoed(links: &ScriptLinks) -> bool {
    links.turns_left() == 0
        && links.faults() == 1
        && links.send_faults() == 1
        && links.failed_sends() == [(1, 2)].as_slice()
        && links.shut_links() == [(1, 3)].as_slice()
        && are_pieces(links.pieces(), b"abcd", b"ab")
}

/// The links of the script, whose second call and second send fail.
fn scripted(alloc: Global) -> Result<ScriptLinks, NoMemory> {
    let failing = [2].to_vec(alloc)?;
    let failing_sends = [2].to_vec(alloc)?;
    let events = script(alloc)?;
    ScriptLinks::new(alloc, events, failing, failing_sends)
}

#[test]
fn links_tell_what_was_done(rt: HostRuntime) -> Result<(), Fail> {
    let mut links = scripted(rt.alloc())?;
    assert!(rt; matches!(echo(rt.alloc(), &mut links), Ok(1)));
    assert!(rt; has_echoed(&links));
    Ok(())
}

/// Connects, sends the octets and reads twice.
fn exchange<D: Dial>(dial: &mut D, octets: &[u8], into: &mut [u8]) -> Result<usize, Failed>
    requires stands { D.stands dial.old ≡ false }
    requires room { 0 < length into.old }
{
    dial.connect()?;
    dial.send(octets)?;
    let count = dial.read(into)?;
    if count > 0 {
        let _end = dial.read(into)?;
    }
    Ok(count)
}

/// A dial whose sixth call fails, and which hears two octets.
fn dialled(alloc: Global) -> Result<ScriptDial, NoMemory>
    ensures { IfOk result (λ dial. dial.stands ≡ false) }
{
    let failing = [6].to_vec(alloc)?;
    let octets = Octets::of(alloc, b"xy")?;
    let coming = vec![in alloc; octets]?;
    ScriptDial::new(alloc, coming, failing)
}

/// Whether so many connections were lost, after so many faults.
fn has_lost(dial: &ScriptDial, lost: u64, faults: u64) -> bool {
    dial.lost() == lost && dial.faults() == faults
}

/// Whether these octets were sent on the connection.
fn was_sent(dial: &ScriptDial, connection: usize, octets: &[u8]) -> bool {
    match dial.said(connection) {
        Some(sent) => sent == octets,
        None => false,
    }
}

#[test]
fn dials_tell_what_was_sent(rt: HostRuntime) -> Result<(), Fail> {
    let mut dial = dialled(rt.alloc())?;
    let mut into = [0; 4];
    assert!(rt; exchange(&mut dial, b"abcd", &mut into).is_ok());
    assert!(rt; has_lost(&dial, 1, 0));
    dial.close();
    assert!(rt; exchange(&mut dial, b"abcd", &mut into).is_err());
    assert!(rt; has_lost(&dial, 2, 1));
    assert!(rt; was_sent(&dial, 0, b"abcd") && was_sent(&dial, 1, b"ab") && dial.said(2).is_none());
    Ok(())
}
