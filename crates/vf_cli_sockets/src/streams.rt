//! The calls of the system that links over sockets make.
ghost use Rattle.std.specs.Prelude.{◌<◌, ◌≤◌, IfOk, length};
ghost use Rattle.vf_cli_sockets.specs.Heard.{IsWithin};

use libc::net::{POLLOUT, poll};
use libc::types::pollfd;
use mio::net::{TcpListener, TcpStream};
use std::io::{self, ErrorKind, Read, Write};
use std::net::{Ipv4Addr, Net, Shutdown, SocketAddr};
use std::os::fd::AsRawFd;
use std::thread;
use std::time::{Clock, Duration, SystemTime};
use vf_base::{Failed, Moment};

/// So many tries to send in a row that would block are made at most.
const MOST_TRIES: u32 = 10_000;

/// The last second of the year 9999.
const LAST_SECOND: u64 = 253_402_300_799;

/// What a read of a stream gave.
#[derive(Clone, Copy)]
pub(crate) enum Heard {
    /// So many octets.
    Octets(usize),
    /// Nothing came meanwhile.
    Nothing,
    /// The peer has ended the stream, or it was lost.
    End,
}

/// Listens at a port of all the host's addresses.
pub(crate) fn listen(rt: &HostRuntime, port: u16) -> io::Result<TcpListener> {
    TcpListener::bind(rt, SocketAddr::from((Ipv4Addr::UNSPECIFIED, port)))
}

/// The next stream that waits, if one does. One that was lost before it was accepted is passed over.
pub(crate) fn accept(listener: &TcpListener) -> Option<TcpStream> {
    let Ok((stream, _address)) = listener.accept() else {
        return None;
    };
    // Answers are short and waited for. Where this fails they are only sent later.
    let _ = stream.set_nodelay(true);
    Some(stream)
}

/// Reads what has come on a stream, if anything has.
pub(crate) fn hear(stream: &mut TcpStream, into: &mut [u8]) -> Heard
    ensures { IsWithin result (length into.new) }
{
    match stream.read(into) {
        Ok(0) => Heard::End,
        Ok(count) => Heard::Octets(count),
        Err(error) if is_passing(&error) => Heard::Nothing,
        Err(_) => Heard::End,
    }
}

/// Whether a call is only to be made again.
fn is_passing(error: &io::Error) -> bool {
    matches!(error.kind(), ErrorKind::WouldBlock | ErrorKind::Interrupted)
}

/// Sends all octets. After a try that would block it waits for a millisecond, or until the stream takes octets again; after many
/// such tries in a row it fails.
pub(crate) fn send_all(
    rt: &HostRuntime,
    stream: &mut TcpStream,
    octets: &[u8],
) -> Result<(), Failed> {
    let mut rest = octets;
    while !rest.is_empty() {
        let count = send_some(rt, stream, rest)?;
        let (_, later) = rest.split_at(count);
        rest = later;
    }
    Ok(())
}

/// Sends some of the octets: at least one.
fn send_some(rt: &HostRuntime, stream: &mut TcpStream, octets: &[u8]) -> Result<usize, Failed>
    ensures { IfOk result (λ count. (0 < count) × (count ≤ length octets.now)) }
{
    for _ in 0..MOST_TRIES {
        match stream.write(octets) {
            Ok(0) => return Err(Failed),
            Ok(count) => return Ok(count),
            Err(error) if error.kind() == ErrorKind::WouldBlock => wait_to_send(rt, stream),
            Err(error) if error.kind() == ErrorKind::Interrupted => {}
            Err(_) => return Err(Failed),
        }
    }
    Err(Failed)
}

/// Waits until a stream takes octets again, a millisecond at most. Where the system has no such wait, it sleeps for that time.
fn wait_to_send(rt: &HostRuntime, stream: &TcpStream) {
    let mut asked = [pollfd {
        fd: stream.as_raw_fd(),
        events: POLLOUT,
        revents: 0,
    }];
    if poll(&mut asked, 1) < 0 {
        sleep(rt);
    }
}

/// Tells the peer of a stream that nothing more is sent.
pub(crate) fn end(stream: &TcpStream) {
    let _ = stream.shutdown(Shutdown::Write);
}

/// Sleeps for a millisecond.
pub(crate) fn sleep(clock: &impl Clock) {
    thread::sleep(clock, Duration::from_millis(1));
}

/// Sleeps for a tenth of a second.
pub(crate) fn pause(clock: &impl Clock) {
    thread::sleep(clock, Duration::from_millis(100));
}

/// The moment by the system's clock. Where the clock tells none it is the first one, and the last one past the year 9999.
pub(crate) fn moment(clock: &impl Clock) -> Moment {
    let seconds = match SystemTime::now(clock) {
        Ok(now) => seconds_of(now),
        Err(_) => 0,
    };
    let Ok(moment) = Moment::of(seconds.min(LAST_SECOND)) else {
        unreachable!()
    };
    moment
}

/// The seconds since 1970-01-01T00:00:00Z.
fn seconds_of(now: SystemTime) -> u64 {
    match now.duration_since(SystemTime::UNIX_EPOCH) {
        Ok(since) => since.as_secs(),
        Err(_) => 0,
    }
}
