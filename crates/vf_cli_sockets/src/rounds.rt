//! The rounds over a port and the streams that came to it.
ghost use Rattle.std.specs.Prelude.{◌≡◌, ◌≤◌, [], IfOk, length};
ghost use Rattle.vf_cli_sockets.specs.Heard.{MayCome};

use crate::streams::{Heard, accept, end, hear, moment, send_all};
use crate::waking::Waking;
use mio::net::{TcpListener, TcpStream};
use vf_base::{Failed, LinkEvent, NoMemory};

/// So many octets are read from a stream at once.
const MOST_OCTETS: usize = 65_536;

/// A stream that was ended is closed after so many rounds in which nothing came on it.
const MOST_QUIET: u32 = 1_000;

/// Of so many rounds one visits the port, whatever is known of it.
const MOST_AWAY: u32 = 16;

/// So many streams that were ended are kept; one more is closed at once.
const MOST_ENDED: usize = 64;

/// A stream with the number of its link.
#[derive(Drop)]
struct Stream {
    link: u32,
    socket: TcpStream,
}

/// A stream that was ended, on which nothing more is sent, and in how many rounds in a row nothing came.
#[derive(Drop)]
struct Ended {
    socket: TcpStream,
    quiet: u32,
}

impl Ended {
    /// Reads what has come, which is passed over. False where the stream is to be closed.
    fn goes_on(&mut self, into: &mut [u8]) -> bool {
        match hear(&mut self.socket, into) {
            Heard::Octets(_) => {
                self.quiet = 0;
                true
            }
            Heard::Nothing => {
                self.quiet = self.quiet.saturating_add(1);
                self.quiet < MOST_QUIET
            }
            Heard::End => false,
        }
    }
}

/// A port, and the streams that came to it, which are visited in rounds, each once. A round in which nothing came is idle, and
/// waits for a millisecond, or until something comes. The port is visited while streams wait there, after a wait that no stream
/// has ended, and else seldom: the system makes a stream for each such call before it finds that none waits.
///
/// A stream that is shut is closed once its peer has ended it too, or has been quiet for long: one that is closed over octets
/// that weren't read may take what was sent last away from the peer.
#[derive(Drop)]
pub(crate) struct Rounds {
    rt: HostRuntime,
    listener: Option<TcpListener>,
    /// It watches the port and the streams.
    waking: Waking,
    /// In the order of their numbers.
    streams: Vec<Stream>,
    /// In the order in which they were ended.
    ended: Vec<Ended>,
    /// What is read from a stream first comes here.
    buffer: Vec<u8>,
    /// Whether the port was visited in this round.
    listened: bool,
    /// Whether a stream may wait at the port.
    knocks: bool,
    /// So many rounds have ended, up to the number of those of which one visits the port.
    away: u32,
    /// So many of the streams were visited in this round.
    place: usize,
    /// Whether nothing came in this round.
    quiet: bool,
    /// So many rounds in a row were idle.
    idle: u64,
    most_idle: u64,
    ghost bound: { length buffer.items ≤ 65536 },
}

impl Rounds {
    /// The first round, of at most so many that are idle in a row.
    pub(crate) fn new(rt: &HostRuntime, listener: Option<TcpListener>, most_idle: u64) -> Rounds {
        let waking = Waking::new(rt);
        let mut listener = listener;
        if let Some(listener) = &mut listener {
            waking.watch_port(listener);
        }
        Rounds {
            rt: *rt,
            listener,
            waking,
            streams: Vec::new(rt.alloc()),
            ended: Vec::new(rt.alloc()),
            buffer: Vec::new(rt.alloc()),
            listened: false,
            knocks: true,
            away: 0,
            place: 0,
            quiet: true,
            idle: 0,
            most_idle,
        }
    }

    /// Whether there is a port.
    pub(crate) fn has_port(&self) -> bool {
        self.listener.is_some()
    }

    /// Makes the room for a piece before one is read.
    fn make_room(&mut self, piece: &mut Vec<u8>) -> Result<(), NoMemory>
        ensures { piece.new.items ≡ piece.old.items }
    {
        self.buffer.resize(MOST_OCTETS, 0)?;
        piece.reserve(MOST_OCTETS)?;
        Ok(())
    }

    /// Accepts the next stream, if one waits. It has the number after these, unless there is none.
    fn accept(&mut self, links: u32) -> Result<Option<LinkEvent>, NoMemory>
        ensures { IfOk result (λ came. MayCome links [] came) }
    {
        let Some(listener) = &self.listener else {
            return Ok(None);
        };
        if links == u32::MAX {
            return Ok(None);
        }
        self.streams.reserve(1)?;
        let Some(mut socket) = accept(listener) else {
            return Ok(None);
        };
        self.waking.watch(&mut socket);
        let link = links + 1;
        self.streams.push_reserved(Stream { link, socket });
        Ok(Some(LinkEvent::Arrived { link }))
    }

    /// Visits the stream at the place.
    fn visit(&mut self, links: u32, piece: &mut Vec<u8>) -> Result<Option<LinkEvent>, NoMemory>
        requires { piece.old.items ≡ [] }
        ensures { IfOk result (λ came. MayCome links piece.new.items came) }
    {
        let place = self.place;
        let Some(stream) = self.streams.get_mut(place) else {
            return Ok(None);
        };
        let link = stream.link;
        match hear(&mut stream.socket, self.buffer.as_mut_slice()) {
            Heard::Nothing => {
                self.place = place.saturating_add(1);
                Ok(None)
            }
            Heard::Octets(count) => {
                self.place = place.saturating_add(1);
                let (octets, _) = self.buffer.as_slice().split_at(count);
                piece.extend_from_slice(octets)?;
                let moment = moment(&self.rt);
                Ok(Some(LinkEvent::Octets { link, moment }))
            }
            Heard::End => {
                let _ended = self.streams.remove(place);
                Ok(Some(LinkEvent::Ended { link }))
            }
        }
    }

    /// Goes on with a round, up to its end or to what came.
    fn go_on(&mut self, links: u32, piece: &mut Vec<u8>) -> Result<Option<LinkEvent>, NoMemory>
        requires { piece.old.items ≡ [] }
        ensures { IfOk result (λ came. MayCome links piece.new.items came) }
    {
        if self.knocks && !self.listened {
            self.listened = true;
            if let Some(event) = self.accept(links)? {
                return Ok(Some(event));
            }
            self.knocks = false;
        }
        for _ in self.place..self.streams.len() {
            if let Some(event) = self.visit(links, piece)? {
                return Ok(Some(event));
            }
        }
        Ok(None)
    }

    /// Visits each stream that was ended.
    fn pass_over(&mut self) {
        let mut place: usize = 0;
        for _ in 0..self.ended.len() {
            let Some(ended) = self.ended.get_mut(place) else {
                return;
            };
            if ended.goes_on(self.buffer.as_mut_slice()) {
                place = place.saturating_add(1);
            } else {
                let _closed = self.ended.remove(place);
            }
        }
    }

    /// Ends a round.
    fn end_round(&mut self) {
        self.pass_over();
        if self.quiet {
            self.idle = self.idle.saturating_add(1);
            self.knocks |= self.waking.wait();
        }
        self.away = self.away.saturating_add(1) % MOST_AWAY;
        self.knocks |= self.away == 0;
        self.listened = false;
        self.place = 0;
        self.quiet = true;
    }

    /// What comes before the idle rounds are over, after so many links.
    pub(crate) fn wait(
        &mut self,
        links: u32,
        piece: &mut Vec<u8>,
    ) -> Result<Option<LinkEvent>, NoMemory>
        requires { piece.old.items ≡ [] }
        ensures { IfOk result (λ came. MayCome links piece.new.items came) }
    {
        self.make_room(piece)?;
        let left = self.most_idle.saturating_sub(self.idle);
        // The first round may be one in which something came before.
        for _ in 0..=left {
            if let Some(event) = self.go_on(links, piece)? {
                self.quiet = false;
                self.idle = 0;
                return Ok(Some(event));
            }
            self.end_round();
            if self.idle >= self.most_idle {
                return Ok(None);
            }
        }
        Ok(None)
    }

    /// Sends all octets on a link. A link on which that fails is lost.
    pub(crate) fn send(&mut self, link: u32, octets: &[u8]) -> Result<(), Failed> {
        let Some(place) = self.place_of(link) else {
            return Err(Failed);
        };
        let Some(stream) = self.streams.get_mut(place) else {
            return Err(Failed);
        };
        if send_all(&self.rt, &mut stream.socket, octets).is_err() {
            let _lost = self.take(link);
            return Err(Failed);
        }
        Ok(())
    }

    /// Ends the stream of a link, if it stands.
    pub(crate) fn shut(&mut self, link: u32) {
        let Some(Stream { mut socket, .. }) = self.take(link) else {
            return;
        };
        end(&socket);
        self.waking.leave(&mut socket);
        if self.ended.len() < MOST_ENDED {
            let _kept = self.ended.push(Ended { socket, quiet: 0 });
        }
    }

    fn place_of(&self, link: u32) -> Option<usize> {
        self.streams.iter().position(|stream| stream.link == link)
    }

    /// Takes the stream of a link out of the others, if it stands.
    fn take(&mut self, link: u32) -> Option<Stream> {
        let place = self.place_of(link)?;
        if place < self.place {
            self.place -= 1;
        }
        if place < self.streams.len() {
            return Some(self.streams.remove(place));
        }
        None
    }
}
