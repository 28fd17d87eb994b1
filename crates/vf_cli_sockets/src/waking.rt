//! What ends the wait of a round in which nothing came.
use crate::streams::sleep;
use mio::event::Source;
use mio::net::{TcpListener, TcpStream};
use mio::{Events, Interest, Poll, Token};
use std::net::Net;
use std::time::Duration;

/// So many events are taken at once. Of streams what they tell isn't looked at, since a round visits all of them.
const MOST_EVENTS: usize = 64;

/// What is told of the port, and of streams.
const PORT: Token = Token(0);

const STREAM: Token = Token(1);

/// The system's wait for events, and room for them.
#[derive(Drop)]
struct Waiting {
    poll: Poll,
    events: Events,
}

/// Waits until something comes on the port or on a stream that is watched, a millisecond at most. Where the system or memory
/// has no such wait, it sleeps for that time.
#[derive(Drop)]
pub(crate) struct Waking {
    rt: HostRuntime,
    waiting: Option<Waiting>,
}

impl Waking {
    pub(crate) fn new(rt: &HostRuntime) -> Waking {
        Waking {
            rt: *rt,
            waiting: waits(rt),
        }
    }

    /// Watches the port. Where this fails, a stream that comes there is only found later.
    pub(crate) fn watch_port(&self, listener: &mut TcpListener) {
        self.register(listener, PORT);
    }

    /// Watches a stream. Where this fails, what comes there is only found later.
    pub(crate) fn watch(&self, stream: &mut TcpStream) {
        self.register(stream, STREAM);
    }

    fn register<S: Source>(&self, source: &mut S, token: Token) {
        if let Some(Waiting { poll, .. }) = &self.waiting {
            let _ = poll.registry().register(source, token, Interest::READABLE);
        }
    }

    /// Watches it no more.
    pub(crate) fn leave(&self, stream: &mut TcpStream) {
        if let Some(Waiting { poll, .. }) = &self.waiting {
            let _ = poll.registry().deregister(stream);
        }
    }

    /// Waits. False where something came, and nothing on the port.
    pub(crate) fn wait(&mut self) -> bool {
        match self.has_waited() {
            Some(knocks) => knocks,
            None => {
                sleep(&self.rt);
                true
            }
        }
    }

    /// Waits for events, where the system does; whether none came, or one on the port.
    fn has_waited(&mut self) -> Option<bool> {
        let Some(Waiting { poll, events }) = &mut self.waiting else {
            return None;
        };
        if poll.poll(events, Some(Duration::from_millis(1))).is_err() {
            return None;
        }
        Some(events.is_empty() || events.iter().any(|event| event.token() == PORT))
    }
}

fn waits(rt: &HostRuntime) -> Option<Waiting> {
    let poll = Poll::new(rt).ok()?;
    let events = Events::with_capacity(rt.alloc(), MOST_EVENTS).ok()?;
    Some(Waiting { poll, events })
}
