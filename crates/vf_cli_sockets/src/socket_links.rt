//! Links over real sockets, which tell nothing of what comes and goes on them.
ghost use Rattle.std.specs.Prelude.{None};

use crate::rounds::Rounds;
use crate::streams::listen;
use mio::net::TcpListener;
use std::alloc::Global;
use vf_base::{Failed, LinkEvent, LinkFault, Links};

/// Links over the streams that come to a port. They are numbered 1, 2, 3 .. in the order in which they are accepted.
///
/// The port and the streams are visited in rounds, each once. A round in which nothing came is idle: it waits for a millisecond,
/// or until something comes, and after the stated number of idle rounds in a row the peers are through. Where the port couldn't
/// be had each call of `next` fails.
#[derive(Drop)]
pub struct SocketLinks {
    rounds: Rounds,
    /// The number of the last link.
    last: u32,
    through: bool,
    turns: u64,
    faults: u64,
    send_faults: u64,
}

impl SocketLinks {
    /// Links over the streams that come to a port of all the host's addresses, until so many rounds in a row are idle.
    pub fn open(rt: &HostRuntime, port: u16, most_idle: u64) -> SocketLinks {
        SocketLinks::over(rt, listen(rt, port).ok(), most_idle)
    }

    /// Links over no port.
    pub fn none(rt: &HostRuntime) -> SocketLinks {
        SocketLinks::over(rt, None, 0)
    }

    pub(crate) fn over(
        rt: &HostRuntime,
        listener: Option<TcpListener>,
        most_idle: u64,
    ) -> SocketLinks {
        SocketLinks {
            rounds: Rounds::new(rt, listener, most_idle),
            last: 0,
            through: false,
            turns: u64::MAX,
            faults: 0,
            send_faults: 0,
        }
    }
}

impl Links for SocketLinks {
    ghost told = { λ links. None };

    ghost turns = { λ links. links.turns };

    ghost last_link = { λ links. links.last };

    ghost through = { λ links. links.through };

    ghost fault_count = { λ links. links.faults };

    ghost send_fault_count = { λ links. links.send_faults };

    ghost plan = { λ links. None };

    ghost send_plan = { λ links. None };

    fn next(&mut self, _alloc: Global, piece: &mut Vec<u8>) -> Result<LinkEvent, LinkFault> {
        piece.clear();
        if !self.rounds.has_port() {
            self.faults = self.faults.saturating_add(1);
            return Err(LinkFault::Failed);
        }
        if self.turns == 0 || self.through {
            return Ok(LinkEvent::Done);
        }
        match self.rounds.wait(self.last, piece) {
            Ok(Some(event)) => {
                self.turns -= 1;
                if let LinkEvent::Arrived { link } = event {
                    self.last = link;
                }
                Ok(event)
            }
            Ok(None) => {
                self.through = true;
                Ok(LinkEvent::Done)
            }
            Err(_) => {
                piece.clear();
                Err(LinkFault::NoMemory)
            }
        }
    }

    fn send(&mut self, link: u32, octets: &[u8]) -> Result<(), Failed> {
        if self.rounds.send(link, octets).is_err() {
            self.send_faults = self.send_faults.saturating_add(1);
            return Err(Failed);
        }
        Ok(())
    }

    fn shut(&mut self, link: u32) {
        self.rounds.shut(link);
    }

    fn turns_left(&self) -> u64 {
        self.turns
    }

    fn send_faults(&self) -> u64 {
        self.send_faults
    }

    fn faults(&self) -> u64 {
        self.faults
    }
}
