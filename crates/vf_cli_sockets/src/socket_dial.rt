//! A dial over a real socket, which tells nothing of what is said and heard.
ghost use Rattle.std.specs.Prelude.{◌≡◌, None, false, is_some};
ghost use Rattle.vf_base.specs.Faults.{HasRisen, counted};

use crate::ahead::Ahead;
use crate::streams::pause;
use std::io::{self, Write};
use std::net::{Shutdown, TcpStream};
use vf_base::{Dial, Failed};

/// A dial to a port of a host, which waits for its peer as long as that takes. After a connection that wasn't had it sleeps for a
/// tenth of a second before it tries the next one, so that a host that begins again may be reached. Where there is no host each
/// call fails.
#[derive(Drop)]
pub struct SocketDial<'a> {
    rt: HostRuntime,
    /// The name or the address of the host, and the port.
    peer: Option<(&'a str, u16)>,
    stream: Option<TcpStream>,
    /// What the stream gave already.
    ahead: Ahead,
    /// The last connection wasn't had.
    was_refused: bool,
    lost: u64,
    faults: u64,
}

impl<'a> SocketDial<'a> {
    /// A dial to a port of a host.
    pub fn new(rt: &HostRuntime, host: &'a str, port: u16) -> SocketDial<'a>
        ensures { is_some result.stream ≡ false }
    {
        SocketDial::to(rt, Some((host, port)))
    }

    /// A dial to no host.
    pub fn none(rt: &HostRuntime) -> SocketDial<'a>
        ensures { is_some result.stream ≡ false }
    {
        SocketDial::to(rt, None)
    }

    fn to(rt: &HostRuntime, peer: Option<(&'a str, u16)>) -> SocketDial<'a>
        ensures { is_some result.stream ≡ false }
    {
        SocketDial {
            rt: *rt,
            peer,
            stream: None,
            ahead: Ahead::new(rt.alloc()),
            was_refused: false,
            lost: 0,
            faults: 0,
        }
    }

    /// The connection is lost.
    fn lose(&mut self)
        ensures { self.new ≡ record self.old { stream = None; lost = counted self.old.lost } }
    {
        self.stream = None;
        self.lost = self.lost.saturating_add(1);
    }

    /// It is lost by a fault.
    fn fail(&mut self) -> Failed
        ensures fails { self.new ≡ record self.old { stream = None; lost = counted self.old.lost; faults = counted self.old.faults } }
        ensures rises { HasRisen self.old.faults self.new.faults }
    {
        self.lose();
        self.faults = self.faults.saturating_add(1);
        Failed
    }
}

/// A stream to a port of a host.
fn connected(rt: &HostRuntime, host: &str, port: u16) -> io::Result<TcpStream> {
    let stream = TcpStream::connect(rt, (host, port))?;
    // What is said is short and waited for. Where this fails it is only sent later.
    let _ = stream.set_nodelay(true);
    Ok(stream)
}

impl Dial for SocketDial<'_> {
    ghost told = { λ dial. None };

    ghost stands = { λ dial. is_some dial.stream };

    ghost lost_count = { λ dial. dial.lost };

    ghost fault_count = { λ dial. dial.faults };

    ghost plan = { λ dial. None };

    fn connect(&mut self) -> Result<(), Failed> {
        let Some((host, port)) = self.peer else {
            return Err(self.fail());
        };
        if self.was_refused {
            pause(&self.rt);
        }
        match connected(&self.rt, host, port) {
            Ok(stream) => {
                self.stream = Some(stream);
                self.ahead.begin();
                self.was_refused = false;
                Ok(())
            }
            Err(_) => {
                self.was_refused = true;
                Err(self.fail())
            }
        }
    }

    fn read(&mut self, into: &mut [u8]) -> Result<usize, Failed> {
        let Some(stream) = &mut self.stream else {
            return Err(self.fail());
        };
        match self.ahead.read(stream, into) {
            Ok(0) => {
                self.lose();
                Ok(0)
            }
            Ok(count) => Ok(count),
            Err(_) => Err(self.fail()),
        }
    }

    fn send(&mut self, octets: &[u8]) -> Result<(), Failed> {
        let Some(stream) = &mut self.stream else {
            return Err(self.fail());
        };
        if stream.write_all(octets).is_err() {
            return Err(self.fail());
        }
        Ok(())
    }

    fn close(&mut self) {
        if let Some(stream) = &self.stream {
            let _ = stream.shutdown(Shutdown::Write);
        }
        self.stream = None;
    }

    fn lost(&self) -> u64 {
        self.lost
    }

    fn faults(&self) -> u64 {
        self.faults
    }
}
