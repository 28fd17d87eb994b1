//! Links over a port of this host, and a dial to it.
use std::io::{Read, Write};
use std::net::{TcpListener, TcpStream};
use vf_base::{Dial, LinkEvent, Links};
use vf_cli_sockets::{SocketDial, SocketLinks};

/// A port of this host at which nobody listens.
fn free_port(rt: &HostRuntime) -> anyhow::Result<u16> {
    let listener = TcpListener::bind(rt, ("127.0.0.1", 0))?;
    Ok(listener.local_addr()?.port())
}

/// Links over a port, and the octets that came last.
#[derive(Drop)]
struct Port {
    rt: HostRuntime,
    links: SocketLinks,
    port: u16,
    piece: Vec<u8>,
}

impl Port {
    fn open(rt: &HostRuntime) -> anyhow::Result<Port> {
        let port = free_port(rt)?;
        Ok(Port {
            rt: *rt,
            links: SocketLinks::open(rt, port, 50),
            port,
            piece: Vec::new(rt.alloc()),
        })
    }

    /// What comes next on which link: it has arrived, octets, its end; or that they are through, or a fault.
    fn next(&mut self) -> (u8, u32) {
        match self.links.next(self.rt.alloc(), &mut self.piece) {
            Ok(LinkEvent::Arrived { link }) => (b'a', link),
            Ok(LinkEvent::Octets { link, .. }) => (b'o', link),
            Ok(LinkEvent::Ended { link }) => (b'e', link),
            Ok(LinkEvent::Done) => (b'd', 0),
            Err(_) => (b'f', 0),
        }
    }

    /// A peer that has sent octets.
    fn peer(&self, octets: &[u8]) -> anyhow::Result<TcpStream> {
        let mut peer = TcpStream::connect(&self.rt, ("127.0.0.1", self.port))?;
        peer.write_all(octets)?;
        Ok(peer)
    }

    /// Whether these octets, and no others, come to a peer up to the stream's end.
    fn comes_to(&self, peer: &mut TcpStream, octets: &[u8]) -> anyhow::Result<bool> {
        let mut heard = Vec::new(self.rt.alloc());
        peer.read_to_end(&mut heard)?;
        Ok(heard.as_slice() == octets)
    }
}

#[test]
fn streams_are_links(rt: HostRuntime) -> anyhow::Result<()> {
    let mut port = Port::open(&rt)?;
    let _peer = port.peer(b"ab")?;
    assert!(rt; port.next() == (b'a', 1) && port.next() == (b'o', 1));
    assert_eq!(rt; port.piece.as_slice(), b"ab".as_slice());
    // Another stream has the next number; its end is told; then nothing comes, and the links are through.
    drop(port.peer(b"")?);
    assert!(rt; port.next() == (b'a', 2) && port.next() == (b'e', 2));
    assert!(rt; port.next() == (b'd', 0) && port.piece.is_empty());
    assert_eq!(rt; port.links.faults(), 0);
    Ok(())
}

#[test]
fn streams_that_wait_arrive_one_after_another(rt: HostRuntime) -> anyhow::Result<()> {
    let mut port = Port::open(&rt)?;
    let mut peers = Vec::new(rt.alloc());
    for _ in 0..40 {
        peers.push(port.peer(b"")?)?;
    }
    for link in 1..=40 {
        assert!(rt; port.next() == (b'a', link));
    }
    Ok(())
}

#[test]
fn a_link_that_is_shut_takes_no_more(rt: HostRuntime) -> anyhow::Result<()> {
    let mut port = Port::open(&rt)?;
    let mut peer = port.peer(b"ab")?;
    assert!(rt; port.next() == (b'a', 1) && port.next() == (b'o', 1));
    assert_eq!(rt; port.links.send(1, b"cd"), Ok(()));
    port.links.shut(1);
    assert!(rt; port.links.send(1, b"e").is_err() && port.links.send_faults() == 1);
    assert!(rt; port.comes_to(&mut peer, b"cd")?);
    Ok(())
}

#[test]
fn what_was_sent_comes_over_octets_that_werent_read(rt: HostRuntime) -> anyhow::Result<()> {
    let mut port = Port::open(&rt)?;
    let mut peer = port.peer(vec![in rt.alloc(); 7_u8; 300_000]?.as_slice())?;
    assert!(rt; port.next() == (b'a', 1) && port.next() == (b'o', 1));
    assert_eq!(rt; port.links.send(1, b"cd"), Ok(()));
    port.links.shut(1);
    assert!(rt; port.next() == (b'd', 0));
    assert!(rt; port.comes_to(&mut peer, b"cd")?);
    Ok(())
}

#[test]
fn over_no_port_each_call_fails(rt: HostRuntime) {
    let mut none = SocketLinks::none(&rt);
    let mut piece = Vec::new(rt.alloc());
    assert!(rt; none.next(rt.alloc(), &mut piece).is_err() && none.faults() == 1);
}

#[test]
fn a_stream_is_dialled(rt: HostRuntime) -> anyhow::Result<()> {
    let mut port = Port::open(&rt)?;
    let mut dial = SocketDial::new(&rt, "127.0.0.1", port.port);
    assert!(rt; dial.connect().is_ok() && dial.send(b"ab").is_ok());
    assert!(rt; port.next() == (b'a', 1) && port.next() == (b'o', 1));
    assert_eq!(rt; port.piece.as_slice(), b"ab".as_slice());
    assert_eq!(rt; port.links.send(1, b"cde"), Ok(()));
    let mut heard = [0; 8];
    assert!(rt; dial.read(&mut heard) == Ok(3) && dial.lost() == 0);
    assert_eq!(rt; heard, *b"cde\0\0\0\0\0");
    Ok(())
}

#[test]
fn a_stream_that_ends_is_lost(rt: HostRuntime) -> anyhow::Result<()> {
    let mut port = Port::open(&rt)?;
    let mut dial = SocketDial::new(&rt, "127.0.0.1", port.port);
    assert!(rt; dial.connect().is_ok() && port.next() == (b'a', 1));
    port.links.shut(1);
    let mut heard = [0; 8];
    // Its end is no fault.
    assert!(rt; dial.read(&mut heard) == Ok(0));
    assert!(rt; dial.lost() == 1 && dial.faults() == 0);
    Ok(())
}

#[test]
fn a_stream_that_is_closed_isnt_lost(rt: HostRuntime) -> anyhow::Result<()> {
    let mut port = Port::open(&rt)?;
    let mut dial = SocketDial::new(&rt, "127.0.0.1", port.port);
    assert!(rt; dial.connect().is_ok());
    dial.close();
    assert!(rt; dial.lost() == 0 && dial.faults() == 0);
    // Its peer is told.
    assert!(rt; port.next() == (b'a', 1) && port.next() == (b'e', 1));
    Ok(())
}

#[test]
fn a_connect_fails_where_nobody_listens(rt: HostRuntime) -> anyhow::Result<()> {
    let port = Port::open(&rt)?;
    let mut dial = SocketDial::new(&rt, "127.0.0.1", port.port);
    drop(port);
    assert!(rt; dial.connect().is_err());
    assert!(rt; dial.lost() == 1 && dial.faults() == 1);
    Ok(())
}

#[test]
fn over_no_host_each_connect_fails(rt: HostRuntime) {
    let mut none = SocketDial::none(&rt);
    assert!(rt; none.connect().is_err() && none.faults() == 1);
}
