//! The program: the words of its command line, its standard input and output, the disk of its store, and its status.
#![tactic(auto)]

mod output;

use output::Output;
use std::env;
use std::fs::File;
use std::io::{self, ErrorKind};
use std::process::ExitCode;
use vf_base::ReadSource;
use vf_cli::{Wanted, WordsError, ftam, wanted};
use vf_cli_sockets::{SocketDial, SocketLinks};
use vf_disk::FileDisk;

/// The status where memory is wanting.
const NO_MEMORY: u8 = 9;

/// So many octets of memory are at hand once a port is served: what the longest file takes that comes in strings of 4,096.
const AT_HAND: usize = 20_971_520;

fn main(rt: HostRuntime) -> ExitCode {
    // A standard stream that was closed would else have its number taken by the store, which what is printed would then
    // overwrite. There are three such streams.
    let (_first, _second, _third) = (folder(&rt), folder(&rt), folder(&rt));
    let mut words = Vec::new(rt.alloc());
    match env::args(&rt) {
        Ok(args) => {
            for word in args.skip(1) {
                if words.push(word).is_err() {
                    return ExitCode::from(NO_MEMORY);
                }
            }
        }
        Err(error) if error.kind() == ErrorKind::OutOfMemory => return ExitCode::from(NO_MEMORY),
        // Words that are no text are outside the grammar, as no words are.
        Err(_) => {}
    }
    // What the words want of the outside is opened here.
    let wanted = match wanted(rt.alloc(), &words) {
        Ok(wanted) => Some(wanted),
        Err(WordsError::Usage) => None,
        Err(WordsError::NoMemory) => return ExitCode::from(NO_MEMORY),
    };
    let disk = disk_of(&rt, &wanted);
    let mut input = ReadSource::new(rt.stdin());
    let mut out = Output::new(&rt);
    let mut links = links_of(&rt, &wanted);
    let mut dial = dial_of(&rt, &wanted);
    let (_disk, status) = ftam(
        rt.alloc(),
        &words,
        &mut links,
        disk,
        &mut dial,
        &mut input,
        &mut out,
    );
    ExitCode::from(status)
}

/// A folder, which can be neither read nor written, as a closed stream can't. It has the least number that is free.
fn folder(rt: &HostRuntime) -> io::Result<File> {
    File::open(rt, "/")
}

/// The disk of the store that the words want, or one over no file.
fn disk_of<'a>(rt: &HostRuntime, wanted: &'a Option<Wanted>) -> FileDisk<'a> {
    let Some(
        Wanted {
            store: Some(path),
            ..
        },
    ) = wanted
    else {
        return FileDisk::none(rt);
    };
    match str::from_utf8(path.as_slice()) {
        Ok(path) => FileDisk::open(rt, path),
        // No words want such a path.
        Err(_) => FileDisk::none(rt),
    }
}

/// The links of the port that the words want to serve, or links over none.
fn links_of(rt: &HostRuntime, wanted: &Option<Wanted>) -> SocketLinks {
    let Some(
        Wanted {
            host: None,
            port: Some(port),
            idle,
            ..
        },
    ) = wanted
    else {
        return SocketLinks::none(rt);
    };
    have_memory_at_hand(rt);
    SocketLinks::open(rt, *port, *idle)
}

/// Takes memory from the system and gives it back to the allocator, which keeps it as `./ftam` has it: the first file that comes
/// else waits for the system to clear it, and on a virtual machine for its host to find it.
fn have_memory_at_hand(rt: &HostRuntime) {
    let mut room: Vec<u8> = Vec::new(rt.alloc());
    let _ = room.resize(AT_HAND, 0);
}

/// The dial to the host and the port that the words want, or one to no host.
fn dial_of<'a>(rt: &HostRuntime, wanted: &'a Option<Wanted>) -> SocketDial<'a> {
    let Some(
        Wanted {
            host: Some(host),
            port: Some(port),
            ..
        },
    ) = wanted
    else {
        return SocketDial::none(rt);
    };
    match str::from_utf8(host.as_slice()) {
        Ok(host) => SocketDial::new(rt, host, *port),
        // No words want such a host.
        Err(_) => SocketDial::none(rt),
    }
}
