//! Answers lines, each by one layer: its values, its PDUs, its data elements, its user data, its sessions, its streams, the
//! stack of them all, or the responder above it. For what stands in bench/, and for the gate, which compares the answers to the lines of its file stdin.
//!
//! A line begins with the name of its layer and a space; one that begins with `#` is a heading, and is answered by itself. The
//! files of the layers say what a line has and what is answered to it, which is one line too.
#![tactic(auto)]

mod digests;
mod element;
mod fault;
mod pdu;
mod reading;
mod responder;
mod session;
mod spelling;
mod stack;
mod text;
mod transport;
mod upper;
mod value;

use crate::fault::Fault;
use crate::reading::{first_word, input};
use crate::session::Ends;
use crate::text::{Text, end};
use std::alloc::Global;
use std::process::ExitCode;

fn put_heading(text: &[u8], out: &mut Text) {
    out.put("# ");
    out.put_octets(text);
    out.put("\n");
}

/// Appends what is answered to a line.
fn put_answer(alloc: Global, line: &[u8], ends: &mut Ends, out: &mut Text) -> Result<(), Fault> {
    let (layer, line) = first_word(line);
    match layer {
        b"hold" => value::put_held(alloc, line, out),
        b"parse" => value::put_shared(alloc, line, false, out),
        b"rewrite" => value::put_shared(alloc, line, true, out),
        b"ber" => value::put_line(alloc, line, out),
        b"pdu" => pdu::put_line(alloc, line, out),
        b"element" => element::put_line(alloc, line, out),
        b"upper" => upper::put_line(alloc, line, out),
        b"session" => ends.put_line(alloc, line, out),
        b"transport" => transport::put_line(alloc, line, out),
        b"stack" => stack::put_line(alloc, line, out),
        b"responder" => responder::put_line(alloc, line, out),
        b"#" => {
            put_heading(line, out);
            Ok(())
        }
        _ => Err(Fault::Line),
    }
}

/// The answers to lines.
fn answers(alloc: Global, text: &[u8]) -> Result<Vec<u8>, Fault> {
    let mut ends = Ends::new(alloc, false);
    let mut out = Text::new(alloc);
    let mut rest = text;
    while let Some(end) = rest.iter().position(|octet| *octet == b'\n') {
        let (line, after) = rest.split_at(end);
        if let Err(fault) = put_answer(alloc, line, &mut ends, &mut out) {
            out.fail(fault);
        }
        rest = &after[1..];
    }
    out.end()
}

/// What is answered to the input.
fn made(rt: &HostRuntime) -> Result<Vec<u8>, Fault> {
    let octets = input(rt)?;
    answers(rt.alloc(), octets.as_slice())
}

fn main(rt: HostRuntime) -> ExitCode {
    end(&rt, made(&rt))
}
