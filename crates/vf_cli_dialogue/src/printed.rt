//! The lines that are written.
ghost use Rattle.std.specs.Prelude.{◌≡◌, ◌++◌, [], ◌∷◌, OnErr, OnOk};
ghost use Rattle.vf_cli_dialogue.specs.Lines.{hex_line};

use crate::hex::{digit, put_hex_line};
use std::alloc::Global;
use vf_base::NoMemory;

/// Lines that are to be written.
#[derive(Drop)]
pub(crate) struct Replies {
    pub(crate) lines: Vec<u8>,
    /// Room for the octets of a line, which is used again for each.
    pub(crate) octets: Vec<u8>,
}

impl Replies {
    pub(crate) fn new(alloc: Global) -> Replies
        ensures { result.lines.items ≡ [] }
    {
        Replies {
            lines: Vec::new(alloc),
            octets: Vec::new(alloc),
        }
    }
}

/// Appends the line that spells octets to a text, which is as before where memory is wanting.
pub(crate) fn append_hex_line(octets: &[u8], text: &mut Vec<u8>) -> Result<(), NoMemory>
    ensures ok { OnOk result (text.new.items ≡ text.old.items ++ hex_line octets.now) }
    ensures err { OnErr result (text.new.items ≡ text.old.items) }
{
    text.reserve(2 * octets.len() + 1)?;
    put_hex_line(octets, text);
    Ok(())
}

/// Appends the line of an octet and a 0, as `append_hex_line` does.
pub(crate) fn append_header_line(first: u8, text: &mut Vec<u8>) -> Result<(), NoMemory>
    ensures ok { OnOk result (text.new.items ≡ text.old.items ++ hex_line (first ∷ 0 ∷ [])) }
    ensures err { OnErr result (text.new.items ≡ text.old.items) }
{
    let high = digit(first / 16);
    let low = digit(first % 16);
    text.extend_from_slice(&[high, low, b'0', b'0', b'\n'])?;
    Ok(())
}
