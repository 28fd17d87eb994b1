//! How a reply goes out on its link: in blocks, so that none of it waits until all of it stands in one row.
ghost use Rattle.std.specs.Prelude.{◌≡◌, ◌++◌, false, true};
ghost use Rattle.vf_base.specs.Links.{Sends};
ghost use Rattle.vf_responder.specs.Blocks.{SendsFirst};

use crate::spoken::Spoken;
use std::alloc::Global;
use vf_base::{Failed, Links};

/// The most octets that are gathered for one send.
const BLOCK: usize = 65_536;

/// Sends octets on a link: all of them, or a prefix of them where it fails.
pub(crate) fn send_octets<L: Links>(
    alloc: Global,
    links: &mut L,
    link: u32,
    octets: &Spoken,
) -> Result<(), Failed>
    ensures traffic { Sends (L.told links.old) (L.told links.new) link octets.now result }
    ensures link { L.last_link links.new ≡ L.last_link links.old }
    ensures turns { L.turns links.new ≡ L.turns links.old }
    ensures count { L.fault_count links.new ≡ L.fault_count links.old }
{
    if octets.parts.is_empty() {
        return send_all(links, link, octets.last.as_slice());
    }
    let mut block = Vec::new(alloc);
    for part in &octets.parts {
        send_row(links, link, part.before.as_slice(), &mut block)?;
        send_row(links, link, part.string.as_slice(), &mut block)?;
    }
    send_row(links, link, octets.last.as_slice(), &mut block)?;
    send_all(links, link, block.as_slice())
}

/// Sends the next octets behind those in the block. A few wait in the block too; more are sent at once, from where they stand.
fn send_row<L: Links>(
    links: &mut L,
    link: u32,
    row: &[u8],
    block: &mut Vec<u8>,
) -> Result<(), Failed>
    ensures traffic { SendsFirst (L.told links.old) (L.told links.new) link block.old.items row.now block.new.items result }
    ensures link { L.last_link links.new ≡ L.last_link links.old }
    ensures turns { L.turns links.new ≡ L.turns links.old }
    ensures count { L.fault_count links.new ≡ L.fault_count links.old }
{
    if waits(row, block) {
        return Ok(());
    }
    send_all(links, link, block.as_slice())?;
    block.clear();
    send_all(links, link, row)
}

/// Puts a row behind what waits in the block, where there is room; says whether there is.
fn waits(row: &[u8], block: &mut Vec<u8>) -> bool
    ensures yes { result ≡ true → block.new.items ≡ block.old.items ++ row.now }
    ensures no { result ≡ false → block.new.items ≡ block.old.items }
{
    if row.len() > BLOCK.saturating_sub(block.len()) {
        return false;
    }
    block.extend_from_slice(row).is_ok()
}

/// Sends octets that stand in one row, where there are any.
fn send_all<L: Links>(links: &mut L, link: u32, octets: &[u8]) -> Result<(), Failed>
    ensures traffic { Sends (L.told links.old) (L.told links.new) link octets.now result }
    ensures link { L.last_link links.new ≡ L.last_link links.old }
    ensures turns { L.turns links.new ≡ L.turns links.old }
    ensures count { L.fault_count links.new ≡ L.fault_count links.old }
{
    if octets.is_empty() {
        return Ok(());
    }
    links.send(link, octets)
}
