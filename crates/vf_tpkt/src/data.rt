//! TSDUs as DT TPDUs.
ghost use Rattle.std.specs.Prelude.{◌≡◌, ◌≤◌, ◌+◌, ◌++◌, ◌∷◌, IfOk, List, OnErr, OnOk, false, length, nat_le, true, ℕ};
ghost use Rattle.vf_tpkt.specs.Pieces.{Extends};
ghost use Rattle.vf_tpkt.specs.Sending.{sent};
ghost use Rattle.vf_tpkt.specs.Tpdu.{packet};

use crate::form::{LAST, MORE};
use vf_base::NoMemory;

/// Appends the packets of a TSDU, with at most so many octets of data in each.
pub(crate) fn write_tsdu(most: usize, tsdu: &[u8], out: &mut Vec<u8>) -> Result<(), NoMemory>
    requires some { 1 ≤ most }
    requires fits { most ≤ 65528 }
    ensures ok { OnOk result (out.new.items ≡ out.old.items ++ sent most tsdu.now) }
    ensures err { OnErr result (Extends out.old.items out.new.items) }
{
    let mut rest = tsdu;
    while rest.len() > most {
        let (prefix, others) = rest.split_at(most);
        write_dt(MORE, prefix, out)?;
        rest = others;
    }
    write_dt(LAST, rest, out)
}

/// Appends the packets of a TSDU that stands in two parts.
pub(crate) fn write_joined(
    most: usize,
    head: &[u8],
    tail: &[u8],
    out: &mut Vec<u8>,
) -> Result<(), NoMemory>
    requires some { 1 ≤ most }
    requires fits { most ≤ 65528 }
    ensures ok { OnOk result (out.new.items ≡ out.old.items ++ sent most (head.now ++ tail.now)) }
    ensures err { OnErr result (Extends out.old.items out.new.items) }
{
    let mut rest = head;
    while rest.len() > most {
        let (prefix, others) = rest.split_at(most);
        write_dt(MORE, prefix, out)?;
        rest = others;
    }
    write_rest(most, rest, tail, out)
}

/// The same where the first part is no longer than a DT.
fn write_rest(most: usize, head: &[u8], tail: &[u8], out: &mut Vec<u8>) -> Result<(), NoMemory>
    requires some { 1 ≤ most }
    requires fits { most ≤ 65528 }
    requires short { length head.now ≤ most }
    ensures ok { OnOk result (out.new.items ≡ out.old.items ++ sent most (head.now ++ tail.now)) }
    ensures err { OnErr result (Extends out.old.items out.new.items) }
{
    let room = most - head.len();
    if tail.len() <= room {
        return write_two(LAST, head, tail, out);
    }
    let (prefix, others) = tail.split_at(room);
    write_two(MORE, head, prefix, out)?;
    write_tsdu(most, others, out)
}

/// Appends one DT in its packet, whose octets stand in two parts.
fn write_two(mark: u8, head: &[u8], tail: &[u8], out: &mut Vec<u8>) -> Result<(), NoMemory>
    requires { length head.now + length tail.now ≤ 65528 }
    ensures ok { OnOk result (out.new.items ≡ out.old.items ++ packet (2 ∷ 240 ∷ mark ∷ (head.now ++ tail.now))) }
    ensures err { OnErr result (Extends out.old.items out.new.items) }
{
    write_before(mark, head, tail.len(), out)?;
    out.extend_from_slice(tail)?;
    Ok(())
}

/// Appends what stands before the last octets of a TSDU of these and so many more, where it goes in one DT; says whether it
/// does.
pub(crate) fn write_front(
    most: usize,
    head: &[u8],
    count: usize,
    out: &mut Vec<u8>,
) -> Result<bool, NoMemory>
    requires fits { most ≤ 65528 }
    ensures one { IfOk result (λ one. one ≡ nat_le (length head.now + count) most) }
    ensures front { IfOk result (λ one. one ≡ true → (tail : List ℕ) → length tail ≡ count → out.new.items ++ tail ≡ out.old.items ++ sent most (head.now ++ tail)) }
    ensures other { IfOk result (λ one. one ≡ false → out.new.items ≡ out.old.items) }
    ensures err { OnErr result (Extends out.old.items out.new.items) }
{
    if head.len() > most || count > most - head.len() {
        return Ok(false);
    }
    write_before(LAST, head, count, out)?;
    Ok(true)
}

/// Appends what stands before the last octets of a DT of these and so many more.
fn write_before(mark: u8, head: &[u8], count: usize, out: &mut Vec<u8>) -> Result<(), NoMemory>
    requires { length head.now + count ≤ 65528 }
    ensures ok { OnOk result ((tail : List ℕ) → length tail ≡ count → out.new.items ++ tail ≡ out.old.items ++ packet (2 ∷ 240 ∷ mark ∷ (head.now ++ tail))) }
    ensures more { Extends out.old.items out.new.items }
{
    let size = head.len() + count + 7;
    out.extend_from_slice(&[3, 0, (size / 256) as u8, (size % 256) as u8, 2, 0xF0, mark])?;
    out.extend_from_slice(head)?;
    Ok(())
}

/// Appends one DT in its packet.
fn write_dt(mark: u8, octets: &[u8], out: &mut Vec<u8>) -> Result<(), NoMemory>
    requires { length octets.now ≤ 65528 }
    ensures ok { OnOk result (out.new.items ≡ out.old.items ++ packet (2 ∷ 240 ∷ mark ∷ octets.now)) }
    ensures err { OnErr result (Extends out.old.items out.new.items) }
{
    let size = octets.len() + 7;
    out.extend_from_slice(&[3, 0, (size / 256) as u8, (size % 256) as u8, 2, 0xF0, mark])?;
    out.extend_from_slice(octets)?;
    Ok(())
}
