//! The lines that tell what is heard on links.
ghost use Rattle.std.specs.Prelude.{◌≡◌, ◌++◌, ◌∷◌, [], IfOk, OnOk, codes, decimal};
ghost use Rattle.std.specs.String.{string_bytes};
ghost use Rattle.hex.specs.Hex.{encode_upper};
ghost use Rattle.vf_cli_printing.specs.Printed.{line_feed};
ghost use Rattle.vf_cli_calling.specs.Lines.{ack_line, check_line, octets_line, reply_line, shut_line};

use std::alloc::Global;
use vf_base::NoMemory;

/// Appends the line of a message.
pub(crate) fn append_reply(
    alloc: Global,
    link: u32,
    octets: &[u8],
    text: &mut Vec<u8>,
) -> Result<(), NoMemory>
    ensures { OnOk result (text.new.items ≡ text.old.items ++ reply_line link octets.now) }
{
    let head = reply_head(alloc, link)?;
    append_after(alloc, head.as_bytes(), octets, text)?;
    Ok(())
}

fn reply_head(alloc: Global, link: u32) -> Result<String, NoMemory>
    ensures { IfOk result (λ text. string_bytes text ≡ codes "reply " ++ (decimal link ++ 32 ∷ [])) }
{
    let text = format!(in alloc; "reply {link} ")?;
    Ok(text)
}

/// Appends the line of octets on a link without a calling end, where there are any.
pub fn append_octets(
    alloc: Global,
    link: u32,
    octets: &[u8],
    text: &mut Vec<u8>,
) -> Result<(), NoMemory>
    ensures { OnOk result (text.new.items ≡ text.old.items ++ octets_line link octets.now) }
{
    if octets.is_empty() {
        return Ok(());
    }
    let head = octets_head(alloc, link)?;
    append_after(alloc, head.as_bytes(), octets, text)?;
    Ok(())
}

fn octets_head(alloc: Global, link: u32) -> Result<String, NoMemory>
    ensures { IfOk result (λ text. string_bytes text ≡ codes "octets " ++ (decimal link ++ 32 ∷ [])) }
{
    let text = format!(in alloc; "octets {link} ")?;
    Ok(text)
}

/// Appends the octets of a line, and those that it tells in digits.
fn append_after(
    alloc: Global,
    head: &[u8],
    octets: &[u8],
    text: &mut Vec<u8>,
) -> Result<(), NoMemory>
    ensures { OnOk result (text.new.items ≡ text.old.items ++ (head.now ++ (encode_upper octets.now ++ line_feed ∷ []))) }
{
    let digits = hex::encode_upper(alloc, octets)?;
    text.extend_from_slice(head)?;
    text.extend_from_slice(digits.as_bytes())?;
    text.push(b'\n')?;
    Ok(())
}

/// Appends the line of a check.
pub(crate) fn append_check(
    alloc: Global,
    link: u32,
    check: u64,
    text: &mut Vec<u8>,
) -> Result<(), NoMemory>
    ensures { OnOk result (text.new.items ≡ text.old.items ++ check_line link check) }
{
    let line = check_text(alloc, link, check)?;
    text.extend_from_slice(line.as_bytes())?;
    Ok(())
}

fn check_text(alloc: Global, link: u32, check: u64) -> Result<String, NoMemory>
    ensures { IfOk result (λ text. string_bytes text ≡ check_line link check) }
{
    let text = format!(in alloc; "check {link} {check}\n")?;
    Ok(text)
}

/// Appends the line of an acknowledgement.
pub(crate) fn append_ack(
    alloc: Global,
    link: u32,
    check: u64,
    text: &mut Vec<u8>,
) -> Result<(), NoMemory>
    ensures { OnOk result (text.new.items ≡ text.old.items ++ ack_line link check) }
{
    let line = ack_text(alloc, link, check)?;
    text.extend_from_slice(line.as_bytes())?;
    Ok(())
}

fn ack_text(alloc: Global, link: u32, check: u64) -> Result<String, NoMemory>
    ensures { IfOk result (λ text. string_bytes text ≡ ack_line link check) }
{
    let text = format!(in alloc; "ack {link} {check}\n")?;
    Ok(text)
}

/// Appends the line of a link that is shut.
pub fn append_shut(alloc: Global, link: u32, text: &mut Vec<u8>) -> Result<(), NoMemory>
    ensures { OnOk result (text.new.items ≡ text.old.items ++ shut_line link) }
{
    let line = shut_text(alloc, link)?;
    text.extend_from_slice(line.as_bytes())?;
    Ok(())
}

fn shut_text(alloc: Global, link: u32) -> Result<String, NoMemory>
    ensures { IfOk result (λ text. string_bytes text ≡ shut_line link) }
{
    let text = format!(in alloc; "shut {link}\n")?;
    Ok(text)
}
