//! Octets in rows: pairs of digits, in words.
use std::alloc::Global;
use std::test::Fail;

/// Appends the octets of a word.
fn push_digits(alloc: Global, word: &str, octets: &mut Vec<u8>) -> Result<(), Fail> {
    let more = hex::decode(alloc, word)?;
    octets.extend_from_slice(more.as_slice())?;
    Ok(())
}

/// The octets of these words.
pub(crate) fn octets_of(alloc: Global, text: &str) -> Result<Vec<u8>, Fail> {
    let mut octets = Vec::new(alloc);
    for word in text.split_whitespace() {
        push_digits(alloc, word, &mut octets)?;
    }
    Ok(octets)
}

/// Appends all octets.
pub(crate) fn show_all(alloc: Global, octets: &[u8], text: &mut String) -> Result<(), Fail> {
    text.push_str(hex::encode_upper(alloc, octets)?.as_str())?;
    Ok(())
}
