//! Octets in rows: pairs of digits, in words.
use std::alloc::Global;
use std::test::Fail;

/// The value of a hexadecimal digit.
fn half(digit: u8) -> u8 {
    match digit {
        b'0'..=b'9' => digit - b'0',
        b'A'..=b'F' => digit - b'A' + 10,
        _ => 0,
    }
}

fn push_digits(word: &str, octets: &mut Vec<u8>) -> Result<(), Fail> {
    for pair in word.as_bytes().chunks(2) {
        if let [high, low] = pair {
            octets.push(half(*high) << 4 | half(*low))?;
        }
    }
    Ok(())
}

/// The octets of these words.
pub(crate) fn octets_of(alloc: Global, text: &str) -> Result<Vec<u8>, Fail> {
    let mut octets = Vec::new(alloc);
    for word in text.split_whitespace() {
        push_digits(word, &mut octets)?;
    }
    Ok(octets)
}

/// Appends all octets.
pub(crate) fn show_all(alloc: Global, octets: &[u8], text: &mut String) -> Result<(), Fail> {
    for octet in octets {
        text.push_str(format!(in alloc; "{octet:02X}")?.as_str())?;
    }
    Ok(())
}
