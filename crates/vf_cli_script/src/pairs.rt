//! Octets as words in hexadecimal: two digits an octet, each 0 to 9 or A to F.
ghost use Rattle.std.specs.Prelude.{◌≡◌, ◌<◌, IfOk, IfSome};
ghost use Rattle.std.specs.List.{list_all};
ghost use Rattle.vf_cli_script.specs.Words.{half_of as half_meant, is_digit_of_hex, is_hex as hex_test, octet_in as octet_meant, octet_of_halves, octets_in as octets_meant};

use hex::FromHexError;
use std::alloc::Global;
use vf_base::{NoMemory, Octets};

/// The octets that a word spells, at least one; `None` exactly where it spells none.
pub(crate) fn octets_in(alloc: Global, word: &[u8]) -> Result<Option<Octets>, NoMemory>
    ensures { IfOk result (λ octets. octets ≡ octets_meant word.now) }
{
    if !is_hex(word) {
        return Ok(None);
    }
    match hex::decode(alloc, word) {
        Ok(octets) => {
            let octets = Octets::from_vec(octets)?;
            Ok(Some(octets))
        }
        Err(FromHexError::OutOfMemory) => Err(NoMemory),
        Err(_) => Ok(None),
    }
}

/// The octet that a word spells.
pub(crate) fn octet_in(word: &[u8]) -> Option<u8>
    ensures { result ≡ octet_meant word.now }
{
    match word {
        [high, low] => octet_of(*high, *low),
        _ => None,
    }
}

fn octet_of(high: u8, low: u8) -> Option<u8>
    ensures { result ≡ octet_of_halves (half_meant high) (half_meant low) }
{
    let high = half_of(high)?;
    let low = half_of(low)?;
    Some(16 * high + low)
}

/// The half octet of a digit.
fn half_of(digit: u8) -> Option<u8>
    ensures value { result ≡ half_meant digit }
    ensures within { IfSome result (λ half. half < 16) }
{
    if (b'0'..=b'9').contains(&digit) {
        return Some(digit - b'0');
    }
    if (b'A'..=b'F').contains(&digit) {
        return Some(digit - 55);
    }
    None
}

/// Whether a word has digits, and nothing else.
fn is_hex(word: &[u8]) -> bool
    ensures { result ≡ hex_test word.now }
{
    !word.is_empty() && all_digits(word)
}

fn all_digits(word: &[u8]) -> bool
    ensures { result ≡ list_all is_digit_of_hex word.now }
{
    word.iter().all(|octet| is_digit(*octet))
}

fn is_digit(octet: u8) -> bool
    ensures { result ≡ is_digit_of_hex octet }
{
    (b'0'..=b'9').contains(&octet) || (b'A'..=b'F').contains(&octet)
}
