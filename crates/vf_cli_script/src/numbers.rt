//! Numbers in decimal digits, without leading zeros.
ghost use Rattle.std.specs.Prelude.{◌≡◌, ◌≤◌, IfSome};
ghost use Rattle.vf_cli_script.specs.Words.{begins_low, count_in as count_meant, is_digit as digit_test, moment_in as moment_meant, number_in as number_meant, point_in as point_meant};

use vf_base::Moment;

/// The number that a word spells, up to this one.
pub(crate) fn number_in(word: &[u8], most: u64) -> Option<u64>
    ensures value { result ≡ number_meant word.now most }
    ensures bound { IfSome result (λ number. number ≤ most) }
{
    if begins_badly(word) {
        return None;
    }
    let mut number = 0_u128;
    for digit in word {
        if !is_digit(*digit) {
            return None;
        }
        number = 10 * number + (*digit - b'0') as u128;
        if number > most as u128 {
            return None;
        }
    }
    Some(number as u64)
}

/// A word that has no digit, or a zero in front of others.
fn begins_badly(word: &[u8]) -> bool
    ensures { result ≡ begins_low word.now }
{
    match word {
        [] => true,
        [_] => false,
        [first, ..] => *first == b'0',
    }
}

fn is_digit(octet: u8) -> bool
    ensures { result ≡ digit_test octet }
{
    (b'0'..=b'9').contains(&octet)
}

/// A number from 1 to 4,294,967,295.
pub(crate) fn count_in(word: &[u8]) -> Option<u32>
    ensures { result ≡ count_meant word.now }
{
    match number_in(word, 4_294_967_295) {
        Some(0) => None,
        Some(number) => Some(number as u32),
        None => None,
    }
}

/// The number of a checkpoint, 0 to 1,000,000.
pub(crate) fn point_in(word: &[u8]) -> Option<u32>
    ensures { result ≡ point_meant word.now }
{
    match number_in(word, 1_000_000) {
        Some(number) => Some(number as u32),
        None => None,
    }
}

/// A moment by its seconds, before the year 10000.
pub(crate) fn moment_in(word: &[u8]) -> Option<Moment>
    ensures { result ≡ moment_meant word.now }
{
    let seconds = number_in(word, 253_402_300_799)?;
    Moment::of(seconds).ok()
}
