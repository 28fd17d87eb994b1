//! Lengths and serial numbers.
ghost use Rattle.std.specs.Prelude.{◌≡◌, ◌≤◌, ◌+◌, ◌%◌, IsTrue, length};
ghost use Rattle.vf_session_spdu.specs.Numbers.{length_at as length_read, number as number_of, six_digits as six, leading_zeros as zeros, digit_count as digits_in};
ghost use Rattle.vf_session_spdu.specs.Table.{fits};
ghost use Rattle.vf_session_spdu.specs.declared.limits.TheConstants.{LAST_SERIAL};
ghost use Rattle.vf_session_spdu.specs.declared.table.Form.TheVariants as forms;

/// How many octets spell the length that these octets begin with, 1 or 3, and its number, 0 to 65,535; none where it is
/// cut off.
pub(crate) fn length_at(octets: &[u8]) -> Option<(usize, usize)>
    ensures { result ≡ length_read octets.now }
{
    if octets.is_empty() {
        return None;
    }
    if octets[0] < 255 {
        return Some((1, usize::from(octets[0])));
    }
    if octets.len() < 3 {
        return None;
    }
    Some((3, usize::from(octets[1]) * 256 + usize::from(octets[2])))
}

/// The number that 1 to 6 decimal digits spell.
pub(crate) fn number(digits: &[u8]) -> u32
    requires { IsTrue (fits forms.Digits digits.now) }
    ensures value { result ≡ number_of digits.now }
    ensures bound { result ≤ LAST_SERIAL }
{
    let mut sum = 0;
    for digit in digits {
        sum = sum * 10 + u32::from(*digit - 48);
    }
    sum
}

/// The last six decimal digits of a number.
pub(crate) fn six_digits(n: u32) -> [u8; 6]
    ensures { result ≡ six n }
{
    [
        digit(n / 100_000),
        digit(n / 10_000),
        digit(n / 1000),
        digit(n / 100),
        digit(n / 10),
        digit(n),
    ]
}

/// The last decimal digit of a number.
fn digit(n: u32) -> u8
    ensures { result ≡ n % 10 + 48 }
{
    (n % 10) as u8 + 48
}

/// How many of the six digits are leading zeros; the last digit is none of them.
pub(crate) fn leading_zeros(n: u32) -> usize
    ensures zeros { result ≡ zeros n }
    ensures bound { result ≤ 5 }
{
    match n {
        100_000.. => 0,
        10_000.. => 1,
        1000.. => 2,
        100.. => 3,
        10.. => 4,
        _ => 5,
    }
}

/// The number of digits that a serial number, 0 to 999,999, is written with: 1 to 6.
pub fn digit_count(serial: u32) -> usize
    ensures size { result ≡ digits_in serial }
    ensures bound { result ≤ 6 }
{
    6 - leading_zeros(serial)
}
