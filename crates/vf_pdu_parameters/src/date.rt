//! Dates as text: their form, and whether they are moments of the calendar.
ghost use Rattle.std.specs.Prelude.{◌≡◌, ◌≤◌, ◌<◌, nat_eq};
ghost use Rattle.std.specs.List.{list_all};
ghost use Rattle.vf_base.specs.Calendar.{is_leap as leap_test, month_length as length_of_month};
ghost use Rattle.vf_pdu_fields.specs.Forms.{has_date_form as date_form, is_date as date_test, is_day as day_test, is_digit, is_moment as moment_test, number_in, two_at as two_digits_at};

/// Fourteen digits and a Z.
pub(crate) fn has_date_form(octets: &[u8]) -> bool
    ensures { result ≡ date_form octets.now }
{
    if octets.len() != 15 {
        return false;
    }
    are_digits(&octets[..14]) && are_letters_z(&octets[14..])
}

fn are_digits(octets: &[u8]) -> bool
    ensures { result ≡ list_all is_digit octets.now }
{
    octets.iter().all(|octet| (48..=57).contains(octet))
}

fn are_letters_z(octets: &[u8]) -> bool
    ensures { result ≡ list_all (nat_eq 90) octets.now }
{
    octets.iter().all(|octet| 90 == *octet)
}

/// The text of a moment of the years 1970 to 9999.
pub(crate) fn is_date(octets: &[u8]) -> bool
    ensures { result ≡ date_test octets.now }
{
    has_date_form(octets) && is_moment(octets)
}

fn is_moment(octets: &[u8]) -> bool
    ensures { result ≡ moment_test octets.now }
{
    let year = 100 * two_at(octets, 0) + two_at(octets, 2);
    is_day(year, two_at(octets, 4), two_at(octets, 6))
        && two_at(octets, 8) < 24
        && two_at(octets, 10) < 60
        && two_at(octets, 12) < 60
}

fn is_day(year: u32, month: u32, day: u32) -> bool
    ensures { result ≡ day_test year month day }
{
    1970 <= year && 1 <= month && month <= 12 && 1 <= day && day <= month_length(year, month)
}

fn month_length(year: u32, month: u32) -> u32
    ensures { result ≡ length_of_month year month }
{
    if month == 2 {
        if is_leap(year) { 29 } else { 28 }
    } else if month == 4 || month == 6 || month == 9 || month == 11 {
        30
    } else {
        31
    }
}

fn is_leap(year: u32) -> bool
    ensures { result ≡ leap_test year }
{
    year % 4 == 0 && (year % 100 != 0 || year % 400 == 0)
}

/// The number of the two digits at a place.
fn two_at(octets: &[u8], place: usize) -> u32
    ensures number { result ≡ two_digits_at place octets.now }
    ensures small { result ≤ 2277 }
{
    if place > octets.len() {
        return 0;
    }
    number_of(&octets[place..])
}

fn number_of(octets: &[u8]) -> u32
    ensures number { result ≡ number_in octets.now }
    ensures small { result ≤ 2277 }
{
    match octets {
        [tens, ones, ..] => {
            10 * u32::from(tens.saturating_sub(48)) + u32::from(ones.saturating_sub(48))
        }
        _ => 0,
    }
}
