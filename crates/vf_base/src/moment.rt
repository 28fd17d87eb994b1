ghost use Rattle.std.specs.Prelude.{◌≡◌, ◌↔◌, ◌<◌, ◌≤◌, IfOk, IsErrOf, IsOk, pos, [], ◌∷◌, ◌++◌, ◌+◌, ◌/◌, ◌%◌};
ghost use Rattle.jiff_core.specs.Date.{epoch_day};
ghost use Rattle.std.specs.List.{flat_map};
ghost use Rattle.vf_base.specs.Calendar.{civil_date};
ghost use Rattle.vf_base.specs.Moment.{moment_text, time_text, two_digits};

use crate::{BaseError, NoMemory, Octets};
use jiff_core::civil::Date;
use std::alloc::Global;
use std::marker::Model;

/// Whole seconds since 1970-01-01T00:00:00Z, before the year 10000; seen as their number.
#[derive(Clone, Copy, PartialEq, Eq)]
pub struct Moment {
    seconds: u64,
}

impl Model for Moment {
    ghost use Rattle.std.specs.Prelude.{ℕ, ◌<◌};

    ghost Value = { ℕ };

    ghost view = { λ moment. moment.seconds };

    ghost invariant = { λ moment. moment.seconds < 253402300800 };

    ghost inverse = { λ seconds. record { seconds = seconds } };
}

impl Moment {
    /// The moment after so many seconds; `BadMoment` exactly from the year 10000 on.
    pub fn of(seconds: u64) -> Result<Moment, BaseError>
        ensures value { IfOk result (λ moment. moment ≡ seconds) }
        ensures good { IsOk result ↔ seconds < 253402300800 }
        ensures bad { IsErrOf result BaseError.BadMoment ↔ 253402300800 ≤ seconds }
    {
        if seconds >= 253_402_300_800 {
            return Err(BaseError::BadMoment);
        }
        Ok(Moment { seconds })
    }

    /// The seconds since 1970-01-01T00:00:00Z, below 253,402,300,800.
    pub fn seconds(&self) -> u64
        ensures value { result ≡ self.now }
        ensures within { self.now < 253402300800 }
    {
        self.seconds
    }

    /// The date and time in UTC as `YYYYMMDDHHMMSSZ`.
    pub fn text(&self, alloc: Global) -> Result<Octets, NoMemory>
        ensures { IfOk result (λ text. text ≡ moment_text self.now) }
    {
        let (year, month, day) = civil((self.seconds / 86_400) as u32);
        let second = (self.seconds % 86_400) as u32;
        let date = [year as u32 / 100, year as u32, month as u32, day as u32];
        let text = text_of(alloc, date, second)?;
        Ok(text)
    }
}

/// The date of a day, counted from 1970-01-01 as 0.
fn date_of(days: u32) -> Date
    requires { days ≤ 2932896 }
    ensures { epoch_day result ≡ pos days }
{
    let Ok(date) = Date::from_unix_epoch_day(days as i64) else {
        unreachable!()
    };
    date
}

/// The year, month and day of a day, counted from 1970-01-01 as 0, to the end of the year 9999.
fn civil(days: u32) -> (u16, u8, u8)
    requires { days ≤ 2932896 }
    ensures { record { year = result.0; month = result.1; day = result.2 } ≡ civil_date days }
{
    let date = date_of(days);
    (date.year.unsigned_abs(), date.month, date.day)
}

/// The pairs of digits of a date, and of the seconds into its day.
fn text_of(alloc: Global, date: [u32; 4], second: u32) -> Result<Octets, NoMemory>
    ensures { IfOk result (λ text. text ≡ flat_map two_digits date ++ time_text second ++ 90 ∷ []) }
{
    let [century, year, month, day] = date;
    let hour = second / 3600;
    let minute = second / 60 % 60;
    let second = second % 60;
    let digits = [
        tens(century),
        ones(century),
        tens(year),
        ones(year),
        tens(month),
        ones(month),
        tens(day),
        ones(day),
        tens(hour),
        ones(hour),
        tens(minute),
        ones(minute),
        tens(second),
        ones(second),
        b'Z',
    ];
    let text = Octets::of(alloc, &digits)?;
    Ok(text)
}

/// The second last digit of a number, in ASCII.
fn tens(number: u32) -> u8
    ensures { result ≡ 48 + number / 10 % 10 }
{
    b'0' + (number / 10 % 10) as u8
}

/// The last digit of a number, in ASCII.
fn ones(number: u32) -> u8
    ensures { result ≡ 48 + number % 10 }
{
    b'0' + (number % 10) as u8
}
