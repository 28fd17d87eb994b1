//! Which serial numbers the checks of a transfer have (ISO 8327; ISO 8571-3, checkpoints).
ghost use Rattle.std.specs.Prelude.{◌≡◌, ◌+◌};
ghost use Rattle.vf_cli_calling.specs.Bases.{check_of, first, serial_at, serial_of};

/// The greatest serial number.
const MOST_SERIAL: u64 = 999_999;

/// What a transfer began with: the number that the next check had, and the point at which it went on, 0 where it is a new one. The
/// check after that point has that number.
#[derive(Clone, Copy)]
pub(crate) struct Base {
    pub(crate) next: u32,
    pub(crate) point: u32,
}

impl Base {
    /// That of a link that has had no transfer.
    pub(crate) fn first() -> Base
        ensures { result ≡ first }
    {
        Base { next: 1, point: 0 }
    }

    /// The serial number of a check, where it has one.
    pub(crate) fn serial_of(self, check: u32) -> Option<u32>
        ensures { result ≡ serial_of self check }
    {
        serial_at(
            u64::from(self.next) + u64::from(check),
            u64::from(self.point) + 1,
        )
    }

    /// The number that the next check has after a restart at a point, where it has one.
    pub(crate) fn serial_after(self, point: u32) -> Option<u32>
        ensures { result ≡ serial_at (self.next + point) self.point }
    {
        serial_at(
            u64::from(self.next) + u64::from(point),
            u64::from(self.point),
        )
    }

    /// The check of a serial number.
    pub(crate) fn check_of(self, serial: u32) -> u64
        ensures { result ≡ check_of self serial }
    {
        (u64::from(serial) + u64::from(self.point) + 1).saturating_sub(u64::from(self.next))
    }
}

/// A number less another, where that is a serial number.
fn serial_at(number: u64, less: u64) -> Option<u32>
    ensures { result ≡ serial_at number less }
{
    let serial = number.checked_sub(less)?;
    if serial > MOST_SERIAL {
        return None;
    }
    Some(serial as u32)
}
