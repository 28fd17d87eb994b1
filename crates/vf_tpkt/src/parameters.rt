ghost use Rattle.std.specs.Prelude.{◌≡◌};
ghost use Rattle.std.specs.Option.{option_map};
ghost use Rattle.vf_tpkt.specs.Parameters.{sizes as sizes_of, summary};

/// The code of the parameter that proposes a size (ISO 8073, 13.3.4 b).
pub(crate) const SIZE: u8 = 0xC0;

/// The least exponent of a size: TPDUs of 128 octets.
const LEAST: u8 = 7;

/// What the parameters of a CR or CC propose.
#[derive(Clone, Copy)]
pub(crate) struct Proposed {
    /// The exponent that counts.
    pub(crate) last: Option<u8>,
    /// One of them is below 7.
    pub(crate) small: bool,
}

/// The sizes that these parameters propose; none where one ends past the TPDU, or is a C0 of another length than 1.
pub(crate) fn sizes(octets: &[u8]) -> Option<Proposed>
    ensures { result ≡ option_map summary (sizes_of octets.now) }
{
    let (code, size, more) = match octets {
        [] => {
            return Some(Proposed {
                last: None,
                small: false,
            });
        }
        [_] => return None,
        [code, size, more @ ..] => (*code, usize::from(*size), more),
    };
    if more.len() < size {
        return None;
    }
    let (value, more) = more.split_at(size);
    let others = sizes(more)?;
    if code != SIZE {
        return Some(others);
    }
    let [exponent] = value else {
        return None;
    };
    Some(Proposed {
        last: Some(others.last.unwrap_or(*exponent)),
        small: *exponent < LEAST || others.small,
    })
}
