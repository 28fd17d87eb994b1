ghost use Rattle.std.specs.Prelude.{◌≡◌};
ghost use Rattle.vf_tpkt.specs.Tpdu.{kind_of as kind_by_code};

/// The TPDUs of class 0 (ISO 8073, 13).
#[derive(Clone, Copy)]
pub(crate) enum Kind {
    /// Connection request.
    Cr,
    /// Connection confirm.
    Cc,
    /// Disconnect request.
    Dr,
    /// TPDU error.
    Er,
    /// Data.
    Dt,
}

/// The kind of a TPDU by its second octet; none where class 0 has no such code.
pub(crate) fn kind_of(code: u8) -> Option<Kind>
    ensures { result ≡ kind_by_code code }
{
    match code {
        0xE0 => Some(Kind::Cr),
        0xD0 => Some(Kind::Cc),
        0x80 => Some(Kind::Dr),
        0x70 => Some(Kind::Er),
        0xF0 => Some(Kind::Dt),
        _ => None,
    }
}
