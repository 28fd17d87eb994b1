//! The object identifiers that user data name.
ghost use Rattle.std.specs.Prelude.{◌≡◌};
ghost use Rattle.vf_upper_grammar.specs.Forms.{are_arcs};
ghost use Rattle.vf_upper_grammar.specs.Syntaxes.{acse, ber, ftam, is_ours as ours_test, pci};

use vf_base::Oid;

/// The abstract syntax of ACSE (ISO 8650-1).
pub fn is_acse(oid: &Oid) -> bool
    ensures { result ≡ are_arcs oid.now acse }
{
    oid.arcs() == [2, 2, 1, 0, 1].as_slice()
}

/// The abstract syntax of FTAM's PDUs (ISO 8571-4).
pub fn is_pci(oid: &Oid) -> bool
    ensures { result ≡ are_arcs oid.now pci }
{
    oid.arcs() == [1, 0, 8571, 2, 1].as_slice()
}

/// The application context of FTAM (ISO 8571-4).
pub fn is_ftam(oid: &Oid) -> bool
    ensures { result ≡ are_arcs oid.now ftam }
{
    oid.arcs() == [1, 0, 8571, 1, 1].as_slice()
}

/// The basic encoding rules (ISO 8825), the only transfer syntax here.
pub fn is_ber(oid: &Oid) -> bool
    ensures { result ≡ are_arcs oid.now ber }
{
    oid.arcs() == [2, 1, 1].as_slice()
}

/// An abstract syntax that a called end accepts (profile).
pub fn is_ours(oid: &Oid) -> bool
    ensures { result ≡ ours_test oid.now }
{
    let arcs = oid.arcs();
    arcs == [2, 2, 1, 0, 1].as_slice()
        || arcs == [1, 0, 8571, 2, 1].as_slice()
        || arcs == [1, 0, 8571, 2, 2].as_slice()
        || arcs == [1, 0, 8571, 2, 3].as_slice()
        || arcs == [1, 0, 8571, 2, 4].as_slice()
}
