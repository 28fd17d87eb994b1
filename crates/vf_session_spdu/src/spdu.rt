ghost use Rattle.std.specs.Prelude.{◌≡◌, IfOk};
ghost use Rattle.vf_session_spdu.specs.Fields.{no_fields};

use std::alloc::Global;
use vf_base::{NoMemory, Octets, SpduKind};

/// The parameters of an SPDU that carry a number, each absent or with its value (ISO 8327, 8.3).
#[derive(Clone, Copy, PartialEq, Eq)]
pub struct SpduFields {
    /// The token item (16) of a GT: 4, the minor synchronize token.
    pub given: Option<u8>,
    /// The transport disconnect (17) of an AB.
    pub abort: Option<u8>,
    /// The session user requirements (20) of a CN or AC: a set of functional units.
    pub units: Option<u16>,
    /// The initial serial number (23) of a CN or AC, 0 to 999,999.
    pub first: Option<u32>,
    /// The token setting item (26) of a CN, AC, RS or RA: 0 with the sender, 4 with the other end.
    pub tokens: Option<u8>,
    /// The resync type (27) of an RS: 0 for restart, 1 for abandon.
    pub resync: Option<u8>,
    /// The serial number (42) of an MIP, MIA, RS or RA, 0 to 999,999.
    pub serial: Option<u32>,
    /// The reason (the first octet of 50) of an RF.
    pub reason: Option<u8>,
}

impl SpduFields {
    /// The fields of an SPDU without parameters.
    pub fn none() -> SpduFields
        ensures { result ≡ no_fields }
    {
        SpduFields {
            given: None,
            abort: None,
            units: None,
            first: None,
            tokens: None,
            resync: None,
            serial: None,
            reason: None,
        }
    }
}

/// One session protocol data unit (ISO 8327, 8).
#[derive(Drop)]
pub struct Spdu {
    pub kind: SpduKind,
    pub fields: SpduFields,
    /// Its user data, or the data of a DT; empty where there is none.
    pub octets: Octets,
}

impl Spdu {
    /// An equal SPDU; its octets are shared.
    pub fn copy(&self, alloc: Global) -> Result<Spdu, NoMemory>
        ensures { IfOk result (λ made. made ≡ self.now) }
    {
        let octets = self.octets.copy(alloc)?;
        Ok(Spdu {
            kind: self.kind,
            fields: self.fields,
            octets,
        })
    }
}
