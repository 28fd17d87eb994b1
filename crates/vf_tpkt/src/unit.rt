ghost use Rattle.std.specs.Prelude.{◌≡◌, IfOk};

use std::alloc::Global;
use vf_base::{NoMemory, Octets};

/// What a stream tells the user of the transport connection.
#[derive(Drop)]
pub enum Unit {
    /// The connection stands: a CR was received and answered, or a CC was received.
    Connected,
    /// A whole TSDU.
    Data(Octets),
    /// The other end ended the connection by DR or ER.
    Ended,
}

impl Unit {
    /// An equal unit; its octets are shared.
    pub fn copy(&self, alloc: Global) -> Result<Unit, NoMemory>
        ensures { IfOk result (λ made. made ≡ self.now) }
    {
        match self {
            Unit::Connected => Ok(Unit::Connected),
            Unit::Data(octets) => Ok(Unit::Data(octets.copy(alloc)?)),
            Unit::Ended => Ok(Unit::Ended),
        }
    }
}
