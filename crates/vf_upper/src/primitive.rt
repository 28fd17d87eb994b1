ghost use Rattle.std.specs.Prelude.{◌≡◌, IfOk};

use crate::{CarriedValues, Offers, Results};
use std::alloc::Global;
use vf_base::NoMemory;

/// A service primitive of presentation and ACSE as this profile carries it. Those of an association have one value,
/// the PDU in the user information of the ACSE value; a refusal and an abort may have none. Data have any number.
#[derive(Drop)]
pub enum Primitive {
    /// P-CONNECT and A-ASSOCIATE request: the contexts proposed.
    Associate {
        offers: Offers,
        values: CarriedValues,
    },
    /// P-CONNECT and A-ASSOCIATE response that accepts: the results of the proposals.
    Accepted {
        results: Results,
        values: CarriedValues,
    },
    /// The same that refuses; without values there are no results.
    Refused {
        results: Results,
        values: CarriedValues,
    },
    /// A-RELEASE request.
    Release {
        values: CarriedValues,
    },
    /// A-RELEASE response.
    Released {
        values: CarriedValues,
    },
    /// P-DATA, and the data of a resynchronization and its response.
    Data {
        values: CarriedValues,
    },
    /// A-ABORT request.
    Abort {
        values: CarriedValues,
    },
}

impl Primitive {
    /// An equal primitive; the octets of its values are shared.
    pub fn copy(&self, alloc: Global) -> Result<Primitive, NoMemory>
        ensures { IfOk result (λ made. made ≡ self.now) }
    {
        match self {
            Primitive::Associate { offers, values } => {
                let offers = offers.copy(alloc)?;
                let values = values.copy(alloc)?;
                Ok(Primitive::Associate { offers, values })
            }
            Primitive::Accepted { results, values } => {
                let results = results.copy(alloc)?;
                let values = values.copy(alloc)?;
                Ok(Primitive::Accepted { results, values })
            }
            Primitive::Refused { results, values } => {
                let results = results.copy(alloc)?;
                let values = values.copy(alloc)?;
                Ok(Primitive::Refused { results, values })
            }
            Primitive::Release { values } => {
                let values = values.copy(alloc)?;
                Ok(Primitive::Release { values })
            }
            Primitive::Released { values } => {
                let values = values.copy(alloc)?;
                Ok(Primitive::Released { values })
            }
            Primitive::Data { values } => {
                let values = values.copy(alloc)?;
                Ok(Primitive::Data { values })
            }
            Primitive::Abort { values } => {
                let values = values.copy(alloc)?;
                Ok(Primitive::Abort { values })
            }
        }
    }
}
