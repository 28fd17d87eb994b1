use vf_base::NoMemory;

/// Why a value isn't read. Faults say how many octets are left with the one that is a fault, so that no function
/// needs to know where its octets stand.
#[derive(Clone, Copy, Debug, PartialEq, Eq)]
pub enum Fault {
    Short,
    Bad(usize),
    Deep(usize),
    Long(usize),
    NoMemory,
}

impl From<NoMemory> for Fault {
    ghost use Rattle.std.specs.Prelude.{◌≡◌};
    ghost use Rattle.vf_ber.specs.declared.fault.Fault.TheVariants as faults;

    ghost from_gives = { λ _ error. error ≡ faults.NoMemory };

    fn from(_error: NoMemory) -> Fault {
        Fault::NoMemory
    }
}
