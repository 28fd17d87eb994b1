//! Drawn numbers (profile).
ghost use Rattle.std.specs.Prelude.{◌≡◌, ◌<◌, ◌%◌};
ghost use Rattle.vf_cli_generate.specs.Drawing.{next as next_meant};

/// The numbers below this prime go round.
const MODULUS: u32 = 65_537;

/// Numbers, each by the one before: 75 times it and 74, modulo 65,537.
#[derive(Clone, Copy)]
pub(crate) struct Numbers {
    last: u32,
    ghost bound: { last < 65537 },
}

impl Numbers {
    /// The numbers after this one, modulo 65,537.
    pub(crate) fn after(number: u32) -> Numbers
        ensures { result.last ≡ number % 65537 }
    {
        Numbers {
            last: number % MODULUS,
        }
    }

    /// The next number, modulo this one.
    pub(crate) fn next(&mut self, modulus: u32) -> u32
        requires { 0 < modulus }
        ensures last { self.new.last ≡ next_meant self.old.last }
        ensures number { result ≡ next_meant self.old.last % modulus }
    {
        self.last = (self.last * 75 + 74) % MODULUS;
        self.last % modulus
    }
}
