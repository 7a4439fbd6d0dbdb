//! Numbers that look random, the same for the same seed.
ghost use Rattle.std.specs.Prelude.{◌<◌};

/// A generator of such numbers.
#[derive(Drop)]
pub struct Random {
    state: u64,
}

impl Random {
    /// The generator of a seed.
    pub fn new(seed: u64) -> Random {
        Random {
            state: seed.wrapping_mul(0x9e37_79b9_7f4a_7c15) | 1,
        }
    }

    /// The next number, below a bound.
    pub fn below(&mut self, bound: u64) -> u64
        requires { 0 < bound }
        ensures { result < bound }
    {
        let mut x = self.state;
        x ^= x << 13;
        x ^= x >> 7;
        x ^= x << 17;
        self.state = x;
        (x >> 16) % bound
    }

    /// The same, for a register, a global or a slot.
    pub fn small(&mut self, bound: u8) -> u8
        requires { 0 < bound }
        ensures { result < bound }
    {
        self.below(u64::from(bound)) as u8
    }
}
