// The running checksum.
ghost use Rattle.std.specs.Prelude.{◌≡◌};
ghost use Rattle.cases.specs.Cases.{mixed};

/// The checksum of what was mixed in so far, at first 0.
#[derive(Clone, Copy, Default)]
pub struct Checksum {
    pub h: u64,
}

impl Checksum {
    /// Mixes v in.
    pub fn mix(&mut self, v: u64)
        ensures { self.new.h ≡ mixed self.old.h v }
    {
        let sum = u128::from(self.h) * 1000003 + u128::from(v) + 1;
        self.h = (sum % 4294967291) as u64;
    }
}
