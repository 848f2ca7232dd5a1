//! What a scan keeps of a bundle: its head.

/// The head of a bundle in a ring: its last number, how many before it are covered too, and where the head stands.
#[derive(Clone, Copy, Debug)]
pub struct Head {
    pub last: u64,
    pub span: u64,
    pub ring: u64,
    pub slot: u64,
}

impl Head {
    ghost use Rattle.dude_base.specs.Records.{first_of};
    ghost use Rattle.log_ring.specs.Heads.{numbers_of};
    ghost use Rattle.std.specs.Prelude.{◌≡◌};

    /// The first number that its bundle covers.
    pub fn first(&self) -> u64
        ensures { result ≡ first_of (numbers_of self.now) }
    {
        self.last.saturating_sub(self.span)
    }
}
