ghost use Rattle.std.specs.Prelude.{◌≡◌};
ghost use Rattle.ranks.specs.Refusals.{number_of};

/// Why a list of ranks is not taken.
#[derive(Clone, Copy, PartialEq, Eq, Debug)]
pub enum RankRefusal {
    NotEachOnce = 20,
}

impl RankRefusal {
    /// The number that a refusal is known by.
    pub fn number(self) -> u8
        ensures { result ≡ number_of self }
    {
        self as u8
    }
}
