ghost use Rattle.ranks.specs.Ranks.{EachOnce};

/// The ranks 0 to 63 of the tasks 0 to 63, each once.
#[derive(Clone, Copy)]
pub struct RankList {
    pub(crate) ranks: [u8; 64],
    ghost once: { ∥ EachOnce ranks ∥₁ },
}
