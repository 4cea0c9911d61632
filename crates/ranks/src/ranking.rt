ghost use Rattle.std.specs.Prelude.{◌≡◌, ℕ, ◌<◌, IsTrue, ◌↔◌};
ghost use Rattle.ranks.specs.Ranks.{EachOnce, rank_of};
ghost use Rattle.ranks.specs.Replacing.{Replaced};

use crate::ranks::RankList;
use crate::refusals::RankRefusal;
use std::array;

// Whether no rank stands twice, and none is 64 or more. A row of options, to ask `graphs`, would cost a third more at the least.
fn each_once(ranks: &[u8; 64]) -> bool
    ensures { IsTrue result ↔ EachOnce ranks.now }
{
    let mut seen = [false; 64];
    for rank in ranks {
        let rank = usize::from(*rank);
        if rank >= 64 || seen[rank] {
            return false;
        }
        seen[rank] = true;
    }
    true
}

impl RankList {
    /// The first rank list: each task has its own number as its rank.
    pub fn by_number() -> RankList
        ensures { (t : ℕ) → t < 64 → rank_of result.ranks t ≡ t }
    {
        RankList {
            // By `as`: proved to fit, and there is no `From` to a narrower type.
            ranks: array::from_fn(|task| task as u8),
        }
    }

    /// Takes other ranks, or refuses them and keeps its own.
    pub fn replace(&mut self, ranks: [u8; 64]) -> Result<(), RankRefusal>
        ensures { Replaced self.old.ranks ranks self.new.ranks result }
    {
        if !each_once(&ranks) {
            return Err(RankRefusal::NotEachOnce);
        }
        self.ranks = ranks;
        Ok(())
    }
}
