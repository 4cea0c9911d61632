ghost use Rattle.ranks.specs.Ranks.{by_rank, rank_preferring};

use crate::ranks::RankList;
use preferences::Preference;

/// The task with the lower rank first.
#[derive(Clone, Copy)]
pub struct ByRank<'a> {
    pub list: &'a RankList,
}

impl<'a> Preference for ByRank<'a> {
    ghost order = { λ r. by_rank r.list.now.ranks };

    ghost preferring = { λ r. rank_preferring r.list.now.ranks r.list.now.once };

    fn comes_before(&self, _processor: usize, _had: Option<u8>, a: usize, b: usize) -> bool {
        a < 64 && b < 64 && self.list.ranks[a] < self.list.ranks[b]
    }
}
