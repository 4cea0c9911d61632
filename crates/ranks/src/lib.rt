// A rank for each task, and the preference that goes by it.
#![tactic(auto)]

mod by_rank;
mod ranking;
mod ranks;
mod refusals;

pub use by_rank::ByRank;
pub use ranks::RankList;
pub use refusals::RankRefusal;
