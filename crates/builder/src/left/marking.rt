ghost use Rattle.std.specs.Prelude.{◌≡◌, ℕ, ◌<◌, ◌≤◌, false, slice_index_or};
ghost use Rattle.pairings.specs.Rules.{marking};
ghost use Rattle.plans.specs.Remaining.{marks};
ghost use Rattle.builder.specs.Lefts.{left_of};

use crate::axes::Lines;
use crate::left::Left;
use pairings::Marks;

// The lines that have no slack.
fn without_slack<L: Lines, const N: usize>(lines: &L) -> [bool; N]
    requires more { 0 < (L.load lines.now).frame }
    requires fits { (L.load lines.now).tasks ≤ N }
    ensures { (line : ℕ) → slice_index_or result line false ≡ (marks (L.load lines.now)).urgent line }
{
    let mut marked = [false; N];
    let frame = u64::from(lines.frame());
    for (line, mark) in marked[..lines.lines()].iter_mut().enumerate() {
        *mark = lines.total(line) == frame;
    }
    marked
}

impl Left {
    // The urgent tasks, and the full processors.
    pub(crate) fn marks(&self) -> Marks
        requires { 0 < self.now.work.frame }
        ensures { marking result ≡ marks (left_of self.now) }
    {
        Marks {
            urgent: without_slack(&self.work),
            full: without_slack(&self.work.across()),
        }
    }
}
