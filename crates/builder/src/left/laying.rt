ghost use Rattle.std.specs.Prelude.{◌≡◌, ℕ, ◌<◌, ◌≤◌, Some};
ghost use Rattle.graphs.specs.Graphs.{at};
ghost use Rattle.graphs.specs.Covers.{Cover};
ghost use Rattle.plans.specs.Remaining.{graph, marks};
ghost use Rattle.sheets.specs.Cells.{cell};
ghost use Rattle.builder.specs.Building.{MayLast, laid};
ghost use Rattle.builder.specs.Lasting.{Taken};
ghost use Rattle.builder.specs.Lefts.{left_of};

use crate::left::Left;

// Takes the ticks of a slot from each pair of its row.
fn take_ticks(lines: &mut [[u32; 16]; 64], row: &[Option<u8>; 16], ticks: u32)
    requires { (p t : ℕ) → at row.now p ≡ Some t → (t < 64) × (ticks ≤ cell lines.old t p) }
    ensures { Taken lines.old lines.new row.now 16 ticks }
{
    for (processor, named) in row.iter().enumerate() {
        if let Some(task) = *named {
            let line = &mut lines[usize::from(task)];
            line[processor] -= ticks;
        }
    }
}

impl Left {
    // Lays the row for some ticks.
    pub(crate) fn subtract(&mut self, row: &[Option<u8>; 16], ticks: u32)
        requires near { ticks ≤ (left_of self.old).frame }
        requires may { MayLast (left_of self.old) row.now ticks }
        requires cover { Cover (graph (left_of self.old)) (marks (left_of self.old)) row.now }
        ensures { left_of self.new ≡ laid (left_of self.old) row.now ticks }
    {
        take_ticks(&mut self.work.ticks, row, ticks);
        self.work.frame -= ticks;
    }
}
