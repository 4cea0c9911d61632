ghost use Rattle.std.specs.Prelude.{◌≡◌, ℕ, ◌≤◌};
ghost use Rattle.sheets.specs.Cells.{cell};

use crate::size::Size;
use crate::table::Table;

/// How many ticks of one frame each task needs on each processor. A pair outside the sheet has none.
#[derive(Clone, Copy)]
pub struct Sheet {
    pub(crate) size: Size,
    pub(crate) table: Table,
    ghost light: { (t p : ℕ) → cell table.ticks t p ≤ 1000000000 },
    ghost below: { (t p : ℕ) → size.tasks ≤ t → cell table.ticks t p ≡ 0 },
    ghost beside: { (t p : ℕ) → size.processors ≤ p → cell table.ticks t p ≡ 0 },
}
