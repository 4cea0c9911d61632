ghost use Rattle.std.specs.Prelude.{◌≡◌, ℕ, ◌≤◌};
ghost use Rattle.sheets.specs.Cells.{cell};

// The ticks that pairs still need, and the ticks of the frame to lay them in. The table has a fixed size, since the library allocates nothing.
#[derive(Clone, Copy)]
pub(crate) struct Work {
    pub(crate) tasks: usize,
    pub(crate) processors: usize,
    pub(crate) frame: u32,
    pub(crate) ticks: [[u32; 16]; 64],
    ghost few: { tasks ≤ 64 },
    ghost manned: { 1 ≤ processors },
    ghost fewer: { processors ≤ 16 },
    ghost below: { (t p : ℕ) → tasks ≤ t → cell ticks t p ≡ 0 },
    ghost beside: { (t p : ℕ) → processors ≤ p → cell ticks t p ≡ 0 },
}

mod axes;
mod edges;
mod needs;
