ghost use Rattle.std.specs.Prelude.{◌≡◌, length, MatchOption};
ghost use Rattle.graphs.specs.Graphs.{at};
ghost use Rattle.graphs.specs.Covers.{all_idle};
ghost use Rattle.pairings.specs.Pairings.{Paired};

use graphs::no_entry_twice;

/// The task of each processor, or nobody; no task twice.
#[derive(Clone, Copy)]
pub struct Pairing {
    row: [Option<u8>; 16],
    ghost wide: { length row ≡ 16 },
    ghost paired: { ∥ Paired row ∥₁ },
}

impl Pairing {
    /// Every processor idle.
    pub fn idle() -> Pairing
        ensures { result.row ≡ all_idle }
    {
        Pairing { row: [None; 16] }
    }

    // A method and no `TryFrom`: it is public, and its name says what it is made from.
    /// The pairing with this row, unless a task stands in it twice or is 64 or more.
    pub fn from_row(row: [Option<u8>; 16]) -> Option<Pairing>
        ensures { MatchOption result (Paired row → ⊥) (λ q. q.row ≡ row) }
    {
        if no_entry_twice(&row, 64) {
            Some(Pairing { row })
        } else {
            None
        }
    }

    // The pairing with a row that is known to have no task twice.
    pub(crate) fn sound(row: [Option<u8>; 16]) -> Pairing
        requires { Paired row }
        ensures { result.row ≡ row }
    {
        Pairing { row }
    }

    /// The task of each processor.
    pub fn row(&self) -> [Option<u8>; 16]
        ensures { result ≡ self.now.row }
    {
        self.row
    }

    /// The task of a processor, or nobody.
    pub fn task_of(&self, processor: usize) -> Option<u8>
        ensures { result ≡ at self.now.row processor }
    {
        self.row.get(processor).copied().flatten()
    }
}
