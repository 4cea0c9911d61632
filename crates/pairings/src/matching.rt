ghost use Rattle.std.specs.Prelude.{◌≡◌, length};
ghost use Rattle.graphs.specs.Rows.{Distinct};
ghost use Rattle.pairings.specs.Flips.{Flipped};

use crate::flips::flipped;

// A matching, read from both sides: the task of each processor, and the processor that holds each task.
#[derive(Clone, Copy)]
pub(crate) struct Matching {
    pub(crate) tasks: [Option<u8>; 16],
    pub(crate) holders: [Option<u8>; 64],
    ghost wide: { length tasks ≡ 16 },
    ghost both: { Flipped 64 tasks holders },
}

impl Matching {
    // From either side, since a row that is known both ways is not read back twice.
    pub(crate) fn of_tasks(tasks: [Option<u8>; 16]) -> Matching
        requires { Distinct 64 tasks }
        ensures { result.tasks ≡ tasks }
    {
        Matching {
            tasks,
            holders: flipped(&tasks),
        }
    }

    pub(crate) fn of_holders(holders: [Option<u8>; 64]) -> Matching
        requires { Distinct 16 holders }
        ensures { result.holders ≡ holders }
    {
        Matching {
            tasks: flipped(&holders),
            holders,
        }
    }
}
