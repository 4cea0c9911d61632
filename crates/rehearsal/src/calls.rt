ghost use Rattle.std.specs.Prelude.{◌≡◌};
ghost use Rattle.rehearsal.specs.Numbers.{number_of};
ghost use Rattle.rehearsal.specs.declared.calls.CallRefusal.TheVariants.{Sheet, Build};

use builder::BuildRefusal;
use sheets::SheetRefusal;

/// A call that changes a sheet or builds it.
#[derive(Clone, Copy, PartialEq, Eq, Debug)]
pub enum SheetCall {
    Open {
        tasks: usize,
        processors: usize,
        frame: u32,
    },
    Set {
        task: usize,
        processor: usize,
        ticks: u32,
    },
    Withdraw {
        task: usize,
    },
    Reframe {
        frame: u32,
    },
    Build,
}

/// What a call answers: how many slots it wrote, where it was a build, or what refused it.
pub type CallAnswer = Result<Option<usize>, CallRefusal>;

/// Who refused a call, and why.
#[derive(Clone, Copy, PartialEq, Eq, Debug)]
pub enum CallRefusal {
    Sheet(SheetRefusal),
    Build(BuildRefusal),
}

impl CallRefusal {
    /// The number that a refusal is known by.
    pub fn number(self) -> u8
        ensures { result ≡ number_of self }
    {
        match self {
            Self::Sheet(refusal) => refusal.number(),
            Self::Build(refusal) => refusal.number(),
        }
    }
}

impl From<SheetRefusal> for CallRefusal {
    ghost from_gives = { λ x y. y ≡ Sheet x };

    fn from(refusal: SheetRefusal) -> CallRefusal {
        CallRefusal::Sheet(refusal)
    }
}

impl From<BuildRefusal> for CallRefusal {
    ghost from_gives = { λ x y. y ≡ Build x };

    fn from(refusal: BuildRefusal) -> CallRefusal {
        CallRefusal::Build(refusal)
    }
}

/// A call of a script, and what it answered once it was played.
#[derive(Clone, Copy, PartialEq, Eq, Debug)]
pub struct Entry {
    pub call: SheetCall,
    pub answer: Option<CallAnswer>,
}
