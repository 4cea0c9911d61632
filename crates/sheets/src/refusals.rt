ghost use Rattle.std.specs.Prelude.{◌≡◌};
ghost use Rattle.sheets.specs.Refusals.{number_of, size_number_of, of_size};

/// Which number of a size is out of range.
#[derive(Clone, Copy, PartialEq, Eq, Debug)]
pub enum SizeRefusal {
    TasksOutOfRange,
    ProcessorsOutOfRange,
    FrameOutOfRange,
}

/// Which question of a call on a sheet failed.
#[derive(Clone, Copy, PartialEq, Eq, Debug)]
pub enum SheetRefusal {
    TasksOutOfRange = 1,
    ProcessorsOutOfRange = 2,
    FrameOutOfRange = 3,
    TaskOutOfRange = 4,
    ProcessorOutOfRange = 5,
    TicksOutOfRange = 6,
}

impl From<SizeRefusal> for SheetRefusal {
    ghost from_gives = { λ refusal given. given ≡ of_size refusal };

    fn from(refusal: SizeRefusal) -> SheetRefusal {
        match refusal {
            SizeRefusal::TasksOutOfRange => SheetRefusal::TasksOutOfRange,
            SizeRefusal::ProcessorsOutOfRange => SheetRefusal::ProcessorsOutOfRange,
            SizeRefusal::FrameOutOfRange => SheetRefusal::FrameOutOfRange,
        }
    }
}

impl SizeRefusal {
    /// The number that a refusal is known by: that of the sheet's refusal of this name.
    pub fn number(self) -> u8
        ensures { result ≡ size_number_of self }
    {
        SheetRefusal::from(self).number()
    }
}

impl SheetRefusal {
    /// The number that a refusal is known by.
    pub fn number(self) -> u8
        ensures { result ≡ number_of self }
    {
        self as u8
    }
}
