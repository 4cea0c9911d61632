ghost use Rattle.std.specs.Prelude.{◌≡◌};
ghost use Rattle.templates.specs.Refusals.{number_of, of_size};

use sheets::SizeRefusal;

// The cases of a size bear the names that they have in a sheet's refusals: both are public, and a number hangs on each.
/// Which question failed when a template was to adopt a list of slots.
#[derive(Clone, Copy, PartialEq, Eq, Debug)]
pub enum TemplateRefusal {
    TasksOutOfRange = 1,
    ProcessorsOutOfRange = 2,
    FrameOutOfRange = 3,
    TooManySlots = 9,
    SlotTicksOutOfRange = 10,
    SlotPairsWrong = 11,
    SlotsDoNotAddUp = 12,
}

impl From<SizeRefusal> for TemplateRefusal {
    ghost from_gives = { λ refusal given. given ≡ of_size refusal };

    fn from(refusal: SizeRefusal) -> TemplateRefusal {
        match refusal {
            SizeRefusal::TasksOutOfRange => TemplateRefusal::TasksOutOfRange,
            SizeRefusal::ProcessorsOutOfRange => TemplateRefusal::ProcessorsOutOfRange,
            SizeRefusal::FrameOutOfRange => TemplateRefusal::FrameOutOfRange,
        }
    }
}

impl TemplateRefusal {
    /// The number that a refusal is known by.
    pub fn number(self) -> u8
        ensures { result ≡ number_of self }
    {
        self as u8
    }
}
