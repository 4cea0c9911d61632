ghost use Rattle.std.specs.Prelude.{◌≡◌};
ghost use Rattle.builder.specs.Refusals.{number_of};

use crate::lines::Line;

/// Why a sheet is not built.
#[derive(Clone, Copy, PartialEq, Eq, Debug)]
pub enum BuildRefusal {
    /// No plan exists: the total of this line passes the frame.
    NoPlan(Line),
    /// The room has too few places.
    NoRoom,
}

// A method and no `From<..> for u8`, since its name says what the number is.
impl BuildRefusal {
    /// The number that a refusal is known by.
    pub fn number(self) -> u8
        ensures { result ≡ number_of self }
    {
        match self {
            BuildRefusal::NoPlan(_) => 7,
            BuildRefusal::NoRoom => 8,
        }
    }
}
