// Every refusal that can be listed, carried whole from where it arose.
ghost use Rattle.std.specs.Prelude.{◌≡◌};
ghost use Rattle.listings.specs.Numbers.{number_of, list_number_of};
ghost use Rattle.listings.specs.declared.refusals.Refusal.TheVariants.{Sheet, File, Build, Template};

use builder::BuildRefusal;
use planfiles::Fault;
use sheets::SheetRefusal;
use templates::TemplateRefusal;

/// Why there is no template.
#[derive(Clone, Copy, PartialEq, Eq, Debug)]
pub enum Refusal {
    Sheet(SheetRefusal),
    File(Fault),
    Build(BuildRefusal),
    Template(TemplateRefusal),
}

// A method and no `From<..> for u8`, since its name says what the number is.
impl Refusal {
    /// The number that a refusal is known by.
    pub fn number(self) -> u8
        ensures { result ≡ number_of self }
    {
        match self {
            Refusal::Sheet(refusal) => refusal.number(),
            Refusal::File(fault) => fault.number(),
            Refusal::Build(refusal) => refusal.number(),
            Refusal::Template(refusal) => refusal.number(),
        }
    }
}

impl From<SheetRefusal> for Refusal {
    ghost from_gives = { λ x y. y ≡ Sheet x };

    fn from(refusal: SheetRefusal) -> Refusal {
        Refusal::Sheet(refusal)
    }
}

impl From<Fault> for Refusal {
    ghost from_gives = { λ x y. y ≡ File x };

    fn from(fault: Fault) -> Refusal {
        Refusal::File(fault)
    }
}

impl From<BuildRefusal> for Refusal {
    ghost from_gives = { λ x y. y ≡ Build x };

    fn from(refusal: BuildRefusal) -> Refusal {
        Refusal::Build(refusal)
    }
}

impl From<TemplateRefusal> for Refusal {
    ghost from_gives = { λ x y. y ≡ Template x };

    fn from(refusal: TemplateRefusal) -> Refusal {
        Refusal::Template(refusal)
    }
}

/// Why nothing is listed.
#[derive(Clone, Copy, PartialEq, Eq, Debug)]
pub enum ListRefusal {
    OutputTooShort = 26,
}

impl ListRefusal {
    /// The number that a refusal is known by.
    pub fn number(self) -> u8
        ensures { result ≡ list_number_of self }
    {
        self as u8
    }
}
