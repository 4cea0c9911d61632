// What is wrong with a file, in which layer, and where.
ghost use Rattle.std.specs.Prelude.{◌≡◌};
ghost use Rattle.planfiles.specs.Numbers.{number_of, underneath};
ghost use Rattle.planfiles.specs.declared.faults.Layer.TheVariants.{Bytes, Records, Plan};
ghost use Rattle.planfiles.specs.declared.faults.PlanFault.TheVariants.{SheetRefused};

use sheets::SheetRefusal;

#[derive(Clone, Copy, PartialEq, Eq, Debug)]
pub enum ByteFault {
    CutShort,
}

#[derive(Clone, Copy, PartialEq, Eq, Debug)]
pub enum RecordFault {
    UnknownKind,
    OutOfPlace,
    OutOfOrder,
}

/// What the record states is refused by the sheet that it is about.
#[derive(Clone, Copy, PartialEq, Eq, Debug)]
pub enum PlanFault {
    SheetRefused(SheetRefusal),
}

#[derive(Clone, Copy, PartialEq, Eq, Debug)]
pub enum Layer {
    Bytes(ByteFault),
    Records(RecordFault),
    Plan(PlanFault),
}

/// A fault, with the place of the record's first byte, counted from 0.
#[derive(Clone, Copy, PartialEq, Eq, Debug)]
pub struct Fault {
    pub place: usize,
    pub layer: Layer,
}

// A method and no `From<..> for u8`, since its name says what the number is.
impl Fault {
    /// The number that the fault is known by.
    pub fn number(self) -> u8
        ensures { result ≡ number_of self }
    {
        match self.layer {
            Layer::Bytes(ByteFault::CutShort) => 21,
            Layer::Records(RecordFault::UnknownKind) => 22,
            Layer::Records(RecordFault::OutOfPlace) => 23,
            Layer::Records(RecordFault::OutOfOrder) => 24,
            Layer::Plan(_) => 25,
        }
    }

    /// The number underneath a plan fault; no other fault has one.
    pub fn underneath(self) -> Option<u8>
        ensures { result ≡ underneath self }
    {
        match self.layer {
            Layer::Plan(PlanFault::SheetRefused(refusal)) => Some(refusal.number()),
            _ => None,
        }
    }
}

impl Layer {
    // The layer's fault, in the record that begins at a place.
    pub(crate) fn at(self, place: usize) -> Fault
        ensures { result ≡ record { place = place; layer = self } }
    {
        Fault { place, layer: self }
    }
}

impl From<ByteFault> for Layer {
    ghost from_gives = { λ x y. y ≡ Bytes x };

    fn from(fault: ByteFault) -> Layer {
        Layer::Bytes(fault)
    }
}

impl From<RecordFault> for Layer {
    ghost from_gives = { λ x y. y ≡ Records x };

    fn from(fault: RecordFault) -> Layer {
        Layer::Records(fault)
    }
}

impl From<SheetRefusal> for Layer {
    ghost from_gives = { λ x y. y ≡ Plan (SheetRefused x) };

    fn from(refusal: SheetRefusal) -> Layer {
        Layer::Plan(PlanFault::SheetRefused(refusal))
    }
}
