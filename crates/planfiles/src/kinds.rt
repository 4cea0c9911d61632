// The kinds of records, each by its byte.
ghost use Rattle.std.specs.Prelude.{◌≡◌};
ghost use Rattle.planfiles.specs.Kinds.{byte_of, Names};
ghost use Rattle.planfiles.specs.Records.{size_of};

use crate::faults::RecordFault;

/// A kind of record. A sheet has a header, loads and an end; the others belong to templates.
#[derive(Clone, Copy, PartialEq, Eq, Debug)]
pub(crate) enum Kind {
    SheetHeader,
    TemplateHeader,
    Load,
    Slot,
    Pair,
    End,
}

impl TryFrom<u8> for Kind {
    type Error = RecordFault;

    ghost try_from_gives = { Names };

    fn try_from(byte: u8) -> Result<Kind, RecordFault> {
        match byte {
            0x01 => Ok(Kind::SheetHeader),
            0x02 => Ok(Kind::TemplateHeader),
            0x03 => Ok(Kind::Load),
            0x04 => Ok(Kind::Slot),
            0x05 => Ok(Kind::Pair),
            0x06 => Ok(Kind::End),
            _ => Err(RecordFault::UnknownKind),
        }
    }
}

impl Kind {
    // How many bytes the body has.
    pub(crate) fn body_size(self) -> usize
        ensures { Some result ≡ size_of (byte_of self) }
    {
        match self {
            Kind::SheetHeader | Kind::TemplateHeader | Kind::Load => 6,
            Kind::Slot => 4,
            Kind::Pair => 2,
            Kind::End => 0,
        }
    }
}
