// The reader of sheet files. Each record goes through its questions in order; the first that fails is the file's fault.
ghost use Rattle.std.specs.Prelude.{◌≡◌, ℕ, length, IfOk, Ok};
ghost use Rattle.planfiles.specs.Records.{fields_answer, number as big-end};
ghost use Rattle.planfiles.specs.Reading.{loaded, read_sheet};
ghost use Rattle.planfiles.specs.Steps.{fronted, opened};
ghost use Rattle.sheets.specs.Calls.{after_set};
ghost use Rattle.planfiles.specs.Writing.{sheet_bytes};
ghost use Rattle.sheets.specs.Sheets.{load_of};

use crate::faults::{ByteFault, Fault, Layer, RecordFault};
use crate::kinds::Kind;
use sheets::Sheet;

// Joins four bytes, which the patterns below name, so that a body's length needs no other test than its pattern.
fn number(a: u8, b: u8, c: u8, d: u8) -> u32
    ensures { result ≡ big-end a b c d }
{
    u32::from_be_bytes([a, b, c, d])
}

// The record at the front: its kind, and the bytes after the kind, which hold the whole body.
fn front(bytes: &[u8]) -> Result<(Kind, &[u8]), Layer>
    ensures { fronted bytes.now result }
{
    let [byte, after @ ..] = bytes else {
        return Err(ByteFault::CutShort.into());
    };
    let kind = Kind::try_from(*byte)?;
    if after.len() < kind.body_size() {
        return Err(ByteFault::CutShort.into());
    }
    Ok((kind, after))
}

// Opens the sheet as the header says; gives the bytes after it.
fn header<'b>(sheet: &mut Sheet, bytes: &'b [u8]) -> Result<&'b [u8], Layer>
    ensures { opened bytes.now sheet.new result }
{
    let (Kind::SheetHeader, [tasks, processors, a, b, c, d, rest @ ..]) = front(bytes)? else {
        return Err(RecordFault::OutOfPlace.into());
    };
    let frame = number(*a, *b, *c, *d);
    sheet.open(usize::from(*tasks), usize::from(*processors), frame)?;
    Ok(rest)
}

// Takes the load of a pair into the sheet, if it has ticks and comes after the pair before.
fn take(sheet: &mut Sheet, last: Option<(u8, u8)>, pair: (u8, u8), ticks: u32) -> Result<(), Layer>
    ensures answer { result ≡ fields_answer (load_of sheet.old) last pair.0 pair.1 ticks }
    ensures load { load_of sheet.new ≡ after_set (load_of sheet.old) pair.0 pair.1 ticks }
{
    let (task, processor) = pair;
    sheet.set(usize::from(task), usize::from(processor), ticks)?;
    if ticks < 1 || last >= Some(pair) {
        return Err(RecordFault::OutOfOrder.into());
    }
    Ok(())
}

// The sheet of a file, or its first fault.
fn read(bytes: &[u8]) -> Result<Sheet, Fault>
    ensures { loaded result ≡ read_sheet bytes.now }
{
    let mut sheet = Sheet::blank();
    let mut rest = header(&mut sheet, bytes).map_err(|layer| layer.at(0))?;
    let mut last = None;
    loop {
        let place = bytes.len() - rest.len();
        match front(rest).map_err(|layer| layer.at(place))? {
            (Kind::End, []) => return Ok(sheet),
            (Kind::End, _) => {
                return Err(Layer::Records(RecordFault::OutOfPlace).at(place + 1));
            }
            (Kind::Load, [task, processor, a, b, c, d, after @ ..]) => {
                let pair = (*task, *processor);
                let ticks = number(*a, *b, *c, *d);
                take(&mut sheet, last, pair, ticks).map_err(|layer| layer.at(place))?;
                last = Some(pair);
                rest = after;
            }
            _ => return Err(Layer::Records(RecordFault::OutOfPlace).at(place)),
        }
    }
}

/// The sheet that a file states, or its first fault.
pub fn read_sheet(bytes: &[u8]) -> Result<Sheet, Fault>
    ensures outcome { loaded result ≡ read_sheet bytes.now }
    ensures accepts { IfOk result (λ s. bytes.now ≡ sheet_bytes (load_of s)) }
{
    read(bytes)
}

/// A law: every sheet has a file, its bytes as they are written, and reading that file gives the sheet back.
pub fn reads_back(sheet: &Sheet)
    ensures { read_sheet (sheet_bytes (load_of sheet.now)) ≡ Ok (load_of sheet.now) }
{}
