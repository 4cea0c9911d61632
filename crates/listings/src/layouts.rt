// Lines laid one after another in the caller's output; the later places are left as they are.
ghost use Rattle.std.specs.Prelude.{◌≡◌, ◌+◌, ◌≤◌, length};
ghost use Rattle.arrayvec.specs.ArrayString.{array_string_len};
ghost use Rattle.listings.specs.Lines.{put_at};
ghost use Rattle.listings.specs.Listing.{Listed, slot_line, slots_text};
ghost use Rattle.listings.specs.Refusing.{layout_text};
ghost use Rattle.templates.specs.Templates.{layout_of};

use crate::pushes::Line;
use crate::texts::{set_first, set_slot};
use builder::Slot;
use sheets::Size;
use templates::Template;

// Puts a line at a place that has room for it. Answers the place after it.
fn write_line(line: &Line, output: &mut [u8], place: usize) -> usize
    requires { place + array_string_len line.now ≤ length output.old }
    ensures end { result ≡ place + array_string_len line.now }
    ensures put { output.new ≡ put_at place line.now.bytes output.old }
{
    let end = place + line.len();
    output[place..end].copy_from_slice(line.as_bytes());
    end
}

// A slot's line at its longest: ten digits of ticks, sixteen processors with a blank and two digits each, and the line's end.
const LONGEST: usize = 59;

fn slot_length(size: Size, slot: &Slot) -> usize
    ensures value { result ≡ length (slot_line size.processors slot.now) }
    ensures fits { result ≤ 128 }
{
    let mut line = Line::new();
    set_slot(&mut line, size, slot);
    line.len()
}

// How long the lines of the slots are. Each line is made here for its length and made again to be written: a refusal leaves
// the output as it was, so the length comes first, and no buffer holds a whole listing.
#[tactic(auto, using(crate::proofs::Places::slots_long))]
fn slots_length(size: Size, slots: &[Slot]) -> usize
    requires { length slots.now ≤ 1104 }
    ensures { result ≡ length (slots_text size.processors slots.now) }
{
    slots.iter().map(|slot| slot_length(size, slot)).sum()
}

// One line, where the output has room for it.
pub(crate) fn list_line(line: &Line, output: &mut [u8]) -> Option<usize>
    ensures { Listed line.now.bytes output.old output.new result }
{
    if output.len() < line.len() {
        return None;
    }
    Some(write_line(line, output, 0))
}

// The first line and a line for each slot, where the output has room for all of them.
pub(crate) fn list_template(template: &Template, output: &mut [u8]) -> Option<usize>
    ensures { Listed (layout_text (layout_of template.now)) output.old output.new result }
{
    let size = template.size();
    let slots = template.slots();
    let mut line = Line::new();
    set_first(&mut line, size, slots.len());
    let room = output.len().checked_sub(line.len())?;
    // Most outputs have room for lines of any length, and then none has to be measured.
    if room < LONGEST * slots.len() && room < slots_length(size, slots) {
        return None;
    }
    let mut end = write_line(&line, output, 0);
    for slot in slots {
        set_slot(&mut line, size, slot);
        end = write_line(&line, output, end);
    }
    Some(end)
}
