// The lines of a listing, each set in a line of the caller's: one that is handed back is copied twice.
ghost use Rattle.std.specs.Prelude.{◌≡◌, ◌≤◌};
ghost use Rattle.listings.specs.Listing.{first_line, slot_line};

use crate::pushes::{Line, push_entry, push_field, push_number};
use builder::Slot;
use sheets::Size;

pub(crate) fn set_first(line: &mut Line, size: Size, slots: usize)
    ensures { line.new.bytes ≡ first_line size.tasks size.processors size.frame slots }
{
    line.clear();
    push_field(line, "frame ", size.frame);
    push_field(line, " tasks ", size.tasks);
    push_field(line, " processors ", size.processors);
    push_field(line, " slots ", slots);
    line.push_str("\n");
}

pub(crate) fn set_slot(line: &mut Line, size: Size, slot: &Slot)
    ensures { line.new.bytes ≡ slot_line size.processors slot.now }
{
    line.clear();
    push_number(line, slot.ticks);
    for entry in &slot.row[..size.processors] {
        push_entry(line, *entry);
    }
    line.push_str("\n");
}
