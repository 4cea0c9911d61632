// What each slot is asked.
ghost use Rattle.std.specs.Prelude.{◌≡◌, ◌≤◌, length, Ok};
ghost use Rattle.templates.specs.Calls.{slot_answer, slots_answer};
ghost use Rattle.templates.specs.Rows.{row_fits};

use crate::refusals::TemplateRefusal;
use builder::Slot;
use graphs::no_entry_twice_before;
use sheets::Size;

// Whether a row names only tasks and processors of the template, and no task twice.
fn row_fits(row: &[Option<u8>], size: Size) -> bool
    ensures { result ≡ row_fits size.tasks size.processors row.now }
{
    no_entry_twice_before(row, size.tasks, size.processors)
}

// Asks one slot for its ticks, then for its pairs.
fn slot_asked(slot: &Slot, size: Size) -> Result<(), TemplateRefusal>
    ensures { result ≡ slot_answer size.tasks size.processors size.frame slot.now (Ok tt) }
{
    if slot.ticks == 0 || slot.ticks > size.frame {
        return Err(TemplateRefusal::SlotTicksOutOfRange);
    }
    if !row_fits(&slot.row, size) {
        return Err(TemplateRefusal::SlotPairsWrong);
    }
    Ok(())
}

// Asks each slot of a list that adopt has counted, in order, then whether they add up to the frame.
pub(crate) fn slots_asked(slots: &[Slot], size: Size) -> Result<(), TemplateRefusal>
    requires { length slots.now ≤ 1104 }
    ensures { result ≡ slots_answer size.tasks size.processors size.frame slots.now }
{
    let mut sum: u64 = 0;
    for slot in slots {
        slot_asked(slot, size)?;
        sum += u64::from(slot.ticks);
    }
    if sum == u64::from(size.frame) {
        Ok(())
    } else {
        Err(TemplateRefusal::SlotsDoNotAddUp)
    }
}
