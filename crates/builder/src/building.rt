ghost use Rattle.std.specs.Prelude.{◌≡◌, ◌≤◌, MatchOption, length};
ghost use Rattle.preferences.specs.Numbers.{first_by_number};
ghost use Rattle.sheets.specs.Loads.{places_needed};
ghost use Rattle.sheets.specs.Sheets.{load_of};
ghost use Rattle.builder.specs.Answers.{LaidOut, BuildAnswer, Exact};
ghost use Rattle.builder.specs.Building.{Next};
ghost use Rattle.builder.specs.Lefts.{left_of};

use crate::left::{Laying, Left};
use crate::refusals::BuildRefusal;
use crate::slots::Slot;
use pairings::{Pairing, PairingRule};
use preferences::{ByNumber, FirstRule};
use sheets::Sheet;

// The slot that the rule gives after a pairing, which it replaces; none once the frame is laid.
fn next_slot<R: PairingRule>(left: &Left, rule: &R, pairing: &mut Pairing) -> Option<Slot>
    ensures { MatchOption result ((left_of left.now).frame ≡ 0) (λ slot. Next (R.PairingRule.admits rule.now) (left_of left.now) pairing.old.row slot × (pairing.new.row ≡ slot.row)) }
{
    if left.work.frame == 0 {
        return None;
    }
    let marks = left.marks();
    let Some(next) = rule.choose(&left.work, &marks, pairing) else {
        // While the lines fit what is left of the frame, there is always a cover.
        unreachable!()
    };
    *pairing = next;
    let row = pairing.row();
    let ticks = Laying { left, row: &row }.longest();
    Some(Slot { ticks, row })
}

// Lays all of what is left into the room, and says how many slots that took.
fn lay<R: PairingRule>(left: &mut Left, rule: &R, room: &mut [Slot]) -> usize
    requires { places_needed (left_of left.old) ≤ length room.old }
    ensures { LaidOut (R.PairingRule.admits rule.now) (left_of left.old) room.old room.new result }
{
    let mut pairing = Pairing::idle();
    for (count, place) in room.iter_mut().enumerate() {
        let Some(slot) = next_slot(left, rule, &mut pairing) else {
            return count;
        };
        left.subtract(&slot.row, slot.ticks);
        *place = slot;
    }
    room.len()
}

// A count beside the room and no part of it: the call is public, and the room is the caller's.
/// Writes slots that plan the sheet's load into the first places of the room, and says how many. A refusal leaves the room as it was.
pub fn build<R: PairingRule>(
    sheet: &Sheet,
    rule: &R,
    room: &mut [Slot],
) -> Result<usize, BuildRefusal>
    ensures answer { BuildAnswer (R.PairingRule.admits rule.now) (load_of sheet.now) room.old room.new result }
    ensures exact { Exact (load_of sheet.now) room.old result }
{
    let mut left = Left::of(sheet).map_err(BuildRefusal::NoPlan)?;
    if room.len() < left.work.places_needed() {
        return Err(BuildRefusal::NoRoom);
    }
    Ok(lay(&mut left, rule, room))
}

/// Builds by the first rule by number, which stands in where no rule is named.
pub fn build_default(sheet: &Sheet, room: &mut [Slot]) -> Result<usize, BuildRefusal>
    ensures answer { BuildAnswer first_by_number (load_of sheet.now) room.old room.new result }
    ensures exact { Exact (load_of sheet.now) room.old result }
{
    let rule = FirstRule {
        preference: ByNumber,
    };
    build(sheet, &rule, room)
}
