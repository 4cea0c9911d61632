ghost use Rattle.std.specs.Prelude.{◌≡◌, length};
ghost use Rattle.rehearsal.specs.Calls.{accepted};
ghost use Rattle.rehearsal.specs.Playing.{calls_of, Played, Rehearsed};
ghost use Rattle.sheets.specs.Sheets.{load_of};

use crate::answering::answer;
use crate::calls::Entry;
use builder::{BuildRefusal, Slot, build};
use pairings::PairingRule;
use sheets::Sheet;

// Each call in turn, on what the ones before left of a blank sheet and of the room.
fn play<R: PairingRule>(script: &mut [Entry], rule: &R, room: &mut [Slot]) -> Sheet
    ensures calls { calls_of script.new ≡ calls_of script.old }
    ensures load { load_of result ≡ accepted (calls_of script.old) }
    ensures played { Played (R.PairingRule.admits rule.now) script.new (length script.old) room.old room.new }
{
    let mut sheet = Sheet::blank();
    for next in script.iter_mut() {
        next.answer = Some(answer(next.call, &mut sheet, rule, room));
    }
    sheet
}

/// Plays a script on a blank sheet, writes beside each call what it answered, and then builds the sheet.
pub fn rehearse<R: PairingRule>(
    script: &mut [Entry],
    rule: &R,
    room: &mut [Slot],
) -> Result<usize, BuildRefusal>
    ensures { Rehearsed (R.PairingRule.admits rule.now) script.old script.new room.old room.new result }
{
    let sheet = play(script, rule, room);
    build(&sheet, rule, room)
}
