ghost use Rattle.std.specs.Prelude.{◌≡◌};
ghost use Rattle.rehearsal.specs.Calls.{after, AnsweredCall};
ghost use Rattle.sheets.specs.Sheets.{load_of};

use crate::calls::{CallAnswer, SheetCall};
use builder::{Slot, build};
use pairings::PairingRule;
use sheets::Sheet;

// Makes one call on the sheet; a build is by the rule, into the room.
pub(crate) fn answer<R: PairingRule>(
    call: SheetCall,
    sheet: &mut Sheet,
    rule: &R,
    room: &mut [Slot],
) -> CallAnswer
    ensures load { load_of sheet.new ≡ after (load_of sheet.old) call }
    ensures answer { AnsweredCall (R.PairingRule.admits rule.now) (load_of sheet.old) call room.old room.new result }
{
    // A match, since a script's calls are data, which the law on scripts reads; closures would hide them.
    match call {
        SheetCall::Open {
            tasks,
            processors,
            frame,
        } => sheet.open(tasks, processors, frame)?,
        SheetCall::Set {
            task,
            processor,
            ticks,
        } => sheet.set(task, processor, ticks)?,
        SheetCall::Withdraw { task } => sheet.withdraw(task)?,
        SheetCall::Reframe { frame } => sheet.reframe(frame)?,
        SheetCall::Build => return Ok(Some(build(sheet, rule, room)?)),
    }
    Ok(None)
}
