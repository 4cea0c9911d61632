ghost use Rattle.std.specs.Prelude.{◌≡◌, MatchResult};
ghost use Rattle.sheets.specs.Sheets.{load_of};
ghost use Rattle.builder.specs.Lefts.{left_of};
ghost use Rattle.builder.specs.Lines.{Over};

use crate::axes::Lines;
use crate::left::Left;
use crate::lines::Line;
use crate::work::Work;
use sheets::Sheet;

impl Left {
    // All of a sheet, unless a line passes the frame: the lowest task, else the lowest processor.
    pub(crate) fn of(sheet: &Sheet) -> Result<Left, Line>
        ensures { MatchResult result (λ left. left_of left ≡ load_of sheet.now) (λ line. Over (load_of sheet.now) line) }
    {
        let work = Work {
            tasks: sheet.tasks(),
            processors: sheet.processors(),
            frame: sheet.frame(),
            ticks: sheet.lines(),
        };
        if let Some(task) = work.first_over() {
            return Err(Line::Task(task));
        }
        if let Some(processor) = work.across().first_over() {
            return Err(Line::Processor(processor));
        }
        Ok(Left { work })
    }
}
