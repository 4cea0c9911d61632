// From a sheet file to a template: read it, build by the first rule by number, adopt what was built.
#![tactic(auto)]

ghost use Rattle.drafts.specs.Drafts.{Drafted, DraftListed};
ghost use Rattle.templates.specs.Templates.{layout_of};

use builder::{Slot, build_default};
use listings::{ListRefusal, Listable, Refusal};
use planfiles::read_sheet;
use templates::Template;

/// Fills the template from a sheet file, with the room to build in. A refusal changes neither.
pub fn draft(file: &[u8], room: &mut [Slot], template: &mut Template) -> Result<(), Refusal>
    ensures { Drafted file.now room.old room.new (layout_of template.old) (layout_of template.new) result }
{
    let sheet = read_sheet(file)?;
    let count = build_default(&sheet, room)?;
    template.adopt(
        sheet.tasks(),
        sheet.processors(),
        sheet.frame(),
        &room[..count],
    )?;
    Ok(())
}

/// Drafts the template of a sheet file and lists it, or why there is none.
pub fn list_draft(
    file: &[u8],
    room: &mut [Slot],
    template: &mut Template,
    output: &mut [u8],
) -> Result<usize, ListRefusal>
    ensures { DraftListed file.now room.old room.new (layout_of template.old) (layout_of template.new) output.old output.new result }
{
    match draft(file, room, template) {
        Ok(()) => template.list(output),
        Err(refusal) => refusal.list(output),
    }
}
