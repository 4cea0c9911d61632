// The calls on a template. Adopting goes through its questions in order.
ghost use Rattle.std.specs.Prelude.{◌≡◌};
ghost use Rattle.templates.specs.Calls.{adopt_answer, after_adopt};
ghost use Rattle.templates.specs.Layouts.{blank};
ghost use Rattle.templates.specs.Templates.{layout_of};

use crate::questions::slots_asked;
use crate::refusals::TemplateRefusal;
use crate::store::{ROOM, Store};
use crate::template::Template;
use builder::Slot;
use sheets::Size;

impl Template {
    /// One task, one processor, a frame of one tick, in which the processor is idle.
    pub fn blank() -> Template
        ensures { layout_of result ≡ blank }
    {
        // As a blank sheet's, and written out: three numbers are plainer than a name for them.
        Template {
            size: Size {
                tasks: 1,
                processors: 1,
                frame: 1,
            },
            store: Store::idle(),
        }
    }

    /// Replaces the whole template. A refusal changes nothing.
    pub fn adopt(
        &mut self,
        tasks: usize,
        processors: usize,
        frame: u32,
        slots: &[Slot],
    ) -> Result<(), TemplateRefusal>
        ensures answer { result ≡ adopt_answer tasks processors frame slots.now }
        ensures state { layout_of self.new ≡ after_adopt (layout_of self.old) tasks processors frame slots.now }
    {
        let size = Size::new(tasks, processors, frame)?;
        if slots.len() > ROOM {
            return Err(TemplateRefusal::TooManySlots);
        }
        slots_asked(slots, size)?;
        self.size = size;
        self.store.replace(slots);
        Ok(())
    }
}
