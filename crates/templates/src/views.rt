// What a template answers about itself.
ghost use Rattle.std.specs.Prelude.{◌≡◌};
ghost use Rattle.templates.specs.Templates.{layout_of};

use crate::template::Template;
use builder::Slot;
use sheets::Size;

impl Template {
    /// How many tasks and processors its slots may name, and the ticks of all slots together.
    pub fn size(&self) -> Size
        ensures { result ≡ self.now.size }
    {
        self.size
    }

    // The three numbers by name, too, a line each: a trait for sheets and templates would make a call longer.
    /// How many tasks its slots may name.
    pub fn tasks(&self) -> usize
        ensures { result ≡ (layout_of self.now).tasks }
    {
        self.size.tasks
    }

    /// How many processors its slots may name.
    pub fn processors(&self) -> usize
        ensures { result ≡ (layout_of self.now).processors }
    {
        self.size.processors
    }

    /// The ticks of all slots together.
    pub fn frame(&self) -> u32
        ensures { result ≡ (layout_of self.now).frame }
    {
        self.size.frame
    }

    /// The slots, in the order of the frame.
    pub fn slots(&self) -> &[Slot]
        ensures { result.now ≡ (layout_of self.now).slots }
    {
        self.store.all()
    }
}
