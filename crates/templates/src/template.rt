ghost use Rattle.templates.specs.Layouts.{laid, Sound};
ghost use Rattle.templates.specs.Stores.{held};

use crate::store::Store;
use sheets::Size;

/// A frame of slots: in each, for each processor, the task that it has, or none.
#[derive(Clone, Copy)]
pub struct Template {
    pub(crate) size: Size,
    pub(crate) store: Store,
    ghost sound: { ∥ Sound (laid size.tasks size.processors size.frame (held store)) ∥₁ },
}
