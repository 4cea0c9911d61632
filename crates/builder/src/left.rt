ghost use Rattle.plans.specs.Plans.{Within};
ghost use Rattle.builder.specs.Reading.{load_from};

use crate::work::Work;

// What is left to lay of a sheet: every line fits what is left of the frame.
#[derive(Clone, Copy)]
pub(crate) struct Left {
    pub(crate) work: Work,
    ghost within: { Within (load_from work.tasks work.processors work.frame work.ticks) },
}

mod checking;
mod lasting;
mod laying;
mod marking;

pub(crate) use lasting::Laying;
