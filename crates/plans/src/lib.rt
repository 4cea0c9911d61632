// Which loads have a plan, and which graphs a cover: statements in specs/, proofs in proofs/.
#![tactic(auto)]

ghost use Rattle.plans.specs.Covers.{CoversStand, LoadsCovered, TwoForOne};
ghost use Rattle.plans.specs.Plans.{PlansStand};

/// A load has a unit plan exactly when every line fits the frame.
pub fn plannable_exactly_when_within()
    ensures { PlansStand }
{}

/// A graph has a cover of its marked nodes or a deficient set of them, and never both.
pub fn cover_or_deficient_set()
    ensures { CoversStand }
{}

/// While every line fits what is left of the frame, the pairs with ticks left have a cover of the lines without slack.
pub fn every_slot_has_a_cover()
    ensures { LoadsCovered }
{}

/// Two marked tasks whose only edges lead to processor 0 have no cover.
pub fn two_tasks_for_one_processor_have_no_cover()
    ensures { TwoForOne }
{}
