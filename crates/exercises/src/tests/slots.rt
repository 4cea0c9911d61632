use builder::Slot;
use std::array;

// A slot with these tasks on the first processors, the others idle.
pub(crate) fn slot(ticks: u32, tasks: &[Option<u8>]) -> Slot {
    Slot {
        ticks,
        row: array::from_fn(|processor| tasks.get(processor).copied().flatten()),
    }
}
