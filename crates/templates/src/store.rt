// Room for 1,104 slots, of which the first `count` are in use. A template is `Copy`, which a growing list of the kit is not.
ghost use Rattle.std.specs.Prelude.{◌≤◌};

use builder::Slot;

pub(crate) const ROOM: usize = 1_104;

// A type of its own: lending a part of a struct that has a ghost field is not covered by the borrow checker.
#[derive(Clone, Copy)]
struct Room {
    slots: [Slot; ROOM],
}

#[derive(Clone, Copy)]
pub(crate) struct Store {
    room: Room,
    count: usize,
    ghost few: { count ≤ 1104 },
}

impl Room {
    ghost use Rattle.std.specs.Prelude.{◌≡◌, length, take};

    // Writes these slots to the front; adopt has counted them.
    fn write(&mut self, slots: &[Slot])
        requires { length slots.now ≤ 1104 }
        ensures { take (length slots.now) self.new.slots ≡ slots.now }
    {
        self.slots[..slots.len()].copy_from_slice(slots);
    }
}

impl Store {
    ghost use Rattle.std.specs.Prelude.{◌≡◌, [], ◌∷◌, length};
    ghost use Rattle.templates.specs.Layouts.{idle_slot};
    ghost use Rattle.templates.specs.Stores.{held};

    // One idle slot of one tick.
    pub(crate) fn idle() -> Store
        ensures { held result ≡ idle_slot 1 ∷ [] }
    {
        let idle = Slot {
            ticks: 1,
            row: [None; 16],
        };
        Store {
            room: Room {
                slots: [idle; ROOM],
            },
            count: 1,
        }
    }

    // Takes these slots in place of the ones before.
    pub(crate) fn replace(&mut self, slots: &[Slot])
        requires { length slots.now ≤ 1104 }
        ensures { held self.new ≡ slots.now }
    {
        self.count = slots.len();
        self.room.write(slots);
    }

    // The slots in use.
    pub(crate) fn all(&self) -> &[Slot]
        ensures { result.now ≡ held self.now }
    {
        &self.room.slots[..self.count]
    }
}
