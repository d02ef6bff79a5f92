// The wire: at most one transmission.
#![tactic(auto)]

ghost use Rattle.std.specs.Prelude.{◌≤◌, ◌≡◌, [], map, length, drop};
ghost use Rattle.lists.specs.Sums.{any};
ghost use Rattle.lists.specs.Vector.{put};
ghost use Rattle.transmission.specs.Transmission.{head_of, owed_by, numbered, orphaned};
ghost use Rattle.wire.specs.Wire.{wire_of};

use transmission::{Owed, Transmission};

#[repr(C)]
#[derive(Clone, Copy)]
pub struct Wire {
    busy: bool,
    slot: Transmission,
}

impl Wire {
    pub fn idle() -> Wire
        ensures { wire_of result ≡ [] }
    {
        Wire {
            busy: false,
            slot: Transmission::none(),
        }
    }

    pub fn count(self) -> usize
        ensures value { result ≡ length (wire_of self) }
        ensures upper_bound { result ≤ 1 }
    {
        usize::from(self.busy)
    }

    // Taken by a transmission; a busy wire stays.
    pub fn put(mut self, transmission: Transmission) -> Wire
        ensures { wire_of result ≡ put 1 (wire_of self) transmission }
    {
        if self.busy {
            return self;
        }
        self.busy = true;
        self.slot = transmission;
        self
    }

    // The transmission, or none.
    pub fn head(self) -> Transmission
        ensures { result ≡ head_of (wire_of self) }
    {
        if self.busy {
            self.slot
        } else {
            Transmission::none()
        }
    }

    pub fn without_head(mut self) -> Wire
        ensures { wire_of result ≡ drop 1 (wire_of self) }
    {
        self.busy = false;
        self
    }

    pub fn owed(self, handle: u8) -> Owed
        ensures value { result ≡ owed_by handle (wire_of self) }
        ensures room_bound { result.room ≤ 2 }
        ensures replies_bound { result.replies ≤ 1 }
    {
        if self.busy {
            self.slot.owed(handle)
        } else {
            Owed::default()
        }
    }

    pub fn has_sequence(self, sequence: u32) -> bool
        ensures { result ≡ any (numbered sequence) (wire_of self) }
    {
        self.busy & (self.slot.sequence == sequence)
    }

    // What a close of the handle leaves.
    pub fn orphaned(mut self, handle: u8) -> Wire
        ensures { wire_of result ≡ map (orphaned handle) (wire_of self) }
    {
        self.slot = self.slot.orphaned(handle);
        self
    }
}
