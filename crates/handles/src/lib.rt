// The eight handles, by number, and the roles that their modes give them.
#![tactic(auto)]

ghost use Rattle.std.specs.Prelude.{◌≤◌, ◌≡◌, length, get_or, set, replicate};
ghost use Rattle.lists.specs.Places.{first, without};
ghost use Rattle.rules.specs.State.{closed_handle};
ghost use Rattle.handles.specs.Roles.{handles_of, is_closed, roles_of};

pub mod mode;

use handle::Handle;

// A number that no handle has.
const NO_HANDLE: u8 = 8;

#[repr(C)]
#[derive(Clone, Copy)]
pub struct Handles {
    slots: [Handle; 8],
}

// Which roles are held.
#[derive(Clone, Copy)]
pub struct Roles {
    pub exclusive_initiator: bool,
    pub exclusive_follower: bool,
    pub passthrough: bool,
    pub follower: bool,
}

pub fn closed() -> Handle
    ensures { result ≡ closed_handle }
{
    Handle {
        is_open: false,
        privileged: false,
        mode: 0,
        lost: 0,
    }
}

impl Handles {
    pub fn all_closed() -> Handles
        ensures { handles_of result ≡ replicate 8 closed_handle }
    {
        Handles {
            slots: [closed(); 8],
        }
    }

    pub fn count(self) -> u8
        ensures { result ≡ length (handles_of self) }
    {
        8
    }

    // The handle of a number; that of a number over 7 is a closed one.
    pub fn at(self, handle: u8) -> Handle
        ensures { result ≡ get_or (handles_of self) handle closed_handle }
    {
        self.slots.get(handle as usize).copied().unwrap_or(closed())
    }

    // With another handle at a number; a number over 7 changes nothing.
    pub fn with(mut self, handle: u8, now: Handle) -> Handles
        ensures { handles_of result ≡ set (handles_of self) handle now }
    {
        let h = handle as usize;
        if h < 8 {
            self.slots[h] = now;
        }
        self
    }

    // The lowest closed number; 8 where there is none.
    pub fn lowest_closed(self) -> u8
        ensures value { result ≡ first is_closed (handles_of self) }
        ensures upper_bound { result ≤ 8 }
    {
        for (i, slot) in self.slots.iter().enumerate() {
            if !slot.is_open {
                return i as u8;
            }
        }
        NO_HANDLE
    }

    // Which roles all handles but one hold.
    pub fn roles_of_others(self, handle: u8) -> Roles
        ensures { result ≡ roles_of (without handle (handles_of self)) }
    {
        let h = handle as usize;
        let mut exclusive_initiator = false;
        let mut exclusive_follower = false;
        let mut passthrough = false;
        let mut follower = false;
        for (i, slot) in self.slots.iter().enumerate() {
            let other = i != h;
            exclusive_initiator |= other & slot.is_open & mode::is_exclusive_initiator(slot.mode);
            exclusive_follower |= other & slot.is_open & mode::is_exclusive_follower(slot.mode);
            passthrough |= other & slot.is_open & mode::is_passthrough(slot.mode);
            follower |= other & slot.is_open & mode::is_follower(slot.mode);
        }
        Roles {
            exclusive_initiator,
            exclusive_follower,
            passthrough,
            follower,
        }
    }

    // Which roles the handles hold.
    pub fn roles(self) -> Roles
        ensures { result ≡ roles_of (handles_of self) }
    {
        self.roles_of_others(NO_HANDLE)
    }
}
