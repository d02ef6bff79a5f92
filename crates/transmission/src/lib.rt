// A message to send, and who is owed what for it.
#![tactic(auto)]

ghost use Rattle.std.specs.Prelude.{◌≤◌, ◌≡◌};
ghost use Rattle.transmission.specs.Transmission.{ownerless, no_transmission, orphaned, owed_for};

use message::Message;

// An owner over 7 is none; this number stands for it.
pub const NO_OWNER: u8 = 255;

#[repr(C)]
#[derive(Clone, Copy)]
pub struct Transmission {
    pub sequence: u32,
    pub owner: u8,
    pub wants_reply: bool,
    pub reply: u8,
    pub timeout: u32,
    pub to_followers: bool,
    pub message: Message,
}

// What is owed to a handle: room in its inbox, and replies that it wants.
#[derive(Clone, Copy, Default)]
pub struct Owed {
    pub room: usize,
    pub replies: usize,
}

impl Transmission {
    // Without owner or reply, number 0.
    pub fn ownerless(message: Message) -> Transmission
        ensures { result ≡ ownerless message }
    {
        Transmission {
            sequence: 0,
            owner: NO_OWNER,
            wants_reply: false,
            reply: 0,
            timeout: 0,
            to_followers: false,
            message,
        }
    }

    // Where there is none: an ownerless empty message.
    pub fn none() -> Transmission
        ensures { result ≡ no_transmission }
    {
        Transmission::ownerless(Message::new(0, [0; 16]))
    }

    // What a close of the handle leaves of it.
    pub fn orphaned(self, handle: u8) -> Transmission
        ensures { result ≡ orphaned handle self }
    {
        if self.owner == handle {
            Transmission::ownerless(self.message)
        } else {
            self
        }
    }

    // What is owed to the handle: room for 1 entry, and 1 more if a reply is wanted.
    pub fn owed(self, handle: u8) -> Owed
        ensures value { result ≡ owed_for handle self }
        ensures room_bound { result.room ≤ 2 }
        ensures replies_bound { result.replies ≤ 1 }
    {
        if self.owner != handle {
            Owed::default()
        } else if self.wants_reply {
            Owed {
                room: 2,
                replies: 1,
            }
        } else {
            Owed {
                room: 1,
                replies: 0,
            }
        }
    }
}
