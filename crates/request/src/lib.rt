// What a transmit is asked for, and the checks that look at nothing else.
#![tactic(auto)]

ghost use Rattle.std.specs.Prelude.{◌≡◌, get_or};
ghost use Rattle.rules.specs.Transmit.{request_message, from, to, wants_reply, is_poll, is_malformed, is_poll_invalid, is_wake_up, timeout_of};
ghost use Rattle.request.specs.Request.{request_of};

use constants::{
    CEC_LOG_ADDR_BROADCAST, CEC_LOG_ADDR_UNREGISTERED, CEC_MSG_FL_REPLY_TO_FOLLOWERS,
    CEC_MSG_IMAGE_VIEW_ON, CEC_MSG_TEXT_VIEW_ON,
};
use message::Message;

#[repr(C)]
#[derive(Clone, Copy)]
pub struct Request {
    pub length: u8,
    pub bytes: [u8; 16],
    pub reply: u8,
    pub timeout: u32,
    pub flags: u32,
}

impl Request {
    // What would be sent.
    pub fn message(self) -> Message
        ensures { result ≡ request_message (request_of self) }
    {
        let bytes = self.bytes;
        Message::new(self.length, bytes)
    }

    // The byte at a place of what would be sent, 0 past the length.
    fn sent_byte(self, i: usize) -> u8
        ensures { result ≡ get_or (request_message (request_of self)).bytes i 0 }
    {
        if self.length as usize <= i {
            return 0;
        }
        if 16 <= i {
            return 0;
        }
        self.bytes[i]
    }

    pub fn initiator(self) -> u8
        ensures { result ≡ from (request_of self) }
    {
        self.sent_byte(0) / 16
    }

    pub fn destination(self) -> u8
        ensures { result ≡ to (request_of self) }
    {
        self.sent_byte(0) % 16
    }

    pub fn wants_reply(self) -> bool
        ensures { result ≡ wants_reply (request_of self) }
    {
        (self.reply != 0) | (self.timeout != 0)
    }

    pub fn is_poll(self) -> bool
        ensures { result ≡ is_poll (request_of self) }
    {
        self.length == 1
    }

    pub fn is_malformed(self) -> bool
        ensures { result ≡ is_malformed (request_of self) }
    {
        !((1 <= self.length) & (self.length <= 16)) | (CEC_MSG_FL_REPLY_TO_FOLLOWERS < self.flags)
    }

    pub fn is_poll_invalid(self) -> bool
        ensures { result ≡ is_poll_invalid (request_of self) }
    {
        self.is_poll() & ((self.destination() == CEC_LOG_ADDR_BROADCAST) | self.wants_reply())
    }

    pub fn is_wake_up(self) -> bool
        ensures { result ≡ is_wake_up (request_of self) }
    {
        let code = self.sent_byte(1);
        (self.initiator() == CEC_LOG_ADDR_UNREGISTERED)
            & (self.destination() == 0)
            & (self.is_poll() | (code == CEC_MSG_IMAGE_VIEW_ON) | (code == CEC_MSG_TEXT_VIEW_ON))
    }

    // The timeout in milliseconds: one second for 0, if a reply is wanted.
    pub fn timeout_ms(self) -> u32
        ensures { result ≡ timeout_of (request_of self) }
    {
        if self.wants_reply() & (self.timeout == 0) {
            1000
        } else {
            self.timeout
        }
    }
}
