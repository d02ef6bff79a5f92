// The routing tracker: the active address after a message from the wire.
#![tactic(auto)]

ghost use Rattle.std.specs.Prelude.{◌≡◌};
ghost use Rattle.rules.specs.Tracker.{is_of, names_active, named_address, sets_active, clears_active, tracked};

use constants::{
    CEC_LOG_ADDR_BROADCAST, CEC_MSG_ACTIVE_SOURCE, CEC_MSG_INACTIVE_SOURCE, CEC_MSG_ROUTING_CHANGE,
    CEC_MSG_SET_STREAM_PATH, CEC_PHYS_ADDR_INVALID,
};
use message::Message;
use route::address::is_well_formed;

fn is_of(message: Message, opcode: u8, length: u8) -> bool
    ensures { result ≡ is_of opcode length message }
{
    (message.opcode() == opcode) & (message.length() == length)
}

// Whether a message names the address that is active now.
fn names_active(message: Message) -> bool
    ensures { result ≡ names_active message }
{
    is_of(message, CEC_MSG_ACTIVE_SOURCE, 4)
        | is_of(message, CEC_MSG_ROUTING_CHANGE, 6)
        | is_of(message, CEC_MSG_SET_STREAM_PATH, 4)
}

// The second address of a routing change, else the first.
fn named_address(message: Message) -> u16
    ensures { result ≡ named_address message }
{
    if message.opcode() == CEC_MSG_ROUTING_CHANGE {
        message.second_address()
    } else {
        message.first_address()
    }
}

fn sets_active(message: Message) -> bool
    ensures { result ≡ sets_active message }
{
    names_active(message)
        & (message.destination() == CEC_LOG_ADDR_BROADCAST)
        & is_well_formed(named_address(message))
}

fn clears_active(active: u16, message: Message) -> bool
    ensures { result ≡ clears_active active message }
{
    is_of(message, CEC_MSG_INACTIVE_SOURCE, 4) & (message.first_address() == active)
}

// The active address after a message that is heard.
#[tactic(auto, unfolding(rules::specs::Tracker::tracked))]
pub fn tracked(active: u16, message: Message) -> u16
    ensures { result ≡ tracked active message }
{
    if sets_active(message) {
        return named_address(message);
    }
    if clears_active(active, message) {
        CEC_PHYS_ADDR_INVALID
    } else {
        active
    }
}
