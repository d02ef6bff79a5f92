// A message to send: the checks in their order, and the queue.
#![tactic(auto)]

ghost use Rattle.std.specs.Prelude.{◌≤◌, ◌≡◌, IfErr};
ghost use Rattle.parts.specs.Parts.{state_of, errno_of};
ghost use Rattle.request.specs.Request.{request_of};
ghost use Rattle.rules.specs.Transmit.{is_misaddressed, is_self_poll, is_full, sender_refusal, request_refusal, transmit_refusal, transmission_of, new_room, do_transmit};
ghost use Rattle.transmit.specs.Transmitted.{transmitted_of};

use constants::{
    CEC_LOG_ADDR_UNREGISTERED, CEC_MODE_NO_INITIATOR, CEC_MSG_FL_REPLY_TO_FOLLOWERS,
    CEC_TX_STATUS_NACK, Errno,
};
use handles::mode::{initiator_part, is_exclusive_follower};
use parts::Parts;
use request::Request;
use transmission::Transmission;

// The sequence number and tx_status.
#[derive(Clone, Copy)]
pub struct Transmitted {
    pub sequence: u32,
    pub tx_status: u8,
}

fn is_misaddressed(parts: &Parts, request: Request) -> bool
    ensures { result ≡ is_misaddressed (state_of parts.now) (request_of request) }
{
    let from = request.initiator();
    !((from == CEC_LOG_ADDR_UNREGISTERED) | parts.is_own(from))
        | (2 <= request.length) & parts.is_own(request.destination())
}

fn is_self_poll(parts: &Parts, request: Request) -> bool
    ensures { result ≡ is_self_poll (state_of parts.now) (request_of request) }
{
    request.is_poll() & parts.is_own(request.destination())
}

// Room for a result, and for a reply.
fn new_room(request: Request) -> usize
    ensures value { result ≡ new_room (request_of request) }
    ensures upper_bound { result ≤ 2 }
{
    if request.wants_reply() { 2 } else { 1 }
}

fn is_full(parts: &Parts, handle: u8, request: Request) -> bool
    ensures { result ≡ is_full (state_of parts.now) handle (request_of request) }
{
    let owed = traffic::owed(parts.queue, parts.wire, parts.waits, handle);
    (18 <= parts.queue.count())
        | request.wants_reply() & (4 <= owed.replies)
        | (16 < parts.count(handle) + owed.room + new_room(request))
}

// Checks 1 and 2: whether the handle may transmit.
fn sender_check(parts: &Parts, handle: u8) -> Result<(), Errno>
    ensures { errno_of result ≡ sender_refusal (state_of parts.now) handle 0 }
{
    let handles = parts.handles;
    let own = handles.at(handle);
    if !own.is_open {
        return Err(Errno::EBADF);
    }
    if !parts.can_transmit {
        return Err(Errno::ENOTTY);
    }
    if initiator_part(own.mode) == CEC_MODE_NO_INITIATOR {
        return Err(Errno::EPERM);
    }
    if handles.roles_of_others(handle).exclusive_initiator & !is_exclusive_follower(own.mode) {
        return Err(Errno::EBUSY);
    }
    Ok(())
}

// Checks 3 to 6: whether the request may be sent.
fn request_check(parts: &Parts, request: Request) -> Result<(), Errno>
    ensures { errno_of result ≡ request_refusal (state_of parts.now) (request_of request) 0 }
{
    if request.is_malformed() {
        return Err(Errno::EINVAL);
    }
    if request.is_poll_invalid() {
        return Err(Errno::EINVAL);
    }
    let configured = parts.is_configured();
    if !configured & !request.is_wake_up() {
        return Err(Errno::ENONET);
    }
    if !configured & request.wants_reply() {
        return Err(Errno::EINVAL);
    }
    if configured & is_misaddressed(parts, request) {
        return Err(Errno::EINVAL);
    }
    Ok(())
}

// The checks in their order. A poll to an own address, 7, needs no room, 8.
fn check(parts: &Parts, handle: u8, request: Request) -> Result<(), Errno>
    ensures { errno_of result ≡ transmit_refusal (state_of parts.now) handle (request_of request) }
{
    sender_check(parts, handle)?;
    request_check(parts, request)?;
    if !is_self_poll(parts, request) & is_full(parts, handle, request) {
        return Err(Errno::EBUSY);
    }
    Ok(())
}

fn transmission(sequence: u32, handle: u8, request: Request) -> Transmission
    ensures { result ≡ transmission_of sequence handle (request_of request) }
{
    Transmission {
        sequence,
        owner: handle,
        wants_reply: request.wants_reply(),
        reply: request.reply,
        timeout: request.timeout_ms(),
        to_followers: request.flags == CEC_MSG_FL_REPLY_TO_FOLLOWERS,
        message: request.message(),
    }
}

// The number and tx_status, or the refusal, which leaves the parts as they were.
pub fn transmit(parts: &mut Parts, handle: u8, request: Request) -> Result<Transmitted, Errno>
    ensures value { transmitted_of (state_of parts.new) result ≡ do_transmit (state_of parts.old) handle (request_of request) }
    ensures refused { IfErr result (λ errno. parts.new ≡ parts.old) }
{
    check(parts, handle, request)?;
    let sequence = traffic::next_sequence(parts.queue, parts.wire, parts.waits, parts.last);
    parts.last = sequence;
    if is_self_poll(parts, request) {
        return Ok(Transmitted {
            sequence,
            tx_status: CEC_TX_STATUS_NACK,
        });
    }
    parts.queue = parts.queue.put(transmission(sequence, handle, request));
    Ok(Transmitted {
        sequence,
        tx_status: 0,
    })
}
