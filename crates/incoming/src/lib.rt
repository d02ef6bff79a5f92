// A message from the wire, in six steps, for the tracker and for the clock.
#![tactic(auto)]

ghost use Rattle.std.specs.Prelude.{◌≡◌, IfErr};
ghost use Rattle.copies.specs.Kinds.{gets_copies};
ghost use Rattle.parts.specs.Parts.{state_of, errno_of, unit_outcome};
ghost use Rattle.rules.specs.Deliver.{copies};
ghost use Rattle.rules.specs.Handles.{in_role, is_here};
ghost use Rattle.rules.specs.Incoming.{incoming_refusal};
ghost use Rattle.rules.specs.Tracker.{active_after_message, do_message};
ghost use Rattle.incoming.specs.Steps.{monitor_kind, follower_kind, goes_on};
ghost use Rattle.incoming.specs.Ending.{ended_by, to_followers};
ghost use Rattle.incoming.specs.Work.{arrival_of, to_do_of};
ghost use Rattle.waits.specs.Waits.{waits_of};

mod step;

use constants::{CEC_LOG_ADDR_BROADCAST, Errno};
use copies::Receivers;
use entry::Entry;
use message::Message;
use message::reply::Rule;
use parts::{Parts, check_time};
use transmission::Transmission;
use wait::Wait;
use waits::Waits;

// What a message does before the later steps: which monitors get a copy, and the active address afterwards.
#[derive(Clone, Copy)]
struct Arrival {
    monitors: Option<Receivers>,
    active: u16,
}

// A wait that a message ends: its place, the wait, and the rule by which the message is the reply.
#[derive(Clone, Copy)]
struct Ended {
    place: usize,
    wait: Wait,
    rule: Rule,
}

// What is to be done in steps 3 to 6: which wait ends with a reply, whether an address is noted, what the core sends, and who gets copies.
#[derive(Clone, Copy)]
struct ToDo {
    ended: Option<Ended>,
    notes: bool,
    sends: Option<Message>,
    followers: Option<Receivers>,
}

#[tactic(auto, unfolding(rules::specs::Call::check))]
fn check(clock: u64, length: u8, ts: u64) -> Result<(), Errno>
    ensures { errno_of result ≡ incoming_refusal clock length ts }
{
    if length < 1 || 16 < length {
        return Err(Errno::EINVAL);
    }
    check_time(clock, ts)
}

fn is_here(parts: &Parts, address: u8) -> bool
    ensures { result ≡ is_here (state_of parts.now) address }
{
    (address == CEC_LOG_ADDR_BROADCAST) | parts.is_own(address)
}

// Which monitors see a message: all of them if it goes to 15 or an own address.
fn monitor_kind(here: bool) -> Receivers
    ensures { result ≡ monitor_kind here }
{
    if here {
        Receivers::Monitors
    } else {
        Receivers::MonitorsOfAll
    }
}

// Who gets the copy for followers: the exclusive follower, if there is one.
fn follower_kind(exclusive: bool) -> Receivers
    ensures { result ≡ follower_kind exclusive }
{
    if exclusive {
        Receivers::ExclusiveFollower
    } else {
        Receivers::Followers
    }
}

// Whether a message goes on to steps 3 to 6.
fn goes_on(parts: &Parts, message: Message) -> bool
    ensures { result ≡ goes_on (state_of parts.now) message }
{
    parts.is_configured() & (message.length() != 1) & is_here(parts, message.destination())
}

// The oldest wait that a message ends.
fn ended_by(waits: Waits, message: Message) -> Option<Ended>
    ensures { result ≡ ended_by message (waits_of waits) }
{
    match waits.first_match(message) {
        None => None,
        Some(found) => Some(Ended {
            place: found.place,
            wait: waits.at(found.place),
            rule: found.rule,
        }),
    }
}

// Whether a wait that ends wants its reply copied to the followers.
fn to_followers(ended: Option<Ended>) -> bool
    ensures { result ≡ to_followers ended }
{
    match ended {
        None => false,
        Some(ended) => ended.wait.to_followers,
    }
}

// Steps 3 to 6: reply, core work, copies, Feature Abort; nothing where the message goes no further.
fn later_steps(parts: &Parts, further: bool, message: Message) -> ToDo
    ensures { result ≡ to_do_of (state_of parts.now) further message }
{
    if !further {
        return ToDo {
            ended: None,
            notes: false,
            sends: None,
            followers: None,
        };
    }
    let ended = ended_by(parts.waits, message);
    let work = core_answers::work_for(parts.settings, message);
    let handles = parts.handles;
    let chosen = steps::choose(handles, work, ended.is_some(), to_followers(ended), message);
    ToDo {
        ended,
        notes: chosen.notes,
        sends: if parts.can_transmit {
            chosen.sends
        } else {
            None
        },
        followers: step::receivers(chosen.copies, handles, follower_kind(chosen.exclusive)),
    }
}

// The active address afterwards: a message is heard while configured.
fn active_after(parts: &Parts, message: Message) -> u16
    ensures { result ≡ active_after_message (state_of parts.now) message }
{
    if parts.is_configured() {
        tracker::tracked(parts.active, message)
    } else {
        parts.active
    }
}

// Step 1 and the tracker.
fn arrived(parts: &Parts, message: Message) -> Arrival
    ensures { result ≡ arrival_of (state_of parts.now) message }
{
    let here = is_here(parts, message.destination());
    Arrival {
        monitors: step::receivers(true, parts.handles, monitor_kind(here)),
        active: active_after(parts, message),
    }
}

// Copies for all handles of a kind. Only what they change is stored: to store the parts as a whole would move them once more.
fn put_copies(parts: &mut Parts, kind: Option<Receivers>, entry: Entry)
    ensures { state_of parts.new ≡ copies (in_role (gets_copies kind)) entry (state_of parts.old) }
{
    let copied = copies::for_receivers(*parts, kind, entry);
    let handles = copied.handles;
    let counts = copied.counts;
    let entries = copied.entries;
    parts.handles = handles;
    parts.counts = counts;
    parts.entries = entries;
}

// The six steps as `arrived` and `later_steps` say them, then the tracker and the clock; or the refusal, which leaves the parts as they were.
pub fn message(parts: &mut Parts, length: u8, bytes: [u8; 16], ts: u64) -> Result<(), Errno>
    ensures value { unit_outcome (state_of parts.new) result ≡ do_message (state_of parts.old) length bytes ts }
    ensures refused { IfErr result (λ errno. parts.new ≡ parts.old) }
{
    check(parts.clock, length, ts)?;
    let message = Message::new(length, bytes);
    let came = arrived(parts, message);
    if came.monitors.is_some() {
        put_copies(parts, came.monitors, Entry::message_copy(message, ts));
    }
    let to_do = later_steps(parts, goes_on(parts, message), message);
    if let Some(ended) = to_do.ended {
        parts.waits = parts.waits.without(ended.place);
        parts.deliver(
            ended.wait.owner,
            step::reply_entry(ended.rule, ended.wait, message, ts),
        );
    }
    if to_do.notes {
        parts.noted = step::noted(parts.noted, message);
    }
    if let Some(sent) = to_do.sends {
        parts.queue = parts.queue.put(Transmission::ownerless(sent));
    }
    if to_do.followers.is_some() {
        put_copies(parts, to_do.followers, Entry::message_copy(message, ts));
    }
    parts.active = came.active;
    parts.clock = ts;
    Ok(())
}
