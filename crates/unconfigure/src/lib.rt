// The adapter without an address. The inboxes are taken out of the parts for the entries, and put back once.
#![tactic(auto)]

ghost use Rattle.std.specs.Prelude.{◌≡◌};
ghost use Rattle.unconfigure.specs.Aborted.{transmits_aborted, waits_aborted};
ghost use Rattle.inbox.specs.Inboxes.{inboxes_of, delivered};
ghost use Rattle.parts.specs.Parts.{state_of};
ghost use Rattle.queue.specs.Queue.{queue_of};
ghost use Rattle.rules.specs.Call.{finish, done};
ghost use Rattle.rules.specs.Unconfigure.{aborted_result, abort_entry, do_unconfigure};
ghost use Rattle.traffic.specs.Traffic.{pending_of};
ghost use Rattle.waits.specs.Waits.{waits_of};
ghost use Rattle.wire.specs.Wire.{wire_of};

use constants::{CEC_PHYS_ADDR_INVALID, CEC_TX_STATUS_ABORTED};
use entry::{Counts, Entry};
use inbox::Inboxes;
use parts::{Parts, no_settings, none_noted};
use queue::Queue;
use transmission::Transmission;
use wait::Wait;
use waits::Waits;
use wire::Wire;

// The result of a transmit that ends with tx_status 0x40, for its owner. No bus result came, so it shows no time.
fn abort_transmit(inboxes: Inboxes, sent: Transmission) -> Inboxes
    ensures { inboxes_of result ≡ delivered (inboxes_of inboxes) sent.owner (aborted_result sent) }
{
    inboxes.put(
        sent.owner,
        Entry::result(
            sent.sequence,
            CEC_TX_STATUS_ABORTED,
            Counts::none(),
            sent.message,
            0,
        ),
    )
}

fn abort_wire(inboxes: Inboxes, wire: Wire) -> Inboxes
    ensures { inboxes_of result ≡ transmits_aborted (inboxes_of inboxes) (wire_of wire) }
{
    if wire.count() == 0 {
        return inboxes;
    }
    abort_transmit(inboxes, wire.head())
}

// The queue ends, in order.
fn abort_queue(inboxes: Inboxes, queue: Queue) -> Inboxes
    ensures { inboxes_of result ≡ transmits_aborted (inboxes_of inboxes) (queue_of queue) }
{
    let mut after = inboxes;
    for i in 0..queue.count() {
        after = abort_transmit(after, queue.at(i));
    }
    after
}

// The reply entry of a wait that ends: its number, rx_status 0x08, the sent length, bytes and time, and the opcode wanted.
fn abort_wait(inboxes: Inboxes, wait: Wait) -> Inboxes
    ensures { inboxes_of result ≡ delivered (inboxes_of inboxes) wait.owner (abort_entry wait) }
{
    inboxes.put(
        wait.owner,
        Entry::aborted(wait.sequence, wait.sent, wait.reply, wait.tx_ts),
    )
}

// The waits end, oldest first.
fn abort_waits(inboxes: Inboxes, waits: Waits) -> Inboxes
    ensures { inboxes_of result ≡ waits_aborted (inboxes_of inboxes) (waits_of waits) }
{
    let mut after = inboxes;
    for i in 0..waits.count() {
        after = abort_wait(after, waits.at(i));
    }
    after
}

// All that is on its way ends: the wire, then the queue, then the waits.
fn abort(inboxes: Inboxes, queue: Queue, wire: Wire, waits: Waits) -> Inboxes
    ensures { inboxes_of result ≡ waits_aborted (transmits_aborted (inboxes_of inboxes) (pending_of wire queue)) (waits_of waits) }
{
    let after_wire = abort_wire(inboxes, wire);
    let after_queue = abort_queue(after_wire, queue);
    abort_waits(after_queue, waits)
}

// All that is on its way ends; address 0xFFFF, mask 0, noted addresses and the active one cleared, the other settings 0. The clock stays.
pub fn unconfigure(parts: &mut Parts)
    ensures { finish done (state_of parts.new) ≡ do_unconfigure (state_of parts.old) }
{
    let inboxes = abort(parts.inboxes(), parts.queue, parts.wire, parts.waits);
    let entries = inboxes.entries;
    let counts = inboxes.counts;
    parts.entries = entries;
    parts.counts = counts;
    parts.queue = parts.queue.emptied();
    parts.wire = Wire::idle();
    parts.waits = parts.waits.emptied();
    parts.settings = no_settings();
    let noted = none_noted();
    parts.noted = noted;
    parts.active = CEC_PHYS_ADDR_INVALID;
}
