// What is on its way: the queue, the wire and the waits for replies.
#![tactic(auto)]

ghost use Rattle.std.specs.Prelude.{◌≤◌, ◌≡◌};
ghost use Rattle.rules.specs.Number.{candidate, sequence_after};
ghost use Rattle.rules.specs.Owed.{room_owed, replies_wanted, is_taken};
ghost use Rattle.waits.specs.Waits.{waits_of};
ghost use Rattle.traffic.specs.Traffic.{pending_of};

use queue::Queue;
use transmission::Owed;
use waits::Waits;
use wire::Wire;

// The number after another: 1 after the greatest.
fn next_after(last: u32) -> u32
    ensures { result ≡ candidate last 0 }
{
    last.checked_add(1).unwrap_or(1)
}

// What is owed to a handle: room for entries, and replies.
pub fn owed(queue: Queue, wire: Wire, waits: Waits, handle: u8) -> Owed
    ensures room_value { (result.room ≡ room_owed (pending_of wire queue) (waits_of waits) handle) × (result.replies ≡ replies_wanted (pending_of wire queue) (waits_of waits) handle) }
    ensures room_bound { result.room ≤ 70 }
    ensures replies_bound { result.replies ≤ 51 }
{
    let sent = wire.owed(handle);
    let queued = queue.owed(handle);
    let waiting = waits.count_of(handle);
    Owed {
        room: sent.room + queued.room + waiting,
        replies: sent.replies + queued.replies + waiting,
    }
}

// Whether a number is queued, on the wire or waiting.
fn is_live(queue: Queue, wire: Wire, waits: Waits, sequence: u32) -> bool
    ensures { result ≡ is_taken (pending_of wire queue) (waits_of waits) sequence }
{
    wire.has_sequence(sequence) | queue.has_sequence(sequence) | waits.has_sequence(sequence)
}

// The number that a transmit is given, after the last one.
pub fn next_sequence(queue: Queue, wire: Wire, waits: Waits, last: u32) -> u32
    ensures { result ≡ sequence_after (pending_of wire queue) (waits_of waits) last }
{
    let tries = wire.count() + queue.count() + waits.count();
    let mut sequence = next_after(last);
    for _i in 0..tries {
        if !is_live(queue, wire, waits, sequence) {
            return sequence;
        }
        sequence = next_after(sequence);
    }
    sequence
}
