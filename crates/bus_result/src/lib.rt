// The end of the transmission on the wire.
#![tactic(auto)]

ghost use Rattle.std.specs.Prelude.{◌≡◌, IfErr};
ghost use Rattle.parts.specs.Parts.{state_of, errno_of, unit_outcome};
ghost use Rattle.rules.specs.BusResult.{bus_result_refusal, do_bus_result, wait_for};

use bus_status::{is_final, is_ok, kept_counts};
use constants::Errno;
use copies::Receivers;
use entry::{Counts, Entry};
use parts::{Parts, check_time};
use transmission::Transmission;
use wait::Wait;

#[tactic(auto, unfolding(rules::specs::Call::check))]
fn check(parts: &Parts, status: u8, ts: u64) -> Result<(), Errno>
    ensures { errno_of result ≡ bus_result_refusal (state_of parts.now) status ts }
{
    if parts.wire.count() == 0 || !is_final(status) {
        return Err(Errno::EINVAL);
    }
    check_time(parts.clock, ts)
}

fn wait_for(sent: Transmission, ts: u64) -> Wait
    ensures { result ≡ wait_for sent ts }
{
    Wait {
        owner: sent.owner,
        sequence: sent.sequence,
        left: sent.timeout,
        reply: sent.reply,
        to_followers: sent.to_followers,
        sent: sent.message,
        tx_ts: ts,
    }
}

// Copies for the monitors, the result for the owner, the wait, the clock; or the refusal, which leaves the parts as they were. Of the copies only what they change is stored: to store the parts as a whole would move them once more.
pub fn bus_result(parts: &mut Parts, status: u8, counts: Counts, ts: u64) -> Result<(), Errno>
    ensures value { unit_outcome (state_of parts.new) result ≡ do_bus_result (state_of parts.old) status counts ts }
    ensures refused { IfErr result (λ errno. parts.new ≡ parts.old) }
{
    check(parts, status, ts)?;
    let sent = parts.wire.head();
    let message = sent.message;
    let kept = kept_counts(status, counts);
    let monitors = Some(Receivers::Monitors);
    if copies::any_receiver(parts.handles, monitors) {
        let copied = copies::for_receivers(
            *parts,
            monitors,
            Entry::result_copy(status, kept, message, ts),
        );
        let handles = copied.handles;
        let counts = copied.counts;
        let entries = copied.entries;
        parts.handles = handles;
        parts.counts = counts;
        parts.entries = entries;
    }
    parts.deliver(
        sent.owner,
        Entry::result(sent.sequence, status, kept, message, ts),
    );
    parts.wire = parts.wire.without_head();
    parts.clock = ts;
    if is_ok(status) & sent.wants_reply {
        parts.waits = parts.waits.put(wait_for(sent, ts));
    }
    Ok(())
}
