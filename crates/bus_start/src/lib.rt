// Bus start.
#![tactic(auto)]

ghost use Rattle.std.specs.Prelude.{◌≡◌, IfErr};
ghost use Rattle.bus_start.specs.Started.{started_of};
ghost use Rattle.parts.specs.Parts.{state_of, errno_of};
ghost use Rattle.rules.specs.BusStart.{do_bus_start, bus_start_refusal};

use constants::Errno;
use message::Message;
use parts::Parts;

#[tactic(auto, unfolding(rules::specs::Call::check))]
fn check(parts: &Parts) -> Result<(), Errno>
    ensures { errno_of result ≡ bus_start_refusal (state_of parts.now) }
{
    if 0 < parts.wire.count() {
        return Err(Errno::EBUSY);
    }
    if parts.queue.count() == 0 {
        return Err(Errno::EAGAIN);
    }
    Ok(())
}

// What goes out, or the refusal, which leaves the parts as they were.
pub fn bus_start(parts: &mut Parts) -> Result<Message, Errno>
    ensures value { started_of (state_of parts.new) result ≡ do_bus_start (state_of parts.old) }
    ensures refused { IfErr result (λ errno. parts.new ≡ parts.old) }
{
    check(parts)?;
    let head = parts.queue.head();
    parts.queue = parts.queue.without_head();
    parts.wire = parts.wire.put(head);
    Ok(head.message)
}
