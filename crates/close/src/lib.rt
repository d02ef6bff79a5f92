// Close.
#![tactic(auto)]

ghost use Rattle.std.specs.Prelude.{◌≡◌, IfErr};
ghost use Rattle.parts.specs.Parts.{state_of, errno_of, unit_outcome};
ghost use Rattle.rules.specs.Close.{do_close, close_refusal};

use constants::Errno;
use handles::closed;
use parts::Parts;

#[tactic(auto, unfolding(rules::specs::Call::check))]
fn check(parts: &Parts, handle: u8) -> Result<(), Errno>
    ensures { errno_of result ≡ close_refusal (state_of parts.now) handle }
{
    if !parts.is_open(handle) {
        return Err(Errno::EBADF);
    }
    Ok(())
}

// Done, or the refusal, which leaves the parts as they were.
pub fn close(parts: &mut Parts, handle: u8) -> Result<(), Errno>
    ensures value { unit_outcome (state_of parts.new) result ≡ do_close (state_of parts.old) handle }
    ensures refused { IfErr result (λ errno. parts.new ≡ parts.old) }
{
    check(parts, handle)?;
    let inboxes = parts.inboxes().clear(handle);
    let entries = inboxes.entries;
    let counts = inboxes.counts;
    parts.entries = entries;
    parts.counts = counts;
    parts.handles = parts.handles.with(handle, closed());
    parts.queue = parts.queue.orphaned(handle);
    parts.wire = parts.wire.orphaned(handle);
    parts.waits = parts.waits.without_handle(handle);
    Ok(())
}
