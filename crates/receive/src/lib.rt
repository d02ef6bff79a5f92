// The oldest entry of a handle's inbox, taken out: the others move down.
#![tactic(auto)]

ghost use Rattle.std.specs.Prelude.{◌≡◌, IfErr};
ghost use Rattle.parts.specs.Parts.{state_of, errno_of};
ghost use Rattle.receive.specs.Answer.{received_of};
ghost use Rattle.rules.specs.Receive.{do_receive, receive_refusal};

use constants::Errno;
use entry::Entry;
use inbox::count_at;
use parts::Parts;

#[tactic(auto, unfolding(rules::specs::Call::check))]
fn check(parts: &Parts, handle: u8) -> Result<(), Errno>
    ensures { errno_of result ≡ receive_refusal (state_of parts.now) handle }
{
    if !parts.is_open(handle) {
        return Err(Errno::EBADF);
    }
    if parts.count(handle) == 0 {
        return Err(Errno::EAGAIN);
    }
    Ok(())
}

// The entry, or the refusal, which leaves the parts as they were.
pub fn receive(parts: &mut Parts, handle: u8) -> Result<Entry, Errno>
    ensures value { received_of (state_of parts.new) result ≡ do_receive (state_of parts.old) handle }
    ensures refused { IfErr result (λ errno. parts.new ≡ parts.old) }
{
    check(parts, handle)?;
    let n = count_at(parts.counts, handle);
    let h = handle as usize;
    let first = 16 * h;
    let entry = parts.entries[first];
    let last = first + n - 1;
    for i in first..last {
        parts.entries[i] = parts.entries[i + 1];
    }
    parts.counts[h] = n - 1;
    Ok(entry)
}
