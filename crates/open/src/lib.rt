// Open.
#![tactic(auto)]

ghost use Rattle.std.specs.Prelude.{◌≡◌, IfErr};
ghost use Rattle.parts.specs.Parts.{state_of, errno_of};
ghost use Rattle.open.specs.Answer.{opened_of};
ghost use Rattle.rules.specs.Open.{do_open, open_refusal};

use constants::{CEC_MODE_INITIATOR, Errno};
use handle::Handle;
use parts::Parts;

#[tactic(auto, unfolding(rules::specs::Call::check))]
fn check(parts: &Parts) -> Result<(), Errno>
    ensures { errno_of result ≡ open_refusal (state_of parts.now) }
{
    if parts.handles.lowest_closed() == parts.handles.count() {
        return Err(Errno::EMFILE);
    }
    Ok(())
}

// The handle, or the refusal, which leaves the parts as they were.
pub fn open(parts: &mut Parts, privileged: bool) -> Result<u8, Errno>
    ensures value { opened_of (state_of parts.new) result ≡ do_open (state_of parts.old) privileged }
    ensures refused { IfErr result (λ errno. parts.new ≡ parts.old) }
{
    check(parts)?;
    let handle = parts.handles.lowest_closed();
    let opened = Handle {
        is_open: true,
        privileged,
        mode: CEC_MODE_INITIATOR,
        lost: 0,
    };
    parts.handles = parts.handles.with(handle, opened);
    Ok(handle)
}
