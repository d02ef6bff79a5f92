// Another mode for a handle: the checks in their order, and the change.
#![tactic(auto)]

ghost use Rattle.std.specs.Prelude.{◌≡◌, IfErr};
ghost use Rattle.parts.specs.Parts.{state_of, errno_of, unit_outcome};
ghost use Rattle.rules.specs.Mode.{do_mode, mode_refusal, is_mode, is_monitor_initiator, is_unable_follower, is_monitor_all_unable, is_mode_invalid, is_role_held};

use constants::{CEC_MODE_MONITOR_ALL, CEC_MODE_NO_FOLLOWER, Errno};
use handle::Handle;
use handles::mode::{
    follower_part, initiator_part, is_exclusive_follower, is_exclusive_initiator, is_follower,
    is_monitor,
};
use parts::Parts;

fn is_mode(mode: u32) -> bool
    ensures { result ≡ is_mode mode }
{
    (initiator_part(mode) <= 2)
        & ((follower_part(mode) == CEC_MODE_NO_FOLLOWER) | is_follower(mode) | is_monitor(mode))
}

fn is_monitor_initiator(mode: u32) -> bool
    ensures { result ≡ is_monitor_initiator mode }
{
    is_monitor(mode) & (initiator_part(mode) != 0)
}

fn is_unable_follower(parts: &Parts, mode: u32) -> bool
    ensures { result ≡ is_unable_follower (state_of parts.now) mode }
{
    is_follower(mode) & ((initiator_part(mode) == 0) | !parts.can_transmit)
}

fn is_monitor_all_unable(parts: &Parts, mode: u32) -> bool
    ensures { result ≡ is_monitor_all_unable (state_of parts.now) mode }
{
    (follower_part(mode) == CEC_MODE_MONITOR_ALL) & !parts.can_monitor_all
}

fn is_mode_invalid(parts: &Parts, mode: u32) -> bool
    ensures { result ≡ is_mode_invalid (state_of parts.now) mode }
{
    !is_mode(mode)
        | is_monitor_initiator(mode)
        | is_unable_follower(parts, mode)
        | is_monitor_all_unable(parts, mode)
}

fn is_role_held(parts: &Parts, handle: u8, mode: u32) -> bool
    ensures { result ≡ is_role_held (state_of parts.now) handle mode }
{
    let others = parts.handles.roles_of_others(handle);
    is_exclusive_initiator(mode) & others.exclusive_initiator
        | is_exclusive_follower(mode) & others.exclusive_follower
}

#[tactic(auto, unfolding(rules::specs::Call::check))]
fn check(parts: &Parts, handle: u8, mode: u32) -> Result<(), Errno>
    ensures { errno_of result ≡ mode_refusal (state_of parts.now) handle mode }
{
    if !parts.is_open(handle) {
        return Err(Errno::EBADF);
    }
    if is_mode_invalid(parts, mode) {
        return Err(Errno::EINVAL);
    }
    if is_monitor(mode) & !parts.handle_at(handle).privileged {
        return Err(Errno::EPERM);
    }
    if is_role_held(parts, handle, mode) {
        return Err(Errno::EBUSY);
    }
    Ok(())
}

// Done, or the refusal, which leaves the parts as they were.
pub fn mode(parts: &mut Parts, handle: u8, mode: u32) -> Result<(), Errno>
    ensures value { unit_outcome (state_of parts.new) result ≡ do_mode (state_of parts.old) handle mode }
    ensures refused { IfErr result (λ errno. parts.new ≡ parts.old) }
{
    check(parts, handle, mode)?;
    let mut now = parts.handle_at(handle);
    now.mode = mode;
    parts.handles = parts.handles.with(handle, now);
    Ok(())
}
