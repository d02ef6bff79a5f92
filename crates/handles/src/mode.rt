// The parts of a mode, and what they say.
ghost use Rattle.std.specs.Prelude.{◌≡◌};
ghost use Rattle.rules.specs.Handles.{initiator_part, follower_part, is_follower, is_monitor, is_exclusive_initiator, is_exclusive_follower, is_passthrough};

use constants::{
    CEC_MODE_EXCL_FOLLOWER, CEC_MODE_EXCL_FOLLOWER_PASSTHRU, CEC_MODE_EXCL_INITIATOR,
    CEC_MODE_FOLLOWER, CEC_MODE_MONITOR, CEC_MODE_MONITOR_ALL,
};

// The low digit.
pub fn initiator_part(mode: u32) -> u32
    ensures { result ≡ initiator_part mode }
{
    mode % 16
}

// The rest.
pub fn follower_part(mode: u32) -> u32
    ensures { result ≡ follower_part mode }
{
    mode - mode % 16
}

pub fn is_follower(mode: u32) -> bool
    ensures { result ≡ is_follower mode }
{
    let part = follower_part(mode);
    (part == CEC_MODE_FOLLOWER)
        | (part == CEC_MODE_EXCL_FOLLOWER)
        | (part == CEC_MODE_EXCL_FOLLOWER_PASSTHRU)
}

pub fn is_monitor(mode: u32) -> bool
    ensures { result ≡ is_monitor mode }
{
    let part = follower_part(mode);
    (part == CEC_MODE_MONITOR) | (part == CEC_MODE_MONITOR_ALL)
}

pub fn is_exclusive_initiator(mode: u32) -> bool
    ensures { result ≡ is_exclusive_initiator mode }
{
    initiator_part(mode) == CEC_MODE_EXCL_INITIATOR
}

pub fn is_exclusive_follower(mode: u32) -> bool
    ensures { result ≡ is_exclusive_follower mode }
{
    let part = follower_part(mode);
    (part == CEC_MODE_EXCL_FOLLOWER) | (part == CEC_MODE_EXCL_FOLLOWER_PASSTHRU)
}

pub fn is_passthrough(mode: u32) -> bool
    ensures { result ≡ is_passthrough mode }
{
    follower_part(mode) == CEC_MODE_EXCL_FOLLOWER_PASSTHRU
}
