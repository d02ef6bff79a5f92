// Physical addresses of four hex digits, as a tree.
ghost use Rattle.std.specs.Prelude.{◌≤◌, ◌≡◌};
ghost use Rattle.route.specs.Address.{is_well_formed, depth, parent, weight_at, digit_at, common_ancestor};

use constants::CEC_PHYS_ADDR_INVALID;

// No non-zero digit follows a zero, and it is not 0xFFFF.
pub fn is_well_formed(address: u16) -> bool
    ensures { result ≡ is_well_formed address }
{
    let first = address / 4096;
    let second = address / 256 % 16;
    let third = address / 16 % 16;
    let fourth = address % 16;
    ((first != 0) | (second == 0))
        & ((second != 0) | (third == 0))
        & ((third != 0) | (fourth == 0))
        & (address != CEC_PHYS_ADDR_INVALID)
}

// The place of the last non-zero digit, 0 for 0.0.0.0.
#[tactic(auto, unfolding(crate::specs::Address::depth))]
pub fn depth(address: u16) -> u8
    ensures { result ≡ depth address }
{
    if address % 16 != 0 {
        return 4;
    }
    if address % 256 != 0 {
        return 3;
    }
    if address % 4096 != 0 {
        return 2;
    }
    if address != 0 { 1 } else { 0 }
}

// The address with its last non-zero digit cleared.
#[tactic(auto, unfolding(crate::specs::Address::parent))]
pub fn parent(address: u16) -> u16
    ensures { result ≡ parent address }
{
    if address % 16 != 0 {
        return address - address % 16;
    }
    if address % 256 != 0 {
        return address - address % 256;
    }
    if address % 4096 != 0 {
        return address - address % 4096;
    }
    0
}

// The weight of the digit after a depth: 4096 for the first digit, 1 for the fourth.
#[tactic(auto, unfolding(crate::specs::Address::weight_at))]
fn weight_at(depth: u8) -> u16
    ensures value { result ≡ weight_at depth }
    ensures lower_bound { 1 ≤ result }
{
    match depth {
        0 => 4096,
        1 => 256,
        2 => 16,
        _ => 1,
    }
}

// The digit after a depth.
pub fn digit_at(depth: u8, address: u16) -> u8
    ensures { result ≡ digit_at depth address }
{
    (address / weight_at(depth) % 16) as u8
}

// The deepest common ancestor: up from the deeper of two that differ, or from both if they are as deep. The depth of the deeper, at most four, falls at each call.
pub fn common_ancestor(first: u16, second: u16) -> u16
    ensures { result ≡ common_ancestor first second }
{
    if first == second {
        return first;
    }
    let m = depth(first);
    let n = depth(second);
    if m < n {
        return common_ancestor(first, parent(second));
    }
    if n < m {
        return common_ancestor(parent(first), second);
    }
    common_ancestor(parent(first), parent(second))
}
