// Which way to a physical address: the deepest common ancestor of two, whether the first lies on the path to the second, and through which of its ports.
#![tactic(auto)]

ghost use Rattle.std.specs.Prelude.{◌≡◌};
ghost use Rattle.route.specs.Address.{depth, digit_at};
ghost use Rattle.route.specs.Route.{port, route_of};

pub mod address;

use address::{common_ancestor, depth, digit_at, is_well_formed};
use constants::EINVAL;

// The errno, 0 for success, and the answer.
#[repr(C)]
#[derive(Clone, Copy)]
pub struct Route {
    pub errno: u32,
    pub ancestor: u16,
    pub on_path: bool,
    pub port: u8,
}

// The digit of the second after those of the first, if the first lies on the path to it.
fn port(first: u16, second: u16, on_path: bool) -> u8
    ensures { result ≡ port first second on_path }
{
    if on_path & (first != second) {
        digit_at(depth(first), second)
    } else {
        0
    }
}

pub fn between(first: u16, second: u16) -> Route
    ensures { result ≡ route_of first second }
{
    if !(is_well_formed(first) & is_well_formed(second)) {
        return Route {
            errno: EINVAL,
            ancestor: 0,
            on_path: false,
            port: 0,
        };
    }
    let ancestor = common_ancestor(first, second);
    let on_path = ancestor == first;
    Route {
        errno: 0,
        ancestor,
        on_path,
        port: port(first, second, on_path),
    }
}
