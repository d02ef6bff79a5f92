// The calls of the adapter for programs in C (include/clothbadger.h): each takes the adapter by value, and its promise is that of the call in crate `adapter` or `listing`.
#![tactic(auto)]

ghost use Rattle.std.specs.Prelude.{◌≢◌, ◌≡◌};
ghost use denote.Param.{layout};
ghost use prog.Memory.{size};
ghost use Rattle.adapter.specs.contracts.Adapter.{the_row as adapter_row};
ghost use Rattle.adapter.specs.Adapter.{state_of, done_of, opened_of, transmitted_of, received_of, started_of, active_of, refused_call, refused_open, refused_transmit, refused_receive, refused_bus_start};
ghost use Rattle.listing.specs.Rows.{Lists};
ghost use Rattle.message.specs.Rule.{reply_rule};
ghost use Rattle.request.specs.Request.{request_of};
ghost use Rattle.route.specs.Route.{route_of};
ghost use Rattle.rows.specs.Noted.{noted_of, refused_lookup};
ghost use Rattle.rules.specs.Call.{call_open, call_close, call_mode, call_transmit, call_receive, call_bus_start, call_bus_result, call_message, call_time, call_configure, call_unconfigure, call_lookup, call_active_address};
ghost use Rattle.rules.specs.State.{fresh};
ghost use Rattle.rules.specs.Step.{step};

use adapter::{Adapter, Done, Opened, Received, Started, Transmitted};
use entry::Counts;
use handle::Row;
use message::Message;
use request::Request;
use route::Route;
use rows::Noted;
use settings::Settings;

#[unsafe(no_mangle)]
pub extern "C" fn cec_adapter_new(can_transmit: bool, can_monitor_all: bool) -> Adapter
    ensures { state_of result ≡ fresh (record { transmit = can_transmit; monitor_all = can_monitor_all }) }
{
    Adapter::fresh(can_transmit, can_monitor_all)
}

// How many bytes an adapter has in memory.
#[unsafe(no_mangle)]
pub extern "C" fn cec_adapter_size() -> usize
    ensures { result ≡ size (layout adapter_row) }
{
    8744
}

#[unsafe(no_mangle)]
pub extern "C" fn cec_adapter_open(adapter: Adapter, privileged: bool) -> Opened
    ensures result_value { opened_of result ≡ step (state_of adapter) (call_open privileged) }
    ensures value { result.errno ≢ 0 → result ≡ refused_open adapter result.errno }
{
    adapter.open(privileged)
}

#[unsafe(no_mangle)]
pub extern "C" fn cec_adapter_close(adapter: Adapter, handle: u8) -> Done
    ensures result_value { done_of result ≡ step (state_of adapter) (call_close handle) }
    ensures value { result.errno ≢ 0 → result ≡ refused_call adapter result.errno }
{
    adapter.close(handle)
}

#[unsafe(no_mangle)]
pub extern "C" fn cec_adapter_set_mode(adapter: Adapter, handle: u8, mode: u32) -> Done
    ensures result_value { done_of result ≡ step (state_of adapter) (call_mode handle mode) }
    ensures value { result.errno ≢ 0 → result ≡ refused_call adapter result.errno }
{
    adapter.set_mode(handle, mode)
}

#[unsafe(no_mangle)]
pub extern "C" fn cec_adapter_transmit(
    adapter: Adapter,
    handle: u8,
    request: Request,
) -> Transmitted
    ensures result_value { transmitted_of result ≡ step (state_of adapter) (call_transmit handle (request_of request)) }
    ensures value { result.errno ≢ 0 → result ≡ refused_transmit adapter result.errno }
{
    adapter.transmit(handle, request)
}

#[unsafe(no_mangle)]
pub extern "C" fn cec_adapter_receive(adapter: Adapter, handle: u8) -> Received
    ensures result_value { received_of result ≡ step (state_of adapter) (call_receive handle) }
    ensures value { result.errno ≢ 0 → result ≡ refused_receive adapter result.errno }
{
    adapter.receive(handle)
}

#[unsafe(no_mangle)]
pub extern "C" fn cec_adapter_bus_start(adapter: Adapter) -> Started
    ensures result_value { started_of result ≡ step (state_of adapter) call_bus_start }
    ensures value { result.errno ≢ 0 → result ≡ refused_bus_start adapter result.errno }
{
    adapter.bus_start()
}

// The transmission on the wire ended, at a time in nanoseconds.
#[unsafe(no_mangle)]
pub extern "C" fn cec_adapter_bus_result(
    adapter: Adapter,
    status: u8,
    counts: Counts,
    ts: u64,
) -> Done
    ensures result_value { done_of result ≡ step (state_of adapter) (call_bus_result status counts ts) }
    ensures value { result.errno ≢ 0 → result ≡ refused_call adapter result.errno }
{
    adapter.bus_result(status, counts, ts)
}

// A message came from the wire, at a time in nanoseconds.
#[unsafe(no_mangle)]
pub extern "C" fn cec_adapter_received(adapter: Adapter, message: Message, ts: u64) -> Done
    ensures result_value { done_of result ≡ step (state_of adapter) (call_message message.length message.bytes ts) }
    ensures value { result.errno ≢ 0 → result ≡ refused_call adapter result.errno }
{
    let length = message.length();
    let bytes = message.bytes();
    adapter.received(length, bytes, ts)
}

// Milliseconds passed.
#[unsafe(no_mangle)]
pub extern "C" fn cec_adapter_time_passed(adapter: Adapter, ms: u32) -> Done
    ensures { done_of result ≡ step (state_of adapter) (call_time ms) }
{
    adapter.time_passed(ms)
}

#[unsafe(no_mangle)]
pub extern "C" fn cec_adapter_configure(adapter: Adapter, settings: Settings) -> Done
    ensures result_value { done_of result ≡ step (state_of adapter) (call_configure settings) }
    ensures value { result.errno ≢ 0 → result ≡ refused_call adapter result.errno }
{
    adapter.configure(settings)
}

#[unsafe(no_mangle)]
pub extern "C" fn cec_adapter_unconfigure(adapter: Adapter) -> Done
    ensures { done_of result ≡ step (state_of adapter) call_unconfigure }
{
    adapter.unconfigure()
}

// "Under 8 rows: EINVAL; rows past 8 stay." The errno is given back, 0 for success; a refusal leaves the rows as they were.
#[unsafe(no_mangle)]
pub extern "C" fn cec_adapter_listing(adapter: Adapter, rows: &mut [Row]) -> u32
    ensures { Lists (state_of adapter) rows.old result rows.new }
{
    listing::listing(adapter, rows)
}

// The address noted for a logical one. It changes nothing, so that no adapter comes back.
#[unsafe(no_mangle)]
pub extern "C" fn cec_adapter_lookup(adapter: Adapter, address: u8) -> Noted
    ensures result_value { noted_of (state_of adapter) result ≡ step (state_of adapter) (call_lookup address) }
    ensures value { result.errno ≢ 0 → result ≡ refused_lookup result.errno }
{
    adapter.lookup(address)
}

// The physical address that has the picture, 0xFFFF for none. It changes nothing either.
#[unsafe(no_mangle)]
pub extern "C" fn cec_adapter_active_address(adapter: Adapter) -> u16
    ensures { active_of (state_of adapter) result ≡ step (state_of adapter) call_active_address }
{
    adapter.active_address()
}

// The way between two physical addresses: their deepest common ancestor, whether the first lies on the path to the second, and through which of its ports.
#[unsafe(no_mangle)]
pub extern "C" fn cec_route(first: u16, second: u16) -> Route
    ensures { result ≡ route_of first second }
{
    route::between(first, second)
}

// The reply test on bytes: the rule of a match, 1 to 3, and 0 for none.
#[unsafe(no_mangle)]
pub extern "C" fn cec_reply_match(sent: &[u8], received: &[u8], wanted: u8) -> u8
    ensures { result ≡ reply_rule sent.now received.now wanted }
{
    message::reply::cec_reply_match(sent, received, wanted)
}
