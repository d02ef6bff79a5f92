// A benchmark: 10,000 rounds of transmit, bus start, bus result and receive. It prints how many numbers were given.
#![tactic(auto)]

use adapter::Adapter;
use constants::{CEC_LOG_ADDR_UNREGISTERED, CEC_TX_STATUS_OK};
use entry::Counts;
use request::Request;
use std::io;

const ROUNDS: u64 = 10000;

fn poll() -> Request {
    let mut bytes = [0; 16];
    bytes[0] = CEC_LOG_ADDR_UNREGISTERED * 16;
    Request {
        length: 1,
        bytes,
        reply: 0,
        timeout: 0,
        flags: 0,
    }
}

// The message has gone out at a time, which rises from round to round.
fn round(adapter: Adapter, ts: u64) -> Adapter {
    let accepted = adapter.transmit(0, poll());
    let started = accepted.adapter.bus_start();
    let done = started
        .adapter
        .bus_result(CEC_TX_STATUS_OK, Counts::none(), ts);
    done.adapter.receive(0).adapter
}

fn main(rt: HostRuntime) -> io::Result<()> {
    let mut now = Adapter::fresh(true, true).open(false).adapter;
    for i in 0..ROUNDS {
        now = round(now, i);
    }
    println!(rt; "{}", now.transmit(0, poll()).sequence)
}
