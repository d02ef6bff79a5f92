// The adapter and its calls, each exactly its rule. A refused call hands back the adapter that came in, its number, and nothing else.
#![tactic(auto)]

ghost use Rattle.std.specs.Prelude.{◌≢◌, ◌≡◌};
ghost use Rattle.adapter.specs.Adapter.{state_of, done_of, opened_of, transmitted_of, received_of, started_of, active_of, refused_call, refused_open, refused_transmit, refused_receive, refused_bus_start};
ghost use Rattle.parts.specs.Parts.{errno_of};
ghost use Rattle.request.specs.Request.{request_of};
ghost use Rattle.rows.specs.Noted.{noted_of, refused_lookup};
ghost use Rattle.rules.specs.Call.{call_open, call_close, call_mode, call_transmit, call_receive, call_bus_start, call_bus_result, call_message, call_time, call_configure, call_unconfigure, call_lookup, call_active_address};
ghost use Rattle.rules.specs.Listing.{row_of};
ghost use Rattle.rules.specs.State.{fresh};
ghost use Rattle.rules.specs.Step.{step};

use constants::Errno;
use entry::{Counts, Entry};
use handle::Row;
use message::Message;
use parts::Parts;
use request::Request;
use rows::Noted;
use settings::Settings;

#[repr(C)]
#[derive(Clone, Copy)]
pub struct Adapter {
    parts: Parts,
}

// The answers: the adapter after the call, the errno, 0 for success, and what the call gives.
#[repr(C)]
#[derive(Clone, Copy)]
pub struct Done {
    pub adapter: Adapter,
    pub errno: u32,
}

#[repr(C)]
#[derive(Clone, Copy)]
pub struct Opened {
    pub adapter: Adapter,
    pub errno: u32,
    pub handle: u8,
}

#[repr(C)]
#[derive(Clone, Copy)]
pub struct Transmitted {
    pub adapter: Adapter,
    pub errno: u32,
    pub sequence: u32,
    pub tx_status: u8,
}

#[repr(C)]
#[derive(Clone, Copy)]
pub struct Received {
    pub adapter: Adapter,
    pub errno: u32,
    pub entry: Entry,
}

#[repr(C)]
#[derive(Clone, Copy)]
pub struct Started {
    pub adapter: Adapter,
    pub errno: u32,
    pub message: Message,
}

// The number of an answer, 0 for success.
fn number(answer: Result<(), Errno>) -> u32
    ensures { result ≡ errno_of answer }
{
    match answer {
        Ok(()) => 0,
        Err(errno) => u32::from(errno),
    }
}

impl Adapter {
    // A fresh adapter, for any capabilities.
    pub fn fresh(can_transmit: bool, can_monitor_all: bool) -> Adapter
        ensures { state_of result ≡ fresh (record { transmit = can_transmit; monitor_all = can_monitor_all }) }
    {
        Adapter {
            parts: Parts::fresh(can_transmit, can_monitor_all),
        }
    }

    pub fn open(self, privileged: bool) -> Opened
        ensures result_value { opened_of result ≡ step (state_of self) (call_open privileged) }
        ensures value { result.errno ≢ 0 → result ≡ refused_open self result.errno }
    {
        let mut opened = Opened {
            adapter: self,
            errno: 0,
            handle: 0,
        };
        match open::open(&mut opened.adapter.parts, privileged) {
            Ok(handle) => opened.handle = handle,
            Err(errno) => opened.errno = u32::from(errno),
        }
        opened
    }

    pub fn close(self, handle: u8) -> Done
        ensures result_value { done_of result ≡ step (state_of self) (call_close handle) }
        ensures value { result.errno ≢ 0 → result ≡ refused_call self result.errno }
    {
        let mut done = Done {
            adapter: self,
            errno: 0,
        };
        done.errno = number(close::close(&mut done.adapter.parts, handle));
        done
    }

    pub fn set_mode(self, handle: u8, mode: u32) -> Done
        ensures result_value { done_of result ≡ step (state_of self) (call_mode handle mode) }
        ensures value { result.errno ≢ 0 → result ≡ refused_call self result.errno }
    {
        let mut done = Done {
            adapter: self,
            errno: 0,
        };
        done.errno = number(set_mode::mode(&mut done.adapter.parts, handle, mode));
        done
    }

    pub fn transmit(self, handle: u8, request: Request) -> Transmitted
        ensures result_value { transmitted_of result ≡ step (state_of self) (call_transmit handle (request_of request)) }
        ensures value { result.errno ≢ 0 → result ≡ refused_transmit self result.errno }
    {
        let mut transmitted = Transmitted {
            adapter: self,
            errno: 0,
            sequence: 0,
            tx_status: 0,
        };
        match transmit::transmit(&mut transmitted.adapter.parts, handle, request) {
            Ok(sent) => {
                transmitted.sequence = sent.sequence;
                transmitted.tx_status = sent.tx_status;
            }
            Err(errno) => transmitted.errno = u32::from(errno),
        }
        transmitted
    }

    pub fn receive(self, handle: u8) -> Received
        ensures result_value { received_of result ≡ step (state_of self) (call_receive handle) }
        ensures value { result.errno ≢ 0 → result ≡ refused_receive self result.errno }
    {
        let mut received = Received {
            adapter: self,
            errno: 0,
            entry: Entry::none(),
        };
        match receive::receive(&mut received.adapter.parts, handle) {
            Ok(entry) => received.entry = entry,
            Err(errno) => received.errno = u32::from(errno),
        }
        received
    }

    pub fn bus_start(self) -> Started
        ensures result_value { started_of result ≡ step (state_of self) call_bus_start }
        ensures value { result.errno ≢ 0 → result ≡ refused_bus_start self result.errno }
    {
        let mut started = Started {
            adapter: self,
            errno: 0,
            message: Message::new(0, [0; 16]),
        };
        match bus_start::bus_start(&mut started.adapter.parts) {
            Ok(message) => started.message = message,
            Err(errno) => started.errno = u32::from(errno),
        }
        started
    }

    // The transmission on the wire ended, at a time in nanoseconds.
    pub fn bus_result(self, status: u8, counts: Counts, ts: u64) -> Done
        ensures result_value { done_of result ≡ step (state_of self) (call_bus_result status counts ts) }
        ensures value { result.errno ≢ 0 → result ≡ refused_call self result.errno }
    {
        let mut done = Done {
            adapter: self,
            errno: 0,
        };
        done.errno = number(bus_result::bus_result(&mut done.adapter.parts, status, counts, ts));
        done
    }

    // A message came from the wire, at a time in nanoseconds.
    pub fn received(self, length: u8, bytes: [u8; 16], ts: u64) -> Done
        ensures result_value { done_of result ≡ step (state_of self) (call_message length bytes ts) }
        ensures value { result.errno ≢ 0 → result ≡ refused_call self result.errno }
    {
        let mut done = Done {
            adapter: self,
            errno: 0,
        };
        done.errno = number(incoming::message(&mut done.adapter.parts, length, bytes, ts));
        done
    }

    // Milliseconds passed.
    pub fn time_passed(self, ms: u32) -> Done
        ensures { done_of result ≡ step (state_of self) (call_time ms) }
    {
        let mut done = Done {
            adapter: self,
            errno: 0,
        };
        time::time(&mut done.adapter.parts, ms);
        done
    }

    pub fn configure(self, settings: Settings) -> Done
        ensures result_value { done_of result ≡ step (state_of self) (call_configure settings) }
        ensures value { result.errno ≢ 0 → result ≡ refused_call self result.errno }
    {
        let mut done = Done {
            adapter: self,
            errno: 0,
        };
        done.errno = number(configure::configure(&mut done.adapter.parts, settings));
        done
    }

    pub fn unconfigure(self) -> Done
        ensures { done_of result ≡ step (state_of self) call_unconfigure }
    {
        let mut done = Done {
            adapter: self,
            errno: 0,
        };
        unconfigure::unconfigure(&mut done.adapter.parts);
        done
    }

    // The handle's row in the listing; crate `listing` fills a lent table with them.
    pub fn row(self, handle: u8) -> Row
        ensures { result ≡ row_of (state_of self) handle }
    {
        rows::row_of(self.parts, handle)
    }

    // The address noted for a logical one. It changes nothing, so that no adapter comes back.
    pub fn lookup(self, address: u8) -> Noted
        ensures result_value { noted_of (state_of self) result ≡ step (state_of self) (call_lookup address) }
        ensures value { result.errno ≢ 0 → result ≡ refused_lookup result.errno }
    {
        rows::noted_address(self.parts, address)
    }

    // The physical address that has the picture, 0xFFFF for none. It changes nothing either.
    pub fn active_address(self) -> u16
        ensures { active_of (state_of self) result ≡ step (state_of self) call_active_address }
    {
        self.parts.active
    }
}
