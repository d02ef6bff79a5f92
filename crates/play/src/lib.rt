// One record of each kind, played: the call of the adapter that it stands for, and what the answer says.
#![tactic(auto)]

ghost use Rattle.std.specs.Prelude.{[], ◌∷◌, ◌≡◌};
ghost use Rattle.adapter.specs.Adapter.{state_of};
ghost use Rattle.session_log.specs.Record.{byte_at, number_at, open_of, mode_of, transmit_of, result_of, incoming_of, configure_of};
ghost use Rattle.play.specs.Play.{played_of, effect};
ghost use Rattle.rules.specs.Call.{call_close, call_receive, call_bus_start, call_time, call_unconfigure};
ghost use Rattle.text.specs.Line.{said_of};

use adapter::{Adapter, Done};
use fields::{counts_of, message_bytes, number_4, number_8, request_of, settings_of};
use text::Said;

// The adapter after a record, and what the record's line says.
#[derive(Clone, Copy)]
pub struct Played {
    pub adapter: Adapter,
    pub said: Said,
}

impl Played {
    // The answer of a call that gives nothing to print but its errno.
    fn plain(adapter: Adapter, errno: u32) -> Played
        ensures adapter_value { result.adapter ≡ adapter }
        ensures said_value { said_of result.said ≡ errno ∷ [] }
    {
        Played {
            adapter,
            said: Said::Errno(errno),
        }
    }
}

// Before any record.
pub fn nothing(adapter: Adapter) -> Played
    ensures adapter_value { result.adapter ≡ adapter }
    ensures said_value { said_of result.said ≡ 0 ∷ [] }
{
    Played::plain(adapter, 0)
}

// The answer of a call that gives nothing more.
fn of_done(answer: Done) -> Played
    ensures adapter_value { result.adapter ≡ answer.adapter }
    ensures said_value { said_of result.said ≡ answer.errno ∷ [] }
{
    Played::plain(answer.adapter, answer.errno)
}

pub fn open(adapter: Adapter, r: [u8; 28]) -> Played
    ensures { played_of result ≡ effect (state_of adapter) (open_of r) }
{
    let answer = adapter.open(r[1] != 0);
    Played::plain(answer.adapter, answer.errno)
}

pub fn close(adapter: Adapter, r: [u8; 28]) -> Played
    ensures { played_of result ≡ effect (state_of adapter) (call_close (byte_at r 1)) }
{
    of_done(adapter.close(r[1]))
}

pub fn mode(adapter: Adapter, r: [u8; 28]) -> Played
    ensures { played_of result ≡ effect (state_of adapter) (mode_of r) }
{
    of_done(adapter.set_mode(r[1], number_4([r[2], r[3], r[4], r[5]])))
}

pub fn transmit(adapter: Adapter, r: [u8; 28]) -> Played
    ensures { played_of result ≡ effect (state_of adapter) (transmit_of r) }
{
    let answer = adapter.transmit(r[1], request_of(r));
    Played::plain(answer.adapter, answer.errno)
}

pub fn receive(adapter: Adapter, r: [u8; 28]) -> Played
    ensures { played_of result ≡ effect (state_of adapter) (call_receive (byte_at r 1)) }
{
    let answer = adapter.receive(r[1]);
    let said = match answer.errno {
        0 => Said::Entry(answer.entry),
        errno => Said::Errno(errno),
    };
    Played {
        adapter: answer.adapter,
        said,
    }
}

pub fn start(adapter: Adapter) -> Played
    ensures { played_of result ≡ effect (state_of adapter) call_bus_start }
{
    let answer = adapter.bus_start();
    Played::plain(answer.adapter, answer.errno)
}

pub fn result(adapter: Adapter, r: [u8; 28]) -> Played
    ensures { played_of result ≡ effect (state_of adapter) (result_of r) }
{
    let ts = number_8([r[6], r[7], r[8], r[9], r[10], r[11], r[12], r[13]]);
    of_done(adapter.bus_result(r[1], counts_of(r), ts))
}

pub fn time(adapter: Adapter, r: [u8; 28]) -> Played
    ensures { played_of result ≡ effect (state_of adapter) (call_time (number_at r 1 4)) }
{
    of_done(adapter.time_passed(number_4([r[1], r[2], r[3], r[4]])))
}

pub fn message(adapter: Adapter, r: [u8; 28]) -> Played
    ensures { played_of result ≡ effect (state_of adapter) (incoming_of r) }
{
    let ts = number_8([r[18], r[19], r[20], r[21], r[22], r[23], r[24], r[25]]);
    of_done(adapter.received(r[1], message_bytes(r), ts))
}

pub fn configure(adapter: Adapter, r: [u8; 28]) -> Played
    ensures { played_of result ≡ effect (state_of adapter) (configure_of r) }
{
    of_done(adapter.configure(settings_of(r)))
}

pub fn unconfigure(adapter: Adapter) -> Played
    ensures { played_of result ≡ effect (state_of adapter) call_unconfigure }
{
    of_done(adapter.unconfigure())
}
