// An entry of an inbox, one constructor for each kind.
#![tactic(auto)]

ghost use Rattle.std.specs.Prelude.{◌≡◌};
ghost use Rattle.entry.specs.Entry.{no_counts, result_entry, result_copy, rx_entry, matched, reply, feature_abort_reply, timed_out, aborted, message_copy, no_entry};

use constants::{
    CEC_RX_STATUS_ABORTED, CEC_RX_STATUS_FEATURE_ABORT, CEC_RX_STATUS_OK, CEC_RX_STATUS_TIMEOUT,
};
use message::Message;

// How often each thing went wrong on the wire.
#[repr(C)]
#[derive(Clone, Copy, Default)]
pub struct Counts {
    pub arb_lost: u8,
    pub nack: u8,
    pub low_drive: u8,
    pub error: u8,
}

// The times are in nanoseconds: when the message that was sent had gone out, and when the one that is shown had come.
#[repr(C)]
#[derive(Clone, Copy)]
pub struct Entry {
    pub sequence: u32,
    pub tx_status: u8,
    pub rx_status: u8,
    pub message: Message,
    pub counts: Counts,
    pub reply: u8,
    pub tx_ts: u64,
    pub rx_ts: u64,
}

impl Counts {
    pub fn none() -> Counts
        ensures { result ≡ no_counts }
    {
        Counts::default()
    }
}

impl Entry {
    // The result of a transmit, for its owner.
    pub fn result(sequence: u32, status: u8, counts: Counts, sent: Message, tx_ts: u64) -> Entry
        ensures { result ≡ result_entry sequence status counts sent tx_ts }
    {
        Entry {
            sequence,
            tx_status: status,
            rx_status: 0,
            message: sent,
            counts,
            reply: 0,
            tx_ts,
            rx_ts: 0,
        }
    }

    // The copy of a result, for a monitor.
    pub fn result_copy(status: u8, counts: Counts, sent: Message, tx_ts: u64) -> Entry
        ensures { result ≡ result_copy status counts sent tx_ts }
    {
        Entry::result(0, status, counts, sent, tx_ts)
    }

    // A receive status, a message, the opcode of a reply and the times alone.
    fn rx_entry(
        sequence: u32,
        status: u8,
        message: Message,
        reply: u8,
        tx_ts: u64,
        rx_ts: u64,
    ) -> Entry
        ensures { result ≡ rx_entry sequence status message reply tx_ts rx_ts }
    {
        Entry {
            sequence,
            tx_status: 0,
            rx_status: status,
            message,
            counts: Counts::none(),
            reply,
            tx_ts,
            rx_ts,
        }
    }

    // A message that came as the reply, with its opcode.
    fn matched(sequence: u32, status: u8, came: Message, tx_ts: u64, rx_ts: u64) -> Entry
        ensures { result ≡ matched sequence status came tx_ts rx_ts }
    {
        Entry::rx_entry(sequence, status, came, came.opcode(), tx_ts, rx_ts)
    }

    pub fn reply(sequence: u32, came: Message, tx_ts: u64, rx_ts: u64) -> Entry
        ensures { result ≡ reply sequence came tx_ts rx_ts }
    {
        Entry::matched(sequence, CEC_RX_STATUS_OK, came, tx_ts, rx_ts)
    }

    pub fn feature_abort_reply(sequence: u32, came: Message, tx_ts: u64, rx_ts: u64) -> Entry
        ensures { result ≡ feature_abort_reply sequence came tx_ts rx_ts }
    {
        Entry::matched(
            sequence,
            CEC_RX_STATUS_OK + CEC_RX_STATUS_FEATURE_ABORT,
            came,
            tx_ts,
            rx_ts,
        )
    }

    // No reply came in time: the entry shows the opcode that was wanted.
    pub fn timed_out(sequence: u32, sent: Message, wanted: u8, tx_ts: u64) -> Entry
        ensures { result ≡ timed_out sequence sent wanted tx_ts }
    {
        Entry::rx_entry(sequence, CEC_RX_STATUS_TIMEOUT, sent, wanted, tx_ts, 0)
    }

    // The wait for a reply was given up.
    pub fn aborted(sequence: u32, sent: Message, wanted: u8, tx_ts: u64) -> Entry
        ensures { result ≡ aborted sequence sent wanted tx_ts }
    {
        Entry::rx_entry(sequence, CEC_RX_STATUS_ABORTED, sent, wanted, tx_ts, 0)
    }

    // The copy of a message, for a follower or a monitor.
    pub fn message_copy(came: Message, rx_ts: u64) -> Entry
        ensures { result ≡ message_copy came rx_ts }
    {
        Entry::rx_entry(0, CEC_RX_STATUS_OK, came, 0, 0, rx_ts)
    }

    pub fn none() -> Entry
        ensures { result ≡ no_entry }
    {
        Entry::rx_entry(0, 0, Message::new(0, [0; 16]), 0, 0, 0)
    }
}
