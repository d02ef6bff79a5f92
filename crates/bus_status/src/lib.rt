// Masks on the status byte of a bus result.
#![tactic(auto)]

ghost use Rattle.std.specs.Prelude.{true, cond, ◌≡◌};
ghost use Rattle.constants.specs.Kernel.{CEC-TX-STATUS-OK};
ghost use Rattle.rules.specs.BusResult.{is_final, kept_counts};
ghost use Rattle.rules.specs.Handles.{has_bit};
ghost use Rattle.bus_status.specs.Counted.{is_counted_bit};

use constants::{
    CEC_TX_STATUS_ABORTED, CEC_TX_STATUS_ARB_LOST, CEC_TX_STATUS_ERROR, CEC_TX_STATUS_LOW_DRIVE,
    CEC_TX_STATUS_MAX_RETRIES, CEC_TX_STATUS_NACK, CEC_TX_STATUS_OK, CEC_TX_STATUS_TIMEOUT,
};
use entry::Counts;

// Exactly one end in the status.
pub fn is_final(status: u8) -> bool
    ensures { result ≡ is_final status }
{
    let ends = status
        & (CEC_TX_STATUS_OK
            | CEC_TX_STATUS_MAX_RETRIES
            | CEC_TX_STATUS_ABORTED
            | CEC_TX_STATUS_TIMEOUT);
    ends.count_ones() == 1
}

pub fn is_ok(status: u8) -> bool
    ensures { result ≡ has_bit CEC-TX-STATUS-OK status }
{
    status & CEC_TX_STATUS_OK != 0
}

// A count, if its bit is set.
fn kept(status: u8, bit: u8, count: u8) -> u8
    requires { is_counted_bit bit ≡ true }
    ensures { result ≡ cond (has_bit bit status) count 0 }
{
    if status & bit != 0 { count } else { 0 }
}

pub fn kept_counts(status: u8, counts: Counts) -> Counts
    ensures { result ≡ kept_counts status counts }
{
    Counts {
        arb_lost: kept(status, CEC_TX_STATUS_ARB_LOST, counts.arb_lost),
        nack: kept(status, CEC_TX_STATUS_NACK, counts.nack),
        low_drive: kept(status, CEC_TX_STATUS_LOW_DRIVE, counts.low_drive),
        error: kept(status, CEC_TX_STATUS_ERROR, counts.error),
    }
}
