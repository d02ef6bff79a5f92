// The kernel's names for the numbers: errno.h and linux/cec.h. specs/ has the same names for the definitions, with '-' for '_'.
#![tactic(auto)]

ghost use Rattle.std.specs.Prelude.{◌≡◌};
ghost use Rattle.constants.specs.Errno.{errno_number};

// Errors: what a refused call gives back (document 01, "Numbers given back"; errno.h).
pub const EPERM: u32 = 1;

pub const EBADF: u32 = 9;

pub const EAGAIN: u32 = 11;

pub const EBUSY: u32 = 16;

pub const EINVAL: u32 = 22;

pub const EMFILE: u32 = 24;

pub const ENOTTY: u32 = 25;

pub const ENONET: u32 = 64;

// A refusal, by the name of its number.
#[derive(Clone, Copy, Debug, PartialEq, Eq)]
pub enum Errno {
    EPERM,
    EBADF,
    EAGAIN,
    EBUSY,
    EINVAL,
    EMFILE,
    ENOTTY,
    ENONET,
}

impl From<Errno> for u32 {
    ghost from_gives = { λ errno number. number ≡ errno_number errno };

    fn from(errno: Errno) -> u32 {
        match errno {
            Errno::EPERM => EPERM,
            Errno::EBADF => EBADF,
            Errno::EAGAIN => EAGAIN,
            Errno::EBUSY => EBUSY,
            Errno::EINVAL => EINVAL,
            Errno::EMFILE => EMFILE,
            Errno::ENOTTY => ENOTTY,
            Errno::ENONET => ENONET,
        }
    }
}

// Modes of a handle: the initiator part in the low digit, the follower part above it (document 01, "Modes"; linux/cec.h).
pub const CEC_MODE_NO_INITIATOR: u32 = 0x00;

pub const CEC_MODE_INITIATOR: u32 = 0x01;

pub const CEC_MODE_EXCL_INITIATOR: u32 = 0x02;

pub const CEC_MODE_NO_FOLLOWER: u32 = 0x00;

pub const CEC_MODE_FOLLOWER: u32 = 0x10;

pub const CEC_MODE_EXCL_FOLLOWER: u32 = 0x20;

pub const CEC_MODE_EXCL_FOLLOWER_PASSTHRU: u32 = 0x30;

pub const CEC_MODE_MONITOR: u32 = 0xE0;

pub const CEC_MODE_MONITOR_ALL: u32 = 0xF0;

// Status bits of a transmit (document 01, "Wire, time and configuration"; linux/cec.h).
pub const CEC_TX_STATUS_OK: u8 = 0x01;

pub const CEC_TX_STATUS_ARB_LOST: u8 = 0x02;

pub const CEC_TX_STATUS_NACK: u8 = 0x04;

pub const CEC_TX_STATUS_LOW_DRIVE: u8 = 0x08;

pub const CEC_TX_STATUS_ERROR: u8 = 0x10;

pub const CEC_TX_STATUS_MAX_RETRIES: u8 = 0x20;

pub const CEC_TX_STATUS_ABORTED: u8 = 0x40;

pub const CEC_TX_STATUS_TIMEOUT: u8 = 0x80;

// Status bits of a received message (document 01, "A message from the wire"; linux/cec.h).
pub const CEC_RX_STATUS_OK: u8 = 0x01;

pub const CEC_RX_STATUS_TIMEOUT: u8 = 0x02;

pub const CEC_RX_STATUS_FEATURE_ABORT: u8 = 0x04;

pub const CEC_RX_STATUS_ABORTED: u8 = 0x08;

// The flag of a transmit (linux/cec.h).
pub const CEC_MSG_FL_REPLY_TO_FOLLOWERS: u32 = 1;

// Opcodes (document 01, "A message from the wire"; document 02, W-203 and W-205; linux/cec.h).
pub const CEC_MSG_FEATURE_ABORT: u8 = 0x00;

pub const CEC_MSG_IMAGE_VIEW_ON: u8 = 0x04;

pub const CEC_MSG_TEXT_VIEW_ON: u8 = 0x0D;

pub const CEC_MSG_GIVE_OSD_NAME: u8 = 0x46;

pub const CEC_MSG_SET_OSD_NAME: u8 = 0x47;

pub const CEC_MSG_ROUTING_CHANGE: u8 = 0x80;

pub const CEC_MSG_ACTIVE_SOURCE: u8 = 0x82;

pub const CEC_MSG_GIVE_PHYSICAL_ADDR: u8 = 0x83;

pub const CEC_MSG_REPORT_PHYSICAL_ADDR: u8 = 0x84;

pub const CEC_MSG_SET_STREAM_PATH: u8 = 0x86;

pub const CEC_MSG_DEVICE_VENDOR_ID: u8 = 0x87;

pub const CEC_MSG_GIVE_DEVICE_VENDOR_ID: u8 = 0x8C;

pub const CEC_MSG_GIVE_DEVICE_POWER_STATUS: u8 = 0x8F;

pub const CEC_MSG_REPORT_POWER_STATUS: u8 = 0x90;

pub const CEC_MSG_INACTIVE_SOURCE: u8 = 0x9D;

pub const CEC_MSG_CEC_VERSION: u8 = 0x9E;

pub const CEC_MSG_GET_CEC_VERSION: u8 = 0x9F;

pub const CEC_MSG_GIVE_FEATURES: u8 = 0xA5;

pub const CEC_MSG_REPORT_FEATURES: u8 = 0xA6;

pub const CEC_MSG_INITIATE_ARC: u8 = 0xC0;

pub const CEC_MSG_REPORT_ARC_INITIATED: u8 = 0xC1;

pub const CEC_MSG_REPORT_ARC_TERMINATED: u8 = 0xC2;

pub const CEC_MSG_ABORT: u8 = 0xFF;

// Reasons of a Feature Abort (document 01, "A message from the wire"; linux/cec.h).
pub const CEC_OP_ABORT_UNRECOGNIZED_OP: u8 = 0;

pub const CEC_OP_ABORT_REFUSED: u8 = 4;

// Versions (document 01, "Wire, time and configuration"; document 02, W-203; linux/cec.h).
pub const CEC_OP_CEC_VERSION_1_3A: u8 = 4;

pub const CEC_OP_CEC_VERSION_1_4: u8 = 5;

pub const CEC_OP_CEC_VERSION_2_0: u8 = 6;

// Addresses (linux/cec.h): 15 is the unregistered initiator and the broadcast destination.
pub const CEC_LOG_ADDR_UNREGISTERED: u8 = 15;

pub const CEC_LOG_ADDR_BROADCAST: u8 = 15;

pub const CEC_PHYS_ADDR_INVALID: u16 = 0xFFFF;
