// The fields of a record's 28 bytes. Numbers are low byte first.
#![tactic(auto)]

ghost use Rattle.std.specs.Prelude.{◌+◌, ◌≤◌, ◌≡◌, take, drop};
ghost use Rattle.session_log.specs.Record.{number_at, request_in, counts_in, settings_in};
ghost use Rattle.request.specs.Request.{request_of};

use entry::Counts;
use request::Request;
use settings::Settings;

pub fn number_4(bytes: [u8; 4]) -> u32
    ensures { result ≡ number_at bytes 0 4 }
{
    u32::from_le_bytes(bytes)
}

pub fn number_8(bytes: [u8; 8]) -> u64
    ensures { result ≡ number_at bytes 0 8 }
{
    u64::from_le_bytes(bytes)
}

// The bytes from a place on.
fn bytes_at<const N: usize>(r: [u8; 28], at: usize) -> [u8; N]
    requires { at + N ≤ 28 }
    ensures { result ≡ take N (drop at r) }
{
    let mut bytes = [0; N];
    bytes.copy_from_slice(&r[at..at + N]);
    bytes
}

// The 16 bytes after the length of a message.
pub fn message_bytes(r: [u8; 28]) -> [u8; 16]
    ensures { result ≡ take 16 (drop 2 r) }
{
    bytes_at(r, 2)
}

pub fn request_of(r: [u8; 28]) -> Request
    ensures { request_of result ≡ request_in r }
{
    Request {
        length: r[2],
        bytes: bytes_at(r, 3),
        reply: r[19],
        timeout: number_4([r[20], r[21], r[22], r[23]]),
        flags: number_4([r[24], r[25], r[26], r[27]]),
    }
}

pub fn counts_of(r: [u8; 28]) -> Counts
    ensures { result ≡ counts_in r }
{
    Counts {
        arb_lost: r[2],
        nack: r[3],
        low_drive: r[4],
        error: r[5],
    }
}

pub fn settings_of(r: [u8; 28]) -> Settings
    ensures { result ≡ settings_in r }
{
    Settings {
        physical_address: u16::from_le_bytes([r[1], r[2]]),
        mask: u16::from_le_bytes([r[3], r[4]]),
        version: r[5],
        device_type: r[6],
        vendor_id: u32::from_le_bytes([r[7], r[8], r[9], 0]),
        name_length: r[10],
        name: bytes_at(r, 11),
        all_device_types: r[25],
        rc_profile: r[26],
        device_features: r[27],
    }
}
