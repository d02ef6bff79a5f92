// Configure.
#![tactic(auto)]

ghost use Rattle.std.specs.Prelude.{◌-◌, ◌++◌, ◌≡◌, take, replicate, IfErr};
ghost use Rattle.configure.specs.Mask.{set_bits};
ghost use Rattle.parts.specs.Parts.{state_of, errno_of, unit_outcome};
ghost use Rattle.rules.specs.Configure.{do_configure, configure_refusal, is_mask, is_version1, is_version2, is_device_type, is_settings, kept_settings};

use constants::{
    CEC_OP_CEC_VERSION_1_3A, CEC_OP_CEC_VERSION_1_4, CEC_OP_CEC_VERSION_2_0, CEC_PHYS_ADDR_INVALID,
    Errno,
};
use parts::Parts;
use settings::Settings;

// How many bits are set, by the language's own count, which has no loop (document 02, W-204).
fn bits_of(mask: u16) -> u32
    ensures { result ≡ set_bits 16 mask }
{
    mask.count_ones()
}

// A mask of 1 to 4 bits among 0 to 14.
#[tactic(auto, using(crate::proofs::Bits::mask_counted))]
fn is_mask(mask: u16) -> bool
    ensures { result ≡ is_mask mask }
{
    let bits = bits_of(mask);
    (mask < 0x8000) & (1 <= bits) & (bits <= 4)
}

// Version 4 or 5, with the three bytes of CEC 2.0 all 0.
fn is_version_1(settings: Settings) -> bool
    ensures { result ≡ is_version1 settings }
{
    matches!(
        settings.version,
        CEC_OP_CEC_VERSION_1_3A | CEC_OP_CEC_VERSION_1_4
    ) && settings.all_device_types == 0
        && settings.rc_profile == 0
        && settings.device_features == 0
}

// Version 6, the last two of its three bytes below 128.
fn is_version_2(settings: Settings) -> bool
    ensures { result ≡ is_version2 settings }
{
    settings.version == CEC_OP_CEC_VERSION_2_0
        && settings.rc_profile < 128
        && settings.device_features < 128
}

fn is_device_type(device_type: u8) -> bool
    ensures { result ≡ is_device_type device_type }
{
    matches!(device_type, 0 | 1 | 3..=7)
}

// A physical address that is valid, a mask, a version with its bytes, a device type, a vendor id of 24 bits, a name of 1 to 14 bytes.
fn is_settings(settings: Settings) -> bool
    ensures { result ≡ is_settings settings }
{
    settings.physical_address != CEC_PHYS_ADDR_INVALID
        && is_mask(settings.mask)
        && (is_version_1(settings) || is_version_2(settings))
        && is_device_type(settings.device_type)
        && settings.vendor_id < 1 << 24
        && (1..=14).contains(&settings.name_length)
}

// The EBUSY test comes first.
#[tactic(auto, unfolding(rules::specs::Call::check))]
fn check(parts: &Parts, settings: Settings) -> Result<(), Errno>
    ensures { errno_of result ≡ configure_refusal (state_of parts.now) settings }
{
    if parts.is_configured() {
        return Err(Errno::EBUSY);
    }
    if !is_settings(settings) {
        return Err(Errno::EINVAL);
    }
    Ok(())
}

// The name, 0 past its length.
fn kept_name(mut name: [u8; 14], length: u8) -> [u8; 14]
    ensures { result ≡ take length name ++ replicate (14 - length) 0 }
{
    let length = (length as usize).min(14);
    name[length..].fill(0);
    name
}

// The settings as they are kept.
fn kept_settings(mut settings: Settings) -> Settings
    ensures { result ≡ kept_settings settings }
{
    settings.name = kept_name(settings.name, settings.name_length);
    settings
}

// Done, or the refusal, which leaves the parts as they were.
pub fn configure(parts: &mut Parts, settings: Settings) -> Result<(), Errno>
    ensures value { unit_outcome (state_of parts.new) result ≡ do_configure (state_of parts.old) settings }
    ensures refused { IfErr result (λ errno. parts.new ≡ parts.old) }
{
    check(parts, settings)?;
    parts.settings = kept_settings(settings);
    Ok(())
}
