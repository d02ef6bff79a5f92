// What configure sets: the addresses of the box and what it tells of itself. The last three are for CEC 2.0.
#![tactic(auto)]

#[repr(C)]
#[derive(Clone, Copy)]
pub struct Settings {
    pub physical_address: u16,
    pub mask: u16,
    pub version: u8,
    pub device_type: u8,
    pub vendor_id: u32,
    pub name_length: u8,
    pub name: [u8; 14],
    pub all_device_types: u8,
    pub rc_profile: u8,
    pub device_features: u8,
}
