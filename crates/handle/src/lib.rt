// A handle, through which one program uses the adapter, and its row in the listing.
#![tactic(auto)]

// What the adapter keeps of a handle besides its inbox.
#[repr(C)]
#[derive(Clone, Copy)]
pub struct Handle {
    pub is_open: bool,
    pub privileged: bool,
    pub mode: u32,
    pub lost: u32,
}

#[repr(C)]
#[derive(Clone, Copy)]
pub struct Row {
    pub number: u8,
    pub is_open: bool,
    pub mode: u32,
    pub entries: u32,
    pub owed: u32,
    pub lost: u32,
}
