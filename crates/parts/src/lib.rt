// The adapter's parts, and what each call asks of them.
#![tactic(auto)]

ghost use Rattle.std.specs.Prelude.{◌≤◌, ◌≡◌, length};
ghost use Rattle.inbox.specs.Inboxes.{inboxes_of, inbox_of};
ghost use Rattle.rules.specs.Clock.{clock_refusal};
ghost use Rattle.rules.specs.Deliver.{deliver};
ghost use Rattle.rules.specs.Handles.{handle_at, is_open, is_configured, is_own};
ghost use Rattle.rules.specs.State.{fresh, no_settings, none_noted, with_inboxes};
ghost use Rattle.parts.specs.Parts.{boxes_of, state_of, errno_of};

use constants::{CEC_LOG_ADDR_UNREGISTERED, CEC_PHYS_ADDR_INVALID, Errno};
use entry::Entry;
use handle::Handle;
use handles::Handles;
use inbox::{Inboxes, count_at};
use queue::Queue;
use settings::Settings;
use waits::Waits;
use wire::Wire;

// The inboxes lie in `entries`, handle h's in the 16 places from 16 * h on, with their `counts` apart: arrays that lie in the struct itself are written in place.
// The order is by measurement: with the counts first, the entries last and the queue before the wire the compiler copies least.
#[repr(C)]
#[derive(Clone, Copy)]
pub struct Parts {
    pub counts: [usize; 8],
    pub clock: u64,
    pub can_transmit: bool,
    pub can_monitor_all: bool,
    pub last: u32,
    pub settings: Settings,
    pub noted: [u16; 15],
    pub active: u16,
    pub handles: Handles,
    pub queue: Queue,
    pub wire: Wire,
    pub waits: Waits,
    pub entries: [Entry; 128],
}

// The last check of a bus result and of a message: a time may not be before that of the last one.
#[tactic(auto, unfolding(rules::specs::Call::check))]
pub fn check_time(clock: u64, ts: u64) -> Result<(), Errno>
    ensures { errno_of result ≡ clock_refusal clock ts }
{
    if ts < clock {
        return Err(Errno::EINVAL);
    }
    Ok(())
}

// The settings as unconfigure leaves them.
pub fn no_settings() -> Settings
    ensures { result ≡ no_settings }
{
    Settings {
        physical_address: CEC_PHYS_ADDR_INVALID,
        mask: 0,
        version: 0,
        device_type: 0,
        vendor_id: 0,
        name_length: 0,
        name: [0; 14],
        all_device_types: 0,
        rc_profile: 0,
        device_features: 0,
    }
}

pub fn none_noted() -> [u16; 15]
    ensures { result ≡ none_noted }
{
    [CEC_PHYS_ADDR_INVALID; 15]
}

impl Parts {
    pub fn fresh(can_transmit: bool, can_monitor_all: bool) -> Parts
        ensures { state_of result ≡ fresh (record { transmit = can_transmit; monitor_all = can_monitor_all }) }
    {
        let inboxes = Inboxes::empty();
        let entries = inboxes.entries;
        let counts = inboxes.counts;
        Parts {
            counts: counts,
            clock: 0,
            can_transmit: can_transmit,
            can_monitor_all: can_monitor_all,
            last: 0,
            settings: no_settings(),
            noted: none_noted(),
            active: CEC_PHYS_ADDR_INVALID,
            handles: Handles::all_closed(),
            queue: Queue::empty(),
            wire: Wire::idle(),
            waits: Waits::empty(),
            entries: entries,
        }
    }

    pub fn handle_at(self, handle: u8) -> Handle
        ensures { result ≡ handle_at (state_of self) handle }
    {
        self.handles.at(handle)
    }

    pub fn is_open(self, handle: u8) -> bool
        ensures { result ≡ is_open (state_of self) handle }
    {
        self.handles.at(handle).is_open
    }

    // How many entries a handle has.
    pub fn count(self, handle: u8) -> usize
        ensures value { result ≡ length (inbox_of (state_of self).inboxes handle) }
        ensures upper_bound { result ≤ 16 }
    {
        let counts = self.counts;
        count_at(counts, handle)
    }

    // One more entry for a handle; a full inbox stays. It is written in place.
    pub fn deliver(&mut self, handle: u8, entry: Entry)
        ensures { state_of self.new ≡ deliver (state_of self.old) handle entry }
    {
        let n = count_at(self.counts, handle);
        let h = handle as usize;
        if (h < 8) & (n < 16) {
            self.entries[16 * h + n] = entry;
            self.counts[h] = n + 1;
        }
    }

    // For a call of several steps that works on the inboxes alone: the steps pass less by value.
    pub fn inboxes(self) -> Inboxes
        ensures { result ≡ boxes_of self }
    {
        let entries = self.entries;
        let counts = self.counts;
        Inboxes {
            entries: entries,
            counts: counts,
        }
    }

    pub fn with_inboxes(mut self, inboxes: Inboxes) -> Parts
        ensures { state_of result ≡ with_inboxes (state_of self) (inboxes_of inboxes) }
    {
        let entries = inboxes.entries;
        let counts = inboxes.counts;
        self.entries = entries;
        self.counts = counts;
        self
    }

    pub fn is_configured(self) -> bool
        ensures { result ≡ is_configured (state_of self) }
    {
        self.settings.physical_address != CEC_PHYS_ADDR_INVALID
    }

    // No device has address 15, and past it the mask has no bit.
    pub fn is_own(self, address: u8) -> bool
        ensures { result ≡ is_own (state_of self) address }
    {
        if CEC_LOG_ADDR_UNREGISTERED <= address {
            return false;
        }
        self.is_configured() & ((self.settings.mask >> address) % 2 == 1)
    }
}
