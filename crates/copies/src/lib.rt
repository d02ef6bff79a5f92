// Copies for monitors and followers, of messages and of results.
#![tactic(auto)]

ghost use Rattle.std.specs.Prelude.{◌≡◌};
ghost use Rattle.copies.specs.Kinds.{gets_copies, gets_copies_by_number, receivers_numbered, NOBODY};
ghost use Rattle.handles.specs.Roles.{handles_of};
ghost use Rattle.lists.specs.Sums.{any};
ghost use Rattle.parts.specs.Parts.{state_of};
ghost use Rattle.rules.specs.Deliver.{copies, loses};
ghost use Rattle.rules.specs.Handles.{in_role};

use constants::{CEC_MODE_FOLLOWER, CEC_MODE_MONITOR_ALL};
use entry::Entry;
use handle::Handle;
use handles::Handles;
use handles::mode::{follower_part, is_exclusive_follower, is_monitor};
use inbox::count_at;
use parts::Parts;

// Who gets copies.
#[derive(Clone, Copy, Debug, PartialEq, Eq)]
pub enum Receivers {
    Monitors,
    MonitorsOfAll,
    ExclusiveFollower,
    Followers,
}

// The same by number.
pub const MONITORS: u8 = 0;

pub const MONITORS_OF_ALL: u8 = 1;

pub const EXCLUSIVE_FOLLOWER: u8 = 2;

pub const FOLLOWERS: u8 = 3;

pub const NOBODY: u8 = 4;

impl Receivers {
    // Who gets copies by a number; any other number is nobody's.
    pub fn numbered(kind: u8) -> Option<Receivers>
        ensures value { result ≡ receivers_numbered kind }
        ensures same_handles { gets_copies result ≡ gets_copies_by_number kind }
    {
        match kind {
            MONITORS => Some(Receivers::Monitors),
            MONITORS_OF_ALL => Some(Receivers::MonitorsOfAll),
            EXCLUSIVE_FOLLOWER => Some(Receivers::ExclusiveFollower),
            FOLLOWERS => Some(Receivers::Followers),
            _ => None,
        }
    }
}

fn gets_copies(kind: Option<Receivers>, mode: u32) -> bool
    ensures { result ≡ gets_copies kind mode }
{
    match kind {
        None => false,
        Some(Receivers::Monitors) => is_monitor(mode),
        Some(Receivers::MonitorsOfAll) => {
            is_monitor(mode) & (follower_part(mode) == CEC_MODE_MONITOR_ALL)
        }
        Some(Receivers::ExclusiveFollower) => is_exclusive_follower(mode),
        Some(Receivers::Followers) => follower_part(mode) == CEC_MODE_FOLLOWER,
    }
}

// One more is lost; the count stays at its greatest.
fn loses(mut handle: Handle) -> Handle
    ensures { result ≡ loses handle }
{
    handle.lost = handle.lost.saturating_add(1);
    handle
}

fn is_copied(kind: Option<Receivers>, handle: Handle) -> bool
    ensures { result ≡ in_role (gets_copies kind) handle }
{
    handle.is_open & gets_copies(kind, handle.mode)
}

// Copies for all handles of a kind, ascending: one that has no room left loses its copy. What changes lies beside the parts meanwhile, so that these are not copied as a whole.
pub fn for_receivers(parts: Parts, kind: Option<Receivers>, entry: Entry) -> Parts
    ensures result_value { state_of result ≡ copies (in_role (gets_copies kind)) entry (state_of parts) }
    ensures value { kind ≡ None → result ≡ parts }
{
    let mut entries = parts.entries;
    let mut counts = parts.counts;
    let mut handles = parts.handles;
    for handle in 0..8 {
        let own = handles.at(handle);
        if is_copied(kind, own) {
            let n = count_at(counts, handle);
            let h = handle as usize;
            let owed = traffic::owed(parts.queue, parts.wire, parts.waits, handle);
            if n + owed.room == 16 {
                handles = handles.with(handle, loses(own));
            } else if (h < 8) & (n < 16) {
                entries[16 * h + n] = entry;
                counts[h] = n + 1;
            }
        }
    }
    let mut after = parts;
    after.entries = entries;
    after.counts = counts;
    after.handles = handles;
    after
}

// Whether there is an open handle of a kind.
pub fn any_receiver(handles: Handles, kind: Option<Receivers>) -> bool
    ensures { result ≡ any (in_role (gets_copies kind)) (handles_of handles) }
{
    (0..8).any(|handle| is_copied(kind, handles.at(handle)))
}

// `for_receivers` by number: nobody, or a number of no kind, gives no copies.
pub fn copies(parts: Parts, kind: u8, entry: Entry) -> Parts
    ensures result_value { state_of result ≡ copies (in_role (gets_copies_by_number kind)) entry (state_of parts) }
    ensures value { kind ≡ NOBODY → result ≡ parts }
{
    for_receivers(parts, Receivers::numbered(kind), entry)
}

// `any_receiver` by number.
pub fn has(handles: Handles, kind: u8) -> bool
    ensures { result ≡ any (in_role (gets_copies_by_number kind)) (handles_of handles) }
{
    any_receiver(handles, Receivers::numbered(kind))
}
