// All eight inboxes, 16 entries a handle, oldest first: handle h's in the 16 places from 16 * h on of one array.
#![tactic(auto)]

ghost use Rattle.std.specs.Prelude.{◌≤◌, min, ◌≡◌, [], get_or, replicate};
ghost use Rattle.inbox.specs.Inboxes.{inboxes_of, delivered, cleared};

use entry::Entry;

#[repr(C)]
#[derive(Clone, Copy)]
pub struct Inboxes {
    pub entries: [Entry; 128],
    pub counts: [usize; 8],
}

// How many entries a handle has, by the counts; none for a number over 7, and a count past 16 counts as 16.
pub fn count_at(counts: [usize; 8], handle: u8) -> usize
    ensures value { result ≡ min (get_or counts handle 0) 16 }
    ensures upper_bound { result ≤ 16 }
{
    counts.get(handle as usize).copied().unwrap_or(0).min(16)
}

impl Inboxes {
    pub fn empty() -> Inboxes
        ensures { inboxes_of result ≡ replicate 8 [] }
    {
        Inboxes {
            entries: [Entry::none(); 128],
            counts: [0; 8],
        }
    }

    // One more entry at the end; a full inbox stays.
    pub fn put(mut self, handle: u8, entry: Entry) -> Inboxes
        ensures { inboxes_of result ≡ delivered (inboxes_of self) handle entry }
    {
        let n = count_at(self.counts, handle);
        let h = handle as usize;
        if (h < 8) & (n < 16) {
            self.entries[16 * h + n] = entry;
            self.counts[h] = n + 1;
        }
        self
    }

    // The entries stay where they are: past the count they are in no inbox.
    pub fn clear(mut self, handle: u8) -> Inboxes
        ensures { inboxes_of result ≡ cleared (inboxes_of self) handle }
    {
        let h = handle as usize;
        if 8 <= h {
            return self;
        }
        self.counts[h] = 0;
        self
    }
}
