// The transmit queue: at most 18 transmissions, first in, first out.
#![tactic(auto)]

ghost use Rattle.std.specs.Prelude.{◌≡◌, ◌≤◌, [], map, length, drop, slice_index_or};
ghost use Rattle.lists.specs.Sums.{any};
ghost use Rattle.lists.specs.Vector.{put};
ghost use Rattle.queue.specs.Queue.{queue_of};
ghost use Rattle.queue.specs.Ring.{ring_from};
ghost use Rattle.transmission.specs.Transmission.{no_transmission, head_of, owed_by, numbered, orphaned};

mod ring;

use transmission::{Owed, Transmission};

// A ring of 32 slots: head and tail are positions, which run on and wrap, and the slot of a position is that number modulo 32.
#[repr(C)]
#[derive(Clone, Copy)]
pub struct Queue {
    head: u32,
    tail: u32,
    slots: [Transmission; 32],
}

impl Queue {
    pub fn empty() -> Queue
        ensures { queue_of result ≡ [] }
    {
        Queue::empty_at(0)
    }

    // An empty queue whose head is at any position.
    pub fn empty_at(position: u32) -> Queue
        ensures { result ≡ ring_from position }
    {
        Queue {
            head: position,
            tail: position,
            slots: [Transmission::none(); 32],
        }
    }

    pub fn emptied(self) -> Queue
        ensures { queue_of result ≡ [] }
    {
        ring::clear(self)
    }

    #[tactic(auto, using(crate::proofs::Queued::length_queue))]
    pub fn count(self) -> usize
        ensures value { result ≡ length (queue_of self) }
        ensures upper_bound { result ≤ 18 }
    {
        ring::length(self.head, self.tail) as usize
    }

    // One more at the end; a full queue stays.
    #[tactic(auto, using(crate::proofs::Queued::put_ring))]
    pub fn put(self, transmission: Transmission) -> Queue
        ensures { queue_of result ≡ put 18 (queue_of self) transmission }
    {
        ring::put(self, transmission)
    }

    // The head, or none.
    pub fn head(self) -> Transmission
        ensures { result ≡ head_of (queue_of self) }
    {
        self.at(0)
    }

    // The transmission i after the head, or none.
    pub fn at(self, i: usize) -> Transmission
        ensures { result ≡ slice_index_or (queue_of self) i no_transmission }
    {
        if self.count() <= i {
            return Transmission::none();
        }
        let at = ring::place_after(self.head, i as u32);
        self.slots[at]
    }

    #[tactic(auto, using(crate::proofs::Queued::take_ring))]
    pub fn without_head(self) -> Queue
        ensures { queue_of result ≡ drop 1 (queue_of self) }
    {
        ring::take(self)
    }

    pub fn owed(self, handle: u8) -> Owed
        ensures value { result ≡ owed_by handle (queue_of self) }
        ensures room_bound { result.room ≤ 36 }
        ensures replies_bound { result.replies ≤ 18 }
    {
        let head = self.head;
        let n = ring::length(head, self.tail);
        let mut room = 0;
        let mut replies = 0;
        for i in 0..n {
            let at = ring::place_after(head, i);
            let one = self.slots[at].owed(handle);
            room += one.room;
            replies += one.replies;
        }
        Owed { room, replies }
    }

    pub fn has_sequence(self, sequence: u32) -> bool
        ensures { result ≡ any (numbered sequence) (queue_of self) }
    {
        let head = self.head;
        let n = ring::length(head, self.tail);
        for i in 0..n {
            let at = ring::place_after(head, i);
            if self.slots[at].sequence == sequence {
                return true;
            }
        }
        false
    }

    // What a close of the handle leaves.
    #[tactic(auto, using(crate::proofs::Queued::close_ring))]
    pub fn orphaned(self, handle: u8) -> Queue
        ensures { queue_of result ≡ map (orphaned handle) (queue_of self) }
    {
        ring::close(self, handle)
    }
}
