// The ring: what each change makes of its positions and slots.
ghost use Rattle.std.specs.Prelude.{◌≡◌, ◌<◌, ◌≤◌};
ghost use Rattle.queue.specs.Queue.{onward, place, held};
ghost use Rattle.queue.specs.Ring.{ring_put, ring_take, ring_close, ring_clear};

use crate::Queue;
use transmission::Transmission;

const LIMIT: u32 = 18;

// The slot of a position.
pub fn place(position: u32) -> usize
    ensures value { result ≡ place position }
    ensures upper_bound { result < 32 }
{
    (position % 32) as usize
}

// The slot of the position n after the head.
pub fn place_after(head: u32, n: u32) -> usize
    ensures value { result ≡ place (onward head n) }
    ensures upper_bound { result < 32 }
{
    place(head.wrapping_add(n))
}

// How many are queued between two positions.
pub fn length(head: u32, tail: u32) -> u32
    ensures value { result ≡ held head tail }
    ensures upper_bound { result ≤ 18 }
{
    tail.wrapping_sub(head).min(LIMIT)
}

// Stored at the tail; a full queue stays.
pub fn put(mut queue: Queue, transmission: Transmission) -> Queue
    ensures { result ≡ ring_put queue transmission }
{
    let tail = queue.tail;
    if length(queue.head, tail) < LIMIT {
        let at = place(tail);
        queue.slots[at] = transmission;
        queue.tail = tail.wrapping_add(1);
    }
    queue
}

// Without the head: no slot moves. The tail is stored too, for a difference past the limit.
pub fn take(mut queue: Queue) -> Queue
    ensures { result ≡ ring_take queue }
{
    let n = length(queue.head, queue.tail);
    if 0 < n {
        let head = queue.head.wrapping_add(1);
        queue.head = head;
        queue.tail = head.wrapping_add(n - 1);
    }
    queue
}

// What a close of the handle leaves.
pub fn close(mut queue: Queue, handle: u8) -> Queue
    ensures { result ≡ ring_close queue handle }
{
    let head = queue.head;
    let n = length(head, queue.tail);
    for i in 0..n {
        let at = place_after(head, i);
        queue.slots[at] = queue.slots[at].orphaned(handle);
    }
    queue
}

// What is not queued is not read, so the slots stay.
pub fn clear(mut queue: Queue) -> Queue
    ensures { result ≡ ring_clear queue }
{
    queue.tail = queue.head;
    queue
}
