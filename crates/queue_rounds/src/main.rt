// Queues whose head begins at a position: 10,000 transmissions go through each, from place 31 to 0 hundreds of times and, near the greatest position, across the wrap.
// For each it prints how many came out in their turn, and then what is queued of 19 that were put across the wrap, before a close and after it.
#![tactic(auto)]

use queue::Queue;
use std::io;
use transmission::Transmission;

const MANY: u32 = 10000;

// The greatest position, after which 0 comes.
const LAST: u32 = 4294967295;

#[derive(Clone, Copy)]
struct Run {
    queue: Queue,
    put: u32,
    taken: u32,
    in_turn: u32,
}

fn transmission(owner: u8, sequence: u32) -> Transmission {
    let mut one = Transmission::none();
    one.owner = owner;
    one.sequence = sequence;
    one
}

// One more, numbered after the last; handles 2 and 1 by turns.
fn one_in(mut run: Run) -> Run {
    let n = run.put.wrapping_add(1);
    run.put = n;
    run.queue = run.queue.put(transmission((n % 2 + 1) as u8, n));
    run
}

// The head, which is in its turn if its number is the next.
fn one_out(mut run: Run) -> Run {
    let n = run.taken.wrapping_add(1);
    run.taken = n;
    if (run.queue.head().sequence == n) & run.queue.has_sequence(n) {
        run.in_turn = run.in_turn.wrapping_add(1);
    }
    run.queue = run.queue.without_head();
    run
}

// One in, and then one out where it is asked, so many times.
fn turns(mut run: Run, many: u32, out: bool) -> Run {
    for _ in 0..many {
        run = one_in(run);
        if out {
            run = one_out(run);
        }
    }
    run
}

// A queue that begins at a position, after so many were put.
fn filled(position: u32, many: u32) -> Run {
    let start = Run {
        queue: Queue::empty_at(position),
        put: 0,
        taken: 0,
        in_turn: 0,
    };
    turns(start, many, false)
}

fn say_turns(rt: &impl Print, position: u32, queued: u32) -> io::Result<()> {
    let in_turn = turns(filled(position, queued), MANY, true).in_turn;
    println!(rt; "from position {position}, with {queued} queued before: in turn {in_turn}")
}

fn say_queued(rt: &impl Print, text: &str, queue: Queue) -> io::Result<()> {
    println!(rt;
        "{text}: queued {}, the last is number {}; of handle 1 {}, of handle 2 {}",
        queue.count(),
        queue.at(17).sequence,
        queue.owed(1).room,
        queue.owed(2).room
    )
}

fn main(rt: HostRuntime) -> io::Result<()> {
    say_turns(&rt, 0, 0)?;
    say_turns(&rt, 31, 17)?;
    say_turns(&rt, LAST - 5000, 3)?;
    say_turns(&rt, LAST, 17)?;
    let queue = filled(LAST - 8, 19).queue;
    say_queued(&rt, "19 put across the wrap", queue)?;
    say_queued(&rt, "handle 2 closed", queue.orphaned(2))?;
    say_queued(&rt, "emptied", queue.emptied())
}
