// All waits of the adapter: at most 32 in one list, oldest first.
#![tactic(auto)]

ghost use Rattle.std.specs.Prelude.{◌≤◌, ◌<◌, ◌≡◌, [], map, ltb, length, get_or, cond, MatchOption};
ghost use Rattle.lists.specs.Sums.{any, count};
ghost use Rattle.lists.specs.Places.{least, without};
ghost use Rattle.lists.specs.Vector.{put};
ghost use Rattle.wait.specs.Wait.{no_wait, owned_by, numbered, left_of, reduced};
ghost use Rattle.waits.specs.Waits.{waits_of, match_in, numbered_match, taken_of, due_at, due_taken, without_handle};

use message::Message;
use message::reply::Rule;
use wait::Wait;

#[repr(C)]
#[derive(Clone, Copy)]
pub struct Waits {
    slots: [Wait; 32],
    count: usize,
}

// A wait that a message ends: its place and the rule.
#[derive(Clone, Copy)]
pub struct Match {
    pub place: usize,
    pub rule: Rule,
}

impl Waits {
    pub fn empty() -> Waits
        ensures { waits_of result ≡ [] }
    {
        Waits {
            slots: [Wait::none(); 32],
            count: 0,
        }
    }

    // What is past the count is not read, so the slots stay.
    pub fn emptied(mut self) -> Waits
        ensures { waits_of result ≡ [] }
    {
        self.count = 0;
        self
    }

    fn all(&self) -> &[Wait]
        ensures value { result.now ≡ waits_of self.now }
        ensures upper_bound { length result.now ≤ 32 }
    {
        &self.slots[..self.count.min(32)]
    }

    pub fn count(self) -> usize
        ensures value { result ≡ length (waits_of self) }
        ensures upper_bound { result ≤ 32 }
    {
        self.all().len()
    }

    // The wait at a place, or none.
    pub fn at(self, i: usize) -> Wait
        ensures { result ≡ get_or (waits_of self) i no_wait }
    {
        self.all().get(i).copied().unwrap_or(Wait::none())
    }

    // One more at the end; a full list stays.
    pub fn put(mut self, wait: Wait) -> Waits
        ensures { waits_of result ≡ put 32 (waits_of self) wait }
    {
        let n = self.count;
        if n < 32 {
            self.slots[n] = wait;
            self.count = n + 1;
        }
        self
    }

    pub fn without_handle(mut self, handle: u8) -> Waits
        ensures { waits_of result ≡ without_handle handle (waits_of self) }
    {
        let n = self.count();
        let mut kept = 0;
        for i in 0..n {
            let wait = self.slots[i];
            self.slots[kept] = wait;
            kept += 1 - wait.owned_by(handle);
        }
        self.count = kept;
        self
    }

    pub fn without(mut self, at: usize) -> Waits
        ensures { waits_of result ≡ without at (waits_of self) }
    {
        let n = self.count();
        if at < n {
            self.slots.copy_within(at + 1..n, at);
            self.count = n - 1;
        }
        self
    }

    // The oldest that a message ends.
    pub fn first_match(self, message: Message) -> Option<Match>
        ensures { numbered_match (length (waits_of self)) result ≡ match_in message (waits_of self) }
    {
        let n = self.count();
        for place in 0..n {
            if let Some(rule) = self.slots[place].rule_for(message) {
                return Some(Match { place, rule });
            }
        }
        None
    }

    // Of two places, that of the less time left, the first where equal.
    fn sooner(self, at: usize, i: usize) -> usize
        requires { (at < 32) × (i < 32) }
        ensures { result ≡ cond (ltb (left_of (get_or self.slots i no_wait)) (left_of (get_or self.slots at no_wait))) i at }
    {
        if self.slots[i].left < self.slots[at].left {
            i
        } else {
            at
        }
    }

    // The place of the least time left, the oldest of equals.
    fn soonest(self) -> Option<usize>
        ensures { MatchOption result (waits_of self ≡ []) (λ at. (at < length (waits_of self)) × (at ≡ least left_of (waits_of self))) }
    {
        let n = self.count();
        if n == 0 {
            return None;
        }
        let mut at = 0;
        for i in 1..n {
            at = self.sooner(at, i);
        }
        Some(at)
    }

    // The place of the next to end within some milliseconds.
    #[tactic(auto, using(crate::specs::Waits::due_now, crate::specs::Waits::due_later, crate::specs::Waits::due_never))]
    fn due_at(self, ms: u32) -> Option<usize>
        ensures { MatchOption result (due_at ms (waits_of self) ≡ length (waits_of self)) (λ at. (at < length (waits_of self)) × (at ≡ due_at ms (waits_of self))) }
    {
        let at = self.soonest()?;
        (self.at(at).left <= ms).then_some(at)
    }

    // The next to end within some milliseconds is taken out.
    pub fn take_due(&mut self, ms: u32) -> Option<Wait>
        ensures { taken_of result (waits_of self.new) ≡ due_taken ms (waits_of self.old) }
    {
        let at = self.due_at(ms)?;
        let wait = self.at(at);
        *self = self.without(at);
        Some(wait)
    }

    // Each with its time left reduced.
    pub fn reduced(mut self, ms: u32) -> Waits
        ensures { waits_of result ≡ map (reduced ms) (waits_of self) }
    {
        let n = self.count();
        for i in 0..n {
            self.slots[i] = self.slots[i].reduced(ms);
        }
        self
    }

    pub fn count_of(self, handle: u8) -> usize
        ensures value { result ≡ count (owned_by handle) (waits_of self) }
        ensures upper_bound { result ≤ 32 }
    {
        self.all()
            .iter()
            .filter(|wait| wait.owner == handle)
            .count()
    }

    pub fn has_sequence(self, sequence: u32) -> bool
        ensures { result ≡ any (numbered sequence) (waits_of self) }
    {
        self.all().iter().any(|wait| wait.sequence == sequence)
    }
}
