// Two recorded sessions compared while they come in portions.
#![tactic(auto)]

ghost use Rattle.std.specs.Prelude.{◌≡◌, ℕ, ◌≤◌, ◌||◌, MatchOption, List, length};
ghost use Rattle.comparison.specs.Compare.{field_of, meant, same_bytes, kinds};
ghost use Rattle.comparison.specs.Comparing.{met, alone, counted, is_wanted, FedSide, fed_side, fresh_side, settled, fresh_comparing, side_of, decided_at, fed, over, answer_of};
ghost use Rattle.comparer.specs.Comparer.{field_in, Marks, is_right, log_in, progress_in, comparing_of, fed_in, end_at, end_in, comparison_of, found, what_in};
ghost use Rattle.reading.specs.Reading.{end_of};
ghost use Rattle.session_log.specs.Record.{kind_of};
ghost use Rattle.reader.specs.Turn.{reading_of};

use reader::{Cursor, Whole};
use std::ops::Range;

// One of the two logs.
#[derive(Clone, Copy, PartialEq, Eq)]
pub enum Side {
    Left,
    Right,
}

// What of two records differs.
#[derive(Clone, Copy, PartialEq, Eq)]
pub enum What {
    Kind,
    Body,
    End,
}

// The first difference: the number of the record, and its offset in each log.
#[derive(Clone, Copy, PartialEq, Eq)]
pub struct Difference {
    pub what: What,
    pub number: u64,
    pub left_offset: u64,
    pub right_offset: u64,
}

// How a log ends; a bad or cut one with the place where it does.
#[derive(Clone, Copy, PartialEq, Eq)]
pub enum Ending {
    Whole,
    Bad(u64),
    Cut(u64),
}

// How many records of each kind a log has, and how it ends.
#[derive(Clone, Copy)]
pub struct End {
    pub counts: [u64; 11],
    pub ending: Ending,
}

// What differs first, if anything does, and how each log ends.
#[derive(Clone, Copy)]
pub struct Comparison {
    pub difference: Option<Difference>,
    pub left: End,
    pub right: End,
}

// How many bytes of a portion of each log were taken.
#[derive(Clone, Copy, PartialEq, Eq)]
pub struct Taken {
    pub left: usize,
    pub right: usize,
}

// A log: where it is read, the whole record that waits for one of the other log, whether nothing more comes, the bytes of a record, and how many records of
// each kind have come.
#[derive(Clone, Copy)]
struct Log {
    cursor: Cursor,
    waits: Option<Whole>,
    over: bool,
    bytes: [u8; 28],
    counts: [u64; 11],
}

// The number and the place of the next two records, or the first difference.
#[derive(Clone, Copy)]
enum Progress {
    Going { number: u64, place: u64 },
    Decided(Difference),
}

// Both logs, and how far the comparison has come.
#[derive(Clone, Copy)]
pub struct Comparer {
    left: Log,
    right: Log,
    progress: Progress,
}

// Where a record of a kind has a length, and for how many bytes there is room after it.
#[derive(Clone, Copy)]
struct Field {
    length_at: usize,
    size: usize,
}

fn field_of(kind: u8) -> Option<Field>
    ensures value { field_in result ≡ field_of kind }
    ensures bound { MatchOption result Unit (λ field. (field.length_at ≤ 10) × (field.size ≤ 16)) }
{
    match kind {
        4 => Some(Field {
            length_at: 2,
            size: 16,
        }),
        9 => Some(Field {
            length_at: 1,
            size: 16,
        }),
        10 => Some(Field {
            length_at: 10,
            size: 14,
        }),
        _ => None,
    }
}

// Where the bytes past a length lie, if a record has a length.
fn past_of(bytes: &[u8]) -> Option<Range<usize>>
    ensures { Marks bytes.now result }
{
    let kind = *bytes.first()?;
    let field = field_of(kind)?;
    let length = usize::from(*bytes.get(field.length_at)?);
    let from = field.length_at + 1;
    let end = (from + field.size).min(bytes.len());
    Some((from + length).min(end)..end)
}

fn kind_of(bytes: &[u8]) -> u8
    ensures { result ≡ kind_of bytes.now }
{
    bytes.first().copied().unwrap_or(0)
}

// Whether two records agree: "Bytes past a length don't make a difference, all others do."
fn agree(left: &[u8], right: &[u8]) -> bool
    ensures { result ≡ same_bytes (meant left.now) (meant right.now) }
{
    if left.len() != right.len() {
        return false;
    }
    match past_of(left) {
        Some(past) => {
            left[..past.start] == right[..past.start] && left[past.end..] == right[past.end..]
        }
        None => left == right,
    }
}

// One record more of a kind.
fn counted(mut counts: [u64; 11], kind: u8) -> [u64; 11]
    ensures { result ≡ counted kinds counts kind }
{
    if !(1..=11).contains(&kind) {
        return counts;
    }
    let i = usize::from(kind - 1);
    counts[i] = counts[i].wrapping_add(1);
    counts
}

impl Log {
    fn fresh() -> Log
        ensures { log_in result ≡ fresh_side }
    {
        Log {
            cursor: Cursor::fresh(),
            waits: None,
            over: false,
            bytes: [0; 28],
            counts: [0; 11],
        }
    }

    // "A bad or cut log is .. taken as ending there."
    fn is_done(&self) -> bool
        ensures { result ≡ (self.now.over || self.now.cursor.ended) }
    {
        self.over || self.cursor.ended
    }

    // Bytes can be taken: no record waits, and the log is not done.
    fn is_wanted(&self) -> bool
        ensures { result ≡ is_wanted (log_in self.now) }
    {
        self.waits.is_none() && !self.is_done()
    }

    // Takes a portion up to the end of a record, and says how much of it; nothing while a record waits, or once nothing more comes.
    fn read(&mut self, portion: &[u8]) -> usize
        ensures { record { side = log_in self.new; taken = result } ≡ fed_side (log_in self.old) portion.now }
    {
        if self.waits.is_some() || self.over {
            return 0;
        }
        let turn = reader::read(&mut self.bytes, self.cursor, portion);
        self.cursor = turn.cursor;
        self.waits = turn.came;
        if turn.came.is_some() {
            self.counts = counted(self.counts, self.bytes[0]);
        }
        turn.taken
    }

    fn ending(self) -> Ending
        ensures { end_at result ≡ end_of (reading_of self.bytes self.cursor) }
    {
        if self.cursor.ended {
            return Ending::Bad(self.cursor.place);
        }
        if self.cursor.count == 0 {
            return Ending::Whole;
        }
        Ending::Cut(self.cursor.place)
    }

    fn end(self) -> End
        ensures counts_value { result.counts ≡ self.counts }
        ensures ending_value { end_in result ≡ end_of (reading_of self.bytes self.cursor) }
    {
        let counts = self.counts;
        End {
            counts,
            ending: self.ending(),
        }
    }
}

impl Progress {
    // The two records of one number: kind before body.
    fn met(self, left: &[u8], right: &[u8]) -> Progress
        ensures { progress_in result ≡ met (progress_in self) left.now right.now }
    {
        let Progress::Going { number, place } = self else {
            return self;
        };
        if kind_of(left) != kind_of(right) {
            return decided(What::Kind, number, place);
        }
        if !agree(left, right) {
            return decided(What::Body, number, place);
        }
        Progress::Going {
            number: number.wrapping_add(1),
            place: place.wrapping_add(left.len() as u64),
        }
    }

    // A record where the other log has none.
    fn alone(self) -> Progress
        ensures { progress_in result ≡ alone (progress_in self) }
    {
        match self {
            Progress::Going { number, place } => decided(What::End, number, place),
            Progress::Decided(_) => self,
        }
    }

    fn difference(self) -> Option<Difference>
        ensures { result ≡ found self }
    {
        match self {
            Progress::Going { .. } => None,
            Progress::Decided(difference) => Some(difference),
        }
    }
}

// Up to the first difference both logs are at one place.
fn decided(what: What, number: u64, place: u64) -> Progress
    ensures { progress_in result ≡ decided_at number place (what_in what) }
{
    Progress::Decided(Difference {
        what,
        number,
        left_offset: place,
        right_offset: place,
    })
}

impl Comparer {
    pub fn fresh() -> Comparer
        ensures { comparing_of result ≡ fresh_comparing }
    {
        Comparer {
            left: Log::fresh(),
            right: Log::fresh(),
            progress: Progress::Going {
                number: 0,
                place: 0,
            },
        }
    }

    // Whether a log can take bytes: no record of it waits for one of the other log, and it is not done.
    pub fn wants(&self, side: Side) -> bool
        ensures { result ≡ is_wanted (side_of (is_right side) (comparing_of self.now)) }
    {
        match side {
            Side::Left => self.left.is_wanted(),
            Side::Right => self.right.is_wanted(),
        }
    }

    // Two records that wait meet; one that waits for a log that is done has none to meet.
    fn settle(&mut self)
        ensures { comparing_of self.new ≡ settled (comparing_of self.old) }
    {
        match (self.left.waits, self.right.waits) {
            (Some(first), Some(second)) => {
                let left = &self.left.bytes[..first.length.min(28)];
                let right = &self.right.bytes[..second.length.min(28)];
                self.progress = self.progress.met(left, right);
                self.left.waits = None;
                self.right.waits = None;
            }
            (Some(_), None) => {
                if self.right.is_done() {
                    self.progress = self.progress.alone();
                    self.left.waits = None;
                }
            }
            (None, Some(_)) => {
                if self.left.is_done() {
                    self.progress = self.progress.alone();
                    self.right.waits = None;
                }
            }
            (None, None) => {}
        }
    }

    // Takes a portion of each log, as long as one of the two wants bytes and has some.
    pub fn feed(&mut self, left: &[u8], right: &[u8]) -> Taken
        ensures result_value { fed_in self.new result ≡ fed (comparing_of self.old) left.now right.now }
        ensures left_in_bounds { result.left ≤ length left.now }
        ensures right_in_bounds { result.right ≤ length right.now }
    {
        let mut l = 0;
        let mut r = 0;
        loop {
            if self.left.is_wanted() && l < left.len() {
                let n = self.left.read(&left[l..]);
                l += n;
            } else if self.right.is_wanted() && r < right.len() {
                let n = self.right.read(&right[r..]);
                r += n;
            } else {
                return Taken { left: l, right: r };
            }
            self.settle();
        }
    }

    // Nothing more comes of a log.
    pub fn over(&mut self, side: Side)
        ensures { comparing_of self.new ≡ over (comparing_of self.old) (is_right side) }
    {
        match side {
            Side::Left => self.left.over = true,
            Side::Right => self.right.over = true,
        }
        self.settle();
    }

    // The answer, if nothing more comes of either log.
    pub fn answer(mut self) -> Comparison
        ensures { comparison_of result ≡ answer_of (comparing_of self) }
    {
        self.settle();
        let progress = if self.left.waits.is_some() | self.right.waits.is_some() {
            self.progress.alone()
        } else {
            self.progress
        };
        Comparison {
            difference: progress.difference(),
            left: self.left.end(),
            right: self.right.end(),
        }
    }
}
