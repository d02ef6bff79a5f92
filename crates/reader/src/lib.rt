// Reading a log in portions: the bytes of a record are gathered until it is whole. The player and the comparer stand on this.
#![tactic(auto)]

ghost use Rattle.std.specs.Prelude.{◌≡◌, suc, ◌+◌, ◌-◌, ◌<◌, ◌≤◌, false, length, take, IfSome, MatchOption};
ghost use Rattle.reading.specs.Gather.{gather, gathered};
ghost use Rattle.reading.specs.Reading.{turn};
ghost use Rattle.session_log.specs.Record.{is_kind, body_length};
ghost use Rattle.reader.specs.Cursor.{at_most28, is_bad, call_number, next_cursor};
ghost use Rattle.reader.specs.Kind.{kind_number};
ghost use Rattle.reader.specs.Turn.{reading_of, turn_of, call_in, number_of};

// The kinds of records.
#[derive(Clone, Copy, Debug, PartialEq, Eq)]
pub enum Kind {
    Open,
    Close,
    Mode,
    Transmit,
    Receive,
    BusStart,
    BusResult,
    Time,
    Message,
    Configure,
    Unconfigure,
}

impl Kind {
    // The kind that a byte stands for.
    #[tactic(auto, using(crate::proofs::Codes::no_kind))]
    pub fn of(byte: u8) -> Option<Kind>
        ensures { MatchOption result (is_kind byte ≡ false) (λ kind. kind_number kind ≡ byte) }
    {
        match byte {
            1 => Some(Kind::Open),
            2 => Some(Kind::Close),
            3 => Some(Kind::Mode),
            4 => Some(Kind::Transmit),
            5 => Some(Kind::Receive),
            6 => Some(Kind::BusStart),
            7 => Some(Kind::BusResult),
            8 => Some(Kind::Time),
            9 => Some(Kind::Message),
            10 => Some(Kind::Configure),
            11 => Some(Kind::Unconfigure),
            _ => None,
        }
    }

    // How many bytes follow the kind.
    #[tactic(auto, unfolding(session_log::specs::Record::body_length))]
    pub fn body_length(self) -> usize
        ensures value { result ≡ body_length (kind_number self) }
        ensures upper_bound { result ≤ 27 }
    {
        match self {
            Kind::Open => 1,
            Kind::Close => 1,
            Kind::Mode => 5,
            Kind::Transmit => 27,
            Kind::Receive => 1,
            Kind::BusStart => 0,
            Kind::BusResult => 13,
            Kind::Time => 4,
            Kind::Message => 25,
            Kind::Configure => 27,
            Kind::Unconfigure => 0,
        }
    }
}

// Where a log is read: how many bytes of a record have come, the place of its kind, and whether an unknown kind has come.
#[derive(Clone, Copy)]
pub struct Cursor {
    pub count: usize,
    pub place: u64,
    pub ended: bool,
}

// A record that has come whole, and how many bytes it has.
#[derive(Clone, Copy)]
pub struct Whole {
    pub kind: Kind,
    pub length: usize,
}

// A turn of reading: the cursor after it, how many bytes of the portion it took, and the record that they made whole, if any.
#[derive(Clone, Copy)]
pub struct Turn {
    pub cursor: Cursor,
    pub taken: usize,
    pub came: Option<Whole>,
}

// How many bytes follow a byte that stands for a kind; none follow an unknown one.
#[tactic(auto, using(session_log::proofs::Gather::unknown_short))]
pub fn body_length(byte: u8) -> usize
    ensures value { result ≡ body_length byte }
    ensures upper_bound { result ≤ 27 }
{
    match Kind::of(byte) {
        Some(kind) => kind.body_length(),
        None => 0,
    }
}

impl Cursor {
    pub fn fresh() -> Cursor
        ensures { result ≡ record { count = 0; place = 0; ended = false } }
    {
        Cursor {
            count: 0,
            place: 0,
            ended: false,
        }
    }

    // How many bytes of the record are held. No record is longer than 28, so a count over that stands for 28.
    pub fn held(self) -> usize
        ensures value { result ≡ at_most28 self.count }
        ensures upper_bound { result ≤ 28 }
    {
        self.count.min(28)
    }

    // Only the first byte of a record is read as a kind: one of which bytes are held is not bad.
    fn is_bad(self, byte: u8) -> bool
        ensures { result ≡ is_bad self byte }
    {
        self.count == 0 && Kind::of(byte).is_none()
    }

    // The record that is whole where so many bytes of it have come.
    #[tactic(auto, unfolding(crate::specs::Cursor::call_number))]
    pub fn came(self, byte: u8, count: usize) -> Option<Whole>
        ensures number { number_of result ≡ call_number self byte count }
        ensures length { IfSome result (λ whole. whole.length ≡ at_most28 count) }
    {
        if self.is_bad(byte) || count <= body_length(byte) {
            return None;
        }
        // No log leads to a record of an unknown kind, of which bytes are held: the kind ends the log as it comes. `call_of` takes
        // what is no other kind for the last one, and so does this.
        Some(Whole {
            kind: Kind::of(byte).unwrap_or(Kind::Unconfigure),
            length: count.min(28),
        })
    }

    // The cursor where so many bytes of the record have come.
    #[tactic(auto, unfolding(crate::specs::Cursor::next_cursor))]
    pub fn next(self, byte: u8, count: usize) -> Cursor
        ensures { result ≡ next_cursor self byte count }
    {
        let place = self.place;
        if self.is_bad(byte) {
            return Cursor {
                count: 0,
                place,
                ended: true,
            };
        }
        if body_length(byte) < count {
            return Cursor {
                count: 0,
                place: place.wrapping_add(count.min(28) as u64),
                ended: false,
            };
        }
        Cursor {
            count,
            place,
            ended: false,
        }
    }
}

// How many bytes a record lacks that begins with a byte and of which so many have come; one at least, since a record is looked at after a byte of it.
fn lacking(byte: u8, count: usize) -> usize
    requires { count < 28 }
    ensures value { result ≡ suc (body_length byte - count) }
    ensures result_bound { count + result ≤ 28 }
{
    body_length(byte).saturating_sub(count) + 1
}

// Appends bytes to a record of which some have come, until it is whole or there are no more; says how many.
fn gather(bytes: &mut [u8; 28], cursor: Cursor, portion: &[u8]) -> usize
    requires { 1 ≤ length portion.now }
    ensures portion_value { gather (take cursor.count bytes.old) portion.now ≡ take (at_most28 cursor.count + result) bytes.new }
    ensures portion_value_2 { gathered (take cursor.count bytes.old) portion.now ≡ result }
    ensures bytes_len_2 { length bytes.new ≡ 28 }
    ensures upper_bound { result ≤ length portion.now }
    ensures result_bound { at_most28 cursor.count + result ≤ 29 }
{
    let count = cursor.held();
    // 28 bytes are a whole record of any kind: no log leads here, and the byte has no room
    if count == 28 {
        return 1;
    }
    let kind = if count == 0 { portion[0] } else { bytes[0] };
    let n = lacking(kind, count).min(portion.len());
    bytes[count..count + n].copy_from_slice(&portion[..n]);
    n
}

// Takes the bytes of a portion up to the end of a record, or an unknown kind. The record stands in the first bytes of the 28.
pub fn read(bytes: &mut [u8; 28], cursor: Cursor, portion: &[u8]) -> Turn
    ensures bytes_after { turn_of result bytes.new ≡ turn (reading_of bytes.old cursor) portion.now }
    ensures call_value { number_of result.came ≡ call_in (turn (reading_of bytes.old cursor) portion.now).read.came }
    ensures bytes_len { length bytes.new ≡ 28 }
    ensures length_bound { IfSome result.came (λ whole. whole.length ≤ 28) }
{
    if cursor.ended || portion.is_empty() {
        return Turn {
            cursor,
            taken: 0,
            came: None,
        };
    }
    let n = gather(bytes, cursor, portion);
    let kind = bytes[0];
    let count = cursor.held() + n;
    Turn {
        cursor: cursor.next(kind, count),
        taken: n,
        came: cursor.came(kind, count),
    }
}
