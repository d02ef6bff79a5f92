// The lines of a replay, and words and numbers of other lines, written into a lent buffer.
#![tactic(auto)]

ghost use Rattle.std.specs.Prelude.{◌+◌, ◌≤◌, ◌<◌, true, false, [], ◌∷◌, ◌++◌, ◌≡◌, length};
ghost use Rattle.session_log.specs.Text.{decimal, blanked, line_of, bad_line, cut_line};
ghost use Rattle.text.specs.Line.{said_of, PutAt, RoomAt, LineAt};

use entry::Entry;

// No line of a replay is longer.
pub const LINE_MAX: usize = 29;

// What an answer says: an errno, 0 for success, or an entry that was received.
#[derive(Clone, Copy)]
pub enum Said {
    Errno(u32),
    Entry(Entry),
}

// Each of these functions puts its text at a place, and gives the place after it.
fn byte(out: &mut [u8], at: usize, byte: u8) -> usize
    requires { at + 1 ≤ length out.old }
    ensures { PutAt out.old at (byte ∷ []) result out.new }
{
    out[at] = byte;
    at + 1
}

fn decimal(out: &mut [u8], at: usize, n: u64) -> usize
    requires { at + length (decimal n) ≤ length out.old }
    ensures { PutAt out.old at (decimal n) result out.new }
{
    if n < 10 {
        return byte(out, at, b'0' + n as u8);
    }
    let last = decimal(out, at, n / 10);
    byte(out, last, b'0' + (n % 10) as u8)
}

fn bytes(out: &mut [u8], at: usize, text: &[u8]) -> usize
    requires { at + length text.now ≤ length out.old }
    ensures { PutAt out.old at text.now result out.new }
{
    let end = at + text.len();
    out[at..end].copy_from_slice(text);
    end
}

// A blank and a number.
fn number(out: &mut [u8], at: usize, n: u64) -> usize
    requires { at + 1 + length (decimal n) ≤ length out.old }
    ensures { PutAt out.old at (blanked (n ∷ [])) result out.new }
{
    let next = byte(out, at, b' ');
    decimal(out, next, n)
}

// Numbers, a blank before each.
fn numbers(out: &mut [u8], at: usize, list: &[u64]) -> usize
    requires { at + length (blanked list.now) ≤ length out.old }
    ensures { PutAt out.old at (blanked list.now) result out.new }
{
    let mut end = at;
    for n in list {
        end = number(out, end, *n);
    }
    end
}

// Whether a buffer of a size has no room for so many bytes at a place.
fn lacks(size: usize, at: usize, most: usize) -> bool
    ensures size_bound { result ≡ true → size < at + most }
    ensures most_bound { result ≡ false → at + most ≤ size }
{
    size < most || size - most < at
}

// What an answer says. A receive that gave an entry says first that its errno is 0.
fn said_numbers(out: &mut [u8], at: usize, said: Said) -> usize
    requires { at + 25 ≤ length out.old }
    ensures put_at { PutAt out.old at (blanked (said_of said)) result out.new }
    ensures upper_bound { result ≤ at + 25 }
{
    match said {
        Said::Errno(errno) => number(out, at, u64::from(errno)),
        Said::Entry(entry) => numbers(
            out,
            at,
            &[
                0,
                u64::from(entry.sequence),
                u64::from(entry.tx_status),
                u64::from(entry.rx_status),
                u64::from(entry.message.length()),
            ],
        ),
    }
}

// The line of a record: its kind, and what the answer says.
#[tactic(auto, using(crate::proofs::Digits::decimal_8))]
pub fn answer_line(out: &mut [u8], at: usize, kind: u8, said: Said) -> usize
    ensures { LineAt out.old at (line_of kind (said_of said)) result out.new }
{
    if lacks(out.len(), at, LINE_MAX) {
        return at;
    }
    let begun = decimal(out, at, u64::from(kind));
    let end = said_numbers(out, begun, said);
    byte(out, end, b'\n')
}

// A word of three letters and a place in the log.
#[tactic(auto, using(crate::proofs::Digits::decimal_most, crate::proofs::Digits::last_most))]
fn place_line(out: &mut [u8], at: usize, word: &[u8; 3], place: u64) -> usize
    ensures { LineAt out.old at (word.now ++ (blanked (place ∷ []) ++ (10 ∷ []))) result out.new }
{
    if lacks(out.len(), at, LINE_MAX) {
        return at;
    }
    let said = bytes(out, at, word);
    let end = number(out, said, place);
    byte(out, end, b'\n')
}

// "An unknown kind prints `bad` and its offset".
pub fn bad_line(out: &mut [u8], at: usize, place: u64) -> usize
    ensures { LineAt out.old at (bad_line place) result out.new }
{
    place_line(out, at, b"bad", place)
}

// "a cut record at the end prints `cut` and its offset".
pub fn cut_line(out: &mut [u8], at: usize, place: u64) -> usize
    ensures { LineAt out.old at (cut_line place) result out.new }
{
    place_line(out, at, b"cut", place)
}

// A word, if it fits.
pub fn word(out: &mut [u8], at: usize, word: &[u8]) -> usize
    ensures { RoomAt (length word.now) out.old at word.now result out.new }
{
    if lacks(out.len(), at, word.len()) {
        return at;
    }
    bytes(out, at, word)
}

// A number, as it stands first on a line, if the longest fits.
#[tactic(auto, using(crate::proofs::Digits::decimal_most))]
pub fn first_value(out: &mut [u8], at: usize, n: u64) -> usize
    ensures { RoomAt 20 out.old at (decimal n) result out.new }
{
    if lacks(out.len(), at, 20) {
        return at;
    }
    decimal(out, at, n)
}

// A blank and a number, if the longest fits.
#[tactic(auto, using(crate::proofs::Digits::decimal_most))]
pub fn value(out: &mut [u8], at: usize, n: u64) -> usize
    ensures { RoomAt 21 out.old at (blanked (n ∷ [])) result out.new }
{
    if lacks(out.len(), at, 21) {
        return at;
    }
    number(out, at, n)
}
