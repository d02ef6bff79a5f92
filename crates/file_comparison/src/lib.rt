// Two logs that are read in portions, and compared.
#![tactic(auto)]

ghost use Rattle.std.specs.Prelude.{◌+◌, ◌≤◌, ◌≡◌, length};

use comparer::{Comparer, Comparison, Side};
use std::io;
use std::io::{Read, Write};
use std::ops::Range;

// Where the bytes of a buffer lie that were not taken yet, after some more were.
fn rest(window: Range<usize>, taken: usize) -> Range<usize>
    requires { window.start + taken ≤ window.end }
    ensures start_value { result.start ≡ window.start + taken }
    ensures start_le_end { result.start ≤ result.end }
    ensures end_value { result.end ≡ window.end }
{
    window.start + taken..window.end
}

// Compares what is read, in portions as long as the buffers, which hold a byte at least.
pub fn compare<L: Read, R: Read>(
    left_log: &mut L,
    right_log: &mut R,
    left: &mut [u8],
    right: &mut [u8],
) -> io::Result<Comparison>
    ensures left_len_unchanged { length left.new ≡ length left.old }
    ensures right_len_unchanged { length right.new ≡ length right.old }
{
    let mut comparer = Comparer::fresh();
    // where the bytes of a buffer lie that were not taken yet
    let mut first = 0..0;
    let mut second = 0..0;
    // at most 2^64 - 1 turns, of which each takes a byte at least or ends a log
    for _ in 0..u64::MAX {
        let left_wanted = comparer.wants(Side::Left);
        let right_wanted = comparer.wants(Side::Right);
        if !left_wanted && !right_wanted {
            break;
        }
        if left_wanted && first.is_empty() {
            first = 0..blocks::fill(left_log, left)?;
        }
        if right_wanted && second.is_empty() {
            second = 0..blocks::fill(right_log, right)?;
        }
        // nothing more comes of a log that wanted bytes, where none were read
        if left_wanted && first.is_empty() {
            comparer.over(Side::Left);
        }
        if right_wanted && second.is_empty() {
            comparer.over(Side::Right);
        }
        let taken = comparer.feed(
            &left[first.start..first.end],
            &right[second.start..second.end],
        );
        first = rest(first, taken.left);
        second = rest(second, taken.right);
    }
    Ok(comparer.answer())
}

// Compares what is read, and writes the answer.
pub fn show<L: Read, R: Read, W: Write>(
    left_log: &mut L,
    right_log: &mut R,
    left: &mut [u8],
    right: &mut [u8],
    lines: &mut W,
) -> io::Result<()>
    ensures left_len_unchanged { length left.new ≡ length left.old }
    ensures right_len_unchanged { length right.new ≡ length right.old }
{
    let comparison = compare(left_log, right_log, left, right)?;
    let mut out = [0u8; 640];
    let n = comparison_text::write(&mut out, comparison);
    lines.write_all(&out[..n])
}
