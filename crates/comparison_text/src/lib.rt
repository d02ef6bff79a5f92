// What is printed of a comparison, written into a lent buffer.
#![tactic(auto)]

ghost use Rattle.std.specs.Prelude.{◌+◌, ◌≤◌, ◌<◌, [], ◌∷◌, ◌++◌, ◌≡◌, length, drop};
ghost use Rattle.comparer.specs.Comparer.{what_in, verdict_in, end_at};
ghost use Rattle.comparison.specs.Compare.{kinds};
ghost use Rattle.comparison.specs.Text.{what_word, verdict_line, end_line, count_lines};
ghost use Rattle.comparison_text.specs.Text.{text_in};
ghost use Rattle.session_log.specs.Text.{line_of};
ghost use Rattle.text.specs.Line.{PutAt};

use comparer::{Comparison, Difference, Ending, What};
use text::{bad_line, cut_line, first_value, value, word};

// No comparison prints more.
pub const TEXT_MAX: usize = 640;

// Each of these functions puts its text at a place, and gives the place after it.
fn what_line(out: &mut [u8], at: usize, what: What) -> usize
    requires { at + 6 ≤ length out.old }
    ensures { PutAt out.old at (what_word (what_in what) ++ (10 ∷ [])) result out.new }
{
    match what {
        What::Kind => word(out, at, b" kind\n"),
        What::Body => word(out, at, b" body\n"),
        What::End => word(out, at, b" end\n"),
    }
}

fn verdict_line(out: &mut [u8], at: usize, difference: Option<Difference>) -> usize
    requires { at + 75 ≤ length out.old }
    ensures { PutAt out.old at (verdict_line (verdict_in difference)) result out.new }
{
    let Some(found) = difference else {
        return word(out, at, b"equal\n");
    };
    let mut end = word(out, at, b"differ");
    end = value(out, end, found.number);
    end = value(out, end, found.left_offset);
    end = value(out, end, found.right_offset);
    what_line(out, end, found.what)
}

// A word and a blank.
fn named(out: &mut [u8], at: usize, side: &[u8]) -> usize
    requires { at + (length side.now + 1) ≤ length out.old }
    ensures { PutAt out.old at (side.now ++ (32 ∷ [])) result out.new }
{
    let end = word(out, at, side);
    word(out, end, b" ")
}

// "A bad or cut log is named as such with its offset".
fn end_line(out: &mut [u8], at: usize, side: &[u8], ending: Ending) -> usize
    requires { at + (length side.now + 30) ≤ length out.old }
    ensures { PutAt out.old at (end_line side.now (end_at ending)) result out.new }
{
    match ending {
        Ending::Whole => at,
        Ending::Bad(place) => {
            let end = named(out, at, side);
            bad_line(out, end, place)
        }
        Ending::Cut(place) => {
            let end = named(out, at, side);
            cut_line(out, end, place)
        }
    }
}

// The counts of a kind in both logs.
fn count_line(out: &mut [u8], at: usize, kind: u64, left: u64, right: u64) -> usize
    requires at_in_bounds { at + 45 ≤ length out.old }
    requires kind_bound { kind < 100 }
    ensures { PutAt out.old at (line_of kind (left ∷ right ∷ [])) result out.new }
{
    let mut end = first_value(out, at, kind);
    end = value(out, end, left);
    end = value(out, end, right);
    word(out, end, b"\n")
}

fn count_lines(out: &mut [u8], at: usize, left: [u64; 11], right: [u64; 11]) -> usize
    requires { at + 495 ≤ length out.old }
    ensures { PutAt out.old at (count_lines kinds left right) result out.new }
{
    let mut end = at;
    for i in 0..11 {
        end = count_line(out, end, i as u64 + 1, left[i], right[i]);
    }
    end
}

// Writes what is printed of a comparison at the start of a buffer, and gives its length. A buffer that has no room for the longest is left as it is, and 0 is given.
pub fn write(out: &mut [u8], comparison: Comparison) -> usize
    ensures value { result ≡ length (text_in comparison out.old) }
    ensures out_after { out.new ≡ text_in comparison out.old ++ drop (length (text_in comparison out.old)) out.old }
    ensures upper_bound { result ≤ length out.new }
{
    if out.len() < TEXT_MAX {
        return 0;
    }
    let mut end = verdict_line(out, 0, comparison.difference);
    end = end_line(out, end, b"left", comparison.left.ending);
    end = end_line(out, end, b"right", comparison.right.ending);
    count_lines(out, end, comparison.left.counts, comparison.right.counts)
}
