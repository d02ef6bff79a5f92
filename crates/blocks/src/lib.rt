// A block of bytes, read from a reader that may give them in any pieces.
#![tactic(auto)]

ghost use Rattle.std.specs.Prelude.{◌≡◌, ◌<◌, take, length, IfOk};
ghost use Rattle.std.specs.Io.{ReadsAtMost};
ghost use Rattle.std.specs.Io.KnownBytes.{Consumes, IsAtEnd};

use std::io;
use std::io::{ErrorKind, Read};

// Reads once; a read that a signal cut short is tried again.
fn read<R: Read>(from: &mut R, block: &mut [u8]) -> io::Result<usize>
    ensures bound { ReadsAtMost result block.new }
    ensures len { length block.new ≡ length block.old }
    ensures bytes { IfOk result (λ n. Consumes (R.remaining from.old) (R.remaining from.new) (take n block.new)) }
    ensures end { IfOk result (λ n. n ≡ 0 → 0 < length block.old → IsAtEnd (R.remaining from.new)) }
{
    for _ in 0..u64::MAX {
        match from.read(block) {
            Ok(n) => return Ok(n),
            Err(e) => {
                if e.kind() != ErrorKind::Interrupted {
                    return Err(e);
                }
            }
        }
    }
    Err(io::Error::from(ErrorKind::Interrupted))
}

// Reads until the block is full or nothing more comes, and says how many bytes of it were read.
pub fn fill<R: Read>(from: &mut R, block: &mut [u8]) -> io::Result<usize>
    ensures bound { ReadsAtMost result block.new }
    ensures len { length block.new ≡ length block.old }
    ensures bytes { IfOk result (λ n. Consumes (R.remaining from.old) (R.remaining from.new) (take n block.new)) }
    ensures end { IfOk result (λ n. n < length block.old → IsAtEnd (R.remaining from.new)) }
{
    let mut filled = 0;
    while filled < block.len() {
        let n = read(from, &mut block[filled..])?;
        if n == 0 {
            break;
        }
        filled += n;
    }
    Ok(filled)
}
