// Plays a log in portions of a given size, with a small buffer for the lines: `portions FILE SIZE`.
#![tactic(auto)]

ghost use Rattle.std.specs.Prelude.{◌≤◌};

use std::io::Read;
use std::{env, fs, io};

// A byte that is no digit counts as 0.
fn digit(byte: u8) -> usize
    ensures { result ≤ 9 }
{
    match byte {
        b'0'..=b'9' => usize::from(byte - b'0'),
        _ => 0,
    }
}

// The number that the digits of a word make; after four or five digits the rest is left.
fn number_of(word: &[u8]) -> usize
    ensures { result ≤ 65536 }
{
    let mut n = 0;
    for byte in word {
        if n >= 6553 {
            return n;
        }
        n = n * 10 + digit(*byte);
    }
    n
}

// The size that a word asks for; one of more than eight bytes asks for none.
fn size_of_word(word: &str) -> usize
    ensures { result ≤ 65536 }
{
    if word.len() > 8 {
        return 0;
    }
    number_of(word.as_bytes())
}

fn play<R: Read>(rt: &impl Print, log: &mut R, size: usize) -> io::Result<()>
    requires { size ≤ 65536 }
{
    let mut portion = [0u8; 65536];
    let mut out = [0u8; 64];
    playback::play(log, &mut portion[..size], &mut out, &mut io::writer(rt))
}

fn main(rt: HostRuntime) -> io::Result<()> {
    let args: Vec<String> = env::args(&rt)?.collect(rt.alloc())?;
    let path = args.get(1).map_or("", |arg| arg.as_str());
    let word = args.get(2).map_or("", |arg| arg.as_str());
    let size = size_of_word(word);
    match fs::open(&rt, path) {
        Ok(mut log) => play(&rt, &mut log, size),
        Err(error) => eprintln!(rt; "{path}: {error}"),
    }
}
