// Plays a recorded session again: the file that is named, or standard input.
#![tactic(auto)]

use std::io::Read;
use std::{env, fs, io};

fn replay<R: Read>(rt: &impl Print, log: &mut R) -> io::Result<()> {
    let mut portion = [0u8; 65536];
    let mut out = [0u8; 65536];
    playback::play(log, &mut portion, &mut out, &mut io::writer(rt))
}

fn main(rt: HostRuntime) -> io::Result<()> {
    let mut args = env::args(&rt)?;
    let Some(path) = args.nth(1) else {
        return replay(&rt, &mut rt.reader());
    };
    match fs::open(&rt, path.as_str()) {
        Ok(mut log) => replay(&rt, &mut log),
        Err(error) => eprintln!(rt; "{path}: {error}"),
    }
}
