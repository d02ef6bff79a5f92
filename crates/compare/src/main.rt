// Compares two recorded sessions: `compare LEFT RIGHT`.
#![tactic(auto)]

use std::io::Read;
use std::{env, fs, io};

fn compare<L: Read, R: Read>(rt: &impl Print, left: &mut L, right: &mut R) -> io::Result<()> {
    let mut first = [0u8; 65536];
    let mut second = [0u8; 65536];
    file_comparison::show(left, right, &mut first, &mut second, &mut io::writer(rt))
}

fn main(rt: HostRuntime) -> io::Result<()> {
    let mut args = env::args(&rt)?.skip(1);
    let (Some(first), Some(second)) = (args.next(), args.next()) else {
        return eprintln!(rt; "usage: compare LEFT RIGHT");
    };
    let mut left = match fs::open(&rt, first.as_str()) {
        Ok(left) => left,
        Err(error) => return eprintln!(rt; "{first}: {error}"),
    };
    match fs::open(&rt, second.as_str()) {
        Ok(mut right) => compare(&rt, &mut left, &mut right),
        Err(error) => eprintln!(rt; "{second}: {error}"),
    }
}
