// Compares recorded sessions in pairs, each in small portions: `compare_pairs LEFT RIGHT LEFT RIGHT ..`.
#![tactic(auto)]

use std::fs::File;
use std::io::Read;
use std::rt::Files;
use std::{env, fs, io};

// Opens a file; says so if that fails.
fn opened<R: Files + Eprint>(rt: &R, path: &str) -> io::Result<Option<R::File>> {
    match fs::open(rt, path) {
        Ok(file) => Ok(Some(file)),
        Err(error) => {
            eprintln!(rt; "{path}: {error}")?;
            Ok(None)
        }
    }
}

fn compare<L: Read, R: Read>(rt: &impl Print, left: &mut L, right: &mut R) -> io::Result<()> {
    let mut first = [0u8; 7];
    let mut second = [0u8; 31];
    file_comparison::show(left, right, &mut first, &mut second, &mut io::writer(rt))
}

fn pair<R: Files + Print + Eprint>(rt: &R, first: &str, second: &str) -> io::Result<()> {
    let left = opened(rt, first)?;
    let right = opened(rt, second)?;
    if let (Some(mut left), Some(mut right)) = (left, right) {
        compare(rt, &mut left, &mut right)?;
    }
    Ok(())
}

fn main(rt: HostRuntime) -> io::Result<()> {
    let mut paths = env::args(&rt)?.skip(1);
    while let (Some(first), Some(second)) = (paths.next(), paths.next()) {
        pair(&rt, first.as_str(), second.as_str())?;
    }
    Ok(())
}
