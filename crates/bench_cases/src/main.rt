// Plays the scripts that the arguments name, in their order. What is printed is held to the file `stdout`.
#![tactic(auto)]

use std::env::FillError;
use std::fs::File;
use std::io;
use std::rt::{Env, Files};

// No name of a script is longer.
const NAME_SIZE: usize = 64;

// The script of that name, with its name before the listing. One that cannot be opened is named on standard error.
fn play_named<R: Eprint + Files + Print>(rt: &R, name: &str) -> io::Result<()> {
    println!(rt; "-- {name}")?;
    let mut script = match File::open(rt, name) {
        Ok(script) => script,
        Err(error) => return eprintln!(rt; "{name}: {error}"),
    };
    let mut out = bench::page();
    bench_stream::play(&mut script, &mut io::writer(rt), &mut out)
}

fn main(rt: HostRuntime) -> io::Result<()> {
    let mut name = [0u8; NAME_SIZE];
    // std's `args` allocates, so an argument is read by its number until there is none.
    for k in 1..usize::MAX {
        match rt.arg(k, &mut name) {
            Ok(n) => match str::from_utf8(&name[..n]) {
                Ok(name) => play_named(&rt, name)?,
                Err(_) => eprintln!(rt; "argument {k} is no text")?,
            },
            Err(FillError::TooLong) => eprintln!(rt; "argument {k} is too long")?,
            Err(FillError::NotPresent) => break,
        }
    }
    Ok(())
}
