//! The test program. A line of standard input is one of two things:
//!
//! - `NAME INPUT`: a name, and an input in hexadecimal digits. It prints the name, and after it the report of the input.
//! - `made SEED COUNT`: so many inputs are made up from a seed. It prints the line, the first of their reports, and after them how many
//!   there were of each kind, with a digest of all.

#![tactic(auto)]

mod hex;
mod made;
mod random;
mod trials;

use anyhow::Context;
use hex::unhex;
use planning::{LONGEST_REPORT, whole_report};
use std::io::{BufRead, BufReader, Write};
use trials::try_made;

/// What stands behind the first word of the line is an input.
fn answer_input(rt: &HostRuntime, line: &str) -> anyhow::Result<()> {
    let (name, digits) = line.split_once(' ').context("a line without a blank")?;
    let input = unhex(rt.alloc(), digits.as_bytes())?;
    rt.println(name)?;
    let mut out = [0; LONGEST_REPORT];
    rt.stdout()
        .write_all(whole_report(input.as_slice(), &mut out))?;
    Ok(())
}

/// What stands behind the first word of the line are two numbers.
fn answer_made(rt: &HostRuntime, line: &str, numbers: &str) -> anyhow::Result<()> {
    let (seed, count) = numbers.split_once(' ').context("a seed without a count")?;
    rt.println(line)?;
    try_made(rt, seed.parse::<u64>()?, count.parse::<u64>()?)
}

fn answer(rt: &HostRuntime, line: &str) -> anyhow::Result<()> {
    match line.strip_prefix("made ") {
        Some(numbers) => answer_made(rt, line, numbers),
        None => answer_input(rt, line),
    }
}

fn main(rt: HostRuntime) -> anyhow::Result<()> {
    for line in BufReader::new(rt.alloc(), rt.stdin())?.lines(rt.alloc()) {
        answer(&rt, line?.as_str())?;
    }
    Ok(())
}
