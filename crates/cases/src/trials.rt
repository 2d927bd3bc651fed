//! Trials of made-up inputs: each is run from input to report.

use crate::made::made_input;
use crate::random::Random;
use planning::{LONGEST_REPORT, whole_report};
use std::fmt;
use std::io::Write;

/// So many reports of a trial are written whole.
const SHOWN: u64 = 3;

/// How many reports there were of each kind, and a digest of them all: FNV-1a of 64 bits.
#[derive(Drop)]
struct Tally {
    holds: u64,
    misses: u64,
    open: u64,
    refused: u64,
    digest: u64,
}

impl Tally {
    fn new() -> Self {
        Tally {
            holds: 0,
            misses: 0,
            open: 0,
            refused: 0,
            digest: 0xcbf2_9ce4_8422_2325,
        }
    }

    fn add(&mut self, report: &[u8]) {
        match report.first() {
            Some(b'H') => self.holds = self.holds.saturating_add(1),
            Some(b'M') => self.misses = self.misses.saturating_add(1),
            Some(b'O') => self.open = self.open.saturating_add(1),
            _ => self.refused = self.refused.saturating_add(1),
        }
        for &byte in report {
            self.digest = (self.digest ^ u64::from(byte)).wrapping_mul(0x100_0000_01b3);
        }
    }
}

impl fmt::Display for Tally {
    fn fmt<W: fmt::Write>(&self, f: &mut fmt::Formatter<W>) -> fmt::Result {
        let Tally {
            holds,
            misses,
            open,
            refused,
            digest,
        } = self;
        write!(
            f,
            "{holds} HOLDS, {misses} MISSES, {open} OPEN, {refused} REFUSED, digest {digest:016x}"
        )
    }
}

/// Makes up so many inputs from a seed, and writes the first reports and the tally of all.
pub(crate) fn try_made(rt: &HostRuntime, seed: u64, count: u64) -> anyhow::Result<()> {
    let mut random = Random::new(seed);
    let mut tally = Tally::new();
    for number in 0..count {
        let input = made_input(rt.alloc(), &mut random)?;
        let mut out = [0; LONGEST_REPORT];
        let report = whole_report(input.as_slice(), &mut out);
        tally.add(report);
        if number < SHOWN {
            rt.stdout().write_all(report)?;
        }
    }
    rt.println(&tally)?;
    Ok(())
}
