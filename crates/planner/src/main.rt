//! The planner: reads an order line and a plan from standard input, and writes their report.

#![tactic(auto)]

use planning::{LONGEST_REPORT, whole_report};
use std::io;
use std::io::{Read, Write};

fn main(rt: HostRuntime) -> io::Result<()> {
    let mut input = Vec::new(rt.alloc());
    rt.stdin().read_to_end(&mut input)?;
    let mut out = [0; LONGEST_REPORT];
    rt.stdout()
        .write_all(whole_report(input.as_slice(), &mut out))
}
