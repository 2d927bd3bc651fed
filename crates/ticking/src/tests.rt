//! Ticks and runs of small plans, against what was worked out by hand.

mod deciding;
mod refusals;
mod rows;
mod ticks;
mod worked;

use delay::{DelayModel, LoadedBlocks, UsefulBlocks};
use dispatch::{FixedPriority, Policy};
use fault::{Cause, Fault, Layer};
use plan::admit;
use row_log::Log;
use run::{Advance, Run, Stop};
use schedule::{JobRow, Summary, SwitchRow};
use standing::Standing;
use std::fmt::Debug;
use std::process::Abort;

/// Fails the test unless the two are the same. Proved once, where the macro would be proved at each place.
fn same<T: PartialEq + Debug + Drop>(rt: &impl Abort, told: T, wanted: T) {
    assert_eq!(rt; told, wanted);
}

/// Plan S.
const S: [u8; 60] = [
    0x11, 0x04, 0x00, 0x00, 0x10, 0x00, 0x06, 0x00, 0x00, 0x60, 0x00, 0x02, 0x09, 0x00, 0x00, 0x00,
    0x00, 0x00, 0x00, 0x00, 0x00, 0x00, 0x06, 0x00, 0x00, 0x00, 0x00, 0x00, 0x00, 0x00, 0x00, 0x00,
    0x00, 0x00, 0x00, 0x0c, 0x00, 0x00, 0xc0, 0x00, 0x05, 0x05, 0x00, 0x06, 0x00, 0x00, 0x00, 0x00,
    0x00, 0x00, 0x00, 0x06, 0x00, 0x00, 0x00, 0x00, 0x00, 0x00, 0x00, 0x00,
];

/// One task that always has the core: plan ONE.
const ONE: [u8; 31] = [
    0x10, 0x00, 0x00, 0x00, 0x00, 0x00, 0x01, 0x00, 0x00, 0x10, 0x00, 0x01, 0x00, 0x00, 0x00, 0x00,
    0x00, 0x00, 0x00, 0x00, 0x00, 0x00, 0x00, 0x00, 0x00, 0x00, 0x00, 0x00, 0x00, 0x00, 0x00,
];

/// How plan S is decided where no job is ever late.
const HOLDS_13_1_0: Standing = Standing::Holds {
    instant: 13,
    sample: 1,
    earlier: 0,
};

/// How plan S is decided where the delays are too long for task 1.
const MISSES_12_1_0: Standing = Standing::Misses {
    instant: 12,
    task: 1,
    job: 0,
};

/// A run of plan S under fixed priority with loaded blocks.
fn open_loaded() -> Result<Run<FixedPriority, LoadedBlocks>, Fault> {
    let plan = admit(&S)?;
    Ok(Run::open(&plan, FixedPriority::new(&plan), LoadedBlocks::new(&plan)))
}

/// A run of plan S under fixed priority with useful blocks.
fn open_useful() -> Result<Run<FixedPriority, UsefulBlocks>, Fault> {
    let plan = admit(&S)?;
    Ok(Run::open(&plan, FixedPriority::new(&plan), UsefulBlocks::new(&plan)))
}

/// What an advance answers, and the clock after it.
fn go_on<P: Policy, M: DelayModel>(
    run: &mut Run<P, M>,
    ticks: u64,
    jobs: &mut Log<'_, JobRow>,
    switches: &mut Log<'_, SwitchRow>,
) -> (Result<Advance, Fault>, u64) {
    let answer = run.advance(ticks, jobs, switches);
    (answer, run.clock())
}

/// An advance that has done so many ticks.
fn did(ticks: u64, stop: Stop) -> Result<Advance, Fault> {
    Ok(Advance { ticks, stop })
}

/// A refusal of the run, which names no place.
fn refusal(cause: Cause) -> Fault {
    Fault::new(Layer::Run, cause)
}

/// Instant, task, job, delay.
fn switch_row((instant, task, job, delay): (u64, usize, u64, u16)) -> SwitchRow {
    SwitchRow {
        instant,
        task,
        job,
        delay,
    }
}

/// Task, job, release, finish, delay.
fn job_row((task, job, release, finish, delay): (usize, u64, u64, u64, u64)) -> JobRow {
    JobRow {
        task,
        job,
        release,
        finish,
        delay,
    }
}

/// Jobs finished, worst response, total delay.
fn summary((finished, worst, delay): (u64, u64, u64)) -> Summary {
    Summary {
        finished,
        worst,
        delay,
    }
}

/// Whether the log has just these rows.
fn has_rows<T: Copy + PartialEq>(log: &Log<T>, rows: &[T]) -> bool {
    let same = |(number, row): (usize, &T)| log.row(number).is_ok_and(|x| x == *row);
    log.len() == rows.len() && rows.iter().enumerate().all(same)
}
