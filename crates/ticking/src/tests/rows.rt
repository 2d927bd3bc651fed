//! What plan S under fixed priority with loaded blocks writes down, and what is told of its tasks.

use super::{did, go_on, has_rows, job_row, open_loaded, refusal, same, summary, switch_row};
use fault::Cause;
use row_log::Log;
use run::Stop;
use schedule::{JobRow, SwitchRow};
use std::test::Fail;

/// Its switches up to instant 13.
const SWITCHES: [(u64, usize, u64, u16); 6] = [
    (0, 1, 0, 0),
    (1, 0, 0, 0),
    (3, 1, 0, 1),
    (7, 0, 1, 0),
    (9, 1, 0, 2),
    (12, 1, 1, 0),
];

/// Its jobs up to instant 13.
const JOBS: [(usize, u64, u64, u64, u64); 3] = [(0, 0, 1, 3, 0), (0, 1, 7, 9, 0), (1, 0, 0, 12, 3)];

#[test]
fn a_run_writes_down_its_switches_and_jobs(rt: HostRuntime) -> Result<(), Fail> {
    let mut run = open_loaded()?;
    let mut job_rows = [JobRow::default(); 8];
    let mut switch_rows = [SwitchRow::default(); 8];
    let mut jobs = Log::over(&mut job_rows);
    let mut switches = Log::over(&mut switch_rows);
    let whole = go_on(&mut run, 1_000_000_000, &mut jobs, &mut switches);
    same(&rt, whole, (did(13, Stop::Closed), 13));
    assert!(rt; has_rows(&switches, &SWITCHES.map(switch_row)));
    assert!(rt; has_rows(&jobs, &JOBS.map(job_row)));
    Ok(())
}

#[test]
fn clearing_one_log_leaves_the_other(rt: HostRuntime) -> Result<(), Fail> {
    let mut run = open_loaded()?;
    let mut job_rows = [JobRow::default(); 8];
    let mut switch_rows = [SwitchRow::default(); 4];
    let mut jobs = Log::over(&mut job_rows);
    let mut switches = Log::over(&mut switch_rows);
    let before = go_on(&mut run, 13, &mut jobs, &mut switches);
    switches.clear();
    same(&rt, before, (did(8, Stop::SwitchLogFull), 8));
    assert!(rt; has_rows(&switches, &[]));
    assert!(rt; has_rows(&jobs, &[(0, 0, 1, 3, 0)].map(job_row)));
    let after = go_on(&mut run, 5, &mut jobs, &mut switches);
    same(&rt, after, (did(5, Stop::Closed), 13));
    assert!(rt;
        has_rows(&switches, &[(9, 1, 0, 2), (12, 1, 1, 0)].map(switch_row)),
        "from row 0 on again"
    );
    assert!(rt; has_rows(&jobs, &JOBS.map(job_row)));
    Ok(())
}

#[test]
fn summaries_tell_of_finished_jobs_of_live_ones_and_of_all_delay(
    rt: HostRuntime,
) -> Result<(), Fail> {
    let mut run = open_loaded()?;
    let mut job_rows = [JobRow::default(); 8];
    let mut switch_rows = [SwitchRow::default(); 8];
    let mut jobs = Log::over(&mut job_rows);
    let mut switches = Log::over(&mut switch_rows);
    // at 1, 7 and 12 a job is due, which has no age yet
    for (ticks, clock, first, second) in [
        (0, 0, (0, 0, 0), (0, 0, 0)),
        (1, 1, (0, 0, 0), (0, 1, 0)),
        (1, 2, (0, 1, 0), (0, 2, 0)),
        (1, 3, (1, 2, 0), (0, 3, 0)),
        (4, 7, (1, 2, 0), (0, 7, 1)),
        (3, 10, (2, 2, 0), (0, 10, 3)),
        (2, 12, (2, 2, 0), (1, 12, 3)),
        (1, 13, (2, 2, 0), (1, 12, 3)),
    ] {
        same(
            &rt,
            go_on(&mut run, ticks, &mut jobs, &mut switches).1,
            clock,
        );
        same(
            &rt,
            run.summaries().as_slice(),
            [first, second].map(summary).as_slice(),
        );
        same(&rt, run.summary(0), Ok(summary(first)));
        same(&rt, run.summary(1), Ok(summary(second)));
    }
    same(&rt, run.summary(2), Err(refusal(Cause::NoSuchEntry)));
    same(
        &rt,
        run.summary(usize::MAX),
        Err(refusal(Cause::NoSuchEntry)),
    );
    Ok(())
}
