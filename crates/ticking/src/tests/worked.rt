//! The worked advances of plan S under fixed priority with loaded blocks, in their order.

use super::{HOLDS_13_1_0, did, go_on, has_rows, job_row, open_loaded, refusal, same};
use delay::LoadedBlocks;
use dispatch::FixedPriority;
use fault::Cause;
use row_log::Log;
use run::{Run, Stop};
use schedule::{JobRow, SwitchRow};
use standing::Standing;
use std::process::Abort;
use std::test::Fail;

/// A run of the kind that the worked advances have.
type Worked = Run<FixedPriority, LoadedBlocks>;

/// With no room in one of the logs, no tick is done; an advance by 0 ticks asks for no room.
fn without_room(rt: &impl Abort, run: &mut Worked) {
    let mut jobs = Log::over(&mut []);
    let mut switches = Log::over(&mut []);
    same(
        rt,
        go_on(run, 0, &mut jobs, &mut switches),
        (did(0, Stop::CountReached), 0),
    );
    same(
        rt,
        go_on(run, 1, &mut jobs, &mut switches),
        (did(0, Stop::JobLogFull), 0),
    );
    let mut job_rows = [JobRow::default(); 1];
    let mut jobs = Log::over(&mut job_rows);
    same(
        rt,
        go_on(run, 1, &mut jobs, &mut switches),
        (did(0, Stop::SwitchLogFull), 0),
    );
    assert!(rt; has_rows(&jobs, &[]));
}

/// From instant 0 to 9, with a switch log that has room for all.
fn to_instant_9(rt: &impl Abort, run: &mut Worked, jobs: &mut Log<'_, JobRow>) {
    let mut switch_rows = [SwitchRow::default(); 9];
    let mut switches = Log::over(&mut switch_rows);
    same(
        rt,
        go_on(run, 100, jobs, &mut switches),
        (did(3, Stop::JobLogFull), 3),
    );
    assert!(rt; has_rows(jobs, &[job_row((0, 0, 1, 3, 0))]));
    assert!(rt; jobs.row(1) == Err(refusal(Cause::NoSuchEntry)));
    jobs.clear();
    same(
        rt,
        go_on(run, 6, jobs, &mut switches),
        (did(6, Stop::CountReached), 9),
    );
    assert!(rt; has_rows(jobs, &[job_row((0, 1, 7, 9, 0))]));
    same(
        rt,
        go_on(run, 1, jobs, &mut switches),
        (did(0, Stop::JobLogFull), 9),
    );
    assert!(rt; has_rows(jobs, &[job_row((0, 1, 7, 9, 0))]));
}

/// From instant 9 to 13, with a new switch log for each advance.
fn to_instant_13(rt: &impl Abort, run: &mut Worked, jobs: &mut Log<'_, JobRow>) {
    let mut switch_rows = [SwitchRow::default(); 9];
    jobs.clear();
    let mut switches = Log::over(&mut switch_rows[0..1]);
    same(
        rt,
        go_on(run, 100, jobs, &mut switches),
        (did(1, Stop::SwitchLogFull), 10),
    );
    assert!(rt; has_rows(jobs, &[]));
    let mut switches = Log::over(&mut switch_rows);
    same(
        rt,
        go_on(run, 100, jobs, &mut switches),
        (did(2, Stop::JobLogFull), 12),
    );
    assert!(rt; has_rows(jobs, &[job_row((1, 0, 0, 12, 3))]));
    jobs.clear();
    let mut switches = Log::over(&mut switch_rows[0..1]);
    same(
        rt,
        go_on(run, 100, jobs, &mut switches),
        (did(1, Stop::Closed), 13),
    );
    assert!(rt; has_rows(jobs, &[]));
}

/// At instant 13 the run is closed, and stays so.
fn closed(rt: &impl Abort, run: &mut Worked, jobs: &mut Log<'_, JobRow>) {
    let mut switch_rows = [SwitchRow::default(); 9];
    let mut switches = Log::over(&mut switch_rows);
    same(rt, run.standing(), HOLDS_13_1_0);
    same(
        rt,
        go_on(run, 0, jobs, &mut switches),
        (Err(refusal(Cause::RunClosed)), 13),
    );
    let too_long = go_on(run, 1_000_000_001, jobs, &mut switches);
    same(rt, too_long, (Err(refusal(Cause::AdvanceTooLong)), 13));
    same(rt, run.standing(), HOLDS_13_1_0);
    assert!(rt; has_rows(jobs, &[]) && has_rows(&switches, &[]));
}

#[test]
fn worked_advances(rt: HostRuntime) -> Result<(), Fail> {
    let mut run = open_loaded()?;
    same(&rt, run.standing(), Standing::Open);
    same(&rt, run.clock(), 0);
    without_room(&rt, &mut run);
    let mut job_rows = [JobRow::default(); 1];
    let mut jobs = Log::over(&mut job_rows);
    to_instant_9(&rt, &mut run, &mut jobs);
    to_instant_13(&rt, &mut run, &mut jobs);
    closed(&rt, &mut run, &mut jobs);
    Ok(())
}
