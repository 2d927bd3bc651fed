//! What an advance refuses, and that a refusal changes nothing.

use super::{MISSES_12_1_0, did, go_on, has_rows, job_row, open_useful, refusal, same};
use fault::Cause;
use row_log::Log;
use run::Stop;
use schedule::{JobRow, SwitchRow};
use standing::Standing;
use std::test::Fail;

#[test]
fn an_advance_by_too_many_ticks_is_refused(rt: HostRuntime) -> Result<(), Fail> {
    let mut run = open_useful()?;
    let mut switch_rows = [SwitchRow::default(); 8];
    let mut jobs = Log::over(&mut []);
    let mut switches = Log::over(&mut switch_rows);
    for (ticks, answer) in [
        (1_000_000_001, Err(refusal(Cause::AdvanceTooLong))),
        (u64::MAX, Err(refusal(Cause::AdvanceTooLong))),
        (1_000_000_000, did(0, Stop::JobLogFull)),
    ] {
        same(
            &rt,
            go_on(&mut run, ticks, &mut jobs, &mut switches),
            (answer, 0),
        );
        assert!(rt; has_rows(&jobs, &[]) && has_rows(&switches, &[]));
    }
    same(&rt, run.standing(), Standing::Open);
    Ok(())
}

#[test]
fn a_run_with_a_late_job_is_closed(rt: HostRuntime) -> Result<(), Fail> {
    let mut run = open_useful()?;
    let mut job_rows = [JobRow::default(); 8];
    let mut switch_rows = [SwitchRow::default(); 8];
    let mut jobs = Log::over(&mut job_rows);
    let mut switches = Log::over(&mut switch_rows);
    for (ticks, answer) in [
        (12, did(12, Stop::Closed)),
        (0, Err(refusal(Cause::RunClosed))),
        (1_000_000_000, Err(refusal(Cause::RunClosed))),
        (1_000_000_001, Err(refusal(Cause::AdvanceTooLong))),
    ] {
        same(
            &rt,
            go_on(&mut run, ticks, &mut jobs, &mut switches),
            (answer, 12),
        );
        assert!(rt; has_rows(&jobs, &[(0, 0, 1, 3, 0), (0, 1, 7, 9, 0)].map(job_row)));
    }
    same(&rt, run.standing(), MISSES_12_1_0);
    Ok(())
}
