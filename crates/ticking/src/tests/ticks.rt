//! Ticks of plan S under several orders, against tables that were worked out by hand.

use super::{S, has_rows, job_row, same, switch_row};
use delay::{DelayModel, LoadedBlocks, UsefulBlocks};
use dispatch::{EarliestDeadline, FixedPriority, NonPreemptive, Policy};
use plan::{Plan, admit};
use row_log::Log;
use schedule::{JobRow, Schedule, SwitchRow};
use std::test::Fail;

/// Does so many ticks and writes their rows into the logs.
fn do_ticks<P: Policy, M: DelayModel>(
    schedule: &mut Schedule,
    policy: &P,
    model: &mut M,
    count: u64,
    switches: &mut Log<SwitchRow>,
    jobs: &mut Log<JobRow>,
) {
    for _ in 0..count {
        if let Some(rows) = schedule.tick(policy, model) {
            if let Some(row) = rows.switch {
                let _ = switches.push(row);
            }
            if let Some(row) = rows.job {
                let _ = jobs.push(row);
            }
        }
    }
}

/// Whether so many ticks of a plan write just these rows.
fn rows_are<P: Policy, M: DelayModel>(
    plan: &Plan,
    policy: &P,
    model: &mut M,
    count: u64,
    switch_table: &[SwitchRow],
    job_table: &[JobRow],
) -> bool {
    let mut switch_rows = [SwitchRow::default(); 8];
    let mut switches = Log::over(&mut switch_rows);
    let mut job_rows = [JobRow::default(); 8];
    let mut jobs = Log::over(&mut job_rows);
    let mut schedule = Schedule::new(plan);
    do_ticks(
        &mut schedule,
        policy,
        model,
        count,
        &mut switches,
        &mut jobs,
    );
    has_rows(&switches, switch_table) && has_rows(&jobs, job_table)
}

#[test]
fn useful_blocks_under_fixed_priority_pay_twice(rt: HostRuntime) -> Result<(), Fail> {
    let plan = admit(&S)?;
    let policy = FixedPriority::new(&plan);
    let mut model = UsefulBlocks::new(&plan);
    let switches = [
        (0, 1, 0, 0),
        (1, 0, 0, 0),
        (3, 1, 0, 2),
        (7, 0, 1, 0),
        (9, 1, 0, 2),
    ]
    .map(switch_row);
    let jobs = [(0, 0, 1, 3, 0), (0, 1, 7, 9, 0)].map(job_row);
    assert!(rt; rows_are(&plan, &policy, &mut model, 12, &switches, &jobs));
    Ok(())
}

#[test]
fn nothing_is_preempted_under_the_layer(rt: HostRuntime) -> Result<(), Fail> {
    let plan = admit(&S)?;
    let policy = NonPreemptive {
        below: FixedPriority::new(&plan),
    };
    let mut model = UsefulBlocks::new(&plan);
    let switches = [(0, 1, 0, 0), (5, 0, 0, 0), (7, 0, 1, 0), (12, 1, 1, 0)].map(switch_row);
    let jobs = [(1, 0, 0, 5, 0), (0, 0, 1, 7, 0), (0, 1, 7, 9, 0)].map(job_row);
    assert!(rt; rows_are(&plan, &policy, &mut model, 13, &switches, &jobs));
    Ok(())
}

#[test]
fn the_nearer_deadline_keeps_the_core(rt: HostRuntime) -> Result<(), Fail> {
    let plan = admit(&S)?;
    let mut model = UsefulBlocks::new(&plan);
    let switches = [
        (0, 1, 0, 0),
        (1, 0, 0, 0),
        (3, 1, 0, 2),
        (9, 0, 1, 0),
        (12, 1, 1, 0),
    ]
    .map(switch_row);
    let jobs = [(0, 0, 1, 3, 0), (1, 0, 0, 9, 2), (0, 1, 7, 11, 0)].map(job_row);
    assert!(rt; rows_are(&plan, &EarliestDeadline, &mut model, 13, &switches, &jobs));
    Ok(())
}

/// After each tick: the running task, left and owed of task 0, left and owed of task 1, credit of task 1.
const STATES: [(Option<usize>, u32, u64, u32, u64, u16); 13] = [
    (Some(1), 0, 0, 4, 0, 1),
    (Some(0), 1, 0, 4, 0, 1),
    (None, 0, 0, 4, 0, 1),
    (Some(1), 0, 0, 4, 0, 1),
    (Some(1), 0, 0, 3, 0, 2),
    (Some(1), 0, 0, 2, 0, 2),
    (Some(1), 0, 0, 1, 0, 2),
    (Some(0), 1, 0, 1, 0, 2),
    (None, 0, 0, 1, 0, 2),
    (Some(1), 0, 0, 1, 1, 1),
    (Some(1), 0, 0, 1, 0, 2),
    (None, 0, 0, 0, 0, 0),
    (Some(1), 0, 0, 4, 0, 1),
];

#[test]
fn loaded_blocks_under_fixed_priority_state_by_state(rt: HostRuntime) -> Result<(), Fail> {
    let plan = admit(&S)?;
    let policy = FixedPriority::new(&plan);
    let mut model = LoadedBlocks::new(&plan);
    let mut schedule = Schedule::new(&plan);
    for state in STATES {
        let _ = schedule.tick(&policy, &mut model);
        let [first, second] = [0, 1].map(|task| schedule.slot(task));
        let told = (
            schedule.running(),
            first.left,
            first.owed,
            second.left,
            second.owed,
            model.mark(1).credit,
        );
        same(&rt, told, state);
    }
    same(&rt, schedule.slot(16).left, 0);
    same(&rt, schedule.clock(), 13);
    Ok(())
}
