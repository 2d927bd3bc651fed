//! How runs are decided, tick by tick and in one advance, and under rules of a maker's own.

use super::{HOLDS_13_1_0, MISSES_12_1_0, ONE, S, did, go_on, same, summary};
use customer::{Favourite, FlatCost};
use delay::{DelayModel, MarkModel, NoDelay, UsefulBlocks};
use dispatch::{EarliestDeadline, FixedPriority, NonPreemptive, Policy};
use plan::{Plan, admit};
use row_log::Log;
use run::{Run, Stop};
use schedule::{JobRow, Summary, SwitchRow};
use standing::Standing;
use std::test::Fail;

/// How a run of a plan of two tasks stands at instant 20, or earlier where it is decided, and the summaries of its tasks.
fn decided<P: Policy + Drop, M: DelayModel + Drop>(
    plan: &Plan,
    policy: P,
    model: M,
) -> (Standing, Option<Summary>, Option<Summary>) {
    let mut run = Run::open(plan, policy, model);
    let mut job_rows = [JobRow::default(); 32];
    let mut switch_rows = [SwitchRow::default(); 32];
    let mut jobs = Log::over(&mut job_rows);
    let mut switches = Log::over(&mut switch_rows);
    let _ = run.advance(20, &mut jobs, &mut switches);
    (run.standing(), run.summary(0).ok(), run.summary(1).ok())
}

#[test]
fn the_first_comparison_may_decide_at_instant_1(rt: HostRuntime) -> Result<(), Fail> {
    let plan = admit(&ONE)?;
    let holds_1_1_0 = Standing::Holds {
        instant: 1,
        sample: 1,
        earlier: 0,
    };
    same(
        &rt,
        decided(&plan, EarliestDeadline, NoDelay::new(&plan)),
        (holds_1_1_0, Some(summary((1, 1, 0))), None),
    );
    Ok(())
}

#[test]
fn a_late_job_decides(rt: HostRuntime) -> Result<(), Fail> {
    let plan = admit(&S)?;
    same(
        &rt,
        decided(&plan, FixedPriority::new(&plan), UsefulBlocks::new(&plan)),
        (
            MISSES_12_1_0,
            Some(summary((2, 2, 0))),
            Some(summary((0, 12, 4))),
        ),
    );
    Ok(())
}

#[test]
fn a_run_may_go_tick_by_tick(rt: HostRuntime) -> Result<(), Fail> {
    let plan = admit(&S)?;
    let mut run = Run::open(&plan, FixedPriority::new(&plan), NoDelay::new(&plan));
    let mut job_rows = [JobRow::default(); 32];
    let mut switch_rows = [SwitchRow::default(); 32];
    let mut jobs = Log::over(&mut job_rows);
    let mut switches = Log::over(&mut switch_rows);
    for clock in 1..=13 {
        let stop = if clock < 13 {
            Stop::CountReached
        } else {
            Stop::Closed
        };
        same(
            &rt,
            go_on(&mut run, 1, &mut jobs, &mut switches),
            (did(1, stop), clock),
        );
        same(&rt, run.standing().is_open(), clock < 13);
    }
    same(&rt, run.standing(), HOLDS_13_1_0);
    same(
        &rt,
        run.summaries().as_slice(),
        [(2, 2, 0), (1, 7, 0)].map(summary).as_slice(),
    );
    Ok(())
}

/// Task 0 goes before everything else, and each preemption costs so many ticks.
fn decided_by_own_rules(plan: &Plan, cost: u16) -> (Standing, Option<Summary>, Option<Summary>) {
    let policy = Favourite {
        task: 0,
        others: EarliestDeadline,
    };
    decided(plan, policy, MarkModel::with(FlatCost::new(cost)))
}

#[test]
fn rules_of_a_makers_own_decide(rt: HostRuntime) -> Result<(), Fail> {
    let plan = admit(&S)?;
    same(
        &rt,
        decided_by_own_rules(&plan, 1),
        (
            HOLDS_13_1_0,
            Some(summary((2, 2, 0))),
            Some(summary((1, 11, 2))),
        ),
    );
    same(
        &rt,
        decided_by_own_rules(&plan, 2),
        (
            MISSES_12_1_0,
            Some(summary((2, 2, 0))),
            Some(summary((0, 12, 4))),
        ),
    );
    Ok(())
}

#[test]
fn a_layer_stands_over_a_rule_of_a_makers_own(rt: HostRuntime) -> Result<(), Fail> {
    let plan = admit(&S)?;
    let policy = NonPreemptive {
        below: Favourite {
            task: 0,
            others: EarliestDeadline,
        },
    };
    same(
        &rt,
        decided(&plan, policy, MarkModel::with(FlatCost::new(64))),
        (
            HOLDS_13_1_0,
            Some(summary((2, 6, 0))),
            Some(summary((1, 5, 0))),
        ),
    );
    Ok(())
}
