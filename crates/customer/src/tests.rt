//! The policies on small tables, and a maker's own with the layer above it.

use crate::favourite::Favourite;
use crate::flat_cost::FlatCost;
use crate::opened::{open_fixed_delay, open_loaded_blocks, open_no_delay, open_useful_blocks};
use delay::{DelayModel, MarkModel};
use dispatch::{Candidate, EarliestDeadline, FixedPriority, NonPreemptive, Policy};
use plan::admit;
use std::test::Fail;

fn none() -> Candidate {
    Candidate::default()
}

fn live(until: u32) -> Candidate {
    Candidate {
        live: true,
        left: 1,
        until,
        ..none()
    }
}

/// Three tasks with the priorities 5, 9 and 9.
const PRIORITIES_5_9_9: [u8; 89] = [
    0x12, 0x00, 0x00, 0x00, 0x00, 0x00, 0x0a, 0x00, 0x00, 0xa0, 0x00, 0x01, 0x05, 0x00, 0x00, 0x00,
    0x00, 0x00, 0x00, 0x00, 0x00, 0x00, 0x00, 0x00, 0x00, 0x00, 0x00, 0x00, 0x00, 0x00, 0x00, 0x00,
    0x00, 0x00, 0x00, 0x0a, 0x00, 0x00, 0xa0, 0x00, 0x01, 0x09, 0x00, 0x00, 0x00, 0x00, 0x00, 0x00,
    0x00, 0x00, 0x00, 0x00, 0x00, 0x00, 0x00, 0x00, 0x00, 0x00, 0x00, 0x00, 0x00, 0x00, 0x00, 0x00,
    0x0a, 0x00, 0x00, 0xa0, 0x00, 0x01, 0x09, 0x00, 0x00, 0x00, 0x00, 0x00, 0x00, 0x00, 0x00, 0x00,
    0x00, 0x00, 0x00, 0x00, 0x00, 0x00, 0x00, 0x00, 0x00,
];

#[test]
fn fixed_priority_takes_the_greatest_and_the_first_of_equals(rt: HostRuntime) -> Result<(), Fail> {
    let plan = admit(&PRIORITIES_5_9_9)?;
    let policy = FixedPriority::new(&plan);
    assert_eq!(rt; policy.choose(&[live(1), live(9), live(2)], None), Some(1));
    assert_eq!(rt;
        policy.choose(&[live(1), live(9), live(2)], Some(2)),
        Some(1)
    );
    assert_eq!(rt;
        policy.choose(&[live(1), none(), live(2)], Some(0)),
        Some(2)
    );
    assert_eq!(rt; policy.choose(&[live(1), none(), none()], None), Some(0));
    assert_eq!(rt; policy.choose(&[none(), none(), none()], None), None);
    Ok(())
}

#[test]
fn earliest_deadline_takes_the_nearest_and_the_first_of_equals(rt: HostRuntime) {
    assert_eq!(rt;
        EarliestDeadline.choose(&[live(4), live(3), live(3)], Some(2)),
        Some(1)
    );
    assert_eq!(rt;
        EarliestDeadline.choose(&[live(3), live(3)], Some(1)),
        Some(0)
    );
    assert_eq!(rt;
        EarliestDeadline.choose(&[none(), live(7), live(8)], None),
        Some(1)
    );
    assert_eq!(rt; EarliestDeadline.choose(&[none()], Some(0)), None);
}

#[test]
fn the_layer_keeps_a_live_job(rt: HostRuntime) {
    let once = NonPreemptive {
        below: EarliestDeadline,
    };
    let twice = NonPreemptive { below: once };
    assert_eq!(rt; once.choose(&[live(1), live(9)], Some(1)), Some(1));
    assert_eq!(rt; twice.choose(&[live(1), live(9)], Some(1)), Some(1));
    assert_eq!(rt; once.choose(&[live(1), none()], Some(1)), Some(0));
    assert_eq!(rt; once.choose(&[live(1), live(9)], None), Some(0));
    assert_eq!(rt; twice.choose(&[live(1)], Some(16)), Some(0));
}

#[test]
fn a_policy_of_ones_own_stands_under_the_layer(rt: HostRuntime) {
    let own = Favourite {
        task: 2,
        others: EarliestDeadline,
    };
    let layered = NonPreemptive { below: own };
    assert_eq!(rt; own.choose(&[live(1), live(2), live(9)], Some(0)), Some(2));
    assert_eq!(rt;
        layered.choose(&[live(1), live(2), live(9)], Some(0)),
        Some(0)
    );
    assert_eq!(rt;
        layered.choose(&[none(), live(2), live(9)], Some(0)),
        Some(2)
    );
    assert_eq!(rt; layered.choose(&[none(), live(2), none()], None), Some(1));
}

/// The kept lines and the credit of a task's mark.
fn mark_of<M: DelayModel>(model: &M, task: usize) -> (u64, u16) {
    let mark = model.mark(task);
    (mark.kept.lines, mark.credit)
}

/// Two tasks that use lines 1 and 2 and lines 2 and 3, each with a fixed delay of 7; a block takes 3 ticks to reload.
const TWO_SETS: [u8; 60] = [
    0x11, 0x0c, 0x00, 0x00, 0x00, 0x00, 0x0a, 0x00, 0x00, 0xa0, 0x00, 0x01, 0x05, 0x00, 0x76, 0x00,
    0x00, 0x00, 0x00, 0x00, 0x00, 0x00, 0x06, 0x00, 0x00, 0x00, 0x00, 0x00, 0x00, 0x00, 0x00, 0x00,
    0x00, 0x00, 0x00, 0x0a, 0x00, 0x00, 0xa0, 0x00, 0x01, 0x09, 0x00, 0x73, 0x00, 0x00, 0x00, 0x00,
    0x00, 0x00, 0x00, 0x03, 0x00, 0x00, 0x00, 0x00, 0x00, 0x00, 0x00, 0x00,
];

/// Lines 1 and 2 as they stand in a mark.
const LINES_1_2: u64 = 0x6000_0000_0000_0000;

/// Line 1 alone.
const LINE_1: u64 = 0x4000_0000_0000_0000;

#[test]
fn loaded_blocks_pay_for_what_was_loaded(rt: HostRuntime) -> Result<(), Fail> {
    let plan = admit(&TWO_SETS)?;
    let mut model = open_loaded_blocks(&plan);
    model.begin(0);
    for _ in 0..5 {
        model.spend(0);
    }
    assert_eq!(rt; mark_of(&model, 0), (LINES_1_2, 5));
    model.lose(0, 0);
    assert_eq!(rt; mark_of(&model, 0), (0, 5));
    assert_eq!(rt; model.resume(0), 3);
    assert_eq!(rt; mark_of(&model, 0), (LINES_1_2, 2));
    for _ in 0..9 {
        model.spend(0);
    }
    assert_eq!(rt; mark_of(&model, 0), (LINES_1_2, 6));
    model.finish(0);
    assert_eq!(rt; mark_of(&model, 0), (0, 0));
    Ok(())
}

#[test]
fn losses_add_up_until_the_resume(rt: HostRuntime) -> Result<(), Fail> {
    let plan = admit(&TWO_SETS)?;
    let mut model = open_useful_blocks(&plan);
    model.begin(0);
    model.lose(0, 1);
    assert_eq!(rt; mark_of(&model, 0), (LINE_1, 0));
    model.lose(0, 15);
    assert_eq!(rt; mark_of(&model, 0), (LINE_1, 0));
    model.lose(0, 0);
    assert_eq!(rt; mark_of(&model, 0), (0, 0));
    assert_eq!(rt; model.resume(0), 6);
    assert_eq!(rt; model.resume(0), 0);
    assert_eq!(rt; mark_of(&model, 1), (0, 0));
    Ok(())
}

#[test]
fn a_fixed_delay_is_paid_once(rt: HostRuntime) -> Result<(), Fail> {
    let plan = admit(&TWO_SETS)?;
    let mut model = open_fixed_delay(&plan);
    assert_eq!(rt; model.resume(0), 0);
    model.lose(0, 1);
    model.lose(0, 1);
    assert_eq!(rt; mark_of(&model, 0), (1 << 63, 0));
    assert_eq!(rt; model.resume(0), 7);
    assert_eq!(rt; model.resume(0), 0);
    model.lose(15, 0);
    assert_eq!(rt; model.resume(15), 0);
    model.lose(0, 16);
    assert_eq!(rt; model.resume(0), 0, "a loss to no task is none");
    Ok(())
}

#[test]
fn numbers_above_15_change_nothing(rt: HostRuntime) -> Result<(), Fail> {
    let plan = admit(&TWO_SETS)?;
    let mut none = open_no_delay(&plan);
    none.begin(16);
    none.lose(0, 1);
    assert_eq!(rt; none.resume(0), 0);
    let mut model = open_loaded_blocks(&plan);
    model.begin(16);
    model.spend(16);
    model.lose(16, 1);
    assert_eq!(rt; model.resume(16), 0);
    assert_eq!(rt; mark_of(&model, 16), (0, 0));
    assert_eq!(rt; mark_of(&model, 0), (0, 0));
    Ok(())
}

#[test]
fn a_model_of_ones_own_counts_preemptions(rt: HostRuntime) {
    let mut model = MarkModel::with(FlatCost::new(9));
    model.begin(3);
    model.lose(3, 0);
    model.lose(3, 1);
    model.lose(3, 16);
    model.spend(3);
    assert_eq!(rt; mark_of(&model, 3), (0, 2));
    assert_eq!(rt; model.resume(3), 18);
    assert_eq!(rt; model.resume(3), 0);
}
