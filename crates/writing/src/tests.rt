//! Plans written row by row, and every refusal with what it leaves.

use fault::{Cause, Fault, Layer};
use plan::{CacheBlocks, Task, admit};
use std::test::Fail;
use writer::PlanWriter;

/// Lines 1 and 2.
const TWO_LINES: CacheBlocks = CacheBlocks {
    lines: 0x6000_0000_0000_0000,
};

const NO_LINES: CacheBlocks = CacheBlocks { lines: 0 };

const ALL_LINES: CacheBlocks = CacheBlocks { lines: u64::MAX };

const FIRST: Task = Task {
    offset: 1,
    period: 6,
    deadline: 6,
    work: 2,
    priority: 9,
    fixed_delay: 0,
    useful: NO_LINES,
    evicting: TWO_LINES,
};

const SECOND: Task = Task {
    offset: 0,
    period: 12,
    deadline: 12,
    work: 5,
    priority: 5,
    fixed_delay: 0,
    useful: TWO_LINES,
    evicting: TWO_LINES,
};

const GREATEST: Task = Task {
    offset: 0xf_ffff,
    period: 0xf_ffff,
    deadline: 0xf_ffff,
    work: 0xf_ffff,
    priority: 255,
    fixed_delay: 4095,
    useful: ALL_LINES,
    evicting: ALL_LINES,
};

/// The bytes of these two tasks with a block reload time of 1.
const PLAN_S: [u8; 60] = [
    0x11, 0x04, 0x00, 0x00, 0x10, 0x00, 0x06, 0x00, 0x00, 0x60, 0x00, 0x02, 0x09, 0x00, 0x00, 0x00,
    0x00, 0x00, 0x00, 0x00, 0x00, 0x00, 0x06, 0x00, 0x00, 0x00, 0x00, 0x00, 0x00, 0x00, 0x00, 0x00,
    0x00, 0x00, 0x00, 0x0c, 0x00, 0x00, 0xc0, 0x00, 0x05, 0x05, 0x00, 0x06, 0x00, 0x00, 0x00, 0x00,
    0x00, 0x00, 0x00, 0x06, 0x00, 0x00, 0x00, 0x00, 0x00, 0x00, 0x00, 0x00,
];

/// The second task with a value that its field is too short for, or a rule broken.
const WIDE: Task = Task {
    offset: 1 << 20,
    ..SECOND
};

const IDLE: Task = Task {
    period: 0,
    ..SECOND
};

const LAZY: Task = Task { work: 0, ..SECOND };

const STRAY: Task = Task {
    evicting: NO_LINES,
    ..SECOND
};

/// A refusal of the writer that names no place.
fn refusal(cause: Cause) -> Fault {
    Fault::new(Layer::Writer, cause)
}

/// What a finish answers; a writer that is handed back is given up.
fn finished(writer: PlanWriter) -> Result<usize, Fault> {
    writer.finish().map_err(|(fault, writer)| {
        writer.abandon();
        fault
    })
}

fn begin_refused(room: usize, count: u8, reload: u8, cause: Cause) -> bool {
    let mut buffer = [0xaa; 64];
    if room > 64 {
        return false;
    }
    match PlanWriter::begin(&mut buffer[0..room], count, reload) {
        Ok(writer) => {
            writer.abandon();
            false
        }
        Err(fault) => fault == refusal(cause) && buffer == [0xaa; 64],
    }
}

/// The second row into a buffer that is cut to `room` bytes.
fn row_within(writer: &mut PlanWriter, buffer: &mut [u8], room: usize) -> Result<(), Fault> {
    if room > buffer.len() {
        return Ok(());
    }
    writer.row(&mut buffer[0..room], SECOND)
}

/// Sixteen times the greatest values.
fn write_rows(writer: &mut PlanWriter, buffer: &mut [u8]) -> Result<(), Fault> {
    for _ in 0..16 {
        writer.row(buffer, GREATEST)?;
    }
    Ok(())
}

#[test]
fn plan_s_has_its_sixty_bytes(rt: HostRuntime) -> Result<(), Fail> {
    let mut buffer = [0xaa; 64];
    let mut writer = PlanWriter::begin(&mut buffer, 2, 1)?;
    let first = writer.row(&mut buffer, FIRST);
    let second = writer.row(&mut buffer, SECOND);
    let length = finished(writer);
    first?;
    second?;
    assert!(rt; length? == 60);
    assert!(rt; buffer[0..60] == PLAN_S[0..60]);
    assert!(rt; buffer[60..64] == [0xaa; 4][0..4], "the tail is kept");
    Ok(())
}

#[test]
fn begin_is_refused(rt: HostRuntime) {
    assert!(rt; begin_refused(64, 0, 1, Cause::OutsideField));
    assert!(rt; begin_refused(64, 17, 1, Cause::OutsideField));
    assert!(rt; begin_refused(64, 2, 64, Cause::OutsideField));
    assert!(rt; begin_refused(0, 0, 1, Cause::OutsideField), "13 before 12");
    assert!(rt; begin_refused(59, 2, 1, Cause::BufferTooShort));
    assert!(rt; begin_refused(30, 1, 63, Cause::BufferTooShort));
}

#[test]
fn rows_are_refused_and_change_nothing(rt: HostRuntime) -> Result<(), Fail> {
    let mut buffer = [0xaa; 64];
    let mut writer = PlanWriter::begin(&mut buffer, 2, 1)?;
    let first = writer.row(&mut buffer, FIRST);
    let before = buffer;
    let short = row_within(&mut writer, &mut buffer, 59);
    let wide = writer.row(&mut buffer, WIDE);
    let idle = writer.row(&mut buffer, IDLE);
    let lazy = writer.row(&mut buffer, LAZY);
    let stray = writer.row(&mut buffer, STRAY);
    let same = buffer == before;
    let second = writer.row(&mut buffer, SECOND);
    let extra = row_within(&mut writer, &mut buffer, 0);
    let length = finished(writer);
    first?;
    second?;
    assert!(rt; short == Err(refusal(Cause::BufferTooShort)));
    assert!(rt; wide == Err(refusal(Cause::OutsideField).at_row(1)));
    assert!(rt; idle == Err(refusal(Cause::ZeroPeriod).at_row(1)));
    assert!(rt; lazy == Err(refusal(Cause::TimesOutOfOrder).at_row(1)));
    assert!(rt; stray == Err(refusal(Cause::UsefulNotEvicting).at_row(1)));
    assert!(rt;
        extra == Err(refusal(Cause::RowCountMismatch).at_row(2)),
        "14 before 12"
    );
    assert!(rt; same);
    assert!(rt; length? == 60);
    assert!(rt;
        buffer[0..60] == PLAN_S[0..60],
        "refused rows left no trace"
    );
    Ok(())
}

#[test]
fn an_early_finish_hands_the_writer_back(rt: HostRuntime) -> Result<(), Fail> {
    let mut buffer = [0xaa; 64];
    let writer = PlanWriter::begin(&mut buffer, 2, 1)?;
    match writer.finish() {
        Ok(_) => {
            assert!(rt; false);
            Ok(())
        },
        Err((fault, mut writer)) => {
            let first = writer.row(&mut buffer, FIRST);
            let second = writer.row(&mut buffer, SECOND);
            let length = finished(writer);
            first?;
            second?;
            assert!(rt; fault == refusal(Cause::RowCountMismatch).at_row(0));
            assert!(rt; length? == 60);
            assert!(rt; buffer[0..60] == PLAN_S[0..60]);
            Ok(())
        }
    }
}

#[test]
fn a_common_period_past_the_limit_is_refused(rt: HostRuntime) -> Result<(), Fail> {
    let mut buffer = [0; 60];
    let mut writer = PlanWriter::begin(&mut buffer, 2, 0)?;
    let long = Task {
        period: 1_000_000,
        deadline: 1_000_000,
        ..FIRST
    };
    let first = writer.row(&mut buffer, long);
    let past = Task {
        period: 1_001,
        ..FIRST
    };
    let refused = writer.row(&mut buffer, past);
    let within = Task {
        period: 999,
        ..FIRST
    };
    let second = writer.row(&mut buffer, within);
    let length = finished(writer);
    first?;
    second?;
    assert!(rt; refused == Err(refusal(Cause::HyperperiodTooLong).at_row(1)));
    assert!(rt; length? == 60);
    let plan = admit(&buffer)?;
    assert!(rt; plan.hyperperiod().ticks() == 999_000_000);
    Ok(())
}

#[test]
fn sixteen_rows_of_the_greatest_values(rt: HostRuntime) -> Result<(), Fail> {
    let mut buffer = [0; 466];
    let mut writer = PlanWriter::begin(&mut buffer, 16, 63)?;
    let written = write_rows(&mut writer, &mut buffer);
    let length = finished(writer);
    written?;
    assert!(rt; length? == 466);
    assert!(rt; buffer[0] == 0x1f && buffer[1] == 0xfc);
    assert!(rt;
        buffer[2] == 0xff && buffer[29] == 0xff && buffer[30] == 0xf0 && buffer[465] == 0xf0
    );
    let plan = admit(&buffer)?;
    assert!(rt; plan.tasks().len() == 16 && plan.block_reload_time() == 63);
    Ok(())
}
