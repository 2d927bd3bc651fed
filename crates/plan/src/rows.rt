//! The rows of a plan: 29 bytes a task.

ghost use Rattle.std.specs.Prelude.{◌≡◌, ◌+◌, ◌*◌, ◌<◌, ◌≤◌, length, take, if◌then◌else◌, Some, None, MatchResult, nat_lt};
ghost use Rattle.plan.specs.Admission.{byte_checks, in_row, row_checks, rows_checks, unless};
ghost use Rattle.plan.specs.Checks.{first_wrong};
ghost use Rattle.plan.specs.Flaws.{rule_checks};
ghost use Rattle.plan.specs.Layout.{row_bit, row_bytes, row_of, rows_of, spare_of, task_of};
ghost use Rattle.plan.specs.Periods.{IsLcm};
ghost use Rattle.plan.specs.Rows.{RowAdmitted, RowsAdmitted};
ghost use Rattle.plan.specs.Tasks.{periods};

use crate::admitted::MOST_TASKS;
use crate::blocks::CacheBlocks;
use crate::heads::{HEAD_BYTES, Head};
use crate::periods::Hyperperiod;
use crate::tasks::Task;
use bits::reader::BitReader;
use fault::{Cause, Fault, Layer};

/// The bytes of a row.
pub const ROW_BYTES: usize = 29;

/// The tasks of all rows, with their greatest offset and their hyperperiod.
pub(crate) struct Rows {
    pub(crate) tasks: [Task; MOST_TASKS],
    pub(crate) greatest_offset: u32,
    pub(crate) hyperperiod: Hyperperiod,
    ghost sized: { length tasks ≡ 16 },
}

/// The task and the spare bits that the first 29 of these bytes spell, or nothing where there are fewer.
fn read_row(bytes: &[u8]) -> Option<(Task, u64)>
    ensures { result ≡ (if nat_lt (length bytes.now) 29 then None else Some (task_of bytes.now, spare_of bytes.now)) }
{
    let mut reader = BitReader::new(bytes);
    let offset = reader.take(20)? as u32;
    let period = reader.take(20)? as u32;
    let deadline = reader.take(20)? as u32;
    let work = reader.take(20)? as u32;
    let priority = reader.take(8)? as u8;
    let fixed_delay = reader.take(12)? as u16;
    let useful = CacheBlocks {
        lines: reader.take(64)?,
    };
    let evicting = CacheBlocks {
        lines: reader.take(64)?,
    };
    let spare = reader.take(4)?;
    Some((
        Task {
            offset,
            period,
            deadline,
            work,
            priority,
            fixed_delay,
            useful,
            evicting,
        },
        spare,
    ))
}

/// A bit of a row, counted from the plan's first bit.
pub(crate) fn row_bit(row: u8, first: u8) -> u64
    ensures { result ≡ row_bit row first }
{
    8 * (HEAD_BYTES + ROW_BYTES * usize::from(row)) as u64 + u64::from(first)
}

/// The bytes from a row on: none where the body ends before it.
fn from_row(body: &[u8], row: u8) -> &[u8]
    ensures value { result.now ≡ row_bytes body.now row }
    ensures len { length body.now ≤ length result.now + 29 * row }
{
    body.get(ROW_BYTES * usize::from(row)..).unwrap_or(&[])
}

/// The task of a row, unless the row is cut or has spare bits set.
fn row_task(body: &[u8], row: u8) -> Result<Task, Fault>
    ensures { result ≡ unless (first_wrong (byte_checks body.now row)) (row_of body.now row) }
{
    let Some((task, spare)) = read_row(from_row(body, row)) else {
        let end = 8 * (HEAD_BYTES + body.len()) as u64;
        return Err(
            Fault::new(Layer::Bytes, Cause::EndsEarly)
                .at_row(row)
                .at_bit(end),
        );
    };
    if spare != 0 {
        let bit = row_bit(row, 228);
        return Err(
            Fault::new(Layer::Bytes, Cause::SpareBitsSet)
                .at_row(row)
                .at_bit(bit),
        );
    }
    Ok(task)
}

/// Refuses a task that breaks a rule by itself.
fn keep_rules(task: Task, row: u8) -> Result<(), Fault>
    ensures { result ≡ unless (first_wrong (rule_checks (in_row row) task)) tt }
{
    task.check().map_err(|flaw| {
        let bit = row_bit(row, flaw.first);
        Fault::new(Layer::Plan, flaw.cause).at_row(row).at_bit(bit)
    })
}

/// The task of a row, with the hyperperiod of the tasks up to it.
fn admit_row(body: &[u8], row: u8, before: Hyperperiod) -> Result<(Task, Hyperperiod), Fault>
    requires { IsLcm before.ticks (periods (rows_of body.now row)) }
    ensures { MatchResult result
        (λ p. RowAdmitted body.now row p.0 p.1.ticks)
        (λ e. first_wrong (row_checks body.now row) ≡ Some e) }
{
    let task = row_task(body, row)?;
    keep_rules(task, row)?;
    let too_long = Fault::new(Layer::Plan, Cause::HyperperiodTooLong).at_row(row);
    let hyperperiod = before.join(task.period).ok_or(too_long)?;
    Ok((task, hyperperiod))
}

/// The rows behind this head, with their greatest offset and their hyperperiod.
pub(crate) fn read_rows(body: &[u8], head: Head) -> Result<Rows, Fault>
    ensures { MatchResult result
        (λ rows. RowsAdmitted body.now head.count (take head.count rows.tasks) rows.greatest_offset rows.hyperperiod.ticks)
        (λ e. first_wrong (rows_checks body.now head.count) ≡ Some e) }
{
    let mut tasks = [Task::default(); MOST_TASKS];
    let mut greatest_offset: u32 = 0;
    let mut hyperperiod = Hyperperiod::of_none();
    for row in 0..head.count {
        let (task, joined) = admit_row(body, row, hyperperiod)?;
        // by its index: nothing is known of what a loop writes through a zip
        tasks[usize::from(row)] = task;
        greatest_offset = greatest_offset.max(task.offset);
        hyperperiod = joined;
    }
    Ok(Rows {
        tasks,
        greatest_offset,
        hyperperiod,
    })
}
