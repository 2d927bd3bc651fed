ghost use Rattle.std.specs.Prelude.{◌≡◌, ◌+◌, ◌*◌, ◌<◌, ◌≤◌, length, IfOk, Some, None, MatchResult, OnOk};
ghost use Rattle.plan.specs.Admission.{unless};
ghost use Rattle.plan.specs.Checks.{first_wrong};
ghost use Rattle.plan.specs.Flaws.{rule_checks};
ghost use Rattle.plan.specs.Periods.{Joins};
ghost use Rattle.plan.specs.Tasks.{fits_row};
ghost use Rattle.writer.specs.Rules.{begin_checks, finish_checks, in_writer, period_checks, place_checks, row_checks, whole_bytes};
ghost use Rattle.writer.specs.Written.{Begun, MayBegin, Moved, ReadsBack, RowChecked, Unmoved};

use super::PlanWriter;
use crate::fill::{whole_bytes, write_head, write_row};
use fault::{Cause, Fault, Layer};
use plan::{Head, Hyperperiod, LONGEST_RELOAD, MOST_TASKS, Task};

impl PlanWriter {
    /// Begins a plan of `count` tasks: writes its head into the buffer.
    pub fn begin(buffer: &mut [u8], count: u8, block_reload_time: u8) -> Result<PlanWriter, Fault>
        ensures refused { MatchResult result
            (λ _. first_wrong (begin_checks count block_reload_time (length buffer.old)) ≡ None)
            (λ e. (first_wrong (begin_checks count block_reload_time (length buffer.old)) ≡ Some e) × (buffer.new ≡ buffer.old)) }
        ensures begun { IfOk result (λ w. Begun buffer.old buffer.new count block_reload_time w) }
    {
        let head = check_begin(buffer.len(), count, block_reload_time)?;
        write_head(buffer, head);
        Ok(PlanWriter {
            count,
            next: 0,
            hyperperiod: Hyperperiod::of_none(),
        })
    }

    /// Writes the next row, and nothing but its 29 bytes.
    pub fn row(&mut self, buffer: &mut [u8], task: Task) -> Result<(), Fault>
        ensures refused { MatchResult result
            (λ _. first_wrong (row_checks self.old task (length buffer.old)) ≡ None)
            (λ e. (first_wrong (row_checks self.old task (length buffer.old)) ≡ Some e) × Unmoved buffer.old buffer.new self.old self.new) }
        ensures moved { OnOk result (Moved buffer.old buffer.new self.old self.new task) }
    {
        let hyperperiod = self.check_row(buffer.len(), task)?;
        self.write_next(buffer, task, hyperperiod);
        Ok(())
    }

    /// Ends the plan, and answers its length in bytes. A writer that still lacks rows is handed back.
    pub fn finish(self) -> Result<usize, (Fault, PlanWriter)>
        ensures { MatchResult result
            (λ n. (first_wrong (finish_checks self) ≡ None) × (n ≡ whole_bytes self.count) × ReadsBack self n)
            (λ e. (first_wrong (finish_checks self) ≡ Some e.0) × (e.1 ≡ self)) }
    {
        if self.next < self.count {
            let early = Fault::new(Layer::Writer, Cause::RowCountMismatch).at_row(self.next);
            return Err((early, self));
        }
        // each field is named, since `..` would let a whole writer go
        let PlanWriter {
            count,
            next: _,
            hyperperiod: _,
        } = self;
        Ok(whole_bytes(count))
    }

    /// Gives an unfinished plan up, and answers how many rows were written.
    pub fn abandon(self) -> u8
        ensures { result ≡ self.next }
    {
        let rows = self.next;
        // each field is named, since `..` would let a whole writer go
        let PlanWriter {
            count: _,
            next: _,
            hyperperiod: _,
        } = self;
        rows
    }

    /// Refuses a row that cannot be written; otherwise the hyperperiod with it.
    fn check_row(&self, room: usize, task: Task) -> Result<Hyperperiod, Fault>
        ensures { MatchResult result
            (λ h. RowChecked self.now task room h.ticks)
            (λ e. first_wrong (row_checks self.now task room) ≡ Some e) }
    {
        self.check_place(room, task)?;
        keep_rules(task, self.next)?;
        self.join_period(task)
    }

    /// The common period with this task.
    fn join_period(&self, task: Task) -> Result<Hyperperiod, Fault>
        ensures { MatchResult result
            (λ h. Joins h.ticks self.now.hyperperiod.ticks task.period)
            (λ e. first_wrong (period_checks self.now task) ≡ Some e) }
    {
        let too_long = Fault::new(Layer::Writer, Cause::HyperperiodTooLong).at_row(self.next);
        self.hyperperiod.join(task.period).ok_or(too_long)
    }

    /// Writes a row that passed its checks.
    fn write_next(&mut self, buffer: &mut [u8], task: Task, hyperperiod: Hyperperiod)
        requires { RowChecked self.old task (length buffer.old) hyperperiod.ticks }
        ensures { Moved buffer.old buffer.new self.old self.new task }
    {
        write_row(buffer, self.next, task);
        self.next += 1;
        self.hyperperiod = hyperperiod;
    }

    fn check_place(&self, room: usize, task: Task) -> Result<(), Fault>
        ensures { result ≡ unless (first_wrong (place_checks self.now task room)) tt }
    {
        if self.next >= self.count {
            return Err(Fault::new(Layer::Writer, Cause::RowCountMismatch).at_row(self.next));
        }
        if room < whole_bytes(self.count) {
            return Err(Fault::new(Layer::Writer, Cause::BufferTooShort));
        }
        if !fits_row(task) {
            return Err(Fault::new(Layer::Writer, Cause::OutsideField).at_row(self.next));
        }
        Ok(())
    }
}

/// The head of a plan that can be begun in `room` bytes.
fn check_begin(room: usize, count: u8, block_reload_time: u8) -> Result<Head, Fault>
    ensures { MatchResult result
        (λ head. MayBegin count block_reload_time room head)
        (λ e. first_wrong (begin_checks count block_reload_time room) ≡ Some e) }
{
    if count < 1 || usize::from(count) > MOST_TASKS || block_reload_time > LONGEST_RELOAD {
        return Err(Fault::new(Layer::Writer, Cause::OutsideField));
    }
    if room < whole_bytes(count) {
        return Err(Fault::new(Layer::Writer, Cause::BufferTooShort));
    }
    Ok(Head {
        count,
        block_reload_time,
    })
}

/// Whether each value of a task fits its field in a row.
fn fits_row(task: Task) -> bool
    ensures { result ≡ fits_row task }
{
    task.offset < 1 << 20
        && task.period < 1 << 20
        && task.deadline < 1 << 20
        && task.work < 1 << 20
        && task.fixed_delay < 1 << 12
}

/// Refuses a task that breaks a rule by itself.
fn keep_rules(task: Task, row: u8) -> Result<(), Fault>
    ensures { result ≡ unless (first_wrong (rule_checks (in_writer row) task)) tt }
{
    task.check()
        .map_err(|flaw| Fault::new(Layer::Writer, flaw.cause).at_row(row))
}
