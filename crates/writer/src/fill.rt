//! The bytes of a head and of a row, field by field.

ghost use Rattle.std.specs.Prelude.{◌≡◌, ◌+◌, ◌*◌, ◌<◌, ◌≤◌, length};
ghost use Rattle.bits.specs.Layouts.{fields_at};
ghost use Rattle.plan.specs.Layout.{row_values, row_widths};
ghost use Rattle.writer.specs.Rules.{whole_bytes};
ghost use Rattle.writer.specs.Written.{Fits, HeadOf, HeadWritten, RowWritten};

use bits::writer::FieldWriter;
use plan::{HEAD_BYTES, Head, REVISION, ROW_BYTES, Task};

/// Writes the head of a plan into its two bytes.
fn fill_head(bytes: &mut [u8], head: Head)
    requires { length bytes.old ≡ 2 }
    ensures { HeadOf bytes.new head.count head.block_reload_time }
{
    let mut fields = FieldWriter::new(bytes);
    fields.put(u64::from(REVISION), 4).unwrap();
    fields.put(u64::from(head.count - 1), 4).unwrap();
    fields.put(u64::from(head.block_reload_time), 6).unwrap();
    fields.put(0, 2).unwrap();
}

/// Writes a task into the 29 bytes of its row.
fn fill_row(row: &mut [u8], task: Task)
    requires whole { length row.old ≡ 29 }
    requires fits { Fits task }
    ensures { fields_at row.new 0 row_widths ≡ row_values task 0 }
{
    let mut fields = FieldWriter::new(row);
    fields.put(u64::from(task.offset), 20).unwrap();
    fields.put(u64::from(task.period), 20).unwrap();
    fields.put(u64::from(task.deadline), 20).unwrap();
    fields.put(u64::from(task.work), 20).unwrap();
    fields.put(u64::from(task.priority), 8).unwrap();
    fields.put(u64::from(task.fixed_delay), 12).unwrap();
    fields.put(task.useful.lines, 64).unwrap();
    fields.put(task.evicting.lines, 64).unwrap();
    fields.put(0, 4).unwrap();
}

/// The length of a plan of `count` tasks: a further row would begin there.
pub(crate) fn whole_bytes(count: u8) -> usize
    ensures { result ≡ whole_bytes count }
{
    HEAD_BYTES + ROW_BYTES * usize::from(count)
}

/// Writes the head into the first two bytes of a buffer.
pub(crate) fn write_head(buffer: &mut [u8], head: Head)
    requires { 2 ≤ length buffer.old }
    ensures { HeadWritten buffer.old buffer.new head.count head.block_reload_time }
{
    fill_head(&mut buffer[0..HEAD_BYTES], head);
}

/// Writes a task into its row, in the middle of a buffer.
pub(crate) fn write_row(buffer: &mut [u8], row: u8, task: Task)
    requires room { whole_bytes (row + 1) ≤ length buffer.old }
    requires fits { Fits task }
    ensures { RowWritten buffer.old buffer.new row task }
{
    let start = whole_bytes(row);
    fill_row(&mut buffer[start..start + ROW_BYTES], task);
}
