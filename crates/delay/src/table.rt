//! The marks of the 16 tasks.

ghost use Rattle.std.specs.Prelude.{◌≡◌, length, replicate, slice_index_or, slice_set};
ghost use Rattle.delay.specs.Marks.{changed, keeping, zero_mark};

use crate::mark::{Mark, zero_mark};
use plan::{CacheBlocks, MOST_TASKS};

/// A mark for each task, by its number.
#[derive(Clone, Copy)]
pub struct MarkTable {
    marks: [Mark; MOST_TASKS],
    ghost sized: { length marks ≡ 16 },
}

impl MarkTable {
    /// A zero mark for each task.
    pub fn new() -> Self
        ensures { result.marks ≡ replicate 16 zero_mark }
    {
        MarkTable {
            marks: [zero_mark(); MOST_TASKS],
        }
    }

    /// The mark of a task, and the zero mark for a number that no task has.
    pub fn at(&self, task: usize) -> Mark
        ensures { result ≡ slice_index_or self.now.marks task zero_mark }
    {
        self.marks.get(task).copied().unwrap_or_default()
    }

    /// Puts a mark in the place of a task's. A number that no task has is passed over.
    pub fn put(&mut self, task: usize, mark: Mark)
        ensures { self.new.marks ≡ slice_set self.old.marks task mark }
    {
        // an index behind a test, not `get_mut`: a proof knows nothing of the table after `get_mut`
        if task < MOST_TASKS {
            self.marks[task] = mark;
        }
    }

    /// Puts a set in the place of the lines that a task's mark keeps, and leaves its credit.
    pub fn keep(&mut self, task: usize, kept: CacheBlocks)
        ensures { self.new.marks ≡ changed self.old.marks task (keeping kept.lines) }
    {
        let mark = self.at(task).keeping(kept);
        self.put(task, mark);
    }
}
