//! The lines of the tasks in a report.

ghost use Rattle.std.specs.Prelude.{◌≡◌, ◌*◌, ◌≤◌, length};
ghost use Rattle.report.specs.Sinks.{Reaches};
ghost use Rattle.report.specs.Reports.{task_words, task_lines};

use crate::line::{bound_line, put_line};
use crate::sink::Sink;
use crate::word::Word;
use schedule::Summary;

fn task_words(summary: Summary) -> [Word; 3]
    ensures { result ≡ task_words summary }
{
    [
        Word::Number(summary.finished),
        Word::Number(summary.worst),
        Word::Number(summary.delay),
    ]
}

pub(crate) fn put_tasks<S: Sink>(sink: &mut S, summaries: &[Summary])
    ensures { Reaches S.took (84 * length summaries.now)
        (task_lines 0 summaries.now) sink.old sink.new }
{
    for (task, summary) in summaries.iter().enumerate() {
        // a room that is used up is measured no further, however many tasks follow
        if sink.is_spent() {
            return;
        }
        put_line(sink, Word::Number(task as u64), &task_words(*summary));
    }
}

/// Computes nothing: whoever calls it knows how long the lines of the tasks can be.
pub(crate) fn bound_tasks(summaries: &[Summary])
    ensures { length (task_lines 0 summaries.now) ≤ 84 * length summaries.now }
{
    for (task, summary) in summaries.iter().enumerate() {
        bound_line(Word::Number(task as u64), &task_words(*summary));
    }
}
