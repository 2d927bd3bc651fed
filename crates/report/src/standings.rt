//! The report of a run: how it stands, and its tasks.

ghost use Rattle.std.specs.Prelude.{◌+◌, ◌*◌, length};
ghost use Rattle.report.specs.Buffers.{Written};
ghost use Rattle.report.specs.Reports.{standing_text};

use crate::text::Text;
use crate::word::Word;
use fault::Fault;
use schedule::Summary;
use standing::Standing;

/// Writes the report of a run that has reached the clock, with one summary a task, and answers its length.
/// A buffer that is too short for it is left as it was.
pub fn write_standing(
    out: &mut [u8],
    standing: Standing,
    clock: u64,
    summaries: &[Summary],
) -> Result<usize, Fault>
    ensures { Written (84 * length summaries.now + 84) (standing_text standing clock summaries.now) out.old out.new result }
{
    match standing {
        Standing::Open => {
            let words = [Word::Number(clock)];
            Text::new(Word::Open, &words, summaries).write(out)
        }
        Standing::Misses { instant, task, job } => {
            let words = [instant, task as u64, job].map(Word::Number);
            Text::new(Word::Misses, &words, summaries).write(out)
        }
        Standing::Holds {
            instant,
            sample,
            earlier,
        } => {
            let words = [instant, sample, earlier].map(Word::Number);
            Text::new(Word::Holds, &words, summaries).write(out)
        }
    }
}
