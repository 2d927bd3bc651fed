//! The line of a refusal.

ghost use Rattle.std.specs.Prelude.{◌≡◌};
ghost use Rattle.report.specs.Buffers.{Written};
ghost use Rattle.report.specs.Reports.{place_of, refusal_words, refused_line};

use crate::text::Text;
use crate::word::Word;
use fault::Fault;

/// Writes the report of a refusal, and answers its length. A buffer that is too short for it is left as it was.
pub fn write_refusal(out: &mut [u8], fault: Fault) -> Result<usize, Fault>
    ensures { Written 105 (refused_line fault) out.old out.new result }
{
    Text::new(Word::Refused, &refusal_words(fault), &[]).write(out)
}

fn refusal_words(fault: Fault) -> [Word; 4]
    ensures { result ≡ refusal_words fault }
{
    [
        Word::Layer(fault.layer),
        Word::Number(u64::from(u8::from(fault.cause))),
        place(fault.row.map(u64::from)),
        place(fault.bit),
    ]
}

fn place(place: Option<u64>) -> Word
    ensures { result ≡ place_of place }
{
    place.map_or(Word::Absent, Word::Number)
}
