//! The words of a report.

ghost use Rattle.std.specs.Prelude.{◌≤◌, length, decimal};
ghost use Rattle.report.specs.Sinks.{Takes};
ghost use Rattle.report.specs.Words.{text_of};

use crate::sink::Sink;
use fault::Layer;
use itoa::Buffer;

/// One word of a line.
#[derive(Clone, Copy, PartialEq, Eq, Debug)]
pub(crate) enum Word {
    Holds,
    Misses,
    Open,
    Refused,
    Number(u64),
    Layer(Layer),
    Absent,
}

// No word is longer than the twenty digits of a number.
pub(crate) fn put_word<S: Sink>(sink: &mut S, word: Word)
    ensures { Takes S.took 20 (text_of word) sink.old sink.new }
{
    match word {
        Word::Holds => sink.put(b"HOLDS"),
        Word::Misses => sink.put(b"MISSES"),
        Word::Open => sink.put(b"OPEN"),
        Word::Refused => sink.put(b"REFUSED"),
        // most numbers of a report are one digit
        Word::Number(n) if n < 10 => sink.put(&[b'0' + n as u8]),
        Word::Number(n) => sink.put(Buffer::new().format(n).as_bytes()),
        Word::Layer(layer) => sink.put(&[layer.letter()]),
        Word::Absent => sink.put(b"-"),
    }
}

/// Computes nothing: whoever calls it knows that no word is longer than the twenty digits of a number.
pub(crate) fn bound_word(word: Word)
    ensures { length (text_of word) ≤ 20 }
{
    if let Word::Number(n) = word {
        bound_number(n);
    }
}

fn bound_number(n: u64)
    ensures { length (decimal n) ≤ 20 }
{}
