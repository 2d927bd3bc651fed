//! Lines of words.

ghost use Rattle.std.specs.Prelude.{◌+◌, ◌*◌, ◌≤◌, length};
ghost use Rattle.report.specs.Sinks.{Reaches};
ghost use Rattle.report.specs.Words.{blanked, line};

use crate::sink::Sink;
use crate::word::{Word, bound_word, put_word};

fn put_words<S: Sink>(sink: &mut S, words: &[Word])
    ensures { Reaches S.took (21 * length words.now) (blanked words.now) sink.old sink.new }
{
    for word in words {
        // a room that is used up is measured no further
        if sink.is_spent() {
            return;
        }
        sink.put(b" ");
        put_word(sink, *word);
    }
}

pub(crate) fn put_line<S: Sink>(sink: &mut S, first: Word, words: &[Word])
    ensures { Reaches S.took (21 * length words.now + 21) (line first words.now) sink.old sink.new }
{
    put_word(sink, first);
    put_words(sink, words);
    sink.put(b"\n");
}

fn bound_words(words: &[Word])
    ensures { length (blanked words.now) ≤ 21 * length words.now }
{
    for word in words {
        bound_word(*word);
    }
}

/// Computes nothing: whoever calls it knows how long a line can be.
pub(crate) fn bound_line(first: Word, words: &[Word])
    ensures { length (line first words.now) ≤ 21 * length words.now + 21 }
{
    bound_word(first);
    bound_words(words);
}
