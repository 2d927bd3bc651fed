//! The text of a report, written as a whole or not at all.

ghost use Rattle.std.specs.Prelude.{◌≡◌, ◌<◌, ◌≤◌, length, MatchBool};
ghost use Rattle.report.specs.Buffers.{Whole, Written};
ghost use Rattle.report.specs.Sinks.{Reaches};
ghost use Rattle.report.specs.Texts.{most_of, whole_text};

use crate::line::{bound_line, put_line};
use crate::sink::Sink;
use crate::sink::lent::Lent;
use crate::sink::room::Room;
use crate::summary::{bound_tasks, put_tasks};
use crate::word::Word;
use fault::{Cause, Fault, Layer};
use schedule::Summary;

/// A word and its blank or newline have no more bytes.
const MOST_OF_WORD: u128 = 21;

/// The line of a task has four words.
const MOST_OF_TASK: u128 = 4 * MOST_OF_WORD;

/// What a report says: a line of words, and a line for each task.
#[derive(Clone, Copy)]
pub(crate) struct Text<'a> {
    pub(crate) first: Word,
    pub(crate) words: &'a [Word],
    pub(crate) tasks: &'a [Summary],
}

impl<'a> Text<'a> {
    pub(crate) fn new(first: Word, words: &'a [Word], tasks: &'a [Summary]) -> Self
        ensures first { result.first ≡ first }
        ensures words { result.words.now ≡ words.now }
        ensures tasks { result.tasks.now ≡ tasks.now }
    {
        Text {
            first,
            words,
            tasks,
        }
    }

    fn put<S: Sink>(&self, sink: &mut S)
        ensures { Reaches S.took (most_of self.now) (whole_text self.now) sink.old sink.new }
    {
        put_line(sink, self.first, self.words);
        put_tasks(sink, self.tasks);
    }

    fn fits(&self, room: usize) -> bool
        ensures { MatchBool result
            (length (whole_text self.now) ≤ room)
            ((room < length (whole_text self.now)) × (room < most_of self.now)) }
    {
        // a room that is enough for the longest words needs no measure
        if self.most() <= room as u128 {
            self.bound();
            return true;
        }
        let mut room = Room { left: Some(room) };
        self.put(&mut room);
        room.left.is_some()
    }

    fn most(&self) -> u128
        ensures { result ≡ most_of self.now }
    {
        let line = MOST_OF_WORD * (self.words.len() as u128) + MOST_OF_WORD;
        MOST_OF_TASK * (self.tasks.len() as u128) + line
    }

    /// Computes nothing: whoever calls it knows that `most` bytes are enough.
    fn bound(&self)
        ensures { length (whole_text self.now) ≤ most_of self.now }
    {
        bound_line(self.first, self.words);
        bound_tasks(self.tasks);
    }

    fn fill(&self, out: &mut [u8]) -> usize
        requires { length (whole_text self.now) ≤ length out.old }
        ensures { Whole (whole_text self.now) out.old out.new result }
    {
        let mut lent = Lent { out, at: 0 };
        self.put(&mut lent);
        lent.at
    }

    /// Writes the text and answers its length. It is measured first, so that a buffer that is too short is left as it was.
    pub(crate) fn write(&self, out: &mut [u8]) -> Result<usize, Fault>
        ensures { Written (most_of self.now) (whole_text self.now) out.old out.new result }
    {
        if self.fits(out.len()) {
            Ok(self.fill(out))
        } else {
            Err(Fault::new(Layer::Run, Cause::BufferTooShort))
        }
    }
}
