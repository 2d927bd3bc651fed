//! What a text is put into piece by piece: a room that it is measured against, and a lent buffer.

ghost use Rattle.std.specs.Prelude.{ℕ, IsTrue, List};
ghost use Rattle.report.specs.Sinks.{Measured, Wrote};

use crate::sink::lent::Lent;
use crate::sink::room::Room;

pub(crate) mod lent;
pub(crate) mod room;

/// Takes a text piece by piece.
// Not `fmt::Write`: that promises what was written where it succeeds, and never that it does,
// so no text written by it could be refused only where it does not fit.
pub(crate) trait Sink {
    // relates the sink before, the piece that it takes, and the sink after
    ghost took: { Self → List ℕ → Self → Type 0 };

    fn put(&mut self, piece: &[u8])
        ensures { took self.old piece.now self.new };

    /// True only where no piece changes the sink any more.
    fn is_spent(&self) -> bool
        ensures { IsTrue result → (piece : List ℕ) → took self.now piece self.now };
}

impl Sink for Room {
    ghost took = { Measured };

    fn put(&mut self, piece: &[u8]) {
        self.left = self.left.and_then(|left| left.checked_sub(piece.len()));
    }

    fn is_spent(&self) -> bool {
        self.left.is_none()
    }
}

impl Sink for Lent<'_> {
    ghost took = { Wrote };

    // A piece that does not fit is left out, so that every call is allowed. By index: of a slice
    // that was lent by `get_mut`, a proof knows no element afterwards.
    fn put(&mut self, piece: &[u8]) {
        let end = self.at + piece.len();
        if end <= self.out.len() {
            self.out[self.at..end].copy_from_slice(piece);
            self.at = end;
        }
    }

    fn is_spent(&self) -> bool {
        false
    }
}
