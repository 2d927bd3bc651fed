//! Opening, writing and clearing a log.

ghost use Rattle.std.specs.Prelude.{◌≡◌, [], ◌∷◌, ◌++◌, length, if◌then◌else◌, Ok, Err};
ghost use Rattle.row_log.specs.Entries.{entries, full, lender, room};

use super::Log;

impl<'a, T: Copy> Log<'a, T> {
    /// A log over this memory, with all its rows free.
    pub fn over(rows: &'a mut [T]) -> Self
        ensures entries { entries result ≡ [] }
        ensures room { room result ≡ length rows.old }
        ensures lender { lender result ≡ rows.entry.ghost_name }
    {
        Log { rows, used: 0 }
    }

    /// Writes a row behind the others; or hands it back, where none is free.
    pub fn push(&mut self, row: T) -> Result<(), T>
        ensures answer { result ≡ (if full self.old then Err row else Ok tt) }
        ensures entries { entries self.new ≡ (if full self.old then entries self.old else entries self.old ++ (row ∷ [])) }
        ensures room { room self.new ≡ room self.old }
        ensures lender { lender self.new ≡ lender self.old }
    {
        // by index: of a slice that was lent by `get_mut`, a proof knows no element afterwards
        if self.used < self.rows.len() {
            self.rows[self.used] = row;
            self.used += 1;
            Ok(())
        } else {
            Err(row)
        }
    }

    /// Makes all rows free again.
    pub fn clear(&mut self)
        ensures entries { entries self.new ≡ [] }
        ensures room { room self.new ≡ room self.old }
        ensures lender { lender self.new ≡ lender self.old }
    {
        self.used = 0;
    }
}
