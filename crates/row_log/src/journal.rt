//! One container for every kind of row.

ghost use Rattle.std.specs.Prelude.{◌≤◌, length};

mod reads;
mod writes;

/// Rows of the type `T`, written one after another into lent memory.
#[derive(Drop)]
pub struct Log<'a, T> {
    rows: &'a mut [T],
    used: usize,
    ghost within: { used ≤ length rows.now },
}
