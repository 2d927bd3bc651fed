//! A buffer that was lent to be written.

ghost use Rattle.std.specs.Prelude.{◌≤◌, length};

/// A lent buffer, and the place in it of the next byte.
#[derive(Drop)]
pub(crate) struct Lent<'a> {
    pub(crate) out: &'a mut [u8],
    pub(crate) at: usize,
    ghost within: { at ≤ length out.now },
}
