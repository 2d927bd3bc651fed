//! Reading fields one after another from lent bytes.

ghost use Rattle.std.specs.Prelude.{◌*◌, ◌≤◌, length};

mod methods;

/// Lent bytes, and the place of the next bit in them.
#[derive(Drop)]
pub struct BitReader<'a> {
    bytes: &'a [u8],
    // 128 bits wide, so that eight times a length never wraps
    place: u128,
    ghost within: { place ≤ 8 * length bytes.now },
}
