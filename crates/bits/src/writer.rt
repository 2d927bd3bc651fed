//! Writing fields one after another into lent bytes.

ghost use Rattle.std.specs.Prelude.{◌*◌, ◌≤◌, length};

mod methods;

/// Lent bytes, and the place of the next bit in them.
#[derive(Drop)]
pub struct FieldWriter<'a> {
    out: &'a mut [u8],
    // 128 bits wide, so that eight times a length never wraps
    place: u128,
    ghost within: { place ≤ 8 * length out.now },
}
