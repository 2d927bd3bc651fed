ghost use Rattle.std.specs.Prelude.{◌≡◌, ◌+◌, ◌*◌, ◌^◌, ◌<◌, length, IfSome, if◌then◌else◌, Some, None};
ghost use Rattle.std.specs.Int.{from_bool};
ghost use Rattle.bits.specs.Bits.{bit, spelled};
ghost use Rattle.bits.specs.Readers.{bytes_of, place_of, available};

use super::BitReader;
use crate::WIDEST;

fn bit_at(bytes: &[u8], i: u128) -> bool
    requires { i < 8 * length bytes.now }
    ensures { from_bool result ≡ bit bytes.now i }
{
    (bytes[(i / 8) as usize] >> (7 - (i % 8) as u32)) & 1 > 0
}

impl<'a> BitReader<'a> {
    /// A reader at the first bit of `bytes`.
    pub fn new(bytes: &'a [u8]) -> Self
        ensures bytes { bytes_of result ≡ bytes.now }
        ensures place { place_of result ≡ 0 }
    {
        BitReader { bytes, place: 0 }
    }

    /// The number that the next `width` bits spell, or nothing where there are fewer, or more than 64 are asked for.
    pub fn take(&mut self, width: u32) -> Option<u64>
        ensures value { result ≡ (if available self.old width then Some (spelled (bytes_of self.old) (place_of self.old) width) else None) }
        ensures place { place_of self.new ≡ (if available self.old width then place_of self.old + width else place_of self.old) }
        ensures bytes { bytes_of self.new ≡ bytes_of self.old }
        ensures bound { IfSome result (λ v. v < 2 ^ width) }
    {
        let end = self.place + u128::from(width);
        if width > WIDEST || end > 8 * (self.bytes.len() as u128) {
            return None;
        }
        let mut value: u64 = 0;
        for at in self.place..end {
            value = (value << 1) | u64::from(bit_at(self.bytes, at));
        }
        self.place = end;
        Some(value)
    }
}
