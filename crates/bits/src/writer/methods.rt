ghost use Rattle.std.specs.Prelude.{◌≡◌, ℕ, ◌-◌, ◌/◌, ◌%◌, ◌^◌, ◌<◌, ◌≤◌, if◌then◌else◌, Ok, Err, nat_eq, nat_lt};
ghost use Rattle.bits.specs.Writers.{out_of, next_of, puttable, Puts};

use super::FieldWriter;
use crate::WIDEST;

// `byte` with its bit `k`, counted from the most significant, set or cleared
fn with_bit(byte: u8, k: u32, on: bool) -> u8
    requires { k < 8 }
    ensures { (j : ℕ) → j < 8 → result / 2 ^ (7 - j) % 2 ≡ (if nat_eq j k then (if on then 1 else 0) else byte / 2 ^ (7 - j) % 2) }
{
    let mask = 1u8 << (7 - k);
    if on { byte | mask } else { byte & !mask }
}

// whether `value` has at most `width` bits
fn fits(value: u64, width: u32) -> bool
    requires { width ≤ 64 }
    ensures { result ≡ nat_lt value (2 ^ width) }
{
    u128::from(value) >> width == 0
}

impl<'a> FieldWriter<'a> {
    /// A writer at the first bit of `out`.
    pub fn new(out: &'a mut [u8]) -> Self
        ensures bytes { out_of result ≡ out.old }
        ensures place { next_of result ≡ 0 }
        ensures lender { result.out.ghost_name ≡ out.entry.ghost_name }
    {
        FieldWriter { out, place: 0 }
    }

    /// Puts `value` into the next `width` bits; or hands it back, and changes nothing, where it has more bits than that, or fewer are left, or more than 64 are asked for.
    pub fn put(&mut self, value: u64, width: u32) -> Result<(), u64>
        ensures answer { result ≡ (if puttable self.old value width then Ok tt else Err value) }
        ensures puts { Puts self.old self.new value width }
    {
        let end = self.place + u128::from(width);
        if width > WIDEST || !fits(value, width) || end > 8 * (self.out.len() as u128) {
            return Err(value);
        }
        for i in 0..width {
            let at = self.place + u128::from(i);
            let on = (value >> (width - 1 - i)) & 1 > 0;
            let byte = (at / 8) as usize;
            self.out[byte] = with_bit(self.out[byte], (at % 8) as u32, on);
        }
        self.place = end;
        Ok(())
    }
}
