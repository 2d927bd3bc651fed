//! Bytes spelt by hexadecimal digits.

ghost use Rattle.std.specs.Prelude.{◌<◌, IfSome};

use std::alloc::{AllocError, Global};

/// The value of a hexadecimal digit. Not `to_digit`, which takes capital letters too.
fn digit(letter: u8) -> Option<u8>
    ensures { IfSome result (λ d. d < 16) }
{
    match letter {
        b'0'..=b'9' => Some(letter - b'0'),
        b'a'..=b'f' => Some(letter - b'a' + 10),
        _ => None,
    }
}

/// The byte that a pair of hexadecimal digits spells.
fn byte_of(pair: &[u8]) -> Option<u8> {
    let &[high, low] = pair else {
        return None;
    };
    Some(16 * digit(high)? + digit(low)?)
}

/// The bytes that pairs of hexadecimal digits spell, up to the first pair that is none.
pub(crate) fn unhex(heap: Global, digits: &[u8]) -> Result<Vec<u8>, AllocError> {
    let mut bytes = Vec::new(heap);
    for byte in digits.chunks_exact(2).map_while(byte_of) {
        bytes.push(byte)?;
    }
    Ok(bytes)
}
