//! The order line, with which every input begins: three letters and a newline.

#![tactic(auto)]

ghost use Rattle.std.specs.Prelude.{◌≡◌, ◌*◌, drop, Ok, Err, IfErr, IfOk, IfSome, IsSomeAnd, MatchResult};
ghost use Rattle.order.specs.Orders.{letter_at, unknown_letter, order_of};

mod letters;

use fault::{Cause, Fault, Layer};
use letters::LineEnd;
pub use letters::{DelayKind, Dispatch, Preemption, UnknownLetter};

/// What an order line asks for.
#[derive(Clone, Copy, PartialEq, Eq, Debug)]
pub struct Order {
    pub dispatch: Dispatch,
    pub preemption: Preemption,
    pub delay: DelayKind,
}

/// The order at the front of an input, and the input after its line.
/// The first letter that is unknown or missing is refused, with the bit at which it stands.
pub fn read_order(input: &[u8]) -> Result<(Order, &[u8]), Fault>
    ensures { MatchResult result
        (λ p. (order_of input.now ≡ Ok p.0) × (p.1.now ≡ drop 4 input.now))
        (λ e. order_of input.now ≡ Err e) }
{
    let order = Order {
        dispatch: setting(input, 0)?,
        preemption: setting(input, 1)?,
        delay: setting(input, 2)?,
    };
    setting::<LineEnd>(input, 3)?;
    Ok((order, &input[4..]))
}

/// What the letter in this place names. A missing letter goes the way of an unknown one.
fn setting<T: TryFrom<char, Error = UnknownLetter>>(input: &[u8], place: u8) -> Result<T, Fault>
    ensures named { IfOk result (λ value. IsSomeAnd (letter_at input.now place) (λ letter. T.try_from_gives letter (Ok value))) }
    ensures refused { IfErr result (λ fault. (fault ≡ unknown_letter (8 * place)) × IfSome (letter_at input.now place) (λ letter. (e : UnknownLetter) × T.try_from_gives letter (Err e))) }
{
    let letter = input.get(usize::from(place)).copied().map(char::from);
    let refusal = Fault::new(Layer::Order, Cause::UnknownLetter).at_bit(8 * u64::from(place));
    letter
        .and_then(|letter| T::try_from(letter).ok())
        .ok_or(refusal)
}
