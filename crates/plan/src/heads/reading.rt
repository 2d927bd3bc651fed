//! Reading a head.

ghost use Rattle.std.specs.Prelude.{◌≡◌, Some, None, MatchResult};
ghost use Rattle.plan.specs.Admission.{head_checks};
ghost use Rattle.plan.specs.Checks.{first_wrong};
ghost use Rattle.plan.specs.Heads.{HeadOf};

use super::{Head, REVISION};
use fault::{Cause, Fault, Layer};

/// The head of a plan and the bytes after it.
#[tactic(auto, using(crate::proofs::HeadBits::revision_bits, crate::proofs::HeadBits::spare_bits))]
pub(crate) fn read_head(bytes: &[u8]) -> Result<(Head, &[u8]), Fault>
    ensures { MatchResult result
        (λ p. (first_wrong (head_checks bytes.now) ≡ None) × HeadOf bytes.now p.0 p.1.now)
        (λ e. first_wrong (head_checks bytes.now) ≡ Some e) }
{
    let [first, second, rest @ ..] = bytes else {
        let end = 8 * bytes.len() as u64;
        return Err(Fault::new(Layer::Bytes, Cause::EndsEarly).at_bit(end));
    };
    if first >> 4 != REVISION {
        return Err(Fault::new(Layer::Bytes, Cause::UnknownRevision).at_bit(0));
    }
    if second & 3 != 0 {
        return Err(Fault::new(Layer::Bytes, Cause::SpareBitsSet).at_bit(14));
    }
    Ok((
        Head {
            count: (first & 15) + 1,
            block_reload_time: second >> 2,
        },
        rest,
    ))
}
