//! Admission: from bytes to a plan, or to the first fault.

ghost use Rattle.std.specs.Prelude.{◌≡◌, ◌≤◌, IfOk, Some, None, Ok, Err, MatchResult};
ghost use Rattle.plan.specs.Admission.{admission, end_checks, unless};
ghost use Rattle.plan.specs.Checks.{first_wrong};
ghost use Rattle.plan.specs.Plans.{OnlyEncoding, content_of};

use super::Plan;
use crate::heads::reading::read_head;
use crate::rows::{ROW_BYTES, Rows, read_rows, row_bit};
use fault::{Cause, Fault, Layer};

/// The plan that these bytes spell, or the first thing that is wrong with them.
pub fn admit(bytes: &[u8]) -> Result<Plan, Fault>
    ensures answer { MatchResult result
        (λ p. admission bytes.now ≡ Ok (content_of p))
        (λ e. admission bytes.now ≡ Err e) }
    ensures encoding { IfOk result (λ p. OnlyEncoding (content_of p) bytes.now) }
{
    let (head, body) = read_head(bytes)?;
    let Rows {
        tasks,
        greatest_offset,
        hyperperiod,
    } = read_rows(body, head)?;
    end_after(body, head.count)?;
    Ok(Plan {
        head,
        tasks,
        greatest_offset,
        hyperperiod,
    })
}

/// Refuses bytes after the last row.
fn end_after(body: &[u8], count: u8) -> Result<(), Fault>
    ensures { result ≡ unless (first_wrong (end_checks body.now count)) tt }
{
    if body.len() > ROW_BYTES * usize::from(count) {
        let end = row_bit(count, 0);
        return Err(Fault::new(Layer::Bytes, Cause::ExtraBytes).at_bit(end));
    }
    Ok(())
}
