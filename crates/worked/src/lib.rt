//! The worked cases: what the definitions of the schedule, the delay models and admission say of small plans.

#![tactic(auto)]

ghost use Rattle.std.specs.Prelude.{◌≡◌, All, length};
ghost use Rattle.worked.specs.Cases.{Right, cases};

/// How many worked cases there are.
///
/// The law in its contract: each of them is right.
pub fn worked_cases() -> usize
    ensures value { result ≡ length cases }
    ensures law { All Right cases }
{
    right_law();
    36
}

/// Computes nothing: whoever calls it has the law.
fn right_law()
    ensures { All Right cases }
{}
