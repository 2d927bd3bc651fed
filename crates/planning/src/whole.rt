//! The report of an input.

ghost use Rattle.std.specs.Prelude.{◌≡◌};
ghost use Rattle.planning.specs.Runs.{longest_report};
ghost use Rattle.planning.specs.Inputs.{TrueReportFor, ordered, report_text};
ghost use Rattle.report.specs.Buffers.{Written};

use crate::requests::Request;
use fault::Fault;
use report::write_refusal;

/// No report has more bytes.
pub const LONGEST_REPORT: usize = 1428;

/// The report of an input, in a buffer that has room for each.
pub fn whole_report<'a>(input: &[u8], out: &'a mut [u8; LONGEST_REPORT]) -> &'a [u8]
    ensures report { result.now ≡ report_text input.now }
    ensures truth { TrueReportFor (ordered input.now) }
{
    // only a buffer that is too short is refused
    let length = report_on(input, out).unwrap();
    &out[..length]
}

/// Writes the report of an input, and answers its length. A buffer that is too short for it is left as it was.
///
/// That what a report tells is true is in the contract, too: its first line of the schedule without end, its worst responses up to the
/// instant of the report.
pub fn report_on(input: &[u8], out: &mut [u8]) -> Result<usize, Fault>
    ensures report { Written longest_report (report_text input.now) out.old out.new result }
    ensures truth { TrueReportFor (ordered input.now) }
{
    match Request::read(input) {
        Ok(request) => request.report(out),
        Err(fault) => write_refusal(out, fault),
    }
}
