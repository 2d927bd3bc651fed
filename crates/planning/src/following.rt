//! A run is followed until it can be reported.

ghost use Rattle.std.specs.Prelude.{◌≡◌, ◌<◌, [], true, Ok};
ghost use Rattle.planning.specs.Following.{Followed, FreeOf};
ghost use Rattle.planning.specs.Runs.{Lived, report_instant};
ghost use Rattle.run.specs.Runs.{opening, setting_in, shown, shown_at};
ghost use Rattle.standing.specs.Standings.{is_open};

use delay::DelayModel;
use dispatch::Policy;
use fault::Fault;
use row_log::Log;
use run::Run;
use schedule::{JobRow, SwitchRow};

/// The instant at which a run is reported that is still open then.
const LAST_REPORTED: u64 = 20_000_000;

/// How many rows each log has.
const LOG_ROWS: usize = 256;

/// Advances a new run until it is decided, or at the last instant that is reported.
pub(crate) fn follow<P: Policy, M: DelayModel>(run: &mut Run<P, M>) -> Result<(), Fault>
    requires { shown run.old ≡ opening (setting_in run.old) }
    ensures answer { result ≡ Ok tt }
    ensures setting { setting_in run.new ≡ setting_in run.old }
    ensures lived { Lived (setting_in run.new) (shown run.new) }
    ensures followed { shown run.new ≡ shown_at (setting_in run.new) (report_instant (setting_in run.new)) }
{
    let mut job_rows = [JobRow::default(); LOG_ROWS];
    let mut switch_rows = [SwitchRow::default(); LOG_ROWS];
    let mut jobs = Log::over(&mut job_rows);
    let mut switches = Log::over(&mut switch_rows);
    while run.standing().is_open() && run.clock() < LAST_REPORTED {
        go_on(run, &mut jobs, &mut switches)?;
    }
    Ok(())
}

/// Advances an open run as far as the logs have room. Nobody reads their rows, so they are cleared.
fn go_on<P: Policy, M: DelayModel>(
    run: &mut Run<P, M>,
    jobs: &mut Log<'_, JobRow>,
    switches: &mut Log<'_, SwitchRow>,
) -> Result<(), Fault>
    requires before { Followed (setting_in run.old) (shown run.old) }
    requires undecided { is_open (shown run.old).standing ≡ true }
    requires early { (shown run.old).clock < 20000000 }
    requires jobs { FreeOf jobs.old }
    requires switches { FreeOf switches.old }
    ensures answer { result ≡ Ok tt }
    ensures setting { setting_in run.new ≡ setting_in run.old }
    ensures after { Followed (setting_in run.new) (shown run.new) }
    ensures further { (shown run.old).clock < (shown run.new).clock }
    ensures jobs { FreeOf jobs.new }
    ensures switches { FreeOf switches.new }
{
    run.advance(LAST_REPORTED - run.clock(), jobs, switches)?;
    jobs.clear();
    switches.clear();
    Ok(())
}
