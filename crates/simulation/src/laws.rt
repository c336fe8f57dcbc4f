//! Laws of the definitions. Each is a theorem, stated as the contract of a function that only calls other laws.
ghost use Rattle.simulation.specs.Laws.{OneReport, ScenarioHasReport};

use net_scenario::laws::at_most_one_net;
use window_workers::laws::{report_is_one, report_is_there};

/// A text has at most one report: its bytes are the same on one thread and with 1 to 16 workers, for both kinds of
/// synchronisation.
pub fn at_most_one_report()
    ensures one_report { OneReport }
{
    at_most_one_net();
    report_is_one();
}

/// The net of each scenario's text has a report.
pub fn scenario_has_report()
    ensures scenario_has_report { ScenarioHasReport }
{
    report_is_there();
}
