// Seconds and the panel, exported. Serves document 01, "Looking up a rate in a table".
ghost use Rattle.model.specs.Arrival.{bucket};
ghost use Rattle.planner.specs.Seconds.{ExportedSeconds, ExportedPanel};

use answers::seconds::{PlannerPanelReading, PlannerSeconds};

// The wait and the fill time of a bucket at its rate, in seconds.
#[unsafe(no_mangle)]
pub extern "C" fn planner_seconds(rate: u64, buffer: u64, fullness: u64) -> PlannerSeconds
    ensures { ExportedSeconds (bucket rate buffer fullness) result }
{
    planner::seconds::planner_seconds(rate, buffer, fullness)
}

// The panel reading of a bucket against the driver's limit.
#[unsafe(no_mangle)]
pub extern "C" fn planner_panel(
    rate: u64,
    buffer: u64,
    fullness: u64,
    limit: f64,
) -> PlannerPanelReading
    ensures { ExportedPanel (bucket rate buffer fullness) limit result }
{
    planner::seconds::planner_panel(rate, buffer, fullness, limit)
}
