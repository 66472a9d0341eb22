// Seconds and the panel, each answer a plain struct. Serves document 01, "Looking up a rate in a table".
ghost use Rattle.model.specs.Arrival.{bucket};
ghost use Rattle.planner.specs.Seconds.{ExportedSeconds, ExportedPanel};

use answers::seconds::{PlannerPanelReading, PlannerSeconds};
use recording::Bucket;

// The wait and the fill time of a bucket at its rate, in seconds.
pub fn planner_seconds(rate: u64, buffer: u64, fullness: u64) -> PlannerSeconds
    ensures { ExportedSeconds (bucket rate buffer fullness) result }
{
    PlannerSeconds::from(panel::seconds_of(Bucket {
        rate,
        buffer,
        fullness,
    }))
}

// The panel reading of a bucket against the driver's limit.
pub fn planner_panel(rate: u64, buffer: u64, fullness: u64, limit: f64) -> PlannerPanelReading
    ensures { ExportedPanel (bucket rate buffer fullness) limit result }
{
    PlannerPanelReading::from(panel::panel(
        Bucket {
            rate,
            buffer,
            fullness,
        },
        limit,
    ))
}
