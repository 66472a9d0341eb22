// Least figures, tables and lookups, each answer a plain struct. Serves document 01, "How bits arrive and leave", "Least figures", and
// "Looking up a rate in a table".
ghost use Rattle.model.specs.Recording.{recording};
ghost use Rattle.model.specs.Lookup.{table};
ghost use Rattle.planner.specs.Figures.{ExportedLeast, ExportedTable, ExportedLookup};

use answers::figures::PlannerBucket;
use answers::recordings::PlannerJudgement;
use lookup::Table;
use recording::Recording;

// The least figures of a recording at one rate.
pub fn planner_least(sizes: &[u64], ticks: &[u64], ts: u64, nu: u64, rate: u64) -> PlannerBucket
    ensures { ExportedLeast (recording sizes.now ticks.now ts nu) rate result }
{
    let recording = Recording {
        sizes,
        ticks,
        ts,
        nu,
    };
    PlannerBucket::from(least::least(recording, rate))
}

// Writes the least figures at every rate of a list to two lent lists from entry `at` on.
pub fn planner_table(
    sizes: &[u64],
    ticks: &[u64],
    ts: u64,
    nu: u64,
    rates: &[u64],
    at: usize,
    buffers: &mut [u64],
    fullnesses: &mut [u64],
) -> PlannerJudgement
    ensures { ExportedTable (recording sizes.now ticks.now ts nu) rates.now at buffers.old fullnesses.old result buffers.new fullnesses.new }
{
    let recording = Recording {
        sizes,
        ticks,
        ts,
        nu,
    };
    PlannerJudgement::from(least::table(recording, rates, at, buffers, fullnesses))
}

// Buffer and start fullness for any rate, from a table that is handed in.
pub fn planner_look_up(
    rates: &[u64],
    buffers: &[u64],
    fullnesses: &[u64],
    ts: u64,
    nu: u64,
    span: u64,
    rate: u64,
) -> PlannerBucket
    ensures { ExportedLookup (table rates.now buffers.now fullnesses.now ts nu span) rate result }
{
    let table = Table {
        rates,
        buffers,
        fullnesses,
        ts,
        nu,
        span,
    };
    PlannerBucket::from(lookup::look_up(table, rate))
}
