// The version of the library, so that a header of another one is noticed.
ghost use Rattle.planner.specs.Version.{ExportedVersion};

pub const VERSION: u64 = 200;

// Major x 10000 + minor x 100 + patch.
pub fn planner_version() -> u64
    ensures { ExportedVersion result }
{
    VERSION
}
