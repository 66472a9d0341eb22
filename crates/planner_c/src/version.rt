// The version of the library, so that a header of another one is noticed.
ghost use Rattle.planner.specs.Version.{ExportedVersion};

// Major x 10000 + minor x 100 + patch.
#[unsafe(no_mangle)]
pub extern "C" fn planner_version() -> u64
    ensures { ExportedVersion result }
{
    planner::version::planner_version()
}
