// Sheets and their text, exported. Serves document 01, "The sheet and the printed table".
ghost use Rattle.planner.specs.Sheets.{ExportedOpen, ExportedPrint};

use answers::sheets::{PlannerSheet, PlannerText};

// Opens a sheet: writes its sizes, ticks and rates to the first entries of three lent lists.
#[unsafe(no_mangle)]
pub extern "C" fn planner_open_sheet(
    bytes: &[u8],
    sizes: &mut [u64],
    ticks: &mut [u64],
    rates: &mut [u64],
) -> PlannerSheet
    ensures { ExportedOpen bytes.now sizes.old ticks.old rates.old result sizes.new ticks.new rates.new }
{
    planner::sheets::planner_open_sheet(bytes, sizes, ticks, rates)
}

// Prints what a sheet comes to, its table or its refusal line, to the front of a lent list of bytes.
#[unsafe(no_mangle)]
pub extern "C" fn planner_sheet_text(bytes: &[u8], text: &mut [u8]) -> PlannerText
    ensures { ExportedPrint bytes.now text.old result text.new }
{
    planner::sheets::planner_sheet_text(bytes, text)
}
