// Sheets and their text, each answer a plain struct. Serves document 01, "The sheet and the printed table".
ghost use Rattle.planner.specs.Sheets.{ExportedOpen, ExportedPrint};

use answers::sheets::{PlannerSheet, PlannerText};

// Opens a sheet: writes its sizes, ticks and rates to the first entries of three lent lists.
pub fn planner_open_sheet(
    bytes: &[u8],
    sizes: &mut [u64],
    ticks: &mut [u64],
    rates: &mut [u64],
) -> PlannerSheet
    ensures { ExportedOpen bytes.now sizes.old ticks.old rates.old result sizes.new ticks.new rates.new }
{
    PlannerSheet::from(sheet::open_sheet(bytes, sizes, ticks, rates))
}

// Prints what a sheet comes to, its table or its refusal line, to the front of a lent list of bytes.
pub fn planner_sheet_text(bytes: &[u8], text: &mut [u8]) -> PlannerText
    ensures { ExportedPrint bytes.now text.old result text.new }
{
    PlannerText::from(print::print_sheet(bytes, text))
}
