// The loading of a sheet.
ghost use Rattle.bench_edge.specs.Sheets.{SheetAnswered};

use nonces::Sheet;
use refusals::answer_number;

/// Loads a sheet, and answers 0 or the refusal's number.
#[unsafe(no_mangle)]
pub extern "C" fn bench_edge_sheet(entries: &[u64]) -> u32
    ensures { SheetAnswered entries.now result }
{
    answer_number(&Sheet::new(entries)) as u32
}
