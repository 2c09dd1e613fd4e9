// The sheet of a plan.
ghost use Rattle.std.specs.Prelude.{◌≡◌, length};
ghost use Rattle.model.specs.SheetAnswers.{sheet_code, sheet_after};

use acceptance::CallTables;
use model::{Plan, Refusal};

// Writes the sheet of the given plan into a lent page. The plan is tested before a byte is written, so a refusal leaves the page as it was.
pub fn rota_plan_sheet(
    n: usize,
    opens: &[u64],
    callouts: &[u64],
    given: Plan,
    page: &mut [u8],
) -> u32
    ensures code { result ≡ sheet_code n n opens.now callouts.now given (length page.old) }
    ensures page { page.new ≡ sheet_after n n opens.now callouts.now given page.old }
{
    let tables = CallTables {
        n,
        m: n,
        opens,
        callouts,
    };
    if let Err(refusal) = tables.accepted() {
        return refusal.number();
    }
    let size = (n + 1) * 32;
    if page.len() < size {
        return Refusal::OutputTooShort.number();
    }
    if !plan::is_plan(opens, given.slots) {
        return Refusal::NotAPlan.number();
    }
    sheet::write_sheet(callouts, given.slots, &mut page[..size]);
    0
}
