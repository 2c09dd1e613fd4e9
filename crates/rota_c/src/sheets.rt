// The sheet of a plan.
ghost use Rattle.std.specs.Prelude.{◌≡◌, length};
ghost use Rattle.model.specs.SheetAnswers.{sheet_code, sheet_after};

use model::Plan;

// Writes the sheet of the given plan into a lent page. The plan is tested before a byte is written, so a refusal leaves the page as it was.
#[unsafe(no_mangle)]
pub extern "C" fn rota_plan_sheet(
    n: usize,
    opens: &[u64],
    callouts: &[u64],
    given: Plan,
    page: &mut [u8],
) -> u32
    ensures code { result ≡ sheet_code n n opens.now callouts.now given (length page.old) }
    ensures page { page.new ≡ sheet_after n n opens.now callouts.now given page.old }
{
    rota::sheets::rota_plan_sheet(n, opens, callouts, given, page)
}
