// The first, the next and the fewest-callout plan of a rota, and the plan that uses a cell.
ghost use Rattle.std.specs.Prelude.{◌≡◌};
ghost use Rattle.model.specs.PlanAnswers.{first_answer, next_answer, fewest_answer, cell_answer};

use model::{Plan, PlanAnswer};

// The first plan of a rota of n items.
#[unsafe(no_mangle)]
pub extern "C" fn rota_first_plan(n: usize, opens: &[u64], callouts: &[u64]) -> PlanAnswer
    ensures { result ≡ first_answer n n opens.now callouts.now }
{
    rota::plans::rota_first_plan(n, opens, callouts)
}

// The plan after the given one.
#[unsafe(no_mangle)]
pub extern "C" fn rota_next_plan(
    n: usize,
    opens: &[u64],
    callouts: &[u64],
    given: Plan,
) -> PlanAnswer
    ensures { result ≡ next_answer n n opens.now callouts.now given }
{
    rota::plans::rota_next_plan(n, opens, callouts, given)
}

// The first of the plans with the fewest callouts, if these are at most `cap`.
#[unsafe(no_mangle)]
pub extern "C" fn rota_fewest_callouts(
    n: usize,
    opens: &[u64],
    callouts: &[u64],
    cap: u32,
) -> PlanAnswer
    ensures { result ≡ fewest_answer n n opens.now callouts.now cap }
{
    rota::plans::rota_fewest_callouts(n, opens, callouts, cap)
}

// The first plan that holds the item's cell of that slot; the blank plan where none does, with 0 too.
#[unsafe(no_mangle)]
pub extern "C" fn rota_cell_plan(
    n: usize,
    opens: &[u64],
    callouts: &[u64],
    item: usize,
    slot: usize,
) -> PlanAnswer
    ensures { result ≡ cell_answer n n opens.now callouts.now item slot }
{
    rota::plans::rota_cell_plan(n, opens, callouts, item, slot)
}
