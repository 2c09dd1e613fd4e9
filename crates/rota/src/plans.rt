// The first, the next and the fewest-callout plan of a rota, and the plan that uses a cell.
ghost use Rattle.std.specs.Prelude.{◌≡◌};
ghost use Rattle.model.specs.PlanAnswers.{first_answer, next_answer, fewest_answer, cell_answer};

use acceptance::CallTables;
use answers::Answer;
use model::{Plan, PlanAnswer};

// The first plan of a rota of n items.
pub fn rota_first_plan(n: usize, opens: &[u64], callouts: &[u64]) -> PlanAnswer
    ensures { result ≡ first_answer n n opens.now callouts.now }
{
    let tables = CallTables {
        n,
        m: n,
        opens,
        callouts,
    };
    if let Err(refusal) = tables.accepted() {
        return PlanAnswer::refused(refusal);
    }
    least::first_plan(opens)
}

// The plan after the given one.
pub fn rota_next_plan(n: usize, opens: &[u64], callouts: &[u64], given: Plan) -> PlanAnswer
    ensures { result ≡ next_answer n n opens.now callouts.now given }
{
    let tables = CallTables {
        n,
        m: n,
        opens,
        callouts,
    };
    if let Err(refusal) = tables.accepted() {
        return PlanAnswer::refused(refusal);
    }
    next::next_plan(opens, given)
}

// The first of the plans with the fewest callouts, if these are at most `cap`.
pub fn rota_fewest_callouts(n: usize, opens: &[u64], callouts: &[u64], cap: u32) -> PlanAnswer
    ensures { result ≡ fewest_answer n n opens.now callouts.now cap }
{
    let tables = CallTables {
        n,
        m: n,
        opens,
        callouts,
    };
    if let Err(refusal) = tables.accepted() {
        return PlanAnswer::refused(refusal);
    }
    min_cost::fewest_plan(opens, callouts, cap)
}

// The first plan that holds the item's cell of that slot; the blank plan where none does, with 0 too.
pub fn rota_cell_plan(
    n: usize,
    opens: &[u64],
    callouts: &[u64],
    item: usize,
    slot: usize,
) -> PlanAnswer
    ensures { result ≡ cell_answer n n opens.now callouts.now item slot }
{
    let tables = CallTables {
        n,
        m: n,
        opens,
        callouts,
    };
    if let Err(refusal) = tables.accepted() {
        return PlanAnswer::refused(refusal);
    }
    cell::cell_plan(opens, item, slot)
}
