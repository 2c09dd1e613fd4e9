// A plan by its number, and a plan's number. Whether there is such a plan is known before the tally is touched, so a refusal leaves it as it was.
ghost use Rattle.std.specs.Prelude.{◌≡◌, length};
ghost use Rattle.model.specs.NumberAnswers.{plan_at_answer, plan_at_tally, plan_number_answer, plan_number_tally};

use acceptance::CallTables;
use answers::{Answer, FigureAnswer};
use model::{NumberAnswer, Plan, PlanAnswer, Refusal};

// The plan with k plans before it.
pub fn rota_plan_at(
    n: usize,
    opens: &[u64],
    callouts: &[u64],
    k: u64,
    tally: &mut [u64],
) -> PlanAnswer
    ensures answer { result ≡ plan_at_answer n n opens.now callouts.now k (length tally.old) }
    ensures tally { tally.new ≡ plan_at_tally n n opens.now callouts.now k tally.old }
{
    let tables = CallTables {
        n,
        m: n,
        opens,
        callouts,
    };
    if let Err(refusal) = tables.counted(tally.len()) {
        return PlanAnswer::refused(refusal);
    }
    if ryser::count(opens) <= k {
        return PlanAnswer::refused(Refusal::NoSuchPlan);
    }
    rank::tally_last(opens, tally);
    answers::given(rank::unrank(opens, tally, k), 0)
}

// How many plans stand before the given one.
pub fn rota_plan_number(
    n: usize,
    opens: &[u64],
    callouts: &[u64],
    given: Plan,
    tally: &mut [u64],
) -> NumberAnswer
    ensures answer { result ≡ plan_number_answer n n opens.now callouts.now given (length tally.old) }
    ensures tally { tally.new ≡ plan_number_tally n n opens.now callouts.now given tally.old }
{
    let tables = CallTables {
        n,
        m: n,
        opens,
        callouts,
    };
    if let Err(refusal) = tables.counted(tally.len()) {
        return NumberAnswer::refused(refusal);
    }
    if !plan::is_plan(opens, given.slots) {
        return NumberAnswer::refused(Refusal::NotAPlan);
    }
    rank::tally_last(opens, tally);
    NumberAnswer::given(rank::rank(opens, tally, given.slots))
}
