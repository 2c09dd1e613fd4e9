// A plan by its number, and a plan's number.
ghost use Rattle.std.specs.Prelude.{◌≡◌, length};
ghost use Rattle.model.specs.NumberAnswers.{plan_at_answer, plan_at_tally, plan_number_answer, plan_number_tally};

use model::{NumberAnswer, Plan, PlanAnswer};

// The plan with k plans before it.
#[unsafe(no_mangle)]
pub extern "C" fn rota_plan_at(
    n: usize,
    opens: &[u64],
    callouts: &[u64],
    k: u64,
    tally: &mut [u64],
) -> PlanAnswer
    ensures answer { result ≡ plan_at_answer n n opens.now callouts.now k (length tally.old) }
    ensures tally { tally.new ≡ plan_at_tally n n opens.now callouts.now k tally.old }
{
    rota::numbers::rota_plan_at(n, opens, callouts, k, tally)
}

// How many plans stand before the given one.
#[unsafe(no_mangle)]
pub extern "C" fn rota_plan_number(
    n: usize,
    opens: &[u64],
    callouts: &[u64],
    given: Plan,
    tally: &mut [u64],
) -> NumberAnswer
    ensures answer { result ≡ plan_number_answer n n opens.now callouts.now given (length tally.old) }
    ensures tally { tally.new ≡ plan_number_tally n n opens.now callouts.now given tally.old }
{
    rota::numbers::rota_plan_number(n, opens, callouts, given, tally)
}
