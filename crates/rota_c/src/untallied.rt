// Count, grade and price by the count without a tally.
ghost use Rattle.std.specs.Prelude.{◌≡◌};
ghost use Rattle.model.specs.CountAnswers.{untallied_count};
ghost use Rattle.model.specs.PriceAnswers.{untallied_grade, untallied_price};

use model::{CountAnswer, GradeAnswer, PriceAnswer};

// Counts the complete plans.
#[unsafe(no_mangle)]
pub extern "C" fn rota_count_plans_untallied(
    n: usize,
    opens: &[u64],
    callouts: &[u64],
) -> CountAnswer
    ensures { result ≡ untallied_count n n opens.now callouts.now }
{
    rota::untallied::rota_count_plans_untallied(n, opens, callouts)
}

// The grade.
#[unsafe(no_mangle)]
pub extern "C" fn rota_grade_untallied(n: usize, opens: &[u64], callouts: &[u64]) -> GradeAnswer
    ensures { result ≡ untallied_grade n n opens.now callouts.now }
{
    rota::untallied::rota_grade_untallied(n, opens, callouts)
}

// The monthly price in cents. No plan has more than 64 callouts, so nothing is over the cap.
#[unsafe(no_mangle)]
pub extern "C" fn rota_monthly_price_untallied(
    n: usize,
    opens: &[u64],
    callouts: &[u64],
    vehicles: u64,
) -> PriceAnswer
    ensures { result ≡ untallied_price n n opens.now callouts.now vehicles }
{
    rota::untallied::rota_monthly_price_untallied(n, opens, callouts, vehicles)
}
