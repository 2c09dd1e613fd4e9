// The grade and the monthly price.
ghost use Rattle.std.specs.Prelude.{◌≡◌, length};
ghost use Rattle.model.specs.PriceAnswers.{grade_answer, grade_tally, price_answer, price_tally};

use model::{GradeAnswer, PriceAnswer};

// The grade, by the count in a tally of at least 2^n words.
#[unsafe(no_mangle)]
pub extern "C" fn rota_grade(
    n: usize,
    opens: &[u64],
    callouts: &[u64],
    tally: &mut [u64],
) -> GradeAnswer
    ensures answer { result ≡ grade_answer n n opens.now callouts.now (length tally.old) }
    ensures tally { tally.new ≡ grade_tally n n opens.now callouts.now tally.old }
{
    rota::pricing::rota_grade(n, opens, callouts, tally)
}

// The monthly price in cents. No plan has more than 64 callouts, so nothing is over the cap.
#[unsafe(no_mangle)]
pub extern "C" fn rota_monthly_price(
    n: usize,
    opens: &[u64],
    callouts: &[u64],
    vehicles: u64,
    tally: &mut [u64],
) -> PriceAnswer
    ensures answer { result ≡ price_answer n n opens.now callouts.now vehicles (length tally.old) }
    ensures tally { tally.new ≡ price_tally n n opens.now callouts.now vehicles tally.old }
{
    rota::pricing::rota_monthly_price(n, opens, callouts, vehicles, tally)
}
