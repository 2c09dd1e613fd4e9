// The count.
ghost use Rattle.std.specs.Prelude.{◌≡◌, length};
ghost use Rattle.model.specs.CountAnswers.{count_answer, count_tally};

use model::CountAnswer;

// Counts the complete plans, in a tally of at least 2^n words.
#[unsafe(no_mangle)]
pub extern "C" fn rota_count_plans(
    n: usize,
    opens: &[u64],
    callouts: &[u64],
    tally: &mut [u64],
) -> CountAnswer
    ensures answer { result ≡ count_answer n n opens.now callouts.now (length tally.old) }
    ensures tally { tally.new ≡ count_tally n n opens.now callouts.now tally.old }
{
    rota::counting::rota_count_plans(n, opens, callouts, tally)
}
