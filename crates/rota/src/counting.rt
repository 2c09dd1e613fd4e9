// The count.
ghost use Rattle.std.specs.Prelude.{◌≡◌, length};
ghost use Rattle.model.specs.CountAnswers.{count_answer, count_tally};

use acceptance::CallTables;
use answers::{Answer, FigureAnswer};
use model::CountAnswer;

// Counts the complete plans, in a tally of at least 2^n words.
pub fn rota_count_plans(n: usize, opens: &[u64], callouts: &[u64], tally: &mut [u64]) -> CountAnswer
    ensures answer { result ≡ count_answer n n opens.now callouts.now (length tally.old) }
    ensures tally { tally.new ≡ count_tally n n opens.now callouts.now tally.old }
{
    let tables = CallTables {
        n,
        m: n,
        opens,
        callouts,
    };
    if let Err(refusal) = tables.counted(tally.len()) {
        return CountAnswer::refused(refusal);
    }
    CountAnswer::given(permanent::count_subsets(n, opens, tally))
}
