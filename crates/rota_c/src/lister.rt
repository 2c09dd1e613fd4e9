// The lister.
ghost use Rattle.std.specs.Prelude.{◌≡◌};
ghost use Rattle.model.specs.Lister.{lister_answer, lister_after};

use model::{Lister, PlanAnswer};

// The lister's next plan. A refusal leaves the lister as it was.
#[unsafe(no_mangle)]
pub extern "C" fn rota_list_plan(
    lister: &mut Lister,
    n: usize,
    opens: &[u64],
    callouts: &[u64],
) -> PlanAnswer
    ensures { (result ≡ lister_answer lister.old n n opens.now callouts.now)
        × (lister.new ≡ lister_after lister.old n n opens.now callouts.now) }
{
    rota::lister::rota_list_plan(lister, n, opens, callouts)
}
