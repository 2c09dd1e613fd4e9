// The lister. Its flag beside a plan is the C interface's.
ghost use Rattle.std.specs.Prelude.{◌≡◌};
ghost use Rattle.model.specs.Lister.{lister_answer, lister_after};
ghost use Rattle.rota.specs.Step.{step_of};

use crate::plans;
use model::{Lister, PlanAnswer};

// A lister's step: the lister afterwards, and the answer.
#[derive(Clone, Copy)]
pub struct Stepped {
    pub lister: Lister,
    pub answer: PlanAnswer,
}

// What a lister answers: fresh the first plan, started the one after the plan that it holds.
fn answer(lister: Lister, n: usize, opens: &[u64], callouts: &[u64]) -> PlanAnswer
    ensures { result ≡ lister_answer lister n n opens.now callouts.now }
{
    if lister.started {
        plans::rota_next_plan(n, opens, callouts, lister.plan)
    } else {
        plans::rota_first_plan(n, opens, callouts)
    }
}

// One step of a lister, by value.
pub fn step(lister: Lister, n: usize, opens: &[u64], callouts: &[u64]) -> Stepped
    ensures { result ≡ step_of lister n n opens.now callouts.now }
{
    let a = answer(lister, n, opens, callouts);
    if a.code != 0 {
        return Stepped { lister, answer: a };
    }
    Stepped {
        lister: Lister {
            started: true,
            plan: a.plan,
        },
        answer: a,
    }
}

// The lister's next plan. A refusal leaves the lister as it was.
pub fn rota_list_plan(lister: &mut Lister, n: usize, opens: &[u64], callouts: &[u64]) -> PlanAnswer
    ensures { (result ≡ lister_answer lister.old n n opens.now callouts.now)
        × (lister.new ≡ lister_after lister.old n n opens.now callouts.now) }
{
    let s = step(*lister, n, opens, callouts);
    *lister = s.lister;
    s.answer
}
