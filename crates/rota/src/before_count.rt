// What a call for a figure that wants a plan does before it counts, with a tally or without one.
ghost use Rattle.std.specs.Prelude.{◌≡◌, ◌≢◌, MatchResult};
ghost use Rattle.model.specs.declared.PlanAnswer.{PlanAnswer};
ghost use Rattle.model.specs.Refusal.{code_of, unless};

use answers::ShortAnswer;
use model::{PlanAnswer, Refusal};

// The answer of the search, if it found a plan; else what the call answers: its tests' refusal, or 9.
pub(crate) fn planned<A: ShortAnswer, F: FnOnce() -> PlanAnswer>(
    tested: Result<(), Refusal>,
    search: F,
) -> Result<PlanAnswer, A>
    requires { code_of tested ≡ 0 → F.pre search }
    ensures { MatchResult result
        (λ found. (code_of tested ≡ 0) × (found.code ≡ 0) × F.post search found)
        (λ a. (found : PlanAnswer) × (code_of tested ≡ 0 → F.post search found × (found.code ≢ 0))
        × (a ≡ unless A.by_code (code_of tested) (A.by_shortage found.shortage found.items))) }
{
    // no `map_err`: a function of a trait as a value gets no generated proof
    if let Err(refusal) = tested {
        return Err(A::refused(refusal));
    }
    let found = search();
    if found.code != 0 {
        return Err(A::short(found.shortage, found.items));
    }
    Ok(found)
}
