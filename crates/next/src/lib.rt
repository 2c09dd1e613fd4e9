// The next perfect matching after a given one (the next plan of docs/RULES.md). The matchings are those of `augment`.
// At most 64 words are asked of a plain slice: a type that held the fact would ask more of callers, and docs/ names functions here.
#![tactic(auto)]

ghost use Rattle.std.specs.Prelude.{◌≡◌, ◌≤◌, length, IfSome, IfNone};
ghost use Rattle.model.specs.Plans.{plans_after};
ghost use Rattle.model.specs.PlanAnswers.{next_of, next_from};
ghost use Rattle.augment.specs.Table.{Complete};
ghost use Rattle.least.specs.Least.{Minimizable, Lowered, Stuck};
ghost use Rattle.next.specs.Next.{above};

use answers::Answer;
use augment::Matching;
use model::{Plan, PlanAnswer, Refusal};

// Item x moves to the least slot above its own that leaves those of the items before it to them, if there is one. `after` are the
// slots open to the items after it.
pub fn advance_item(
    m: &mut Matching,
    opens: &[u64],
    x: usize,
    after: u64,
    fixed: u64,
) -> Option<usize>
    requires { Minimizable opens.now m.old.owner m.old.slot m.old.free x after fixed }
    ensures found { IfSome result (λ k. Lowered opens.now m.old.owner x (above opens.now m.old.slot x) fixed
        m.new.owner m.new.slot m.new.free k) }
    ensures none { IfNone result (Stuck opens.now m.old.owner x (above opens.now m.old.slot x) fixed) }
    ensures same { IfNone result (m.new ≡ m.old) }
{
    let s = m.slot_of(x);
    let hit = m.vacant(opens, x);
    if least::ways_out(s, hit, after, m.free) == 0 {
        return None;
    }
    let may = words::minus(opens[x], words::low(s + 1));
    let cand = words::minus(may, fixed);
    if cand == 0 {
        return None;
    }
    let near = hit & may;
    if near != 0 {
        return Some(least::lower_from(m, opens, x, words::lowest(near), may, fixed));
    }
    least::shift(m, opens, x, cand, fixed)?;
    Some(least::lower(m, opens, x, may, fixed))
}

// The plan after the one that a complete matching holds; 10 where none follows. From the last item on, the first that can advance does,
// and the items after it get their least slots.
pub fn advance(m: &mut Matching, opens: &[u64]) -> PlanAnswer
    requires { Complete opens.now m.old.owner m.old.slot m.old.free }
    ensures { result ≡ next_of (plans_after 64 opens.now m.old.slot) }
{
    let mut fixed = words::minus(words::low(64), m.free);
    let mut after: u64 = 0;
    for i in (0..opens.len()).rev() {
        fixed = words::without(fixed, m.slot_of(i));
        if let Some(k) = advance_item(m, opens, i, after, fixed) {
            least::settle(m, opens, i + 1, words::with(fixed, k));
            return answers::given(m.slot, 0);
        }
        after |= opens[i];
    }
    PlanAnswer::refused(Refusal::NoFurtherPlan)
}

// The plan after the given one; 8 where that is none of this rota, 10 where none follows.
pub fn next_plan(opens: &[u64], given: Plan) -> PlanAnswer
    requires { length opens.now ≤ 64 }
    ensures { result ≡ next_from 64 opens.now given.slots }
{
    let Some(mut m) = plan::adopt(opens, given.slots) else {
        return PlanAnswer::refused(Refusal::NotAPlan);
    };
    advance(&mut m, opens)
}
