// Maximum matchings, and the deficient set that shows that no matching is larger (the shortage of docs/RULES.md).
// At most 64 words are asked of a plain slice: a type that held the fact would ask more of callers, and docs/ names functions here.
#![tactic(auto)]

ghost use Rattle.std.specs.Prelude.{◌≡◌, ℕ, ◌^◌, ◌≤◌, ◌<◌, length};
ghost use Rattle.std.specs.Int.Bits.{bit_or};
ghost use Rattle.words.specs.Word.{bit};
ghost use Rattle.model.specs.Deficiency.{neighbours};
ghost use Rattle.augment.specs.Table.{own};
ghost use Rattle.maximum.specs.Maximum.{Fillable, Filled, Refillable, holders, deficient_by};

use answers::ShortAnswer;
use augment::Matching;
use model::PlanAnswer;

// What a maximum matching leaves: the exposed items, and the dead slots, those that no item may use in any matching that serves more.
#[derive(Clone, Copy)]
pub struct Maximum {
    pub exposed: u64,
    pub dead: u64,
}

// Each item of `wanting`, none of which holds a slot, gets one if that is possible without exposing another.
pub fn fill(m: &mut Matching, opens: &[u64], wanting: u64) -> Maximum
    requires { Fillable opens.now m.old.owner m.old.slot m.old.free wanting }
    ensures { Filled opens.now m.new.owner m.new.slot m.new.free result.exposed result.dead }
{
    let mut exposed: u64 = 0;
    let mut dead: u64 = 0;
    for x in words::Slots(wanting) {
        let hit = m.vacant(opens, x);
        if hit != 0 {
            m.take(opens, x, words::lowest(hit));
            continue;
        }
        let cand = words::minus(opens[x], dead);
        if cand == 0 {
            exposed = words::with(exposed, x);
        } else if let Err(closed) = m.displace(opens, x, cand, dead) {
            exposed = words::with(exposed, x);
            dead = closed;
        }
    }
    Maximum { exposed, dead }
}

// The slots open to any item of a set. `span` of augment is the same over holders: one function for both would take a closure and its clauses.
pub fn neighbours(opens: &[u64], items: u64) -> u64
    requires { (length opens.now ≤ 64) × (items < 2 ^ length opens.now) }
    ensures { result ≡ neighbours opens.now items }
{
    let mut all: u64 = 0;
    for x in words::Slots(items) {
        all |= opens[x];
    }
    all
}

// `fill` for the items that stayed exposed, once the open words have changed but the dead slots are still reachable. What is
// reachable now is found from all of them at once, so a search that fails again does not walk them one by one.
pub fn refill(m: &mut Matching, opens: &[u64], left: Maximum) -> Maximum
    requires { Refillable opens.now m.old.owner m.old.slot m.old.free left.exposed left.dead }
    ensures { Filled opens.now m.new.owner m.new.slot m.new.free result.exposed result.dead }
{
    let set = left.dead | neighbours(opens, left.exposed);
    if m.unheld(opens, set) == 0
        && let Err(dead) = m.vacate(opens, set, set)
    {
        return Maximum { dead, ..left };
    }
    fill(m, opens, left.exposed)
}

// The deficient set: the exposed items and the holders of the dead slots.
pub fn deficient_set(m: &Matching, left: Maximum) -> u64
    requires { (k : ℕ) → k < 64 → bit left.dead k ≡ 1 → own m.now.owner k < 64 }
    ensures { result ≡ bit_or left.exposed (holders m.now.owner left.dead) }
{
    let mut all = left.exposed;
    for k in words::Slots(left.dead) {
        all = words::with(all, m.holder(k));
    }
    all
}

// 9: no complete plan exists.
pub fn no_plan(m: &Matching, left: Maximum) -> PlanAnswer
    requires { (k : ℕ) → k < 64 → bit left.dead k ≡ 1 → own m.now.owner k < 64 }
    ensures { result ≡ deficient_by m.now.owner left.exposed left.dead }
{
    PlanAnswer::short(words::size(left.exposed) as u32, deficient_set(m, left))
}
