// A plan's record of 64 bytes: whether it is a complete plan of a rota (refusal 8), and how many of its cells are callouts.
// At most 64 words are asked of a plain slice: a type that held the fact would ask more of callers, and docs/ names functions here.
#![tactic(auto)]

ghost use Rattle.std.specs.Prelude.{◌≡◌, true, false, ◌≤◌, ◌↔◌, length, IsTrue, IfSome, IfNone};
ghost use Rattle.words.specs.Word.{has};
ghost use Rattle.model.specs.Plans.{IsPlan};
ghost use Rattle.model.specs.Fewest.{callouts_of};
ghost use Rattle.augment.specs.Table.{Complete};
ghost use Rattle.plan.specs.Adoption.{Zeros};

use augment::Matching;

// Whether the bytes from n on are 0.
pub fn zeros_from(plan: [u8; 64], n: usize) -> bool
    ensures { IsTrue result ↔ Zeros plan n }
{
    plan.iter().skip(n).all(|s| *s == 0)
}

// The complete matching whose slots are the record's bytes; none where the record is no plan.
pub fn adopt(opens: &[u64], plan: [u8; 64]) -> Option<Matching>
    requires { length opens.now ≤ 64 }
    ensures complete { IfSome result (λ m. Complete opens.now m.owner m.slot m.free) }
    ensures same { IfSome result (λ m. m.slot ≡ plan) }
    ensures none { IfNone result (IsPlan opens.now plan → ⊥) }
{
    if !zeros_from(plan, opens.len()) {
        return None;
    }
    let mut m = Matching::empty();
    // an item is served by its number
    for i in 0..opens.len() {
        let s = usize::from(plan[i]);
        if s >= 64 || !words::has(m.vacant(opens, i), s) {
            return None;
        }
        m.take(opens, i, s);
    }
    Some(m)
}

// Whether a record is a plan, where nobody asks for the holders.
pub fn is_plan(opens: &[u64], plan: [u8; 64]) -> bool
    requires { length opens.now ≤ 64 }
    ensures { (result ≡ true → IsPlan opens.now plan) × (result ≡ false → IsPlan opens.now plan → ⊥) }
{
    adopt(opens, plan).is_some()
}

// Whether the slot is in the callout word.
fn is_callout(word: u64, j: u8) -> bool
    ensures { result ≡ has word j }
{
    j < 64 && words::has(word, usize::from(j))
}

// How many of a plan's cells are callouts. As a chain that filters and counts it leaves the goal `returns` open.
pub fn callouts_of(callouts: &[u64], plan: [u8; 64]) -> u64
    requires { length callouts.now ≤ 64 }
    ensures { result ≡ callouts_of callouts.now plan }
{
    let mut number = 0;
    for (word, s) in callouts.iter().zip(&plan) {
        if is_callout(*word, *s) {
            number += 1;
        }
    }
    number
}
