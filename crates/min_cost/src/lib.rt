// The fewest callouts: the minimum-cost perfect matching with costs 0 and 1, by duals, and among these the first in dictionary
// order. The duals are u[i] of the items and v[j] of the slots, all 1 at first, with u[i] <= cost(i, j) + v[j] on every open cell,
// cost 1 for a callout, else 0; a cell is tight where both sides are equal.
#![tactic(auto)]

ghost use Rattle.std.specs.Prelude.{◌≡◌, List, ℕ, length, replicate, set};
ghost use Rattle.words.specs.Word.{low};
ghost use Rattle.model.specs.Plans.{IsPlan};
ghost use Rattle.model.specs.PlanAnswers.{fewest_from};
ghost use Rattle.min_cost.specs.Dual.{Square, Lifted, Raisable, Raised, Cheapest};

use augment::Matching;
use model::PlanAnswer;

// item[i] is u[i] less 1, and level[x] are the slots with v = x: fixed tables, no heap.
#[derive(Clone, Copy)]
struct Duals {
    item: [usize; 64],
    level: [u64; 66],
}

impl Duals {
    // All are 1.
    fn ones() -> Duals
        ensures items { result.item ≡ replicate 64 0 }
        ensures slots { result.level ≡ set (replicate 66 0) 1 (low 64) }
    {
        let mut level = [0u64; 66];
        level[1] = words::low(64);
        Duals {
            item: [0; 64],
            level,
        }
    }

    // v of the slots of `dead` grows by 1: a level gives them up, and gets those of the level below.
    fn lift(&mut self, dead: u64)
        ensures slots { Lifted self.old.level dead self.new.level }
        ensures items { self.new.item ≡ self.old.item }
    {
        let mut below: u64 = 0;
        for word in self.level.iter_mut() {
            let here = *word;
            *word = words::select(here, dead, below);
            below = here;
        }
    }

    // u of the items of `up` grows by 1, and each item's word of tight cells is made anew.
    fn raise(&mut self, opens: &[u64], callouts: &[u64], tight: &mut [u64], up: u64)
        requires { Raisable opens.now callouts.now self.old.level self.old.item tight.old up }
        ensures items { Raised opens.now callouts.now self.old.level self.old.item up
            self.new.item tight.new }
        ensures slots { self.new.level ≡ self.old.level }
    {
        // item i has a place in four tables: an index is plainer than a zip of four
        for i in 0..opens.len() {
            let u = self.item[i] + words::bit(up, i);
            self.item[i] = u;
            tight[i] = opens[i] & words::select(self.level[u + 1], callouts[i], self.level[u]);
        }
    }
}

// A plan with the fewest callouts, and their number.
#[derive(Clone, Copy)]
struct Cheap {
    slots: [u8; 64],
    number: usize,
}

// The first of the plans with the fewest callouts, of a rota that has a plan.
fn cheapest(opens: &[u64], callouts: &[u64]) -> Cheap
    requires { Square opens.now callouts.now × ((q : List ℕ) × IsPlan opens.now q) }
    ensures { Cheapest opens.now callouts.now result.slots result.number }
{
    // the words of tight cells, one for each item; no heap, so there is room for the most
    let mut table = [0u64; 64];
    let tight = &mut table[..opens.len()];
    let mut duals = Duals::ones();
    duals.raise(opens, callouts, tight, 0);
    let mut m = Matching::empty();
    let mut left = maximum::fill(&mut m, tight, words::low(opens.len()));
    let mut number = 0;
    // who is left exposed changes with each turn, so no range holds it
    while left.exposed != 0 {
        number += words::size(left.exposed);
        let up = maximum::deficient_set(&m, left);
        duals.lift(left.dead);
        duals.raise(opens, callouts, tight, up);
        left = maximum::refill(&mut m, tight, left);
    }
    least::settle(&mut m, tight, 0, 0);
    Cheap {
        slots: m.slot,
        number,
    }
}

// The first of the plans with the fewest callouts; 9 without a plan, or 11 if that number is above the cap.
pub fn fewest_plan(opens: &[u64], callouts: &[u64], cap: u32) -> PlanAnswer
    requires { Square opens.now callouts.now }
    ensures { result ≡ fewest_from 64 opens.now callouts.now cap }
{
    let mut m = Matching::empty();
    let left = maximum::fill(&mut m, opens, words::low(opens.len()));
    if left.exposed != 0 {
        return maximum::no_plan(&m, left);
    }
    let cheap = cheapest(opens, callouts);
    let number = cheap.number as u32;
    if number <= cap {
        return answers::given(cheap.slots, number);
    }
    answers::over_cap(number)
}
