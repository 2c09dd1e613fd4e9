// A cell's plan (docs/RULES.md): the least perfect matching that holds a given cell. The matchings are those of `augment`.
// At most 64 words are asked of a plain slice: a type that held the fact would ask more of callers, and docs/ names functions here.
#![tactic(auto)]

ghost use Rattle.std.specs.Prelude.{◌≡◌, ◌≤◌, length};
ghost use Rattle.model.specs.Plans.{blank};
ghost use Rattle.model.specs.CellPlans.{cell_plan};
ghost use Rattle.model.specs.PlanAnswers.{given};
ghost use Rattle.cell.specs.Cut.{OpenCell, Cut};

use augment::Matching;
use model::{Plan, PlanAnswer};

// Open words whose plans are those that hold the cell: its item may use its slot alone, and no other item may use that.
fn cut(opens: &[u64], item: usize, slot: usize) -> [u64; 64]
    requires { OpenCell opens.now item slot }
    ensures { Cut opens.now item slot result }
{
    // no heap: room for the most items
    let mut table = [0u64; 64];
    for (i, word) in opens.iter().enumerate() {
        table[i] = words::without(*word, slot);
    }
    table[item] = words::single(slot);
    table
}

// No plan holds the cell.
fn unused() -> PlanAnswer
    ensures { result ≡ given blank 0 }
{
    answers::given(Plan::BLANK.slots, 0)
}

// The first plan that holds an open cell, or the blank plan. The item has the slot from the start, and the others are served around it.
fn open_cell_plan(opens: &[u64], item: usize, slot: usize) -> PlanAnswer
    requires { OpenCell opens.now item slot }
    ensures { result ≡ given (cell_plan 64 opens.now item slot) 0 }
{
    let table = cut(opens, item, slot);
    let cells = &table[..opens.len()];
    let mut m = Matching::empty();
    m.take(cells, item, slot);
    let others = words::without(words::low(opens.len()), item);
    let left = maximum::fill(&mut m, cells, others);
    if left.exposed != 0 {
        return unused();
    }
    least::settle(&mut m, cells, 0, 0);
    answers::given(m.slot, 0)
}

// The first plan that holds the cell, or the blank plan.
pub fn cell_plan(opens: &[u64], item: usize, slot: usize) -> PlanAnswer
    requires { length opens.now ≤ 64 }
    ensures { result ≡ given (cell_plan 64 opens.now item slot) 0 }
{
    if item < opens.len() && slot < 64 && words::has(opens[item], slot) {
        return open_cell_plan(opens, item, slot);
    }
    unused()
}
