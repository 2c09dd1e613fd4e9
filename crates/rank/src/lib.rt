// A plan by its number, and a plan's number (unrank and rank), over a tally of the last items. Both walk through the items: the plans that go on
// with a slot stand together in the list, in the order of the slots, and the tally has how many they are.
#![tactic(auto)]

ghost use Rattle.std.specs.Prelude.{◌≡◌, reverse, ◌^◌, ◌≤◌, ◌<◌, length};
ghost use Rattle.model.specs.Plans.{IsPlan};
ghost use Rattle.model.specs.Count.{count, last_counts};
ghost use Rattle.model.specs.Ranks.{unrank, rank};
ghost use Rattle.model.specs.Refusal.{written};
ghost use Rattle.rank.specs.LastTally.{LastTally, Square};

// Writes the items' words into a lent table, last first.
fn backwards(opens: &[u64], words: &mut [u64])
    requires { length words.old ≡ length opens.now }
    ensures { words.new ≡ reverse opens.now }
{
    words.copy_from_slice(opens);
    words.reverse();
}

// Writes the subset counts of the last items: those of the first items, the rota being read backwards.
pub fn tally_last(opens: &[u64], tally: &mut [u64])
    requires { (length opens.now ≤ 20) × (2 ^ length opens.now ≤ length tally.old) }
    ensures { tally.new ≡ written 0 (last_counts (length opens.now) opens.now) tally.old }
{
    let n = opens.len();
    // no heap: room for the most items
    let mut words = [0u64; 20];
    backwards(opens, &mut words[..n]);
    permanent::count_subsets(n, &words[..n], tally);
}

// Plan number k. A slot whose plans end at or before number k is passed over, with them; the first other one is the item's.
pub fn unrank(opens: &[u64], tally: &[u64], k: u64) -> [u8; 64]
    requires { LastTally opens.now tally.now × (k < count (length opens.now) opens.now) }
    ensures { result ≡ unrank (length opens.now) opens.now k }
{
    let mut plan = [0u8; 64];
    let mut further = k;
    let mut set = words::low(opens.len());
    for (i, open) in opens.iter().enumerate() {
        for slot in words::Slots(open & set) {
            let others = words::without(set, slot);
            let ways = tally[others as usize];
            if further < ways {
                plan[i] = slot as u8;
                set = others;
                break;
            }
            further -= ways;
        }
    }
    plan
}

// A plan's number: the plans with a lower slot are counted, item by item. The walk is that of `unrank` with another test: a closure for the
// test would also keep the figure that each goes by, and the plan.
pub fn rank(opens: &[u64], tally: &[u64], plan: [u8; 64]) -> u64
    requires { LastTally opens.now tally.now × IsPlan opens.now plan × Square opens.now }
    ensures { result ≡ rank (length opens.now) opens.now plan }
{
    let mut number: u64 = 0;
    let mut set = words::low(opens.len());
    for (i, open) in opens.iter().enumerate() {
        let own = usize::from(plan[i]);
        for slot in words::Slots(open & set) {
            let others = words::without(set, slot);
            if slot == own {
                set = others;
                break;
            }
            number += tally[others as usize];
        }
    }
    number
}
