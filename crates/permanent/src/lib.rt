// The subset counts (the tally of docs/RULES.md), and the number of complete plans, which is the permanent of the table.
#![tactic(auto)]

ghost use Rattle.std.specs.Prelude.{◌≡◌, cond, ◌-◌, ◌^◌, ◌≤◌, ◌<◌, eqb, length, get_or};
ghost use Rattle.model.specs.Count.{count, subset_counts};
ghost use Rattle.model.specs.Refusal.{written};
ghost use Rattle.permanent.specs.Served.{served};

// The open word of item k - 1, the last of the first k; beyond the items no slot is open.
fn last_open(opens: &[u64], k: usize) -> u64
    requires { 0 < k }
    ensures { result ≡ get_or opens.now (k - 1) 0 }
{
    if k <= opens.len() { opens[k - 1] } else { 0 }
}

// What a set of k slots adds to the count for n items.
fn complete(k: usize, n: usize, ways: u64) -> u64
    ensures { result ≡ cond (eqb k n) ways 0 }
{
    if k == n { ways } else { 0 }
}

// The word of a set, from the words below it: an item takes one of its open slots in the set, the other items the rest.
fn subset_count(opened: u64, counts: &[u64], set: u64) -> u64
    requires { (set ≤ length counts.now) × (served opened counts.now set < 2 ^ 64) }
    ensures { result ≡ served opened counts.now set }
{
    let mut ways: u64 = 0;
    for slot in words::Slots(set & opened) {
        // the slot is in the set
        let others = set - words::single(slot);
        ways += counts[others as usize];
    }
    ways
}

// Writes the subset counts of m slots, and answers the number of complete plans: the sum of the words whose sets have as many slots
// as there are items. `rota`'s count, grade and price meet the sizes asked for: they refuse others before, by 5 and 6.
pub fn count_subsets(m: usize, opens: &[u64], counts: &mut [u64]) -> u64
    requires { (m ≤ 20) × (2 ^ m ≤ length counts.old) }
    ensures answer { result ≡ count m opens.now }
    ensures table { counts.new ≡ written 0 (subset_counts m opens.now) counts.old }
{
    let end = words::single(m);
    let n = opens.len();
    counts[0] = 1;
    let mut plans = complete(0, n, 1);
    for set in 1..end {
        let k = words::size(set);
        let ways = subset_count(last_open(opens, k), counts, set);
        counts[set as usize] = ways;
        plans += complete(k, n, ways);
    }
    plans
}
