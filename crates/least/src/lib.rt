// The least perfect matching (the first plan of docs/RULES.md): a complete matching is made least item by item, with the slots of the
// items before left to them. The matchings are those of `augment`.
// At most 64 words are asked of a plain slice: a type that held the fact would ask more of callers, and docs/ names functions here.
#![tactic(auto)]

ghost use Rattle.std.specs.Prelude.{◌≡◌, ◌≤◌, ◌<◌, length, get_or, IfSome, IfNone};
ghost use Rattle.std.specs.Int.Bits.{bit_and, bit_or};
ghost use Rattle.words.specs.Word.{with, minus, low};
ghost use Rattle.model.specs.PlanAnswers.{first_from};
ghost use Rattle.augment.specs.Table.{at};
ghost use Rattle.augment.specs.Search.{Within};
ghost use Rattle.least.specs.Least.{Shiftable, Shifted, Stuck, Lowerable, Lowered, Near, Later, Minimizable, Settleable, Settled};

use augment::Matching;
use model::PlanAnswer;

// Item x moves to a slot of `cand`, which other items hold, if that is possible with the slots of `fixed` left to their holders.
pub fn shift(m: &mut Matching, opens: &[u64], x: usize, cand: u64, fixed: u64) -> Option<usize>
    requires { Shiftable opens.now m.old.owner m.old.slot m.old.free x cand fixed }
    ensures found { IfSome result (λ k. Shifted opens.now m.old.owner x cand fixed
        m.new.owner m.new.slot m.new.free k × Within m.new.free (with m.old.free (at m.old.slot x))) }
    ensures none { IfNone result (Stuck opens.now m.old.owner x cand fixed) }
    ensures same { IfNone result (m.new ≡ m.old) }
{
    let free = m.free;
    let s = m.slot_of(x);
    m.free = words::with(free, s);
    let Ok(k) = m.displace(opens, x, cand, fixed) else {
        m.free = free;
        return None;
    };
    Some(k)
}

// Item x, which holds a slot of `may`, moves to the least of these that leaves the slots of `fixed` to their holders. No lower slot of
// `may` is free.
pub fn lower(m: &mut Matching, opens: &[u64], x: usize, may: u64, fixed: u64) -> usize
    requires { Lowerable opens.now m.old.owner m.old.slot m.old.free x may fixed }
    ensures { Lowered opens.now m.old.owner x may fixed m.new.owner m.new.slot m.new.free result }
{
    let all = words::minus(may, fixed);
    let mut s = m.slot_of(x);
    // each turn goes on from the slot that the last one found, so no range holds it
    loop {
        let cand = all & words::low(s);
        if cand == 0 {
            return s;
        }
        let Some(k) = shift(m, opens, x, cand, fixed) else {
            return s;
        };
        s = k;
    }
}

// Item x leaves its slot for the free slot h of `may`, and moves from there to the least that leaves the slots of `fixed` to their
// holders. Of the slots of `may` below h none is free, nor its own.
pub fn lower_from(
    m: &mut Matching,
    opens: &[u64],
    x: usize,
    h: usize,
    may: u64,
    fixed: u64,
) -> usize
    requires { Near opens.now m.old.owner m.old.slot m.old.free x fixed may h }
    ensures { Lowered opens.now m.old.owner x may fixed m.new.owner m.new.slot m.new.free result }
{
    let s = m.slot_of(x);
    m.free = words::with(m.free, s);
    m.take(opens, x, h);
    lower(m, opens, x, may, fixed)
}

// The slots of a word below s that are not fixed.
pub fn below(word: u64, fixed: u64, s: usize) -> u64
    requires { s ≤ 64 }
    ensures { result ≡ bit_and (minus word fixed) (low s) }
{
    words::minus(word, fixed) & words::low(s)
}

// For each item from `from` on, the slots open to the items after it.
pub fn later(opens: &[u64], from: usize) -> [u64; 64]
    requires { length opens.now ≤ 64 }
    ensures { Later opens.now from result }
{
    // no heap: room for the most items
    let mut table = [0u64; 64];
    let mut all: u64 = 0;
    for i in (from..opens.len()).rev() {
        table[i] = all;
        all |= opens[i];
    }
    table
}

// The slots by which an item may leave its slot s at all, with the items before it left alone: the free ones that it may use, and s and the
// free ones as far as an item after it may use them. `hit` are the slots both open to it and free, `after` those open to the items after it.
pub fn ways_out(s: usize, hit: u64, after: u64, free: u64) -> u64
    requires { s < 64 }
    ensures { result ≡ bit_or hit (bit_and after (with free s)) }
{
    hit | (after & words::with(free, s))
}

// Item x gets the least slot that leaves those of the items before it to them. It keeps its own if they hold every lower one that is
// open to it.
pub fn minimize(m: &mut Matching, opens: &[u64], x: usize, after: u64, fixed: u64) -> usize
    requires { Minimizable opens.now m.old.owner m.old.slot m.old.free x after fixed }
    ensures { Lowered opens.now m.old.owner x (get_or opens.now x 0) fixed
        m.new.owner m.new.slot m.new.free result }
{
    let s = m.slot_of(x);
    let word = opens[x];
    if below(word, fixed, s) == 0 {
        return s;
    }
    let hit = m.vacant(opens, x);
    if ways_out(s, hit, after, m.free) == 0 {
        return s;
    }
    let near = hit & words::low(s);
    if near != 0 {
        return lower_from(m, opens, x, words::lowest(near), word, fixed);
    }
    lower(m, opens, x, word, fixed)
}

// The items from `from` on get, one after the other, their least slots; `fixed` are the slots of the items before.
fn settle_each(m: &mut Matching, opens: &[u64], from: usize, mut fixed: u64)
    requires { Settleable opens.now m.old.owner m.old.slot m.old.free from fixed }
    ensures { Settled opens.now m.old.slot from m.new.slot }
{
    let table = later(opens, from);
    for i in from..opens.len() {
        let k = minimize(m, opens, i, table[i], fixed);
        fixed = words::with(fixed, k);
    }
}

// The same, but first the items that can have no lower slot are passed, up to one that may: an item keeps its slot if the items before
// it hold every lower one that is open to it. Where all are passed, nothing is searched. Two functions, since the table of `later` is made only
// where an item may have a lower slot.
pub fn settle(m: &mut Matching, opens: &[u64], from: usize, mut fixed: u64)
    requires { Settleable opens.now m.old.owner m.old.slot m.old.free from fixed }
    ensures { Settled opens.now m.old.slot from m.new.slot }
{
    for i in from..opens.len() {
        let s = m.slot_of(i);
        if below(opens[i], fixed, s) != 0 {
            return settle_each(m, opens, i, fixed);
        }
        fixed = words::with(fixed, s);
    }
}

// The first plan; or 9 with the deficient set and the deficiency. The searches answer the record that C gets: model defines them by it.
pub fn first_plan(opens: &[u64]) -> PlanAnswer
    requires { length opens.now ≤ 64 }
    ensures { result ≡ first_from 64 opens.now }
{
    let mut m = Matching::empty();
    let left = maximum::fill(&mut m, opens, words::low(opens.len()));
    if left.exposed != 0 {
        return maximum::no_plan(&m, left);
    }
    settle(&mut m, opens, 0, 0);
    answers::given(m.slot, 0)
}
