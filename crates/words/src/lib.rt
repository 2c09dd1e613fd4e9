// Words of 64 bits as sets of slots 0 to 63: slot j is in w if bit j of w is 1; and tables of words.
#![tactic(auto)]

ghost use Rattle.std.specs.Prelude.{◌≡◌, ◌≢◌, ◌++◌, ◌^◌, ◌≤◌, ◌<◌, length, drop};
ghost use Rattle.std.specs.Int.Count.{ones};
ghost use Rattle.std.specs.Iterator.{at_most};
ghost use Rattle.words.specs.Word.{bit, has, with, without, low, lowest, minus, select};
ghost use Rattle.words.specs.Walk.{TakesLowest};

// Whether slot j is in w.
#[tactic(auto, unfolding(crate::specs::Word::has, crate::specs::Word::bit))]
pub fn has(w: u64, j: usize) -> bool
    requires { j < 64 }
    ensures { result ≡ has w j }
{
    (w >> j) % 2 == 1
}

// 1 if slot j is in w, else 0.
#[tactic(auto, unfolding(crate::specs::Word::bit))]
pub fn bit(w: u64, j: usize) -> usize
    requires { j < 64 }
    ensures { result ≡ bit w j }
{
    ((w >> j) % 2) as usize
}

// The set of slot j alone.
pub fn single(j: usize) -> u64
    requires { j < 64 }
    ensures { result ≡ 2 ^ j }
{
    1u64 << j
}

// w with slot j.
pub fn with(w: u64, j: usize) -> u64
    requires { j < 64 }
    ensures { result ≡ with w j }
{
    w | (1u64 << j)
}

// w without slot j.
pub fn without(w: u64, j: usize) -> u64
    requires { j < 64 }
    ensures { result ≡ without w j }
{
    w & !(1u64 << j)
}

// The slots of a that are not in b.
#[tactic(auto, unfolding(crate::specs::Word::minus))]
pub fn minus(a: u64, b: u64) -> u64
    ensures { result ≡ minus a b }
{
    a & !b
}

// The slots of a outside b, and those of c in b.
#[tactic(auto, unfolding(crate::specs::Word::select))]
pub fn select(a: u64, b: u64, c: u64) -> u64
    ensures { result ≡ select a b c }
{
    minus(a, b) | (c & b)
}

// The n low slots; for n = 64 all of them, with no shift by 64.
#[tactic(auto, unfolding(crate::specs::Word::low))]
pub fn low(n: usize) -> u64
    requires { n ≤ 64 }
    ensures { result ≡ low n }
{
    if n == 64 {
        return u64::MAX;
    }
    (1u64 << n) - 1
}

// The lowest slot of w, by its trailing zeros; 64 where w is empty, and no Option: that is the count which document 01 names.
#[tactic(auto, unfolding(crate::specs::Word::lowest))]
pub fn lowest(w: u64) -> usize
    ensures { result ≡ lowest w }
{
    w.trailing_zeros() as usize
}

// w without its lowest slot.
pub fn without_lowest(w: u64) -> u64
    requires { w ≢ 0 }
    ensures { result ≡ without w (lowest w) }
{
    w & (w - 1)
}

// The slots of a word, the lowest first: the word has those that are still to come.
#[derive(Clone, Copy)]
pub struct Slots(pub u64);

impl Iterator for Slots {
    type Item = usize;

    ghost next_gives = { TakesLowest };

    ghost remaining = { λ s. at_most s.0 };

    fn next(&mut self) -> Option<usize> {
        if self.0 == 0 {
            return None;
        }
        let k = lowest(self.0);
        self.0 = without_lowest(self.0);
        Some(k)
    }
}

// How many slots w has, by counting its ones.
pub fn size(w: u64) -> usize
    ensures { result ≡ ones w }
{
    w.count_ones() as usize
}

// Copies words over the front of a lent table. The callers have tested that it is long enough.
pub fn store(words: &[u64], table: &mut [u64])
    requires { length words.now ≤ length table.old }
    ensures { table.new ≡ words.now ++ drop (length words.now) table.old }
{
    table[..words.len()].copy_from_slice(words);
}
