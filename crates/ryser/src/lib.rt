// The number of complete plans by Ryser's formula, with no tally. The sets of slots are gone through by what they leave out. The sums of the
// rows, how many slots of the set are open to each item, go along: 24 bytes, in three words.
#![tactic(auto)]

ghost use Rattle.std.specs.Prelude.{◌≡◌, ◌+◌, ◌*◌, ◌%◌, ◌^◌, ◌<◌, ◌≤◌, not, length};
ghost use Rattle.model.specs.Count.{count};
ghost use Rattle.ryser.specs.Bytes.{bytes, multiplied, quad, some_zero, Small, SmallQuad};
ghost use Rattle.ryser.specs.RowSums.{row_sum, row_sums, sums_of, column_of, less, full, WithinSums, SmallSums, Underway, SignedSum};

// How many slots of the set are open to item i; beyond the items 1, which no product sees.
#[tactic(auto, unfolding(crate::specs::RowSums::row_sum))]
fn row_sum(opens: &[u64], set: u64, i: usize) -> u64
    ensures { result ≡ row_sum opens.now set i }
{
    match opens.get(i) {
        Some(open) => words::size(open & set) as u64,
        None => 1,
    }
}

// The sums of items 8k to 8k + 7, a byte each.
fn row_sums(opens: &[u64], set: u64, k: usize) -> u64
    requires { (set < 2 ^ 20) × (k < 3) }
    ensures { result ≡ row_sums opens.now set k }
{
    let mut x: u64 = 0;
    for i in (0..8).rev() {
        x = x * 256 + row_sum(opens, set, 8 * k + i);
    }
    x
}

// Whether none of a word's bytes is 0. A byte from 1 on makes its top bit with 127 added; no byte carries into the next.
fn full(x: u64) -> bool
    requires { Small (bytes 8 x) }
    ensures { result ≡ not (some_zero (bytes 8 x)) }
{
    (x + 0x7f7f_7f7f_7f7f_7f7f) & 0x8080_8080_8080_8080 == 0x8080_8080_8080_8080
}

// Bytes 0 and 2 of x and bytes 0 and 4 of y, multiplied. Each product of a byte of x and one of y has 16 bits of the first product to itself;
// the two that are wanted stand lowest and highest.
fn quad(x: u64, y: u64) -> u64
    requires { SmallQuad x y }
    ensures { (result ≡ quad x y) × (result ≤ 160000) }
{
    let p = (x & 0x00ff_00ff) * (y & 0x00ff_0000_00ff);
    (p % 65536) * (p / 281474976710656)
}

// The sums of the rows for a set of slots: of items 0 to 7, 8 to 15 and 16 to 23. Handed on as three words they took as long or longer.
#[derive(Clone, Copy)]
struct Sums {
    first: u64,
    second: u64,
    third: u64,
}

impl Sums {
    // Those of a set.
    fn of(opens: &[u64], set: u64) -> Sums
        requires { set < 2 ^ 20 }
        ensures { result ≡ sums_of opens.now set }
    {
        Sums {
            first: row_sums(opens, set, 0),
            second: row_sums(opens, set, 1),
            third: row_sums(opens, set, 2),
        }
    }

    // What slot j adds to them.
    fn column(opens: &[u64], j: usize) -> Sums
        requires { j < 20 }
        ensures { result ≡ column_of opens.now j }
    {
        Sums::of(opens, words::single(j)).minus(Sums::of(opens, 0))
    }

    // The sums less what a slot adds to them.
    fn minus(self, column: Sums) -> Sums
        requires { WithinSums column self }
        ensures { result ≡ less self column }
    {
        Sums {
            first: self.first - column.first,
            second: self.second - column.second,
            third: self.third - column.third,
        }
    }

    // Whether no sum is 0.
    fn full(self) -> bool
        requires { SmallSums self }
        ensures { result ≡ full self }
    {
        full(self.first) & full(self.second) & full(self.third)
    }

    // The set's term, modulo 2 to the power 64, of twenty sums: thirteen factors are below it, seven more make the last product. Bytes are taken
    // by division, as the definition of `bytes` takes them.
    fn term(self) -> u64
        requires { SmallSums self }
        ensures { result ≡ multiplied (bytes 8 self.first) * multiplied (bytes 8 self.second) * multiplied (bytes 4 self.third) % 2 ^ 64 }
    {
        let x = self.first;
        let y = self.second;
        let z = self.third;
        let a = quad(x, y);
        let b = quad(x / 256, y / 256);
        let c = quad(x / 256 / 256 / 256 / 256, y / 256 / 256);
        let d = quad(x / 256 / 256 / 256 / 256 / 256, y / 256 / 256 / 256);
        let e = (z / 256 % 256) * (z / 256 / 256 % 256) * (z / 256 / 256 / 256 % 256);
        (a * b * (c * (z % 256))).wrapping_mul(d * e)
    }
}

// The signed sum over a set, whose rows' sums these are, and all that lack slots below j besides. First the set's own term; then, for each k,
// those that lack slot k and perhaps slots below it. Where a row's sum is 0 it stays 0, and so does every term: that branch is cut.
fn signed_sum(columns: &[Sums; 20], j: usize, sums: Sums) -> u64
    requires { Underway columns.now j sums }
    ensures { SignedSum columns.now j sums result }
{
    let mut sum = sums.term();
    for k in 0..j {
        let rest = sums.minus(columns[k]);
        if rest.full() {
            sum = sum.wrapping_sub(signed_sum(columns, k, rest));
        }
    }
    sum
}

// The number of complete plans of as many slots as items. The columns are a fixed table (no heap).
pub fn count(opens: &[u64]) -> u64
    requires { length opens.now ≤ 20 }
    ensures { result ≡ count (length opens.now) opens.now }
{
    let n = opens.len();
    let mut columns = [Sums {
        first: 0,
        second: 0,
        third: 0,
    }; 20];
    for j in 0..n {
        columns[j] = Sums::column(opens, j);
    }
    signed_sum(&columns, n, Sums::of(opens, words::low(n)))
}
