// How a rota file is laid out: what its readers compare and its writer writes.
#![tactic(auto)]

pub mod editions;
pub mod numbers;

ghost use Rattle.std.specs.Prelude.{◌≡◌, ◌≤◌};
ghost use Rattle.model.specs.File.{blocks_for, items_of};

// The blocks that n items need.
#[tactic(auto, unfolding(model::specs::File::blocks_for))]
pub fn blocks_for(n: usize) -> usize
    requires { n ≤ 64 }
    ensures { (result ≡ blocks_for n) × (result ≤ 3) }
{
    n.div_ceil(31)
}

// The items in block b of a rota of n.
#[tactic(auto, unfolding(model::specs::File::items_of))]
pub fn items_of(n: usize, b: usize) -> usize
    requires { b ≤ 255 }
    ensures { (result ≡ items_of n b) × (result ≤ 31) }
{
    n.saturating_sub(31 * b).min(31)
}
