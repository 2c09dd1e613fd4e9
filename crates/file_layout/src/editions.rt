// What an edition has of its own: the header of a block, its check, and where m stands. All else asks here.
ghost use Rattle.std.specs.Prelude.{◌≡◌, ◌++◌, ◌≤◌, length};
ghost use Rattle.words.specs.Sum.{total};
ghost use Rattle.model.specs.File.{mark, header, check_of, slots_in};

use model::Edition;

// What every header begins with.
pub const MARK: [u8; 4] = *b"ROTA";

// What a header tells: it is of block b, with k items, of a rota of n items and m slots.
#[derive(Clone, Copy)]
pub struct Header {
    pub n: u8,
    pub m: u8,
    pub b: u8,
    pub k: u8,
}

impl Header {
    // Its ten bytes after the mark. Edition 1 does not tell m.
    #[tactic(auto, using(crate::proofs::ByEdition::fields_are))]
    pub fn fields(self, edition: Edition) -> [u8; 10]
        ensures { mark ++ result ≡ header edition self.n self.m self.b self.k }
    {
        let Header { n, b, k, .. } = self;
        match edition {
            Edition::One => [1, n, b, k, 0, 0, 0, 0, 0, 0],
        }
    }
}

// The sum of some bytes.
#[tactic(auto, using(crate::proofs::Library::sum_is))]
fn sum_of(bytes: &[u8]) -> u64
    requires { length bytes.now ≤ 510 }
    ensures { result ≡ total (λ b. b) bytes.now }
{
    bytes.iter().map(|b| u64::from(*b)).sum()
}

// The check of bytes 0 to 509 of a block.
#[tactic(auto, using(crate::proofs::ByEdition::check_is))]
pub fn check_of(edition: Edition, bytes: &[u8]) -> u64
    requires { length bytes.now ≤ 510 }
    ensures { result ≡ check_of edition bytes.now }
{
    match edition {
        Edition::One => sum_of(bytes) % 65536,
    }
}

// m of the rota in a file.
#[tactic(auto, using(crate::proofs::ByEdition::slots_are))]
pub fn slots_in(edition: Edition, file: &[u8]) -> u8
    requires { 14 ≤ length file.now }
    ensures { result ≡ slots_in edition file.now }
{
    match edition {
        Edition::One => file[5],
    }
}
