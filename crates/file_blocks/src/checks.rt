// The tests of one block. A block is a slice of 512 bytes and no array: it is cut out of the file by place, and its parts out of it.
ghost use Rattle.std.specs.Prelude.{◌≡◌, length, replicate};
ghost use Rattle.model.specs.Lists.{same};
ghost use Rattle.model.specs.File.{header, check_wrong, block_laid};

use file_layout::editions::{self, Header};
use file_layout::numbers;
use model::Edition;

// Whether all bytes of a part are 0.
fn all_zero(part: &[u8]) -> bool
    ensures { result ≡ same part.now (replicate (length part.now) 0) }
{
    part.iter().all(|byte| *byte == 0)
}

// Whether bytes 510 and 511 of a block are not its check.
#[tactic(auto, using(crate::proofs::Layouts::wrong_is))]
pub fn check_wrong(edition: Edition, block: &[u8]) -> bool
    requires { length block.now ≡ 512 }
    ensures { result ≡ check_wrong edition block.now }
{
    numbers::from_bytes(&block[510..512]) != editions::check_of(edition, &block[0..510])
}

// Whether bytes 0 to 13 of a block are this header.
fn header_laid(edition: Edition, head: &[u8], h: Header) -> bool
    requires { length head.now ≡ 14 }
    ensures { result ≡ same head.now (header edition h.n h.m h.b h.k) }
{
    head.starts_with(&editions::MARK) && head.ends_with(&h.fields(edition))
}

// Whether header and unused places of block b are as laid out; no byte has a number above 255.
pub fn block_laid(edition: Edition, block: &[u8], n: u8, m: u8, b: usize) -> bool
    requires { length block.now ≡ 512 }
    ensures { result ≡ block_laid edition n m b block.now }
{
    let Ok(number) = u8::try_from(b) else {
        return false;
    };
    let k = file_layout::items_of(usize::from(n), b);
    let header = Header {
        n,
        m,
        b: number,
        k: k as u8,
    };
    header_laid(edition, &block[0..14], header) && all_zero(&block[14 + 16 * k..510])
}
