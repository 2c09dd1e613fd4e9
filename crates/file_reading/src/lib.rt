// Reading: any bytes as the rota of a file, or refused.
#![tactic(auto)]

pub mod file_rota;

ghost use Rattle.std.specs.Prelude.{◌≡◌, true, ◌++◌, ◌≤◌, ◌*◌, ◌/◌, length, drop, replicate, IfOk};
ghost use Rattle.model.specs.Rota.{cell_code};
ghost use Rattle.model.specs.File.{words_in, blocks_in, items_in, slots_in, opens_in, callouts_in, laid_out, file_code};
ghost use Rattle.model.specs.Refusal.{or_else, code_of};
ghost use Rattle.file_reading.specs.FileRota.{IsRotaIn};

pub use crate::file_rota::FileRota;
use file_blocks::reader;
use file_layout::{editions, numbers};
use model::{Edition, Refusal};

// n of a file that is laid out, or refusal 12, 13 or 14: the file's, unless it is one of its words.
fn layout(edition: Edition, file: &[u8]) -> Result<usize, Refusal>
    ensures code { or_else (code_of result) (cell_code (slots_in edition file.now) (opens_in file.now) (callouts_in file.now))
        ≡ file_code edition file.now }
    ensures laid { IfOk result (λ n. (n ≡ items_in file.now)
        × (laid_out edition (items_in file.now) (slots_in edition file.now) (blocks_in file.now) ≡ true)) }
{
    let k = file.len() / 512;
    if 512 * k != file.len() || k == 0 || 3 < k {
        return Err(Refusal::BadFileLength);
    }
    let found = reader::check_blocks(edition, file);
    if found.wrong {
        return Err(Refusal::BadCheck);
    }
    let n = usize::from(file[5]);
    if n == 0 || 64 < n || k != file_layout::blocks_for(n) || !found.laid {
        return Err(Refusal::BadLayout);
    }
    Ok(n)
}

// The words of n items, from this place on in each block; zeros after them, in a fixed table (no heap).
// An item's place is reckoned from its number, since only the first 496 bytes after a header hold items.
fn words_in(file: &[u8], place: usize, n: usize) -> [u64; 64]
    requires { (place ≤ 24) × (n ≤ 64) × (n ≤ 31 * (length file.now / 512)) }
    ensures { result ≡ words_in place n (blocks_in file.now) ++ drop n (replicate 64 0) }
{
    let mut words = [0u64; 64];
    for i in 0..n {
        let at = 512 * (i / 31) + place + 16 * (i % 31);
        words[i] = numbers::from_bytes(&file[at..at + 8]);
    }
    words
}

// The rota in a file of this edition, or the file's refusal.
pub fn rota_in(edition: Edition, file: &[u8]) -> Result<FileRota, Refusal>
    ensures code { code_of result ≡ file_code edition file.now }
    ensures rota { IfOk result (IsRotaIn file.now) }
{
    let n = layout(edition, file)?;
    let m = usize::from(editions::slots_in(edition, file));
    let rota = FileRota {
        n,
        opens: words_in(file, 14, n),
        callouts: words_in(file, 22, n),
    };
    acceptance::cells(m, rota.opens(), rota.callouts())?;
    Ok(rota)
}
