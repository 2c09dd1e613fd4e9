// The block reader keeps the lent file and the next block's number. Its methods are thin: `check_at` does the work. This is a form that document 01
// names (docs/CLAIMS.md), so it is no Iterator.
ghost use Rattle.std.specs.Prelude.{◌≡◌, ◌+◌, ◌/◌, ◌<◌, ◌^◌, length};
ghost use Rattle.file_blocks.specs.Blocks.{combined, checked_at, all_checked};

use crate::checks;
use file_layout::editions;
use model::Edition;

#[derive(Clone, Copy)]
pub struct BlockReader<'a> {
    pub file: &'a [u8],
    pub next: usize,
}

// What the tests of blocks found: a check is wrong; all are laid out. Two flags and no Result, since a wrong check in a later block is
// answered before an earlier block's layout (docs/RULES.md, 13 and 14), and both go on to be joined: an enum with an order says it no plainer.
#[derive(Clone, Copy)]
pub struct Checked {
    pub wrong: bool,
    pub laid: bool,
}

// The tests of block b, combined with what was found before.
pub fn check_at(edition: Edition, file: &[u8], b: usize, before: Checked) -> Checked
    requires { b < length file.now / 512 }
    ensures { result ≡ combined before (checked_at edition file.now b) }
{
    let m = editions::slots_in(edition, file);
    let at = 512 * b;
    let block = &file[at..at + 512];
    let wrong = checks::check_wrong(edition, block);
    let laid = checks::block_laid(edition, block, file[5], m, b);
    Checked {
        wrong: before.wrong | wrong,
        laid: before.laid & laid,
    }
}

impl<'a> BlockReader<'a> {
    // A reader at a file's first block.
    pub fn start(file: &'a [u8]) -> BlockReader<'a>
        ensures { (result.file ≡ file.entry) × (result.next ≡ 0) }
    {
        BlockReader { file, next: 0 }
    }

    // The tests of its next block, combined with what was found before.
    pub fn check(self, edition: Edition, before: Checked) -> Checked
        requires { self.next < length self.file.now / 512 }
        ensures { result ≡ combined before (checked_at edition self.entry.file.now self.entry.next) }
    {
        check_at(edition, self.file, self.next, before)
    }

    // Itself, moved on to the block after.
    pub fn advanced(self) -> BlockReader<'a>
        requires { self.next + 1 < 2 ^ 64 }
        ensures { (result.file ≡ self.entry.file) × (result.next ≡ self.entry.next + 1) }
    {
        BlockReader {
            next: self.next + 1,
            ..self
        }
    }
}

// The tests of all blocks: a reader goes from block to block.
pub fn check_blocks(edition: Edition, file: &[u8]) -> Checked
    ensures { result ≡ all_checked edition file.now }
{
    let mut reader = BlockReader::start(file);
    let mut found = Checked {
        wrong: false,
        laid: true,
    };
    for _ in 0..file.len() / 512 {
        found = reader.check(edition, found);
        reader = reader.advanced();
    }
    found
}
