// Writing: the bytes of an item, of a block and of all blocks, each into its own part of the lent file.
// At most 64 words are asked of a plain slice: a type that held the fact would ask more of callers, and docs/ names functions here.
#![tactic(auto)]

ghost use Rattle.std.specs.Prelude.{◌≡◌, ◌++◌, ◌≤◌, ◌*◌, length};
ghost use Rattle.model.specs.File.{low_bytes, header, item_bytes, body, checked, blocks_for, file_bytes};

use file_layout::editions::{self, Header};
use model::Edition;

// An item's 16 bytes: open word, then callout word.
fn write_item(w: u64, c: u64, out: &mut [u8])
    requires { length out.old ≡ 16 }
    ensures { out.new ≡ low_bytes 8 w ++ low_bytes 8 c }
{
    out[0..8].copy_from_slice(&w.to_le_bytes());
    out[8..16].copy_from_slice(&c.to_le_bytes());
}

// The bytes of some items. The parts are cut by index: of what is written through `chunks_exact_mut` a proof knows the length alone.
fn write_items(opens: &[u64], callouts: &[u64], out: &mut [u8])
    requires { (length callouts.now ≡ length opens.now) × (length out.old ≡ 16 * length opens.now) }
    ensures { out.new ≡ item_bytes opens.now callouts.now }
{
    for (i, (w, c)) in opens.iter().zip(callouts).enumerate() {
        let at = 16 * i;
        write_item(*w, *c, &mut out[at..at + 16]);
    }
}

// Bytes 0 to 13 of a block.
fn write_header(edition: Edition, h: Header, out: &mut [u8])
    requires { length out.old ≡ 14 }
    ensures { out.new ≡ header edition h.n h.m h.b h.k }
{
    out[0..4].copy_from_slice(&editions::MARK);
    out[4..14].copy_from_slice(&h.fields(edition));
}

// Block b of a rota of n items and m slots, with the items in it.
#[derive(Clone, Copy)]
struct Block<'a> {
    edition: Edition,
    n: u8,
    m: u8,
    b: u8,
    opens: &'a [u64],
    callouts: &'a [u64],
    ghost sized: { (length opens.now ≤ 31) × (length callouts.now ≡ length opens.now) },
}

impl Block<'_> {
    // Writes its bytes 0 to 509.
    fn write_body(&self, out: &mut [u8])
        requires { length out.old ≡ 510 }
        ensures { out.new ≡ body self.now.edition self.now.n self.now.m self.now.b self.now.opens.now self.now.callouts.now }
    {
        let k = self.opens.len();
        let h = Header {
            n: self.n,
            m: self.m,
            b: self.b,
            k: k as u8,
        };
        let at = 14 + 16 * k;
        write_header(self.edition, h, &mut out[0..14]);
        write_items(self.opens, self.callouts, &mut out[14..at]);
        out[at..510].fill(0);
    }

    // Writes it, with its check.
    fn write(&self, block: &mut [u8])
        requires { length block.old ≡ 512 }
        ensures { block.new ≡ checked self.now.edition
            (body self.now.edition self.now.n self.now.m self.now.b self.now.opens.now self.now.callouts.now) }
    {
        self.write_body(&mut block[0..510]);
        let check = editions::check_of(self.edition, &block[0..510]) as u16;
        block[510..512].copy_from_slice(&check.to_le_bytes());
    }
}

// All blocks of a rota of m slots, each cut out of the file by its place, as items are.
pub fn write_blocks(edition: Edition, m: usize, opens: &[u64], callouts: &[u64], file: &mut [u8])
    requires { (length opens.now ≤ 64) × (m ≤ 64) × (length callouts.now ≡ length opens.now)
        × (length file.old ≡ 512 * blocks_for (length opens.now)) }
    ensures { file.new ≡ file_bytes edition (length opens.now) m opens.now callouts.now }
{
    let n = opens.len();
    for b in 0..file_layout::blocks_for(n) {
        let from = 31 * b;
        let to = from + file_layout::items_of(n, b);
        let block = Block {
            edition,
            n: n as u8,
            m: m as u8,
            b: b as u8,
            opens: &opens[from..to],
            callouts: &callouts[from..to],
        };
        let at = 512 * b;
        block.write(&mut file[at..at + 512]);
    }
}
