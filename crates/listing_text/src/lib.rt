// The text of a listing, in a lent page: each method writes its text behind what is written already. The page has room for it.
// At most 64 words are asked of a plain slice, as below.
#![tactic(auto)]

ghost use Rattle.std.specs.Prelude.{◌≡◌, ◌+◌, ◌*◌, ◌≤◌, length};
ghost use mathlib.Core.List.{[], ◌∷◌, flat_map};
ghost use Rattle.model.specs.declared.Edition.{Edition};
ghost use Rattle.model.specs.Rota.{table_code};
ghost use Rattle.model.specs.Plans.{plans};
ghost use Rattle.model.specs.Decimal.{decimal};
ghost use Rattle.model.specs.ListingText.{number_line, slot_text, plan_line, listing_of, listing_text};
ghost use Rattle.listing_text.specs.Writing.{RoomFor, Put, Wrote, end_or_more, first_step, after_first};

use model::{Lister, Plan};
use rota::lister::Stepped;

// Room for every listing: a first line of 8 bytes, 1,000 lines of 203, a last line of 10.
pub const ROOM: usize = 8 + 1000 * 203 + 10;

// A lent page, of which the first `at` bytes are written. std's writer over lent bytes claims nothing of them.
#[derive(Drop)]
struct Page<'a> {
    out: &'a mut [u8],
    at: usize,
}

impl Page<'_> {
    fn byte(&mut self, b: u8)
        requires { RoomFor (b ∷ []) self.old }
        ensures { Put (b ∷ []) self.old self.new }
    {
        self.out[self.at] = b;
        self.at += 1;
    }

    fn text(&mut self, word: &[u8])
        requires { RoomFor word.now self.old }
        ensures { Put word.now self.old self.new }
    {
        let end = self.at + word.len();
        self.out[self.at..end].copy_from_slice(word);
        self.at = end;
    }

    // The digits of a number.
    fn number(&mut self, x: u64)
        requires { RoomFor (decimal x) self.old }
        ensures { Put (decimal x) self.old self.new }
    {
        if x < 10 {
            return self.byte(b'0' + x as u8);
        }
        // both at once: a byte on its own waits for the place that the one before it left
        if x < 100 {
            return self.text(&[b'0' + (x / 10) as u8, b'0' + (x % 10) as u8]);
        }
        self.number(x / 10);
        self.byte(b'0' + (x % 10) as u8);
    }

    // A line that is a word and a number.
    fn line(&mut self, word: &[u8], x: u64)
        requires { RoomFor (number_line word.now x) self.old }
        ensures { Put (number_line word.now x) self.old self.new }
    {
        self.text(word);
        self.number(x);
        self.byte(b'\n');
    }

    // A space and a slot.
    fn slot(&mut self, j: u8)
        requires { RoomFor (slot_text j) self.old }
        ensures { Put (slot_text j) self.old self.new }
    {
        self.byte(b' ');
        self.number(u64::from(j));
    }

    // The slots of a plan.
    fn slots(&mut self, plan: &[u8])
        requires { RoomFor (flat_map slot_text plan.now) self.old }
        ensures { Put (flat_map slot_text plan.now) self.old self.new }
    {
        for j in plan {
            self.slot(*j);
        }
    }

    // The line of the plan at position k.
    fn plan_line(&mut self, callouts: &[u64], k: u64, plan: [u8; 64])
        requires { (length callouts.now ≤ 64) × RoomFor (plan_line callouts.now k plan) self.old }
        ensures { Put (plan_line callouts.now k plan) self.old self.new }
    {
        self.number(k);
        self.byte(b':');
        self.slots(&plan[..callouts.len()]);
        self.line(b" / ", plan::callouts_of(callouts, plan));
    }

    // The last line, after k plans, by the code of the step after them, as the definition has it.
    fn last_line(&mut self, k: u64, code: u32)
        requires { RoomFor (end_or_more k code) self.old }
        ensures { Put (end_or_more k code) self.old self.new }
    {
        if code == 0 {
            self.line(b"more ", k)
        } else {
            self.line(b"end ", k)
        }
    }

    // The lines after the first: those of the plans, 1,000 at most, and the last one.
    fn plan_lines(&mut self, first: Stepped, opens: &[u64], callouts: &[u64])
        requires { (table_code (length opens.now) (length opens.now) opens.now callouts.now ≡ 0) × (first ≡ first_step opens.now callouts.now)
            × RoomFor (after_first opens.now callouts.now) self.old }
        ensures { Put (after_first opens.now callouts.now) self.old self.new }
    {
        let mut s = first;
        // k goes on into the last line, so no range holds it.
        let mut k = 0;
        while k < 1000 && s.answer.code == 0 {
            k += 1;
            self.plan_line(callouts, k, s.answer.plan.slots);
            s = rota::lister::step(s.lister, opens.len(), opens, callouts);
        }
        self.last_line(k, s.answer.code);
    }

    // The listing of a rota. The first line waits for the first plan, since a refusal stands alone.
    fn rota(&mut self, opens: &[u64], callouts: &[u64])
        requires { (table_code (length opens.now) (length opens.now) opens.now callouts.now ≡ 0)
            × RoomFor (listing_of (length opens.now) callouts.now (plans (length opens.now) opens.now)) self.old }
        ensures { Put (listing_of (length opens.now) callouts.now (plans (length opens.now) opens.now)) self.old self.new }
    {
        let fresh = Lister {
            started: false,
            plan: Plan { slots: [0; 64] },
        };
        let first = rota::lister::step(fresh, opens.len(), opens, callouts);
        let code = first.answer.code;
        if code != 0 {
            self.line(b"refused ", u64::from(code));
        } else {
            self.line(b"rota ", opens.len() as u64);
            self.plan_lines(first, opens, callouts);
        }
    }

    // The listing of any bytes as a rota file, over fixed tables (no heap).
    fn listing(&mut self, file: &[u8])
        requires { RoomFor (listing_text Edition.One file.now) self.old }
        ensures { Put (listing_text Edition.One file.now) self.old self.new }
    {
        let mut opens = [0u64; 64];
        let mut callouts = [0u64; 64];
        let read = rota::files::rota_read_file(file, &mut opens, &mut callouts);
        if read.code != 0 {
            self.line(b"refused ", u64::from(read.code));
        } else {
            let n = read.n as usize;
            self.rota(&opens[..n], &callouts[..n]);
        }
    }
}

// The listing of any bytes as a rota file, over the front of a lent page; answers how many bytes that is.
#[tactic(auto, using(crate::proofs::FileListing::listing_room, crate::proofs::FileListing::put_wrote))]
pub fn write_listing(file: &[u8], page: &mut [u8]) -> usize
    requires { 8 + 1000 * 203 + 10 ≤ length page.old }
    ensures { Wrote (listing_text Edition.One file.now) page.old page.new result }
{
    let mut page = Page { out: page, at: 0 };
    page.listing(file);
    page.at
}
