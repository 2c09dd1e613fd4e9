// The sheet of a plan, each line written into its own part of a lent page.
// At most 64 words are asked of a plain slice: a type that held the fact would ask more of callers, and docs/ names functions here.
#![tactic(auto)]

ghost use Rattle.std.specs.Prelude.{◌≡◌, cond, ℕ, ◌+◌, ◌*◌, ◌≤◌, ◌<◌, length, get_or};
ghost use Rattle.words.specs.Word.{has};
ghost use Rattle.model.specs.Sheet.{aligned, line, sheet_bytes};

// A line of which only the line feed is written.
const BLANK: [u8; 32] = *b"                               \n";

// The numbers below 64, each in two columns.
const NUMBERS: &[u8; 128] =
    b" 0 1 2 3 4 5 6 7 8 9101112131415161718192021222324252627282930313233343536373839404142434445464748495051525354555657585960616263";

// A number below 64, in two columns.
fn columns(x: usize) -> [u8; 2]
    requires { x < 64 }
    ensures { result ≡ aligned x }
{
    let numbers = NUMBERS;
    [numbers[2 * x], numbers[2 * x + 1]]
}

// "C" for a callout, else a space.
fn mark(callouts: u64, slot: usize) -> u8
    requires { slot < 64 }
    ensures { result ≡ cond (has callouts slot) 67 32 }
{
    if words::has(callouts, slot) {
        b'C'
    } else {
        b' '
    }
}

// A line, over a part of 32 bytes: what stands in columns 0 and 1, in columns 6 and 7, and in column 12.
fn write_line(left: [u8; 2], middle: [u8; 2], mark: u8, part: &mut [u8])
    requires { length part.old ≡ 32 }
    ensures { part.new ≡ line left middle mark }
{
    part.copy_from_slice(&BLANK);
    part[0] = left[0];
    part[1] = left[1];
    part[6] = middle[0];
    part[7] = middle[1];
    part[12] = mark;
}

// The sheet of a plan, over a page that it fills. The caller has tested that the slots are those of a plan. The lines are cut out of the page by
// place: of what is written through chunks a proof knows the length alone.
pub fn write_sheet(callouts: &[u64], slots: [u8; 64], page: &mut [u8])
    requires { (length callouts.now ≤ 64) × ((i : ℕ) → i < length callouts.now → get_or slots i 0 < 64)
        × (length page.old ≡ (length callouts.now + 1) * 32) }
    ensures { page.new ≡ sheet_bytes (length callouts.now) callouts.now slots }
{
    write_line(*b"IT", *b"SL", b'C', &mut page[0..32]);
    for (i, own) in callouts.iter().enumerate() {
        let slot = usize::from(slots[i]);
        let at = 32 * (i + 1);
        write_line(
            columns(i),
            columns(slot),
            mark(*own, slot),
            &mut page[at..at + 32],
        );
    }
}
