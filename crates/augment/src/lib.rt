// The layered augmenting search over words.
#![tactic(auto)]

ghost use Rattle.std.specs.Prelude.{◌≡◌, ◌<◌, length, replicate, IfOk, IfErr, OnErr};
ghost use Rattle.words.specs.Word.{low};
ghost use Rattle.augment.specs.Table.{own, at, Table, Owners, span};
ghost use Rattle.augment.specs.Search.{UnheldIn, Vacant, Takeable, Taken, Movable, Mover, Relocatable, Relocated, Vacatable, Vacated};
ghost use Rattle.augment.specs.Search.{Certificate, Displaceable, Assigned, Barred};

// A partial matching of items and slots: owner[k] is the item that holds slot k, slot[x] the slot that item x holds, and `free` the
// slots that nobody holds. What `owner` has at a free slot means nothing, nor what `slot` has at an item without one: `free` says which entries
// count, and is the word that a search cuts with. Fixed tables, no heap. The open words stand beside it and not in it, since `min_cost` writes them anew between two
// searches; and the definitions take its parts one by one, as those that theorem `last_slot` names do.
#[derive(Clone, Copy)]
pub struct Matching {
    pub owner: [u8; 64],
    pub slot: [u8; 64],
    pub free: u64,
}

impl Matching {
    // No item holds a slot.
    pub fn empty() -> Matching
        ensures { result ≡ record { owner = replicate 64 0; slot = replicate 64 0; free = low 64 } }
    {
        Matching {
            owner: [0; 64],
            slot: [0; 64],
            free: words::low(64),
        }
    }

    // The item that holds slot k.
    pub fn holder(&self, k: usize) -> usize
        requires { k < 64 }
        ensures { result ≡ own self.now.owner k }
    {
        usize::from(self.owner[k])
    }

    // The slot that item x holds.
    pub fn slot_of(&self, x: usize) -> usize
        requires { x < 64 }
        ensures { result ≡ at self.now.slot x }
    {
        usize::from(self.slot[x])
    }

    // Of the slots of a word, those that no item holds. The open words are there for the promise: the code needs none of them.
    pub fn unheld(&self, opens: &[u64], word: u64) -> u64
        requires { Table opens.now self.now.owner self.now.slot self.now.free }
        ensures { UnheldIn self.now.owner self.now.slot self.now.free word result }
    {
        word & self.free
    }

    // The slots both open and free, for item x: bit j is set exactly if x may use slot j and no item holds it. Whoever serves an item
    // asks for them once, before any slot is tried.
    pub fn vacant(&self, opens: &[u64], x: usize) -> u64
        requires { Table opens.now self.now.owner self.now.slot self.now.free × (x < length opens.now) }
        ensures { Vacant opens.now self.now.owner self.now.slot self.now.free x result }
    {
        self.unheld(opens, opens[x])
    }

    // Item x, which holds no slot, gets the free slot h, which is open to it.
    pub fn take(&mut self, opens: &[u64], x: usize, h: usize)
        requires { Takeable opens.now self.old.owner self.old.slot self.old.free x h }
        ensures { Taken opens.now self.old.owner self.old.slot self.old.free x h
            self.new.owner self.new.slot self.new.free }
    {
        self.owner[h] = x as u8;
        self.slot[x] = h as u8;
        self.free = words::without(self.free, h);
    }

    // The slots open to the holders of the slots of `set`.
    pub fn span(&self, opens: &[u64], set: u64) -> u64
        requires { Owners opens.now self.now.owner set }
        ensures { result ≡ span opens.now self.now.owner set }
    {
        let mut all: u64 = 0;
        for k in words::Slots(set) {
            all |= opens[self.holder(k)];
        }
        all
    }

    // The lowest slot of `set` whose holder may use slot h.
    pub fn mover(&self, opens: &[u64], set: u64, h: usize) -> usize
        requires { Movable opens.now self.now.owner set h }
        ensures { Mover opens.now self.now.owner set h result }
    {
        for k in words::Slots(set) {
            if words::has(opens[self.holder(k)], h) {
                return k;
            }
        }
        unreachable!()
    }

    // The holder of a slot of `set` goes to the free slot h: the slot that it leaves.
    pub fn relocate(&mut self, opens: &[u64], set: u64, h: usize) -> usize
        requires { Relocatable opens.now self.old.owner self.old.slot self.old.free set h }
        ensures { Relocated opens.now self.old.owner self.old.slot self.old.free set h
            self.new.owner self.new.slot self.new.free result }
    {
        let k = self.mover(opens, set, h);
        let y = self.holder(k);
        self.free = words::with(self.free, k);
        self.take(opens, y, h);
        k
    }

    // One slot of `set` is made free: holders move along a shortest chain that ends in a free slot. The slots of `seen` but that one
    // keep their holders. If none can be, the closed set that rules every slot out.
    pub fn vacate(&mut self, opens: &[u64], set: u64, seen: u64) -> Result<usize, u64>
        requires { Vacatable opens.now self.old.owner self.old.slot self.old.free set seen }
        ensures found { IfOk result (λ k. Vacated opens.now self.old.owner self.old.slot self.old.free set seen
            self.new.owner self.new.slot self.new.free k) }
        ensures none { IfErr result (λ t. Certificate opens.now self.old.owner self.old.free set seen t) }
        ensures same { OnErr result (self.new ≡ self.old) }
    {
        let reach = self.span(opens, set);
        let hit = self.unheld(opens, reach);
        if hit != 0 {
            return Ok(self.relocate(opens, set, words::lowest(hit)));
        }
        let layer = words::minus(reach, seen);
        if layer == 0 {
            return Err(seen);
        }
        // cut anew, the slice stays in registers here; handed on as it is, it would go through memory at each call
        let all = opens.len();
        let h = self.vacate(&opens[..all], layer, seen | layer)?;
        Ok(self.relocate(opens, set, h))
    }

    // Item x, which holds no slot, gets one of `cand`, which are all held, if that is possible with the slots of `fixed` left to their
    // holders. If it is not, the closed set that rules every slot out.
    pub fn displace(&mut self, opens: &[u64], x: usize, cand: u64, fixed: u64) -> Result<usize, u64>
        requires { Displaceable opens.now self.old.owner self.old.slot self.old.free x cand fixed }
        ensures found { IfOk result (λ k. Assigned opens.now self.old.owner self.old.slot self.old.free x cand fixed
            self.new.owner self.new.slot self.new.free k) }
        ensures none { IfErr result (λ t. Barred opens.now self.old.owner self.old.free cand fixed t) }
        ensures same { OnErr result (self.new ≡ self.old) }
    {
        let k = self.vacate(opens, cand, fixed | cand)?;
        self.take(opens, x, k);
        Ok(k)
    }
}
