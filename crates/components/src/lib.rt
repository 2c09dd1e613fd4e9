// The allowed cells of a complete matching: for each item the slots that some complete plan gives it, by strongly connected components.
// In the graph on the slots a held slot leads to the slots open to its holder, and a free slot to every slot, as if a spare item that
// may use them all held it.
// At most 64 words are asked of a plain slice: a type that held the fact would ask more of callers, and docs/ names functions here.
#![tactic(auto)]

ghost use Rattle.std.specs.Prelude.{◌≡◌, ◌≤◌, length};
ghost use Rattle.augment.specs.Table.{Owners};
ghost use Rattle.components.specs.Component.{Saturating, AllowedTable, Growing, Grown, Marked};

use augment::Matching;

// The slots that are not finished yet; and a set that leads back into the path, with the slots that it leads to. Both are empty if
// the component is finished: no case of its own, since a set that is empty adds nothing where it is joined.
#[derive(Clone, Copy)]
struct Part {
    rest: u64,
    set: u64,
    out: u64,
}

// The holders of the slots of `held` get their open slots in `set`, their component.
fn mark(m: &Matching, opens: &[u64], allowed: &mut [u64; 64], set: u64, held: u64)
    requires { Owners opens.now m.now.owner held }
    ensures { Marked opens.now m.now.owner held set allowed.old allowed.new }
{
    for k in words::Slots(held) {
        let y = m.holder(k);
        allowed[y] = opens[y] & set;
    }
}

// Grows the component of the slots of `set`, which lead to those of `out`, until it is finished or leads back into `path`, the slots
// from which the set was reached.
fn grow(m: &Matching, opens: &[u64], allowed: &mut [u64; 64], path: u64, start: Part) -> Part
    requires { Saturating opens.now m.now.owner m.now.free
        × Growing opens.now m.now.owner m.now.free allowed.old start.rest path start.set start.out }
    ensures { Grown opens.now m.now.owner m.now.free start.rest path start.set start.out
        allowed.new result.rest result.set result.out }
{
    let mut part = start;
    let mut next = words::minus(part.rest & part.out, part.set);
    // what is left to reach changes with each turn, so no range holds it
    while next != 0 {
        if next & path != 0 {
            return part;
        }
        let k = words::lowest(next);
        let r = grow(
            m,
            opens,
            allowed,
            path | part.set,
            Part {
                rest: part.rest,
                set: words::single(k),
                out: opens[m.holder(k)],
            },
        );
        part.rest = r.rest;
        part.set |= r.set;
        part.out |= r.out;
        next = words::minus(part.rest & part.out, part.set);
    }
    mark(m, opens, allowed, part.set, words::minus(part.set, m.free));
    Part {
        rest: words::minus(part.rest, part.set),
        set: 0,
        out: 0,
    }
}

// For each item the slots that some complete plan gives it, in a fixed table (no heap). The first set is the free slots, which lead to every
// slot; where there is none, the search goes to every slot all the same.
pub fn allowed_words(opens: &[u64], m: &Matching) -> [u64; 64]
    requires { Saturating opens.now m.now.owner m.now.free }
    ensures { AllowedTable opens.now result }
{
    let mut allowed = [0u64; 64];
    let all = words::low(64);
    grow(
        m,
        opens,
        &mut allowed,
        0,
        Part {
            rest: all,
            set: m.free,
            out: all,
        },
    );
    allowed
}

// The same from the open words alone; zeros where there is no plan.
pub fn allowed_slots(opens: &[u64]) -> [u64; 64]
    requires { length opens.now ≤ 64 }
    ensures { AllowedTable opens.now result }
{
    let mut m = Matching::empty();
    let left = maximum::fill(&mut m, opens, words::low(opens.len()));
    if left.exposed != 0 {
        return [0u64; 64];
    }
    allowed_words(opens, &m)
}
