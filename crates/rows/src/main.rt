// The worked rotas that no theorem computes (docs/RULES.md), run through the calls: a line for each, with the code and, if one is given,
// the plan; the graded ones with count, grade and price. The count of 20 items is not among them, since its tally is too long for a
// program's stack.
#![tactic(auto)]

use rota::{counting, plans, pricing, untallied};
use std::fmt::Display;
use std::io::Print;

// One part of a line, by a write of its own. Where writing fails the program goes on.
fn put<T: Display + Drop>(rt: &HostRuntime, part: T) {
    let _ = rt.print(part);
}

fn first_plan(rt: &HostRuntime, row: &str, opens: &[u64], callouts: &[u64]) {
    let a = plans::rota_first_plan(opens.len(), opens, callouts);
    put(rt, row);
    put(rt, a.code);
    if a.code == 0 {
        put(rt, ", plan");
        for slot in &a.plan.slots {
            put(rt, " ");
            put(rt, *slot);
        }
    }
    put(rt, "\n");
}

fn all_open(rt: &HostRuntime) {
    let opens = [u64::MAX; 64];
    let callouts = [0u64; 64];
    first_plan(rt, "n = 64, all bits set: ", &opens, &callouts);
}

fn items_65(rt: &HostRuntime) {
    let opens = [1u64; 65];
    let callouts = [0u64; 65];
    first_plan(rt, "n = 65: ", &opens, &callouts);
}

fn items_0(rt: &HostRuntime) {
    let opens = [0u64; 0];
    let callouts = [0u64; 0];
    first_plan(rt, "n = 0: ", &opens, &callouts);
}

fn slot_63_of_63(rt: &HostRuntime) {
    let mut opens = [1u64; 63];
    opens[62] = 1 << 63;
    let callouts = [0u64; 63];
    first_plan(rt, "n = 63, bit 63 open: ", &opens, &callouts);
}

fn items_21(rt: &HostRuntime) {
    let opens = [2097151u64; 21];
    let callouts = [0u64; 21];
    let mut tally = [0u64; 1];
    let a = counting::rota_count_plans(21, &opens, &callouts, &mut tally);
    put(rt, "n = 21, count: ");
    put(rt, a.code);
    put(rt, "\n");
}

// Count, grade and the price of 100 vehicles; grade and price again with no tally.
fn graded(rt: &HostRuntime, row: &str, opens: &[u64], callouts: &[u64]) {
    let n = opens.len();
    let mut tally = [0u64; 512];
    let a = counting::rota_count_plans(n, opens, callouts, &mut tally);
    let b = pricing::rota_grade(n, opens, callouts, &mut tally);
    let c = pricing::rota_monthly_price(n, opens, callouts, 100, &mut tally);
    let d = untallied::rota_grade_untallied(n, opens, callouts);
    let e = untallied::rota_monthly_price_untallied(n, opens, callouts, 100);
    put(rt, row);
    put(rt, a.count);
    put(rt, " plans, grade ");
    put(rt, b.grade);
    put(rt, ", price ");
    put(rt, c.cents);
    put(rt, "; no tally: grade ");
    put(rt, d.grade);
    put(rt, ", price ");
    put(rt, e.cents);
    put(rt, "\n");
}

// Without a brittle item; with a further item that is brittle since the other items need its other slot.
fn plans_999(rt: &HostRuntime) {
    let opens = [7u64, 23, 147, 159, 222, 127, 254, 255];
    let callouts = [0u64; 8];
    graded(rt, "no brittle item: ", &opens, &callouts);
    let opens = [7u64, 23, 147, 159, 222, 127, 254, 255, 257];
    let callouts = [0u64; 9];
    graded(rt, "item 8 brittle: ", &opens, &callouts);
}

// The further item is brittle since the others need all of its slots but one, which is a callout.
fn plans_1000(rt: &HostRuntime) {
    let opens = [120u64, 115, 124, 63, 95, 111, 127];
    let callouts = [0u64; 7];
    graded(rt, "no brittle item: ", &opens, &callouts);
    let opens = [120u64, 115, 124, 63, 95, 111, 127, 255];
    let callouts = [0u64, 0, 0, 0, 0, 0, 0, 128];
    graded(rt, "item 7 brittle, by a callout: ", &opens, &callouts);
}

// The further item is brittle by its one open slot.
fn plans_1001(rt: &HostRuntime) {
    let opens = [120u64, 115, 126, 87, 95, 111, 127];
    let callouts = [0u64; 7];
    graded(rt, "no brittle item: ", &opens, &callouts);
    let opens = [128u64, 120, 115, 126, 87, 95, 111, 127];
    let callouts = [0u64; 8];
    graded(rt, "item 0 brittle: ", &opens, &callouts);
}

fn main(rt: HostRuntime) {
    all_open(&rt);
    items_65(&rt);
    items_0(&rt);
    slot_63_of_63(&rt);
    items_21(&rt);
    plans_999(&rt);
    plans_1000(&rt);
    plans_1001(&rt);
}
