// The plan calls on a rota file's bytes and a plan buffer, whose first 64 bytes hold a plan's record. A refusal by the file's own tests
// comes first, then that for the buffer's room, then the search's; an accepted file's tables need no further test.
ghost use Rattle.std.specs.Prelude.{◌≡◌, ◌≢◌, ◌≤◌, length, take, IfOk};
ghost use Rattle.model.specs.declared.Edition.{Edition};
ghost use Rattle.model.specs.Refusal.{code_of, written};
ghost use Rattle.model.specs.FileAnswers.{plan_file_code, file_first, file_next, file_fewest, buffer_after};
ghost use Rattle.file_reading.specs.FileRota.{IsRotaIn};

use file_reading::FileRota;
use model::{Edition, Plan, PlanAnswer, Refusal};

// The rota in a file, for a plan buffer of so many bytes: the file's refusals, then 15.
fn rota_for(edition: Edition, file: &[u8], places: usize) -> Result<FileRota, Refusal>
    ensures code { code_of result ≡ plan_file_code edition file.now places }
    ensures rota { IfOk result (IsRotaIn file.now) }
{
    let rota = file_reading::rota_in(edition, file)?;
    if places < 64 {
        return Err(Refusal::OutputTooShort);
    }
    Ok(rota)
}

// The plan in a buffer.
fn plan_in(buffer: &[u8]) -> Plan
    requires { 64 ≤ length buffer.now }
    ensures { result.slots ≡ take 64 buffer.now }
{
    let mut slots = [0u8; 64];
    slots.copy_from_slice(&buffer[0..64]);
    Plan { slots }
}

// Writes an answer's plan if its number is 0, and gives the number.
fn store_plan(a: &PlanAnswer, buffer: &mut [u8]) -> u32
    requires { 64 ≤ length buffer.old }
    ensures code { result ≡ a.now.code }
    ensures buffer { buffer.new ≡ written a.now.code a.now.plan.slots buffer.old }
{
    if a.code == 0 {
        buffer[0..64].copy_from_slice(&a.plan.slots);
    }
    a.code
}

// A plan call on a file: what the search answers for the rota in it and for the plan buffer, into the buffer.
fn plan_into<F: FnOnce(&FileRota, &[u8]) -> PlanAnswer>(
    file: &[u8],
    buffer: &mut [u8],
    search: F,
) -> u32
    requires { (rota : _) (given : _) → plan_file_code Edition.One file.now (length buffer.old) ≡ 0
        → IsRotaIn file.now rota.now → given.now ≡ buffer.old → F.pre search rota given }
    ensures refused { let code = plan_file_code Edition.One file.now (length buffer.old) in
        code ≢ 0 → (result ≡ code) × (buffer.new ≡ buffer.old) }
    ensures answered { plan_file_code Edition.One file.now (length buffer.old) ≡ 0 → (rota : _) × (given : _) × (a : PlanAnswer)
        × IsRotaIn file.now rota.now × (given.now ≡ buffer.old) × F.post search rota given a
        × (result ≡ a.code) × (buffer.new ≡ written a.code a.plan.slots buffer.old) }
{
    match rota_for(Edition::One, file, buffer.len()) {
        Ok(rota) => store_plan(&search(&rota, buffer), buffer),
        Err(refusal) => refusal.number(),
    }
}

// The first plan of the rota in a file, into a plan buffer.
pub fn rota_file_first_plan(file: &[u8], plan: &mut [u8]) -> u32
    ensures code { result ≡ (file_first Edition.One file.now (length plan.old)).code }
    ensures plan { plan.new ≡ buffer_after (file_first Edition.One file.now (length plan.old)) plan.old }
{
    plan_into(file, plan, |rota, _| least::first_plan(rota.opens()))
}

// The plan after the one in the buffer, into the buffer.
pub fn rota_file_next_plan(file: &[u8], plan: &mut [u8]) -> u32
    ensures code { result ≡ (file_next Edition.One file.now (length plan.old) (record { slots = take 64 plan.old })).code }
    ensures plan { plan.new ≡ buffer_after
        (file_next Edition.One file.now (length plan.old) (record { slots = take 64 plan.old })) plan.old }
{
    plan_into(
        file,
        plan,
        |rota, given| next::next_plan(rota.opens(), plan_in(given)),
    )
}

// The first plan with the fewest callouts of the rota in a file, if these are at most `cap`, into a plan buffer.
pub fn rota_file_fewest_callouts(file: &[u8], plan: &mut [u8], cap: u32) -> u32
    ensures code { result ≡ (file_fewest Edition.One file.now (length plan.old) cap).code }
    ensures plan { plan.new ≡ buffer_after (file_fewest Edition.One file.now (length plan.old) cap) plan.old }
{
    plan_into(
        file,
        plan,
        |rota, _| min_cost::fewest_plan(rota.opens(), rota.callouts(), cap),
    )
}
