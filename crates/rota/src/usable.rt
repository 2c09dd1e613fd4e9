// The usable table.
ghost use Rattle.std.specs.Prelude.{◌≡◌, length};
ghost use Rattle.model.specs.UsableAnswers.{usable_code, usable_after};

use acceptance::CallTables;
use model::Refusal;

// Writes the n words of the usable table.
pub fn rota_usable_slots(n: usize, opens: &[u64], callouts: &[u64], usable: &mut [u64]) -> u32
    ensures code { result ≡ usable_code n n opens.now callouts.now (length usable.old) }
    ensures usable { usable.new ≡ usable_after n n opens.now callouts.now usable.old }
{
    let tables = CallTables {
        n,
        m: n,
        opens,
        callouts,
    };
    if let Err(refusal) = tables.accepted() {
        return refusal.number();
    }
    if usable.len() < n {
        return Refusal::OutputTooShort.number();
    }
    let allowed = components::allowed_slots(opens);
    words::store(&allowed[..n], usable);
    0
}
