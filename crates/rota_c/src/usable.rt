// The usable table.
ghost use Rattle.std.specs.Prelude.{◌≡◌, length};
ghost use Rattle.model.specs.UsableAnswers.{usable_code, usable_after};

// Writes the n words of the usable table.
#[unsafe(no_mangle)]
pub extern "C" fn rota_usable_slots(
    n: usize,
    opens: &[u64],
    callouts: &[u64],
    usable: &mut [u64],
) -> u32
    ensures code { result ≡ usable_code n n opens.now callouts.now (length usable.old) }
    ensures usable { usable.new ≡ usable_after n n opens.now callouts.now usable.old }
{
    rota::usable::rota_usable_slots(n, opens, callouts, usable)
}
