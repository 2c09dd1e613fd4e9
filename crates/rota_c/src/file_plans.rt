// The plan calls on a rota file's bytes and a plan buffer, whose first 64 bytes hold a plan's record.
ghost use Rattle.std.specs.Prelude.{◌≡◌, length, take};
ghost use Rattle.model.specs.declared.Edition.{Edition};
ghost use Rattle.model.specs.FileAnswers.{file_first, file_next, file_fewest, buffer_after};

// The first plan of the rota in a file, into a plan buffer.
#[unsafe(no_mangle)]
pub extern "C" fn rota_file_first_plan(file: &[u8], plan: &mut [u8]) -> u32
    ensures code { result ≡ (file_first Edition.One file.now (length plan.old)).code }
    ensures plan { plan.new ≡ buffer_after (file_first Edition.One file.now (length plan.old)) plan.old }
{
    rota::file_plans::rota_file_first_plan(file, plan)
}

// The plan after the one in the buffer, into the buffer.
#[unsafe(no_mangle)]
pub extern "C" fn rota_file_next_plan(file: &[u8], plan: &mut [u8]) -> u32
    ensures code { result ≡ (file_next Edition.One file.now (length plan.old) (record { slots = take 64 plan.old })).code }
    ensures plan { plan.new ≡ buffer_after
        (file_next Edition.One file.now (length plan.old) (record { slots = take 64 plan.old })) plan.old }
{
    rota::file_plans::rota_file_next_plan(file, plan)
}

// The first plan with the fewest callouts of the rota in a file, if these are at most `cap`, into a plan buffer.
#[unsafe(no_mangle)]
pub extern "C" fn rota_file_fewest_callouts(file: &[u8], plan: &mut [u8], cap: u32) -> u32
    ensures code { result ≡ (file_fewest Edition.One file.now (length plan.old) cap).code }
    ensures plan { plan.new ≡ buffer_after (file_fewest Edition.One file.now (length plan.old) cap) plan.old }
{
    rota::file_plans::rota_file_fewest_callouts(file, plan, cap)
}
