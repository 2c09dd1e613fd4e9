// Reading and writing rota files.
ghost use Rattle.std.specs.Prelude.{◌≡◌, length};
ghost use Rattle.model.specs.declared.Edition.{Edition};
ghost use Rattle.model.specs.FileAnswers.{read_answer, read_opens, read_callouts, write_answer, write_file};

use model::{ReadAnswer, WriteAnswer};

// Reads a file into two lent tables. The file and the room are tested before a word is stored, so a refusal leaves both as they were.
#[unsafe(no_mangle)]
pub extern "C" fn rota_read_file(file: &[u8], opens: &mut [u64], callouts: &mut [u64]) -> ReadAnswer
    ensures answer { result ≡ read_answer Edition.One file.now (length opens.old) (length callouts.old) }
    ensures opens { opens.new ≡ read_opens Edition.One file.now opens.old callouts.old }
    ensures callouts { callouts.new ≡ read_callouts Edition.One file.now opens.old callouts.old }
{
    rota::files::rota_read_file(file, opens, callouts)
}

// Writes the file of a rota of n items into a lent buffer.
#[unsafe(no_mangle)]
pub extern "C" fn rota_write_file(
    n: usize,
    opens: &[u64],
    callouts: &[u64],
    file: &mut [u8],
) -> WriteAnswer
    ensures answer { result ≡ write_answer n n opens.now callouts.now (length file.old) }
    ensures file { file.new ≡ write_file Edition.One n n opens.now callouts.now file.old }
{
    rota::files::rota_write_file(n, opens, callouts, file)
}
