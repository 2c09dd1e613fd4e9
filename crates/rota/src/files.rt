// Reading and writing rota files.
ghost use Rattle.std.specs.Prelude.{◌≡◌, ◌*◌, length, IfOk};
ghost use Rattle.model.specs.declared.Edition.{Edition};
ghost use Rattle.model.specs.Refusal.{code_of, written};
ghost use Rattle.model.specs.File.{items_in, opens_in, callouts_in, blocks_for, file_bytes};
ghost use Rattle.model.specs.FileAnswers.{read_code, read_answer, read_opens, read_callouts, write_code, write_answer, write_file};

use acceptance::CallTables;
use answers::{Answer, FigureAnswer};
use model::{Edition, ReadAnswer, Refusal, WriteAnswer};

// Stores the words of a file's items, and gives their number. The file and the room are tested before a word is stored.
fn read(file: &[u8], opens: &mut [u64], callouts: &mut [u64]) -> Result<usize, Refusal>
    ensures code { code_of result ≡ read_code Edition.One file.now (length opens.old) (length callouts.old) }
    ensures n { IfOk result (λ n. n ≡ items_in file.now) }
    ensures opens { opens.new ≡ written (code_of result) (opens_in file.now) opens.old }
    ensures callouts { callouts.new ≡ written (code_of result) (callouts_in file.now) callouts.old }
{
    let rota = file_reading::rota_in(Edition::One, file)?;
    if opens.len() < rota.n || callouts.len() < rota.n {
        return Err(Refusal::OutputTooShort);
    }
    words::store(rota.opens(), opens);
    words::store(rota.callouts(), callouts);
    Ok(rota.n)
}

// Reads a file into two lent tables. A refusal leaves both as they were.
pub fn rota_read_file(file: &[u8], opens: &mut [u64], callouts: &mut [u64]) -> ReadAnswer
    ensures answer { result ≡ read_answer Edition.One file.now (length opens.old) (length callouts.old) }
    ensures opens { opens.new ≡ read_opens Edition.One file.now opens.old callouts.old }
    ensures callouts { callouts.new ≡ read_callouts Edition.One file.now opens.old callouts.old }
{
    match read(file, opens, callouts) {
        Ok(n) => ReadAnswer::given(n as u64),
        Err(refusal) => ReadAnswer::refused(refusal),
    }
}

// Writes the file of accepted tables, and gives its bytes' number. The tables and the room are tested before a byte is written.
fn write(n: usize, opens: &[u64], callouts: &[u64], file: &mut [u8]) -> Result<usize, Refusal>
    ensures code { code_of result ≡ write_code n n opens.now callouts.now (length file.old) }
    ensures bytes { IfOk result (λ k. k ≡ 512 * blocks_for n) }
    ensures file { file.new ≡ written (code_of result) (file_bytes Edition.One n n opens.now callouts.now) file.old }
{
    let tables = CallTables {
        n,
        m: n,
        opens,
        callouts,
    };
    tables.accepted()?;
    let size = 512 * file_layout::blocks_for(n);
    if file.len() < size {
        return Err(Refusal::OutputTooShort);
    }
    file_writing::write_blocks(Edition::One, n, opens, callouts, &mut file[0..size]);
    Ok(size)
}

// Writes the file of a rota of n items into a lent buffer.
pub fn rota_write_file(n: usize, opens: &[u64], callouts: &[u64], file: &mut [u8]) -> WriteAnswer
    ensures answer { result ≡ write_answer n n opens.now callouts.now (length file.old) }
    ensures file { file.new ≡ write_file Edition.One n n opens.now callouts.now file.old }
{
    match write(n, opens, callouts, file) {
        Ok(bytes) => WriteAnswer::given(bytes as u64),
        Err(refusal) => WriteAnswer::refused(refusal),
    }
}
