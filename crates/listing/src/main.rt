// The listing of the rota file at standard input, on standard output, whole. It takes no arguments. What fails is told on standard error.
#![tactic(auto)]

ghost use Rattle.std.specs.Prelude.{◌≤◌, length, IfOk};

use std::env::{Env, FillError};
use std::io;
use std::io::{Print, Read};

// Tells what failed: a line on standard error, without the number that std puts behind the system's words.
fn fail(rt: &HostRuntime, what: &str, error: &io::Error) {
    let _ = match format!(in rt.alloc(); "{error}") {
        Ok(text) => match text.as_str().split_once(" (os error ") {
            Some((words, _)) => eprintln!(rt; "{what}: {words}"),
            None => eprintln!(rt; "{what}: {text}"),
        },
        Err(_) => eprintln!(rt; "{what}: {error}"),
    };
}

// Writes the listing of some bytes as a file.
fn list(rt: &HostRuntime, file: &[u8]) {
    let mut page = [0u8; listing_text::ROOM];
    let n = listing_text::write_listing(file, &mut page);
    if let Err(error) = rt.write_all(&page[..n]) {
        fail(rt, "listing: write", &error);
    }
}

// Reads until the buffer is full, the input ends or a read fails. Each read asks for all that there is room for, since a message is cut
// where a read is short; and what is read goes where it stays, so no memory is asked for.
fn read_bytes(rt: &HostRuntime, buffer: &mut [u8]) -> Result<usize, io::Error>
    ensures { IfOk result (λ n. n ≤ length buffer.old) }
{
    let mut n = 0;
    while n < buffer.len() {
        let k = rt.stdin().read(&mut buffer[n..])?;
        if k == 0 {
            break;
        }
        n += k;
    }
    Ok(n)
}

// The buffer has one byte more than the longest file, so that a longer one is refused.
fn list_input(rt: &HostRuntime) {
    let mut file = [0u8; 1537];
    match read_bytes(rt, &mut file) {
        Ok(n) => list(rt, &file[..n]),
        Err(error) => fail(rt, "listing: read", &error),
    }
}

fn main(rt: HostRuntime) {
    let mut place = [0u8; 1];
    if let Err(FillError::NotPresent) = rt.arg(1, &mut place) {
        list_input(&rt);
        return;
    }
    let _ = eprintln!(rt; "usage: listing < FILE");
}
