// Blocks of a stream: what is not taken yet is moved to the front of a block, the next bytes are read behind it, and what was put is written.
#![tactic(auto)]

ghost use Rattle.std.specs.Prelude.{◌≡◌, true, ◌≤◌, length};
ghost use Rattle.blocks.specs.Moves.{moved_down};
ghost use Rattle.blocks.specs.Reads.{MayRead};

use std::fmt::Display;
use std::io;
use std::io::{ErrorKind, Read};

// Moves the bytes from a place to another down to the front; places that are not in the block in this order move nothing.
pub fn move_down(buf: &mut [u8], from: usize, to: usize)
    ensures { buf.new ≡ moved_down from to buf.old }
{
    if from <= to {
        if to <= buf.len() {
            buf.copy_within(from..to, 0);
        }
    }
}

// Writes the first bytes, as many as were put, to standard output, or says why it cannot; more than there are it does not write.
pub fn flush(rt: &(impl Print + Eprint), out: &[u8], put: usize) -> bool
    ensures { result ≡ true → put ≤ length out.now }
{
    if put <= out.len() {
        match rt.write_all(&out[..put]) {
            Ok(()) => return true,
            Err(e) => fail(rt, "standard output", &e),
        }
    } else {
        fail(rt, "standard output", &"more was put than there is");
    }
    false
}

// Reads, and again if a signal interrupted it; not more than a million times, so that it ends. The answer is how many bytes were read, which are
// no more than were lent. `None`: it says by this name what was not read, and why.
pub fn read_on<R: Read>(rt: &impl Eprint, from: &mut R, name: &str, buf: &mut [u8]) -> Option<usize>
    ensures { MayRead (length buf.old) result }
{
    let mut got = from.read(buf);
    for _ in 0..1000000 {
        if !interrupted(&got) {
            break;
        }
        got = from.read(buf);
    }
    match got {
        Ok(n) => Some(n),
        Err(e) => {
            fail(rt, name, &e);
            None
        }
    }
}

// A signal came before a byte did.
fn interrupted(got: &io::Result<usize>) -> bool {
    match got {
        Ok(_) => false,
        Err(e) => e.kind() == ErrorKind::Interrupted,
    }
}

// Says on standard error what failed, and why.
fn fail(rt: &impl Eprint, what: &str, why: &impl Display) {
    let _ = eprintln!(rt; "{what}: {why}");
}
