// What all writers share: bytes and digits at a place of a lent buffer, and the decision between a refusal and a length. Each of these
// functions gives the place behind what it put; where there is no room it stores nothing, and gives the place that it was given.
#![tactic(auto)]

ghost use Rattle.std.specs.Prelude.{◌≡◌, ◌+◌, ◌≤◌, ◌<◌, leb, length};
ghost use Rattle.puts.specs.Numbers as numbers;
ghost use Rattle.puts.specs.Answers as spec;
ghost use Rattle.refusals.specs.Refusal.{nowhere};
ghost use Rattle.puts.specs.Answers.{Put, Tried};
ghost use Rattle.puts.specs.Marks.{mark_text};

use refusals::{Kind, Refusal, nowhere};

// ---- numbers

// How many digits a number is written with.
pub fn width(least: usize, n: u32) -> usize
    ensures value { result ≡ numbers.width least n }
    ensures upper_bound { least < 10 → result < 11 }
{
    let mut rest = n;
    let mut w = 0;
    // Kept as a while: it counts divisions by ten, as `digit_count` does, and walks no index; the contract of `checked_ilog10` speaks of powers of ten instead.
    while 0 < rest {
        rest /= 10;
        w += 1;
    }
    if w < least {
        return least;
    }
    w
}

// Bytes as they are, where there is room for them.
fn copy(t: &[u8], out: &mut [u8], at: usize) -> usize
    requires { at + length t.now ≤ length out.old }
    ensures { Put t.now out.old at out.new result }
{
    let next = at + t.len();
    out[at..next].copy_from_slice(t);
    next
}

// Whether so many bytes fit from a place on.
fn has_room(n: usize, room: usize, at: usize) -> bool
    ensures { result ≡ leb (at + n) room }
{
    if n <= room {
        if at <= room - n {
            return true;
        }
    }
    false
}

// Bytes as they are: names and signs.
pub fn put_bytes(t: &[u8], out: &mut [u8], at: usize) -> usize
    ensures { Tried t.now out.old at out.new result }
{
    if has_room(t.len(), out.len(), at) {
        return copy(t, out, at);
    }
    at
}

// The last w digits of a number, stored from the right, where there is room for them.
fn digits_at(w: usize, n: u32, out: &mut [u8], at: usize) -> usize
    requires { at + w ≤ length out.old }
    ensures { Put (numbers.digits w n) out.old at out.new result }
{
    let mut rest = n;
    for k in (0..w).rev() {
        out[at + k] = 48 + (rest % 10) as u8;
        rest /= 10;
    }
    at + w
}

// The last w digits of a number.
pub fn put_digits(w: usize, n: u32, out: &mut [u8], at: usize) -> usize
    ensures { Tried (numbers.digits w n) out.old at out.new result }
{
    if has_room(w, out.len(), at) {
        return digits_at(w, n, out, at);
    }
    at
}

// ---- marks

// The mark, if there is one.
pub fn put_mark(uncertain: bool, approximate: bool, out: &mut [u8], at: usize) -> usize
    ensures { Tried (mark_text uncertain approximate) out.old at out.new result }
{
    if uncertain {
        if approximate {
            return put_bytes(b"%", out, at);
        }
        return put_bytes(b"?", out, at);
    }
    if approximate {
        return put_bytes(b"~", out, at);
    }
    at
}

// ---- answers

// What is answered to a text that was measured, with so much room.
#[tactic(auto, unfolding(crate::specs::Answers::decided, chars::specs::Pick::pick))]
pub fn decide(m: Result<usize, Refusal>, room: usize) -> Result<usize, Refusal>
    ensures { result ≡ spec.decided m room }
{
    let n = m?;
    if n <= room {
        return Ok(n);
    }
    Err(nowhere(Kind::NoRoom))
}
