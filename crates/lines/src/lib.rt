// The lines of a stream that comes in blocks, and the answers to them. No input or output here: a step takes a block and fills a lent buffer.
#![tactic(auto)]

ghost use Rattle.std.specs.Prelude.{◌≡◌, false, ◌+◌, ◌≤◌, eqb, ltb, length, drop};
ghost use Rattle.chars.specs.Pick.{pick};
ghost use Rattle.puts.specs.Answers as writing;
ghost use Rattle.lines.specs.Lines as spec;
ghost use Rattle.lines.specs.Steps.{Replied, next_answer, taken_at, Stepped, Finished};
ghost use Rattle.frames.specs.Frame.{line_answer};
ghost use Rattle.lines.specs.Frames.{long_answer};

use refusals::Refusal;

// A line of more bytes is no frame: it is dropped as it is read, and refused.
const LIMIT: usize = 16384;

// What a step did: how many bytes of the block it took, whether the line that goes on behind them is too long already, how many bytes of
// answers it put, and whether it stopped because there was no room for the next one.
#[derive(Clone, Copy)]
pub struct Taken {
    pub bytes: usize,
    pub long: bool,
    pub put: usize,
    pub full: bool,
}

// ---- the next line feed

// The place of the next line feed, or the length.
fn line_end(s: &[u8], at: usize) -> usize
    requires { at ≤ length s.now }
    ensures { result ≡ at + spec.line_length (drop at s.now) }
{
    let rest = &s[at..];
    at + memchr::memchr(b'\n', rest).unwrap_or(rest.len())
}

// ---- the answers

// The answer to a line, or to one that is too long already, at the front of the lent buffer.
fn reply(line: &[u8], long: bool, out: &mut [u8]) -> Result<usize, Refusal>
    ensures value { result ≡ writing.answer false (next_answer line_answer long_answer long line.now) (length out.old) }
    ensures out_after { out.new ≡ writing.afterwards false (next_answer line_answer long_answer long line.now) out.old }
{
    if long {
        return frames::answer_long(out);
    }
    frames::answer(line, out)
}

// The same behind a place: the place behind the answer, or the same one if there is no room.
fn put_line(line: &[u8], long: bool, out: &mut [u8], p: usize) -> usize
    requires { p ≤ length out.old }
    ensures { Replied (next_answer line_answer long_answer long line.now) out.old p out.new result }
{
    match reply(line, long, &mut out[p..]) {
        Ok(n) => p + n,
        Err(_) => p,
    }
}

// What is taken where no line feed follows.
fn taken_at(n: usize, at: usize, long: bool, put: usize) -> Taken
    requires { at ≤ n }
    ensures { result ≡ taken_at 16384 n at long put }
{
    if long {
        return Taken {
            bytes: n,
            long: true,
            put,
            full: false,
        };
    }
    if LIMIT < n - at {
        return Taken {
            bytes: n,
            long: true,
            put,
            full: false,
        };
    }
    Taken {
        bytes: at,
        long: false,
        put,
        full: false,
    }
}

// Answers the lines of a block that have their line feeds, as far as there is room. The first may have begun in a block before, and be too
// long already. What is not taken is to stand at the front of the next block.
pub fn step(block: &[u8], long: bool, out: &mut [u8]) -> Taken
    ensures { Stepped line_answer 16384 long block.now out.old result out.new }
{
    let mut at = 0;
    let mut l = long;
    let mut p = 0;
    // Kept as a loop: a line begins behind the feed of the one before it, and a `for` goes on by the same step each time.
    loop {
        let e = line_end(block, at);
        if e == block.len() {
            return taken_at(e, at, l, p);
        }
        let q = put_line(&block[at..e], l, out, p);
        if q == p {
            return Taken {
                bytes: at,
                long: l,
                put: p,
                full: true,
            };
        }
        at = e + 1;
        l = false;
        p = q;
    }
}

// Answers the last line of a stream, if it has no line feed: what is left of the last block.
pub fn finish(rest: &[u8], long: bool, out: &mut [u8]) -> usize
    ensures { Finished line_answer 16384 long rest.now out.old result out.new }
{
    if (rest.len() == 0) & !long {
        return 0;
    }
    put_line(rest, long, out, 0)
}
