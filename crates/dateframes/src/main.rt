// Reads frames from standard input, one a line in hexadecimal digits, and answers each by one line on standard output, in order.
// Memory is constant: an input block, an output block, and what one frame needs. What is answered, and that it does not depend on how the
// input comes in blocks, is proved of the crate lines; here is only the reading and the writing.
#![tactic(auto)]

ghost use Rattle.std.specs.Prelude.{◌≡◌, true, [], ◌+◌, ◌≤◌, ◌<◌, IfSome, length, take, drop};
ghost use Rattle.lines.specs.Lines.{NoFeed};
ghost use Rattle.lines.specs.Runs.{Onward};
ghost use Rattle.frames.specs.Frame.{line_answer};

use std::io::Read;

// What is kept between reads: how many bytes of a line stand at the front of the block, and whether that line is too long already.
#[derive(Clone, Copy)]
struct State {
    have: usize,
    long: bool,
}

// What is left of a block behind its complete lines, and whether all their answers were written.
#[derive(Clone, Copy)]
struct Left {
    state: State,
    good: bool,
}

// Where the lines of a block end: the start of the rest, whether its line is too long already, and whether all answers were written.
#[derive(Clone, Copy)]
struct Done {
    from: usize,
    long: bool,
    good: bool,
}

// Steps over a block until no line feed is left in it, and writes what each put. There is room for the longest answer, so that each step that
// stops for room took a line, and only a write that fails ends this early.
fn steps(rt: &(impl Print + Eprint), block: &[u8], long: bool, out: &mut [u8]) -> Done
    requires { 147 ≤ length out.old }
    ensures from_in_bounds { result.from ≤ length block.now }
    ensures onward { Onward line_answer 16384 [] block.now long (drop result.from block.now) result.long }
    ensures no_feed { result.good ≡ true → NoFeed (drop result.from block.now) × (length (drop result.from block.now) ≤ 16384) }
{
    let mut at = 0;
    let mut l = long;
    loop {
        let t = lines::step(&block[at..], l, out);
        at += t.bytes;
        l = t.long;
        let good = blocks::flush(rt, out, t.put);
        if t.full & good {
            continue;
        }
        return Done {
            from: at,
            long: l,
            good,
        };
    }
}

// Answers the lines of a block, of which the first bytes were kept and as many as are counted were read behind them, and moves what is left
// to its front: a run goes on with just those bytes read.
fn answer_read(
    rt: &(impl Print + Eprint),
    buf: &mut [u8],
    have: usize,
    count: usize,
    long: bool,
    out: &mut [u8],
) -> Left
    requires { (have + count ≤ length buf.old) × (147 ≤ length out.old) }
    ensures onward { Onward line_answer 16384 (take count (drop have buf.old)) (take have buf.old) long (take result.state.have buf.new) result.state.long }
    ensures no_feed { result.good ≡ true → NoFeed (take result.state.have buf.new) × (result.state.have ≤ 16384) }
{
    let n = have + count;
    let d = steps(rt, &buf[..n], long, out);
    let from = d.from;
    blocks::move_down(buf, from, n);
    let state = State {
        have: n - from,
        long: d.long,
    };
    Left {
        state,
        good: d.good,
    }
}

// One read, and the lines that it completes: their answers are out before the next. `None`: it was the last turn.
fn turn<R: Read>(
    rt: &(impl Print + Eprint),
    input: &mut R,
    buf: &mut [u8],
    out: &mut [u8],
    st: State,
) -> Option<State>
    requires { (st.have ≤ length buf.old) × (147 ≤ length out.old) }
    ensures { IfSome result λ q. NoFeed (take q.have buf.new) × (q.have ≤ 16384) }
{
    let have = st.have;
    let got = blocks::read_on(rt, input, "standard input", &mut buf[have..])?;
    if got == 0 {
        let k = lines::finish(&buf[..have], st.long, out);
        blocks::flush(rt, out, k);
        return None;
    }
    let left = answer_read(rt, buf, have, got, st.long, out);
    if left.good { Some(left.state) } else { None }
}

// The loop: so many turns that no run uses them up.
fn run<R: Read>(rt: &(impl Print + Eprint), input: &mut R, buf: &mut [u8], out: &mut [u8])
    requires { (16384 < length buf.old) × (147 ≤ length out.old) }
{
    let mut st = State {
        have: 0,
        long: false,
    };
    for _turn in 0..u64::MAX {
        let Some(next) = turn(rt, input, buf, out, st) else {
            return;
        };
        st = next;
    }
}

fn main(rt: HostRuntime) {
    let mut buf = [0u8; 65536];
    let mut out = [0u8; 65536];
    run(&rt, &mut rt.stdin(), &mut buf, &mut out);
}
