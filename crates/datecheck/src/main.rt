// Reads an import file, its name is the argument, or standard input, and writes what is said of it to standard output. Memory is constant: an
// input block, an output block, and a table. What is said, and that it does not depend on how the file comes in blocks, is proved of the crate
// sheets; here is only the reading and the writing.
#![tactic(auto)]

ghost use Rattle.std.specs.Prelude.{◌≡◌, ◌-◌, ◌≤◌, ◌<◌, IfSome, length, take, drop};
ghost use Rattle.datecheck.specs.Goes.{Went, Refilled, Turned};

use sheets::{State, Taken};
use std::env::{Env, FillError};
use std::fs;
use std::io::Read;
use std::rt::Files;

// Why the steps over a block ended: they wait for more of the file, there is no room for what the next may say, or the report is over.
#[derive(Clone, Copy)]
enum Stop {
    Waits,
    Full,
    Over,
}

// Where they ended: the start of what was not taken, how much of the output was put, and what is kept.
#[derive(Clone, Copy)]
struct Done {
    from: usize,
    put: usize,
    stop: Stop,
    state: State,
}

// What is kept between turns: the bytes of the block from a place to another are not taken yet, and whether the file ends behind them.
#[derive(Clone, Copy)]
struct Progress {
    from: usize,
    have: usize,
    last: bool,
    state: State,
}

// Steps over a block, from the front of the output on: a run goes on by just what is put there.
fn steps(block: &[u8], last: bool, state: State, table: &mut [usize; 512], out: &mut [u8]) -> Done
    ensures from_in_bounds { (result.from ≤ length block.now) × (result.put ≤ length out.new) }
    ensures went { Went last block.now state result.stop (drop result.from block.now) result.state (take result.put out.new) }
{
    let mut at = 0;
    let mut put = 0;
    let mut st = state;
    loop {
        match sheets::step(&block[at..], last, st, table, &mut out[put..]) {
            Taken::More => return stopped(at, put, Stop::Waits, st),
            Taken::NoRoom => return stopped(at, put, Stop::Full, st),
            Taken::Took {
                bytes,
                put: n,
                state: kept,
            } => {
                at += bytes;
                put += n;
                st = kept;
            }
            Taken::Over { put: n } => return stopped(at, put + n, Stop::Over, st),
        }
    }
}

// Where the steps ended.
fn stopped(from: usize, put: usize, stop: Stop, state: State) -> Done
    ensures { (result.from ≡ from) × ((result.put ≡ put) × ((result.stop ≡ stop) × (result.state ≡ state))) }
{
    Done {
        from,
        put,
        stop,
        state,
    }
}

// Moves what was not taken to the front of the block, and reads behind it, where there is room; nothing read is the file's end. `None`:
// it cannot be read.
fn refill<R: Read>(
    rt: &impl Eprint,
    file: &mut R,
    buf: &mut [u8],
    from: usize,
    have: usize,
    state: State,
) -> Option<Progress>
    requires { (from ≤ have) × ((have ≤ length buf.old) × (have - from < length buf.old)) }
    ensures from_le_have { IfSome result λ p. (p.from ≤ p.have) × (p.have ≤ length buf.new) }
    ensures state_value { IfSome result λ p. (p.state ≡ state) × Refilled (drop from (take have buf.old)) p.last (drop p.from (take p.have buf.new)) }
{
    let n = have - from;
    blocks::move_down(buf, from, have);
    let got = blocks::read_on(rt, file, "the file", &mut buf[n..])?;
    Some(Progress {
        from: 0,
        have: n + got,
        last: got == 0,
        state,
    })
}

// The steps over what stands in the block. What they put is out before the next turn, and before the next read. Steps that wait have left so
// little that there is room to read. `None`: it was the last turn.
fn turn<R: Read>(
    rt: &(impl Print + Eprint),
    file: &mut R,
    buf: &mut [u8],
    table: &mut [usize; 512],
    out: &mut [u8],
    p: Progress,
) -> Option<Progress>
    requires { (p.from ≤ p.have) × ((p.have ≤ length buf.old) × (65539 < length buf.old)) }
    ensures from_le_have { IfSome result λ q. (q.from ≤ q.have) × (q.have ≤ length buf.new) }
    ensures turned { IfSome result λ q. Turned p.last (drop p.from (take p.have buf.old)) p.state out.new q.last (drop q.from (take q.have buf.new)) q.state }
{
    let d = steps(&buf[p.from..p.have], p.last, p.state, table, out);
    if !blocks::flush(rt, out, d.put) {
        return None;
    }
    let at = p.from + d.from;
    match d.stop {
        Stop::Waits => refill(rt, file, buf, at, p.have, d.state),
        Stop::Full => Some(Progress {
            from: at,
            have: p.have,
            last: p.last,
            state: d.state,
        }),
        Stop::Over => None,
    }
}

// The loop: so many turns that no run uses them up.
fn run<R: Read>(
    rt: &(impl Print + Eprint),
    file: &mut R,
    buf: &mut [u8],
    table: &mut [usize; 512],
    out: &mut [u8],
)
    requires { 65539 < length buf.old }
{
    let mut p = Progress {
        from: 0,
        have: 0,
        last: false,
        state: sheets::fresh(),
    };
    for _turn in 0..u64::MAX {
        let Some(q) = turn(rt, file, buf, table, out, p) else {
            return;
        };
        p = q;
    }
}

// A file that is open.
fn check<R: Read>(rt: &(impl Print + Eprint), file: &mut R) {
    let mut buf = [0u8; 262144];
    let mut out = [0u8; 524288];
    let mut table = [0usize; 512];
    run(rt, file, &mut buf, &mut table, &mut out);
}

// The file at a path.
fn check_path(rt: &(impl Print + Eprint + Files), path: &str) {
    match fs::open(rt, path) {
        Ok(mut file) => check(rt, &mut file),
        Err(e) => {
            let _ = eprintln!(rt; "{path}: {e}");
        }
    }
}

// The file that the argument names.
fn check_named(rt: &(impl Print + Eprint + Files + Env)) {
    let mut name = [0u8; 4096];
    let Ok(n) = rt.arg(1, &mut name) else {
        let _ = eprintln!(rt; "the file's name: File name too long");
        return;
    };
    match str::from_utf8(&name[..n]) {
        Ok(path) => check_path(rt, path),
        Err(_) => {
            let _ = eprintln!(rt;
                "the file's name: bytes that are not UTF-8; hand the file in on standard input"
            );
        }
    }
}

// Whether there is an argument of this number.
fn given(rt: &impl Env, i: usize) -> bool {
    !matches!(rt.arg(i, &mut []), Err(FillError::NotPresent))
}

fn main(rt: HostRuntime) {
    if given(&rt, 2) {
        let _ = eprintln!(rt; "datecheck: one file, or standard input");
        return;
    }
    if given(&rt, 1) {
        check_named(&rt);
        return;
    }
    check(&rt, &mut rt.stdin());
}
