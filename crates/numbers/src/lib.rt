// Numbers of a text: a run of numeric characters, with white space and a sign before it as the ported code takes them.
#![tactic(auto)]

ghost use Rattle.std.specs.Prelude.{◌≡◌, true, ◌+◌, ◌<◌, ◌≤◌, ◌-◌, length};
ghost use Rattle.numbers.specs.Number as spec;
ghost use Rattle.chars.specs.Signs.{signed};
ghost use Rattle.numbers.specs.Trim as trims;
ghost use Rattle.numbers.specs.Steps.{Steps};
ghost use Rattle.numbers.specs.Parse as whole;

use chars::{Decoded, digit};
use scanner::{Class, Cursor, Run};

const HYPHEN: u32 = b'-' as u32;

// The byte lengths that a run of numeric characters may have, where the ported code gives a range.
#[derive(Clone, Copy)]
pub enum Digits {
    // 1..=2
    OneOrTwo,
    // 2..=2
    Two,
    // 4..=4
    Four,
}

// Why no number was read: what stands there is none, up to a place, or the ported code panics.
#[derive(Clone, Copy)]
pub enum NoNumber {
    Wrong { next: Cursor },
    Panics,
}

// A run of numeric characters, and whether a minus stands before it.
#[derive(Clone, Copy)]
pub struct SignedRun {
    pub negative: bool,
    pub numeric: Run,
}

// Whether a run may have n bytes.
fn contains(digits: Digits, n: usize) -> bool
    ensures { result ≡ spec.admits digits n }
{
    match digits {
        Digits::OneOrTwo => n == 1 || n == 2,
        Digits::Two => n == 2,
        Digits::Four => n == 4,
    }
}

// What a run of numeric characters is. Its length is counted in bytes, before its characters are looked at.
fn number_of(s: &[u8], run: Run, digits: Digits) -> Result<(u32, Cursor), NoNumber>
    ensures { result ≡ spec.run_of s.now run.start.0 run.end.0 digits }
{
    let next = run.end;
    let num = scanner::from(s, run.start, next);
    if contains(digits, num.len()) {
        // At most four bytes are admitted: no number of theirs is above 9999.
        return match digits_from(num, 0, 9999) {
            Some(value) => Ok((value, next)),
            None => Err(NoNumber::Panics),
        };
    }
    Err(NoNumber::Wrong { next })
}

// White space, then a run of numeric characters.
pub fn parse_unsigned_int(s: &[u8], c: Cursor, digits: Digits) -> Result<(u32, Cursor), NoNumber>
    ensures { result ≡ spec.parse_unsigned_int s.now c.0 digits }
{
    number_of(s, scanner::next_run(s, c, Class::Numeric), digits)
}

// Past a plus or a minus, if one stands there.
pub fn eat_sign(s: &[u8], c: Cursor) -> Cursor
    ensures { result.0 ≡ spec.behind_sign s.now c.0 }
{
    match scanner::eat_if(s, c, Class::Sign) {
        Some(next) => next,
        None => c,
    }
}

// A number behind a minus, or not.
fn signed(negative: bool, n: u32) -> i32
    requires { n < 10000 }
    ensures { result ≡ signed negative n }
{
    let num = n as i32;
    if negative { 0 - num } else { num }
}

// White space, a plus or a minus or neither, and a run of numeric characters: white space may stand behind the sign too.
pub fn signed_run(s: &[u8], c: Cursor) -> SignedRun
    ensures { result ≡ spec.signed_run s.now c.0 }
{
    let a = scanner::eat_whitespace(s, c);
    let negative = scanner::at(s, a, Class::Is(HYPHEN));
    let b = eat_sign(s, a);
    let numeric = scanner::next_run(s, b, Class::Numeric);
    SignedRun { negative, numeric }
}

// What such a run is, with its sign.
pub fn int_of(s: &[u8], run: SignedRun, digits: Digits) -> Result<(i32, Cursor), NoNumber>
    ensures { result ≡ spec.int_of s.now run digits }
{
    let (value, next) = number_of(s, run.numeric, digits)?;
    Ok((signed(run.negative, value), next))
}

// The number at a place, with white space and a sign before it.
pub fn parse_int(s: &[u8], c: Cursor, digits: Digits) -> Result<(i32, Cursor), NoNumber>
    ensures { result ≡ spec.parse_int s.now c.0 digits }
{
    int_of(s, signed_run(s, c), digits)
}

// ---- what the ported code uses of Rust's `str`: a text without the white space at its ends, and a whole text as a number

// Past white space and one more character, counted in bytes; 0 where no character is left.
fn trim_step(s: &[u8], i: usize) -> usize
    ensures { result ≡ trims.trim_step s.now i }
{
    let a = scanner::eat_whitespace(s, Cursor(i));
    match chars::decode_at(s, a.0) {
        Decoded::Char { code: _, len } => a.0 + len - i,
        Decoded::Bad => 0,
        Decoded::End => 0,
    }
}

// Whether sixteen bytes are ASCII and the last of them prints: then it goes on behind them. No byte decides where the loop goes on: the
// compiler takes them all at once.
fn is_stride(s: &[u8], at: usize) -> bool
    requires { at + 16 ≤ length s.now }
    ensures { result ≡ true → trims.trim_from s.now (at + 16) ≡ trims.trim_from s.now at }
{
    let mut ok = b' ' < s[at + 15];
    for i in 0..16 {
        ok = ok & (s[at + i] < 0x80);
    }
    ok
}

// Whether a character of two bytes from U+00C0 on stands at a place: it is no white space.
fn is_pair(s: &[u8], i: usize) -> bool
    ensures { result ≡ true → trims.trim_step s.now i ≡ 2 }
{
    if i < s.len() {
        let a = s[i];
        let b = chars::byte_at(s, i + 1);
        return ((0xC3 <= a) & (a < 0xE0)) & ((0x80 <= b) & (b < 0xC0));
    }
    false
}

// A step, with a look at such a character first.
fn trim_quick(s: &[u8], i: usize) -> usize
    ensures { result ≡ trims.trim_step s.now i }
{
    if is_pair(s, i) {
        return 2;
    }
    trim_step(s, i)
}

// A place that is reached by steps, and whether no step goes on from it.
#[derive(Clone, Copy)]
struct Reached {
    at: usize,
    over: bool,
}

// A few steps from a place on.
fn trim_some(s: &[u8], at: usize) -> Reached
    requires { at ≤ length s.now }
    ensures { Steps s.now at result.at result.over }
{
    let mut i = at;
    for _ in 0..8usize {
        let n = trim_quick(s, i);
        if n == 0 {
            return Reached { at: i, over: true };
        }
        i = i + n;
    }
    Reached { at: i, over: false }
}

// On by strides while sixteen bytes are left, and by steps between them.
fn trim_strides(s: &[u8]) -> Reached
    ensures { (trims.trim_from s.now result.at ≡ trims.trim_end s.now) × (result.over ≡ true → trims.trim_step s.now result.at ≡ 0) }
{
    let mut i = 0;
    // Kept as a while: a turn moves by sixteen bytes or by the steps of `trim_some`, of any lengths, and neither `step_by` nor `chunks_exact` has two strides.
    while 16 <= s.len() - i {
        if is_stride(s, i) {
            i = i + 16;
        } else {
            let e = trim_some(s, i);
            if e.over {
                return e;
            }
            i = e.at;
        }
    }
    Reached { at: i, over: false }
}

// Whether a text is ASCII and its last byte prints, as most are: nothing of it is trimmed.
fn is_trim(s: &[u8]) -> bool
    requires { 0 < length s.now }
    ensures { result ≡ true → trims.trim_end s.now ≡ length s.now }
{
    let mut ok = b' ' < s[s.len() - 1];
    for b in s {
        ok = ok & (*b < 0x80);
    }
    ok
}

// The place behind the last character that is no white space.
pub fn trim_end(s: &[u8]) -> Cursor
    ensures { result.0 ≡ trims.trim_end s.now }
{
    if 0 < s.len() {
        if is_trim(s) {
            return Cursor(s.len());
        }
    }
    let e = trim_strides(s);
    if e.over {
        return Cursor(e.at);
    }
    let mut i = e.at;
    // Kept as a loop: it moves by the length that `trim_step` finds, and ends where that is 0; no range or slice has these places.
    loop {
        let n = trim_step(s, i);
        if n == 0 {
            return Cursor(i);
        }
        i = i + n;
    }
}

// The text without the white space at its ends.
pub fn trim(s: &[u8]) -> &[u8]
    ensures { result.now ≡ trims.trim s.now }
{
    let a = scanner::eat_whitespace(s, Cursor(0));
    let e = trim_end(s);
    scanner::from(s, a, e)
}

// The number that digits from a place on say, unless it is above the largest one.
fn digits_from(s: &[u8], at: usize, top: u32) -> Option<u32>
    ensures { result ≡ whole.digits_from top s.now at }
{
    if s.len() <= at {
        return None;
    }
    let mut value: u32 = 0;
    for b in &s[at..] {
        let d = digit(*b);
        if 9 < d {
            return None;
        }
        let more = (value as u64) * 10 + d as u64;
        if (top as u64) < more {
            return None;
        }
        value = more as u32;
    }
    Some(value)
}

// The number that a whole text is, with a plus before it or not, for a type of number whose largest is `top`.
pub fn parse(s: &[u8], top: u32) -> Option<u32>
    ensures { result ≡ whole.parse top s.now }
{
    if chars::byte_at(s, 0) == b'+' {
        return digits_from(s, 1, top);
    }
    digits_from(s, 0, top)
}
