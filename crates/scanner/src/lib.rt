// The scanner: a cursor by value over a lent text, and what the readers eat at it.
// The names are those of the scanner that the ported code uses; a text is passed beside its cursor. `Scanner` holds both.
#![tactic(auto)]

ghost use Rattle.std.specs.Prelude.{◌≡◌, true, ◌+◌, ◌≤◌, length};
ghost use Rattle.scanner.specs.Class.{in_class};
ghost use Rattle.scanner.specs.Scan as spec;
ghost use Rattle.scanner.specs.Quick.{Quick};
ghost use Rattle.scanner.specs.declared.Class.{Class};
ghost use Rattle.scanner.specs.declared.Class.TheVariants.{Whitespace, Is};

use chars::{Decoded, wide};

const HYPHEN: u32 = b'-' as u32;

const PLUS: u32 = b'+' as u32;

const NO_BREAK_SPACE: u32 = 0xA0;

// A place in the formatted text, in bytes. It is no place in the file: of a date only the offset rule of `refusals` makes one of it.
#[derive(Clone, Copy)]
pub struct Cursor(pub usize);

// What the ported code gives its scanner as a pattern: a predicate, a few characters or one.
#[derive(Clone, Copy)]
pub enum Class {
    Whitespace,
    // White space other than the no-break space.
    PlainWhitespace,
    Numeric,
    AsciiDigit,
    AsciiAlphabetic,
    Alphanumeric,
    // A plus or a hyphen.
    Sign,
    // A hyphen or a no-break space.
    Separator,
    // One character.
    Is(u32),
}

// Whether the character is of the class.
fn in_class(class: Class, code: u32) -> bool
    ensures { result ≡ in_class class code }
{
    match class {
        Class::Whitespace => chars::is_whitespace(code),
        Class::PlainWhitespace => {
            if chars::is_whitespace(code) {
                code != NO_BREAK_SPACE
            } else {
                false
            }
        }
        Class::Numeric => chars::is_numeric(code),
        Class::AsciiDigit => chars::is_ascii_digit(code),
        Class::AsciiAlphabetic => chars::is_ascii_alphabetic(code),
        Class::Alphanumeric => chars::is_alphanumeric(code),
        Class::Sign => code == PLUS || code == HYPHEN,
        Class::Separator => code == HYPHEN || code == NO_BREAK_SPACE,
        Class::Is(c) => code == c,
    }
}

// How many bytes the character at a place has, if it is of the class; else 0. `match_len` is the same and quicker.
fn match_far(s: &[u8], at: usize, class: Class) -> usize
    ensures { result ≡ spec.match_len class s.now at }
{
    match chars::decode_far(s, at) {
        Decoded::Char { code, len } => { if in_class(class, code) { len } else { 0 } }
        Decoded::Bad => 0,
        Decoded::End => 0,
    }
}

// The same, with a look at an ASCII byte first.
fn match_len(s: &[u8], at: usize, class: Class) -> usize
    ensures { result ≡ spec.match_len class s.now at }
{
    if at < s.len() {
        let b = s[at];
        if b < 0x80 {
            let code = wide(b);
            if in_class(class, code) {
                return 1;
            }
            return 0;
        }
        return match_far(s, at, class);
    }
    0
}

// The place behind the run of characters of the class that starts at a place.
fn eat_each(s: &[u8], at: usize, class: Class) -> usize
    ensures { result ≡ spec.eat_while class s.now at }
{
    let mut i = at;
    // Kept as a loop: a step is as long as its character, and a `for` over places goes on by the same step each time.
    loop {
        let n = match_len(s, i, class);
        if n == 0 {
            return i;
        }
        i = i + n;
    }
}

// Bytes from the first to the second; none where the first is above the second.
#[derive(Clone, Copy)]
struct Bytes(u8, u8);

// ASCII characters of the class that come in runs: where a run of them ends is cheap to find.
fn quick_bytes(class: Class) -> Bytes
    ensures { Quick class result.0 result.1 }
{
    match class {
        Class::Whitespace => Bytes(1, 0),
        Class::PlainWhitespace => Bytes(1, 0),
        Class::Numeric => Bytes(b'0', b'9'),
        Class::AsciiDigit => Bytes(b'0', b'9'),
        Class::AsciiAlphabetic => Bytes(b'a', b'z'),
        Class::Alphanumeric => Bytes(1, 0),
        Class::Sign => Bytes(1, 0),
        Class::Separator => Bytes(b'-', b'-'),
        Class::Is(c) => one_byte(c),
    }
}

// A character as a run of bytes, if it is ASCII.
fn one_byte(c: u32) -> Bytes
    ensures { Quick (Is c) result.0 result.1 }
{
    if c < 0x80 {
        Bytes(c as u8, c as u8)
    } else {
        Bytes(1, 0)
    }
}

// Past a run of bytes from lo to hi.
fn eat_bytes(s: &[u8], at: usize, lo: u8, hi: u8) -> usize
    ensures { (k : Class) → Quick k lo hi → spec.eat_while k s.now result ≡ spec.eat_while k s.now at }
{
    for i in at..s.len() {
        let b = s[i];
        if b < lo {
            return i;
        }
        if hi < b {
            return i;
        }
    }
    at.max(s.len())
}

// Past the run of characters of the class at the cursor: quickly over ASCII, then character by character.
pub fn eat_while(s: &[u8], c: Cursor, class: Class) -> Cursor
    ensures { result.0 ≡ spec.eat_while class s.now c.0 }
{
    let q = quick_bytes(class);
    let i = eat_bytes(s, c.0, q.0, q.1);
    Cursor(eat_each(s, i, class))
}

// Whether sixty-four bytes are spaces. None of them decides where the loop goes on: the compiler takes them all at once.
fn are_spaces(s: &[u8], at: usize) -> bool
    requires { at + 64 ≤ length s.now }
    ensures { result ≡ true → spec.eat_while Whitespace s.now (at + 64) ≡ spec.eat_while Whitespace s.now at }
{
    let mut ok = true;
    for i in 0..64 {
        ok = ok & (s[at + i] == b' ');
    }
    ok
}

// Past spaces, sixty-four at a time.
fn eat_spaces(s: &[u8], at: usize) -> usize
    ensures { spec.eat_while Whitespace s.now result ≡ spec.eat_while Whitespace s.now at }
{
    for i in (at..s.len()).step_by(64) {
        if s.len() - i < 64 || !are_spaces(s, i) {
            return i;
        }
    }
    at.max(s.len())
}

// The place behind white space: there may be many spaces. A character of two bytes from U+00C0 on is none.
fn eat_blanks(s: &[u8], at: usize) -> usize
    ensures { result ≡ spec.eat_while Whitespace s.now at }
{
    let b = chars::byte_at(s, at);
    if b == b' ' {
        return eat_each(s, eat_spaces(s, at), Class::Whitespace);
    }
    if 0xC3 <= b {
        if b < 0xE0 {
            return at;
        }
    }
    eat_each(s, at, Class::Whitespace)
}

// Past the white space at the cursor. Mostly there is none: a printing ASCII character is looked at first.
pub fn eat_whitespace(s: &[u8], c: Cursor) -> Cursor
    ensures { result.0 ≡ spec.eat_while Whitespace s.now c.0 }
{
    let at = c.0;
    if at < s.len() {
        let b = s[at];
        if b' ' < b {
            if b < 0x80 {
                return c;
            }
        }
    }
    Cursor(eat_blanks(s, at))
}

// Past the character at the cursor, if it is of the class.
pub fn eat_if(s: &[u8], c: Cursor, class: Class) -> Option<Cursor>
    ensures { result ≡ spec.eat_if class s.now c.0 }
{
    let at = c.0;
    let n = match_len(s, at, class);
    if n == 0 {
        return None;
    }
    Some(Cursor(at + n))
}

// Byte by byte: what is asked for is ASCII, and no part of a longer character is.
fn begins(s: &[u8], t: &[u8]) -> bool
    ensures { result ≡ spec.begins t.now s.now }
{
    s.starts_with(t)
}

// Past the text t, if it stands at the cursor.
pub fn eat_text(s: &[u8], c: Cursor, t: &[u8]) -> Option<Cursor>
    ensures { result ≡ spec.eat_text t.now s.now c.0 }
{
    let at = c.0;
    if at <= s.len() {
        if begins(&s[at..], t) {
            return Some(Cursor(at + t.len()));
        }
    }
    None
}

// The next character, and past it.
pub fn eat(s: &[u8], c: Cursor) -> Option<(u32, Cursor)>
    ensures { result ≡ spec.eat_at s.now c.0 }
{
    let at = c.0;
    match chars::decode_at(s, at) {
        Decoded::Char { code, len } => Some((code, Cursor(at + len))),
        Decoded::Bad => None,
        Decoded::End => None,
    }
}

// Whether a character of the class stands at the cursor.
pub fn at(s: &[u8], c: Cursor, class: Class) -> bool
    ensures { result ≡ spec.stands_at class s.now c.0 }
{
    match_len(s, c.0, class) != 0
}

// Whether nothing is left at the cursor.
pub fn done(s: &[u8], c: Cursor) -> bool
    ensures { result ≡ spec.done_at s.now c.0 }
{
    s.len() <= c.0
}

// The text from a cursor to another.
pub fn from(s: &[u8], start: Cursor, c: Cursor) -> &[u8]
    ensures { result.now ≡ spec.part s.now start.0 c.0 }
{
    let a = start.0;
    let e = c.0;
    let n = s.len();
    if n < a {
        return &s[n..];
    }
    if e < a {
        return &s[a..a];
    }
    if n < e {
        return &s[a..];
    }
    &s[a..e]
}

// A run of characters: the place where it starts and the place behind it.
#[derive(Clone, Copy)]
pub struct Run {
    pub start: Cursor,
    pub end: Cursor,
}

// The run of characters of the class at the cursor, which may be empty.
fn run_at(s: &[u8], c: Cursor, class: Class) -> Run
    ensures { result ≡ spec.run_at class s.now c.0 }
{
    Run {
        start: c,
        end: eat_while(s, c, class),
    }
}

// A text that is lent, and a place in it. Few functions are over it: each takes it apart and leaves the work to a function on the
// text and the place. Readers call `next_run`, which takes those two.
#[derive(Clone, Copy)]
pub struct Scanner<'a> {
    pub text: &'a [u8],
    pub at: Cursor,
}

impl<'a> Scanner<'a> {
    // The place need not be one of the text: behind it there is nothing to eat.
    pub fn new(text: &'a [u8], at: Cursor) -> Scanner<'a>
        ensures { (result.text ≡ text.entry) × (result.at ≡ at) }
    {
        Scanner { text, at }
    }

    // Past the white space at its place.
    pub fn eat_whitespace(self) -> Scanner<'a>
        ensures { (result.text ≡ self.entry.text) × (result.at.0 ≡ spec.eat_while Whitespace self.entry.text.now self.entry.at.0) }
    {
        let at = eat_whitespace(self.text, self.at);
        Scanner {
            text: self.text,
            at,
        }
    }

    // The run of characters of the class at its place.
    pub fn run(self, class: Class) -> Run
        ensures { result ≡ spec.run_at class self.entry.text.now self.entry.at.0 }
    {
        run_at(self.text, self.at, class)
    }
}

// White space at the cursor, then the run of characters of the class.
pub fn next_run(s: &[u8], c: Cursor, class: Class) -> Run
    ensures { result ≡ spec.next_run class s.now c.0 }
{
    Scanner::new(s, c).eat_whitespace().run(class)
}
