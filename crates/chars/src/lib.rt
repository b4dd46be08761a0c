// Characters: UTF-8 at a place of a text, the classes of the characters that are read, and their upper case.
// With `scanner` it is the lower layer, which the others use by its contracts alone.
#![tactic(auto)]

ghost use Rattle.std.specs.Prelude.{◌≡◌, ◌+◌, ◌*◌, ◌<◌, ◌%◌, get_or};
ghost use Rattle.chars.specs.Ascii as ascii_specs;
ghost use Rattle.chars.specs.Utf8 as utf8;
ghost use Rattle.chars.specs.Classes as classes;
ghost use Rattle.chars.specs.Upper as case;

// What stands at a place of a text.
#[derive(Clone, Copy)]
pub enum Decoded {
    // A character: its code, and how many bytes it has.
    Char { code: u32, len: usize },
    // No well-formed sequence starts there.
    Bad,
    // The place is the end of the text, or past it.
    End,
}

// The upper case of a character: one character, or two.
#[derive(Clone, Copy)]
pub enum Upper {
    One(u32),
    Two(u32, u32),
}

// How many bytes the character has whose first byte this is; 0 for a byte that starts none.
// The count of leading one bits decides it: the leading zeros of the inverted byte.
pub fn char_len(first: u8) -> usize
    ensures { result ≡ utf8.len_of first }
{
    let ones = u8::leading_zeros(!first);
    match ones {
        0 => 1,
        2 => 2,
        3 => 3,
        4 => 4,
        _ => 0,
    }
}

// A byte as a code, so that a byte of ASCII can be asked for its class.
pub fn wide(b: u8) -> u32
    ensures { result ≡ b }
{
    b as u32
}

// The bits read so far, with the six payload bits of the next byte behind them.
fn join(bits: u32, next: u8) -> u32
    requires { bits < 0x4000000 }
    ensures { result ≡ bits * 64 + next % 64 }
{
    (bits << 6) | wide(next & 0x3f)
}

// The payload bits of the first byte of two.
fn head2(b: u8) -> u32
    ensures { result ≡ b % 32 }
{
    wide(b & 0x1f)
}

// The payload bits of the first byte of three.
fn head3(b: u8) -> u32
    ensures { result ≡ b % 16 }
{
    wide(b & 0x0f)
}

// The payload bits of the first byte of four.
fn head4(b: u8) -> u32
    ensures { result ≡ b % 8 }
{
    wide(b & 0x07)
}

// Whether the byte continues a character.
fn is_cont(b: u8) -> bool
    ensures { result ≡ utf8.is_cont b }
{
    0x80 <= b && b < 0xC0
}

// Whether the code is kept for UTF-16.
fn is_surrogate(code: u32) -> bool
    ensures { result ≡ utf8.is_surrogate code }
{
    0xD800 <= code && code < 0xE000
}

// A character of two bytes, unless the form is overlong.
fn two(a: u8, b: u8) -> Decoded
    ensures { result ≡ utf8.decode2 a b }
{
    if is_cont(b) {
        let code = join(head2(a), b);
        if 0x80 <= code {
            return Decoded::Char { code, len: 2 };
        }
    }
    Decoded::Bad
}

// A character of three bytes, unless the form is overlong or the code a surrogate.
fn three(a: u8, b: u8, c: u8) -> Decoded
    ensures { result ≡ utf8.decode3 a b c }
{
    if is_cont(b) {
        if is_cont(c) {
            let code = join(join(head3(a), b), c);
            if 0x800 <= code {
                if is_surrogate(code) {
                    return Decoded::Bad;
                }
                return Decoded::Char { code, len: 3 };
            }
        }
    }
    Decoded::Bad
}

// A character of four bytes, unless the form is overlong or the code above U+10FFFF.
fn four(a: u8, b: u8, c: u8, d: u8) -> Decoded
    ensures { result ≡ utf8.decode4 a b c d }
{
    if is_cont(b) {
        if is_cont(c) {
            if is_cont(d) {
                let code = join(join(join(head4(a), b), c), d);
                if 0x10000 <= code {
                    if code <= 0x10FFFF {
                        return Decoded::Char { code, len: 4 };
                    }
                }
            }
        }
    }
    Decoded::Bad
}

// What four bytes begin with.
fn decode(a: u8, b: u8, c: u8, d: u8) -> Decoded
    ensures { result ≡ utf8.decode a b c d }
{
    match char_len(a) {
        1 => Decoded::Char {
            code: wide(a),
            len: 1,
        },
        2 => two(a, b),
        3 => three(a, b, c),
        4 => four(a, b, c, d),
        _ => Decoded::Bad,
    }
}

// The byte at a place, and 0 past the end.
pub fn byte_at(s: &[u8], at: usize) -> u8
    ensures { result ≡ get_or s.now at 0 }
{
    if at < s.len() { s[at] } else { 0 }
}

// What stands at a place of a text, by the four bytes there. `decode_at` is the same and quicker.
pub fn decode_far(s: &[u8], at: usize) -> Decoded
    ensures { result ≡ utf8.decode_at s.now at }
{
    if at < s.len() {
        decode(
            s[at],
            byte_at(s, at + 1),
            byte_at(s, at + 2),
            byte_at(s, at + 3),
        )
    } else {
        Decoded::End
    }
}

// What stands at a place of a text: an ASCII byte is a character by itself, and is looked at first.
pub fn decode_at(s: &[u8], at: usize) -> Decoded
    ensures { result ≡ utf8.decode_at s.now at }
{
    if at < s.len() {
        let b = s[at];
        if b < 0x80 {
            return Decoded::Char {
                code: wide(b),
                len: 1,
            };
        }
        return decode_far(s, at);
    }
    Decoded::End
}

// A class is a few ranges of codes, both ends included.
fn within(lo: u32, hi: u32, code: u32) -> bool
    ensures { result ≡ classes.within lo hi code }
{
    lo <= code && code <= hi
}

// Whether the character is one of those that are read.
pub fn is_admitted(code: u32) -> bool
    ensures { result ≡ classes.is_admitted code }
{
    if code <= 0xFF {
        return true;
    }
    within(0x2000, 0x206F, code)
}

// The typesetter's white space.
fn is_wide_space(code: u32) -> bool
    ensures { result ≡ classes.is_wide_space code }
{
    if within(0x2000, 0x200A, code) {
        return true;
    }
    if within(0x2028, 0x2029, code) {
        return true;
    }
    if code == 0x202F {
        return true;
    }
    code == 0x205F
}

pub fn is_whitespace(code: u32) -> bool
    ensures { result ≡ classes.is_whitespace code }
{
    if within(0x09, 0x0D, code) {
        return true;
    }
    if code == 0x20 {
        return true;
    }
    if code == 0x85 {
        return true;
    }
    if code == 0xA0 {
        return true;
    }
    is_wide_space(code)
}

pub fn is_ascii_digit(code: u32) -> bool
    ensures { result ≡ classes.is_ascii_digit code }
{
    within(0x30, 0x39, code)
}

// The same of a byte: one that is no character by itself is no digit.
pub fn is_digit(b: u8) -> bool
    ensures { result ≡ classes.is_ascii_digit b }
{
    is_ascii_digit(wide(b))
}

// What a byte says as a decimal digit, and 10 for any other byte.
pub fn digit(b: u8) -> u32
    ensures { result ≡ ascii_specs.digit_of b }
{
    if b < 0x30 {
        return 10;
    }
    if b < 0x3A {
        return wide(b - 0x30);
    }
    10
}

pub fn is_numeric(code: u32) -> bool
    ensures { result ≡ classes.is_numeric code }
{
    if is_ascii_digit(code) {
        return true;
    }
    if within(0xB2, 0xB3, code) {
        return true;
    }
    if code == 0xB9 {
        return true;
    }
    within(0xBC, 0xBE, code)
}

pub fn is_ascii_alphabetic(code: u32) -> bool
    ensures { result ≡ classes.is_ascii_alphabetic code }
{
    if within(0x41, 0x5A, code) {
        return true;
    }
    within(0x61, 0x7A, code)
}

pub fn is_alphabetic(code: u32) -> bool
    ensures { result ≡ classes.is_alphabetic code }
{
    if is_ascii_alphabetic(code) {
        return true;
    }
    if code == 0xAA {
        return true;
    }
    if code == 0xB5 {
        return true;
    }
    if code == 0xBA {
        return true;
    }
    if within(0xC0, 0xD6, code) {
        return true;
    }
    if within(0xD8, 0xF6, code) {
        return true;
    }
    within(0xF8, 0xFF, code)
}

pub fn is_alphanumeric(code: u32) -> bool
    ensures { result ≡ classes.is_alphanumeric code }
{
    if is_alphabetic(code) {
        return true;
    }
    is_numeric(code)
}

// Whether the upper case of the character is the one 32 below it.
fn loses_32(code: u32) -> bool
    ensures { result ≡ case.loses32 code }
{
    if within(0x61, 0x7A, code) {
        return true;
    }
    if within(0xE0, 0xF6, code) {
        return true;
    }
    within(0xF8, 0xFE, code)
}

// The upper case of a character. Its bytes are as many as the character's.
pub fn to_uppercase(code: u32) -> Upper
    ensures { result ≡ case.upper_of code }
{
    if loses_32(code) {
        return Upper::One(code - 32);
    }
    if code == 0xFF {
        return Upper::One(0x178);
    }
    if code == 0xB5 {
        return Upper::One(0x39C);
    }
    if code == 0xDF {
        return Upper::Two(0x53, 0x53);
    }
    Upper::One(code)
}
