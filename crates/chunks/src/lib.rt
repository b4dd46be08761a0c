// Chunk lists: the checks before a list is read, its span, and its formatted text.
// A list is lent bytes and a lent table of four numbers a chunk: kind (0 Normal, 1 Verbatim, 2 Math), length, span start, span end.
#![tactic(auto)]

ghost use Rattle.std.specs.Prelude.{◌≡◌, true, false, ◌&&◌, ◌+◌, ◌%◌, ◌^◌, ◌<◌, ◌≤◌, eqb, length, Ok, Err};
ghost use Rattle.std.proofs.lemmas.List.Edits.{sets};
ghost use Rattle.chars.specs.Utf8.{encode, encode_all};
ghost use Rattle.chars.specs.Classes.{is_whitespace};
ghost use Rattle.refusals.specs.Refusal.{bytes_at};
ghost use Rattle.chunks.specs.Characters.{codes};
ghost use Rattle.chunks.specs.Chunks as chunks_specs;
ghost use Rattle.chunks.specs.Check as check_specs;
ghost use Rattle.chunks.specs.Format as format_specs;
ghost use Rattle.chunks.specs.Upper as upper_specs;
ghost use Rattle.chunks.specs.Plain as plain_specs;
ghost use Rattle.chunks.specs.Latin as latin_specs;
ghost use Rattle.chunks.specs.Standing as standing_specs;
ghost use Rattle.chunks.specs.Answer as answer_specs;

use chars::{Decoded, Upper, wide};
use refusals::{FileSpan, Kind, Refusal, nowhere};

const SPACE: u32 = b' ' as u32;

const DOLLAR: u32 = b'$' as u32;

const LINE_FEED: u32 = b'\n' as u32;

const CARRIAGE_RETURN: u32 = b'\r' as u32;

// How far a buffer is filled, and whether what was put last was white space.
#[derive(Clone, Copy)]
struct Put {
    n: usize,
    prev_was_whitespace: bool,
}

// Whether the kinds of a table are known and its lengths sum to a number of bytes. What is left of the bytes is counted down, so
// that no sum can wrap.
fn lengths_fit(table: &[u64], bytes: usize) -> bool
    requires { length table.now % 4 ≡ 0 }
    ensures { result ≡ (chunks_specs.kinds_known (chunks_specs.chunks_of table.now) && eqb (chunks_specs.lengths (chunks_specs.chunks_of table.now)) bytes) }
{
    let mut left = bytes as u64;
    for k in 0..table.len() / 4 {
        let kind = table[4 * k];
        if 2 < kind {
            return false;
        }
        let len = table[4 * k + 1];
        if left < len {
            return false;
        }
        left = left - len;
    }
    left == 0
}

// A fault at a place of the lent bytes.
fn faulty(kind: Kind, at: usize, len: usize) -> Result<(), Refusal>
    requires { at + len < 2 ^ 64 }
    ensures { result ≡ Err (bytes_at kind at (at + len)) }
{
    Err(refusals::bytes_at(kind, at, at + len))
}

// Puts the bytes of a character.
fn put_char(buf: &mut [u8], n: usize, code: u32) -> usize
    requires { (code < 0x110000) × (n + length (encode code) ≤ length buf.old) }
    ensures { (result ≡ n + length (encode code)) × (buf.new ≡ sets buf.old n (encode code)) }
{
    if code < 0x80 {
        buf[n] = code as u8;
        return n + 1;
    }
    let last = (0x80 + code % 64) as u8;
    if code < 0x800 {
        buf[n] = (0xC0 + code / 64) as u8;
        buf[n + 1] = last;
        return n + 2;
    }
    let third = (0x80 + code / 64 % 64) as u8;
    if code < 0x10000 {
        buf[n] = (0xE0 + code / 64 / 64) as u8;
        buf[n + 1] = third;
        buf[n + 2] = last;
        return n + 3;
    }
    buf[n] = (0xF0 + code / 64 / 64 / 64) as u8;
    buf[n + 1] = (0x80 + code / 64 / 64 % 64) as u8;
    buf[n + 2] = third;
    buf[n + 3] = last;
    n + 4
}

// Whether the character is a line feed or a carriage return.
fn is_break(code: u32) -> bool
    ensures { result ≡ format_specs.is_break code }
{
    code == LINE_FEED || code == CARRIAGE_RETURN
}

// Puts one character of a Normal chunk: a line break as a space, or not at all behind white space.
fn put_one(buf: &mut [u8], n: usize, white: bool, code: u32) -> Put
    requires { (code < 0x110000) × (n + length (format_specs.one_out white code) ≤ length buf.old) }
    ensures { (result.n ≡ n + length (format_specs.one_out white code)) × (result.prev_was_whitespace ≡ is_whitespace code) × (buf.new ≡ sets buf.old n (format_specs.one_out white code)) }
{
    if is_break(code) {
        if white {
            return Put {
                n,
                prev_was_whitespace: true,
            };
        }
        let m = put_char(buf, n, SPACE);
        return Put {
            n: m,
            prev_was_whitespace: true,
        };
    }
    let m = put_char(buf, n, code);
    let w = chars::is_whitespace(code);
    Put {
        n: m,
        prev_was_whitespace: w,
    }
}

// Puts a Normal chunk, a character at a time, as a line break goes by what came before it.
fn put_normal_each(buf: &mut [u8], n: usize, t: &[u8], white: bool) -> Put
    requires { n + length t.now ≤ length buf.old }
    ensures { (result.n ≡ n + length (format_specs.normal white (codes t.now))) × (result.prev_was_whitespace ≡ format_specs.last_white white (codes t.now)) × (buf.new ≡ sets buf.old n (format_specs.normal white (codes t.now))) }
{
    let mut m = n;
    let mut w = white;
    let mut i = 0;
    while let Decoded::Char { code, len } = chars::decode_at(t, i) {
        let p = put_one(buf, m, w, code);
        m = p.n;
        w = p.prev_was_whitespace;
        i = i + len;
    }
    Put {
        n: m,
        prev_was_whitespace: w,
    }
}

// Puts a Normal chunk of well-formed characters: as it is, if it has no line break.
fn put_normal(buf: &mut [u8], n: usize, t: &[u8], white: bool) -> Put
    requires t_in_bounds { n + length t.now ≤ length buf.old }
    requires t_value { encode_all (codes t.now) ≡ t.now }
    ensures { (result.n ≡ n + length (format_specs.normal white (codes t.now))) × (result.prev_was_whitespace ≡ format_specs.last_white white (codes t.now)) × (buf.new ≡ sets buf.old n (format_specs.normal white (codes t.now))) }
{
    if all_unbroken(t) {
        let m = put_bytes(buf, n, t);
        let w = last_white(t, white);
        return Put {
            n: m,
            prev_was_whitespace: w,
        };
    }
    put_normal_each(buf, n, t, white)
}

// Puts bytes as they are: a line break in Verbatim or Math stays one.
fn put_bytes(buf: &mut [u8], n: usize, t: &[u8]) -> usize
    requires { n + length t.now ≤ length buf.old }
    ensures { (result ≡ n + length t.now) × (buf.new ≡ sets buf.old n t.now) }
{
    // `copy_from_slice` would want `memmove` of whoever links the library.
    for (i, b) in t.iter().enumerate() {
        buf[n + i] = *b;
    }
    n + t.len()
}

// Whether the last character is white space; of no characters what is given. `last_white` is the same and quicker.
fn last_white_each(t: &[u8], white: bool) -> bool
    ensures { result ≡ format_specs.last_white white (codes t.now) }
{
    let mut w = white;
    let mut i = 0;
    while let Decoded::Char { code, len } = chars::decode_at(t, i) {
        w = chars::is_whitespace(code);
        i = i + len;
    }
    w
}

// The same of well-formed characters. The last bytes tell a character up to U+00FF.
fn last_white(t: &[u8], white: bool) -> bool
    requires { encode_all (codes t.now) ≡ t.now }
    ensures { result ≡ format_specs.last_white white (codes t.now) }
{
    let n = t.len();
    if n == 0 {
        return white;
    }
    let b = t[n - 1];
    if b < 0x80 {
        return chars::is_whitespace(wide(b));
    }
    if 2 <= n {
        let a = t[n - 2];
        if is_lead(a) {
            return chars::is_whitespace(wide(a) % 32 * 64 + wide(b) % 64);
        }
    }
    last_white_each(t, white)
}

// Puts a chunk of a kind: Normal, Verbatim, or Math between dollar signs.
fn put_chunk(buf: &mut [u8], n: usize, kind: u64, t: &[u8], white: bool) -> Put
    requires t_in_bounds { n + length t.now + 2 ≤ length buf.old }
    requires t_value { encode_all (codes t.now) ≡ t.now }
    ensures { (result.n ≡ n + length (format_specs.chunk_out white kind t.now)) × (result.prev_was_whitespace ≡ format_specs.chunk_flag white kind t.now) × (buf.new ≡ sets buf.old n (format_specs.chunk_out white kind t.now)) }
{
    if kind == 0 {
        return put_normal(buf, n, t, white);
    }
    if kind == 1 {
        let m = put_bytes(buf, n, t);
        let w = last_white(t, false);
        return Put {
            n: m,
            prev_was_whitespace: w,
        };
    }
    let m = put_char(buf, n, DOLLAR);
    let p = put_bytes(buf, m, t);
    let q = put_char(buf, p, DOLLAR);
    Put {
        n: q,
        prev_was_whitespace: white,
    }
}

// Puts a character's upper case.
fn put_upper(buf: &mut [u8], n: usize, code: u32) -> usize
    requires { (code < 0x110000) × (n + length (upper_specs.upper_out code) ≤ length buf.old) }
    ensures { (result ≡ n + length (upper_specs.upper_out code)) × (buf.new ≡ sets buf.old n (upper_specs.upper_out code)) }
{
    match chars::to_uppercase(code) {
        Upper::One(a) => put_char(buf, n, a),
        Upper::Two(a, b) => {
            let m = put_char(buf, n, a);
            put_char(buf, m, b)
        }
    }
}

// Puts a text in upper case, in place: no character's upper case has another number of bytes.
fn upper_each(buf: &mut [u8])
    ensures { buf.new ≡ sets buf.old 0 (upper_specs.uppercase buf.old) }
{
    let mut i = 0;
    while let Decoded::Char { code, len: _ } = chars::decode_at(buf, i) {
        i = put_upper(buf, i, code);
    }
}

// The same of a text whose bytes are characters.
fn upper_bytes(buf: &mut [u8])
    requires { plain_specs.all_ascii buf.old ≡ true }
    ensures { buf.new ≡ sets buf.old 0 (upper_specs.uppercase buf.old) }
{
    for b in buf.iter_mut() {
        *b = plain_byte(true, *b);
    }
}

// A byte in upper case behind another, in a text of characters up to U+00FF.
fn raise(p: u8, b: u8) -> u8
    ensures { result ≡ latin_specs.raised p b }
{
    let lower = (p == 0xC3) & ((0xA0 <= b) & (b != 0xB7));
    if lower {
        return b - 32;
    }
    plain_byte(true, b)
}

// The same of a text of characters up to U+00FF, if each one's upper case is itself or 32 below it.
fn upper_latin(buf: &mut [u8])
    requires { (latin_specs.all_latin 0 buf.old ≡ true) × (latin_specs.none_odd 0 buf.old ≡ true) }
    ensures { buf.new ≡ sets buf.old 0 (upper_specs.uppercase buf.old) }
{
    let mut p = 0;
    for b in buf.iter_mut() {
        let before = *b;
        *b = raise(p, before);
        p = before;
    }
}

// The same of any text. A look at each byte before any is decoded pays on a long one.
fn upper_all(buf: &mut [u8])
    ensures { buf.new ≡ sets buf.old 0 (upper_specs.uppercase buf.old) }
{
    if all_ascii(buf) {
        upper_bytes(buf);
        return;
    }
    if 32 <= buf.len() {
        if all_latin(buf) {
            if none_odd(buf) {
                upper_latin(buf);
                return;
            }
        }
    }
    upper_each(buf);
}

// Whether each byte is a character by itself, so that nothing need be decoded. No byte decides where the loop goes on: the compiler then
// takes many at once.
fn all_ascii(t: &[u8]) -> bool
    ensures { result ≡ plain_specs.all_ascii t.now }
{
    let mut ok = true;
    for b in t {
        ok = ok & (*b < 0x80);
    }
    ok
}

// Whether a byte begins a character from U+0080 to U+00FF.
fn is_lead(b: u8) -> bool
    ensures { result ≡ latin_specs.is_lead b }
{
    (0xC2 <= b) & (b <= 0xC3)
}

// Whether a byte may stand behind another in a text of characters up to U+00FF.
fn may_follow(p: u8, b: u8) -> bool
    ensures { result ≡ latin_specs.may_follow p b }
{
    let open = is_lead(p);
    let opens = is_lead(b);
    (open & ((0x80 <= b) & (b < 0xC0))) | (!open & ((b < 0x80) | opens))
}

// Whether a text has such characters alone, many bytes at once as well.
fn all_latin(t: &[u8]) -> bool
    ensures { result ≡ latin_specs.all_latin 0 t.now }
{
    let mut ok = true;
    let mut p = 0;
    for &b in t {
        ok = ok & may_follow(p, b);
        p = b;
    }
    let open = is_lead(p);
    ok & !open
}

// Whether two bytes are a character whose upper case is neither itself nor 32 below it.
fn is_odd(p: u8, b: u8) -> bool
    ensures { result ≡ latin_specs.is_odd p b }
{
    ((p == 0xC2) & (b == 0xB5)) | ((p == 0xC3) & ((b == 0x9F) | (b == 0xBF)))
}

// Whether there is none, many bytes at once as well.
fn none_odd(t: &[u8]) -> bool
    ensures { result ≡ latin_specs.none_odd 0 t.now }
{
    let mut ok = true;
    let mut p = 0;
    for &b in t {
        let odd = is_odd(p, b);
        ok = ok & !odd;
        p = b;
    }
    ok
}

// Whether each byte is above the line breaks. One test a byte, and no other, is taken for many bytes at once.
fn all_unbroken(t: &[u8]) -> bool
    ensures { result ≡ plain_specs.all_unbroken t.now }
{
    let mut ok = true;
    for b in t {
        ok = ok & (b'\r' < *b);
    }
    ok
}

// An ASCII byte in upper case, where that is asked.
fn plain_byte(upper: bool, b: u8) -> u8
    ensures { result ≡ plain_specs.plain_byte upper b }
{
    if upper {
        if b'a' <= b {
            if b <= b'z' {
                return b - 32;
            }
        }
    }
    b
}

// Puts one byte of a plain list. A byte above the space is no white space and no line break, and is looked at first.
fn put_plain_byte(buf: &mut [u8], n: usize, upper: bool, white: bool, b: u8) -> Put
    requires { (n < length buf.old) × (b < 0x80) }
    ensures { (result.n ≡ n + length (plain_specs.plain_out upper white b)) × (result.prev_was_whitespace ≡ is_whitespace b) × (buf.new ≡ sets buf.old n (plain_specs.plain_out upper white b)) }
{
    let u = plain_byte(upper, b);
    if b' ' < b {
        buf[n] = u;
        return Put {
            n: n + 1,
            prev_was_whitespace: false,
        };
    }
    let code = wide(b);
    if is_break(code) {
        if white {
            return Put {
                n,
                prev_was_whitespace: true,
            };
        }
        buf[n] = b' ';
        return Put {
            n: n + 1,
            prev_was_whitespace: true,
        };
    }
    let w = chars::is_whitespace(code);
    buf[n] = u;
    Put {
        n: n + 1,
        prev_was_whitespace: w,
    }
}

// Puts a plain list in one pass, in upper case where that is asked. `put_plain` is the same, and quicker on a long one.
fn put_plain_each(buf: &mut [u8], t: &[u8], upper: bool) -> usize
    requires { (length t.now ≤ length buf.old) × (plain_specs.all_ascii t.now ≡ true) }
    ensures { (result ≡ length (plain_specs.plain_text upper false t.now)) × (buf.new ≡ sets buf.old 0 (plain_specs.plain_text upper false t.now)) }
{
    let mut m = 0;
    let mut w = false;
    for b in t {
        let p = put_plain_byte(buf, m, upper, w, *b);
        m = p.n;
        w = p.prev_was_whitespace;
    }
    m
}

// Puts a text without a line break: a copy, in upper case where that is asked.
fn put_whole(buf: &mut [u8], t: &[u8], upper: bool) -> usize
    requires t_in_bounds { (length t.now ≤ length buf.old) × (plain_specs.all_ascii t.now ≡ true) }
    requires t_value { plain_specs.all_unbroken t.now ≡ true }
    ensures { (result ≡ length (plain_specs.plain_text upper false t.now)) × (buf.new ≡ sets buf.old 0 (plain_specs.plain_text upper false t.now)) }
{
    let n = put_bytes(buf, 0, t);
    if upper {
        upper_bytes(&mut buf[..n]);
    }
    n
}

// Puts a plain list. A look at each byte before it is copied pays on a long one.
fn put_plain(buf: &mut [u8], t: &[u8], upper: bool) -> usize
    requires { (length t.now ≤ length buf.old) × (plain_specs.all_ascii t.now ≡ true) }
    ensures { (result ≡ length (plain_specs.plain_text upper false t.now)) × (buf.new ≡ sets buf.old 0 (plain_specs.plain_text upper false t.now)) }
{
    if 32 <= t.len() {
        if all_unbroken(t) {
            return put_whole(buf, t, upper);
        }
    }
    put_plain_each(buf, t, upper)
}

// Whether no chunk of a table is Math: the kinds alone are looked at, many at once as well.
fn no_math(table: &[u64]) -> bool
    requires { length table.now % 4 ≡ 0 }
    ensures { result ≡ chunks_specs.no_math (chunks_specs.chunks_of table.now) }
{
    let mut ok = true;
    for k in 0..table.len() / 4 {
        ok = ok & (table[4 * k] <= 1);
    }
    ok
}

// Whether a byte is put as it is: above the line breaks, ASCII, and no lower-case letter where upper case is asked.
fn is_standing(upper: bool, b: u8) -> bool
    ensures { result ≡ standing_specs.is_standing upper b }
{
    let lower = (b'a' <= b) & (b <= b'z');
    ((b'\r' < b) & (b < 0x80)) & !(upper & lower)
}

// Whether each byte is, many bytes at once as well.
fn all_standing(upper: bool, t: &[u8]) -> bool
    ensures { result ≡ standing_specs.all_standing upper t.now }
{
    let mut ok = true;
    for b in t {
        ok = ok & is_standing(upper, *b);
    }
    ok
}

// A chunk list: the bytes of its chunks, one behind the other, and its table, four numbers a chunk.
#[derive(Clone, Copy)]
pub struct ChunksRef<'a> {
    pub bytes: &'a [u8],
    pub table: &'a [u64],
}

impl<'a> ChunksRef<'a> {
    // Four numbers a chunk, known kinds, and lengths that make up the bytes: else BadChunks.
    fn fits(self) -> bool
        ensures { result ≡ chunks_specs.fits self.entry.bytes.now self.entry.table.now }
    {
        if self.table.len() % 4 == 0 {
            return lengths_fit(self.table, self.bytes.len());
        }
        false
    }

    // The first ill-formed or unsupported character: the chunks and their characters in turn, left at the first fault.
    fn check_characters(self) -> Result<(), Refusal>
        requires { chunks_specs.fits self.bytes.now self.table.now ≡ true }
        ensures { result ≡ check_specs.fault_of 0 self.entry.bytes.now (chunks_specs.chunks_of self.entry.table.now) }
    {
        let mut at = 0;
        let mut found = Ok(());
        'chunks: for k in 0..self.table.len() / 4 {
            let len = self.table[4 * k + 1] as usize;
            let t = &self.bytes[at..at + len];
            let mut i = 0;
            // Kept as a loop: it moves by the length of the character that it decodes, which no range and no slice iterator steps by.
            'characters: loop {
                match chars::decode_at(t, i) {
                    Decoded::Char { code, len: n } => {
                        if chars::is_admitted(code) {
                            i = i + n;
                        } else {
                            found = faulty(Kind::UnsupportedChar, at + i, n);
                            break 'chunks;
                        }
                    }
                    Decoded::Bad => {
                        found = faulty(Kind::BadUtf8, at + i, 1);
                        break 'chunks;
                    }
                    Decoded::End => {
                        break 'characters;
                    }
                }
            }
            at = at + len;
        }
        found
    }

    // Whether the list keeps within the limits: 64 chunks and 4,096 bytes.
    fn is_short(self) -> bool
        ensures { result ≡ chunks_specs.is_short self.entry.bytes.now self.entry.table.now }
    {
        if self.table.len() / 4 <= 64 {
            return self.bytes.len() <= 4096;
        }
        false
    }

    // Whether a long list has characters up to U+00FF alone: then none is a fault. A look at each byte before any is decoded pays on a long one.
    fn is_latin(self) -> bool
        requires { chunks_specs.fits self.bytes.now self.table.now ≡ true }
        ensures { result ≡ true → check_specs.fault_of 0 self.entry.bytes.now (chunks_specs.chunks_of self.entry.table.now) ≡ (Ok tt) }
    {
        if self.bytes.len() < 32 {
            return false;
        }
        let mut at = 0;
        for k in 0..self.table.len() / 4 {
            let len = self.table[4 * k + 1] as usize;
            if !all_latin(&self.bytes[at..at + len]) {
                return false;
            }
            at = at + len;
        }
        true
    }

    // The checks of a list, in their order: the table, the limits, the characters.
    pub fn check(self) -> Result<(), Refusal>
        ensures { result ≡ check_specs.checked self.entry.bytes.now self.entry.table.now }
    {
        if self.fits() {
            if self.is_short() {
                if all_ascii(self.bytes) {
                    return Ok(());
                }
                if self.is_latin() {
                    return Ok(());
                }
                return self.check_characters();
            }
            return Err(nowhere(Kind::TooLong));
        }
        Err(nowhere(Kind::BadChunks))
    }

    // The span of a list: from its first chunk's start to its last one's end, and 0, 0 of no chunk.
    pub fn span(self) -> FileSpan
        ensures { result ≡ chunks_specs.span_of (chunks_specs.chunks_of self.entry.table.now) }
    {
        let n = self.table.len() / 4 * 4;
        if n == 0 {
            return refusals::lent_span(0, 0);
        }
        refusals::lent_span(self.table[2], self.table[n - 1])
    }

    // Puts the chunks of a list, one behind the other.
    fn put_list(self, buf: &mut [u8]) -> usize
        requires table_value { chunks_specs.fits self.bytes.now self.table.now ≡ true }
        requires table_in_bounds { answer_specs.room_of self.bytes.now self.table.now ≤ length buf.old }
        requires table_value_2 { check_specs.fault_of 0 self.bytes.now (chunks_specs.chunks_of self.table.now) ≡ (Ok tt) }
        ensures { (result ≡ length (format_specs.formatted self.entry.bytes.now self.entry.table.now)) × (buf.new ≡ sets buf.old 0 (format_specs.formatted self.entry.bytes.now self.entry.table.now)) × (result ≤ length buf.old) }
    {
        let mut at = 0;
        let mut n = 0;
        let mut w = false;
        for k in 0..self.table.len() / 4 {
            let kind = self.table[4 * k];
            let len = self.table[4 * k + 1] as usize;
            let p = put_chunk(buf, n, kind, &self.bytes[at..at + len], w);
            n = p.n;
            w = p.prev_was_whitespace;
            at = at + len;
        }
        n
    }

    // Whether a list is one Normal chunk of ASCII within the limits: the usual one, which is formatted in one pass.
    fn is_plain(self) -> bool
        ensures { result ≡ plain_specs.is_plain self.entry.bytes.now self.entry.table.now }
    {
        if self.table.len() == 4 {
            if self.table[0] == 0 {
                if self.table[1] == self.bytes.len() as u64 {
                    if self.bytes.len() <= 4096 {
                        return all_ascii(self.bytes);
                    }
                }
            }
        }
        false
    }

    // The text of any list.
    fn format_any(self, upper: bool, buf: &mut [u8]) -> Result<usize, Refusal>
        ensures value { result ≡ answer_specs.format_answer upper self.entry.bytes.now self.entry.table.now buf.old }
        ensures buf_after { buf.new ≡ answer_specs.buffer_after result (answer_specs.text_of upper self.entry.bytes.now self.entry.table.now) buf.old }
    {
        self.check()?;
        if buf.len() < self.bytes.len() + self.table.len() / 4 * 2 {
            return Err(nowhere(Kind::NoRoom));
        }
        let n = self.put_list(buf);
        if upper {
            upper_all(&mut buf[..n]);
        }
        Ok(n)
    }

    // The text of a list: the usual one in one pass, any other by the way for all.
    fn format(self, upper: bool, buf: &mut [u8]) -> Result<usize, Refusal>
        ensures value { result ≡ answer_specs.format_answer upper self.entry.bytes.now self.entry.table.now buf.old }
        ensures buf_after { buf.new ≡ answer_specs.buffer_after result (answer_specs.text_of upper self.entry.bytes.now self.entry.table.now) buf.old }
    {
        if self.is_plain() {
            if buf.len() < self.bytes.len() + 2 {
                return Err(nowhere(Kind::NoRoom));
            }
            return Ok(put_plain(buf, self.bytes, upper));
        }
        self.format_any(upper, buf)
    }

    // The formatted text of a list.
    pub fn format_verbatim(self, buf: &mut [u8]) -> Result<usize, Refusal>
        ensures value { result ≡ answer_specs.format_answer false self.entry.bytes.now self.entry.table.now buf.old }
        ensures buf_after { buf.new ≡ answer_specs.buffer_after result (answer_specs.text_of false self.entry.bytes.now self.entry.table.now) buf.old }
    {
        self.format(false, buf)
    }

    // The formatted text of a list, in upper case.
    pub fn format_uppercase(self, buf: &mut [u8]) -> Result<usize, Refusal>
        ensures value { result ≡ answer_specs.format_answer true self.entry.bytes.now self.entry.table.now buf.old }
        ensures buf_after { buf.new ≡ answer_specs.buffer_after result (answer_specs.text_of true self.entry.bytes.now self.entry.table.now) buf.old }
    {
        self.format(true, buf)
    }

    // Whether the text of a list is its bytes as they stand: it is clean and within the limits, has no Math, and each byte is ASCII, no line break, and in
    // upper case where that is asked.
    pub fn stands(self, upper: bool) -> bool
        ensures { result ≡ standing_specs.list_stands upper self.entry.bytes.now self.entry.table.now }
    {
        if self.fits() {
            if self.is_short() {
                if no_math(self.table) {
                    return all_standing(upper, self.bytes);
                }
            }
        }
        false
    }
}
