// The answer to a frame, as a line of hexadecimal digits in a buffer that the caller lends. The functions that put a text at a place of
// a buffer with the room for it give the place behind it.
#![tactic(auto)]

ghost use Rattle.std.specs.Prelude.{◌≡◌, false, [], ◌∷◌, ◌+◌, ◌*◌, ◌/◌, ◌%◌, ◌≤◌, ◌<◌, ltb, length, Ok};
ghost use Rattle.puts.specs.Answers as writing;
ghost use Rattle.puts.specs.Answers.{Put, Tried};
ghost use Rattle.answers.specs.Answer as spec;
ghost use Rattle.answers.specs.Shapes as shapes;
ghost use Rattle.answers.specs.Coded as coded;
ghost use Rattle.answers.specs.Lengths as lengths;

use codes::Words;
use dates::{Date, DateValue, Datetime, Day, Month, Time, TimeOffset, season_number};
use refusals::{Kind, Refusal};

// ---- the bytes of an answer

// A number in four bytes.
fn word(n: u32) -> [u8; 4]
    ensures { result ≡ spec.word_bytes n }
{
    [
        (n / 16777216 % 256) as u8,
        (n / 65536 % 256) as u8,
        (n / 256 % 256) as u8,
        (n % 256) as u8,
    ]
}

// A stored month; ff if it is absent.
#[tactic(auto, unfolding(crate::specs::Answer::month_byte))]
fn month_byte(m: Option<Month>) -> u8
    ensures { result ≡ spec.month_byte m }
{
    match m {
        None => 255,
        Some(m) => m.0,
    }
}

// A stored day; ff if it is absent.
#[tactic(auto, unfolding(crate::specs::Answer::day_byte))]
fn day_byte(d: Option<Day>) -> u8
    ensures { result ≡ spec.day_byte d }
{
    match d {
        None => 255,
        Some(d) => d.0,
    }
}

// The kind of an offset that is there, its hours and its minutes.
fn shift_bytes(o: TimeOffset) -> [u8; 3]
    ensures { result ≡ spec.shift_bytes o }
{
    match o {
        TimeOffset::Utc => [1, 0, 0],
        TimeOffset::Offset {
            positive,
            hours,
            minutes,
        } => {
            if positive {
                return [2, hours, minutes];
            }
            [3, hours, minutes]
        }
    }
}

// The same of one that may be absent.
#[tactic(auto, unfolding(crate::specs::Answer::offset_bytes))]
fn offset_bytes(o: Option<TimeOffset>) -> [u8; 3]
    ensures { result ≡ spec.offset_bytes o }
{
    match o {
        None => [0, 0, 0],
        Some(o) => shift_bytes(o),
    }
}

// A time, and its offset; zeros if it is absent.
fn time_bytes(t: Option<Time>) -> [u8; 7]
    ensures { result ≡ spec.time_bytes t }
{
    match t {
        None => [0, 0, 0, 0, 0, 0, 0],
        Some(t) => {
            let offset = t.offset;
            let o = offset_bytes(offset);
            [1, t.hour, t.minute, t.second, o[0], o[1], o[2]]
        }
    }
}

// A Datetime, in 13 bytes whatever it has: what is absent is ff or zeros.
fn datetime_bytes(d: Datetime) -> [u8; 13]
    ensures { result ≡ spec.datetime_bytes d }
{
    let month = d.month;
    let day = d.day;
    let time = d.time;
    let y = word(codes::twos(d.year));
    let t = time_bytes(time);
    [
        y[0],
        y[1],
        y[2],
        y[3],
        month_byte(month),
        day_byte(day),
        t[0],
        t[1],
        t[2],
        t[3],
        t[4],
        t[5],
        t[6],
    ]
}

// A mark is 1 where it stands.
fn bit(b: bool) -> u8
    ensures { result ≡ spec.bit b }
{
    if b {
        return 1;
    }
    0
}

// The marks, packed: bit 0 uncertain, bit 1 approximate.
fn marks(uncertain: bool, approximate: bool) -> u8
    ensures { result ≡ spec.marks uncertain approximate }
{
    bit(uncertain) & 1 | (bit(approximate) & 1) << 1
}

// ---- the line

// Both digits of a byte as one number, the high one lowest. Six more carry out of a half just where its digit is a letter, and small letters stand 39
// behind where the digits would go on: so no test decides between them.
fn pair(b: u8) -> u16
    ensures { (result % 256 ≡ spec.glyph (b / 16)) × (result / 256 ≡ spec.glyph (b % 16)) }
{
    let halves = (b / 16) as u16 + 256 * ((b % 16) as u16);
    let letters = (halves + 0x0606) / 16 & 0x0101;
    halves + 0x3030 + 39 * letters
}

// The high digit of a byte.
pub fn high(b: u8) -> u8
    ensures { result ≡ spec.glyph (b / 16) }
{
    (pair(b) % 256) as u8
}

// The digit behind it.
pub fn low(b: u8) -> u8
    ensures { result ≡ spec.glyph (b % 16) }
{
    (pair(b) / 256) as u8
}

// Bytes as digits.
fn put_hex(t: &[u8], out: &mut [u8], at: usize) -> usize
    requires { at + 2 * length t.now ≤ length out.old }
    ensures { Put (spec.hex_text t.now) out.old at out.new result }
{
    for (i, &b) in t.iter().enumerate() {
        let d = pair(b);
        out[at + 2 * i] = (d % 256) as u8;
        out[at + 2 * i + 1] = (d / 256) as u8;
    }
    at + 2 * t.len()
}

// Each answer ends its line, so that an answer can be read as soon as it is written.
fn end_line(out: &mut [u8], at: usize) -> usize
    requires { at + 1 ≤ length out.old }
    ensures { Put (10 ∷ []) out.old at out.new result }
{
    out[at] = 10;
    at + 1
}

// One end of a Date; by level one its season comes last.
fn put_end(level: bool, d: Datetime, out: &mut [u8], at: usize) -> usize
    requires { at + 2 * length (spec.end_bytes level d) ≤ length out.old }
    ensures { Put (spec.hex_text (spec.end_bytes level d)) out.old at out.new result }
{
    let k = put_hex(&datetime_bytes(d), out, at);
    if level {
        let season = d.season;
        return put_hex(&[season_number(season)], out, k);
    }
    k
}

// The line of a Date with one Datetime, whose written text is given.
fn put_one(level: bool, shape: u8, marks: u8, d: Datetime, text: &[u8], out: &mut [u8]) -> usize
    requires { length (shapes.one_line level shape marks d text.now) ≤ length out.old }
    ensures { Put (shapes.one_line level shape marks d text.now) out.old 0 out.new result }
{
    let i = put_hex(&[0, shape, marks], out, 0);
    let j = put_end(level, d, out, i);
    let k = put_hex(text, out, j);
    end_line(out, k)
}

// The same with two.
fn put_two(level: bool, marks: u8, a: Datetime, b: Datetime, text: &[u8], out: &mut [u8]) -> usize
    requires { length (shapes.two_line level marks a b text.now) ≤ length out.old }
    ensures { Put (shapes.two_line level marks a b text.now) out.old 0 out.new result }
{
    let h = put_hex(&[0, 3, marks], out, 0);
    let i = put_end(level, a, out, h);
    let j = put_end(level, b, out, i);
    let k = put_hex(text, out, j);
    end_line(out, k)
}

// A byte.
fn put_byte(b: u8, out: &mut [u8], at: usize) -> usize
    requires { at + 2 ≤ length out.old }
    ensures { Put (spec.hex_text (b ∷ [])) out.old at out.new result }
{
    let d = pair(b);
    out[at] = (d % 256) as u8;
    out[at + 1] = (d / 256) as u8;
    at + 2
}

// Three bytes.
fn put_three(a: u8, b: u8, c: u8, out: &mut [u8], at: usize) -> usize
    requires { at + 6 ≤ length out.old }
    ensures { Put (spec.hex_text (a ∷ b ∷ c ∷ [])) out.old at out.new result }
{
    let i = put_byte(a, out, at);
    let j = put_byte(b, out, i);
    put_byte(c, out, j)
}

// Four.
fn put_four(a: u8, b: u8, c: u8, d: u8, out: &mut [u8], at: usize) -> usize
    requires { at + 8 ≤ length out.old }
    ensures { Put (spec.hex_text (a ∷ b ∷ c ∷ d ∷ [])) out.old at out.new result }
{
    let i = put_byte(a, out, at);
    put_three(b, c, d, out, i)
}

// A number in four bytes; what does not fit them is left out.
fn put_quad(n: u64, out: &mut [u8], at: usize) -> usize
    requires { at + 8 ≤ length out.old }
    ensures { Put (spec.hex_text (spec.word_bytes n)) out.old at out.new result }
{
    put_four(
        (n / 16777216 % 256) as u8,
        (n / 65536 % 256) as u8,
        (n / 256 % 256) as u8,
        (n % 256) as u8,
        out,
        at,
    )
}

// A number in eight bytes.
fn put_long(n: u64, out: &mut [u8], at: usize) -> usize
    requires { at + 16 ≤ length out.old }
    ensures { Put (spec.hex_text (spec.long_bytes n)) out.old at out.new result }
{
    let k = put_quad(n / 4294967296, out, at);
    put_quad(n % 4294967296, out, k)
}

// The line of a refusal, which is always as long.
fn put_refused(number: u8, start: u64, end: u64, out: &mut [u8]) -> usize
    requires { 35 ≤ length out.old }
    ensures { Put (spec.line_of (spec.refusal_bytes number start end)) out.old 0 out.new result }
{
    let i = put_byte(number, out, 0);
    let j = put_long(start, out, i);
    let k = put_long(end, out, j);
    end_line(out, k)
}

// ---- by words

// A month or a day, by the number that says whether it is there; ff if it is not.
fn part_byte(has: u64, n: u8) -> u8
    ensures { result ≡ coded.part_byte has n }
{
    if has == 0 {
        return 255;
    }
    n
}

// The month and the day of a Datetime's first word.
fn put_parts(w: u64, out: &mut [u8], at: usize) -> usize
    requires { at + 4 ≤ length out.old }
    ensures { Put (spec.hex_text (coded.part_bytes w)) out.old at out.new result }
{
    let month = part_byte(w / 4294967296 % 256, (w / 1099511627776 % 256) as u8);
    let day = part_byte(
        w / 281474976710656 % 256,
        (w / 72057594037927936 % 256) as u8,
    );
    let k = put_byte(month, out, at);
    put_byte(day, out, k)
}

// The time of the second; most Datetimes have none.
fn put_clock(t: u64, out: &mut [u8], at: usize) -> usize
    requires { at + 14 ≤ length out.old }
    ensures { Put (spec.hex_text (coded.clock_bytes t)) out.old at out.new result }
{
    if t == 0 {
        let k = put_four(0, 0, 0, 0, out, at);
        return put_three(0, 0, 0, out, k);
    }
    let k = put_four(
        (t % 256) as u8,
        (t / 256 % 256) as u8,
        (t / 65536 % 256) as u8,
        (t / 16777216 % 256) as u8,
        out,
        at,
    );
    put_three(
        (t / 4294967296 % 256) as u8,
        (t / 1099511627776 % 256) as u8,
        (t / 281474976710656 % 256) as u8,
        out,
        k,
    )
}

// A Datetime.
fn put_coded(w: u64, t: u64, out: &mut [u8], at: usize) -> usize
    requires { at + 26 ≤ length out.old }
    ensures { Put (spec.hex_text (coded.coded_end w t)) out.old at out.new result }
{
    let i = put_quad(w, out, at);
    let k = put_parts(w, out, i);
    put_clock(t, out, k)
}

// What comes before them: 00, the shape and the marks.
fn put_head(last: u64, out: &mut [u8]) -> usize
    requires { 6 ≤ length out.old }
    ensures { Put (spec.hex_text (0 ∷ coded.coded_shape last ∷ coded.coded_marks last ∷ [])) out.old 0 out.new result }
{
    put_three(
        0,
        (last % 4) as u8,
        (last / 256 % 2 + 2 * (last / 65536 % 2)) as u8,
        out,
        0,
    )
}

// The line of a Date with one Datetime, whose written text is given.
fn put_one_coded(w: Words, text: &[u8], out: &mut [u8]) -> usize
    requires { 2 * (16 + length text.now) + 1 ≤ length out.old }
    ensures { Put (coded.one_coded w text.now) out.old 0 out.new result }
{
    let i = put_head(w.last, out);
    let j = put_coded(w.first, w.first_time, out, i);
    let k = put_hex(text, out, j);
    end_line(out, k)
}

// The same with two.
fn put_two_coded(w: Words, text: &[u8], out: &mut [u8]) -> usize
    requires { 2 * (29 + length text.now) + 1 ≤ length out.old }
    ensures { Put (coded.two_coded w text.now) out.old 0 out.new result }
{
    let h = put_head(w.last, out);
    let i = put_coded(w.first, w.first_time, out, h);
    let j = put_coded(w.second, w.second_time, out, i);
    let k = put_hex(text, out, j);
    end_line(out, k)
}

// ---- the calls

// There is no room for the line.
fn no_room() -> Result<usize, Refusal>
    ensures { result ≡ writing.decided (Ok 1) 0 }
{
    Err(refusals::nowhere(Kind::NoRoom))
}

// The line of a refusal by its number, with its place, if there is room for it.
fn write_number(number: u8, start: u64, end: u64, out: &mut [u8]) -> Result<usize, Refusal>
    ensures value { result ≡ writing.answer false (spec.line_of (spec.refusal_bytes number start end)) (length out.old) }
    ensures out_after { out.new ≡ writing.afterwards false (spec.line_of (spec.refusal_bytes number start end)) out.old }
{
    if out.len() < 35 {
        return no_room();
    }
    Ok(put_refused(number, start, end, out))
}

// The line of a refusal.
fn write_refused(e: Refusal, out: &mut [u8]) -> Result<usize, Refusal>
    ensures value { result ≡ writing.answer false (spec.refused_line e) (length out.old) }
    ensures out_after { out.new ≡ writing.afterwards false (spec.refused_line e) out.old }
{
    let kind = e.kind;
    let place = e.place;
    write_number(refusals::number(kind), place.0, place.1, out)
}

// Whether a buffer is shorter than the line of so many bytes and a text.
fn is_short(room: usize, bytes: usize, text: usize) -> bool
    requires { bytes ≤ 31 }
    ensures { result ≡ ltb room (2 * (bytes + text) + 1) }
{
    let least = 2 * bytes + 1;
    if room < least {
        return true;
    }
    (room - least) / 2 < text
}

// How many bytes one end of a Date has.
fn end_length(level: bool) -> usize
    ensures { result ≡ spec.end_length level }
{
    if level { 14 } else { 13 }
}

// The line of a Date with one Datetime, by the numbers of its shape and its marks, whose written text is given, if there is room for it.
fn write_one(
    level: bool,
    shape: u8,
    marks: u8,
    d: Datetime,
    text: &[u8],
    out: &mut [u8],
) -> Result<usize, Refusal>
    ensures value { result ≡ writing.answer false (shapes.one_line level shape marks d text.now) (length out.old) }
    ensures out_after { out.new ≡ writing.afterwards false (shapes.one_line level shape marks d text.now) out.old }
{
    if is_short(out.len(), 3 + end_length(level), text.len()) {
        return no_room();
    }
    Ok(put_one(level, shape, marks, d, text, out))
}

// The same of a range with two.
fn write_two(
    level: bool,
    marks: u8,
    a: Datetime,
    b: Datetime,
    text: &[u8],
    out: &mut [u8],
) -> Result<usize, Refusal>
    ensures value { result ≡ writing.answer false (shapes.two_line level marks a b text.now) (length out.old) }
    ensures out_after { out.new ≡ writing.afterwards false (shapes.two_line level marks a b text.now) out.old }
{
    if is_short(out.len(), 3 + 2 * end_length(level), text.len()) {
        return no_room();
    }
    Ok(put_two(level, marks, a, b, text, out))
}

// The line of a Date, whose written text is given, if there is room for it.
fn write_accepted(level: bool, d: Date, text: &[u8], out: &mut [u8]) -> Result<usize, Refusal>
    ensures value { result ≡ writing.answer false (spec.accepted_line level d text.now) (length out.old) }
    ensures out_after { out.new ≡ writing.afterwards false (spec.accepted_line level d text.now) out.old }
{
    let v = d.value;
    let m = marks(d.uncertain, d.approximate);
    match v {
        DateValue::At(a) => write_one(level, 0, m, a, text, out),
        DateValue::After(a) => write_one(level, 1, m, a, text, out),
        DateValue::Before(a) => write_one(level, 2, m, a, text, out),
        DateValue::Between(a, b) => write_two(level, m, a, b, text, out),
    }
}

// The line of a Date, with its text written.
fn write_with_text(d: Date, out: &mut [u8]) -> Result<usize, Refusal>
    ensures value { result ≡ writing.answer false (spec.answer_line (Ok d)) (length out.old) }
    ensures out_after { out.new ≡ writing.afterwards false (spec.answer_line (Ok d)) out.old }
{
    let mut text = [0u8; 40];
    match writer::write_text(d, &mut text) {
        Ok(n) => write_accepted(false, d, &text[..n], out),
        Err(e) => write_refused(e, out),
    }
}

// The line of a Date, which is measured first; where it has no written text, that of the refusal.
fn write_date(d: Date, out: &mut [u8]) -> Result<usize, Refusal>
    ensures value { result ≡ writing.answer false (spec.answer_line (Ok d)) (length out.old) }
    ensures out_after { out.new ≡ writing.afterwards false (spec.answer_line (Ok d)) out.old }
{
    match writer::date_length(d) {
        Ok(_) => write_with_text(d, out),
        Err(e) => write_refused(e, out),
    }
}

// The line of what a reader answered, at the front of the lent buffer; without room for it nothing is stored.
#[tactic(auto, unfolding(crate::specs::Answer::answer_line))]
pub fn write_answer(r: Result<Date, Refusal>, out: &mut [u8]) -> Result<usize, Refusal>
    ensures value { result ≡ writing.answer false (spec.answer_line r) (length out.old) }
    ensures out_after { out.new ≡ writing.afterwards false (spec.answer_line r) out.old }
{
    match r {
        Ok(d) => write_date(d, out),
        Err(e) => write_refused(e, out),
    }
}

// The line of a Date by level one, with its text written.
fn write_level_date(d: Date, out: &mut [u8]) -> Result<usize, Refusal>
    ensures value { result ≡ writing.answer false (spec.level_line (Ok d)) (length out.old) }
    ensures out_after { out.new ≡ writing.afterwards false (spec.level_line (Ok d)) out.old }
{
    let mut text = [0u8; 42];
    match writer::write_level(d, &mut text) {
        Ok(n) => write_accepted(true, d, &text[..n], out),
        Err(e) => write_refused(e, out),
    }
}

// The line of what the reader of level one answered, likewise.
#[tactic(auto, unfolding(crate::specs::Answer::level_line))]
pub fn write_level_answer(r: Result<Date, Refusal>, out: &mut [u8]) -> Result<usize, Refusal>
    ensures value { result ≡ writing.answer false (spec.level_line r) (length out.old) }
    ensures out_after { out.new ≡ writing.afterwards false (spec.level_line r) out.old }
{
    match r {
        Ok(d) => write_level_date(d, out),
        Err(e) => write_refused(e, out),
    }
}

// The line of a Date, by its words, whose written text is given, if there is room for it: its length, which is handed on in a register, or 0.
pub fn put_words(w: Words, text: &[u8], out: &mut [u8]) -> usize
    ensures { Tried (coded.words_line w text.now) out.old 0 out.new result }
{
    if w.last % 4 == 3 {
        if is_short(out.len(), 29, text.len()) {
            return 0;
        }
        return put_two_coded(w, text, out);
    }
    if is_short(out.len(), 16, text.len()) {
        return 0;
    }
    put_one_coded(w, text, out)
}

// What is answered where a line of so many bytes was put; no line is empty, so that 0 says that there was no room.
pub fn written(n: usize) -> Result<usize, Refusal>
    ensures { result ≡ lengths.answered n }
{
    if n == 0 {
        return no_room();
    }
    Ok(n)
}

// The same as an answer.
pub fn write_words(w: Words, text: &[u8], out: &mut [u8]) -> Result<usize, Refusal>
    ensures value { result ≡ writing.answer false (coded.words_line w text.now) (length out.old) }
    ensures out_after { out.new ≡ writing.afterwards false (coded.words_line w text.now) out.old }
{
    let n = put_words(w, text, out);
    written(n)
}

// The line of a refusal, by its words, if there is room for it.
pub fn write_refused_words(w: Words, out: &mut [u8]) -> Result<usize, Refusal>
    ensures value { result ≡ writing.answer false (coded.refused_words w) (length out.old) }
    ensures out_after { out.new ≡ writing.afterwards false (coded.refused_words w) out.old }
{
    write_number((w.last / 4294967296 % 256) as u8, w.start, w.end, out)
}
