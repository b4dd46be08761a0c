// Usual texts as words: numbers that are handed on in registers, where a Date would go through memory, byte by byte in and word by word out. What is
// said here at once is what the readers say (`code_laws`); other texts are for them.
#![tactic(auto)]

ghost use Rattle.std.specs.Prelude.{◌≡◌, ◌+◌, ◌*◌, ◌%◌, ◌≤◌, ◌<◌, length, take, pos, true, [], ◌∷◌, None};
ghost use Rattle.std.specs.Int.Signed.{mag};
ghost use Rattle.datefield.specs.Text.{last_byte, is_uncertain, is_approximate, unmarked};
ghost use Rattle.codes.specs.Words as words;
ghost use Rattle.codes.specs.Points as spec;
ghost use Rattle.codes.specs.Texts as texts;
ghost use Rattle.codes.specs.Ported as ported_specs;
ghost use Rattle.codes.specs.Parts as parts;
ghost use Rattle.codes.specs.Typed as typed;
ghost use Rattle.refusals.specs.Offset.{saturating_add};
ghost use Rattle.points.specs.Point.{windowed};
ghost use Rattle.fields.specs.Year.{before_christ};
ghost use Rattle.codes.specs.Words.{words_of};
ghost use Rattle.codes.specs.Typed.{Typed};
ghost use Rattle.codes.specs.Unpacked as unpacked;
ghost use Rattle.chars.specs.Pick.{pick};
ghost use Rattle.puts.specs.Answers.{Put};
ghost use Rattle.puts.specs.Marks.{mark_text};
ghost use Rattle.puts.specs.Numbers.{digits};
ghost use Rattle.codes.specs.Back as back;

use chars::is_digit;
use datefield::is_dots;
use dates::{Date, DateValue, Datetime, Day, Month, Season, Time, TimeOffset};
use puts::put_mark;
use refusals::{Refusal, kind_of, lent_span};

// Where nothing is said.
pub const NOTHING: u64 = 0xFFFFFFFFFFFFFFFF;

// What a reader answers, in seven words: the place of a refusal, two words for each Datetime, and the last with the shape, the marks and the refusal.
#[derive(Clone, Copy)]
pub struct Words {
    pub start: u64,
    pub end: u64,
    pub first: u64,
    pub first_time: u64,
    pub second: u64,
    pub second_time: u64,
    pub last: u64,
}

// The words of an answer whose place, where it is a refusal, is one in the text: `moved` alone makes an answer of them, with the place in the file.
#[derive(Clone, Copy)]
pub struct TextWords(pub Words);

// ---- points

// The number that two digits say; 100 for bytes that are none.
fn two(a: u8, b: u8) -> u8
    ensures { (result ≡ spec.two_of a b) × (result ≤ 100) }
{
    if is_digit(a) {
        if is_digit(b) {
            return (a - 48) * 10 + (b - 48);
        }
    }
    100
}

fn wide(n: u8) -> u16
    ensures { result ≡ n }
{
    n as u16
}

// The number that four digits say; 10000 for bytes that are none.
fn four(a: u8, b: u8, c: u8, d: u8) -> u16
    ensures { result ≡ spec.four_of a b c d }
{
    let high = two(a, b);
    let low = two(c, d);
    if high < 100 {
        if low < 100 {
            return wide(high) * 100 + wide(low);
        }
    }
    10000
}

// The year at the front of a text.
fn year(s: &[u8]) -> u16
    requires { 4 ≤ length s.now }
    ensures { result ≡ spec.year_of s.now }
{
    four(s[0], s[1], s[2], s[3])
}

// A hyphen and two digits at a place, counted from zero; 99 or more for bytes that are none, and for 00.
fn part_at(s: &[u8], at: usize) -> u8
    requires { at + 3 ≤ length s.now }
    ensures { result ≡ spec.part_at s.now at }
{
    if s[at] != b'-' {
        return 100;
    }
    let n = two(s[at + 1], s[at + 2]);
    if n == 0 {
        return 100;
    }
    n - 1
}

fn signed(n: u16) -> i32
    ensures { result ≡ pos n }
{
    n as i32
}

// A year in two's complement.
pub fn twos(year: i32) -> u32
    ensures { result ≡ words.twos year }
{
    if year < 0 {
        let y = year as i64;
        return u32::MAX - ((0 - y) as u32 - 1);
    }
    year as u32
}

// A year and a month, counted from zero, as a word.
fn with_month(y: u16, m: u8) -> u64
    ensures { result ≡ words.day_word_of (pos y) 1 m 0 0 }
{
    y as u64 + 4294967296 + 1099511627776 * (m as u64)
}

// The same with a day.
fn with_day(y: u16, m: u8, d: u8) -> u64
    ensures { result ≡ words.day_word_of (pos y) 1 m 1 d }
{
    with_month(y, m) + 281474976710656 + 72057594037927936 * (d as u64)
}

// dddd
fn year_word(s: &[u8]) -> u64
    requires { 4 ≤ length s.now }
    ensures { result ≡ words.point_word (spec.year_point s.now) }
{
    let y = year(s);
    if y < 10000 {
        return y as u64;
    }
    NOTHING
}

// dddd-mm
fn month_word(s: &[u8]) -> u64
    requires { 7 ≤ length s.now }
    ensures { result ≡ words.point_word (spec.month_point s.now) }
{
    let y = year(s);
    let m = part_at(s, 4);
    if y < 10000 {
        if m < 12 {
            return with_month(y, m);
        }
    }
    NOTHING
}

// dddd-mm-dd at the front, whatever stands behind it.
fn day_word(s: &[u8]) -> u64
    requires { 10 ≤ length s.now }
    ensures { result ≡ words.point_word (spec.day_point s.now None) }
{
    let y = year(s);
    let m = part_at(s, 4);
    let d = part_at(s, 7);
    if y < 10000 {
        if m < 12 {
            if d < dates::days_in_month(Month(m), signed(y)) {
                return with_day(y, m, d);
            }
        }
    }
    NOTHING
}

// A point: dddd, dddd-mm or dddd-mm-dd.
fn point(s: &[u8]) -> u64
    ensures { result ≡ words.point_word (spec.point_of s.now) }
{
    let n = s.len();
    if n == 4 {
        return year_word(s);
    }
    if n == 7 {
        return month_word(s);
    }
    if n == 10 {
        return day_word(s);
    }
    NOTHING
}

// Four bytes as a number: the first is the lowest.
pub fn four_bytes(a: u8, b: u8, c: u8, d: u8) -> u64
    ensures { (result ≡ words.four_bytes a b c d) × (result < 4294967296) }
{
    a as u64 + 256 * (b as u64) + 65536 * (c as u64) + 16777216 * (d as u64)
}

// Thh:mm:ss behind the day.
fn clock(s: &[u8]) -> u64
    requires { 19 ≤ length s.now }
    ensures { result ≡ words.clock_word (spec.is_clock s.now) (spec.two_at s.now 11) (spec.two_at s.now 14) (spec.two_at s.now 17) }
{
    let h = two(s[11], s[12]);
    let m = two(s[14], s[15]);
    let c = two(s[17], s[18]);
    if s[10] != b'T' {
        return NOTHING;
    }
    if 24 <= h {
        return NOTHING;
    }
    if s[13] != b':' {
        return NOTHING;
    }
    if 60 <= m {
        return NOTHING;
    }
    if s[16] != b':' {
        return NOTHING;
    }
    if 60 <= c {
        return NOTHING;
    }
    four_bytes(1, h, m, c)
}

// hh:mm behind a sign.
fn shift(s: &[u8], sort: u8) -> u64
    requires { 25 ≤ length s.now }
    ensures { result ≡ words.shift_word (spec.is_shift s.now) sort (spec.two_at s.now 20) (spec.two_at s.now 23) }
{
    let h = two(s[20], s[21]);
    let m = two(s[23], s[24]);
    if 24 <= h {
        return NOTHING;
    }
    if s[22] != b':' {
        return NOTHING;
    }
    if 60 <= m {
        return NOTHING;
    }
    4294967296 * four_bytes(sort, h, m, 0)
}

// What stands behind the seconds.
fn zone(s: &[u8]) -> u64
    requires { 19 ≤ length s.now }
    ensures { result ≡ words.zone_word (spec.zone_of s.now) }
{
    let n = s.len();
    if n == 19 {
        return 0;
    }
    let b = s[19];
    if n == 20 {
        if b == b'Z' {
            return 4294967296;
        }
        return NOTHING;
    }
    if n == 25 {
        if b == b'+' {
            return shift(s, 2);
        }
        if b == b'-' {
            return shift(s, 3);
        }
    }
    NOTHING
}

// ---- texts

// Whether a slash stands at a place.
fn slash_at(s: &[u8], at: usize) -> bool
    ensures { result ≡ texts.is_slash s.now at }
{
    if at < s.len() {
        return s[at] == b'/';
    }
    false
}

// Where a slash stands, if it stands behind a point or behind two dots.
fn slash_of(s: &[u8]) -> usize
    ensures { result ≡ texts.slash_of s.now }
{
    if slash_at(s, 4) {
        return 4;
    }
    if slash_at(s, 7) {
        return 7;
    }
    if slash_at(s, 2) {
        return 2;
    }
    10
}

// Nothing is said.
pub fn no_words() -> Words
    ensures { result ≡ words.words_or None }
{
    Words {
        start: 0,
        end: 0,
        first: 0,
        first_time: 0,
        second: 0,
        second_time: 0,
        last: NOTHING,
    }
}

// A shape with one point, if there is one.
fn one(shape: u64, w: u64, marks: u64) -> Words
    requires { (shape ≤ 3) × (marks ≤ 65792) }
    ensures value { w ≡ words.nothing → result ≡ words.words_or None }
    ensures value_2 { (w ≡ words.nothing → ⊥) → result ≡ words.words 0 0 w 0 0 0 (shape + marks) }
{
    if w == NOTHING {
        return no_words();
    }
    Words {
        start: 0,
        end: 0,
        first: w,
        first_time: 0,
        second: 0,
        second_time: 0,
        last: shape + marks,
    }
}

// A range of two points, if there are two.
fn both(a: u64, b: u64, marks: u64) -> Words
    requires { marks ≤ 65792 }
    ensures value { a ≡ words.nothing → result ≡ words.words_or None }
    ensures value_2 { b ≡ words.nothing → result ≡ words.words_or None }
    ensures value_3 { (a ≡ words.nothing → ⊥) → (b ≡ words.nothing → ⊥) → result ≡ words.words 0 0 a 0 b 0 (3 + marks) }
{
    if a == NOTHING {
        return no_words();
    }
    if b == NOTHING {
        return no_words();
    }
    Words {
        start: 0,
        end: 0,
        first: a,
        first_time: 0,
        second: b,
        second_time: 0,
        last: 3 + marks,
    }
}

// The texts on both sides of a slash.
fn halves(a: &[u8], b: &[u8], marks: u64) -> Words
    requires { marks ≤ 65792 }
    ensures { result ≡ words.value_or (texts.halves a.now b.now) marks }
{
    if is_dots(a) {
        return one(2, point(b), marks);
    }
    if is_dots(b) {
        return one(1, point(a), marks);
    }
    both(point(a), point(b), marks)
}

// A point with a time.
fn timed(s: &[u8], marks: u64) -> Words
    requires { (19 ≤ length s.now) × (marks ≤ 65792) }
    ensures { result ≡ words.value_or (texts.timed s.now) marks }
{
    let d = day_word(s);
    let c = clock(s);
    let z = zone(s);
    if d == NOTHING {
        return no_words();
    }
    if c == NOTHING {
        return no_words();
    }
    if z == NOTHING {
        return no_words();
    }
    Words {
        start: 0,
        end: 0,
        first: d,
        first_time: c + z,
        second: 0,
        second_time: 0,
        last: marks,
    }
}

// A text without its mark, which is a number.
fn unmarked(s: &[u8], marks: u64) -> Words
    requires { marks ≤ 65792 }
    ensures { result ≡ words.value_or (texts.value_of s.now) marks }
{
    let k = slash_of(s);
    if slash_at(s, k) {
        return halves(&s[..k], &s[k + 1..], marks);
    }
    if s.len() < 19 {
        return one(0, point(s), marks);
    }
    timed(s, marks)
}

// A mark as a number.
fn mark(b: u8) -> u64
    ensures { result ≡ words.marks_of (is_uncertain b) (is_approximate b) }
{
    if b == b'?' {
        return 256;
    }
    if b == b'~' {
        return 65536;
    }
    if b == b'%' {
        return 65792;
    }
    0
}

// That of a text's last byte.
fn last_mark(s: &[u8]) -> u64
    ensures { result ≡ words.marks_of (is_uncertain (last_byte s.now)) (is_approximate (last_byte s.now)) }
{
    let n = s.len();
    if n == 0 {
        return 0;
    }
    mark(s[n - 1])
}

// How many bytes stand before the mark: all where there is none.
fn unmarked_length(s: &[u8], marks: u64) -> usize
    requires { marks ≡ words.marks_of (is_uncertain (last_byte s.now)) (is_approximate (last_byte s.now)) }
    ensures { (take result s.now ≡ unmarked s.now) × (result ≤ length s.now) }
{
    if marks == 0 {
        return s.len();
    }
    s.len() - 1
}

// A text in the form that Dates are written in, as words.
pub fn text(s: &[u8]) -> Words
    ensures { result ≡ words.words_or (texts.written s.now) }
{
    let m = last_mark(s);
    let n = unmarked_length(s, m);
    unmarked(&s[..n], m)
}

// Whether sixteen bytes are spaces. None of them decides where the loop goes on: the compiler takes them all at once.
fn are_spaces(s: &[u8], at: usize) -> bool
    requires { at + 16 ≤ length s.now }
    ensures { result ≡ true → texts.unspaced (take (at + 16) s.now) ≡ texts.unspaced (take at s.now) }
{
    let mut ok = true;
    for i in 0..16 {
        ok = ok & (s[at + i] == b' ');
    }
    ok
}

// A place with spaces alone behind it, by sixteen bytes at a time.
fn shed_many(s: &[u8]) -> usize
    ensures { (texts.unspaced (take result s.now) ≡ texts.unspaced s.now) × (result ≤ length s.now) }
{
    let mut n = s.len();
    // Kept as a while: it goes backwards from an end that is no multiple of sixteen, and stops early; a range would need `s.len() % 16` added to each place.
    while 16 <= n {
        if are_spaces(s, n - 16) {
            n = n - 16;
        } else {
            return n;
        }
    }
    n
}

// Where the spaces before a place start.
fn shed_each(s: &[u8], end: usize) -> usize
    requires { end ≤ length s.now }
    ensures { (take result s.now ≡ texts.unspaced (take end s.now)) × (result ≤ end) }
{
    for n in (0..end).rev() {
        if s[n] != b' ' {
            return n + 1;
        }
    }
    0
}

// Where the spaces at a text's end start. Mostly there are none: the last byte is looked at first.
pub fn unspaced(s: &[u8]) -> usize
    ensures { (take result s.now ≡ texts.unspaced s.now) × (result ≤ length s.now) }
{
    let n = s.len();
    if n == 0 {
        return 0;
    }
    if s[n - 1] == b' ' {
        return shed_each(s, shed_many(s));
    }
    n
}

// ---- words

fn has_month(m: Option<Month>) -> u8
    ensures { result ≡ words.has_month m }
{
    match m {
        None => 0,
        Some(_) => 1,
    }
}

fn month_number(m: Option<Month>) -> u8
    ensures { result ≡ words.month_number m }
{
    match m {
        None => 0,
        Some(x) => x.0,
    }
}

fn has_day(d: Option<Day>) -> u8
    ensures { result ≡ words.has_day d }
{
    match d {
        None => 0,
        Some(_) => 1,
    }
}

fn day_number(d: Option<Day>) -> u8
    ensures { result ≡ words.day_number d }
{
    match d {
        None => 0,
        Some(x) => x.0,
    }
}

fn sort_of(o: TimeOffset) -> u8
    ensures { result ≡ words.sort_of o }
{
    match o {
        TimeOffset::Utc => 1,
        TimeOffset::Offset {
            positive,
            hours: _,
            minutes: _,
        } => if positive { 2 } else { 3 },
    }
}

fn offset_sort(o: Option<TimeOffset>) -> u8
    ensures { result ≡ words.offset_sort o }
{
    match o {
        None => 0,
        Some(x) => sort_of(x),
    }
}

// The offset, or UTC where there is none.
fn shift_of(o: Option<TimeOffset>) -> TimeOffset
    ensures { result ≡ words.shift_of o }
{
    match o {
        None => TimeOffset::Utc,
        Some(x) => x,
    }
}

fn hours_of(o: TimeOffset) -> u8
    ensures { result ≡ words.hours_of o }
{
    match o {
        TimeOffset::Utc => 0,
        TimeOffset::Offset {
            positive: _,
            hours,
            minutes: _,
        } => hours,
    }
}

fn minutes_of(o: TimeOffset) -> u8
    ensures { result ≡ words.minutes_of o }
{
    match o {
        TimeOffset::Utc => 0,
        TimeOffset::Offset {
            positive: _,
            hours: _,
            minutes,
        } => minutes,
    }
}

fn datetime_word(d: Datetime) -> u64
    ensures value { result ≡ words.day_word d }
    ensures year_bound { (mag d.year < 2147483648) × ((words.month_number d.month < 256) × (words.day_number d.day < 256)) }
{
    let month = d.month;
    let day = d.day;
    twos(d.year) as u64
        + 4294967296
            * four_bytes(
                has_month(month),
                month_number(month),
                has_day(day),
                day_number(day),
            )
}

fn time_word(d: Datetime) -> u64
    ensures value { result ≡ words.time_word d }
    ensures bytes { typed.Bytes (typed.stored_time (words.clock_of d.time)) }
{
    let time = d.time;
    let season = d.season;
    let number = dates::season_number(season);
    match time {
        None => {
            return 4294967296 * four_bytes(0, 0, 0, number);
        }
        Some(t) => {
            let offset = t.offset;
            let o = shift_of(offset);
            return four_bytes(1, t.hour, t.minute, t.second)
                + 4294967296 * four_bytes(offset_sort(offset), hours_of(o), minutes_of(o), number);
        }
    }
}

// The marks as a number.
fn marks_word(uncertain: bool, approximate: bool) -> u64
    ensures { result ≡ words.marks_of uncertain approximate }
{
    if uncertain {
        if approximate {
            return 65792;
        }
        return 256;
    }
    if approximate {
        return 65536;
    }
    0
}

// A shape with one Datetime.
fn one_words(shape: u64, d: Datetime, marks: u64) -> Words
    requires { (shape ≤ 3) × (marks ≤ 65792) }
    ensures value { result ≡ words.words 0 0 (words.day_word d) (words.time_word d) 0 0 (shape + marks) }
    ensures datetime_typed { typed.DatetimeTyped d }
{
    Words {
        start: 0,
        end: 0,
        first: datetime_word(d),
        first_time: time_word(d),
        second: 0,
        second_time: 0,
        last: shape + marks,
    }
}

// A range of two.
fn two_words(a: Datetime, b: Datetime, marks: u64) -> Words
    requires { marks ≤ 65792 }
    ensures value { result ≡ words.words 0 0 (words.day_word a) (words.time_word a) (words.day_word b) (words.time_word b) (3 + marks) }
    ensures datetime_typed { typed.DatetimeTyped a × typed.DatetimeTyped b }
{
    Words {
        start: 0,
        end: 0,
        first: datetime_word(a),
        first_time: time_word(a),
        second: datetime_word(b),
        second_time: time_word(b),
        last: 3 + marks,
    }
}

// What a reader answers, as words; its numbers are of their types.
pub fn pack(r: Result<Date, Refusal>) -> Words
    ensures value { result ≡ words.words_of r }
    ensures typed { typed.Typed r }
{
    match r {
        Ok(d) => {
            let v = d.value;
            let marks = marks_word(d.uncertain, d.approximate);
            match v {
                DateValue::At(a) => {
                    return one_words(0, a, marks);
                }
                DateValue::After(a) => {
                    return one_words(1, a, marks);
                }
                DateValue::Before(a) => {
                    return one_words(2, a, marks);
                }
                DateValue::Between(a, b) => {
                    return two_words(a, b, marks);
                }
            }
        }
        Err(e) => {
            let kind = e.kind;
            let start = e.place.0;
            let end = e.place.1;
            return Words {
                start,
                end,
                first: 0,
                first_time: 0,
                second: 0,
                second_time: 0,
                last: 4294967296 * four_bytes(refusals::number(kind), 0, 0, 0),
            };
        }
    }
}

// The sum, or the largest number where it would be above that.
fn farther(a: u64, b: u64) -> u64
    ensures { result ≡ saturating_add a b }
{
    if NOTHING - b < a {
        return NOTHING;
    }
    a + b
}

// A text's answer in a list whose span starts at a place: a refusal's place moves with it.
pub fn moved(text: TextWords, start: u64) -> Words
    ensures { result ≡ ported_specs.moved_words start text.0 }
{
    let w = text.0;
    if w.last < 4294967296 {
        return w;
    }
    Words {
        start: farther(w.start, start),
        end: farther(w.end, start),
        first: w.first,
        first_time: w.first_time,
        second: w.second,
        second_time: w.second_time,
        last: w.last,
    }
}

// ---- ported

// The numbers of three refusals.
const DAY_OUT_OF_RANGE: u64 = 2;

const MONTH_OUT_OF_RANGE: u64 = 3;

const INVALID_FORMAT: u64 = 7;

// A year as a number of the word.
fn wide_year(n: u16) -> u64
    ensures { result ≡ n }
{
    n as u64
}

// A month or a day likewise.
fn wide_part(n: u8) -> u64
    ensures { result ≡ n }
{
    n as u64
}

// A refusal by its number, at a place of the text.
fn refused(number: u64, start: u64, end: u64) -> Words
    requires { number < 256 }
    ensures { result ≡ words.words start end 0 0 0 0 (words.last_word 0 0 0 number) }
{
    Words {
        start,
        end,
        first: 0,
        first_time: 0,
        second: 0,
        second_time: 0,
        last: 4294967296 * number,
    }
}

// A point without a time, by its word.
pub fn at_word(a: u64) -> Words
    ensures { result ≡ words.words 0 0 a 0 0 0 0 }
{
    Words {
        start: 0,
        end: 0,
        first: a,
        first_time: 0,
        second: 0,
        second_time: 0,
        last: 0,
    }
}

// A range of two points without times.
fn between_words(first: u64, second: u64) -> Words
    ensures { result ≡ words.words 0 0 first 0 second 0 3 }
{
    Words {
        start: 0,
        end: 0,
        first,
        first_time: 0,
        second,
        second_time: 0,
        last: 3,
    }
}

// Whether a byte is ASCII, no X and no slash.
fn is_word_byte(b: u8) -> bool
    ensures { result ≡ ported_specs.is_word_byte b }
{
    (b < 0x80) & ((b != b'X') & ((b != b'x') & (b != b'/')))
}

// Whether each byte is. No test in the loop decides where to go on: the compiler then takes many bytes at once.
fn all_words(t: &[u8]) -> bool
    ensures { result ≡ ported_specs.are_word_bytes t.now }
{
    let mut ok = true;
    for b in t {
        ok = ok & is_word_byte(*b);
    }
    ok
}

// Words with no year at their front.
fn words_refused(s: &[u8]) -> Words
    ensures { result ≡ words.words_or (ported_specs.no_year s.now) }
{
    if 4096 < s.len() {
        return no_words();
    }
    if all_words(s) {
        return refused(INVALID_FORMAT, 0, 0);
    }
    no_words()
}

// The year of two digits.
fn near_2000(n: u8) -> u64
    ensures { result ≡ words.twos (windowed (pos n)) }
{
    if n < 50 {
        return wide_part(n) + 2000;
    }
    wide_part(n) + 1900
}

// dd
fn short_year(s: &[u8]) -> Words
    requires { 2 ≤ length s.now }
    ensures { result ≡ words.words_or (ported_specs.short_year s.now) }
{
    let n = two(s[0], s[1]);
    if n < 100 {
        return at_word(near_2000(n));
    }
    no_words()
}

// Whether XX stands at a place.
fn is_unknown(s: &[u8], at: usize) -> bool
    requires { at + 2 ≤ length s.now }
    ensures { result ≡ ported_specs.is_unknown s.now at }
{
    if s[at] == b'X' {
        return s[at + 1] == b'X';
    }
    false
}

// ddXX
fn years_of(s: &[u8]) -> Words
    requires { 4 ≤ length s.now }
    ensures { result ≡ words.words_or (ported_specs.years_of s.now) }
{
    if is_unknown(s, 2) {
        let n = two(s[0], s[1]);
        if n < 100 {
            let y = wide_part(n) * 100;
            return between_words(y, y + 99);
        }
        return no_words();
    }
    no_words()
}

// dddd-XX
fn months_of(s: &[u8]) -> Words
    requires { 7 ≤ length s.now }
    ensures { result ≡ words.words_or (ported_specs.months_of s.now) }
{
    if is_unknown(s, 5) {
        let y = year(s);
        if 10000 <= y {
            return no_words();
        }
        if s[4] == b'-' {
            return between_words(with_month(y, 0), with_month(y, 11));
        }
        return no_words();
    }
    no_words()
}

// dddd-mm-XX
fn days_of(s: &[u8]) -> Words
    requires { 8 ≤ length s.now }
    ensures { result ≡ words.words_or (ported_specs.days_of s.now) }
{
    let y = year(s);
    let m = part_at(s, 4);
    if 10000 <= y {
        return no_words();
    }
    if 12 <= m {
        return no_words();
    }
    if s[7] == b'-' {
        return between_words(with_day(y, m, 0), with_day(y, m, 30));
    }
    no_words()
}

// A month and a day, as they are written, that are no day of a year.
fn bad_parts(at: u64, y: u16, m: u8, d: u8) -> Words
    requires { at < 100 }
    ensures { result ≡ words.words_or (ported_specs.bad_parts at y m d) }
{
    if m == 0 {
        return refused(MONTH_OUT_OF_RANGE, at + 5, at + 7);
    }
    if 12 < m {
        return refused(MONTH_OUT_OF_RANGE, at + 5, at + 7);
    }
    if d == 0 {
        return refused(DAY_OUT_OF_RANGE, at + 8, at + 10);
    }
    if 31 < d {
        return refused(DAY_OUT_OF_RANGE, at + 8, at + 10);
    }
    if d - 1 < dates::days_in_month(Month(m - 1), signed(y)) {
        return no_words();
    }
    refused(DAY_OUT_OF_RANGE, at, at + 10)
}

// dddd-dd-dd that is no day, and begins at a place.
fn bad_day(at: u64, s: &[u8]) -> Words
    requires { (at < 100) × (10 ≤ length s.now) }
    ensures { result ≡ words.words_or (ported_specs.bad_day at s.now) }
{
    let y = year(s);
    let m = two(s[5], s[6]);
    let d = two(s[8], s[9]);
    if 10000 <= y {
        return no_words();
    }
    if s[4] != b'-' {
        return no_words();
    }
    if 100 <= m {
        return no_words();
    }
    if s[7] != b'-' {
        return no_words();
    }
    if d < 100 {
        return bad_parts(at, y, m, d);
    }
    no_words()
}

// A day that is unknown, or none.
fn day_or_days(s: &[u8]) -> Words
    requires { 10 ≤ length s.now }
    ensures { result ≡ words.words_or (ported_specs.day_or_days s.now) }
{
    if is_unknown(s, 8) {
        return days_of(s);
    }
    bad_day(0, s)
}

// A range whose first half is a point, and whose second is a day that is none.
fn bad_range(s: &[u8], k: usize) -> Words
    requires { k < 50 }
    ensures { result ≡ words.words_or (ported_specs.bad_range s.now k) }
{
    if slash_at(s, k) {
        if s.len() != k + 11 {
            return no_words();
        }
        if point(&s[..k]) == NOTHING {
            return no_words();
        }
        return bad_day(k as u64 + 1, &s[k + 1..]);
    }
    no_words()
}

// What the ported reader says of a text that is no written one.
fn ported_text(s: &[u8]) -> Words
    ensures { result ≡ words.words_or (ported_specs.ported s.now) }
{
    let n = s.len();
    if n == 0 {
        return refused(INVALID_FORMAT, 0, 0);
    }
    if b':' <= s[0] {
        return words_refused(s);
    }
    if n == 2 {
        return short_year(s);
    }
    if n == 4 {
        return years_of(s);
    }
    if n == 7 {
        return months_of(s);
    }
    if n == 10 {
        return day_or_days(s);
    }
    bad_range(s, slash_of(s))
}

// The same, as what has no place in a file yet.
pub fn ported(s: &[u8]) -> TextWords
    ensures { result.0 ≡ words.words_or (ported_specs.ported s.now) }
{
    TextWords(ported_text(s))
}

// ---- fields

// One to four digits as a number; 10000 for other texts. Zeros in front change nothing.
fn number(s: &[u8]) -> u16
    ensures { result ≡ parts.number_of s.now }
{
    let n = s.len();
    if n == 4 {
        return year(s);
    }
    if n == 3 {
        return four(b'0', s[0], s[1], s[2]);
    }
    if n == 2 {
        return four(b'0', b'0', s[0], s[1]);
    }
    if n == 1 {
        return four(b'0', b'0', b'0', s[0]);
    }
    10000
}

// Whether a text ends with a space and BC.
fn ends_with_era(s: &[u8]) -> bool
    requires { 3 ≤ length s.now }
    ensures { result ≡ parts.ends_with_era s.now }
{
    let n = s.len();
    if s[n - 3] == b' ' {
        if s[n - 2] == b'B' {
            return s[n - 1] == b'C';
        }
    }
    false
}

// A year before Christ as a year's part of the word.
fn before_christ(n: u16) -> u64
    requires { 0 < n }
    ensures { result ≡ words.twos (before_christ n) }
{
    if n == 1 {
        return 0;
    }
    4294967297 - wide_year(n)
}

fn era_year(n: u16) -> u64
    ensures { result ≡ words.year_word (parts.era_year n) }
{
    if n == 0 {
        return NOTHING;
    }
    if n < 10000 {
        return before_christ(n);
    }
    NOTHING
}

// The year of a year field, as its part of the word.
pub fn year_part(s: &[u8]) -> u64
    ensures { result ≡ words.year_word (parts.year_part s.now) }
{
    let n = s.len();
    if n < 5 {
        let y = number(s);
        if y < 10000 {
            return wide_year(y);
        }
        return NOTHING;
    }
    if n < 8 {
        if ends_with_era(s) {
            return era_year(number(&s[..n - 3]));
        }
    }
    NOTHING
}

// One or two digits as a number; 100 for other texts.
fn small(s: &[u8]) -> u8
    ensures { result ≡ parts.small_of s.now }
{
    let n = s.len();
    if n == 2 {
        return two(s[0], s[1]);
    }
    if n == 1 {
        return two(b'0', s[0]);
    }
    100
}

fn is_letter(b: u8) -> bool
    ensures { result ≡ parts.is_letter b }
{
    ((b'A' <= b) & (b <= b'Z')) | ((b'a' <= b) & (b <= b'z'))
}

// Whether each byte is a letter, with no test in the loop that decides where to go on.
fn all_letters(t: &[u8]) -> bool
    ensures { result ≡ parts.are_letters t.now }
{
    let mut ok = true;
    for b in t {
        ok = ok & is_letter(*b);
    }
    ok
}

// A month's part of the word.
fn month_word_of(m: u8) -> u64
    ensures { result ≡ 4294967296 * (1 + 256 * m) }
{
    4294967296 + 1099511627776 * wide_part(m)
}

// The month of a name.
#[tactic(auto, unfolding(crate::specs::Parts::named_month, crate::specs::Parts::some_month, chars::specs::Pick::pick))]
fn named_month(s: &[u8]) -> u64
    ensures { result ≡ words.month_word (parts.named_month s.now) }
{
    if s.len() < 10 {
        if all_letters(s) {
            return match fields::month_for(s) {
                Some(m) => month_word_of(m.0),
                None => NOTHING,
            };
        }
    }
    NOTHING
}

// The month of a month field, as its part of the word.
pub fn month_part(s: &[u8]) -> u64
    ensures { result ≡ words.month_word (parts.month_part s.now) }
{
    let n = small(s);
    if n == 0 {
        return NOTHING;
    }
    if n < 100 {
        return month_word_of(n - 1);
    }
    named_month(s)
}

// The day of a day field, as its part of the word.
pub fn day_part(s: &[u8]) -> u64
    ensures { result ≡ words.day_part_word (parts.day_part s.now) }
{
    let n = small(s);
    if n == 0 {
        return NOTHING;
    }
    if n < 32 {
        return 281474976710656 + 72057594037927936 * wide_part(n - 1);
    }
    NOTHING
}

// ---- writing

// Whether a year in two's complement is one from -9999 to 9999.
fn is_plain_year(n: u64) -> bool
    requires { n < 4294967296 }
    ensures { result ≡ back.is_plain_year n }
{
    (n + 9999) % 4294967296 < 19999
}

fn is_plain_word(w: u64) -> bool
    ensures { result ≡ back.is_plain_word w }
{
    if is_plain_year(w % 4294967296) {
        if w / 1099511627776 % 256 < 99 {
            return w / 72057594037927936 % 256 < 99;
        }
    }
    false
}

// Whether the text of words is that of their Date, if that has no season.
pub fn is_plain(first: u64, second: u64, last: u64) -> bool
    ensures { result ≡ back.is_plain first second last }
{
    if is_plain_word(first) {
        if last % 256 < 3 {
            return true;
        }
        return is_plain_word(second);
    }
    false
}

fn year_length(n: u64) -> usize
    ensures { (result ≡ length (back.year_digits n)) × (result ≤ 5) }
{
    if n < 10000 {
        return 4;
    }
    5
}

fn point_length(w: u64) -> usize
    ensures { (result ≡ length (back.point_text w)) × (result ≤ 11) }
{
    let n = year_length(w % 4294967296);
    if w / 4294967296 % 256 != 0 {
        if w / 281474976710656 % 256 != 0 {
            return n + 6;
        }
        return n + 3;
    }
    n
}

fn shaped_length(shape: u64, a: u64, b: u64) -> usize
    ensures { (result ≡ length (back.shaped_text shape a b)) × (result ≤ 23) }
{
    let n = point_length(a);
    if shape == 0 {
        return n;
    }
    if shape < 3 {
        return n + 3;
    }
    n + 1 + point_length(b)
}

fn marks_length(uncertain: bool, approximate: bool) -> usize
    ensures { (result ≡ length (mark_text uncertain approximate)) × (result ≤ 1) }
{
    if uncertain {
        return 1;
    }
    if approximate {
        return 1;
    }
    0
}

fn words_length(first: u64, second: u64, last: u64) -> usize
    ensures { (result ≡ length (back.words_text first second last)) × (result ≤ 24) }
{
    shaped_length(last % 256, first, second)
        + marks_length(last / 256 % 256 != 0, last / 65536 % 256 != 0)
}

// How long the text of plain words is: at most 24 bytes; 0 if they are not plain.
pub fn text_length(first: u64, second: u64, last: u64) -> usize
    ensures { (result ≡ back.plain_length first second last) × (result ≤ 24) }
{
    if is_plain(first, second, last) {
        return words_length(first, second, last);
    }
    0
}

fn put_byte(b: u8, out: &mut [u8], at: usize) -> usize
    requires { at + 1 ≤ length out.old }
    ensures { Put (b ∷ []) out.old at out.new result }
{
    out[at] = b;
    at + 1
}

fn put_two(n: u8, out: &mut [u8], at: usize) -> usize
    requires { (n < 100) × (at + 2 ≤ length out.old) }
    ensures { Put (digits 2 n) out.old at out.new result }
{
    out[at] = 48 + n / 10;
    out[at + 1] = 48 + n % 10;
    at + 2
}

// A stored month or day, behind a hyphen.
fn put_part(n: u8, out: &mut [u8], at: usize) -> usize
    requires { (n < 99) × (at + 3 ≤ length out.old) }
    ensures { Put (back.part_digits n) out.old at out.new result }
{
    let k = put_byte(b'-', out, at);
    put_two(n + 1, out, k)
}

fn put_four(n: u16, out: &mut [u8], at: usize) -> usize
    requires { (n < 10000) × (at + 4 ≤ length out.old) }
    ensures { Put (digits 4 n) out.old at out.new result }
{
    let k = put_two((n / 100) as u8, out, at);
    put_two((n % 100) as u8, out, k)
}

fn put_year(n: u64, out: &mut [u8], at: usize) -> usize
    requires { (n < 4294967296) × (back.is_plain_year n ≡ true) × (at + length (back.year_digits n) ≤ length out.old) }
    ensures { Put (back.year_digits n) out.old at out.new result }
{
    if n < 10000 {
        return put_four(n as u16, out, at);
    }
    let k = put_byte(b'-', out, at);
    put_four((4294967296 - n) as u16, out, k)
}

// The month and the day of a word, behind its year.
fn put_parts(w: u64, out: &mut [u8], at: usize) -> usize
    requires { (back.is_plain_word w ≡ true) × (at + length (back.month_digits w) ≤ length out.old) }
    ensures { Put (back.month_digits w) out.old at out.new result }
{
    if w / 4294967296 % 256 == 0 {
        return at;
    }
    let k = put_part((w / 1099511627776 % 256) as u8, out, at);
    if w / 281474976710656 % 256 == 0 {
        return k;
    }
    put_part((w / 72057594037927936 % 256) as u8, out, k)
}

fn put_point(w: u64, out: &mut [u8], at: usize) -> usize
    requires { (back.is_plain_word w ≡ true) × (at + length (back.point_text w) ≤ length out.old) }
    ensures { Put (back.point_text w) out.old at out.new result }
{
    let k = put_year(w % 4294967296, out, at);
    put_parts(w, out, k)
}

fn put_three(a: u8, b: u8, c: u8, out: &mut [u8], at: usize) -> usize
    requires { at + 3 ≤ length out.old }
    ensures { Put (a ∷ b ∷ c ∷ []) out.old at out.new result }
{
    out[at] = a;
    out[at + 1] = b;
    out[at + 2] = c;
    at + 3
}

// The text of words without its mark, at the front of the buffer.
fn put_shaped(first: u64, second: u64, last: u64, out: &mut [u8]) -> usize
    requires { (back.is_plain first second last ≡ true) × (length (back.shaped_text (last % 256) first second) ≤ length out.old) }
    ensures { Put (back.shaped_text (last % 256) first second) out.old 0 out.new result }
{
    let shape = last % 256;
    if shape == 2 {
        let k = put_three(b'.', b'.', b'/', out, 0);
        return put_point(first, out, k);
    }
    let k = put_point(first, out, 0);
    if shape == 0 {
        return k;
    }
    if shape == 1 {
        return put_three(b'/', b'.', b'.', out, k);
    }
    let j = put_byte(b'/', out, k);
    put_point(second, out, j)
}

// The text of plain words, at the front of the lent buffer, and its length. Without room for it, or if they are not plain, nothing is stored: 0.
pub fn put_text(first: u64, second: u64, last: u64, out: &mut [u8]) -> usize
    ensures value { result ≡ pick (back.has_room first second last (length out.old)) (length (back.words_text first second last)) 0 }
    ensures out_after { out.new ≡ back.words_put first second last out.old }
{
    if is_plain(first, second, last) {
        if words_length(first, second, last) <= out.len() {
            let k = put_shaped(first, second, last, out);
            return put_mark(last / 256 % 256 != 0, last / 65536 % 256 != 0, out, k);
        }
    }
    0
}

// ---- back

// The lowest byte of a word.
fn low_byte(w: u64) -> u8
    ensures { result ≡ w % 256 }
{
    (w % 256) as u8
}

// A year from two's complement of 32 bits.
fn from_twos(n: u64) -> i32
    requires { n < 4294967296 }
    ensures { (result ≡ unpacked.from_twos n) × (mag result < 2147483648) }
{
    if n < 2147483648 {
        return n as i32;
    }
    -1 - (4294967295 - n) as i32
}

fn month_back(has: u8, n: u8) -> Option<Month>
    ensures { result ≡ unpacked.month_of has n }
{
    if has == 0 {
        return None;
    }
    Some(Month(n))
}

fn day_back(has: u8, n: u8) -> Option<Day>
    ensures { result ≡ unpacked.day_of has n }
{
    if has == 0 {
        return None;
    }
    Some(Day(n))
}

// An offset by its sort, its hours and its minutes.
pub fn offset_of(sort: u8, hours: u8, minutes: u8) -> Option<TimeOffset>
    ensures { result ≡ unpacked.offset_of sort hours minutes }
{
    if sort == 0 {
        return None;
    }
    if sort == 1 {
        return Some(TimeOffset::Utc);
    }
    Some(TimeOffset::Offset {
        positive: sort == 2,
        hours,
        minutes,
    })
}

fn time_back(t: u64) -> Option<Time>
    ensures { result ≡ unpacked.time_in t }
{
    if t % 256 == 0 {
        return None;
    }
    let offset = offset_of(
        low_byte(t / 4294967296),
        low_byte(t / 1099511627776),
        low_byte(t / 281474976710656),
    );
    Some(Time {
        hour: low_byte(t / 256),
        minute: low_byte(t / 65536),
        second: low_byte(t / 16777216),
        offset,
    })
}

// A season by its number.
pub fn season_of(n: u8) -> Option<Season>
    ensures { result ≡ unpacked.season_of n }
{
    if n == 0 {
        return None;
    }
    if n == 21 {
        return Some(Season::Spring);
    }
    if n == 22 {
        return Some(Season::Summer);
    }
    if n == 23 {
        return Some(Season::Autumn);
    }
    Some(Season::Winter)
}

fn datetime_back(a: u64, t: u64) -> Datetime
    ensures { result ≡ unpacked.datetime_in a t }
{
    let month = month_back(low_byte(a / 4294967296), low_byte(a / 1099511627776));
    let day = day_back(
        low_byte(a / 281474976710656),
        low_byte(a / 72057594037927936),
    );
    let time = time_back(t);
    let season = season_of(low_byte(t / 72057594037927936));
    Datetime {
        year: from_twos(a % 4294967296),
        month,
        day,
        time,
        season,
    }
}

fn value_back(w: Words) -> DateValue
    ensures { result ≡ unpacked.value_in w }
{
    let shape = w.last % 256;
    let first = datetime_back(w.first, w.first_time);
    if shape == 0 {
        return DateValue::At(first);
    }
    if shape == 1 {
        return DateValue::After(first);
    }
    if shape == 2 {
        return DateValue::Before(first);
    }
    DateValue::Between(first, datetime_back(w.second, w.second_time))
}

fn date_back(w: Words) -> Date
    ensures { result ≡ unpacked.date_in w }
{
    let value = value_back(w);
    Date {
        value,
        uncertain: w.last / 256 % 256 != 0,
        approximate: w.last / 65536 % 256 != 0,
    }
}

// What a reader answered, from its words.
pub fn unpack(w: Words) -> Result<Date, Refusal>
    ensures { result ≡ unpacked.read_in w }
{
    let refusal = low_byte(w.last / 4294967296);
    if refusal == 0 {
        return Ok(date_back(w));
    }
    Err(Refusal {
        kind: kind_of(refusal),
        place: lent_span(w.start, w.end),
    })
}
