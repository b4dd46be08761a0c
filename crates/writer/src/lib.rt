// Writing a date as text, as fields in lines, and as text of level one, into a buffer that the caller lends. The length is measured before the first byte is
// stored. The writers below put a text at a place of a buffer that has the room, and give the place behind it.
#![tactic(auto)]

ghost use Rattle.std.specs.Prelude.{◌≡◌, false, [], ◌∷◌, ◌++◌, ◌+◌, ◌≤◌, ◌<◌, ltb, nat_abs, length};
ghost use Rattle.chars.specs.Ascii.{ascii};
ghost use Rattle.puts.specs.Numbers as numbers;
ghost use Rattle.writer.specs.Texts as text;
ghost use Rattle.puts.specs.Marks.{mark_text};
ghost use Rattle.writer.specs.Fields as field;
ghost use Rattle.puts.specs.Answers as shared;
ghost use Rattle.puts.specs.Answers.{Put};
ghost use Rattle.writer.specs.Answers as spec;
ghost use Rattle.writer.specs.Level as level;

use dates::{Date, DateValue, Datetime, Day, Month, WrittenDay, WrittenMonth, season_number};
use puts::{decide, put_bytes, put_digits, put_mark, width};
use refusals::{Kind, Refusal, nowhere};

// What is written behind a year.
#[derive(Clone, Copy)]
pub enum Parts {
    NoParts,
    WithMonth(WrittenMonth),
    WithDay(WrittenMonth, WrittenDay),
    // A month or a day that has no written number.
    TooLarge,
}

// ---- numbers

// One byte, and the place behind it: so each of these functions says where the next goes on.
fn put_byte(b: u8, out: &mut [u8], at: usize) -> usize
    requires { at + 1 ≤ length out.old }
    ensures { Put (b ∷ []) out.old at out.new result }
{
    out[at] = b;
    at + 1
}

// A number with at least so many digits.
fn put_decimal(least: usize, n: u32, out: &mut [u8], at: usize) -> usize
    requires { (least < 10) × (at + length (numbers.decimal least n) ≤ length out.old) }
    ensures { Put (numbers.decimal least n) out.old at out.new result }
{
    let w = width(least, n);
    put_digits(w, n, out, at)
}

// ---- years

// A year without its sign.
fn magnitude(year: i32) -> u32
    ensures { result ≡ nat_abs year }
{
    if year < 0 {
        let y = year as i64;
        return (0 - y) as u32;
    }
    year as u32
}

// A minus, if the year is negative.
fn put_minus(year: i32, out: &mut [u8], at: usize) -> usize
    requires { at + length (text.minus year) ≤ length out.old }
    ensures { Put (text.minus year) out.old at out.new result }
{
    if year < 0 {
        return put_byte(b'-', out, at);
    }
    at
}

// A year has at least four digits, so that it is read back and not windowed.
fn put_year(year: i32, out: &mut [u8], at: usize) -> usize
    requires { at + length (text.year_text year) ≤ length out.old }
    ensures { Put (text.year_text year) out.old at out.new result }
{
    let n = magnitude(year);
    let k = put_minus(year, out, at);
    put_decimal(4, n, out, k)
}

// How long a year's text is.
fn year_length(year: i32) -> usize
    ensures { (result ≡ length (text.year_text year)) × (result < 12) }
{
    let w = width(4, magnitude(year));
    if year < 0 {
        return w + 1;
    }
    w
}

// ---- months and days

// A stored month becomes a written one here and nowhere else.
fn written_month(m: Month) -> WrittenMonth
    requires { m.0 < 255 }
    ensures { result ≡ text.written_month m }
{
    WrittenMonth(m.0 + 1)
}

// And a stored day a written one.
fn written_day(d: Day) -> WrittenDay
    requires { d.0 < 255 }
    ensures { result ≡ text.written_day d }
{
    WrittenDay(d.0 + 1)
}

// The day beside a month; 255 has no written number in a byte.
#[tactic(auto, unfolding(crate::specs::Texts::day_parts, chars::specs::Pick::pick))]
fn day_parts(m: Month, day: Option<Day>) -> Parts
    requires { m.0 < 255 }
    ensures { result ≡ text.day_parts m day }
{
    match day {
        None => Parts::WithMonth(written_month(m)),
        Some(d) => {
            if d.0 == 255 {
                return Parts::TooLarge;
            }
            Parts::WithDay(written_month(m), written_day(d))
        }
    }
}

// What is written of a Datetime behind its year.
#[tactic(auto, unfolding(crate::specs::Texts::parts_of, crate::specs::Texts::month_parts, chars::specs::Pick::pick))]
fn parts_of(d: Datetime) -> Parts
    ensures { result ≡ text.parts_of d }
{
    let month = d.month;
    let day = d.day;
    match month {
        None => Parts::NoParts,
        Some(m) => {
            if m.0 == 255 {
                return Parts::TooLarge;
            }
            day_parts(m, day)
        }
    }
}

// Whether the Rust panics at this end of a date.
fn end_panics(d: Datetime) -> bool
    ensures { result ≡ text.end_panics d }
{
    match parts_of(d) {
        Parts::NoParts => false,
        Parts::WithMonth(_) => false,
        Parts::WithDay(_, _) => false,
        Parts::TooLarge => true,
    }
}

// Whether it panics at one of the ends: nothing is written then, not the other end either.
fn value_panics(v: DateValue) -> bool
    ensures { result ≡ text.value_panics v }
{
    match v {
        DateValue::At(d) => end_panics(d),
        DateValue::After(d) => end_panics(d),
        DateValue::Before(d) => end_panics(d),
        DateValue::Between(a, b) => {
            if end_panics(a) {
                return true;
            }
            end_panics(b)
        }
    }
}

// A written month or day behind a hyphen.
fn put_hyphen_part(n: u8, out: &mut [u8], at: usize) -> usize
    requires { at + length (text.hyphen_part n) ≤ length out.old }
    ensures { Put (text.hyphen_part n) out.old at out.new result }
{
    let k = put_byte(b'-', out, at);
    put_decimal(2, n as u32, out, k)
}

// What is written behind a year.
fn put_parts(p: Parts, out: &mut [u8], at: usize) -> usize
    requires { at + length (text.parts_text p) ≤ length out.old }
    ensures { Put (text.parts_text p) out.old at out.new result }
{
    match p {
        Parts::NoParts => at,
        Parts::WithMonth(m) => put_hyphen_part(m.0, out, at),
        Parts::WithDay(m, d) => {
            let k = put_hyphen_part(m.0, out, at);
            put_hyphen_part(d.0, out, k)
        }
        Parts::TooLarge => at,
    }
}

// How many digits a written month or day has.
fn part_length(n: u8) -> usize
    ensures { (result ≡ length (text.part_text n)) × (result < 4) }
{
    width(2, n as u32)
}

// How long the text of the parts is.
fn parts_length(p: Parts) -> usize
    ensures { (result ≡ length (text.parts_text p)) × (result < 9) }
{
    match p {
        Parts::NoParts => 0,
        Parts::WithMonth(m) => part_length(m.0) + 1,
        Parts::WithDay(m, d) => part_length(m.0) + 1 + (part_length(d.0) + 1),
        Parts::TooLarge => 0,
    }
}

// ---- texts

// A Datetime, at the front of the buffer.
fn put_datetime(d: Datetime, out: &mut [u8]) -> usize
    requires { length (text.datetime_text d) ≤ length out.old }
    ensures { Put (text.datetime_text d) out.old 0 out.new result }
{
    let p = parts_of(d);
    let k = put_year(d.year, out, 0);
    put_parts(p, out, k)
}

// How long a Datetime's text is.
fn datetime_length(d: Datetime) -> usize
    ensures { (result ≡ length (text.datetime_text d)) × (result < 20) }
{
    let p = parts_of(d);
    year_length(d.year) + parts_length(p)
}

// A Datetime behind a place: the rest of the buffer from there on is lent on to the Datetime writer.
fn put_rest(d: Datetime, out: &mut [u8], at: usize) -> usize
    requires { at + length (text.datetime_text d) ≤ length out.old }
    ensures { Put (text.datetime_text d) out.old at out.new result }
{
    at + put_datetime(d, &mut out[at..])
}

// A point or a range, at the front of the buffer. The second date of a range goes into the rest of it, behind the slash.
fn put_value(v: DateValue, out: &mut [u8]) -> usize
    requires { length (text.value_text v) ≤ length out.old }
    ensures { Put (text.value_text v) out.old 0 out.new result }
{
    match v {
        DateValue::At(d) => put_datetime(d, out),
        DateValue::After(d) => {
            let k = put_datetime(d, out);
            put_bytes(b"/..", out, k)
        }
        DateValue::Before(d) => {
            let k = put_bytes(b"../", out, 0);
            put_rest(d, out, k)
        }
        DateValue::Between(a, b) => {
            let j = put_datetime(a, out);
            let k = put_byte(b'/', out, j);
            put_rest(b, out, k)
        }
    }
}

// How long the text of a point or a range is.
fn value_length(v: DateValue) -> usize
    ensures { (result ≡ length (text.value_text v)) × (result < 40) }
{
    match v {
        DateValue::At(d) => datetime_length(d),
        DateValue::After(d) => datetime_length(d) + 3,
        DateValue::Before(d) => 3 + datetime_length(d),
        DateValue::Between(a, b) => datetime_length(a) + 1 + datetime_length(b),
    }
}

// How long the mark is.
fn mark_length(uncertain: bool, approximate: bool) -> usize
    ensures { (result ≡ length (mark_text uncertain approximate)) × (result < 2) }
{
    if uncertain {
        return 1;
    }
    if approximate {
        return 1;
    }
    0
}

// A date, at the front of the buffer.
fn put_date(d: Date, out: &mut [u8]) -> usize
    requires { length (text.date_text d) ≤ length out.old }
    ensures { Put (text.date_text d) out.old 0 out.new result }
{
    let v = d.value;
    let k = put_value(v, out);
    put_mark(d.uncertain, d.approximate, out, k)
}

// ---- fields

// What the names of a range's second end begin with.
fn put_prefix(end: bool, out: &mut [u8], at: usize) -> usize
    requires { at + length (field.prefix end) ≤ length out.old }
    ensures { Put (field.prefix end) out.old at out.new result }
{
    if end {
        return put_bytes(b"end", out, at);
    }
    at
}

// The name of a field; it comes with its equals sign.
fn put_name(end: bool, name: &[u8], out: &mut [u8], at: usize) -> usize
    requires { at + length (field.prefix end ++ name.now) ≤ length out.old }
    ensures { Put (field.prefix end ++ name.now) out.old at out.new result }
{
    let k = put_prefix(end, out, at);
    put_bytes(name, out, k)
}

// Every end of a Date has this line.
fn put_year_line(end: bool, year: i32, out: &mut [u8], at: usize) -> usize
    requires { at + length (field.line end (ascii "year=") (text.year_text year)) ≤ length out.old }
    ensures { Put (field.line end (ascii "year=") (text.year_text year)) out.old at out.new result }
{
    let j = put_name(end, b"year=", out, at);
    let k = put_year(year, out, j);
    put_byte(10, out, k)
}

// The line of a month or a day.
fn put_part_line(end: bool, name: &[u8], n: u8, out: &mut [u8], at: usize) -> usize
    requires { at + length (field.line end name.now (text.part_text n)) ≤ length out.old }
    ensures { Put (field.line end name.now (text.part_text n)) out.old at out.new result }
{
    let j = put_name(end, name, out, at);
    let k = put_decimal(2, n as u32, out, j);
    put_byte(10, out, k)
}

// The lines of the month and the day.
fn put_part_lines(end: bool, p: Parts, out: &mut [u8], at: usize) -> usize
    requires { at + length (field.part_lines end p) ≤ length out.old }
    ensures { Put (field.part_lines end p) out.old at out.new result }
{
    match p {
        Parts::NoParts => at,
        Parts::WithMonth(m) => put_part_line(end, b"month=", m.0, out, at),
        Parts::WithDay(m, d) => {
            let k = put_part_line(end, b"month=", m.0, out, at);
            put_part_line(end, b"day=", d.0, out, k)
        }
        Parts::TooLarge => at,
    }
}

// The lines of one end of a Date; a day without a month has none.
fn put_end_lines(end: bool, d: Datetime, out: &mut [u8], at: usize) -> usize
    requires { at + length (field.end_lines end d) ≤ length out.old }
    ensures { Put (field.end_lines end d) out.old at out.new result }
{
    let p = parts_of(d);
    let k = put_year_line(end, d.year, out, at);
    put_part_lines(end, p, out, k)
}

// The lines of a point or a range, at the front of the buffer.
fn put_value_lines(v: DateValue, out: &mut [u8]) -> usize
    requires { length (field.value_lines v) ≤ length out.old }
    ensures { Put (field.value_lines v) out.old 0 out.new result }
{
    match v {
        DateValue::At(d) => put_end_lines(false, d, out, 0),
        DateValue::After(d) => put_end_lines(false, d, out, 0),
        DateValue::Before(d) => put_end_lines(false, d, out, 0),
        DateValue::Between(a, b) => {
            let k = put_end_lines(false, a, out, 0);
            put_end_lines(true, b, out, k)
        }
    }
}

// The length of a line whose name and value have so many bytes; the name comes with its equals sign.
fn line_length(end: bool, name: usize, value: usize) -> usize
    requires { (name < 10) × (value < 12) }
    ensures { (result ≡ length (field.prefix end) + name + value + 1) × (result < 26) }
{
    if end {
        return 3 + name + value + 1;
    }
    name + value + 1
}

// How long the lines of the month and the day are; the names with their equals signs have 6 and 4 bytes.
fn part_lines_length(end: bool, p: Parts) -> usize
    ensures { (result ≡ length (field.part_lines end p)) × (result < 52) }
{
    match p {
        Parts::NoParts => 0,
        Parts::WithMonth(m) => line_length(end, 6, part_length(m.0)),
        Parts::WithDay(m, d) => {
            let k = line_length(end, 6, part_length(m.0));
            k + line_length(end, 4, part_length(d.0))
        }
        Parts::TooLarge => 0,
    }
}

// How long the lines of a Datetime are.
fn end_lines_length(end: bool, d: Datetime) -> usize
    ensures { (result ≡ length (field.end_lines end d)) × (result < 78) }
{
    let p = parts_of(d);
    let k = line_length(end, 5, year_length(d.year));
    k + part_lines_length(end, p)
}

// How long the lines of a point or a range are.
fn value_lines_length(v: DateValue) -> usize
    ensures { (result ≡ length (field.value_lines v)) × (result < 156) }
{
    match v {
        DateValue::At(d) => end_lines_length(false, d),
        DateValue::After(d) => end_lines_length(false, d),
        DateValue::Before(d) => end_lines_length(false, d),
        DateValue::Between(a, b) => {
            let k = end_lines_length(false, a);
            k + end_lines_length(true, b)
        }
    }
}

// ---- the calls

// How long the text of a date is: at most 40 bytes. It refuses what `write_text` refuses, apart from NoRoom.
pub fn date_length(d: Date) -> Result<usize, Refusal>
    ensures value { result ≡ spec.date_measured d (text.date_text d) }
    ensures d_len_bound { text.panics d ≡ false → length (text.date_text d) ≤ 40 }
{
    let v = d.value;
    let n = value_length(v) + mark_length(d.uncertain, d.approximate);
    if v.has_season() {
        return Err(nowhere(Kind::HasSeason));
    }
    if value_panics(v) {
        return Err(nowhere(Kind::RustPanics));
    }
    Ok(n)
}

// How long the fields of a date are. It refuses what `write_fields` refuses, apart from NoRoom.
pub fn fields_length(d: Date) -> Result<usize, Refusal>
    ensures { result ≡ spec.date_measured d (field.fields_text d) }
{
    let value = d.value;
    if value.has_season() {
        return Err(nowhere(Kind::HasSeason));
    }
    if value_panics(value) {
        return Err(nowhere(Kind::RustPanics));
    }
    Ok(value_lines_length(value))
}

// The text of a date, at the front of the lent buffer; a refusal stores nothing. Whoever measured the date knows the room that it needs.
pub fn write_text(d: Date, out: &mut [u8]) -> Result<usize, Refusal>
    ensures value { result ≡ spec.date_answer d (text.date_text d) (length out.old) }
    ensures out_after { out.new ≡ spec.date_afterwards d (text.date_text d) out.old }
    ensures d_len_bound { text.panics d ≡ false → length (text.date_text d) ≤ 40 }
{
    decide(date_length(d), out.len())?;
    Ok(put_date(d, out))
}

// Both in one call: the date is measured, then its text is written.
pub fn write_date(d: Date, out: &mut [u8]) -> Result<usize, Refusal>
    ensures value { result ≡ spec.date_answer d (text.date_text d) (length out.old) }
    ensures out_after { out.new ≡ spec.date_afterwards d (text.date_text d) out.old }
    ensures d_len_bound { text.panics d ≡ false → length (text.date_text d) ≤ 40 }
{
    date_length(d)?;
    write_text(d, out)
}

// The fields of a date, at the front of the lent buffer; a refusal stores nothing.
pub fn write_fields(d: Date, out: &mut [u8]) -> Result<usize, Refusal>
    ensures value { result ≡ spec.date_answer d (field.fields_text d) (length out.old) }
    ensures out_after { out.new ≡ spec.date_afterwards d (field.fields_text d) out.old }
{
    let v = d.value;
    decide(fields_length(d), out.len())?;
    Ok(put_value_lines(v, out))
}

// ---- level one

// Whether a year has at most four digits.
fn is_short(year: i32) -> bool
    ensures { result ≡ ltb (nat_abs year) 10000 }
{
    magnitude(year) < 10000
}

// Y, if the year has more than four digits.
fn put_long_sign(year: i32, out: &mut [u8], at: usize) -> usize
    requires { at + length (level.long_sign year) ≤ length out.old }
    ensures { Put (level.long_sign year) out.old at out.new result }
{
    if is_short(year) {
        return at;
    }
    put_byte(b'Y', out, at)
}

// How long that is.
fn long_sign_length(year: i32) -> usize
    ensures { (result ≡ length (level.long_sign year)) × (result < 2) }
{
    if is_short(year) {
        return 0;
    }
    1
}

// The season, or else the month and the day.
fn put_behind(d: Datetime, out: &mut [u8], at: usize) -> usize
    requires { at + length (level.behind_text d) ≤ length out.old }
    ensures { Put (level.behind_text d) out.old at out.new result }
{
    if d.has_season() {
        let season = d.season;
        return put_hyphen_part(season_number(season), out, at);
    }
    let p = parts_of(d);
    put_parts(p, out, at)
}

// How long that is.
fn behind_length(d: Datetime) -> usize
    ensures { (result ≡ length (level.behind_text d)) × (result < 9) }
{
    if d.has_season() {
        let season = d.season;
        return part_length(season_number(season)) + 1;
    }
    let p = parts_of(d);
    parts_length(p)
}

// One end of a date.
fn put_level_end(d: Datetime, out: &mut [u8], at: usize) -> usize
    requires { at + length (level.level_end d) ≤ length out.old }
    ensures { Put (level.level_end d) out.old at out.new result }
{
    let j = put_long_sign(d.year, out, at);
    let k = put_year(d.year, out, j);
    put_behind(d, out, k)
}

// How long it is.
fn level_end_length(d: Datetime) -> usize
    ensures { (result ≡ length (level.level_end d)) × (result < 21) }
{
    long_sign_length(d.year) + year_length(d.year) + behind_length(d)
}

// A point or a range, at the front of the buffer.
fn put_level_value(v: DateValue, out: &mut [u8]) -> usize
    requires { length (level.level_value v) ≤ length out.old }
    ensures { Put (level.level_value v) out.old 0 out.new result }
{
    match v {
        DateValue::At(d) => put_level_end(d, out, 0),
        DateValue::After(d) => {
            let k = put_level_end(d, out, 0);
            put_bytes(b"/..", out, k)
        }
        DateValue::Before(d) => {
            let k = put_bytes(b"../", out, 0);
            put_level_end(d, out, k)
        }
        DateValue::Between(a, b) => {
            let j = put_level_end(a, out, 0);
            let k = put_byte(b'/', out, j);
            put_level_end(b, out, k)
        }
    }
}

// How long it is.
fn level_value_length(v: DateValue) -> usize
    ensures { (result ≡ length (level.level_value v)) × (result < 42) }
{
    match v {
        DateValue::At(d) => level_end_length(d),
        DateValue::After(d) => level_end_length(d) + 3,
        DateValue::Before(d) => 3 + level_end_length(d),
        DateValue::Between(a, b) => level_end_length(a) + 1 + level_end_length(b),
    }
}

// A date, at the front of the buffer.
fn put_level_date(d: Date, out: &mut [u8]) -> usize
    requires { length (level.level_text d) ≤ length out.old }
    ensures { Put (level.level_text d) out.old 0 out.new result }
{
    let v = d.value;
    let j = put_level_value(v, out);
    put_mark(d.uncertain, d.approximate, out, j)
}

// Whether an end has no text. Beside a season no month and no day is looked at.
fn level_end_panics(d: Datetime) -> bool
    ensures { result ≡ level.level_end_panics d }
{
    if d.has_season() {
        return false;
    }
    end_panics(d)
}

// Whether one of the ends has none.
fn level_value_panics(v: DateValue) -> bool
    ensures { result ≡ level.level_value_panics v }
{
    match v {
        DateValue::At(d) => level_end_panics(d),
        DateValue::After(d) => level_end_panics(d),
        DateValue::Before(d) => level_end_panics(d),
        DateValue::Between(a, b) => {
            if level_end_panics(a) {
                return true;
            }
            level_end_panics(b)
        }
    }
}

// How long the text of a date is by the writer of level one: at most 42 bytes. It refuses what `write_level` refuses, apart from NoRoom.
pub fn level_length(d: Date) -> Result<usize, Refusal>
    ensures value { result ≡ shared.measured (level.level_panics d) (level.level_text d) }
    ensures d_len_bound { length (level.level_text d) ≤ 42 }
{
    let v = d.value;
    let n = level_value_length(v) + mark_length(d.uncertain, d.approximate);
    if level_value_panics(v) {
        return Err(nowhere(Kind::RustPanics));
    }
    Ok(n)
}

// The text of a date by the writer of level one, at the front of the lent buffer; a refusal stores nothing. It knows seasons, and refuses none.
pub fn write_level(d: Date, out: &mut [u8]) -> Result<usize, Refusal>
    ensures value { result ≡ shared.answer (level.level_panics d) (level.level_text d) (length out.old) }
    ensures out_after { out.new ≡ shared.afterwards (level.level_panics d) (level.level_text d) out.old }
    ensures d_len_bound { length (level.level_text d) ≤ 42 }
{
    decide(level_length(d), out.len())?;
    Ok(put_level_date(d, out))
}
