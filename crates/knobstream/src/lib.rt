// The calls for C and Rust, over numbers, lent slices and plain structs. None has a `requires`: every number and every slice is taken, the
// empty slice with a null pointer too.
#![tactic(auto)]

ghost use Rattle.std.specs.Prelude.{◌≡◌, false, ◌≤◌, ◌<◌, length};
ghost use Rattle.reading_laws.specs.Field.{parsed, parsed_strict, parsed_level_one};
ghost use Rattle.chunks.specs.Lent.{lent, lent_of, optional, three};
ghost use Rattle.reader.specs.Fields.{three_of};
ghost use Rattle.reading_laws.specs.Fields.{three_fields};
ghost use Rattle.order.specs.Order.{partial_cmp};
ghost use Rattle.writer.specs.Texts.{date_text};
ghost use Rattle.writer.specs.Fields.{fields_text};
ghost use Rattle.writer.specs.Level.{level_panics, level_text};
ghost use Rattle.puts.specs.Answers.{measured, answer, afterwards};
ghost use Rattle.writer.specs.Answers.{date_measured, date_answer, date_afterwards};
ghost use Rattle.frames.specs.Frame.{line_answer};
ghost use Rattle.codes.specs.Words as words;
ghost use Rattle.knobstream.specs.Plain as plain;
ghost use Rattle.knobstream.specs.Layout as layout;
ghost use Rattle.knobstream.specs.Layout.{Answered};
ghost use Rattle.knobstream.specs.Back as back;

use chunks::ChunksRef;
use codes::{Words, offset_of, season_of};
use dates::{Date, DateValue, Datetime, Day, Month, Time};
use reader::ThreeFields;
use refusals::Refusal;
use std::cmp::Ordering;

// The calls on a chronology.
pub mod entries;
// Six fields.
pub mod six;
// Days and instants.
pub mod moments;
// The text of a Date with its times.
pub mod times;
// Page ranges.
pub mod ranges;

// A Datetime. A part that is absent has 0 in its `has_` number and in its own.
#[repr(C)]
#[derive(Clone, Copy)]
pub struct PlainDatetime {
    pub year: i32,
    pub has_month: u8,
    pub month: u8,
    pub has_day: u8,
    pub day: u8,
    pub has_time: u8,
    pub hour: u8,
    pub minute: u8,
    pub second: u8,
    // 0 none, 1 UTC, 2 ahead of UTC, 3 behind it.
    pub offset: u8,
    pub offset_hours: u8,
    pub offset_minutes: u8,
    // 0 none, 21 spring, 22 summer, 23 autumn, 24 winter.
    pub season: u8,
}

// A Date. The second Datetime is all zeros but in a range with both ends.
#[derive(Clone, Copy)]
pub struct PlainDate {
    // 0 At, 1 After, 2 Before, 3 Between.
    pub shape: u8,
    pub uncertain: u8,
    pub approximate: u8,
    pub first: PlainDatetime,
    pub second: PlainDatetime,
}

// What a reader answers: a Date with the refusal 0, or the number of a refusal and its place with a Date that is all zeros. A caller that is
// not Rattle gets it as seven words, which it lends (`put`).
#[derive(Clone, Copy)]
pub struct PlainRead {
    pub start: u64,
    pub end: u64,
    pub date: PlainDate,
    pub refusal: u8,
}

// What a writer answers, or measuring: how many bytes it stored, or the text has, with the refusal 0; or the number of a refusal and 0.
#[repr(C)]
#[derive(Clone, Copy)]
pub struct PlainWritten {
    pub length: usize,
    pub refusal: u8,
}

// ---- from values to plain numbers

fn flag(b: bool) -> u8
    ensures { result ≡ words.flag b }
{
    if b { 1 } else { 0 }
}

fn plain_written(w: Result<usize, Refusal>) -> PlainWritten
    ensures { result ≡ plain.written w }
{
    match w {
        Ok(n) => PlainWritten {
            length: n,
            refusal: 0,
        },
        Err(e) => {
            let kind = e.kind;
            PlainWritten {
                length: 0,
                refusal: refusals::number(kind),
            }
        }
    }
}

fn plain_measured(m: Result<usize, Refusal>) -> PlainWritten
    ensures { result ≡ plain.measure m }
{
    match m {
        Ok(size) => PlainWritten {
            length: size,
            refusal: 0,
        },
        Err(e) => {
            let kind = e.kind;
            PlainWritten {
                length: 0,
                refusal: refusals::number(kind),
            }
        }
    }
}

fn plain_order(o: Option<Ordering>) -> i32
    ensures { result ≡ plain.order_number o }
{
    match o {
        Some(Ordering::Less) => -1,
        Some(Ordering::Equal) => 0,
        Some(Ordering::Greater) => 1,
        None => 2,
    }
}

fn plain_compared(c: Result<Option<Ordering>, Refusal>) -> i32
    ensures { result ≡ plain.compared_number c }
{
    match c {
        Ok(o) => plain_order(o),
        Err(e) => {
            let kind = e.kind;
            refusals::number(kind) as i32
        }
    }
}

// ---- from words to what a caller lends

// Stores an answer into the words that a caller lends.
fn put(w: Words, answer: &mut [u64; 7])
    ensures { answer.new ≡ layout.listed w }
{
    *answer = [
        w.start,
        w.end,
        w.first,
        w.first_time,
        w.second,
        w.second_time,
        w.last,
    ];
}

// ---- from plain numbers to values: each number has a meaning

fn is_set(n: u8) -> bool
    ensures { result ≡ back.is_set n }
{
    n != 0
}

fn month_of(has: u8, n: u8) -> Option<Month>
    ensures { result ≡ back.month_of has n }
{
    if is_set(has) {
        return Some(Month(n));
    }
    None
}

fn day_of(has: u8, n: u8) -> Option<Day>
    ensures { result ≡ back.day_of has n }
{
    if is_set(has) {
        return Some(Day(n));
    }
    None
}

fn time_of(p: PlainDatetime) -> Option<Time>
    ensures { result ≡ back.time_of p }
{
    if is_set(p.has_time) {
        return Some(Time {
            hour: p.hour,
            minute: p.minute,
            second: p.second,
            offset: offset_of(p.offset, p.offset_hours, p.offset_minutes),
        });
    }
    None
}

fn datetime_of(p: PlainDatetime) -> Datetime
    ensures { result ≡ back.datetime_of p }
{
    let month = month_of(p.has_month, p.month);
    let day = day_of(p.has_day, p.day);
    let time = time_of(p);
    let season = season_of(p.season);
    Datetime {
        year: p.year,
        month,
        day,
        time,
        season,
    }
}

// The Datetime without its time, which no writer looks at.
fn day_only(p: PlainDatetime) -> Datetime
    ensures { result ≡ back.day_only p }
{
    Datetime {
        year: p.year,
        month: month_of(p.has_month, p.month),
        day: day_of(p.has_day, p.day),
        time: None,
        season: season_of(p.season),
    }
}

fn value_of(p: PlainDate) -> DateValue
    ensures { result ≡ back.date_value back.day_only p }
{
    let shape = p.shape;
    let first = p.first;
    let second = p.second;
    if shape == 0 {
        return DateValue::At(day_only(first));
    }
    if shape == 1 {
        return DateValue::After(day_only(first));
    }
    if shape == 2 {
        return DateValue::Before(day_only(first));
    }
    DateValue::Between(day_only(first), day_only(second))
}

// The Date without its times.
fn date_of(p: PlainDate) -> Date
    ensures { result ≡ back.date_by back.day_only p }
{
    let value = value_of(p);
    let uncertain = is_set(p.uncertain);
    let approximate = is_set(p.approximate);
    Date {
        value,
        uncertain,
        approximate,
    }
}

// A list that is lent.
fn list<'a>(bytes: &'a [u8], table: &'a [u64]) -> ChunksRef<'a>
    ensures { result ≡ record { bytes = bytes.entry; table = table.entry } }
{
    ChunksRef { bytes, table }
}

// The lists of three fields; a list is absent if the number before it is 0.
fn fields_of<'a>(
    year: ChunksRef<'a>,
    has_month: u8,
    month: ChunksRef<'a>,
    has_day: u8,
    day: ChunksRef<'a>,
) -> ThreeFields<'a>
    ensures year_list { lent_of result.year ≡ lent_of year.entry }
    ensures lists { three_fields (three_of result) ≡ three_fields (three (lent_of year.entry) (optional (back.is_set has_month) month.entry.bytes.now month.entry.table.now) (optional (back.is_set has_day) day.entry.bytes.now day.entry.table.now)) }
{
    ThreeFields {
        year,
        month: is_set(has_month).then_some(month),
        day: is_set(has_day).then_some(day),
    }
}

// ---- texts

// The year, the month and the day as a word.
fn day_word(p: PlainDatetime) -> u64
    ensures value { result ≡ plain.day_word p }
    ensures datetime_fits { layout.DatetimeFits p }
{
    codes::twos(p.year) as u64
        + 4294967296 * codes::four_bytes(p.has_month, p.month, p.has_day, p.day)
}

// Whether an end may have a season: the second is there only in a range with both.
fn seasoned(shape: u8, first: u8, second: u8) -> bool
    ensures { result ≡ false → (first ≡ 0) × (3 ≤ shape → second ≡ 0) }
{
    if first != 0 {
        return true;
    }
    if shape < 3 {
        return false;
    }
    second != 0
}

// How long the text of any Date is.
fn measure_far(
    first: PlainDatetime,
    second: PlainDatetime,
    shape: u8,
    uncertain: u8,
    approximate: u8,
) -> PlainWritten
    ensures { result ≡ plain.measure (date_measured (back.date_of (plain.parts shape uncertain approximate first second)) (date_text (back.date_of (plain.parts shape uncertain approximate first second)))) }
{
    let d = date_of(PlainDate {
        shape,
        uncertain,
        approximate,
        first,
        second,
    });
    plain_measured(writer::date_length(d))
}

// The text of any Date.
fn write_far(
    first: PlainDatetime,
    second: PlainDatetime,
    out: &mut [u8],
    shape: u8,
    uncertain: u8,
    approximate: u8,
) -> PlainWritten
    ensures value { result ≡ plain.written (date_answer (back.date_of (plain.parts shape uncertain approximate first second)) (date_text (back.date_of (plain.parts shape uncertain approximate first second))) (length out.old)) }
    ensures out_after { out.new ≡ date_afterwards (back.date_of (plain.parts shape uncertain approximate first second)) (date_text (back.date_of (plain.parts shape uncertain approximate first second))) out.old }
{
    let d = date_of(PlainDate {
        shape,
        uncertain,
        approximate,
        first,
        second,
    });
    plain_written(writer::write_date(d, out))
}

// ---- the calls

const VERSION: u32 = 5;

// The version of these calls and of their structs: a caller that was made for another must not go on.
pub fn knobstream_version() -> u32
    ensures { result ≡ 5 }
{
    VERSION
}

// A date field, read as the Rust reads it.
pub fn knobstream_parse(bytes: &[u8], table: &[u64], answer: &mut [u64; 7])
    ensures { Answered answer.new (plain.read (parsed bytes.now table.now)) }
{
    put(reader::parse_words(ChunksRef { bytes, table }), answer);
}

// A date field, read by the strict grammar alone.
pub fn knobstream_parse_strict(bytes: &[u8], table: &[u64], answer: &mut [u64; 7])
    ensures { Answered answer.new (plain.read (parsed_strict bytes.now table.now)) }
{
    put(
        reader::parse_strict_words(ChunksRef { bytes, table }),
        answer,
    );
}

// A date field, read by the grammar of level one: strict texts, seasons and long years.
pub fn knobstream_parse_level_one(bytes: &[u8], table: &[u64], answer: &mut [u64; 7])
    ensures { Answered answer.new (plain.read (parsed_level_one bytes.now table.now)) }
{
    put(reader::level_words(ChunksRef { bytes, table }), answer);
}

// The fields year, month and day; a list is absent if the number before it is 0, and then is not looked at.
pub fn knobstream_parse_three_fields(
    year: &[u8],
    year_table: &[u64],
    has_month: u8,
    month: &[u8],
    month_table: &[u64],
    has_day: u8,
    day: &[u8],
    day_table: &[u64],
    answer: &mut [u64; 7],
)
    ensures { Answered answer.new (plain.read (three_fields (three (lent year.now year_table.now) (optional (back.is_set has_month) month.now month_table.now) (optional (back.is_set has_day) day.now day_table.now)))) }
{
    let fields = fields_of(
        list(year, year_table),
        has_month,
        list(month, month_table),
        has_day,
        list(day, day_table),
    );
    put(reader::three_words(fields), answer);
}

// How long the text of a Date is, for whoever must reserve room before it is written; it refuses what the writer refuses, apart from NoRoom. The
// Date is passed part by part: so its Datetimes go in registers.
pub fn knobstream_measure_date(
    first: PlainDatetime,
    second: PlainDatetime,
    shape: u8,
    uncertain: u8,
    approximate: u8,
) -> PlainWritten
    ensures { result ≡ plain.measure (date_measured (back.date_of (plain.parts shape uncertain approximate first second)) (date_text (back.date_of (plain.parts shape uncertain approximate first second)))) }
{
    if seasoned(shape, first.season, second.season) {
        return measure_far(first, second, shape, uncertain, approximate);
    }
    let a = day_word(first);
    let b = day_word(second);
    let n = codes::text_length(a, b, codes::four_bytes(shape, uncertain, approximate, 0));
    if n == 0 {
        return measure_far(first, second, shape, uncertain, approximate);
    }
    PlainWritten {
        length: n,
        refusal: 0,
    }
}

// The text of a Date, at the front of the lent buffer; a refusal stores nothing. Usual numbers are put at once.
pub fn knobstream_write_date(
    first: PlainDatetime,
    second: PlainDatetime,
    out: &mut [u8],
    shape: u8,
    uncertain: u8,
    approximate: u8,
) -> PlainWritten
    ensures value { result ≡ plain.written (date_answer (back.date_of (plain.parts shape uncertain approximate first second)) (date_text (back.date_of (plain.parts shape uncertain approximate first second))) (length out.old)) }
    ensures out_after { out.new ≡ date_afterwards (back.date_of (plain.parts shape uncertain approximate first second)) (date_text (back.date_of (plain.parts shape uncertain approximate first second))) out.old }
{
    if seasoned(shape, first.season, second.season) {
        return write_far(first, second, out, shape, uncertain, approximate);
    }
    let a = day_word(first);
    let b = day_word(second);
    let n = codes::put_text(
        a,
        b,
        codes::four_bytes(shape, uncertain, approximate, 0),
        out,
    );
    if n == 0 {
        return write_far(first, second, out, shape, uncertain, approximate);
    }
    PlainWritten {
        length: n,
        refusal: 0,
    }
}

// The fields of a Date as lines, likewise.
pub fn knobstream_write_fields(
    first: PlainDatetime,
    second: PlainDatetime,
    out: &mut [u8],
    shape: u8,
    uncertain: u8,
    approximate: u8,
) -> PlainWritten
    ensures value { result ≡ plain.written (date_answer (back.date_of (plain.parts shape uncertain approximate first second)) (fields_text (back.date_of (plain.parts shape uncertain approximate first second))) (length out.old)) }
    ensures out_after { out.new ≡ date_afterwards (back.date_of (plain.parts shape uncertain approximate first second)) (fields_text (back.date_of (plain.parts shape uncertain approximate first second))) out.old }
{
    let d = date_of(PlainDate {
        shape,
        uncertain,
        approximate,
        first,
        second,
    });
    plain_written(writer::write_fields(d, out))
}

// How long the text of a Date is by the writer of level one, likewise; it knows seasons, and refuses none.
pub fn knobstream_measure_level_one(
    first: PlainDatetime,
    second: PlainDatetime,
    shape: u8,
    uncertain: u8,
    approximate: u8,
) -> PlainWritten
    ensures { result ≡ plain.measure (measured (level_panics (back.date_of (plain.parts shape uncertain approximate first second))) (level_text (back.date_of (plain.parts shape uncertain approximate first second)))) }
{
    let d = date_of(PlainDate {
        shape,
        uncertain,
        approximate,
        first,
        second,
    });
    plain_measured(writer::level_length(d))
}

// The text of a Date by that writer, at the front of the lent buffer; a refusal stores nothing.
pub fn knobstream_write_level_one(
    first: PlainDatetime,
    second: PlainDatetime,
    out: &mut [u8],
    shape: u8,
    uncertain: u8,
    approximate: u8,
) -> PlainWritten
    ensures value { result ≡ plain.written (answer (level_panics (back.date_of (plain.parts shape uncertain approximate first second))) (level_text (back.date_of (plain.parts shape uncertain approximate first second))) (length out.old)) }
    ensures out_after { out.new ≡ afterwards (level_panics (back.date_of (plain.parts shape uncertain approximate first second))) (level_text (back.date_of (plain.parts shape uncertain approximate first second))) out.old }
{
    let d = date_of(PlainDate {
        shape,
        uncertain,
        approximate,
        first,
        second,
    });
    plain_written(writer::write_level(d, out))
}

// How the first Datetime stands to the second: -1 less, 0 equal, 1 greater, 2 none of these; or the number of the refusal, if one has a season.
pub fn knobstream_compare(a: PlainDatetime, b: PlainDatetime) -> i32
    ensures { result ≡ plain.compared_number (partial_cmp (back.datetime_of a) (back.datetime_of b)) }
{
    let x = datetime_of(a);
    let y = datetime_of(b);
    plain_compared(order::partial_cmp(x, y))
}

// The answer to a line of hexadecimal digits, as a line at the front of the lent buffer; without room for it nothing is stored.
pub fn knobstream_answer_frame(line: &[u8], out: &mut [u8]) -> PlainWritten
    ensures value { result ≡ plain.written (answer false (line_answer line.now) (length out.old)) }
    ensures out_after { out.new ≡ afterwards false (line_answer line.now) out.old }
{
    plain_written(frames::answer(line, out))
}
