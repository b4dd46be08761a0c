// What `knobstream` has for C and Rust, exported under its names: each call hands on what it is lent, and has the contract of the call there.
#![tactic(auto)]

ghost use Rattle.std.specs.Prelude.{◌≡◌, false, length};
ghost use Rattle.reading_laws.specs.Field.{parsed, parsed_strict, parsed_level_one};
ghost use Rattle.chunks.specs.Lent.{lent, optional, three};
ghost use Rattle.reading_laws.specs.Fields.{three_fields};
ghost use Rattle.order.specs.Order.{partial_cmp};
ghost use Rattle.writer.specs.Texts.{date_text};
ghost use Rattle.writer.specs.Fields.{fields_text};
ghost use Rattle.writer.specs.Level.{level_panics, level_text};
ghost use Rattle.puts.specs.Answers.{measured, answer, afterwards};
ghost use Rattle.writer.specs.Answers.{date_measured, date_answer, date_afterwards};
ghost use Rattle.frames.specs.Frame.{line_answer};
ghost use Rattle.knobstream.specs.Plain as plain;
ghost use Rattle.knobstream.specs.Layout.{Answered};
ghost use Rattle.knobstream.specs.Back as back;

use knobstream::{PlainDatetime, PlainWritten};

// The calls on a chronology.
mod entries;
// Six fields.
mod six;
// Days and instants.
mod moments;
// The text of a Date with its times.
mod times;
// Page ranges.
mod ranges;

// The version of these calls and of their structs: a caller that was made for another must not go on.
#[unsafe(no_mangle)]
pub extern "C" fn knobstream_version() -> u32
    ensures { result ≡ 5 }
{
    knobstream::knobstream_version()
}

// A date field, read as the Rust reads it.
#[unsafe(no_mangle)]
pub extern "C" fn knobstream_parse(bytes: &[u8], table: &[u64], answer: &mut [u64; 7])
    ensures { Answered answer.new (plain.read (parsed bytes.now table.now)) }
{
    knobstream::knobstream_parse(bytes, table, answer);
}

// A date field, read by the strict grammar alone.
#[unsafe(no_mangle)]
pub extern "C" fn knobstream_parse_strict(bytes: &[u8], table: &[u64], answer: &mut [u64; 7])
    ensures { Answered answer.new (plain.read (parsed_strict bytes.now table.now)) }
{
    knobstream::knobstream_parse_strict(bytes, table, answer);
}

// A date field, read by the grammar of level one: strict texts, seasons and long years.
#[unsafe(no_mangle)]
pub extern "C" fn knobstream_parse_level_one(bytes: &[u8], table: &[u64], answer: &mut [u64; 7])
    ensures { Answered answer.new (plain.read (parsed_level_one bytes.now table.now)) }
{
    knobstream::knobstream_parse_level_one(bytes, table, answer);
}

// The fields year, month and day; a list is absent if the number before it is 0, and then is not looked at.
#[unsafe(no_mangle)]
pub extern "C" fn knobstream_parse_three_fields(
    year: &[u8],
    year_table: &[u64],
    has_month: u8,
    month: &[u8],
    month_table: &[u64],
    has_day: u8,
    day: &[u8],
    day_table: &[u64],
    answer: &mut [u64; 7],
)
    ensures { Answered answer.new (plain.read (three_fields (three (lent year.now year_table.now) (optional (back.is_set has_month) month.now month_table.now) (optional (back.is_set has_day) day.now day_table.now)))) }
{
    knobstream::knobstream_parse_three_fields(
        year,
        year_table,
        has_month,
        month,
        month_table,
        has_day,
        day,
        day_table,
        answer,
    );
}

// How long the text of a Date is, for whoever must reserve room before it is written; it refuses what the writer refuses, apart from NoRoom. The
// Date is passed part by part: so its Datetimes go in registers.
#[unsafe(no_mangle)]
pub extern "C" fn knobstream_measure_date(
    first: PlainDatetime,
    second: PlainDatetime,
    shape: u8,
    uncertain: u8,
    approximate: u8,
) -> PlainWritten
    ensures { result ≡ plain.measure (date_measured (back.date_of (plain.parts shape uncertain approximate first second)) (date_text (back.date_of (plain.parts shape uncertain approximate first second)))) }
{
    knobstream::knobstream_measure_date(first, second, shape, uncertain, approximate)
}

// The text of a Date, at the front of the lent buffer; a refusal stores nothing. Usual numbers are put at once.
#[unsafe(no_mangle)]
pub extern "C" fn knobstream_write_date(
    first: PlainDatetime,
    second: PlainDatetime,
    out: &mut [u8],
    shape: u8,
    uncertain: u8,
    approximate: u8,
) -> PlainWritten
    ensures value { result ≡ plain.written (date_answer (back.date_of (plain.parts shape uncertain approximate first second)) (date_text (back.date_of (plain.parts shape uncertain approximate first second))) (length out.old)) }
    ensures out_after { out.new ≡ date_afterwards (back.date_of (plain.parts shape uncertain approximate first second)) (date_text (back.date_of (plain.parts shape uncertain approximate first second))) out.old }
{
    knobstream::knobstream_write_date(first, second, out, shape, uncertain, approximate)
}

// The fields of a Date as lines, likewise.
#[unsafe(no_mangle)]
pub extern "C" fn knobstream_write_fields(
    first: PlainDatetime,
    second: PlainDatetime,
    out: &mut [u8],
    shape: u8,
    uncertain: u8,
    approximate: u8,
) -> PlainWritten
    ensures value { result ≡ plain.written (date_answer (back.date_of (plain.parts shape uncertain approximate first second)) (fields_text (back.date_of (plain.parts shape uncertain approximate first second))) (length out.old)) }
    ensures out_after { out.new ≡ date_afterwards (back.date_of (plain.parts shape uncertain approximate first second)) (fields_text (back.date_of (plain.parts shape uncertain approximate first second))) out.old }
{
    knobstream::knobstream_write_fields(first, second, out, shape, uncertain, approximate)
}

// How long the text of a Date is by the writer of level one, likewise; it knows seasons, and refuses none.
#[unsafe(no_mangle)]
pub extern "C" fn knobstream_measure_level_one(
    first: PlainDatetime,
    second: PlainDatetime,
    shape: u8,
    uncertain: u8,
    approximate: u8,
) -> PlainWritten
    ensures { result ≡ plain.measure (measured (level_panics (back.date_of (plain.parts shape uncertain approximate first second))) (level_text (back.date_of (plain.parts shape uncertain approximate first second)))) }
{
    knobstream::knobstream_measure_level_one(first, second, shape, uncertain, approximate)
}

// The text of a Date by that writer, at the front of the lent buffer; a refusal stores nothing.
#[unsafe(no_mangle)]
pub extern "C" fn knobstream_write_level_one(
    first: PlainDatetime,
    second: PlainDatetime,
    out: &mut [u8],
    shape: u8,
    uncertain: u8,
    approximate: u8,
) -> PlainWritten
    ensures value { result ≡ plain.written (answer (level_panics (back.date_of (plain.parts shape uncertain approximate first second))) (level_text (back.date_of (plain.parts shape uncertain approximate first second))) (length out.old)) }
    ensures out_after { out.new ≡ afterwards (level_panics (back.date_of (plain.parts shape uncertain approximate first second))) (level_text (back.date_of (plain.parts shape uncertain approximate first second))) out.old }
{
    knobstream::knobstream_write_level_one(first, second, out, shape, uncertain, approximate)
}

// How the first Datetime stands to the second: -1 less, 0 equal, 1 greater, 2 none of these; or the number of the refusal, if one has a season.
#[unsafe(no_mangle)]
pub extern "C" fn knobstream_compare(a: PlainDatetime, b: PlainDatetime) -> i32
    ensures { result ≡ plain.compared_number (partial_cmp (back.datetime_of a) (back.datetime_of b)) }
{
    knobstream::knobstream_compare(a, b)
}

// The answer to a line of hexadecimal digits, as a line at the front of the lent buffer; without room for it nothing is stored.
#[unsafe(no_mangle)]
pub extern "C" fn knobstream_answer_frame(line: &[u8], out: &mut [u8]) -> PlainWritten
    ensures value { result ≡ plain.written (answer false (line_answer line.now) (length out.old)) }
    ensures out_after { out.new ≡ afterwards false (line_answer line.now) out.old }
{
    knobstream::knobstream_answer_frame(line, out)
}
