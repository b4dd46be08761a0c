// Refusals: why a call refuses, and where. A place in the formatted text and a place in the file are two types. Only the functions here
// make one of the other.
#![tactic(auto)]

ghost use Rattle.std.specs.Prelude.{◌≡◌};
ghost use Rattle.refusals.specs.Refusal as spec;
ghost use Rattle.refusals.specs.Offset as move_specs;

use dates::Date;
use scanner::Cursor;

// Why a call refuses.
#[derive(Clone, Copy)]
pub enum Kind {
    // The date range is open on both sides.
    UndefinedRange = 1,
    // The day is no day of a month, or not of its month.
    DayOutOfRange,
    // The month is not one of twelve.
    MonthOutOfRange,
    // What stands there is no number, or not in its range.
    InvalidNumber,
    // Where a number must stand there is none: behind a separator, or in an empty day field.
    MissingNumber,
    // Too few digits, or too many.
    WrongNumberOfDigits,
    // The text is none of the forms that are read.
    InvalidFormat,
    // No era has a year zero.
    YearZeroCE,
    // The ported code panics on this input.
    RustPanics,
    // The bytes are not UTF-8.
    BadUtf8,
    // A character that is not among those that are read.
    UnsupportedChar,
    // The text is not one of the strict grammar.
    NotStrict,
    // The lent buffer is too short.
    NoRoom,
    // The line is no frame.
    BadFrame,
    // The chunk table does not fit the bytes, or the counts of pieces the table.
    BadChunks,
    // Too many chunks, bytes or pieces.
    TooLong,
    // No year, month or day of the calendar from -9999 to 9999.
    NotACalendarDate,
    // The last day is before the first, or a day outside the calendar from -9999 to 9999.
    BadPeriod,
    // The chronology has an entry of this identifier.
    DuplicateEntry,
    // The chronology has as many entries as it keeps.
    ChronologyFull,
    // The chronology has no entry of this identifier.
    UnknownEntry,
    // A time without a day beside a month, or one that no clock shows, or whose offset none has.
    BadTime,
    // The text is not one of level one.
    NotLevelOne,
    // A date has a season, which this call does not know.
    HasSeason,
    // A day, a time or its offset is absent, so there is no instant.
    NoInstant,
    // What was lent is no chronology.
    BadChronology,
}

// A place in the file, from a byte to another. The last field is private: everyone reads the two numbers, and only the functions here
// make a place.
#[derive(Clone, Copy)]
pub struct FileSpan(pub u64, pub u64, ());

// A place in the formatted text, from a byte to another.
#[derive(Clone, Copy)]
pub struct TextSpan(pub usize, pub usize);

// A refusal, with its place in the file.
#[derive(Clone, Copy)]
pub struct Refusal {
    pub kind: Kind,
    pub place: FileSpan,
}

// A refusal while the formatted text is read, with its place in that text.
#[derive(Clone, Copy)]
pub struct TextRefusal {
    pub kind: Kind,
    pub place: TextSpan,
}

// The refusal of what stands from a cursor to another.
pub fn refuse_text(kind: Kind, start: Cursor, end: Cursor) -> TextRefusal
    ensures { result ≡ move_specs.text_refusal kind start.0 end.0 }
{
    TextRefusal {
        kind,
        place: TextSpan(start.0, end.0),
    }
}

// What stands for a panic of the ported code. It has no place.
pub fn panics() -> TextRefusal
    ensures { result ≡ move_specs.panics }
{
    refuse_text(Kind::RustPanics, Cursor(0), Cursor(0))
}

// Programs in other languages go by this number.
pub fn number(kind: Kind) -> u8
    ensures { result ≡ spec.number kind }
{
    kind as u8
}

// The kind of a number; of numbers that are none of theirs, the last.
pub fn kind_of(n: u8) -> Kind
    ensures { result ≡ spec.kind_of n }
{
    match n {
        1 => Kind::UndefinedRange,
        2 => Kind::DayOutOfRange,
        3 => Kind::MonthOutOfRange,
        4 => Kind::InvalidNumber,
        5 => Kind::MissingNumber,
        6 => Kind::WrongNumberOfDigits,
        7 => Kind::InvalidFormat,
        8 => Kind::YearZeroCE,
        9 => Kind::RustPanics,
        10 => Kind::BadUtf8,
        11 => Kind::UnsupportedChar,
        12 => Kind::NotStrict,
        13 => Kind::NoRoom,
        14 => Kind::BadFrame,
        15 => Kind::BadChunks,
        16 => Kind::TooLong,
        17 => Kind::NotACalendarDate,
        18 => Kind::BadPeriod,
        19 => Kind::DuplicateEntry,
        20 => Kind::ChronologyFull,
        21 => Kind::UnknownEntry,
        22 => Kind::BadTime,
        23 => Kind::NotLevelOne,
        24 => Kind::HasSeason,
        25 => Kind::NoInstant,
        _ => Kind::BadChronology,
    }
}

// Whether a refusal names a place: 9 and those from 12 on name none.
pub fn has_place(kind: Kind) -> bool
    ensures { result ≡ spec.has_place kind }
{
    let n = number(kind);
    if n == 9 {
        return false;
    }
    n < 12
}

// The refusal of a kind at a place in the file; a kind that names none has 0, 0.
pub fn refuse(kind: Kind, place: FileSpan) -> Refusal
    ensures { result ≡ spec.refusal kind place }
{
    if has_place(kind) {
        return Refusal { kind, place };
    }
    Refusal {
        kind,
        place: FileSpan(0, 0, ()),
    }
}

// The refusal of a kind that names no place.
pub fn nowhere(kind: Kind) -> Refusal
    ensures { result ≡ spec.nowhere kind }
{
    refuse(kind, FileSpan(0, 0, ()))
}

// The span that a chunk table names: it is in the file by the caller's word.
pub fn lent_span(start: u64, end: u64) -> FileSpan
    ensures { result ≡ spec.file_span start end }
{
    FileSpan(start, end, ())
}

// The refusal of a kind at a place of the lent bytes, which no span moves.
pub fn bytes_at(kind: Kind, start: usize, end: usize) -> Refusal
    ensures { result ≡ spec.bytes_at kind start end }
{
    refuse(kind, FileSpan(start as u64, end as u64, ()))
}

// The sum, or the largest number where it would be above that.
fn saturating_add(a: usize, b: u64) -> u64
    ensures { result ≡ move_specs.saturating_add a b }
{
    let x = a as u64;
    if x <= u64::MAX - b { x + b } else { u64::MAX }
}

// A refusal in the text, with its place moved by the amount that the text stands at in the file.
pub fn offset(e: TextRefusal, amount: u64) -> Refusal
    ensures { result ≡ move_specs.offset e amount }
{
    let kind = e.kind;
    let start = saturating_add(e.place.0, amount);
    let end = saturating_add(e.place.1, amount);
    refuse(kind, FileSpan(start, end, ()))
}

// A refusal in the half behind a slash at a position, in a list whose span has a start.
pub fn offset_second(e: TextRefusal, start: u64, slash: usize) -> Refusal
    ensures { result ≡ move_specs.offset_second e start slash }
{
    let pos = slash as u64;
    if u64::MAX - pos <= start {
        return nowhere(Kind::RustPanics);
    }
    offset(e, start + pos + 1)
}

// A refusal of a page number at its own place, in a list whose span has a start.
pub fn offset_number(e: TextRefusal, start: u64) -> Refusal
    ensures { result ≡ move_specs.offset_number e start }
{
    let kind = e.kind;
    let a = e.place.0 as u64;
    let b = e.place.1 as u64;
    if u64::MAX - start < b {
        return nowhere(Kind::RustPanics);
    }
    if u64::MAX - start < a {
        return nowhere(Kind::RustPanics);
    }
    refuse(kind, FileSpan(a + start, b + start, ()))
}

// A refusal of the day that the month field holds: its place is left as it is in the text.
pub fn unshifted(e: TextRefusal) -> Refusal
    ensures { result ≡ move_specs.unshifted e }
{
    let kind = e.kind;
    let start = e.place.0 as u64;
    let end = e.place.1 as u64;
    refuse(kind, FileSpan(start, end, ()))
}

// A refusal behind the second number of a page range: from a place in the text, which is left as it is, to the end of the list's span.
pub fn until_span_end(kind: Kind, start: Cursor, span: FileSpan) -> Refusal
    ensures { result ≡ move_specs.until_span_end kind start.0 span }
{
    refuse(kind, FileSpan(start.0 as u64, span.1, ()))
}
