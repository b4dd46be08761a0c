// What is said of the dates of a row of an import file: full, read otherwise, or refused. The text of a cell is read as one Normal chunk.
#![tactic(auto)]

ghost use Rattle.std.specs.Prelude.{◌≡◌};
ghost use Rattle.std.specs.Bool.{then_some};
ghost use Rattle.datefield.specs.Text as text;
ghost use Rattle.verdicts.specs.Dates as dates_specs;
ghost use Rattle.verdicts.specs.Windows as windows;
ghost use Rattle.verdicts.specs.Plain as plain;
ghost use Rattle.verdicts.specs.Fields as six;

use chunks::ChunksRef;
use dates::{Date, DateValue, Day};
use numbers::Digits;
use reader::ThreeFields;
use refusals::Refusal;
use scanner::{Class, Cursor};

// What is said of a date.
#[derive(Clone, Copy)]
pub enum Verdict {
    // There is none.
    NoDate,
    // It is as it should be.
    Full,
    // It is not, and this is read.
    NotStrict(Date),
    // A year has fewer than four digits and no era, and this is read.
    ShortYear(Date),
    // A part is given that is not read.
    Unread,
    // It is not read.
    Refused(Refusal),
}

// ---- a date in one cell

// The day on which a range with both ends ends.
fn end_day(v: DateValue) -> Option<Day>
    ensures { result ≡ dates_specs.end_day v }
{
    match v {
        DateValue::At(_) => None,
        DateValue::After(_) => None,
        DateValue::Before(_) => None,
        DateValue::Between(_, b) => b.day,
    }
}

// Whether two days are the same, or both are none.
#[tactic(auto, unfolding(crate::specs::Dates::same_day))]
fn same_day(a: Option<Day>, b: Option<Day>) -> bool
    ensures { result ≡ dates_specs.same_day a b }
{
    match (a, b) {
        (None, None) => true,
        (Some(x), Some(y)) => x.0 == y.0,
        _ => false,
    }
}

// Whether the strict reader gives the ported reader's Date, too.
#[tactic(auto, unfolding(crate::specs::Dates::is_same))]
fn is_same(strict: Result<Date, Refusal>, e: Date) -> bool
    ensures { result ≡ dates_specs.is_same strict e }
{
    strict.is_ok_and(|d| same_day(end_day(d.value), end_day(e.value)))
}

// What is said by the answers of both readers.
#[tactic(auto, unfolding(crate::specs::Dates::by_readers, chars::specs::Pick::pick))]
fn by_readers(strict: Result<Date, Refusal>, ported: Result<Date, Refusal>) -> Verdict
    ensures { result ≡ dates_specs.by_readers strict ported }
{
    match ported {
        Ok(e) => {
            if is_same(strict, e) {
                return Verdict::Full;
            }
            Verdict::NotStrict(e)
        }
        Err(f) => Verdict::Refused(f),
    }
}

// The table of a cell, which is one Normal chunk.
fn table_of(cell: &[u8]) -> [u64; 4]
    ensures { result ≡ dates_specs.cell_table cell.now }
{
    let n = cell.len() as u64;
    [0, n, 0, n]
}

// A date in one cell. That it is strict, and no range with both ends, is seen from the words: then the ported reader gives the same Date, and is not asked.
pub fn date_verdict(cell: &[u8]) -> Verdict
    ensures { result ≡ dates_specs.date_verdict cell.now }
{
    if cell.len() == 0 {
        return Verdict::NoDate;
    }
    let table = table_of(cell);
    let list = ChunksRef {
        bytes: cell,
        table: &table,
    };
    let w = reader::parse_strict_words(list);
    if w.last < 4294967296 {
        if w.last % 256 < 3 {
            return Verdict::Full;
        }
    }
    by_readers(codes::unpack(w), reader::parse(list))
}

// ---- a year of two digits

// The place of the first byte that is b, or the end.
fn find(s: &[u8], b: u8) -> usize
    ensures { result ≡ text.first_of b s.now }
{
    for (i, x) in s.iter().enumerate() {
        if *x == b {
            return i;
        }
    }
    s.len()
}

// Whether there is an X or an x.
fn has_x(s: &[u8]) -> bool
    ensures { result ≡ windows.has_x s.now }
{
    if find(s, b'X') < s.len() {
        return true;
    }
    find(s, b'x') < s.len()
}

// Whether a text begins with a number of two bytes.
#[tactic(auto, unfolding(crate::specs::Windows::begins_two, crate::specs::Windows::is_int))]
fn begins_two(s: &[u8]) -> bool
    ensures { result ≡ windows.begins_two s.now }
{
    numbers::parse_int(s, Cursor(0), Digits::Two).is_ok()
}

// Whether a year of two digits was put into the window of a hundred years.
pub fn is_windowed(cell: &[u8]) -> bool
    ensures { result ≡ windows.is_windowed cell.now }
{
    if has_x(cell) {
        return false;
    }
    let slash = find(cell, b'/');
    if begins_two(&cell[..slash]) {
        return true;
    }
    if slash < cell.len() {
        return begins_two(&cell[slash + 1..]);
    }
    false
}

// ---- a date in six cells

// Whether one of three cells has a text.
fn some_given(year: &[u8], month: &[u8], day: &[u8]) -> bool
    ensures { result ≡ six.some_given (six.cells year.now month.now day.now) }
{
    0 < year.len() || (0 < month.len() || 0 < day.len())
}

// Whether there is a day without a month.
fn day_alone(month: &[u8], day: &[u8]) -> bool
    ensures { result ≡ six.day_alone month.now day.now }
{
    if 0 < month.len() {
        return false;
    }
    0 < day.len()
}

// Whether an end has a text, and a year that is blank.
fn behind_blank(year: &[u8], month: &[u8], day: &[u8]) -> bool
    ensures { result ≡ six.behind_blank (six.cells year.now month.now day.now) }
{
    if some_given(year, month, day) {
        return datefield::is_blank(year);
    }
    false
}

// Whether a text is a year of fewer than four digits and no era.
fn few_digits(s: &[u8]) -> bool
    ensures { result ≡ six.few_digits s.now }
{
    let a = numbers::eat_sign(s, scanner::eat_whitespace(s, Cursor(0)));
    let e = scanner::eat_while(s, a, Class::AsciiDigit);
    if a.0 < e.0 {
        if e.0 - a.0 < 4 {
            let c = scanner::eat_whitespace(s, e);
            return scanner::done(s, c);
        }
    }
    false
}

// Whether the year or the end year is such a one.
fn either_few(year: &[u8], end_year: &[u8]) -> bool
    ensures { result ≡ six.either_few year.now end_year.now }
{
    few_digits(year) || few_digits(end_year)
}

// ---- what leaves nothing to be guessed

// Whether a text is digits alone, from low to high of them.
fn is_digits(s: &[u8], low: usize, high: usize) -> bool
    ensures { result ≡ plain.is_digits low high s.now }
{
    if low <= s.len() {
        if s.len() <= high {
            let e = scanner::eat_while(s, Cursor(0), Class::AsciiDigit);
            return scanner::done(s, e);
        }
    }
    false
}

// Whether a text is four digits, behind a minus or not.
fn is_full_year(s: &[u8]) -> bool
    ensures { result ≡ plain.is_full_year s.now }
{
    if s.len() == 0 {
        return false;
    }
    if s[0] == b'-' {
        return is_digits(&s[1..], 4, 4);
    }
    is_digits(s, 4, 4)
}

// Whether a text stands at a place, and nothing behind it.
#[tactic(auto, unfolding(crate::specs::Plain::ends_in, fields::specs::Year::on_past))]
fn ends_in(t: &[u8], s: &[u8], c: Cursor) -> bool
    ensures { result ≡ plain.ends_in t.now s.now c.0 }
{
    scanner::eat_text(s, c, t).is_some_and(|e| scanner::done(s, e))
}

// Whether an era behind one space stands there.
fn ends_in_era(s: &[u8], c: Cursor) -> bool
    ensures { result ≡ plain.ends_in_era s.now c.0 }
{
    ends_in(b" AD", s, c)
        || (ends_in(b" CE", s, c) || (ends_in(b" BC", s, c) || ends_in(b" BCE", s, c)))
}

// Whether a text is one to four digits and an era.
fn is_era_year(s: &[u8]) -> bool
    ensures { result ≡ plain.is_era_year s.now }
{
    let e = scanner::eat_while(s, Cursor(0), Class::AsciiDigit);
    if 0 < e.0 {
        if e.0 < 5 {
            return ends_in_era(s, e);
        }
    }
    false
}

// Whether a year's cell is plain.
fn is_plain_year(s: &[u8]) -> bool
    ensures { result ≡ plain.is_plain_year s.now }
{
    if s.len() == 0 {
        return true;
    }
    is_full_year(s) || is_era_year(s)
}

// Whether a month's cell is.
#[tactic(auto, unfolding(crate::specs::Plain::is_plain_month, crate::specs::Plain::is_named))]
fn is_plain_month(s: &[u8]) -> bool
    ensures { result ≡ plain.is_plain_month s.now }
{
    is_digits(s, 0, 2) || fields::month_for(s).is_some()
}

// Whether three cells are.
fn are_plain(year: &[u8], month: &[u8], day: &[u8]) -> bool
    ensures { result ≡ six.are_plain (six.cells year.now month.now day.now) }
{
    is_plain_year(year) && (is_plain_month(month) && is_digits(day, 0, 2))
}

// Whether the strict reader accepts a text.
fn is_strict_text(s: &[u8]) -> bool
    ensures { result ≡ plain.is_strict_text s.now }
{
    let table = table_of(s);
    let w = reader::parse_strict_words(ChunksRef {
        bytes: s,
        table: &table,
    });
    w.last < 4294967296
}

// Whether it accepts the written text of a Date.
fn is_strict(d: Date) -> bool
    ensures { result ≡ plain.is_strict d }
{
    let mut text = [0u8; 40];
    match writer::write_text(d, &mut text) {
        Ok(n) => is_strict_text(&text[..n]),
        Err(_) => false,
    }
}

// ---- a date in six cells, as it is read

// What was read: a year is short, or it is full, or neither.
#[tactic(auto, unfolding(crate::specs::Fields::verdict_of, chars::specs::Pick::pick))]
fn verdict_of(short: bool, plain: bool, r: Result<Date, Refusal>) -> Verdict
    ensures { result ≡ six.verdict_of short plain r }
{
    match r {
        Ok(d) => {
            if short {
                return Verdict::ShortYear(d);
            }
            if plain {
                if is_strict(d) {
                    return Verdict::Full;
                }
                return Verdict::NotStrict(d);
            }
            Verdict::NotStrict(d)
        }
        Err(e) => Verdict::Refused(e),
    }
}

// A cell as a list, if it has a text.
fn list_if<'a>(cell: &'a [u8], table: &'a [u64]) -> Option<ChunksRef<'a>>
    ensures { result ≡ then_some (six.is_given cell.now) (record { bytes = cell.entry; table = table.entry }) }
{
    (0 < cell.len()).then_some(ChunksRef { bytes: cell, table })
}

// Cells of a start and of an end, as the reader of six fields reads them.
fn read_six(
    year: &[u8],
    month: &[u8],
    day: &[u8],
    end_year: &[u8],
    end_month: &[u8],
    end_day: &[u8],
) -> Result<Date, Refusal>
    ensures { result ≡ six.six_read (six.cells year.now month.now day.now) (six.cells end_year.now end_month.now end_day.now) }
{
    let y = table_of(year);
    let m = table_of(month);
    let d = table_of(day);
    let ey = table_of(end_year);
    let em = table_of(end_month);
    let ed = table_of(end_day);
    let start = ThreeFields {
        year: ChunksRef {
            bytes: year,
            table: &y,
        },
        month: list_if(month, &m),
        day: list_if(day, &d),
    };
    let end = ThreeFields {
        year: ChunksRef {
            bytes: end_year,
            table: &ey,
        },
        month: list_if(end_month, &em),
        day: list_if(end_day, &ed),
    };
    sixfields::parse_six_fields(start, (0 < end_year.len()).then_some(end))
}

// Whether a cell has a text that the reader of six fields would not look at.
fn is_unread(month: &[u8], day: &[u8], end_year: &[u8], end_month: &[u8], end_day: &[u8]) -> bool
    ensures { result ≡ six.is_unread month.now day.now (six.cells end_year.now end_month.now end_day.now) }
{
    day_alone(month, day)
        || (behind_blank(end_year, end_month, end_day) || day_alone(end_month, end_day))
}

// Whether six cells are plain.
fn both_plain(
    year: &[u8],
    month: &[u8],
    day: &[u8],
    end_year: &[u8],
    end_month: &[u8],
    end_day: &[u8],
) -> bool
    ensures { result ≡ six.both_plain (six.cells year.now month.now day.now) (six.cells end_year.now end_month.now end_day.now) }
{
    are_plain(year, month, day) && are_plain(end_year, end_month, end_day)
}

// What the reader of six fields says.
fn read_verdict(
    year: &[u8],
    month: &[u8],
    day: &[u8],
    end_year: &[u8],
    end_month: &[u8],
    end_day: &[u8],
) -> Verdict
    ensures { result ≡ six.read_verdict (six.cells year.now month.now day.now) (six.cells end_year.now end_month.now end_day.now) }
{
    let short = either_few(year, end_year);
    let plain = both_plain(year, month, day, end_year, end_month, end_day);
    verdict_of(
        short,
        plain,
        read_six(year, month, day, end_year, end_month, end_day),
    )
}

// Six cells of which one has a text.
fn given_verdict(
    year: &[u8],
    month: &[u8],
    day: &[u8],
    end_year: &[u8],
    end_month: &[u8],
    end_day: &[u8],
) -> Verdict
    ensures { result ≡ six.given_verdict (six.cells year.now month.now day.now) (six.cells end_year.now end_month.now end_day.now) }
{
    if is_unread(month, day, end_year, end_month, end_day) {
        return Verdict::Unread;
    }
    read_verdict(year, month, day, end_year, end_month, end_day)
}

// A date in six cells: year, month and day of a start and of an end.
pub fn six_verdict(
    year: &[u8],
    month: &[u8],
    day: &[u8],
    end_year: &[u8],
    end_month: &[u8],
    end_day: &[u8],
) -> Verdict
    ensures { result ≡ six.six_verdict (six.cells year.now month.now day.now) (six.cells end_year.now end_month.now end_day.now) }
{
    if some_given(year, month, day) {
        return given_verdict(year, month, day, end_year, end_month, end_day);
    }
    if some_given(end_year, end_month, end_day) {
        return given_verdict(year, month, day, end_year, end_month, end_day);
    }
    Verdict::NoDate
}
