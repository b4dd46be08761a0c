// X ranges of a date field: a century or a decade, the months of a year, the days of a month.
#![tactic(auto)]

ghost use Rattle.std.specs.Prelude.{◌≡◌, ◌-◌, ◌+◌, ◌^◌, ◌<◌, pos, None};
ghost use Rattle.refusals.specs.Offset.{text_refusal};
ghost use Rattle.xranges.specs.Range as spec;
ghost use Rattle.dates.specs.Value.{datetime};

use dates::{Datetime, Day, Month};
use refusals::{Kind, TextRefusal, panics, refuse_text};
use scanner::{Class, Cursor};

const HYPHEN: u32 = b'-' as u32;

const LETTER_X: u32 = b'X' as u32;

// A refusal where nothing is taken.
fn here(kind: Kind, c: Cursor) -> TextRefusal
    ensures { result ≡ text_refusal kind c.0 c.0 }
{
    refuse_text(kind, c, c)
}

// How many bytes stand from a cursor to another.
fn len(start: Cursor, c: Cursor) -> usize
    ensures { result ≡ c.0 - start.0 }
{
    if start.0 <= c.0 { c.0 - start.0 } else { 0 }
}

// A date without a time.
fn date(year: u32, month: Option<Month>, day: Option<Day>) -> Datetime
    requires { year < 0x80000000 }
    ensures { result ≡ datetime (pos year) month day None }
{
    Datetime::new(year as i32, month, day, None)
}

// Hyphens, and white space around them.
fn get_hyphen(s: &[u8], c: Cursor) -> Result<Cursor, TextRefusal>
    ensures { result ≡ spec.get_hyphen s.now c.0 }
{
    let start = scanner::eat_whitespace(s, c);
    let next = scanner::eat_while(s, start, Class::Is(HYPHEN));
    if len(start, next) == 0 {
        return Err(here(Kind::InvalidFormat, next));
    }
    Ok(scanner::eat_whitespace(s, next))
}

// How many years a decade, a century has: what the digits that are not sure leave open.
fn variable(sure: usize) -> u32
    ensures { result ≡ 10 ^ (4 - sure) }
{
    match sure {
        0 => 10000,
        1 => 1000,
        2 => 100,
        3 => 10,
        _ => 1,
    }
}

// The years that begin with the digits: a century or a decade.
fn years(digits: u32, variable: u32) -> Result<(Datetime, Datetime), TextRefusal>
    requires { (digits < 10000) × ((variable < 10001) × (0 < variable)) }
    ensures { result ≡ spec.years digits variable }
{
    let year = digits * variable;
    Ok((
        date(year, None, None),
        date(year + (variable - 1), None, None),
    ))
}

// The months of a year, from January to December.
fn months(year: u32) -> Result<(Datetime, Datetime), TextRefusal>
    requires { year < 10000 }
    ensures { result ≡ spec.months year }
{
    Ok((
        date(year, Some(Month(0)), None),
        date(year, Some(Month(11)), None),
    ))
}

// The days of a month. The ported code takes 31 of them for any month.
fn days(year: u32, month: Month) -> Result<(Datetime, Datetime), TextRefusal>
    requires { year < 10000 }
    ensures { result ≡ spec.days year month.0 }
{
    Ok((
        date(year, Some(month), Some(Day(0))),
        date(year, Some(month), Some(Day(30))),
    ))
}

// Behind the XX of the months: the end, or a second XX, behind which nothing is read.
#[tactic(auto, unfolding(crate::specs::Range::behind_months, crate::specs::Range::second_at, crate::specs::Range::on_hyphen, crate::specs::Range::second_run, chars::specs::Pick::pick))]
fn behind_months(s: &[u8], c: Cursor, year: u32) -> Result<(Datetime, Datetime), TextRefusal>
    requires { year < 10000 }
    ensures { result ≡ spec.behind_months s.now c.0 year }
{
    let pos = scanner::eat_whitespace(s, c);
    if scanner::done(s, pos) {
        return months(year);
    }
    let day_start = get_hyphen(s, pos)?;
    let day_end = scanner::eat_while(s, day_start, Class::Is(LETTER_X));
    if len(day_start, day_end) == 2 {
        return months(year);
    }
    Err(here(Kind::InvalidFormat, day_end))
}

// Behind the month: XX, and the end.
#[tactic(auto, unfolding(crate::specs::Range::behind_month, crate::specs::Range::on_hyphen, crate::specs::Range::day_run, crate::specs::Range::end_of_days, chars::specs::Pick::pick))]
fn behind_month(
    s: &[u8],
    c: Cursor,
    year: u32,
    month: Month,
) -> Result<(Datetime, Datetime), TextRefusal>
    requires { year < 10000 }
    ensures { result ≡ spec.behind_month s.now c.0 year month.0 }
{
    let day_start = get_hyphen(s, c)?;
    let day_end = scanner::eat_while(s, day_start, Class::Is(LETTER_X));
    if len(day_start, day_end) == 2 {
        let pos = scanner::eat_whitespace(s, day_end);
        if scanner::done(s, pos) {
            return days(year, month);
        }
        return Err(here(Kind::InvalidFormat, pos));
    }
    Err(here(Kind::InvalidFormat, day_end))
}

// The month of two digits, whose days are the range.
#[tactic(auto, unfolding(crate::specs::Range::month, crate::specs::Range::month_run, crate::specs::Range::on_value, chars::specs::Pick::pick))]
fn month(s: &[u8], start: Cursor, year: u32) -> Result<(Datetime, Datetime), TextRefusal>
    requires { year < 10000 }
    ensures { result ≡ spec.month s.now start.0 year }
{
    let c = scanner::eat_while(s, start, Class::AsciiDigit);
    if len(start, c) != 2 {
        return Err(refuse_text(Kind::WrongNumberOfDigits, start, c));
    }
    match numbers::parse(scanner::from(s, start, c), 255) {
        Some(written) => {
            if written == 0 {
                return Err(panics());
            }
            if 12 < written {
                return Err(refuse_text(Kind::MonthOutOfRange, start, c));
            }
            behind_month(s, c, year, Month((written - 1) as u8))
        }
        None => Err(panics()),
    }
}

// Behind a year of four digits: a hyphen, then XX or a month.
#[tactic(auto, unfolding(crate::specs::Range::behind_year, crate::specs::Range::on_hyphen, crate::specs::Range::months_run, chars::specs::Pick::pick))]
fn behind_year(s: &[u8], c: Cursor, year: u32) -> Result<(Datetime, Datetime), TextRefusal>
    requires { year < 10000 }
    ensures { result ≡ spec.behind_year s.now c.0 year }
{
    let idx = get_hyphen(s, c)?;
    let month_end = scanner::eat_while(s, idx, Class::Is(LETTER_X));
    match len(idx, month_end) {
        0 => month(s, idx, year),
        2 => behind_months(s, month_end, year),
        _ => Err(refuse_text(Kind::WrongNumberOfDigits, idx, month_end)),
    }
}

// The range that a text with an X stands for.
pub fn range_dates(s: &[u8]) -> Result<(Datetime, Datetime), TextRefusal>
    ensures { result ≡ spec.range_dates s.now }
{
    let run = scanner::next_run(s, Cursor(0), Class::AsciiDigit);
    let start = run.start;
    let digits_end = run.end;
    let sure_digits = len(start, digits_end);
    // 10_i32.pow(4 - sure_digits)
    if 4 < sure_digits {
        return Err(panics());
    }
    // The run of X is taken only behind two digits or more.
    if sure_digits < 2 {
        return Err(refuse_text(Kind::WrongNumberOfDigits, Cursor(0), digits_end));
    }
    let year_end = scanner::eat_while(s, digits_end, Class::Is(LETTER_X));
    if len(digits_end, year_end) != 4 - sure_digits {
        return Err(refuse_text(Kind::WrongNumberOfDigits, Cursor(0), year_end));
    }
    match numbers::parse(scanner::from(s, start, digits_end), 9999) {
        Some(year_part) => {
            if sure_digits == 4 {
                return behind_year(s, year_end, year_part);
            }
            years(year_part, variable(sure_digits))
        }
        None => Err(panics()),
    }
}
