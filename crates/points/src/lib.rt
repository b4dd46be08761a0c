// A point of a date field, as the ported `Datetime::parse` reads it, with the places of its refusals.
// Each step gives what it read and the place behind it, or a refusal that is finished: nobody above computes a place again.
#![tactic(auto)]

ghost use Rattle.std.specs.Prelude.{◌≡◌, ◌<◌};
ghost use Rattle.std.specs.Int.Signed.{mag};
ghost use Rattle.numbers.specs.declared.Digits.TheVariants.{Two, Four};
ghost use Rattle.numbers.specs.Number.{int_of};
ghost use Rattle.points.specs.Step as step;
ghost use Rattle.points.specs.Time as time;
ghost use Rattle.points.specs.Point as spec;

use dates::{Datetime, Day, Month, Time, TimeOffset};
use numbers::{Digits, NoNumber, SignedRun};
use refusals::{Kind, TextRefusal, panics, refuse_text};
use scanner::{Class, Cursor};

const HYPHEN: u32 = b'-' as u32;

const COLON: u32 = b':' as u32;

const TEE: u32 = b'T' as u32;

const ZED: u32 = b'Z' as u32;

const PLUS: u32 = b'+' as u32;

// Why a number that should stand at a cursor is none.
#[tactic(auto, unfolding(crate::specs::Step::refuse_number))]
fn refuse_number(c: Cursor, e: NoNumber) -> TextRefusal
    ensures { result ≡ step.refuse_number c.0 e }
{
    match e {
        NoNumber::Wrong { next } => refuse_text(Kind::InvalidFormat, c, next),
        NoNumber::Panics => panics(),
    }
}

// A year of two digits, or one behind a minus: it is near to the year 2000.
fn window(year: i32) -> i32
    requires { mag year < 100 }
    ensures { result ≡ spec.windowed year }
{
    if year < 50 { year + 2000 } else { year + 1900 }
}

// A run as a year of two bytes.
#[tactic(auto, unfolding(crate::specs::Point::windowed_int))]
fn short_year(s: &[u8], run: SignedRun) -> Result<(i32, Cursor), NoNumber>
    ensures { result ≡ spec.windowed_int (int_of s.now run Two) }
{
    let (value, next) = numbers::int_of(s, run, Digits::Two)?;
    Ok((window(value), next))
}

// A run as a year of four bytes, or a refusal from where reading began.
#[tactic(auto, unfolding(crate::specs::Point::long_of))]
fn long_year(s: &[u8], c: Cursor, run: SignedRun) -> Result<(i32, Cursor), TextRefusal>
    ensures { result ≡ spec.long_of c.0 (int_of s.now run Four) }
{
    let year = numbers::int_of(s, run, Digits::Four).map_err(|e| refuse_number(c, e))?;
    Ok(year)
}

// A year of two bytes, or else one of four from the same place on: the run is the same one.
#[tactic(auto, unfolding(crate::specs::Point::year_at, crate::specs::Point::short_or, crate::specs::Point::short_year, crate::specs::Point::long_year, numbers::specs::Number::parse_int))]
fn parse_any_year(s: &[u8], c: Cursor) -> Result<(i32, Cursor), TextRefusal>
    ensures { result ≡ spec.year_at s.now c.0 }
{
    let run = numbers::signed_run(s, c);
    match short_year(s, run) {
        Ok(year) => Ok(year),
        Err(NoNumber::Wrong { next: _ }) => long_year(s, c, run),
        Err(NoNumber::Panics) => Err(panics()),
    }
}

// A number of one or two bytes from a lowest one to a highest, which it is refused for as this kind.
#[tactic(auto, unfolding(crate::specs::Step::part_at, crate::specs::Step::stored_part, chars::specs::Pick::pick))]
fn parse_part(
    s: &[u8],
    c: Cursor,
    low: u8,
    high: u8,
    kind: Kind,
) -> Result<(u8, Cursor), TextRefusal>
    ensures { result ≡ step.part_at s.now c.0 low high kind }
{
    let (value, next) = match numbers::parse_unsigned_int(s, c, Digits::OneOrTwo) {
        Ok(number) => number,
        Err(e) => return Err(refuse_number(c, e)),
    };
    if value < (low as u32) || (high as u32) < value {
        return Err(refuse_text(kind, c, next));
    }
    Ok(((value - (low as u32)) as u8, next))
}

// The month in the 0-11 range.
fn parse_month(s: &[u8], c: Cursor) -> Result<(u8, Cursor), TextRefusal>
    ensures { result ≡ step.month_at s.now c.0 }
{
    parse_part(s, c, 1, 12, Kind::MonthOutOfRange)
}

// The day in the 0-30 range.
fn parse_day(s: &[u8], c: Cursor) -> Result<(u8, Cursor), TextRefusal>
    ensures { result ≡ step.day_at s.now c.0 }
{
    parse_part(s, c, 1, 31, Kind::DayOutOfRange)
}

// The hour in the 0-23 range.
fn parse_hour(s: &[u8], c: Cursor) -> Result<(u8, Cursor), TextRefusal>
    ensures { result ≡ step.hour_at s.now c.0 }
{
    parse_part(s, c, 0, 23, Kind::InvalidNumber)
}

// Minutes or seconds in the 0-59 range.
fn parse_minutes_or_seconds(s: &[u8], c: Cursor) -> Result<(u8, Cursor), TextRefusal>
    ensures { result ≡ step.sixty_at s.now c.0 }
{
    parse_part(s, c, 0, 59, Kind::InvalidNumber)
}

// White space, then hyphens.
#[tactic(auto, unfolding(crate::specs::Step::hyphen_at, crate::specs::Step::hyphen_from, crate::specs::Step::hyphen_or))]
fn parse_hyphen(s: &[u8], c: Cursor) -> Result<Cursor, TextRefusal>
    ensures { result ≡ step.hyphen_at s.now c.0 }
{
    let pos = scanner::eat_whitespace(s, c);
    match scanner::eat_if(s, pos, Class::Is(HYPHEN)) {
        Some(next) => Ok(scanner::eat_while(s, next, Class::Is(HYPHEN))),
        None => Err(refuse_text(Kind::InvalidFormat, c, pos)),
    }
}

// White space, then a colon.
#[tactic(auto, unfolding(crate::specs::Step::colon_at, crate::specs::Step::colon_from, crate::specs::Step::colon_or))]
fn parse_colon(s: &[u8], c: Cursor) -> Result<Cursor, TextRefusal>
    ensures { result ≡ step.colon_at s.now c.0 }
{
    let pos = scanner::eat_whitespace(s, c);
    match scanner::eat_if(s, pos, Class::Is(COLON)) {
        Some(next) => Ok(next),
        None => Err(refuse_text(Kind::InvalidFormat, c, pos)),
    }
}

// Behind the sign of an offset: hours, and minutes unless the text ends. What stands behind the minutes is not read.
#[tactic(auto, unfolding(crate::specs::Time::shift_at, crate::specs::Step::on_part, crate::specs::Step::or_end, crate::specs::Step::on_separator, chars::specs::Pick::pick))]
fn parse_shift(s: &[u8], c: Cursor, positive: bool) -> Result<TimeOffset, TextRefusal>
    ensures { result ≡ time.shift_at s.now c.0 positive }
{
    let (hours, next) = parse_hour(s, c)?;
    let pos = scanner::eat_whitespace(s, next);
    if scanner::done(s, pos) {
        return Ok(TimeOffset::Offset {
            positive,
            hours,
            minutes: 0,
        });
    }
    let minute_start = parse_colon(s, pos)?;
    let (minutes, _) = parse_minutes_or_seconds(s, minute_start)?;
    Ok(TimeOffset::Offset {
        positive,
        hours,
        minutes,
    })
}

// White space, then Z, or a sign and what is behind it. What stands behind the Z is not read.
#[tactic(auto, unfolding(crate::specs::Time::offset_at, crate::specs::Time::offset_from, crate::specs::Time::offset_by, chars::specs::Pick::pick))]
fn parse_offset(s: &[u8], c: Cursor) -> Result<TimeOffset, TextRefusal>
    ensures { result ≡ time.offset_at s.now c.0 }
{
    let pos = scanner::eat_whitespace(s, c);
    match scanner::eat(s, pos) {
        Some((code, next)) => {
            if code == ZED {
                return Ok(TimeOffset::Utc);
            }
            if code == PLUS {
                return parse_shift(s, next, true);
            }
            if code == HYPHEN {
                return parse_shift(s, next, false);
            }
            Err(refuse_text(Kind::InvalidFormat, pos, next))
        }
        None => Err(refuse_text(Kind::InvalidFormat, pos, pos)),
    }
}

// A time with no offset.
fn local(hour: u8, minute: u8, second: u8) -> Time
    ensures { result ≡ time.local hour minute second }
{
    Time {
        hour,
        minute,
        second,
        offset: None,
    }
}

// Behind the second: the end of the text, or an offset.
#[tactic(auto, unfolding(crate::specs::Time::behind_second, crate::specs::Step::or_end, crate::specs::Time::with_offset, chars::specs::Pick::pick))]
fn behind_second(s: &[u8], c: Cursor, hour: u8, minute: u8, second: u8) -> Result<Time, TextRefusal>
    ensures { result ≡ time.behind_second s.now c.0 hour minute second }
{
    let pos = scanner::eat_whitespace(s, c);
    if scanner::done(s, pos) {
        return Ok(local(hour, minute, second));
    }
    let offset = parse_offset(s, pos)?;
    Ok(Time {
        hour,
        minute,
        second,
        offset: Some(offset),
    })
}

// Behind the minute: the end of the text, or a second.
#[tactic(auto, unfolding(crate::specs::Time::behind_minute, crate::specs::Step::or_end, crate::specs::Step::on_separator, crate::specs::Step::on_part, chars::specs::Pick::pick))]
fn behind_minute(s: &[u8], c: Cursor, hour: u8, minute: u8) -> Result<Time, TextRefusal>
    ensures { result ≡ time.behind_minute s.now c.0 hour minute }
{
    let pos = scanner::eat_whitespace(s, c);
    if scanner::done(s, pos) {
        return Ok(local(hour, minute, 0));
    }
    let second_start = parse_colon(s, pos)?;
    let (second, next) = parse_minutes_or_seconds(s, second_start)?;
    behind_second(s, next, hour, minute, second)
}

// Behind the hour: the end of the text, or a minute.
#[tactic(auto, unfolding(crate::specs::Time::behind_hour, crate::specs::Step::or_end, crate::specs::Step::on_separator, crate::specs::Step::on_part, chars::specs::Pick::pick))]
fn behind_hour(s: &[u8], c: Cursor, hour: u8) -> Result<Time, TextRefusal>
    ensures { result ≡ time.behind_hour s.now c.0 hour }
{
    let pos = scanner::eat_whitespace(s, c);
    if scanner::done(s, pos) {
        return Ok(local(hour, 0, 0));
    }
    let minute_start = parse_colon(s, pos)?;
    let (minute, next) = parse_minutes_or_seconds(s, minute_start)?;
    behind_minute(s, next, hour, minute)
}

// The time behind the T.
#[tactic(auto, unfolding(crate::specs::Time::time_at, crate::specs::Step::on_part))]
fn parse_time(s: &[u8], c: Cursor) -> Result<Time, TextRefusal>
    ensures { result ≡ time.time_at s.now c.0 }
{
    let (hour, next) = parse_hour(s, c)?;
    behind_hour(s, next, hour)
}

// Behind the day: the end of the text, or T and a time.
#[tactic(auto, unfolding(crate::specs::Point::behind_day, crate::specs::Step::or_end, crate::specs::Point::time_or, crate::specs::Point::with_time, chars::specs::Pick::pick))]
fn behind_day(
    s: &[u8],
    c: Cursor,
    year: i32,
    month: Option<Month>,
    day: Option<Day>,
) -> Result<Datetime, TextRefusal>
    ensures { result ≡ spec.behind_day s.now c.0 year month day }
{
    let pos = scanner::eat_whitespace(s, c);
    if scanner::done(s, pos) {
        return Ok(Datetime::new(year, month, day, None));
    }
    match scanner::eat_if(s, pos, Class::Is(TEE)) {
        Some(next) => {
            let t = parse_time(s, next)?;
            Ok(Datetime::new(year, month, day, Some(t)))
        }
        None => Err(refuse_text(Kind::InvalidFormat, Cursor(0), pos)),
    }
}

// Behind the month: the end of the text, or a day of that month.
#[tactic(auto, unfolding(crate::specs::Point::behind_month, crate::specs::Step::or_end, crate::specs::Step::on_separator, crate::specs::Step::on_part, chars::specs::Pick::pick))]
fn behind_month(s: &[u8], c: Cursor, year: i32, month: Month) -> Result<Datetime, TextRefusal>
    ensures { result ≡ spec.behind_month s.now c.0 year month }
{
    let some_month = Some(month);
    let pos = scanner::eat_whitespace(s, c);
    if scanner::done(s, pos) {
        return Ok(Datetime::new(year, some_month, None, None));
    }
    let day_start = parse_hyphen(s, pos)?;
    let (day, next) = parse_day(s, day_start)?;
    if day < dates::days_in_month(month, year) {
        return behind_day(s, next, year, some_month, Some(Day(day)));
    }
    Err(refuse_text(Kind::DayOutOfRange, Cursor(0), next))
}

// Behind the year: the end of the text, or a month.
#[tactic(auto, unfolding(crate::specs::Point::behind_year, crate::specs::Step::or_end, crate::specs::Step::on_separator, crate::specs::Step::on_part, chars::specs::Pick::pick))]
fn behind_year(s: &[u8], c: Cursor, year: i32) -> Result<Datetime, TextRefusal>
    ensures { result ≡ spec.behind_year s.now c.0 year }
{
    let pos = scanner::eat_whitespace(s, c);
    if scanner::done(s, pos) {
        return Ok(Datetime::new(year, None, None, None));
    }
    let month_start = parse_hyphen(s, pos)?;
    let (month, next) = parse_month(s, month_start)?;
    behind_month(s, next, year, Month(month))
}

// A point: `Datetime::parse`. A place is counted from the start of this text.
#[tactic(auto, unfolding(crate::specs::Point::point, crate::specs::Point::on_year))]
pub fn parse(s: &[u8]) -> Result<Datetime, TextRefusal>
    ensures { result ≡ spec.point s.now }
{
    let (year, next) = parse_any_year(s, Cursor(0))?;
    behind_year(s, next, year)
}
