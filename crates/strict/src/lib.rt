// The strict reader and the one of level one: a text is taken as it stands, and has a Date exactly if the grammar derives it.
// Every piece of the strict grammar has a fixed length, so a reader looks at fixed places behind where a point starts. A reader takes as much
// as the grammar lets it, and what may not follow is refused by the one that looks at what is left.
#![tactic(auto)]

ghost use Rattle.std.specs.Prelude.{◌≡◌, ◌^◌, ◌≤◌, ◌<◌, take, drop};
ghost use Rattle.strict.specs.Grammar as grammar;
ghost use Rattle.strict.specs.Matcher as spec;
ghost use Rattle.chars.specs.Signs.{signed};
ghost use Rattle.strict.specs.Level as levels;
ghost use Rattle.strict.specs.LevelMatcher as matcher;

use chars::{byte_at, is_digit};
use dates::{Date, DateValue, Datetime, Day, Month, Season, Time, TimeOffset, days_in_month};

// An offset, and the place behind it; if there is none, the place is where it would start.
#[derive(Clone, Copy)]
struct ReadOffset {
    offset: Option<TimeOffset>,
    next: usize,
}

// A time, and the place behind it; if there is none, the place is where it would start.
#[derive(Clone, Copy)]
struct ReadTime {
    time: Option<Time>,
    next: usize,
}

// Digits, as far as they go or ten of them: how many, and the number that they write.
#[derive(Clone, Copy)]
struct ReadDigits {
    count: usize,
    number: u64,
}

// The number that two digits at a place write.
fn two_at(s: &[u8], at: usize) -> Option<u8>
    requires { at < 100 }
    ensures { result ≡ spec.two (drop at s.now) }
{
    let a = byte_at(s, at);
    let b = byte_at(s, at + 1);
    if is_digit(a) {
        if is_digit(b) {
            return Some((a - b'0') * 10 + (b - b'0'));
        }
    }
    None
}

fn wide(n: u8) -> u16
    ensures { result ≡ n }
{
    n as u16
}

// The number that four digits at a place write.
#[tactic(auto, unfolding(crate::specs::Matcher::four, crate::specs::Matcher::on))]
fn four_at(s: &[u8], at: usize) -> Option<u16>
    requires { at < 90 }
    ensures { result ≡ spec.four (drop at s.now) }
{
    let a = two_at(s, at)?;
    let b = two_at(s, at + 2)?;
    Some(wide(a) * 100 + wide(b))
}

// A number from the first to the last one given, counted from the first.
#[tactic(auto, unfolding(crate::specs::Matcher::counted, crate::specs::Matcher::on, chars::specs::Pick::pick))]
fn counted(n: Option<u8>, first: u8, last: u8) -> Option<u8>
    ensures { result ≡ spec.counted first last n }
{
    let v = n?;
    if first <= v {
        if v <= last {
            return Some(v - first);
        }
    }
    None
}

// A byte and two digits at a place, a number from the first to the last one given; it is counted from the first.
fn field_at(s: &[u8], at: usize, c: u8, first: u8, last: u8) -> Option<u8>
    requires { at < 90 }
    ensures { result ≡ spec.field c first last (drop at s.now) }
{
    if byte_at(s, at) == c {
        return counted(two_at(s, at + 1), first, last);
    }
    None
}

fn no_offset(at: usize) -> ReadOffset
    ensures { result ≡ spec.without_offset at }
{
    ReadOffset {
        offset: None,
        next: at,
    }
}

// A sign and hh:mm at a place.
#[tactic(auto, unfolding(crate::specs::Matcher::shift_at, crate::specs::Matcher::on))]
fn shift_at(s: &[u8], at: usize, sign: u8, positive: bool) -> ReadOffset
    requires { at < 80 }
    ensures { result ≡ spec.shift_at s.now at sign positive }
{
    let Some(hours) = field_at(s, at, sign, 0, 23) else {
        return no_offset(at);
    };
    let Some(minutes) = field_at(s, at + 3, b':', 0, 59) else {
        return no_offset(at);
    };
    let shift = TimeOffset::Offset {
        positive,
        hours,
        minutes,
    };
    ReadOffset {
        offset: Some(shift),
        next: at + 6,
    }
}

// Z, +hh:mm or -hh:mm at a place.
fn offset_at(s: &[u8], at: usize) -> ReadOffset
    requires { at < 80 }
    ensures { result ≡ spec.offset_at s.now at }
{
    let c = byte_at(s, at);
    if c == b'Z' {
        return ReadOffset {
            offset: Some(TimeOffset::Utc),
            next: at + 1,
        };
    }
    if c == b'+' {
        return shift_at(s, at, b'+', true);
    }
    shift_at(s, at, b'-', false)
}

fn no_time(at: usize) -> ReadTime
    ensures { result ≡ spec.without_time at }
{
    ReadTime {
        time: None,
        next: at,
    }
}

// A time, with the offset that was read behind it.
fn timed(hour: u8, minute: u8, second: u8, zone: ReadOffset) -> ReadTime
    ensures { result ≡ spec.timed hour minute second zone }
{
    let offset = zone.offset;
    let time = Time {
        hour,
        minute,
        second,
        offset,
    };
    ReadTime {
        time: Some(time),
        next: zone.next,
    }
}

// Thh:mm:ss at a place, then perhaps an offset.
#[tactic(auto, unfolding(crate::specs::Matcher::time_at, crate::specs::Matcher::on))]
fn time_at(s: &[u8], at: usize) -> ReadTime
    requires { at < 70 }
    ensures { result ≡ spec.time_at s.now at }
{
    let Some(hour) = field_at(s, at, b'T', 0, 23) else {
        return no_time(at);
    };
    let Some(minute) = field_at(s, at + 3, b':', 0, 59) else {
        return no_time(at);
    };
    let Some(second) = field_at(s, at + 6, b':', 0, 59) else {
        return no_time(at);
    };
    timed(hour, minute, second, offset_at(s, at + 9))
}

// A year, a month and a day, with the time that was read behind them.
fn on_day(year: i32, month: Month, day: Day, clock: ReadTime) -> Option<(Datetime, usize)>
    ensures { result ≡ spec.day_point year month.0 day.0 clock }
{
    let time = clock.time;
    Some((
        Datetime::new(year, Some(month), Some(day), time),
        clock.next,
    ))
}

// Behind a year and a month: -dd that the month has, then perhaps a time.
#[tactic(auto, unfolding(crate::specs::Matcher::behind_month, crate::specs::Matcher::on))]
fn behind_month(s: &[u8], at: usize, year: i32, month: Month) -> Option<(Datetime, usize)>
    requires { at < 60 }
    ensures { result ≡ spec.behind_month s.now at year month.0 }
{
    let Some(day) = field_at(s, at, b'-', 1, days_in_month(month, year)) else {
        return Some((Datetime::new(year, Some(month), None, None), at));
    };
    on_day(year, month, Day(day), time_at(s, at + 3))
}

// Behind a year: -mm, then perhaps a day.
#[tactic(auto, unfolding(crate::specs::Matcher::behind_year, crate::specs::Matcher::on))]
fn behind_year(s: &[u8], at: usize, year: i32) -> Option<(Datetime, usize)>
    requires { at < 50 }
    ensures { result ≡ spec.behind_year s.now at year }
{
    let Some(m) = field_at(s, at, b'-', 1, 12) else {
        return Some((Datetime::new(year, None, None, None), at));
    };
    behind_month(s, at + 3, year, Month(m))
}

// The year of four digits and a sign.
fn signed(negative: bool, n: u16) -> i32
    ensures { result ≡ signed negative n }
{
    let year = n as i32;
    if negative { 0 - year } else { year }
}

// A point whose digits start at a place.
#[tactic(auto, unfolding(crate::specs::Matcher::point_at, crate::specs::Matcher::on_four))]
fn point_at(s: &[u8], at: usize, negative: bool) -> Option<(Datetime, usize)>
    requires { at < 2 }
    ensures { result ≡ spec.point_at s.now at negative }
{
    let n = four_at(s, at)?;
    behind_year(s, at + 4, signed(negative, n))
}

// A point at the front of a text.
fn point(s: &[u8]) -> Option<(Datetime, usize)>
    ensures { result ≡ spec.point s.now }
{
    if byte_at(s, 0) == b'-' {
        return point_at(s, 1, true);
    }
    point_at(s, 0, false)
}

// The season of a number that is counted from 21.
fn season_at(n: u8) -> Option<Season>
    ensures { result ≡ levels.season_at n }
{
    match n {
        0 => Some(Season::Spring),
        1 => Some(Season::Summer),
        2 => Some(Season::Autumn),
        _ => Some(Season::Winter),
    }
}

// Behind a year of four digits: -21 to -24 is a season, else what a strict point has.
#[tactic(auto, unfolding(crate::specs::LevelMatcher::level_year, crate::specs::Matcher::on))]
fn level_year(s: &[u8], at: usize, year: i32) -> Option<(Datetime, usize)>
    requires { at < 50 }
    ensures { result ≡ matcher.level_year s.now at year }
{
    let Some(n) = field_at(s, at, b'-', 21, 24) else {
        return behind_year(s, at, year);
    };
    Some((Datetime::of_season(year, season_at(n)), at + 3))
}

// A point of level one whose four digits start at a place.
#[tactic(auto, unfolding(crate::specs::LevelMatcher::level_at, crate::specs::Matcher::on_four))]
fn level_at(s: &[u8], at: usize, negative: bool) -> Option<(Datetime, usize)>
    requires { at < 2 }
    ensures { result ≡ matcher.level_at s.now at negative }
{
    let n = four_at(s, at)?;
    level_year(s, at + 4, signed(negative, n))
}

// The digits at a place, as far as they go; ten are too many for any year.
fn digits_at(s: &[u8], at: usize) -> ReadDigits
    requires { at < 3 }
    ensures count_value { result.count ≡ matcher.run 10 (drop at s.now) }
    ensures number_value { result.number ≡ matcher.value_from 0 (take result.count (drop at s.now)) }
    ensures count_bound { (result.count ≤ 10) × (result.number < 10 ^ result.count) }
{
    let mut v = 0u64;
    for n in 0..10 {
        let c = byte_at(s, at + n);
        if !is_digit(c) {
            return ReadDigits {
                count: n,
                number: v,
            };
        }
        v = v * 10 + (c - b'0') as u64;
    }
    ReadDigits {
        count: 10,
        number: v,
    }
}

// The year of up to nine digits and a sign.
fn signed_long(negative: bool, n: u64) -> i32
    requires { n < 1000000000 }
    ensures { result ≡ signed negative n }
{
    let year = n as i32;
    if negative { 0 - year } else { year }
}

// A long year whose digits start at a place: five to nine of them, the first not zero.
fn long_at(s: &[u8], at: usize, negative: bool) -> Option<(Datetime, usize)>
    requires { at < 3 }
    ensures { result ≡ matcher.long_at s.now at negative }
{
    let d = digits_at(s, at);
    if 5 <= d.count {
        if d.count <= 9 {
            if byte_at(s, at) != b'0' {
                return Some((
                    Datetime::new(signed_long(negative, d.number), None, None, None),
                    at + d.count,
                ));
            }
        }
    }
    None
}

// A point of level one at the front of a text.
fn level_point(s: &[u8]) -> Option<(Datetime, usize)>
    ensures { result ≡ matcher.level_point s.now }
{
    let c = byte_at(s, 0);
    if c == b'Y' {
        if byte_at(s, 1) == b'-' {
            return long_at(s, 2, true);
        }
        return long_at(s, 1, false);
    }
    if c == b'-' {
        return level_at(s, 1, true);
    }
    level_at(s, 0, false)
}

// A point of level one or a strict one.
fn point_of(level: bool, s: &[u8]) -> Option<(Datetime, usize)>
    ensures { result ≡ matcher.point_of level s.now }
{
    if level {
        return level_point(s);
    }
    point(s)
}

// Whether -XX stands at a place.
fn dash_xx_at(s: &[u8], at: usize) -> bool
    requires { at < 90 }
    ensures { result ≡ spec.dash_xx (drop at s.now) }
{
    if byte_at(s, at) == b'-' {
        if byte_at(s, at + 1) == b'X' {
            return byte_at(s, at + 2) == b'X';
        }
    }
    false
}

// A year without a sign, perhaps with a month and a day.
fn plain(n: u16, month: Option<Month>, day: Option<Day>) -> Datetime
    ensures { result ≡ grammar.plain n month day }
{
    Datetime::new(signed(false, n), month, day, None)
}

// The years from the first to the last, which four characters stand for.
fn years(first: u16, last: u16) -> Option<(DateValue, usize)>
    ensures { result ≡ spec.years first last }
{
    let start = plain(first, None, None);
    let end = plain(last, None, None);
    Some((DateValue::Between(start, end), 4))
}

// All months of a year.
fn months(n: u16, next: usize) -> Option<(DateValue, usize)>
    ensures { result ≡ spec.months n next }
{
    let start = plain(n, Some(Month(0)), None);
    let end = plain(n, Some(Month(11)), None);
    Some((DateValue::Between(start, end), next))
}

// The last day of a month of a year, counted from zero.
fn last_day(month: Month, n: u16) -> u8
    requires { month.0 < 12 }
    ensures { result ≡ grammar.last_day month.0 n }
{
    days_in_month(month, signed(false, n)) - 1
}

// The days of a month, from the first to the last. The ported reader has 31 for any month.
fn days(n: u16, month: Month) -> Option<(DateValue, usize)>
    requires { month.0 < 12 }
    ensures { result ≡ spec.days n month.0 }
{
    let start = plain(n, Some(month), Some(Day(0)));
    let last = Day(last_day(month, n));
    let end = plain(n, Some(month), Some(last));
    Some((DateValue::Between(start, end), 10))
}

// Two digits and XX, or three digits and X: the first two digits write n, and an X stands fourth.
fn unknown_years(s: &[u8], n: u8) -> Option<(DateValue, usize)>
    ensures { result ≡ spec.unknown_years s.now n }
{
    let c = byte_at(s, 2);
    if c == b'X' {
        let first = wide(n) * 100;
        return years(first, first + 99);
    }
    if is_digit(c) {
        let first = (wide(n) * 10 + wide(c - b'0')) * 10;
        return years(first, first + 9);
    }
    None
}

// Behind four digits, which write n: -XX, -XX-XX or -mm-XX.
#[tactic(auto, unfolding(crate::specs::Matcher::unknown_parts, chars::specs::Pick::pick, crate::specs::Matcher::on))]
fn unknown_parts(s: &[u8], n: u16) -> Option<(DateValue, usize)>
    ensures { result ≡ spec.unknown_parts s.now n }
{
    if dash_xx_at(s, 4) {
        if dash_xx_at(s, 7) {
            return months(n, 10);
        }
        return months(n, 7);
    }
    let month = field_at(s, 4, b'-', 1, 12)?;
    if dash_xx_at(s, 7) {
        return days(n, Month(month));
    }
    None
}

// A range by X at the front of a text.
#[tactic(auto, unfolding(crate::specs::Matcher::unknown, chars::specs::Pick::pick, crate::specs::Matcher::on, crate::specs::Matcher::on_four))]
fn unknown(s: &[u8]) -> Option<(DateValue, usize)>
    ensures { result ≡ spec.unknown s.now }
{
    if byte_at(s, 3) == b'X' {
        return unknown_years(s, two_at(s, 0)?);
    }
    unknown_parts(s, four_at(s, 0)?)
}

// The Date of a value, with the mark that the byte is.
fn marked(value: DateValue, c: u8) -> Option<Date>
    ensures { result ≡ spec.marked value c }
{
    if c == b'?' {
        return strictly(value, true, false);
    }
    if c == b'~' {
        return strictly(value, false, true);
    }
    if c == b'%' {
        return strictly(value, true, true);
    }
    None
}

// The answer that is a Date.
fn strictly(value: DateValue, uncertain: bool, approximate: bool) -> Option<Date>
    ensures { result ≡ spec.strictly value uncertain approximate }
{
    Some(Date {
        value,
        uncertain,
        approximate,
    })
}

// What is left at a place must be nothing or one mark.
fn ending(value: DateValue, s: &[u8], at: usize) -> Option<Date>
    ensures { result ≡ spec.ending value (drop at s.now) }
{
    if s.len() <= at {
        return strictly(value, false, false);
    }
    if s.len() - at == 1 {
        return marked(value, s[at]);
    }
    None
}

// Whether two full stops stand at the front: an open end.
fn is_open(s: &[u8]) -> bool
    ensures { result ≡ spec.is_open s.now }
{
    byte_at(s, 0) == b'.' && byte_at(s, 1) == b'.'
}

// Behind `../` a point must stand: both ends open is no range.
#[tactic(auto, unfolding(crate::specs::Matcher::behind_open, crate::specs::Matcher::on_point))]
fn behind_open(level: bool, s: &[u8]) -> Option<Date>
    ensures { result ≡ spec.behind_open (matcher.point_of level) s.now }
{
    let (value, next) = point_of(level, s)?;
    ending(DateValue::Before(value), s, next)
}

// Behind a point and a slash: another point, or an open end.
#[tactic(auto, unfolding(crate::specs::Matcher::behind_slash, crate::specs::Matcher::on_point, chars::specs::Pick::pick))]
fn behind_slash(level: bool, first: Datetime, s: &[u8]) -> Option<Date>
    ensures { result ≡ spec.behind_slash (matcher.point_of level) first s.now }
{
    if is_open(s) {
        return ending(DateValue::After(first), s, 2);
    }
    let (value, next) = point_of(level, s)?;
    ending(DateValue::Between(first, value), s, next)
}

// A text that starts with a point.
#[tactic(auto, unfolding(crate::specs::Matcher::from_point, crate::specs::Matcher::on_point, chars::specs::Pick::pick))]
fn from_point(level: bool, s: &[u8]) -> Option<Date>
    ensures { result ≡ spec.from_point (matcher.point_of level) s.now }
{
    let (value, next) = point_of(level, s)?;
    if byte_at(s, next) == b'/' {
        return behind_slash(level, value, &s[next + 1..]);
    }
    ending(DateValue::At(value), s, next)
}

// The Date of a text, by the strict points or those of level one.
#[tactic(auto, unfolding(crate::specs::Matcher::text_of, crate::specs::Matcher::of_points, crate::specs::Matcher::on_unknown, chars::specs::Pick::pick))]
fn text_of(level: bool, s: &[u8]) -> Option<Date>
    ensures { result ≡ spec.text_of (matcher.point_of level) s.now }
{
    if let Some((value, next)) = unknown(s) {
        return ending(value, s, next);
    }
    if is_open(s) {
        if byte_at(s, 2) == b'/' {
            return behind_open(level, &s[3..]);
        }
        return None;
    }
    from_point(level, s)
}

// The Date of a text of the strict grammar.
pub fn match_text(s: &[u8]) -> Option<Date>
    ensures { result ≡ spec.strict s.now }
{
    text_of(false, s)
}

// The Date of a text of level one.
pub fn match_level(s: &[u8]) -> Option<Date>
    ensures { result ≡ matcher.level s.now }
{
    text_of(true, s)
}
