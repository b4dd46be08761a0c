// Day numbers: the first and the last day that a Datetime covers. Day 0 is 0000-01-01, and the calendar is ISO 8601's for all years.
// They are counted in two ways, by a formula and from a table, and both give the same.
#![tactic(auto)]

ghost use Rattle.std.specs.Prelude.{◌≡◌, true, ◌+◌, ◌*◌, ◌<◌, take, drop, get_or};
ghost use Rattle.dates.specs.Calendar.{month_lengths};
ghost use Rattle.days.specs.Days.{total, year_length, days_from};
ghost use Rattle.days.specs.Covered as spec;
ghost use Rattle.days.specs.Counts as counts;
ghost use Rattle.days.specs.Table.{table};
ghost use Rattle.days.specs.Ways as ways;

mod cycle;

use dates::{Datetime, Day, Month, days_in_month, is_leap};
use refusals::{Kind, Refusal, nowhere};

// The days from a first to a last, both of them included.
#[derive(Clone, Copy)]
pub struct Period {
    pub first: i32,
    pub last: i32,
}

// What is counted: from the start of a month of a year on, some days are past, and then so many are covered. The year is counted from -10000.
#[derive(Clone, Copy)]
struct Stretch {
    year: u32,
    month: u8,
    past: u8,
    count: u32,
}

// The days of a Datetime without a season, by a formula.
fn formula_days(d: Datetime) -> Result<Period, Refusal>
    ensures { result ≡ ways.stretch_days ways.by_formula (counts.asked d) }
{
    let Some(a) = asked(d) else {
        return refused();
    };
    let before = by_formula(a.year, a.month);
    Ok(period_from(before + a.past as u32, a.count))
}

// The same from the table.
fn table_days(d: Datetime) -> Result<Period, Refusal>
    ensures { result ≡ ways.stretch_days ways.by_table (counts.asked d) }
{
    let Some(a) = asked(d) else {
        return refused();
    };
    let before = by_table(a.year, a.month);
    Ok(period_from(before + a.past as u32, a.count))
}

// The first and the last day of a Datetime, by a formula; one with a season is refused.
pub fn days_by_formula(d: Datetime) -> Result<Period, Refusal>
    ensures { result ≡ spec.covered d }
{
    if d.has_season() {
        return seasoned();
    }
    formula_days(d)
}

// The same from the table.
pub fn days_by_table(d: Datetime) -> Result<Period, Refusal>
    ensures { result ≡ spec.covered d }
{
    if d.has_season() {
        return seasoned();
    }
    table_days(d)
}

// The refusal of a season.
fn seasoned() -> Result<Period, Refusal>
    ensures { result ≡ spec.seasoned }
{
    Err(nowhere(Kind::HasSeason))
}

// The refusal of what is no date of the calendar.
fn refused() -> Result<Period, Refusal>
    ensures { result ≡ spec.not_adate }
{
    Err(nowhere(Kind::NotACalendarDate))
}

// Whether days are counted in a year.
fn in_years(year: i32) -> bool
    ensures { result ≡ spec.year_in year }
{
    -10000 < year && year < 10000
}

// A year, counted from -10000.
fn counted(year: i32) -> u32
    requires { spec.year_in year ≡ true }
    ensures { result ≡ counts.counted year }
{
    (year + 10000) as u32
}

// What a Datetime asks for, if it is one of the calendar.
#[tactic(auto, unfolding(crate::specs::Counts::asked, chars::specs::Pick::pick))]
fn asked(d: Datetime) -> Option<Stretch>
    ensures { result ≡ counts.asked d }
{
    if in_years(d.year) {
        return asked_year(d.year, d.month, d.day);
    }
    None
}

// The whole year, or a part of it.
#[tactic(auto, unfolding(crate::specs::Counts::asked_year, chars::specs::Pick::pick))]
fn asked_year(year: i32, month: Option<Month>, day: Option<Day>) -> Option<Stretch>
    requires { spec.year_in year ≡ true }
    ensures { result ≡ counts.asked_year year month day }
{
    if let Some(m) = month {
        if m.0 < 12 {
            return asked_month(year, m, day);
        }
        return None;
    }
    if day.is_some() {
        return None;
    }
    Some(Stretch {
        year: counted(year),
        month: 0,
        past: 0,
        count: year_length(year),
    })
}

// A month, or one day of it.
#[tactic(auto, unfolding(crate::specs::Counts::asked_month, chars::specs::Pick::pick))]
fn asked_month(year: i32, month: Month, day: Option<Day>) -> Option<Stretch>
    requires { spec.year_in year ≡ true }
    ensures { result ≡ counts.asked_month year month.0 day }
{
    let n = counted(year);
    let length = days_in_month(month, year);
    let Some(e) = day else {
        return Some(Stretch {
            year: n,
            month: month.0,
            past: 0,
            count: length as u32,
        });
    };
    if e.0 < length {
        return Some(Stretch {
            year: n,
            month: month.0,
            past: e.0,
            count: 1,
        });
    }
    None
}

// How many days a year has.
fn year_length(year: i32) -> u32
    ensures { result ≡ year_length year }
{
    if is_leap(year) { 366 } else { 365 }
}

// The days before a month of a year that is counted from 0: by a formula, those before the year and those of the year before the month.
fn by_formula(year: u32, month: u8) -> u32
    requires { (year < 20000) × (month < 12) }
    ensures { (result ≡ ways.by_formula year month) × (result < 8000000) }
{
    let leap = is_leap(year as i32);
    before_year(year) + before_month(leap, month)
}

// Each year has 365 days, and one more if it is a leap year.
fn before_year(year: u32) -> u32
    requires { year < 20000 }
    ensures { (result ≡ days_from year) × (result < 7500000) }
{
    365 * year + (year + 3) / 4 - (year + 99) / 100 + (year + 399) / 400
}

// As if February had 30 days, and then without those that it has not.
fn before_month(leap: bool, month: u8) -> u32
    requires { month < 12 }
    ensures { (result ≡ total (take month (month_lengths leap))) × (result < 400) }
{
    let n = (367 * (month as u32) + 5) / 12;
    if month < 2 {
        return n;
    }
    if leap { n - 1 } else { n - 2 }
}

// The same as by the formula, from the table: those of whole cycles of 400 years, and those of the cycle before the month.
fn by_table(year: u32, month: u8) -> u32
    requires { (year < 20000) × (month < 12) }
    ensures { (result ≡ ways.by_table year month) × (result < 8000000) }
{
    let j = year % 4 * 12 + month as u32;
    year / 400 * 146097 + entry(year % 400 / 4, j as usize)
}

// An entry of the table: of the four years from year 4q on, that of month j.
fn entry(q: u32, j: usize) -> u32
    requires { (q < 100) × (j < 48) }
    ensures { result ≡ get_or table (q * 48 + j) 0 }
{
    let months = four_years(q);
    months[j]
}

// The entries of the four years from year 4q on. A constant that is an array is written to the stack where it is used, so there is one for every
// four years, and only the one that is asked for is written.
fn four_years(q: u32) -> [u32; 48]
    requires { q < 100 }
    ensures { result ≡ take 48 (drop (q * 48) table) }
{
    let n = q % 25;
    match q / 25 {
        0 => century_0(n),
        1 => century_1(n),
        2 => century_2(n),
        _ => century_3(n),
    }
}

// The same of the first century.
fn century_0(q: u32) -> [u32; 48]
    requires { q < 25 }
    ensures { result ≡ take 48 (drop (q * 48) table) }
{
    match q {
        0 => cycle::Y0,
        1 => cycle::Y4,
        2 => cycle::Y8,
        3 => cycle::Y12,
        4 => cycle::Y16,
        5 => cycle::Y20,
        6 => cycle::Y24,
        7 => cycle::Y28,
        8 => cycle::Y32,
        9 => cycle::Y36,
        10 => cycle::Y40,
        11 => cycle::Y44,
        12 => cycle::Y48,
        13 => cycle::Y52,
        14 => cycle::Y56,
        15 => cycle::Y60,
        16 => cycle::Y64,
        17 => cycle::Y68,
        18 => cycle::Y72,
        19 => cycle::Y76,
        20 => cycle::Y80,
        21 => cycle::Y84,
        22 => cycle::Y88,
        23 => cycle::Y92,
        _ => cycle::Y96,
    }
}

// The same of the second century.
fn century_1(q: u32) -> [u32; 48]
    requires { q < 25 }
    ensures { result ≡ take 48 (drop ((25 + q) * 48) table) }
{
    match q {
        0 => cycle::Y100,
        1 => cycle::Y104,
        2 => cycle::Y108,
        3 => cycle::Y112,
        4 => cycle::Y116,
        5 => cycle::Y120,
        6 => cycle::Y124,
        7 => cycle::Y128,
        8 => cycle::Y132,
        9 => cycle::Y136,
        10 => cycle::Y140,
        11 => cycle::Y144,
        12 => cycle::Y148,
        13 => cycle::Y152,
        14 => cycle::Y156,
        15 => cycle::Y160,
        16 => cycle::Y164,
        17 => cycle::Y168,
        18 => cycle::Y172,
        19 => cycle::Y176,
        20 => cycle::Y180,
        21 => cycle::Y184,
        22 => cycle::Y188,
        23 => cycle::Y192,
        _ => cycle::Y196,
    }
}

// The same of the third century.
fn century_2(q: u32) -> [u32; 48]
    requires { q < 25 }
    ensures { result ≡ take 48 (drop ((50 + q) * 48) table) }
{
    match q {
        0 => cycle::Y200,
        1 => cycle::Y204,
        2 => cycle::Y208,
        3 => cycle::Y212,
        4 => cycle::Y216,
        5 => cycle::Y220,
        6 => cycle::Y224,
        7 => cycle::Y228,
        8 => cycle::Y232,
        9 => cycle::Y236,
        10 => cycle::Y240,
        11 => cycle::Y244,
        12 => cycle::Y248,
        13 => cycle::Y252,
        14 => cycle::Y256,
        15 => cycle::Y260,
        16 => cycle::Y264,
        17 => cycle::Y268,
        18 => cycle::Y272,
        19 => cycle::Y276,
        20 => cycle::Y280,
        21 => cycle::Y284,
        22 => cycle::Y288,
        23 => cycle::Y292,
        _ => cycle::Y296,
    }
}

// The same of the fourth century.
fn century_3(q: u32) -> [u32; 48]
    requires { q < 25 }
    ensures { result ≡ take 48 (drop ((75 + q) * 48) table) }
{
    match q {
        0 => cycle::Y300,
        1 => cycle::Y304,
        2 => cycle::Y308,
        3 => cycle::Y312,
        4 => cycle::Y316,
        5 => cycle::Y320,
        6 => cycle::Y324,
        7 => cycle::Y328,
        8 => cycle::Y332,
        9 => cycle::Y336,
        10 => cycle::Y340,
        11 => cycle::Y344,
        12 => cycle::Y348,
        13 => cycle::Y352,
        14 => cycle::Y356,
        15 => cycle::Y360,
        16 => cycle::Y364,
        17 => cycle::Y368,
        18 => cycle::Y372,
        19 => cycle::Y376,
        20 => cycle::Y380,
        21 => cycle::Y384,
        22 => cycle::Y388,
        23 => cycle::Y392,
        _ => cycle::Y396,
    }
}

// The number of a day that is counted from -10000-01-01.
fn numbered(n: u32) -> i32
    requires { n < 8001000 }
    ensures { result ≡ counts.numbered n }
{
    n as i32 - 3652425
}

// From such a day on, so many days.
fn period_from(n: u32, count: u32) -> Period
    requires { (n < 8000100) × (0 < count) × (count < 367) }
    ensures { result ≡ counts.period_from n count }
{
    Period {
        first: numbered(n),
        last: numbered(n + count - 1),
    }
}
