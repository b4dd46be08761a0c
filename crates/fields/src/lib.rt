// The fields of a date: year, month and day, each a formatted text. They are not in upper case.
#![tactic(auto)]

ghost use Rattle.std.specs.Prelude.{◌≡◌, ◌<◌, drop};
ghost use Rattle.fields.specs.Year as spec;
ghost use Rattle.fields.specs.Names as names;
ghost use Rattle.fields.specs.Day as days;
ghost use Rattle.fields.specs.Month as month;

use dates::{Day, Month};
use numbers::{Digits, NoNumber};
use refusals::{FileSpan, Kind, Refusal, TextRefusal, panics, refuse_text};
use scanner::{Class, Cursor};

const HYPHEN: u32 = b'-' as u32;

const PLUS: u32 = b'+' as u32;

// The sign before a year.
#[derive(Clone, Copy)]
pub enum Sign {
    Plus,
    Minus,
}

// What stands behind the digits of a year: an era, AD or not, and the place behind it; or none, and the place where it would stand.
type Era = (Option<bool>, Cursor);

fn has_sign(sign: Option<Sign>) -> bool
    ensures { result ≡ spec.has_sign sign }
{
    sign.is_some()
}

// A number of four digits at most, behind its sign.
fn signed(sign: Option<Sign>, n: u32) -> i32
    requires { n < 10000 }
    ensures { result ≡ spec.signed_by sign n }
{
    let year = n as i32;
    match sign {
        Some(Sign::Minus) => 0 - year,
        _ => year,
    }
}

// The year n BC: before the year 1 comes the year 0.
fn before_christ(n: u32) -> i32
    requires { n < 10000 }
    ensures { result ≡ spec.before_christ n }
{
    1 - (n as i32)
}

// An era that ends at a cursor, unless a letter or a digit stands there.
fn era_end(s: &[u8], start: Cursor, c: Cursor, positive: bool) -> Result<Era, TextRefusal>
    ensures { result ≡ spec.era_end s.now start.0 positive c.0 }
{
    if scanner::at(s, c, Class::Alphanumeric) {
        return Err(refuse_text(Kind::InvalidFormat, start, c));
    }
    Ok((Some(positive), c))
}

// BC or BCE at a cursor.
#[tactic(auto, unfolding(crate::specs::Year::negative_era, crate::specs::Year::on_past))]
fn negative_era(s: &[u8], start: Cursor) -> Result<Era, TextRefusal>
    ensures { result ≡ spec.negative_era s.now start.0 }
{
    if let Some(c) = scanner::eat_text(s, start, b"BC") {
        let e = scanner::eat_text(s, c, b"E").unwrap_or(c);
        return era_end(s, start, e, false);
    }
    Ok((None, start))
}

// White space, then an era or none.
#[tactic(auto, unfolding(crate::specs::Year::parse_era_marker, crate::specs::Year::era_at, crate::specs::Year::on_past))]
fn parse_era_marker(s: &[u8], c: Cursor) -> Result<Era, TextRefusal>
    ensures { result ≡ spec.parse_era_marker s.now c.0 }
{
    let start = scanner::eat_whitespace(s, c);
    if let Some(e) = scanner::eat_text(s, start, b"AD") {
        return era_end(s, start, e, true);
    }
    if let Some(e) = scanner::eat_text(s, start, b"CE") {
        return era_end(s, start, e, true);
    }
    negative_era(s, start)
}

// A year that nothing may follow.
fn ended(s: &[u8], idx: Cursor, c: Cursor, year: i32) -> Result<i32, TextRefusal>
    ensures { result ≡ spec.ended s.now idx.0 c.0 year }
{
    if scanner::done(s, c) {
        return Ok(year);
    }
    Err(refuse_text(Kind::InvalidFormat, idx, c))
}

// A year and the era behind it, if there is one.
#[tactic(auto, unfolding(crate::specs::Year::behind_digits, crate::specs::Year::with_era, chars::specs::Pick::pick))]
fn behind_digits(
    s: &[u8],
    idx: Cursor,
    c: Cursor,
    sign: Option<Sign>,
    n: u32,
) -> Result<i32, TextRefusal>
    requires { n < 10000 }
    ensures { result ≡ spec.behind_digits s.now idx.0 c.0 sign n }
{
    let (era, next) = parse_era_marker(s, c)?;
    let positive = match era {
        Some(positive) => positive,
        None => return ended(s, idx, next, signed(sign, n)),
    };
    if has_sign(sign) {
        return Err(refuse_text(Kind::InvalidFormat, idx, next));
    }
    if n == 0 {
        return Err(refuse_text(Kind::YearZeroCE, idx, next));
    }
    if positive {
        return ended(s, idx, next, signed(Some(Sign::Plus), n));
    }
    Ok(before_christ(n))
}

// Behind the sign: one to four digits. White space may stand before them, but the ported code then panics at the number.
fn behind_sign(s: &[u8], idx: Cursor, c: Cursor, sign: Option<Sign>) -> Result<i32, TextRefusal>
    ensures { result ≡ spec.behind_sign s.now idx.0 c.0 sign }
{
    let run = scanner::next_run(s, c, Class::AsciiDigit);
    let start = run.start;
    let next = run.end;
    let digits = scanner::from(s, start, next);
    if digits.len() == 0 {
        return Err(refuse_text(Kind::InvalidFormat, idx, next));
    }
    if 4 < digits.len() {
        return Err(refuse_text(Kind::WrongNumberOfDigits, idx, next));
    }
    if start.0 != c.0 {
        return Err(panics());
    }
    match numbers::parse(digits, 9999) {
        Some(n) => behind_digits(s, idx, next, sign, n),
        None => Err(panics()),
    }
}

// The year of a year field. Nothing else may stand there but an era.
#[tactic(auto, unfolding(crate::specs::Year::get_year, crate::specs::Year::year_at, crate::specs::Year::on_past))]
pub fn get_year(s: &[u8]) -> Result<i32, TextRefusal>
    ensures { result ≡ spec.get_year s.now }
{
    let idx = scanner::eat_whitespace(s, Cursor(0));
    if let Some(c) = scanner::eat_if(s, idx, Class::Is(HYPHEN)) {
        return behind_sign(s, idx, c, Some(Sign::Minus));
    }
    if let Some(c) = scanner::eat_if(s, idx, Class::Is(PLUS)) {
        return behind_sign(s, idx, c, Some(Sign::Plus));
    }
    behind_sign(s, idx, idx, None)
}

// The month of a name, or else of an abbreviation.
#[tactic(auto, unfolding(crate::specs::Names::month_for, crate::specs::Names::or_else))]
pub fn month_for(t: &[u8]) -> Option<Month>
    ensures { result ≡ names.month_for t.now }
{
    get_month_for_name(t).or_else(|| get_month_for_abbr(t))
}

// The month of a month field: a number, which no upper bound is put on, or else a name.
#[tactic(auto, unfolding(crate::specs::Month::month_field, crate::specs::Month::month_of, crate::specs::Month::named, chars::specs::Pick::pick))]
pub fn month_field(s: &[u8]) -> Result<(Option<Month>, Cursor), TextRefusal>
    ensures { result ≡ month.month_field s.now }
{
    match numbers::parse_unsigned_int(s, Cursor(0), Digits::OneOrTwo) {
        Ok((value, next)) => {
            if value == 0 {
                return Err(panics());
            }
            let m = (value - 1) as u8;
            let month = Some(Month(m));
            Ok((month, next))
        }
        Err(NoNumber::Wrong { next }) => {
            let c = scanner::eat_while(s, next, Class::AsciiAlphabetic);
            let month = month_for(scanner::from(s, next, c));
            Ok((month, c))
        }
        Err(NoNumber::Panics) => Err(panics()),
    }
}

// Whether a number is a day of some month. Which month it is does not matter.
fn is_day(d: u32) -> bool
    ensures { result ≡ days.is_day d }
{
    1 <= d && d <= 31
}

// The Rust reads the digits as a `u8`, and panics at more than 255.
#[tactic(auto, unfolding(crate::specs::Day::day_digits, crate::specs::Day::day_of, chars::specs::Pick::pick))]
fn day_digits(s: &[u8], start: Cursor, c: Cursor) -> Result<Option<Day>, TextRefusal>
    ensures { result ≡ days.day_digits s.now start.0 c.0 }
{
    match numbers::parse(scanner::from(s, start, c), 255) {
        Some(d) => {
            if is_day(d) {
                return Ok(Some(Day((d - 1) as u8)));
            }
            Err(refuse_text(Kind::DayOutOfRange, start, c))
        }
        None => Err(panics()),
    }
}

// The day that a month field holds behind its month, if it holds one. Hyphens and no-break spaces ask for it; other white space
// may stand before them.
pub fn day_in_month_field(s: &[u8], c: Cursor) -> Result<Option<Day>, TextRefusal>
    ensures { result ≡ days.day_in_month_field s.now c.0 }
{
    let pos = scanner::eat_while(s, c, Class::PlainWhitespace);
    let day_start = scanner::eat_while(s, pos, Class::Separator);
    let next = scanner::eat_while(s, day_start, Class::AsciiDigit);
    let digits = scanner::from(s, day_start, next);
    if digits.len() == 0 {
        if pos.0 == day_start.0 {
            return Ok(None);
        }
        return Err(refuse_text(Kind::MissingNumber, day_start, next));
    }
    day_digits(s, day_start, next)
}

// No day, for a reason that has the list's span as its place.
fn not_given(kind: Kind, span: FileSpan) -> Result<Day, Refusal>
    ensures { result ≡ days.not_given kind span }
{
    Err(refusals::refuse(kind, span))
}

// The day of a day field, whose list has a span. Where the text is no number the span decides what is refused, and not the text.
#[tactic(auto, unfolding(crate::specs::Day::day_field, crate::specs::Day::day_given, chars::specs::Pick::pick))]
pub fn day_field(s: &[u8], span: FileSpan) -> Result<Day, Refusal>
    ensures { result ≡ days.day_field s.now span }
{
    match numbers::parse(numbers::trim(s), 255) {
        Some(d) => {
            if is_day(d) {
                return Ok(Day((d - 1) as u8));
            }
            not_given(Kind::DayOutOfRange, span)
        }
        None => {
            if span.0 < span.1 {
                return not_given(Kind::InvalidNumber, span);
            }
            not_given(Kind::MissingNumber, span)
        }
    }
}

// ---- the English names of the months, and their abbreviations, in any mixture of cases

// A letter in lower case; any other byte as it is.
pub fn lower(b: u8) -> u8
    ensures { result ≡ names.lower b }
{
    if b < b'A' {
        return b;
    }
    if b'Z' < b {
        return b;
    }
    b + 32
}

// Whether a text is a name in any mixture of cases. The name is given in lower case, and the letters are compared as they stand.
fn same_letters(t: &[u8], name: &[u8]) -> bool
    ensures { result ≡ names.same_letters name.now t.now }
{
    if t.len() != name.len() {
        return false;
    }
    for (i, x) in name.iter().enumerate() {
        if *x != lower(t[i]) {
            return false;
        }
    }
    true
}

fn stored(m: u8) -> Option<Month>
    ensures { result ≡ names.stored_month m }
{
    Some(Month(m))
}

// The month of an abbreviation, tried from October on. The words are tried a quarter of the year at a time, since one long chain takes
// far longer to check than four short ones.
fn abbr_from_october(t: &[u8]) -> Option<Month>
    ensures { result ≡ names.month_in (drop 12 names.abbreviations) t.now }
{
    if same_letters(t, b"oct") {
        stored(9)
    } else if same_letters(t, b"nov") {
        stored(10)
    } else if same_letters(t, b"dec") {
        stored(11)
    } else {
        None
    }
}

// Tried from July on.
fn abbr_from_july(t: &[u8]) -> Option<Month>
    ensures { result ≡ names.month_in (drop 7 names.abbreviations) t.now }
{
    if same_letters(t, b"jul") {
        stored(6)
    } else if same_letters(t, b"july") {
        stored(6)
    } else if same_letters(t, b"aug") {
        stored(7)
    } else if same_letters(t, b"sep") {
        stored(8)
    } else if same_letters(t, b"sept") {
        stored(8)
    } else {
        abbr_from_october(t)
    }
}

// Tried from April on.
fn abbr_from_april(t: &[u8]) -> Option<Month>
    ensures { result ≡ names.month_in (drop 3 names.abbreviations) t.now }
{
    if same_letters(t, b"apr") {
        stored(3)
    } else if same_letters(t, b"may") {
        stored(4)
    } else if same_letters(t, b"jun") {
        stored(5)
    } else if same_letters(t, b"june") {
        stored(5)
    } else {
        abbr_from_july(t)
    }
}

// The month of an abbreviation: the first three letters of its name, and june, july and sept.
pub fn get_month_for_abbr(t: &[u8]) -> Option<Month>
    ensures { result ≡ names.get_month_for_abbr t.now }
{
    if same_letters(t, b"jan") {
        stored(0)
    } else if same_letters(t, b"feb") {
        stored(1)
    } else if same_letters(t, b"mar") {
        stored(2)
    } else {
        abbr_from_april(t)
    }
}

// The month of a name, tried from October on.
fn name_from_october(t: &[u8]) -> Option<Month>
    ensures { result ≡ names.month_in (drop 9 names.names) t.now }
{
    if same_letters(t, b"october") {
        stored(9)
    } else if same_letters(t, b"november") {
        stored(10)
    } else if same_letters(t, b"december") {
        stored(11)
    } else {
        None
    }
}

// Tried from July on.
fn name_from_july(t: &[u8]) -> Option<Month>
    ensures { result ≡ names.month_in (drop 6 names.names) t.now }
{
    if same_letters(t, b"july") {
        stored(6)
    } else if same_letters(t, b"august") {
        stored(7)
    } else if same_letters(t, b"september") {
        stored(8)
    } else {
        name_from_october(t)
    }
}

// Tried from April on.
fn name_from_april(t: &[u8]) -> Option<Month>
    ensures { result ≡ names.month_in (drop 3 names.names) t.now }
{
    if same_letters(t, b"april") {
        stored(3)
    } else if same_letters(t, b"may") {
        stored(4)
    } else if same_letters(t, b"june") {
        stored(5)
    } else {
        name_from_july(t)
    }
}

// The month that a name in full says, in either case.
pub fn get_month_for_name(t: &[u8]) -> Option<Month>
    ensures { result ≡ names.get_month_for_name t.now }
{
    if same_letters(t, b"january") {
        stored(0)
    } else if same_letters(t, b"february") {
        stored(1)
    } else if same_letters(t, b"march") {
        stored(2)
    } else {
        name_from_april(t)
    }
}
