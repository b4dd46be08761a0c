// The text of a date field: its mark, then an X range, two halves or a point. `Date::parse` behind the formatting.
#![tactic(auto)]

ghost use Rattle.std.specs.Prelude.{◌≡◌, true, ◌+◌, ◌<◌, ◌≤◌, length, take, drop};
ghost use Rattle.refusals.specs.Offset.{offset};
ghost use Rattle.datefield.specs.Text as text;
ghost use Rattle.datefield.specs.Value as spec;

use dates::{Date, DateValue, Datetime};
use refusals::{FileSpan, Kind, Refusal, TextRefusal};
use scanner::Cursor;

// Whether none of sixteen bytes is b. None of them decides where the loop goes on: the compiler takes them all at once.
fn lacks(s: &[u8], at: usize, b: u8) -> bool
    requires { at + 16 ≤ length s.now }
    ensures { result ≡ true → at + 16 + text.first_of b (drop (at + 16) s.now) ≡ at + text.first_of b (drop at s.now) }
{
    let mut ok = true;
    for i in 0..16 {
        ok = ok & (s[at + i] != b);
    }
    ok
}

// A place with no b before it, by sixteen bytes at a time.
fn skip(s: &[u8], b: u8) -> usize
    ensures { (result + text.first_of b (drop result s.now) ≡ text.first_of b s.now) × (result ≤ length s.now) }
{
    for k in 0..s.len() / 16 {
        if !lacks(s, 16 * k, b) {
            return 16 * k;
        }
    }
    s.len() / 16 * 16
}

// The place of the first byte that is b, or the end.
fn find(s: &[u8], b: u8) -> usize
    ensures { result ≡ text.first_of b s.now }
{
    for i in skip(s, b)..s.len() {
        if s[i] == b {
            return i;
        }
    }
    s.len()
}

// White space alone, or nothing.
pub fn is_blank(s: &[u8]) -> bool
    ensures { result ≡ text.is_blank s.now }
{
    let c = scanner::eat_whitespace(s, Cursor(0));
    s.len() <= c.0
}

// Exactly two dots.
pub fn is_dots(s: &[u8]) -> bool
    ensures { result ≡ text.is_dots s.now }
{
    if s.len() == 2 {
        if s[0] == b'.' {
            return s[1] == b'.';
        }
    }
    false
}

// A half that is blank or exactly two dots.
fn is_open_range(s: &[u8]) -> bool
    ensures { result ≡ text.is_open s.now }
{
    is_blank(s) || is_dots(s)
}

// A point of the text; a refusal has its place moved by the span's start.
#[tactic(auto, unfolding(crate::specs::Value::moved))]
fn moved(p: Result<Datetime, TextRefusal>, start: u64) -> Result<Datetime, Refusal>
    ensures { result ≡ spec.moved p (λ e. offset e start) }
{
    p.map_err(|e| refusals::offset(e, start))
}

// The half before the slash. It starts where the text does.
fn first_half(s: &[u8], slash: usize, span: FileSpan) -> Result<Datetime, Refusal>
    requires { slash < length s.now }
    ensures { result ≡ spec.first_half span s.now slash }
{
    moved(points::parse(&s[..slash]), span.0)
}

// The half behind the slash. Its place is counted from there, and moves by the slash too.
#[tactic(auto, unfolding(crate::specs::Value::second_half, crate::specs::Value::moved))]
fn second_half(s: &[u8], slash: usize, span: FileSpan) -> Result<Datetime, Refusal>
    requires { slash < length s.now }
    ensures { result ≡ spec.second_half span s.now slash }
{
    points::parse(&s[slash + 1..]).map_err(|e| refusals::offset_second(e, span.0, slash))
}

// Both halves; the first is refused first. A start after the end is accepted.
#[tactic(auto, unfolding(crate::specs::Value::both_halves, crate::specs::Value::on_half))]
fn both_halves(s: &[u8], slash: usize, span: FileSpan) -> Result<DateValue, Refusal>
    requires { slash < length s.now }
    ensures { result ≡ spec.both_halves span s.now slash }
{
    let a = first_half(s, slash, span)?;
    let b = second_half(s, slash, span)?;
    Ok(DateValue::Between(a, b))
}

// A range with a slash: which of its halves are open.
#[tactic(auto, unfolding(crate::specs::Value::halves, crate::specs::Value::on_half, chars::specs::Pick::pick))]
fn halves(s: &[u8], slash: usize, span: FileSpan) -> Result<DateValue, Refusal>
    requires { slash < length s.now }
    ensures { result ≡ spec.halves span s.now slash }
{
    let first = is_open_range(&s[..slash]);
    let second = is_open_range(&s[slash + 1..]);
    if first {
        if second {
            return Err(refusals::refuse(Kind::UndefinedRange, span));
        }
        return Ok(DateValue::Before(second_half(s, slash, span)?));
    }
    if second {
        return Ok(DateValue::After(first_half(s, slash, span)?));
    }
    both_halves(s, slash, span)
}

// What a text without its mark says: an X anywhere makes it an X range, else a slash a range.
#[tactic(auto, unfolding(crate::specs::Value::value, crate::specs::Value::x_range, crate::specs::Value::on_half, chars::specs::Pick::pick))]
fn read_value(s: &[u8], span: FileSpan) -> Result<DateValue, Refusal>
    ensures { result ≡ spec.value span s.now }
{
    let start = span.0;
    let x = find(s, b'X');
    if x < s.len() {
        let (a, b) = xranges::range_dates(s).map_err(|e| refusals::offset(e, start))?;
        return Ok(DateValue::Between(a, b));
    }
    let slash = find(s, b'/');
    if slash < s.len() {
        return halves(s, slash, span);
    }
    let d = moved(points::parse(s), start)?;
    Ok(DateValue::At(d))
}

fn is_uncertain(mark: u8) -> bool
    ensures { result ≡ text.is_uncertain mark }
{
    mark == b'?' || mark == b'%'
}

fn is_approximate(mark: u8) -> bool
    ensures { result ≡ text.is_approximate mark }
{
    mark == b'~' || mark == b'%'
}

// The last byte; 0 of no byte.
fn last_byte(s: &[u8]) -> u8
    ensures { result ≡ text.last_byte s.now }
{
    let n = s.len();
    if n == 0 {
        return 0;
    }
    s[n - 1]
}

// The marks are those of the whole Date, not of one end.
#[tactic(auto, unfolding(crate::specs::Value::marked))]
fn marked(
    value: Result<DateValue, Refusal>,
    uncertain: bool,
    approximate: bool,
) -> Result<Date, Refusal>
    ensures { result ≡ spec.marked uncertain approximate value }
{
    let v = value?;
    Ok(Date {
        value: v,
        uncertain,
        approximate,
    })
}

// How many bytes stand before the mark: all where there is none.
fn unmarked_length(s: &[u8], uncertain: bool, approximate: bool) -> usize
    requires { (uncertain ≡ text.is_uncertain (text.last_byte s.now)) × (approximate ≡ text.is_approximate (text.last_byte s.now)) }
    ensures { (take result s.now ≡ text.unmarked s.now) × (result ≤ length s.now) }
{
    if uncertain | approximate {
        return s.len() - 1;
    }
    s.len()
}

// A text that is trimmed: one final mark is dropped, and the rest is read.
fn read_trimmed(s: &[u8], span: FileSpan) -> Result<Date, Refusal>
    ensures { result ≡ spec.trimmed_date span s.now }
{
    let mark = last_byte(s);
    let uncertain = is_uncertain(mark);
    let approximate = is_approximate(mark);
    let n = unmarked_length(s, uncertain, approximate);
    marked(read_value(&s[..n], span), uncertain, approximate)
}

// The text of a date field, in upper case, of a chunk list with this span.
pub fn parse_text(s: &[u8], span: FileSpan) -> Result<Date, Refusal>
    ensures { result ≡ spec.parse_text span s.now }
{
    let end = numbers::trim_end(s);
    let n = end.0;
    read_trimmed(&s[..n], span)
}
