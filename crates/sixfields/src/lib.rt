// The fields of a start and of an end: three lists each, read by the rules of three fields. The lists are lent for reading only.
#![tactic(auto)]

ghost use Rattle.std.specs.Prelude.{◌≡◌, true, ◌≤◌, length, is_some};
ghost use Rattle.chunks.specs.Chunks.{is_short};
ghost use Rattle.chunks.specs.Answer.{room_of};
ghost use Rattle.datefield.specs.Text as text;
ghost use Rattle.chunks.specs.Lent.{lent_of};
ghost use Rattle.reader.specs.Fields.{three_of};
ghost use Rattle.sixfields.specs.Ends.{end_of};
ghost use Rattle.sixfields.specs.Six as six;

use chunks::ChunksRef;
use dates::{Date, DateValue, Datetime};
use reader::ThreeFields;
use refusals::Refusal;
use scanner::Cursor;

// Whether a text is white space alone, or nothing.
fn is_blank(s: &[u8]) -> bool
    ensures { result ≡ text.is_blank s.now }
{
    let c = scanner::eat_whitespace(s, Cursor(0));
    scanner::done(s, c)
}

// Whether an end year list has more than white space, formatted into a buffer with room for it; or what is wrong with it.
fn end_year_in(year: ChunksRef<'_>, buf: &mut [u8]) -> Result<bool, Refusal>
    requires { is_short year.bytes.now year.table.now ≡ true → room_of year.bytes.now year.table.now ≤ length buf.old }
    ensures { result ≡ six.end_year_of (lent_of year.entry) }
{
    let n = year.format_verbatim(buf)?;
    Ok(!is_blank(&buf[..n]))
}

// The same, of any list.
fn end_year_large(year: ChunksRef<'_>) -> Result<bool, Refusal>
    ensures { result ≡ six.end_year_of (lent_of year.entry) }
{
    let mut buf = [0u8; 4224];
    end_year_in(year, &mut buf)
}

// The same. A short list is formatted into a small array, which costs less to clear. The large one stands in a function of its own: here it
// was cleared for short lists too.
fn end_year_of(year: ChunksRef<'_>) -> Result<bool, Refusal>
    ensures { result ≡ six.end_year_of (lent_of year.entry) }
{
    if year.bytes.len() <= 56 {
        if year.table.len() <= 16 {
            let mut small = [0u8; 64];
            return end_year_in(year, &mut small);
        }
    }
    end_year_large(year)
}

// The Datetime of a single date, which is what three fields give.
fn single(d: Date) -> Datetime
    ensures { result ≡ six.single d.value }
{
    let v = d.value;
    match v {
        DateValue::At(a) => a,
        DateValue::After(a) => a,
        DateValue::Before(a) => a,
        DateValue::Between(a, _) => a,
    }
}

// Six fields have no mark.
fn unmarked(value: DateValue) -> Result<Date, Refusal>
    ensures { result ≡ six.unmarked value }
{
    Ok(Date {
        value,
        uncertain: false,
        approximate: false,
    })
}

// A range from a start to an end that three fields gave.
#[tactic(auto, unfolding(crate::specs::Six::between, crate::specs::Six::on_three))]
fn between(start: Datetime, end: Result<Date, Refusal>) -> Result<Date, Refusal>
    ensures { result ≡ six.between start end }
{
    let d = end?;
    unmarked(DateValue::Between(start, single(d)))
}

// A start that was read, and the end. With a blank end year list no other list of the end is looked at.
#[tactic(auto, unfolding(crate::specs::Six::with_end, crate::specs::Six::on_end_year, chars::specs::Pick::pick))]
fn with_end(start: Datetime, end: Option<ThreeFields<'_>>) -> Result<Date, Refusal>
    ensures { result ≡ six.with_end start (is_some end.entry) (end_of end.entry) }
{
    match end {
        Some(fields) => {
            if !end_year_of(fields.year)? {
                return unmarked(DateValue::After(start));
            }
            between(start, reader::parse_three_fields(fields))
        }
        None => unmarked(DateValue::At(start)),
    }
}

// The fields year, month, day, endyear, endmonth and endday. The start is checked and read before any list of the end is looked at. Without an
// end year list there is no end, and behind a blank one no other list of it is looked at.
#[tactic(auto, unfolding(crate::specs::Six::six_fields, crate::specs::Six::on_three))]
pub fn parse_six_fields(
    start: ThreeFields<'_>,
    end: Option<ThreeFields<'_>>,
) -> Result<Date, Refusal>
    ensures { result ≡ six.six_fields (three_of start.entry) (is_some end.entry) (end_of end.entry) }
{
    let d = reader::parse_three_fields(start)?;
    with_end(single(d), end)
}
