// The text of a Date with its times.
ghost use Rattle.std.specs.Prelude.{◌≡◌, length};
ghost use Rattle.timed.specs.Answers.{timed_measured, timed_answer, timed_afterwards};
ghost use Rattle.knobstream.specs.Plain as plain;
ghost use Rattle.knobstream.specs.Back as back;

use crate::{PlainDate, PlainDatetime, PlainWritten};
use dates::{Date, DateValue};

fn timed_value(p: PlainDate) -> DateValue
    ensures { result ≡ back.date_value back.datetime_of p }
{
    let shape = p.shape;
    let first = p.first;
    let second = p.second;
    if shape == 0 {
        return DateValue::At(crate::datetime_of(first));
    }
    if shape == 1 {
        return DateValue::After(crate::datetime_of(first));
    }
    if shape == 2 {
        return DateValue::Before(crate::datetime_of(first));
    }
    DateValue::Between(crate::datetime_of(first), crate::datetime_of(second))
}

// The Date with its times.
fn timed_date(p: PlainDate) -> Date
    ensures { result ≡ back.date_of p }
{
    let value = timed_value(p);
    let uncertain = crate::is_set(p.uncertain);
    let approximate = crate::is_set(p.approximate);
    Date {
        value,
        uncertain,
        approximate,
    }
}

// How long the text of a Date with its times is; it refuses what the writer refuses, apart from NoRoom.
pub fn knobstream_measure_timed(
    first: PlainDatetime,
    second: PlainDatetime,
    shape: u8,
    uncertain: u8,
    approximate: u8,
) -> PlainWritten
    ensures { result ≡ plain.measure (timed_measured (back.date_of (plain.parts shape uncertain approximate first second))) }
{
    let d = timed_date(PlainDate {
        shape,
        uncertain,
        approximate,
        first,
        second,
    });
    crate::plain_measured(timed::timed_length(d))
}

// The text of a Date with its times, at the front of the lent buffer; a refusal stores nothing.
pub fn knobstream_write_timed(
    first: PlainDatetime,
    second: PlainDatetime,
    out: &mut [u8],
    shape: u8,
    uncertain: u8,
    approximate: u8,
) -> PlainWritten
    ensures value { result ≡ plain.written (timed_answer (back.date_of (plain.parts shape uncertain approximate first second)) (length out.old)) }
    ensures out_after { out.new ≡ timed_afterwards (back.date_of (plain.parts shape uncertain approximate first second)) out.old }
{
    let d = timed_date(PlainDate {
        shape,
        uncertain,
        approximate,
        first,
        second,
    });
    crate::plain_written(timed::write_timed(d, out))
}
