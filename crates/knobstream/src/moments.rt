// The days that a Datetime covers, and its instant.
ghost use Rattle.std.specs.Prelude.{◌≡◌};
ghost use Rattle.days.specs.Covered.{covered};
ghost use Rattle.instants.specs.Instants.{instant_of, compared};
ghost use Rattle.knobstream.specs.Plain.{compared_number};
ghost use Rattle.knobstream.specs.Moments.{plain_days, plain_instant};
ghost use Rattle.knobstream.specs.Back.{datetime_of};

use crate::PlainDatetime;
use days::Period;
use refusals::Refusal;

// The first and the last day with the refusal 0, or zeros and the number of a refusal.
#[repr(C)]
#[derive(Clone, Copy)]
pub struct PlainDays {
    pub first: i32,
    pub last: i32,
    pub refusal: u8,
}

// The seconds of an instant with the refusal 0, or 0 and the number of a refusal.
#[repr(C)]
#[derive(Clone, Copy)]
pub struct PlainInstant {
    pub seconds: i64,
    pub refusal: u8,
}

fn plain_days(c: Result<Period, Refusal>) -> PlainDays
    ensures { result ≡ plain_days c }
{
    match c {
        Ok(p) => PlainDays {
            first: p.first,
            last: p.last,
            refusal: 0,
        },
        Err(e) => {
            let kind = e.kind;
            PlainDays {
                first: 0,
                last: 0,
                refusal: refusals::number(kind),
            }
        }
    }
}

fn plain_instant(i: Result<i64, Refusal>) -> PlainInstant
    ensures { result ≡ plain_instant i }
{
    match i {
        Ok(n) => PlainInstant {
            seconds: n,
            refusal: 0,
        },
        Err(e) => {
            let kind = e.kind;
            PlainInstant {
                seconds: 0,
                refusal: refusals::number(kind),
            }
        }
    }
}

// The first and the last day that a Datetime covers.
pub fn knobstream_days(d: PlainDatetime) -> PlainDays
    ensures { result ≡ plain_days (covered (datetime_of d)) }
{
    let x = crate::datetime_of(d);
    plain_days(days::days_by_formula(x))
}

// The seconds from the start of day 0 in UTC to a Datetime.
pub fn knobstream_instant(d: PlainDatetime) -> PlainInstant
    ensures { result ≡ plain_instant (instant_of (datetime_of d)) }
{
    let x = crate::datetime_of(d);
    plain_instant(instants::instant_of(x))
}

// How the first instant stands to the second: -1 before it, 0 at once with it, 1 after it; or the number of the refusal.
pub fn knobstream_compare_instants(a: PlainDatetime, b: PlainDatetime) -> i32
    ensures { result ≡ compared_number (compared (datetime_of a) (datetime_of b)) }
{
    let x = crate::datetime_of(a);
    let y = crate::datetime_of(b);
    crate::plain_compared(instants::compare(x, y))
}
