// The days that a Datetime covers, and its instant.
ghost use Rattle.std.specs.Prelude.{◌≡◌};
ghost use Rattle.days.specs.Covered.{covered};
ghost use Rattle.instants.specs.Instants.{instant_of, compared};
ghost use Rattle.knobstream.specs.Plain.{compared_number};
ghost use Rattle.knobstream.specs.Moments.{plain_days, plain_instant};
ghost use Rattle.knobstream.specs.Back.{datetime_of};

use knobstream::PlainDatetime;
use knobstream::moments::{PlainDays, PlainInstant};

// The first and the last day that a Datetime covers.
#[unsafe(no_mangle)]
pub extern "C" fn knobstream_days(d: PlainDatetime) -> PlainDays
    ensures { result ≡ plain_days (covered (datetime_of d)) }
{
    knobstream::moments::knobstream_days(d)
}

// The seconds from the start of day 0 in UTC to a Datetime.
#[unsafe(no_mangle)]
pub extern "C" fn knobstream_instant(d: PlainDatetime) -> PlainInstant
    ensures { result ≡ plain_instant (instant_of (datetime_of d)) }
{
    knobstream::moments::knobstream_instant(d)
}

// How the first instant stands to the second: -1 before it, 0 at once with it, 1 after it; or the number of the refusal.
#[unsafe(no_mangle)]
pub extern "C" fn knobstream_compare_instants(a: PlainDatetime, b: PlainDatetime) -> i32
    ensures { result ≡ compared_number (compared (datetime_of a) (datetime_of b)) }
{
    knobstream::moments::knobstream_compare_instants(a, b)
}
