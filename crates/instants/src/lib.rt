// Instants: a day, a time and its offset, as seconds from the start of day 0 in UTC, and their order. It stands beside the ported order, which
// compares the stored days first; what that one says of the calendar is proved in `proofs/Meaning.antt`.
#![tactic(auto)]

ghost use Rattle.std.specs.Prelude.{◌≡◌};
ghost use Rattle.instants.specs.Instants as spec;

use dates::{Datetime, Day, Time, has_bad_time};
use days::days_by_formula;
use refusals::{Kind, Refusal};
use std::cmp::Ordering;

// A refusal has no place here.
fn refuse(kind: Kind) -> Result<i64, Refusal>
    ensures { result ≡ spec.refused_instant kind }
{
    Err(refusals::nowhere(kind))
}

// The seconds of a time on a day.
fn seconds_at(day: i32, t: Time) -> i64
    ensures { result ≡ spec.seconds_at day t }
{
    day as i64 * 86400 + t.to_utc_seconds()
}

// A time on a day: an instant if it has an offset.
#[tactic(auto, unfolding(crate::specs::Instants::on_time))]
fn on_time(day: i32, t: Time) -> Result<i64, Refusal>
    ensures { result ≡ spec.on_time day t t.offset }
{
    if t.offset.is_none() {
        return refuse(Kind::NoInstant);
    }
    Ok(seconds_at(day, t))
}

// What is stored of a Datetime whose first day is given: an instant if there are a day and a time.
#[tactic(auto, unfolding(crate::specs::Instants::on_day_and_time))]
fn on_day(first: i32, day: Option<Day>, time: Option<Time>) -> Result<i64, Refusal>
    ensures { result ≡ spec.on_day_and_time first day time }
{
    match (day, time) {
        (Some(_), Some(t)) => on_time(first, t),
        _ => refuse(Kind::NoInstant),
    }
}

// The instant of a Datetime.
#[tactic(auto, unfolding(crate::specs::Instants::instant_of, crate::specs::Instants::on_covered, chars::specs::Pick::pick))]
pub fn instant_of(d: Datetime) -> Result<i64, Refusal>
    ensures { result ≡ spec.instant_of d }
{
    let p = days_by_formula(d)?;
    if has_bad_time(d) {
        return refuse(Kind::BadTime);
    }
    on_day(p.first, d.day, d.time)
}

// How the first instant stands to the second. All about the first is refused before the second is looked at.
#[tactic(auto, unfolding(crate::specs::Instants::compared, crate::specs::Instants::both))]
pub fn compare(a: Datetime, b: Datetime) -> Result<Option<Ordering>, Refusal>
    ensures { result ≡ spec.compared a b }
{
    let x = instant_of(a)?;
    let y = instant_of(b)?;
    Ok(order::cmp(x, y))
}
