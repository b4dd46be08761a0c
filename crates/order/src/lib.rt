// The two partial orders of the ported code: of times, and of dates with them.
#![tactic(auto)]

ghost use Rattle.std.specs.Prelude.{◌≡◌};
ghost use Rattle.order.specs.Order as spec;

use dates::{Datetime, Time, TimeOffset};
use refusals::{Kind, Refusal};
use std::cmp::Ordering;

// Two numbers are never without an order.
pub fn cmp(a: i64, b: i64) -> Option<Ordering>
    ensures { result ≡ spec.number_order a b }
{
    Some(a.cmp(&b))
}

// Whether both have an offset, or neither has.
#[tactic(auto, unfolding(crate::specs::Order::alike))]
fn alike(a: Option<TimeOffset>, b: Option<TimeOffset>) -> bool
    ensures { result ≡ spec.alike a b }
{
    a.is_some() == b.is_some()
}

// Times, by their seconds in UTC.
#[tactic(auto, unfolding(crate::specs::Order::time_order, chars::specs::Pick::pick))]
pub fn partial_cmp_time(a: Time, b: Time) -> Option<Ordering>
    ensures { result ≡ spec.time_order a b }
{
    if !alike(a.offset, b.offset) {
        return None;
    }
    cmp(a.to_utc_seconds(), b.to_utc_seconds())
}

// Two dates that are the same up to the day.
#[tactic(auto, unfolding(crate::specs::Order::from_time, crate::specs::Order::both))]
fn from_time(a: Datetime, b: Datetime) -> Option<Ordering>
    ensures { result ≡ spec.from_time a b }
{
    match (a.time, b.time) {
        (None, None) => Some(Ordering::Equal),
        (Some(s), Some(t)) => partial_cmp_time(s, t),
        _ => None,
    }
}

// Two dates that are the same up to the month.
#[tactic(auto, unfolding(crate::specs::Order::from_day, crate::specs::Order::both, crate::specs::Order::day_of, crate::specs::Order::in_turn))]
fn from_day(a: Datetime, b: Datetime) -> Option<Ordering>
    ensures { result ≡ spec.from_day a b }
{
    match (a.day, b.day) {
        (None, None) => Some(Ordering::Equal),
        (Some(d), Some(e)) => match d.0.cmp(&e.0) {
            Ordering::Equal => from_time(a, b),
            unequal => Some(unequal),
        },
        _ => None,
    }
}

// Two dates of the same year.
#[tactic(auto, unfolding(crate::specs::Order::from_month, crate::specs::Order::both, crate::specs::Order::month_of, crate::specs::Order::in_turn))]
fn from_month(a: Datetime, b: Datetime) -> Option<Ordering>
    ensures { result ≡ spec.from_month a b }
{
    match (a.month, b.month) {
        (None, None) => Some(Ordering::Equal),
        (Some(m), Some(n)) => match m.0.cmp(&n.0) {
            Ordering::Equal => from_day(a, b),
            unequal => Some(unequal),
        },
        _ => None,
    }
}

// Dates: year, month, day, time in turn.
#[tactic(auto, unfolding(crate::specs::Order::order, crate::specs::Order::in_turn))]
fn from_year(a: Datetime, b: Datetime) -> Option<Ordering>
    ensures { result ≡ spec.order a b }
{
    match a.year.cmp(&b.year) {
        Ordering::Equal => from_month(a, b),
        unequal => Some(unequal),
    }
}

// Dates: refused if either has a season.
#[tactic(auto, unfolding(crate::specs::Order::partial_cmp, crate::specs::Order::seasoned, chars::specs::Pick::pick))]
pub fn partial_cmp(a: Datetime, b: Datetime) -> Result<Option<Ordering>, Refusal>
    ensures { result ≡ spec.partial_cmp a b }
{
    if a.has_season() || b.has_season() {
        return Err(refusals::nowhere(Kind::HasSeason));
    }
    Ok(from_year(a, b))
}
