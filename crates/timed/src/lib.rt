// Writing a date as text with its times, into a buffer that the caller lends. The year, the month and the day of an end are written by the
// writer that leaves times out, and the time behind them. The length is measured before the first byte is stored.
#![tactic(auto)]

ghost use Rattle.std.specs.Prelude.{◌≡◌, false, [], ◌∷◌, ◌+◌, ◌≤◌, ◌<◌, length};
ghost use Rattle.dates.specs.Value.{has_season, any_season};
ghost use Rattle.puts.specs.Answers.{Put};
ghost use Rattle.writer.specs.Texts as text;
ghost use Rattle.timed.specs.Texts as timed;
ghost use Rattle.timed.specs.Answers as spec;

use dates::{Date, DateValue, Datetime, Time, TimeOffset, has_bad_time};
use puts::{decide, put_bytes, put_mark};
use refusals::{Kind, Refusal, nowhere};
use writer::{date_length, write_text};

// ---- which times are written

// Whether one of the ends has a bad time.
fn value_bad(v: DateValue) -> bool
    ensures { result ≡ spec.value_bad v }
{
    match v {
        DateValue::At(d) => has_bad_time(d),
        DateValue::After(d) => has_bad_time(d),
        DateValue::Before(d) => has_bad_time(d),
        DateValue::Between(a, b) => {
            if has_bad_time(a) {
                return true;
            }
            has_bad_time(b)
        }
    }
}

// ---- lengths

// How long an offset's text is.
#[tactic(auto, unfolding(crate::specs::Texts::zone_text, crate::specs::Texts::offset_text, crate::specs::Texts::field))]
fn zone_length(o: Option<TimeOffset>) -> usize
    ensures { (result ≡ length (timed.zone_text o)) × (result < 7) }
{
    match o {
        None => 0,
        Some(o) => {
            match o {
                TimeOffset::Utc => 1,
                TimeOffset::Offset {
                    positive: _,
                    hours: _,
                    minutes: _,
                } => 6,
            }
        }
    }
}

// How long a time's text is.
fn time_length(t: Option<Time>) -> usize
    ensures { (result ≡ length (timed.time_text t)) × (result < 16) }
{
    match t {
        None => 0,
        Some(t) => {
            let offset = t.offset;
            9 + zone_length(offset)
        }
    }
}

// How long the times of a point or a range are.
fn times_length(v: DateValue) -> usize
    ensures { (result ≡ length (timed.times_text v)) × (result < 31) }
{
    match v {
        DateValue::At(d) => {
            let t = d.time;
            time_length(t)
        }
        DateValue::After(d) => {
            let t = d.time;
            time_length(t)
        }
        DateValue::Before(d) => {
            let t = d.time;
            time_length(t)
        }
        DateValue::Between(a, b) => {
            let t = a.time;
            let u = b.time;
            time_length(t) + time_length(u)
        }
    }
}

// ---- texts

// One byte, and the place behind it: so each of these functions says where the next goes on.
fn put_byte(b: u8, out: &mut [u8], at: usize) -> usize
    requires { at + 1 ≤ length out.old }
    ensures { Put (b ∷ []) out.old at out.new result }
{
    out[at] = b;
    at + 1
}

// A character and two digits.
fn put_field(c: u8, n: u8, out: &mut [u8], at: usize) -> usize
    requires { at + length (timed.field c n) ≤ length out.old }
    ensures { Put (timed.field c n) out.old at out.new result }
{
    let i = put_byte(c, out, at);
    let j = put_byte(48 + n / 10 % 10, out, i);
    put_byte(48 + n % 10, out, j)
}

// The sign of an offset.
fn sign(positive: bool) -> u8
    ensures { result ≡ timed.sign positive }
{
    if positive { b'+' } else { b'-' }
}

// An offset: Z is UTC's alone.
fn put_offset(o: TimeOffset, out: &mut [u8], at: usize) -> usize
    requires { at + length (timed.offset_text o) ≤ length out.old }
    ensures { Put (timed.offset_text o) out.old at out.new result }
{
    match o {
        TimeOffset::Utc => put_byte(b'Z', out, at),
        TimeOffset::Offset {
            positive,
            hours,
            minutes,
        } => {
            let k = put_field(sign(positive), hours, out, at);
            put_field(b':', minutes, out, k)
        }
    }
}

// The same, if there is one.
#[tactic(auto, unfolding(crate::specs::Texts::zone_text))]
fn put_zone(o: Option<TimeOffset>, out: &mut [u8], at: usize) -> usize
    requires { at + length (timed.zone_text o) ≤ length out.old }
    ensures { Put (timed.zone_text o) out.old at out.new result }
{
    match o {
        None => at,
        Some(o) => put_offset(o, out, at),
    }
}

// A time.
fn put_clock(t: Time, out: &mut [u8], at: usize) -> usize
    requires { at + length (timed.clock_text t) ≤ length out.old }
    ensures { Put (timed.clock_text t) out.old at out.new result }
{
    let offset = t.offset;
    let i = put_field(b'T', t.hour, out, at);
    let j = put_field(b':', t.minute, out, i);
    let k = put_field(b':', t.second, out, j);
    put_zone(offset, out, k)
}

// The same, if there is one.
#[tactic(auto, unfolding(crate::specs::Texts::time_text))]
fn put_time(t: Option<Time>, out: &mut [u8], at: usize) -> usize
    requires { at + length (timed.time_text t) ≤ length out.old }
    ensures { Put (timed.time_text t) out.old at out.new result }
{
    match t {
        None => at,
        Some(t) => put_clock(t, out, at),
    }
}

// The year, the month and the day: the rest of the buffer is lent on to the writer of dates, which does not refuse where there is room.
fn put_datetime(d: Datetime, out: &mut [u8], at: usize) -> usize
    requires { (has_season d ≡ false) × (text.end_panics d ≡ false) × (at + length (text.datetime_text d) ≤ length out.old) }
    ensures { Put (text.datetime_text d) out.old at out.new result }
{
    let w = write_text(Date::from_datetime(d), &mut out[at..]);
    match w {
        Ok(n) => at + n,
        Err(_) => at,
    }
}

// One end of a date.
fn put_end(d: Datetime, out: &mut [u8], at: usize) -> usize
    requires { (has_season d ≡ false) × (text.end_panics d ≡ false) × (at + length (timed.end_text d) ≤ length out.old) }
    ensures { Put (timed.end_text d) out.old at out.new result }
{
    let time = d.time;
    let k = put_datetime(d, out, at);
    put_time(time, out, k)
}

// A point or a range, at the front of the buffer.
fn put_timed_value(v: DateValue, out: &mut [u8]) -> usize
    requires { (any_season v ≡ false) × (text.value_panics v ≡ false) × (length (timed.value_text v) ≤ length out.old) }
    ensures { Put (timed.value_text v) out.old 0 out.new result }
{
    match v {
        DateValue::At(d) => put_end(d, out, 0),
        DateValue::After(d) => {
            let k = put_end(d, out, 0);
            put_bytes(b"/..", out, k)
        }
        DateValue::Before(d) => {
            let k = put_bytes(b"../", out, 0);
            put_end(d, out, k)
        }
        DateValue::Between(a, b) => {
            let j = put_end(a, out, 0);
            let k = put_byte(b'/', out, j);
            put_end(b, out, k)
        }
    }
}

// A date, at the front of the buffer.
fn put_timed(d: Date, out: &mut [u8]) -> usize
    requires { (any_season d.value ≡ false) × (text.panics d ≡ false) × (length (timed.timed_text d) ≤ length out.old) }
    ensures { Put (timed.timed_text d) out.old 0 out.new result }
{
    let v = d.value;
    let k = put_timed_value(v, out);
    put_mark(d.uncertain, d.approximate, out, k)
}

// ---- the calls

// How long the text of a date with its times is: at most 70 bytes. It refuses what `write_timed` refuses, apart from NoRoom.
pub fn timed_length(d: Date) -> Result<usize, Refusal>
    ensures value { result ≡ spec.timed_measured d }
    ensures d_len_bound { text.panics d ≡ false → length (timed.timed_text d) ≤ 70 }
{
    let v = d.value;
    let n = date_length(d)?;
    if value_bad(v) {
        return Err(nowhere(Kind::BadTime));
    }
    Ok(n + times_length(v))
}

// The text of a date with its times, at the front of the lent buffer; a refusal stores nothing.
pub fn write_timed(d: Date, out: &mut [u8]) -> Result<usize, Refusal>
    ensures value { result ≡ spec.timed_answer d (length out.old) }
    ensures out_after { out.new ≡ spec.timed_afterwards d out.old }
    ensures d_len_bound { text.panics d ≡ false → length (timed.timed_text d) ≤ 70 }
{
    decide(timed_length(d), out.len())?;
    Ok(put_timed(d, out))
}
