// The values that are read, compared and written, with the names of the ported code; and the calendar.
#![tactic(auto)]

ghost use Rattle.std.specs.Prelude.{◌≡◌, ◌<◌, Some, None};
ghost use Rattle.std.specs.Int.Signed.{mag};
ghost use Rattle.dates.specs.Calendar.{leap_year, month_length};
ghost use Rattle.dates.specs.Value as spec;
ghost use Rattle.dates.specs.Time as clock;
ghost use Rattle.dates.specs.Clocks as good;

// A month as it is stored, counted from zero.
#[derive(Clone, Copy)]
pub struct Month(pub u8);

// A day as it is stored, counted from zero.
#[derive(Clone, Copy)]
pub struct Day(pub u8);

// A month as it is written, counted from one.
#[derive(Clone, Copy)]
pub struct WrittenMonth(pub u8);

// A day as it is written, counted from one.
#[derive(Clone, Copy)]
pub struct WrittenDay(pub u8);

// A timezone offset: UTC, or hours and minutes ahead of it or behind.
#[derive(Clone, Copy)]
pub enum TimeOffset {
    Utc,
    Offset {
        positive: bool,
        hours: u8,
        minutes: u8,
    },
}

// A time, with a timezone offset or without.
#[derive(Clone, Copy)]
pub struct Time {
    pub hour: u8,
    pub minute: u8,
    pub second: u8,
    pub offset: Option<TimeOffset>,
}

// A season of a year, by the numbers of ISO 8601-2.
#[derive(Clone, Copy)]
pub enum Season {
    Spring = 21,
    Summer,
    Autumn,
    Winter,
}

// A date and time: a year, and perhaps a month, a day and a time, or a season.
// The year before year 1 is 0, and the one before that -1.
#[derive(Clone, Copy)]
pub struct Datetime {
    pub year: i32,
    pub month: Option<Month>,
    pub day: Option<Day>,
    pub time: Option<Time>,
    pub season: Option<Season>,
}

// A single date or a range of dates.
#[derive(Clone, Copy)]
pub enum DateValue {
    At(Datetime),
    // A range with a known start and an open end.
    After(Datetime),
    // A range with an open start and a known end.
    Before(Datetime),
    Between(Datetime, Datetime),
}

// A date or a range of dates, and how sure and how exact it is.
#[derive(Clone, Copy)]
pub struct Date {
    pub value: DateValue,
    pub uncertain: bool,
    pub approximate: bool,
}

impl Time {
    // The time of an hour, a minute and a second, without an offset; none if one of them is out of range.
    pub fn from_hms(hour: u8, minute: u8, second: u8) -> Option<Time>
        ensures { result ≡ clock.time_of hour minute second None }
    {
        let offset = None;
        from_parts(hour, minute, second, offset)
    }

    // The same with an offset, which is not checked.
    pub fn from_hms_offset(hour: u8, minute: u8, second: u8, offset: TimeOffset) -> Option<Time>
        ensures { result ≡ clock.time_of hour minute second (Some offset) }
    {
        let some = Some(offset);
        from_parts(hour, minute, second, some)
    }

    // The seconds in UTC, by which times compare. They may be negative, or more than a day has.
    pub fn to_utc_seconds(self) -> i64
        ensures { (result ≡ clock.utc_seconds self) × (mag result < 2000001) }
    {
        let offset = self.offset;
        let ahead = ahead_of(offset);
        seconds(self.hour, self.minute, self.second) as i64 - ahead
    }
}

impl TimeOffset {
    // The seconds that the offset is ahead of UTC.
    pub fn to_seconds(self) -> i64
        ensures { (result ≡ clock.offset_seconds self) × (mag result < 1000000) }
    {
        match self {
            TimeOffset::Utc => 0,
            TimeOffset::Offset {
                positive,
                hours,
                minutes,
            } => {
                let n = seconds(hours, minutes, 0) as i64;
                if positive { n } else { 0 - n }
            }
        }
    }
}

// Whether a clock shows it. There is no leap second: 23:59:60 is no time.
fn in_range(hour: u8, minute: u8, second: u8) -> bool
    ensures { result ≡ clock.in_range hour minute second }
{
    if hour <= 23 {
        if minute <= 59 {
            return second <= 59;
        }
    }
    false
}

// The time of four parts, if it is one.
fn from_parts(hour: u8, minute: u8, second: u8, offset: Option<TimeOffset>) -> Option<Time>
    ensures { result ≡ clock.time_of hour minute second offset }
{
    if in_range(hour, minute, second) {
        return Some(Time {
            hour,
            minute,
            second,
            offset,
        });
    }
    None
}

// Any three bytes will do: those of an offset are not checked.
fn seconds(hour: u8, minute: u8, second: u8) -> u32
    ensures { (result ≡ clock.seconds hour minute second) × (result < 1000000) }
{
    hour as u32 * 3600 + minute as u32 * 60 + second as u32
}

// The seconds that an offset is ahead of UTC, if there is one.
fn ahead_of(offset: Option<TimeOffset>) -> i64
    ensures { (result ≡ clock.ahead_of offset) × (mag result < 1000000) }
{
    match offset {
        None => 0,
        Some(o) => o.to_seconds(),
    }
}

impl Datetime {
    // The Datetime of four parts, without a season.
    pub fn new(year: i32, month: Option<Month>, day: Option<Day>, time: Option<Time>) -> Self
        ensures { result ≡ spec.datetime year month day time }
    {
        Self {
            year,
            month,
            day,
            time,
            season: None,
        }
    }

    // A season of a year: no month, no day and no time.
    pub fn of_season(year: i32, season: Option<Season>) -> Self
        ensures { result ≡ spec.season_of year season }
    {
        Self {
            year,
            month: None,
            day: None,
            time: None,
            season,
        }
    }

    // Whether it has a season.
    pub fn has_season(self) -> bool
        ensures { result ≡ spec.has_season self }
    {
        self.season.is_some()
    }
}

impl DateValue {
    // Whether an end has a season.
    pub fn has_season(self) -> bool
        ensures { result ≡ spec.any_season self }
    {
        match self {
            DateValue::At(d) => d.has_season(),
            DateValue::After(d) => d.has_season(),
            DateValue::Before(d) => d.has_season(),
            DateValue::Between(a, b) => {
                if a.has_season() {
                    return true;
                }
                b.has_season()
            }
        }
    }
}

impl Date {
    // The Date that is one Datetime, with no mark.
    pub fn from_datetime(atom: Datetime) -> Self
        ensures { result ≡ spec.from_datetime atom }
    {
        Self {
            value: DateValue::At(atom),
            uncertain: false,
            approximate: false,
        }
    }
}

// The number of a season in ISO 8601-2: 21 to 24; 0 for none.
pub fn season_number(season: Option<Season>) -> u8
    ensures { result ≡ spec.season_number season }
{
    match season {
        None => 0,
        Some(s) => s as u8,
    }
}

// Whether the year has a 29 February.
pub fn is_leap(year: i32) -> bool
    ensures { result ≡ leap_year year }
{
    year % 4 == 0 && (year % 100 != 0 || year % 400 == 0)
}

// How many days a month has; what is no month has none.
pub fn days_in_month(month: Month, year: i32) -> u8
    ensures { result ≡ month_length month.0 year }
{
    let m = month.0;
    if m == 1 {
        return if is_leap(year) { 29 } else { 28 };
    }
    if m < 7 {
        return 31 - m % 2;
    }
    if m < 12 {
        return 30 + m % 2;
    }
    0
}

// ---- which times are good: beside a day, and with all parts in range; who writes a time or counts by it asks here

// Whether the hours and minutes of an offset are in range.
fn offset_in(o: TimeOffset) -> bool
    ensures { result ≡ good.offset_in o }
{
    match o {
        TimeOffset::Utc => true,
        TimeOffset::Offset {
            positive: _,
            hours,
            minutes,
        } => {
            if hours <= 23 {
                return minutes <= 59;
            }
            false
        }
    }
}

// The same of an offset that may be absent.
fn zone_in(o: Option<TimeOffset>) -> bool
    ensures { result ≡ good.zone_in o }
{
    match o {
        None => true,
        Some(o) => offset_in(o),
    }
}

// Whether all parts of a time are in range.
fn clock_in(t: Time) -> bool
    ensures { result ≡ good.clock_in t }
{
    let offset = t.offset;
    if t.hour <= 23 {
        if t.minute <= 59 {
            if t.second <= 59 {
                return zone_in(offset);
            }
        }
    }
    false
}

// Whether there is a day beside a month.
#[tactic(auto, unfolding(crate::specs::Clocks::day_beside_month))]
fn on_day(month: Option<Month>, day: Option<Day>) -> bool
    ensures { result ≡ good.day_beside_month month day }
{
    month.is_some() && day.is_some()
}

// Whether a time is bad: without a day, or out of range.
fn bad_time(dated: bool, t: Option<Time>) -> bool
    ensures { result ≡ good.bad_time dated t }
{
    match t {
        None => false,
        Some(t) => {
            if dated {
                return !clock_in(t);
            }
            true
        }
    }
}

// Whether a Datetime has a bad time.
pub fn has_bad_time(d: Datetime) -> bool
    ensures { result ≡ good.has_bad_time d }
{
    let month = d.month;
    let day = d.day;
    let time = d.time;
    bad_time(on_day(month, day), time)
}
