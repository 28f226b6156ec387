// Dates: the day after and the day before, by value and in place, and the date and time in UTC from 46h data.
#![tactic(auto)]

ghost use Rattle.std.specs.Prelude.{◌≡◌, cond, true, ◌&&◌, ◌+◌, ◌-◌, ◌%◌, ◌≤◌, ◌<◌, leb, pos, nat_abs, ◌-ℤ◌};
ghost use Rattle.refusals.specs.Numbers.{code};
ghost use Rattle.ranges.specs.Ranges.{zone};
ghost use Rattle.dates.specs.Dates.{exists, rolled, forward_of, back_of};
ghost use Rattle.dates.specs.UtcTime.{negative, zone_seconds, falls_on, answer_of, from_fields, utc_of};

use fields_46::Time;
use refusals::Refusal;

#[derive(Clone, Copy, Debug, PartialEq, Eq)]
pub struct Date {
    pub day: u8,
    pub month: u8,
    pub year: u16,
}

#[derive(Clone, Copy, Debug, PartialEq, Eq)]
pub struct DateTime {
    pub second: u32, // of the day
    pub date: Date,
}

// The years to which a date is rolled.
const FIRST_YEAR: u16 = 1999;

const LAST_YEAR: u16 = 65_535;

// In seconds.
const DAY: u32 = 86_400;

impl Date {
    fn new(day: u8, month: u8, year: u16) -> Date
        ensures { result ≡ record { day = day; month = month; year = year } }
    {
        Date { day, month, year }
    }
}

// Whether a date exists, and is of a year from which dates are rolled.
fn can_roll(d: Date) -> bool
    ensures { result ≡ exists d && leb 1999 d.year }
{
    calendar::is_date(d.day, d.month, d.year) && FIRST_YEAR <= d.year
}

// The day after.
pub fn day_after(d: Date) -> Result<Date, Refusal>
    ensures { rolled d result ≡ forward_of d }
{
    if !can_roll(d) {
        return Err(Refusal::Date);
    }
    let last = calendar::days_in(d.month, d.year);
    if d.day < last {
        return Ok(Date::new(d.day + 1, d.month, d.year));
    }
    if d.month < 12 {
        return Ok(Date::new(1, d.month + 1, d.year));
    }
    if d.year < LAST_YEAR {
        return Ok(Date::new(1, 1, d.year + 1));
    }
    Err(Refusal::Date)
}

// The day before.
pub fn day_before(d: Date) -> Result<Date, Refusal>
    ensures { rolled d result ≡ back_of d }
{
    if !can_roll(d) {
        return Err(Refusal::Date);
    }
    if 1 < d.day {
        return Ok(Date::new(d.day - 1, d.month, d.year));
    }
    if 1 < d.month {
        let month = d.month - 1;
        let last = calendar::days_in(month, d.year);
        return Ok(Date::new(last, month, d.year));
    }
    if FIRST_YEAR < d.year {
        return Ok(Date::new(31, 12, d.year - 1));
    }
    Err(Refusal::Date)
}

// Rolls a date forward one day in place; refused, it is as before.
pub fn roll_forward(d: &mut Date) -> Result<(), Refusal>
    ensures { (code result ≡ (forward_of d.old).refusal) × (d.new ≡ (forward_of d.old).date) }
{
    *d = day_after(*d)?;
    Ok(())
}

// Rolls a date back one day in place; refused, it is as before.
pub fn roll_back(d: &mut Date) -> Result<(), Refusal>
    ensures { (code result ≡ (back_of d.old).refusal) × (d.new ≡ (back_of d.old).date) }
{
    *d = day_before(*d)?;
    Ok(())
}

// How large a signed number is.
fn size(n: i8) -> u32
    ensures { result ≡ nat_abs n }
{
    u32::from(n.unsigned_abs())
}

// A second less a number of seconds with this sign.
fn less(second: u32, sign: i8, seconds: u32) -> u32
    requires { (seconds ≤ second) × (second + seconds < 4294967296) }
    ensures { result ≡ cond (negative sign) (second + seconds) (second - seconds) }
{
    if sign < 0 {
        second + seconds
    } else {
        second - seconds
    }
}

// The second of the day in UTC, counted from the beginning of the day before.
fn from_day_before(second: u32, hours: i8, minutes: i8) -> u32
    requires { zone hours minutes ≡ true }
    ensures { (pos result ≡ pos (86400 + second % 86400) -ℤ zone_seconds hours minutes) × (result < 259200) }
{
    let local = DAY + second % DAY;
    let by_hours = less(local, hours, 3600 * size(hours));
    less(by_hours, minutes, 60 * size(minutes))
}

// The day on which a second falls that is counted from the beginning of the day before.
fn day_of(d: Date, second: u32) -> Result<Date, Refusal>
    ensures { rolled d result ≡ falls_on d second }
{
    if second < DAY {
        day_before(d)
    } else if second < 2 * DAY {
        Ok(d)
    } else {
        day_after(d)
    }
}

fn from_fields(f: Time) -> Result<DateTime, Refusal>
    requires { zone f.hours f.minutes ≡ true }
    ensures { answer_of result ≡ from_fields f }
{
    let local = Date::new(f.day, f.month, f.year);
    let second = from_day_before(f.second, f.hours, f.minutes);
    let date = day_of(local, second)?;
    Ok(DateTime {
        second: second % DAY,
        date,
    })
}

// The time in UTC of 46h data.
pub fn utc(body: &[u8]) -> Result<DateTime, Refusal>
    ensures { answer_of result ≡ utc_of body.now }
{
    let fields = encoding::decode::<Time>(body)?;
    from_fields(fields)
}
