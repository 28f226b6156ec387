// The Gregorian calendar: leap years, the days of a month, and which dates there are.
#![tactic(auto)]

ghost use Rattle.std.specs.Prelude.{◌≡◌};
ghost use Rattle.calendar.specs.Calendar.{leap, days_in, date_exists};

#[tactic(auto, unfolding(crate::specs::Calendar::leap))]
pub fn is_leap(year: u16) -> bool
    ensures { result ≡ leap year }
{
    year.is_multiple_of(4) && (!year.is_multiple_of(100) || year.is_multiple_of(400))
}

// The days of a month in a year. 0 where there is no such month.
#[tactic(auto, unfolding(crate::specs::Calendar::days_in))]
pub fn days_in(month: u8, year: u16) -> u8
    ensures { result ≡ days_in month year }
{
    match month {
        2 if is_leap(year) => 29,
        2 => 28,
        4 | 6 | 9 | 11 => 30,
        1..=12 => 31,
        _ => 0,
    }
}

// Whether there is such a day in that month and year.
#[tactic(auto, unfolding(crate::specs::Calendar::date_exists))]
pub fn is_date(day: u8, month: u8, year: u16) -> bool
    ensures { result ≡ date_exists day month year }
{
    (1..=days_in(month, year)).contains(&day)
}
