//! Days of the calendar.

ghost use Rattle.std.specs.Prelude.{◌≤◌};

/// How many seconds a day has.
pub(crate) const SECONDS_OF_DAY: u64 = 86_400;

/// The year in which the system's clock begins.
const FIRST_YEAR: u32 = 1970;

/// How many months there are from the first year to the last one of four digits.
const MONTHS: u32 = (10_000 - FIRST_YEAR) * 12;

/// The number of days of a month.
fn days_in(year: u32, month: u32) -> u64
    ensures { result ≤ 31 }
{
    match month {
        4 | 6 | 9 | 11 => 30,
        2 if is_leap(year) => 29,
        2 => 28,
        _ => 31,
    }
}

/// Whether a year has 366 days.
fn is_leap(year: u32) -> bool {
    year % 4 == 0 && (year % 100 != 0 || year % 400 == 0)
}

/// The day that comes so many days after the first of 1970, as a number of eight digits, such as
/// 20200131; none after the year 9999.
pub(crate) fn day_after_first(days: u64) -> Option<u32> {
    let mut left = days;
    for number in 0..MONTHS {
        let (year, month) = (FIRST_YEAR + number / 12, number % 12 + 1);
        let length = days_in(year, month);
        if left < length {
            let day = u32::try_from(left).ok()?.saturating_add(1);
            return Some(year * 10_000 + month * 100 + day);
        }
        left = left.saturating_sub(length);
    }
    None
}
