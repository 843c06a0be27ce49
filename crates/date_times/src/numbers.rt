// The six numbers of a date and time, each read by itself.
ghost use Rattle.date_times.specs.Times.{DateTimes};

use super::DateTime;
use cursor::place::{Cursor, Got};
use field_ranges::table::{DAY, HOURS, MINUTES, MONTH, YEAR};
use ranged_numbers::ranged;

pub fn one_by_one(s: &[u8], c: Cursor) -> Got<DateTime>
    ensures { DateTimes s.now c result }
{
    let year = ranged(s, c, YEAR);
    let month = ranged(s, year.c, MONTH);
    let day = ranged(s, month.c, DAY);
    let hours = ranged(s, day.c, HOURS);
    let minutes = ranged(s, hours.c, MINUTES);
    let seconds = ranged(s, minutes.c, MINUTES);
    Got {
        v: DateTime {
            at: c.at,
            year: year.v,
            month: month.v,
            day: day.v,
            hours: hours.v,
            minutes: minutes.v,
            seconds: seconds.v,
        },
        c: seconds.c,
    }
}
