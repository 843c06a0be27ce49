// A date and time: six numbers, as values and as records.
#![tactic(auto)]

ghost use Rattle.std.specs.Prelude.{◌/◌, ◌%◌, ◌^◌, ◌<◌};
ghost use Rattle.field_ranges.specs.Ranges.{width_of};
ghost use Rattle.records.specs.Told.{Told};
ghost use Rattle.ranged_numbers.specs.Numbers.{FromLowest};
ghost use Rattle.date_times.specs.Times.{DateTimes, date_time_recs};

use cursor::place::{Cursor, Got, bits};
use field_ranges::table::{DAY, HOURS, MINUTES, MONTH, Range, YEAR};
use numbers::one_by_one;
use ranged_numbers::from_lowest;
use records::space::words_for;
use records::store;

mod numbers; // numbers.rt: the six numbers one by one

// The numbers, and where the year starts: the others follow it, each behind the bits of the one before.
#[derive(Clone, Copy)]
pub struct DateTime {
    pub at: usize,
    pub year: u64,
    pub month: u64,
    pub day: u64,
    pub hours: u64,
    pub minutes: u64,
    pub seconds: u64,
}

// A number of the range among the bits of v, with so many of them behind it, told by the cursor c.
fn part(c: Cursor, v: u64, behind: usize, range: Range) -> Got<u64>
    requires { (behind < 64) × (width_of range < 64) }
    ensures { FromLowest range c (v / 2 ^ behind % 2 ^ width_of range) result }
{
    let wide = range.width();
    from_lowest(c, (v >> behind) % (1 << wide), range)
}

// Where the window has all of it, two reads: up to the hours, and behind them. Else its numbers are read one by one, so that the reading stops at the one that lacks bits.
pub fn read_date_time(s: &[u8], c: Cursor) -> Got<DateTime>
    ensures { DateTimes s.now c result }
{
    let behind_day = HOURS.width();
    let behind_month = behind_day + DAY.width();
    let behind_year = behind_month + MONTH.width();
    let first = bits(s, c, behind_year + YEAR.width());
    let d = first.c;
    if d.why == 0 {
        let behind_minutes = MINUTES.width();
        let second = bits(s, d, behind_minutes + MINUTES.width());
        let e = second.c;
        if e.why == 0 {
            let year = part(e, first.v, behind_year, YEAR);
            let month = part(year.c, first.v, behind_month, MONTH);
            let day = part(month.c, first.v, behind_day, DAY);
            let hours = part(day.c, first.v, 0, HOURS);
            let minutes = part(hours.c, second.v, behind_minutes, MINUTES);
            let seconds = part(minutes.c, second.v, 0, MINUTES);
            return Got {
                v: DateTime {
                    at: c.at,
                    year: year.v,
                    month: month.v,
                    day: day.v,
                    hours: hours.v,
                    minutes: minutes.v,
                    seconds: seconds.v,
                },
                c: seconds.c,
            };
        }
    }
    one_by_one(s, c)
}

// It stands outside the elements. The room is asked for once. Each number stands behind the width of the one before.
pub fn tell_date_time(words: &mut [u64], n: usize, x: DateTime) -> usize
    requires { n < 2 ^ 31 }
    ensures { Told 6 words.old words.new n result (date_time_recs x 0) }
{
    if words.len() < words_for(n + 6) {
        return n + 6;
    }
    let at = x.at;
    let a = store(words, n, cpdlc_tags::YEAR, 0, x.year, 0, at);
    let month_at = std::num::wrapping_add_usize(at, YEAR.width());
    let b = store(words, a, cpdlc_tags::MONTH, 0, x.month, 0, month_at);
    let day_at = std::num::wrapping_add_usize(month_at, MONTH.width());
    let d = store(words, b, cpdlc_tags::DAY, 0, x.day, 0, day_at);
    let hours_at = std::num::wrapping_add_usize(day_at, DAY.width());
    let e = store(words, d, cpdlc_tags::HOURS, 0, x.hours, 0, hours_at);
    let minutes_at = std::num::wrapping_add_usize(hours_at, HOURS.width());
    let f = store(words, e, cpdlc_tags::MINUTES, 0, x.minutes, 0, minutes_at);
    let seconds_at = std::num::wrapping_add_usize(minutes_at, MINUTES.width());
    store(words, f, cpdlc_tags::SECONDS, 0, x.seconds, 0, seconds_at)
}
