// How old a stamp is (document 01, "Age"): from now and the last day of the previous month.
ghost use Rattle.std.specs.Prelude.{◌≡◌, ◌≤◌};
ghost use Rattle.meanings.specs.Age.{Ranged, day_before, age_of, age_in};
ghost use Rattle.meanings.specs.Cases.{AgeIs};

use crate::{Moment, stamp_moment};
use fields::frame::Stamp;

const DAY: u64 = 86400;

// How old a stamp is: an age in seconds, or one of two words.
#[derive(Clone, Copy)]
pub enum Aged {
    Seconds(u64),
    Ahead,
    Old,
}

// The day before a day; of the 1st it is the previous month's last day.
fn day_before(last: u64, day: u64) -> u64
    requires { 1 ≤ day }
    ensures { result ≡ day_before last day }
{
    if day == 1 {
        return last;
    }
    day - 1
}

fn age_at(last: u64, moment: Moment, stamped: Moment) -> Aged
    requires le_last { 28 ≤ last }
    requires ranged { Ranged moment }
    requires ranged_2 { Ranged stamped }
    ensures { result ≡ age_of last moment stamped }
{
    if stamped.day == moment.day {
        if stamped.seconds > moment.seconds {
            return Aged::Ahead;
        }
        return Aged::Seconds(moment.seconds - stamped.seconds);
    }
    if stamped.day == day_before(last, moment.day) {
        return Aged::Seconds(DAY - stamped.seconds + moment.seconds);
    }
    Aged::Old
}

// Any values: a number that is no stamp's, and a last day that no month has, have no age; the answer is 19.
pub fn age(now: Stamp, last: u64, stamp: Stamp) -> Option<Aged>
    ensures value { result ≡ age_in now.0 last stamp.0 }
    ensures age_is { AgeIs now.0 last stamp.0 result }
{
    if last < 28 || last > 31 {
        return None;
    }
    let moment = stamp_moment(now)?;
    let stamped = stamp_moment(stamp)?;
    Some(age_at(last, moment, stamped))
}
