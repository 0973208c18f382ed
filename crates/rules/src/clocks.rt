// The forms of document 01's stamps, clocks and times, as tests on bytes.
ghost use Rattle.std.specs.Prelude.{◌≡◌, ◌&&◌, ◌∷◌, ◌/◌, ◌%◌, leb};
ghost use Rattle.text.specs.Bytes.{bytes};
ghost use Rattle.shapes.specs.Picture.{fits, part};
ghost use Rattle.rules.specs.Form.{is_stamp, is_old_stamp, is_clock, is_time, is_arrival};

use crate::is_minutes;
use shapes::is_of;

// The last six digits of a number as HHMMSS, each pair in its range.
fn is_time_of_day(n: u64) -> bool
    ensures { result ≡ (leb (n / 10000 % 100) 23 && leb (n / 100 % 100) 59 && leb (n % 100) 59) }
{
    n / 10000 % 100 <= 23 && n / 100 % 100 <= 59 && n % 100 <= 59
}

// DDHHMMSS as a number, each pair in its range.
fn is_moment(n: u64) -> bool
    ensures { result ≡ (leb 1 (n / 1000000) && leb (n / 1000000) 31 && (leb (n / 10000 % 100) 23
        && leb (n / 100 % 100) 59 && leb (n % 100) 59)) }
{
    let day = n / 1000000;
    1 <= day && day <= 31 && is_time_of_day(n)
}

// Eight digits DDHHMMSS, each pair in its range.
pub fn is_stamp(s: &[u8]) -> bool
    ensures { result ≡ is_stamp s.now }
{
    s.len() == 8 && text::number(s, 10).is_some_and(is_moment)
}

// Six digits HHMMSS, each pair in its range.
pub(crate) fn is_old_stamp(s: &[u8]) -> bool
    ensures { result ≡ is_old_stamp s.now }
{
    s.len() == 6 && text::number(s, 10).is_some_and(is_time_of_day)
}

// Four digits, 0000 to 2359, minutes to 59.
pub(crate) fn is_clock(s: &[u8]) -> bool
    ensures { result ≡ is_clock s.now }
{
    s.len() == 4 && is_minutes(2359, s)
}

// A letter that k stands for, and a clock.
fn is_lettered(k: u8, s: &[u8]) -> bool
    ensures { result ≡ (fits (k ∷ bytes "dddd") s.now && is_clock (part 1 4 s.now)) }
{
    s.len() == 5 && is_of(k, s[0]) && is_clock(&s[1..5])
}

// D, E or P and a clock.
pub(crate) fn is_time(s: &[u8]) -> bool
    ensures { result ≡ is_time s.now }
{
    is_lettered(b't', s)
}

// A clock, and optionally A or E before it.
pub(crate) fn is_arrival(s: &[u8]) -> bool
    ensures { result ≡ is_arrival s.now }
{
    is_clock(s) || is_lettered(b'm', s)
}
