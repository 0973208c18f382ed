// Fields of plans, departures and amendments.
ghost use Rattle.rules.specs.Kind.{POINT, TIME};

use crate::words::Worded;

// A filed speed: 2 to 4 digits, or a letter and 3 digits (Mach), or SC.
#[derive(Clone, Copy)]
pub struct FiledSpeed(pub u64);

// A point: 2 to 12 alnum.
#[derive(Clone, Copy)]
pub struct Point(pub u64);

impl Worded for Point {
    const KIND: u8 = rules::POINT;

    ghost KIND = { POINT };

    ghost of = { λ t. record { 0 = t } };

    ghost word = { λ f. f.0 };

    fn of(t: u64) -> Self {
        Point(t)
    }

    fn word(self) -> u64 {
        self.0
    }
}

// A fix: 2 to 11 alnum, or 2 to 5, a slash, 1 to 6.
#[derive(Clone, Copy)]
pub struct Fix(pub u64);

// A time: D, E or P and a clock.
#[derive(Clone, Copy)]
pub struct Time(pub u64);

impl Worded for Time {
    const KIND: u8 = rules::TIME;

    ghost KIND = { TIME };

    ghost of = { λ t. record { 0 = t } };

    ghost word = { λ f. f.0 };

    fn of(t: u64) -> Self {
        Time(t)
    }

    fn word(self) -> u64 {
        self.0
    }
}

// A level: 2 or 3 digits, or two such with B between, the second no smaller than the first.
#[derive(Clone, Copy)]
pub struct Level(pub u64);

// The number of an amendment: 02, 03, 05, 06, 07, 08, 09 or 10.
#[derive(Clone, Copy)]
pub struct Amendment(pub u64);
