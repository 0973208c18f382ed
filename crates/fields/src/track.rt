// Fields of tracks and arrivals.
ghost use Rattle.rules.specs.Kind.{GROUND_SPEED, TRACK_LEVEL, POSITION, ARRIVAL};

use crate::words::Worded;

// A ground speed: 3 digits.
#[derive(Clone, Copy)]
pub struct GroundSpeed(pub u64);

impl Worded for GroundSpeed {
    const KIND: u8 = rules::GROUND_SPEED;

    ghost KIND = { GROUND_SPEED };

    ghost of = { λ t. record { 0 = t } };

    ghost word = { λ f. f.0 };

    fn of(t: u64) -> Self {
        GroundSpeed(t)
    }

    fn word(self) -> u64 {
        self.0
    }
}

// A track level: 3 digits and optionally a letter.
#[derive(Clone, Copy)]
pub struct TrackLevel(pub u64);

impl Worded for TrackLevel {
    const KIND: u8 = rules::TRACK_LEVEL;

    ghost KIND = { TRACK_LEVEL };

    ghost of = { λ t. record { 0 = t } };

    ghost word = { λ f. f.0 };

    fn of(t: u64) -> Self {
        TrackLevel(t)
    }

    fn word(self) -> u64 {
        self.0
    }
}

// A position: ddmm, N or S, slash, dddmm, E or W, in range.
#[derive(Clone, Copy)]
pub struct Position(pub u64);

impl Worded for Position {
    const KIND: u8 = rules::POSITION;

    ghost KIND = { POSITION };

    ghost of = { λ t. record { 0 = t } };

    ghost word = { λ f. f.0 };

    fn of(t: u64) -> Self {
        Position(t)
    }

    fn word(self) -> u64 {
        self.0
    }
}

// A clock: four digits, 0000 to 2359, minutes to 59.
#[derive(Clone, Copy)]
pub struct Clock(pub u64);

// An arrival clock: a clock, and in AZ optionally A or E before it.
#[derive(Clone, Copy)]
pub struct ArrivalClock(pub u64);

impl Worded for ArrivalClock {
    const KIND: u8 = rules::ARRIVAL;

    ghost KIND = { ARRIVAL };

    ghost of = { λ t. record { 0 = t } };

    ghost word = { λ f. f.0 };

    fn of(t: u64) -> Self {
        ArrivalClock(t)
    }

    fn word(self) -> u64 {
        self.0
    }
}
