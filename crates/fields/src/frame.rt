// The fields before a line's body, and where the body begins.
ghost use Rattle.std.specs.Prelude.{◌≡◌};
ghost use Rattle.rules.specs.Kind.{SEQUENCE, STAMP};
ghost use Rattle.fields.specs.Head.{head_length};

use crate::words::Worded;
use rules::{BODY_AT, OLD_BODY_AT, Rule};

// The body begins after this many bytes.
pub fn body_at(rule: Rule) -> usize
    ensures { result ≡ head_length rule }
{
    match rule {
        Rule::New => BODY_AT,
        Rule::Old => OLD_BODY_AT,
    }
}

// A sequence number: four characters 0-9 or A-F.
#[derive(Clone, Copy)]
pub struct Sequence(pub u64);

impl Worded for Sequence {
    const KIND: u8 = rules::SEQUENCE;

    ghost KIND = { SEQUENCE };

    ghost of = { λ t. record { 0 = t } };

    ghost word = { λ f. f.0 };

    fn of(t: u64) -> Self {
        Sequence(t)
    }

    fn word(self) -> u64 {
        self.0
    }
}

// The stamp of an old line: six digits HHMMSS. It has no day, so how old it is cannot be asked.
#[derive(Clone, Copy)]
pub struct OldStamp(pub u64);

// The center of an old line: one capital.
#[derive(Clone, Copy)]
pub struct Center(pub u64);

// A stamp: eight digits DDHHMMSS, each pair in its range.
#[derive(Clone, Copy)]
pub struct Stamp(pub u64);

impl Worded for Stamp {
    const KIND: u8 = rules::STAMP;

    ghost KIND = { STAMP };

    ghost of = { λ t. record { 0 = t } };

    ghost word = { λ f. f.0 };

    fn of(t: u64) -> Self {
        Stamp(t)
    }

    fn word(self) -> u64 {
        self.0
    }
}
