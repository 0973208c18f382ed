// Which flight: its key and its computer number.
ghost use Rattle.rules.specs.Kind.{KEY};

use crate::words::Worded;

// A flight's key, the part of its ident before the slash: a letter and one to six alnum.
#[derive(Clone, Copy)]
pub struct Key(pub u64);

impl Worded for Key {
    const KIND: u8 = rules::KEY;

    ghost KIND = { KEY };

    ghost of = { λ t. record { 0 = t } };

    ghost word = { λ f. f.0 };

    fn of(t: u64) -> Self {
        Key(t)
    }

    fn word(self) -> u64 {
        self.0
    }
}

// A computer number: digit, digit, alnum.
#[derive(Clone, Copy)]
pub struct ComputerNumber(pub u64);
