// The ident: a flight's key, then optionally a slash and a computer number.
ghost use Rattle.std.specs.Prelude.{◌≡◌};
ghost use Rattle.text.specs.Text.{written_next, written_bytes};
ghost use Rattle.fields.specs.Ident.{ident_of, tz_ident_of, ident_text, is_ident_value};

use crate::flight::{ComputerNumber, Key};
use crate::pairs;
use text::NotWritten;

// A number of 0 is none.
#[derive(Clone, Copy)]
pub struct Ident {
    pub key: Key,
    pub number: ComputerNumber,
}

impl Ident {
    pub fn read(s: &[u8]) -> Option<Ident>
        ensures { result ≡ ident_of s.now }
    {
        let (key, number) = pairs::read_pair(rules::KEY, rules::NUMBER, s)?;
        Some(Ident {
            key: Key(key),
            number: ComputerNumber(number),
        })
    }

    // In a TZ the number is required.
    pub fn read_tz(s: &[u8]) -> Option<Ident>
        ensures { result ≡ tz_ident_of s.now }
    {
        Ident::read(s).filter(|ident| ident.number.0 != 0)
    }

    pub fn holds(self) -> bool
        ensures { result ≡ is_ident_value self }
    {
        pairs::holds_pair(rules::KEY, rules::NUMBER, self.key.0, self.number.0)
    }

    pub fn put(self, out: &mut [u8], at: usize) -> Result<usize, NotWritten>
        ensures value { result ≡ written_next (is_ident_value self) (ident_text self) out.old at }
        ensures out_after { out.new ≡ written_bytes (is_ident_value self) (ident_text self) out.old at }
    {
        pairs::put_pair(
            rules::KEY,
            rules::NUMBER,
            self.key.0,
            self.number.0,
            out,
            at,
        )
    }
}
