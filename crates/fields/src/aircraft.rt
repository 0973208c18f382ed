// The aircraft: optional prefix and slash; type; optional slash and letter.
ghost use Rattle.std.specs.Prelude.{◌≡◌};
ghost use Rattle.text.specs.Text.{written_next, written_bytes};
ghost use Rattle.rules.specs.Kind.{MODEL, LETTER};
ghost use Rattle.fields.specs.Pair.{pair_of};
ghost use Rattle.fields.specs.Aircraft.{Told, with_prefix, prefixed_of, aircraft_of, aircraft_text, is_aircraft_value, aircraft_word};

use crate::{pairs, words};
use text::{NotWritten, writing};

// The model is document 01's type. A prefix or a letter of 0 is none.
#[derive(Clone, Copy)]
pub struct Aircraft {
    pub prefix: u64,
    pub model: u64,
    pub letter: u64,
}

// The type, and optionally a slash and a letter, after this prefix.
fn read_after(prefix: u64, s: &[u8]) -> Option<Aircraft>
    ensures { result ≡ with_prefix prefix (pair_of MODEL LETTER s.now) }
{
    let (model, letter) = pairs::read_pair(rules::MODEL, rules::LETTER, s)?;
    Some(Aircraft {
        prefix,
        model,
        letter,
    })
}

// The reading with a prefix.
fn read_prefixed(s: &[u8]) -> Option<Aircraft>
    ensures { result ≡ prefixed_of s.now }
{
    let i = shapes::find(b'/', s);
    if i >= s.len() {
        return None;
    }
    let prefix = words::read(rules::PREFIX, &s[..i])?;
    read_after(prefix, &s[i + 1..])
}

// The word of the whole text.
fn word(a: Aircraft) -> Option<u64>
    ensures { result ≡ aircraft_word a }
{
    let tail = pairs::pair_word(a.model, a.letter)?;
    if a.prefix == 0 {
        Some(tail)
    } else {
        writing::join(a.prefix, tail)
    }
}

impl Aircraft {
    // No text has two different readings (`proofs/Single.one_reading`), so the one that is found is enough.
    pub fn read(s: &[u8]) -> Option<Aircraft>
        ensures value { result ≡ aircraft_of s.now }
        ensures told { Told s.now result }
    {
        read_after(0, s).or_else(|| read_prefixed(s))
    }

    pub fn holds(self) -> bool
        ensures { result ≡ is_aircraft_value self }
    {
        pairs::holds_pair(rules::MODEL, rules::LETTER, self.model, self.letter)
            && (self.prefix == 0 || words::holds(rules::PREFIX, self.prefix))
    }

    pub fn put(self, out: &mut [u8], at: usize) -> Result<usize, NotWritten>
        ensures value { result ≡ written_next (is_aircraft_value self) (aircraft_text self) out.old at }
        ensures out_after { out.new ≡ written_bytes (is_aircraft_value self) (aircraft_text self) out.old at }
    {
        if !self.holds() {
            return Err(NotWritten::NoText);
        }
        let whole = word(self).ok_or(NotWritten::NoText)?;
        writing::put(whole, out, at)
    }
}
