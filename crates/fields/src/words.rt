// A field of a kind that is held as its text: read from bytes as a word, tested, and written back. `Worded` is what the types of
// such fields share; `pairs` has two such words in one field.
ghost use Rattle.std.specs.Prelude.{◌≡◌, ℕ};
ghost use Rattle.text.specs.Text.{text_of, written_next, written_bytes};
ghost use Rattle.fields.specs.Word.{word_of, is_word, as_field};

use text::{NotWritten, writing};

// The word of s, where s has the form of the kind.
pub fn read(kind: u8, s: &[u8]) -> Option<u64>
    ensures { result ≡ word_of kind s.now }
{
    if rules::is_form(kind, s) {
        Some(text::pack_known(s))
    } else {
        None
    }
}

// Whether t is the word of some text of the kind.
pub fn holds(kind: u8, t: u64) -> bool
    ensures { result ≡ is_word kind t }
{
    // a fixed room: nothing is put on the heap
    let mut room = [0u8; 12];
    match writing::put(t, &mut room, 0) {
        Ok(n) => rules::is_form(kind, &room[..n]),
        Err(_) => false,
    }
}

// Writes the text of a word of the kind from place `at`.
pub fn put(kind: u8, t: u64, out: &mut [u8], at: usize) -> Result<usize, NotWritten>
    ensures value { result ≡ written_next (is_word kind t) (text_of t) out.old at }
    ensures out_after { out.new ≡ written_bytes (is_word kind t) (text_of t) out.old at }
{
    if holds(kind, t) {
        writing::put(t, out, at)
    } else {
        Err(NotWritten::NoText)
    }
}

// A type whose values are the words of one kind. It says which kind, and how a value and its word are made of each other;
// what is asked of all such types alike is written here. (The `impl` at each type is alike but for the kind; one that a macro writes has no ghost members.)
pub trait Worded: Copy {
    const KIND: u8;

    ghost KIND: { ℕ };

    ghost of: { ℕ → Self };

    ghost word: { Self → ℕ };

    fn of(t: u64) -> Self
        ensures { result ≡ of t };

    fn word(self) -> u64
        ensures { result ≡ word self };

    fn read(s: &[u8]) -> Option<Self>
        ensures { result ≡ as_field of (word_of KIND s.now) }
    {
        let t = read(Self::KIND, s)?;
        Some(Self::of(t))
    }

    fn holds(self) -> bool
        ensures { result ≡ is_word KIND (word self) }
    {
        holds(Self::KIND, self.word())
    }

    fn put(self, out: &mut [u8], at: usize) -> Result<usize, NotWritten>
        ensures value { result ≡ written_next (is_word KIND (word self)) (text_of (word self)) out.old at }
        ensures out_after { out.new ≡ written_bytes (is_word KIND (word self)) (text_of (word self)) out.old at }
    {
        put(Self::KIND, self.word(), out, at)
    }
}
