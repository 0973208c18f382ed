// Numbers as eight bytes each, the least first, and back.
ghost use Rattle.io.specs.Counts.{IsPrefixLen};

// The descriptor of standard output.
const STANDARD_OUTPUT: i32 = 1;

// The lower half of a word.
pub(crate) fn low_half(word: u64) -> u32 {
    (word % 4294967296) as u32
}

// Each word from its eight bytes; those past the bytes' end stay as they are.
pub(crate) fn unpack(bytes: &[u8], words: &mut [u64]) {
    let (eights, _) = bytes.as_chunks::<8>();
    for (word, eight) in words.iter_mut().zip(eights) {
        *word = u64::from_le_bytes(*eight);
    }
}

// The words as bytes, as many as fit: how many bytes.
fn pack(words: &[u64], out: &mut [u8]) -> usize
    ensures { IsPrefixLen result out.new }
{
    let fit = words.len().min(out.len() / 8);
    let (eights, _) = out.as_chunks_mut::<8>();
    for (eight, word) in eights.iter_mut().zip(words) {
        *eight = word.to_le_bytes();
    }
    fit * 8
}

// How many words there are up to the last that is not 0.
fn used(words: &[u64]) -> usize
    ensures { IsPrefixLen result words.now }
{
    words
        .iter()
        .rposition(|word| *word != 0)
        .map_or(0, |last| last + 1)
}

fn say(bytes: &[u8]) {
    io::write_all(STANDARD_OUTPUT, bytes);
}

pub(crate) fn say_number(n: u64) {
    say(&n.to_le_bytes());
}

pub(crate) fn say_two(a: u64, b: u64) {
    say_number(a);
    say_number(b);
}

pub(crate) fn say_three(a: u64, b: u64, c: u64) {
    say_two(a, b);
    say_number(c);
}

// How many words there are, how many up to the last that is not 0, and these.
pub(crate) fn say_words(words: &[u64]) {
    let n = used(words);
    say_two(words.len() as u64, n as u64);
    // No heap: a fixed room, and how many bytes of it are the words'.
    let mut room = [0u8; 32768];
    let size = pack(&words[..n], &mut room);
    say(&room[..size]);
}

// How many bytes there are, and these.
pub(crate) fn say_bytes(bytes: &[u8]) {
    say_number(bytes.len() as u64);
    say(bytes);
}
