// The calls on day files: any bytes as a file; any buffer, run of offsets, place and count.
use crate::numbers::{low_half, say_bytes, say_three, say_two, say_words};
use dayfile::{NotEnded, NotKept, NotOpened, Place};

// Number, how many lines, where the index starts.
pub(crate) fn open(file: &[u8]) {
    match dayfile::open(file) {
        Ok(day) => say_three(0, day.lines as u64, day.start as u64),
        Err(NotOpened::TooShort) => say_three(20, 0, 0),
        Err(NotOpened::UnknownVersion) => say_three(21, 0, 0),
        Err(NotOpened::WrongLength) => say_three(22, 0, 0),
        Err(NotOpened::WrongLines) => say_three(23, 0, 0),
    }
}

// The line.
pub(crate) fn line(file: &[u8], number: usize) {
    say_bytes(dayfile::line(file, number));
}

// Each offset from its word.
fn narrow(words: &[u64], offsets: &mut [u32]) {
    for (offset, word) in offsets.iter_mut().zip(words) {
        *offset = low_half(*word);
    }
}

// Each word from its offset.
fn widen(offsets: &[u32], words: &mut [u64]) {
    for (word, offset) in words.iter_mut().zip(offsets) {
        *word = u64::from(*offset);
    }
}

// Number, place and count after the line, the offsets, the buffer. The words are the offsets.
pub(crate) fn keep_line(line: &[u8], out: &mut [u8], words: &mut [u64], at: usize, count: usize) {
    // no heap: a fixed room
    let mut room = [0u32; 4096];
    let Some(offsets) = room.get_mut(..words.len()) else {
        return;
    };
    narrow(words, offsets);
    let kept = dayfile::keep_line(line, out, offsets, Place { at, count });
    widen(offsets, words);
    match kept {
        Ok(place) => say_three(0, place.at as u64, place.count as u64),
        Err(NotKept::TooLong) => say_three(2, 0, 0),
        Err(NotKept::LineFeed) => say_three(25, 0, 0),
        Err(NotKept::TooMany) => say_three(24, 0, 0),
        Err(NotKept::NoRoom) => say_three(15, 0, 0),
    }
    say_words(words);
    say_bytes(out);
}

fn say_ended(ended: Result<usize, NotEnded>) {
    match ended {
        Ok(size) => say_two(0, size as u64),
        Err(NotEnded::Disagree) => say_two(13, 0),
        Err(NotEnded::TooMany) => say_two(24, 0),
        Err(NotEnded::NoRoom) => say_two(15, 0),
    }
}

// Number, the file's length, the buffer. The words are the offsets.
pub(crate) fn end_file(out: &mut [u8], words: &[u64], at: usize, count: usize) {
    // no heap: a fixed room
    let mut room = [0u32; 4096];
    let Some(offsets) = room.get_mut(..words.len()) else {
        return;
    };
    narrow(words, offsets);
    say_ended(dayfile::ending::end_file(out, offsets, Place { at, count }));
    say_bytes(out);
}

// Each offset is its own place, as of empty lines; the one at the place `shifted` is one too many.
fn count_up(offsets: &mut [u32], shifted: usize) {
    for (place, offset) in offsets.iter_mut().enumerate() {
        let more = if place == shifted { 1 } else { 0 };
        *offset = low_half(place as u64 + more);
    }
}

// So many empty lines, more than a case could bring, and room after them; the offset at one place is one too many. Number, the file's
// length, the bytes after the lines.
pub(crate) fn end_many(lines: usize, room: usize, shifted: usize) {
    // no heap: fixed rooms
    let mut bytes = [10u8; 393216];
    let mut run = [0u32; 65537];
    if room > 327679 {
        return;
    }
    let Some(offsets) = run.get_mut(..lines) else {
        return;
    };
    let Some(out) = bytes.get_mut(..lines + room) else {
        return;
    };
    count_up(offsets, shifted);
    let place = Place {
        at: lines,
        count: lines,
    };
    say_ended(dayfile::ending::end_file(out, offsets, place));
    if let Some(after) = out.get(lines..) {
        say_bytes(after);
    }
}
