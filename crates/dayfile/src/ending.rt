// A file is ended: after the lines that were kept come its index and its trailer, where these lines and their offsets agree.
ghost use Rattle.std.specs.Prelude.{◌≡◌, false, ◌+◌, ◌≤◌, length};
ghost use Rattle.text.specs.Text.{spliced};
ghost use Rattle.dayfile.specs.DayFile.{version1, trailer_size, trailer_of};
ghost use Rattle.dayfile.specs.Keeping.{is_agreed, is_over, ended_of, out_ended};

use crate::numbers::{put_index, put_number};
use crate::walking::walk_run;
use crate::{NotEnded, Place, TOO_FAR, Trailer, trailer_size, version_1};

// Whether what was kept is so many lines, each beginning at its offset.
fn is_agreed(out: &[u8], offsets: &[u32], place: Place) -> bool
    ensures { result ≡ is_agreed out.now offsets.now place }
{
    if place.at > out.len() || place.count > offsets.len() {
        return false;
    }
    let walked = walk_run(&out[..place.at], &offsets[..place.count]);
    walked.lines == place.count && walked.used == place.at
}

// 24: more lines than there may be, or an index that starts too far.
fn is_over(trailer: Trailer, place: Place) -> bool
    ensures { result ≡ is_over trailer place }
{
    place.count > trailer.most || place.at >= TOO_FAR
}

// Puts the trailer from place `from`, where there is room.
pub fn put_trailer(trailer: Trailer, place: Place, out: &mut [u8], from: usize)
    requires place_value { is_over trailer place ≡ false }
    requires trailer_in_bounds { from + trailer_size trailer ≤ length out.old }
    ensures { out.new ≡ spliced out.old from (trailer_of trailer place.at place.count) }
{
    put_number(place.at, 4, out, from);
    put_number(place.count, trailer.wide, out, from + 4);
    put_number(trailer.version, 2, out, from + 4 + trailer.wide);
}

// Ends a file with this trailer.
fn end_as(
    trailer: Trailer,
    out: &mut [u8],
    offsets: &[u32],
    place: Place,
) -> Result<usize, NotEnded>
    ensures value { result ≡ ended_of trailer out.old offsets.now place }
    ensures out_after { out.new ≡ out_ended result trailer out.old offsets.now place }
{
    if !is_agreed(&out[..], offsets, place) {
        return Err(NotEnded::Disagree);
    }
    if is_over(trailer, place) {
        return Err(NotEnded::TooMany);
    }
    let after = place.at + 4 * place.count;
    let size = after + trailer_size(trailer);
    if size > out.len() {
        return Err(NotEnded::NoRoom);
    }
    put_index(&offsets[..place.count], out, place.at);
    put_trailer(trailer, place, out, after);
    Ok(size)
}

// Ends the file: its index and its trailer from the given place on; where it refuses it writes nothing.
pub fn end_file(out: &mut [u8], offsets: &[u32], place: Place) -> Result<usize, NotEnded>
    ensures value { result ≡ ended_of version1 out.old offsets.now place }
    ensures out_after { out.new ≡ out_ended result version1 out.old offsets.now place }
{
    end_as(version_1(), out, offsets, place)
}
