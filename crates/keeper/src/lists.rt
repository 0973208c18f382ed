// The work of `desk lines NAME`: first a pass over the file's windows that judges it as `dayfile::open` would; then, if it opens, a second one that judges again and
// puts the lines away.
ghost use Rattle.std.specs.Prelude.{◌≡◌, ◌-◌, ◌≤◌, length, Ok, IfSome};
ghost use Rattle.dayfile.specs.DayFile.{version1};
ghost use Rattle.dayfile.specs.Opening.{open_by};
ghost use Rattle.keeper.specs.Lists.{ReadFrom, Judged, verdict_of};

use crate::pass::{Pass, go_over};
use crate::volume::{Filled, Volume};
use dayfile::{Contents, NotOpened, open_tail, version_1};
use intake::ends::Target;
use intake::files::open;
use intake::say;
use std::fs::File;
use std::rt::Files;

// What the last bytes tell of a file of this size.
pub(crate) fn open_end(size: usize, end: Filled, tail: &[u8]) -> Result<Contents, NotOpened>
    requires le_size { (8 ≤ size) × ReadFrom (size - 8) tail.now end }
    requires tail_len { length tail.now ≡ 8 }
    ensures { result ≡ open_by version1 size tail.now }
{
    open_tail(version_1(), size, tail)
}

// What a file's size and its last bytes tell: 20 to 22. The bytes are left in `tail`. None where they could not be read, which was said.
pub(crate) fn look_at_end(
    volume: Volume,
    name: &[u8],
    tail: &mut [u8],
    file: &File,
) -> Option<Result<Contents, NotOpened>>
    requires { length tail.old ≡ 8 }
    ensures { IfSome result (λ o. o ≡ open_by version1 volume.size tail.new) }
{
    let size = volume.size();
    if size < 8 {
        return Some(Err(NotOpened::TooShort));
    }
    let end = volume.fill(name, size - 8, tail, file)?;
    Some(open_end(size, end, &tail[..]))
}

// What a pass that could read all says: 0 or 23.
fn verdict(day: Contents, pass: Pass) -> Result<Contents, NotOpened>
    ensures { result ≡ verdict_of day pass }
{
    let sweep = pass.sweep;
    if sweep.lines != day.lines {
        return Err(NotOpened::WrongLines);
    }
    if sweep.at != day.start {
        return Err(NotOpened::WrongLines);
    }
    Ok(day)
}

// What `dayfile::open` answers to the whole file, by its windows. None where one could not be read, which was said.
pub(crate) fn look(
    volume: Volume,
    name: &[u8],
    file: &File,
    to: &Target,
) -> Option<Result<Contents, NotOpened>>
    ensures { IfSome result (λ o. Judged volume.size o) }
{
    let mut tail = [0u8; 8];
    let told = look_at_end(volume, name, &mut tail, file)?;
    let Ok(day) = told else {
        return Some(told);
    };
    let pass = go_over(volume, name, day, false, file, to);
    if !pass.read {
        return None;
    }
    Some(verdict(day, pass))
}

// Puts the lines of a file that opens away, each judged again as it is read.
pub(crate) fn list(volume: Volume, name: &[u8], day: Contents, file: &File, to: &Target)
    requires { Judged volume.size (Ok day) }
{
    let pass = go_over(volume, name, day, true, file, to);
    if !pass.read || !pass.shelf.is_live() {
        return;
    }
    if verdict(day, pass).is_err() {
        say(name, b"it was changed while it was read");
    }
}

// The lines of a file that opens; the number and the sentence of one that does not.
fn answer(volume: Volume, name: &[u8], file: &File, to: &Target) {
    let Some(opened) = look(volume, name, file, to) else {
        return;
    };
    match opened {
        Ok(day) => list(volume, name, day, file, to),
        Err(NotOpened::TooShort) => say(name, b"no day file: under eight bytes (answer 20)"),
        Err(NotOpened::UnknownVersion) => say(name, b"no day file: unknown version (answer 21)"),
        Err(NotOpened::WrongLength) => say(
            name,
            b"no day file: start, index and trailer are not its length (answer 22)",
        ),
        Err(NotOpened::WrongLines) => say(
            name,
            b"no day file: its bytes are not the lines that its index says (answer 23)",
        ),
    }
}

// Writes the lines of the day file that is named to standard output, which the caller brings.
pub fn run<R: Files<File = File>>(rt: &R, name: &[u8], to: &Target) {
    if let Some(file) = open(rt, name) {
        if let Some(volume) = Volume::measure(&file, name) {
            answer(volume, name, &file, to);
        }
    }
}
