// The work of `desk keep NAME`: standard input kept as a day file, which appears under its name only when it is whole, and takes no other's place.
ghost use Rattle.std.specs.Prelude.{◌≡◌, ◌++◌, ◌+◌, ◌≤◌, ◌<◌, ◌^◌, length, take};
ghost use Rattle.io.specs.Counts.{IsPrefixLen};
ghost use Rattle.text.specs.Bytes.{bytes};
ghost use Rattle.keeper.specs.Work.{Done};

use crate::keep::tell;
use crate::shelf::Shelf;
use crate::work::{Outcome, keep_feed};
use intake::ends::{Source, Target};
use intake::failure::fail;
use intake::files::path_of;
use intake::{STANDARD_ERROR, say};
use std::fs;
use std::fs::{File, OpenOptions};
use std::io::{ErrorKind, Result};
use std::rt::Files;
use text::writing::put_bytes;

// A path has at most so many bytes.
const LONGEST_NAME: usize = 4095;

// A file by what people call it, and by its path.
#[derive(Clone, Copy)]
struct Named<'a> {
    name: &'a [u8],
    path: &'a str,
}

// Whether no file has this name. Where one has it, or that cannot be seen, it says so.
fn is_free<R: Files>(rt: &R, file: Named<'_>) -> bool {
    match fs::open(rt, file.path) {
        Ok(_) => {
            say(
                file.name,
                b"there is such a file already; it stays as it is",
            );
            false
        }
        Err(error) => {
            if error.kind() == ErrorKind::NotFound {
                return true;
            }
            fail(file.name, &error);
            false
        }
    }
}

// The name under which the file is written: how many bytes it has.
fn put_part(name: &[u8], out: &mut [u8]) -> usize
    requires { length name.now + 5 ≤ length out.old }
    ensures prefix_len { IsPrefixLen result out.new }
    ensures out_after { take result out.new ≡ name.now ++ bytes ".part" }
{
    let n = name.len();
    let _ = put_bytes(name, out, 0);
    let _ = put_bytes(b".part", out, n);
    n + 5
}

// 1 where the feed ended inside a line that was looked for, else 0. (What is known of an outcome is the clause of `keep_feed`, which makes the only one.)
fn unended(outcome: Outcome) -> usize
    requires { Done outcome }
    ensures { outcome.work.keep.lines + result < 2 ^ 64 }
{
    if !outcome.torn {
        return 0;
    }
    if outcome.work.keep.full {
        return 0;
    }
    1
}

// An unended last line is not lost silently.
fn tell_torn(outcome: Outcome)
    requires { Done outcome }
{
    let n = unended(outcome);
    if n == 0 {
        return;
    }
    tell(
        outcome.work.keep.lines + n,
        b" has no line feed, so it is no line and is not kept (answer 17)\n",
    );
}

// How many lines were kept, and how many were not.
fn tell_sums(outcome: Outcome)
    requires { Done outcome }
{
    let keep = outcome.work.keep;
    let kept = keep.place.count;
    let lost = keep.lines - kept + unended(outcome);
    io::write_all(STANDARD_ERROR, b"KEPT ");
    io::print_decimal(STANDARD_ERROR, kept as u64);
    io::write_all(STANDARD_ERROR, b" NOT KEPT ");
    io::print_decimal(STANDARD_ERROR, lost as u64);
    io::write_all(STANDARD_ERROR, b"\n");
}

// Flushes the part to the disk and gives it its name; whether it has it.
fn settle<R: Files>(rt: &R, target: Target, file: Named<'_>, part: Named<'_>) -> bool {
    if let Err(error) = target.settle() {
        fail(part.name, &error);
        return false;
    }
    drop(target);
    if !is_free(rt, file) {
        return false;
    }
    if let Err(error) = fs::rename(rt, part.path, file.path) {
        fail(file.name, &error);
        return false;
    }
    true
}

// The part, which no other file may be. It is open to be written alone.
fn create<R: Files>(rt: &R, path: &str) -> Result<R::File> {
    OpenOptions::new()
        .write(true)
        .create_new(true)
        .open(rt, path)
}

// Keeps the feed in the part. One without a byte, because a read failed, leaves none; one that was not written whole stays as it is.
fn keep_in<R: Files<File = File>>(rt: &R, source: &Source, file: Named<'_>, part: Named<'_>) {
    let target = match create(rt, part.path) {
        Ok(opened) => Target::Named(opened),
        Err(error) => return fail(part.name, &error),
    };
    let outcome = keep_feed(source, part.name, Shelf::start(target.number()), &target);
    tell_torn(outcome);
    if outcome.work.input.is_barren() {
        drop(target);
        let _ = fs::remove_file(rt, part.path);
        return;
    }
    if !outcome.work.shelf.is_live() {
        return say(
            part.name,
            b"holds what was written before that, and is no day file",
        );
    }
    if !settle(rt, target, file, part) {
        return say(part.name, b"holds what was kept");
    }
    tell_sums(outcome);
}

// Keeps a feed, standard input, as the day file NAME.
pub fn run<R: Files<File = File>>(rt: &R, source: &Source, name: &[u8]) {
    if name.len() == 0 {
        return say(b"desk keep", b"the name of the file is empty");
    }
    if name.len() + 5 > LONGEST_NAME {
        return say(name, b"the name is too long");
    }
    let Some(path) = path_of(name) else {
        return;
    };
    let file = Named { name, path };
    if !is_free(rt, file) {
        return;
    }
    let mut part = io::buffer();
    let n = put_part(name, &mut part);
    let Some(part_path) = path_of(&part[..n]) else {
        return;
    };
    let part = Named {
        name: &part[..n],
        path: part_path,
    };
    keep_in(rt, source, file, part);
}
