// A feed kept as its day file: what each block brings is kept, and put away as it comes; then the index and the trailer.
ghost use Rattle.std.specs.Prelude.{◌≡◌, true, ◌+◌, ◌≤◌, length};
ghost use Rattle.rules.specs.Frame.{longest_line};
ghost use Rattle.keeper.specs.Work.{is_on, IsStored, Works, Whole, Led, Closes, Done};

use crate::keep::{Keep, keep_part};
use crate::shelf::Shelf;
use cutter::Begun;
use dayfile::ending::put_trailer;
use dayfile::numbers::put_index;
use dayfile::{MOST_LINES, Place, version_1};
use intake::ends::{Source, Target};
use intake::input::Input;
use rules::LONGEST_LINE;

// What a block and the line begun before it can bring.
const BROUGHT: usize = 65536 + LONGEST_LINE;

// The longest index, and the trailer.
const CLOSING: usize = 4 * MOST_LINES + 8;

// A feed that was kept: what was kept last, and whether it ended inside a line (17).
#[derive(Clone, Copy)]
pub struct Outcome {
    pub work: Work,
    pub torn: bool,
}

// A feed that is being kept: where it comes from, what is kept of it, and where that is put.
#[derive(Clone, Copy)]
pub struct Work {
    pub input: Input,
    pub keep: Keep,
    pub shelf: Shelf,
}

// Whether bytes may still come, and be kept.
fn is_on(work: Work) -> bool
    ensures { result ≡ is_on work }
{
    if !work.input.is_live() {
        return false;
    }
    if !work.shelf.is_live() {
        return false;
    }
    !work.keep.full
}

// One read, what came kept, and that put away.
fn keep_block(
    name: &[u8],
    block: &mut [u8],
    held: &mut [u8],
    out: &mut [u8],
    offsets: &mut [u32],
    work: Work,
    source: &Source,
    to: &Target,
) -> Work
    requires stored { IsStored held.old offsets.old work }
    requires work_value { is_on work ≡ true }
    requires block_in_bounds { longest_line + length block.old ≤ length out.old }
    requires offsets_len { length offsets.old ≡ 65535 }
    ensures { Works work (length block.new) held.new offsets.new result }
{
    let input = work.input.next(b"standard input", block, source);
    let n = input.total() - work.input.total();
    let keep = keep_part(held, work.keep, &block[..n], out, offsets);
    let size = keep.place.at - work.keep.place.at;
    let shelf = work.shelf.put_day(name, input, &out[..size], to);
    Work { input, keep, shelf }
}

// Reads until no more comes, a line does not fit, or what is kept is no longer taken.
fn keep_all(
    source: &Source,
    name: &[u8],
    block: &mut [u8],
    held: &mut [u8],
    out: &mut [u8],
    offsets: &mut [u32],
    shelf: Shelf,
    to: &Target,
) -> Work
    requires held_len { length held.old ≡ longest_line }
    requires block_in_bounds { longest_line + length block.old ≤ length out.old }
    requires offsets_len { length offsets.old ≡ 65535 }
    requires total_value { (shelf.total ≡ 0) × (shelf.live ≡ true) }
    ensures { Whole held.new offsets.new result }
{
    let keep = Keep {
        begun: Begun::Held(0),
        lines: 0,
        place: Place { at: 0, count: 0 },
        full: false,
    };
    let mut work = Work {
        input: Input::start(source.number()),
        keep,
        shelf,
    };
    // how often it turns, what comes decides
    while is_on(work) {
        work = keep_block(name, block, held, out, offsets, work, source, to);
    }
    work
}

// The index and the trailer of what was kept.
fn close(name: &[u8], offsets: &[u32], work: Work, to: &Target) -> Shelf
    requires { Led offsets.now work }
    ensures { Closes offsets.now work result }
{
    if !work.shelf.is_live() {
        return work.shelf;
    }
    let place = work.keep.place;
    let count = place.count;
    let size = 4 * count + 8;
    // a fixed room: no index is longer
    let mut closing = [0u8; CLOSING];
    put_index(&offsets[..count], &mut closing, 0);
    put_trailer(version_1(), place, &mut closing, 4 * count);
    work.shelf.put_day(name, work.input, &closing[..size], to)
}

// Keeps the feed that the source gives, to its end, to a read that fails or to a line that does not fit, and puts its day file on the shelf.
pub(crate) fn keep_feed(source: &Source, name: &[u8], shelf: Shelf, to: &Target) -> Outcome
    requires { (shelf.total ≡ 0) × (shelf.live ≡ true) }
    ensures { Done result }
{
    let mut block = io::large_buffer();
    // fixed rooms, whatever the feed: nothing is put on the heap
    let mut held = [0u8; LONGEST_LINE];
    let mut out = [0u8; BROUGHT];
    let mut offsets = [0u32; MOST_LINES];
    let work = keep_all(
        source,
        name,
        &mut block,
        &mut held,
        &mut out,
        &mut offsets,
        shelf,
        to,
    );
    let torn = intake::is_torn(&held, work.keep.begun);
    let shelf = close(name, &offsets, work, to);
    Outcome {
        work: Work { shelf, ..work },
        torn,
    }
}
