// The writer, on any values: a message made of 48 words. Words 0 to 5 are sequence, stamp, facility, type, whether a space stands at
// the end, and marks; the body's values begin at 6, and the eight amendments, four words each, at 16. Of a message of the old feed word 0 is not
// looked at, and word 2 is the byte of its center.
use crate::numbers::{say_bytes, say_two};
use fields::aircraft::Aircraft;
use fields::flight::{ComputerNumber, Key};
use fields::frame::{Center, OldStamp, Sequence, Stamp};
use fields::heads::Facility;
use fields::idents::Ident;
use fields::plan::{FiledSpeed, Fix, Level, Point, Time};
use fields::track::{ArrivalClock, Clock, GroundSpeed, Position, TrackLevel};
use fields::words;
use messages::{Af, Amended, Amendment, Az, Body, Dz, Message, OldMessage, Plan, Rz, Tz};
use text::NotWritten;

fn ident(key: u64, number: u64) -> Ident {
    Ident {
        key: Key(key),
        number: ComputerNumber(number),
    }
}

fn aircraft(prefix: u64, model: u64, letter: u64) -> Aircraft {
    Aircraft {
        prefix,
        model,
        letter,
    }
}

// An amendment by its number; none where it is no amendment's.
fn amended(number: u64, a: u64, b: u64, c: u64) -> Amended {
    match number {
        2 => Amended::Ident(ident(a, b)),
        3 => Amended::Aircraft(aircraft(a, b, c)),
        5 => Amended::Speed(FiledSpeed(a)),
        6 => Amended::Fix(Fix(a)),
        7 => Amended::Time(Time(a)),
        8 => Amended::Assigned(Level(a)),
        9 => Amended::Requested(Level(a)),
        10 => Amended::Route,
        _ => Amended::Nothing,
    }
}

// The four numbers from the place p; no amendment where there are fewer.
fn slot(w: &[u64; 48], p: usize) -> Amendment {
    let amended = match w.get(p..) {
        Some([number, a, b, c, ..]) => amended(*number, *a, *b, *c),
        _ => Amended::Nothing,
    };
    amended.amendment()
}

fn az(w: &[u64; 48]) -> Az {
    Az {
        ident: ident(w[6], w[7]),
        from: Point(w[8]),
        to: Point(w[9]),
        clock: ArrivalClock(w[10]),
    }
}

fn dz(w: &[u64; 48]) -> Dz {
    Dz {
        ident: ident(w[6], w[7]),
        aircraft: aircraft(w[8], w[9], w[10]),
        from: Point(w[11]),
        time: Time(w[12]),
        to: Point(w[13]),
        clock: Clock(w[14]),
    }
}

fn rz(w: &[u64; 48]) -> Rz {
    Rz {
        ident: ident(w[6], w[7]),
        from: Point(w[8]),
        to: Point(w[9]),
    }
}

fn tz(w: &[u64; 48]) -> Tz {
    Tz {
        ident: ident(w[6], w[7]),
        speed: GroundSpeed(w[8]),
        level: TrackLevel(w[9]),
        position: Position(w[10]),
    }
}

fn plan(w: &[u64; 48]) -> Plan {
    Plan {
        ident: ident(w[6], w[7]),
        aircraft: aircraft(w[8], w[9], w[10]),
        speed: FiledSpeed(w[11]),
        fix: Fix(w[12]),
        time: Time(w[13]),
        level: Level(w[14]),
    }
}

fn af(w: &[u64; 48]) -> Af {
    Af {
        ident: ident(w[6], w[7]),
        from: Point(w[8]),
        to: Point(w[9]),
        marks: (w[5] % 256) as u8,
        first: slot(w, 16),
        second: slot(w, 20),
        third: slot(w, 24),
        fourth: slot(w, 28),
        fifth: slot(w, 32),
        sixth: slot(w, 36),
        seventh: slot(w, 40),
        eighth: slot(w, 44),
    }
}

fn body(w: &[u64; 48]) -> Body {
    match w[3] {
        0 => Body::Af(af(w)),
        1 => Body::Az(az(w)),
        2 => Body::Dz(dz(w)),
        3 => Body::Fz(plan(w)),
        4 => Body::Rz(rz(w)),
        5 => Body::Tz(tz(w)),
        6 => Body::Uz(plan(w)),
        7 => Body::Rt,
        8 => Body::To,
        _ => Body::Hb,
    }
}

pub(crate) fn say_written(written: Result<usize, NotWritten>) {
    match written {
        Ok(next) => say_two(0, next as u64),
        Err(NotWritten::NoRoom) => say_two(15, 0),
        Err(NotWritten::NoText) => say_two(16, 0),
    }
}

// Number, the place after the line, the buffer: of what is written of the words, where there are as many as a message has.
fn write_by<F: FnOnce(&[u64; 48], &mut [u8]) -> Result<usize, NotWritten>>(
    w: &[u64],
    out: &mut [u8],
    write: F,
)
    requires { F.IsAlwaysCallable write }
{
    let Some(w) = w.first_chunk::<48>() else {
        return;
    };
    say_written(write(w, out));
    say_bytes(out);
}

pub(crate) fn write(w: &[u64], free: &[u8], out: &mut [u8], at: usize) {
    write_by(w, out, |w, out| {
        let m = Message {
            sequence: Sequence(w[0]),
            stamp: Stamp(w[1]),
            facility: Facility(w[2]),
            body: body(w),
            trailing: w[4] == 1,
        };
        writer::write(m, free, out, at)
    });
}

// The word of a center's byte, a capital or a digit; 1, which is no text's word, for any other.
fn center(n: u64) -> Center {
    let Ok(byte) = u8::try_from(n) else {
        return Center(1);
    };
    let Some(t) = words::read(rules::PREFIX, &[byte]) else {
        return Center(1);
    };
    Center(t)
}

// The same of a message of the old feed.
pub(crate) fn write_old(w: &[u64], free: &[u8], out: &mut [u8], at: usize) {
    write_by(w, out, |w, out| {
        let m = OldMessage {
            stamp: OldStamp(w[1]),
            center: center(w[2]),
            body: body(w),
            trailing: w[4] == 1,
        };
        writer::write_old(m, free, out, at)
    });
}
