// What a line asks of the board: a DZ, AZ or TZ its entry for a flight, any other type nothing; or the line's refusal.
ghost use Rattle.std.specs.Prelude.{◌≡◌};
ghost use Rattle.planner.specs.Asked.{dz_asks, az_asks, tz_asks, asked_by, asked_of};

use board::rows::{Arrival, Track};
use fields::flight::Key;
use fields::frame::Stamp;
use fields::track::ArrivalClock;
use line::Refusal;
use messages::{Az, Body, Dz, Message, Tz};

#[derive(Clone, Copy)]
pub enum Asked {
    Dz(Key, Arrival),
    Az(Key, Arrival),
    Tz(Key, Track),
    Other,
}

// A DZ's clock has no letter before it; on the board it is an arrival's.
fn of_dz(m: Dz, stamp: Stamp) -> Asked
    ensures { result ≡ dz_asks m stamp }
{
    let entry = Arrival {
        departure: m.from,
        destination: m.to,
        clock: ArrivalClock(m.clock.0),
        stamp,
    };
    Asked::Dz(m.ident.key, entry)
}

fn of_az(m: Az, stamp: Stamp) -> Asked
    ensures { result ≡ az_asks m stamp }
{
    let entry = Arrival {
        departure: m.from,
        destination: m.to,
        clock: m.clock,
        stamp,
    };
    Asked::Az(m.ident.key, entry)
}

fn of_tz(m: Tz, stamp: Stamp) -> Asked
    ensures { result ≡ tz_asks m stamp }
{
    let entry = Track {
        speed: m.speed,
        level: m.level,
        position: m.position,
        stamp,
    };
    Asked::Tz(m.ident.key, entry)
}

// What a message asks.
fn ask(m: Message) -> Asked
    ensures { result ≡ asked_by m }
{
    match m.body {
        Body::Dz(body) => of_dz(body, m.stamp),
        Body::Az(body) => of_az(body, m.stamp),
        Body::Tz(body) => of_tz(body, m.stamp),
        _ => Asked::Other,
    }
}

// Reads a line: any bytes, of any length.
pub(crate) fn read(line: &[u8]) -> Result<Asked, Refusal>
    ensures { result ≡ asked_of line.now }
{
    line::read(line).map(ask)
}
