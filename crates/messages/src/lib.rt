// A message: its head, its body by type, and whether a space stood at its end. A route and the body of RT, TO and HB
// are not held: they stay a part of the line.

#![tactic(auto)]

pub mod typed;
pub mod values;

ghost use Rattle.std.specs.Prelude.{◌≡◌};
ghost use Rattle.messages.specs.Body.{plan_level, amended_in, held_of, type_in, key_in, marks_in};
ghost use Rattle.messages.specs.Reading.{message_of, old_message_of, reading_of, old_reading_of};

use fields::aircraft::Aircraft;
use fields::flight::{ComputerNumber, Key};
use fields::frame::{Center, OldStamp, Sequence, Stamp};
use fields::heads::{Facility, MessageType};
use fields::idents::Ident;
use fields::plan::{FiledSpeed, Fix, Level, Point, Time};
use fields::track::{ArrivalClock, Clock, GroundSpeed, Position, TrackLevel};
use table::kinds;
use table::kinds::Value;

#[derive(Clone, Copy)]
pub struct Az {
    pub ident: Ident,
    pub from: Point,
    pub to: Point,
    pub clock: ArrivalClock,
}

#[derive(Clone, Copy)]
pub struct Dz {
    pub ident: Ident,
    pub aircraft: Aircraft,
    pub from: Point,
    pub time: Time,
    pub to: Point,
    pub clock: Clock,
}

#[derive(Clone, Copy)]
pub struct Rz {
    pub ident: Ident,
    pub from: Point,
    pub to: Point,
}

#[derive(Clone, Copy)]
pub struct Tz {
    pub ident: Ident,
    pub speed: GroundSpeed,
    pub level: TrackLevel,
    pub position: Position,
}

// A flight plan: FZ and UZ.
#[derive(Clone, Copy)]
pub struct Plan {
    pub ident: Ident,
    pub aircraft: Aircraft,
    pub speed: FiledSpeed,
    pub fix: Fix,
    pub time: Time,
    pub level: Level,
}

#[derive(Clone, Copy)]
pub enum PlanLevel {
    Requested(Level),
    Assigned(Level),
}

// The content of an amendment, by its number: 02, 03, 05, 06, 07, 08, 09, 10; or none.
#[derive(Clone, Copy)]
pub enum Amended {
    Ident(Ident),
    Aircraft(Aircraft),
    Speed(FiledSpeed),
    Fix(Fix),
    Time(Time),
    Assigned(Level),
    Requested(Level),
    Route,
    // A content as well: `amendment` promises what it is held as (`held_of`), and `amended` gives it back.
    Nothing,
}

// An amendment as a message holds it: its number's mark and the words of its content; `amended` gives these their type.
#[derive(Clone, Copy)]
pub struct Amendment {
    pub mark: u64,
    pub content: Value,
}

// The amendments in their order, none after the last, and a mark for each number that came.
#[derive(Clone, Copy)]
pub struct Af {
    pub ident: Ident,
    pub from: Point,
    pub to: Point,
    pub marks: u8,
    pub first: Amendment,
    pub second: Amendment,
    pub third: Amendment,
    pub fourth: Amendment,
    pub fifth: Amendment,
    pub sixth: Amendment,
    pub seventh: Amendment,
    pub eighth: Amendment,
}

#[derive(Clone, Copy)]
pub enum Body {
    Af(Af),
    Az(Az),
    Dz(Dz),
    Fz(Plan),
    Rz(Rz),
    Tz(Tz),
    Uz(Plan),
    Rt,
    To,
    Hb,
}

#[derive(Clone, Copy)]
pub struct Message {
    pub sequence: Sequence,
    pub stamp: Stamp,
    pub facility: Facility,
    pub body: Body,
    pub trailing: bool,
}

// A message of the old feed keeps what its line has: no sequence number, no day, no facility.
#[derive(Clone, Copy)]
pub struct OldMessage {
    pub stamp: OldStamp,
    pub center: Center,
    pub body: Body,
    pub trailing: bool,
}

// What is read under either rule: the parts of the head as numbers, 0 for what the rule has not. Outside this reader and writer a message has its own type.
#[derive(Clone, Copy)]
pub struct Reading {
    pub sequence: u64,
    pub stamp: u64,
    pub facility: u64,
    pub body: Body,
    pub trailing: bool,
}

impl From<Reading> for Message {
    ghost from_gives = { λ x m. m ≡ message_of x };

    fn from(x: Reading) -> Message {
        Message {
            sequence: Sequence(x.sequence),
            stamp: Stamp(x.stamp),
            facility: Facility(x.facility),
            body: x.body,
            trailing: x.trailing,
        }
    }
}

impl From<Reading> for OldMessage {
    ghost from_gives = { λ x m. m ≡ old_message_of x };

    fn from(x: Reading) -> OldMessage {
        OldMessage {
            stamp: OldStamp(x.stamp),
            center: Center(x.facility),
            body: x.body,
            trailing: x.trailing,
        }
    }
}

impl From<Message> for Reading {
    ghost from_gives = { λ m x. x ≡ reading_of m };

    fn from(m: Message) -> Reading {
        Reading {
            sequence: m.sequence.0,
            stamp: m.stamp.0,
            facility: m.facility.0,
            body: m.body,
            trailing: m.trailing,
        }
    }
}

impl From<OldMessage> for Reading {
    ghost from_gives = { λ m x. x ≡ old_reading_of m };

    fn from(m: OldMessage) -> Reading {
        Reading {
            sequence: 0,
            stamp: m.stamp.0,
            facility: m.center.0,
            body: m.body,
            trailing: m.trailing,
        }
    }
}

// The weight of a word's first letter, and the code of P there.
const FIRST: u64 = 238572050223552512;

const P: u64 = 26;

impl Plan {
    // The level is requested when the time has P, and assigned otherwise.
    pub fn filed_level(self) -> PlanLevel
        ensures { result ≡ plan_level self }
    {
        if self.time.0 / FIRST == P {
            return PlanLevel::Requested(self.level);
        }
        PlanLevel::Assigned(self.level)
    }
}

fn held(mark: u64, a: u64, b: u64, c: u64) -> Amendment
    ensures { result ≡ record { mark = mark; content = record { a = a; b = b; c = c } } }
{
    Amendment {
        mark,
        content: Value { a, b, c },
    }
}

impl Amendment {
    // The content by its type; nothing where the mark is no number's.
    pub fn amended(self) -> Amended
        ensures { result ≡ amended_in self }
    {
        let mark = self.mark;
        let v = self.content;
        match mark {
            kinds::KEPT_02 => return Amended::Ident(Ident {
                key: Key(v.a),
                number: ComputerNumber(v.b),
            }),
            kinds::KEPT_03 => return Amended::Aircraft(Aircraft {
                prefix: v.a,
                model: v.b,
                letter: v.c,
            }),
            kinds::KEPT_05 => return Amended::Speed(FiledSpeed(v.a)),
            kinds::KEPT_06 => return Amended::Fix(Fix(v.a)),
            kinds::KEPT_07 => return Amended::Time(Time(v.a)),
            kinds::KEPT_08 => return Amended::Assigned(Level(v.a)),
            kinds::KEPT_09 => return Amended::Requested(Level(v.a)),
            kinds::KEPT_10 => return Amended::Route,
            _ => return Amended::Nothing,
        }
    }
}

impl Amended {
    // As a message holds it.
    pub fn amendment(self) -> Amendment
        ensures { result ≡ held_of self }
    {
        match self {
            Amended::Ident(i) => held(kinds::KEPT_02, i.key.0, i.number.0, 0),
            Amended::Aircraft(x) => held(kinds::KEPT_03, x.prefix, x.model, x.letter),
            Amended::Speed(x) => held(kinds::KEPT_05, x.0, 0, 0),
            Amended::Fix(x) => held(kinds::KEPT_06, x.0, 0, 0),
            Amended::Time(x) => held(kinds::KEPT_07, x.0, 0, 0),
            Amended::Assigned(x) => held(kinds::KEPT_08, x.0, 0, 0),
            Amended::Requested(x) => held(kinds::KEPT_09, x.0, 0, 0),
            Amended::Route => held(kinds::KEPT_10, 0, 0, 0),
            Amended::Nothing => held(0, 0, 0, 0),
        }
    }
}

pub fn type_in(b: Body) -> MessageType
    ensures { result ≡ type_in b }
{
    match b {
        Body::Af(_) => MessageType::Af,
        Body::Az(_) => MessageType::Az,
        Body::Dz(_) => MessageType::Dz,
        Body::Fz(_) => MessageType::Fz,
        Body::Rz(_) => MessageType::Rz,
        Body::Tz(_) => MessageType::Tz,
        Body::Uz(_) => MessageType::Uz,
        Body::Rt => MessageType::Rt,
        Body::To => MessageType::To,
        Body::Hb => MessageType::Hb,
    }
}

// The word of the flight's key, the part of its ident before the slash; 0 for RT, TO and HB, which have none.
pub fn key_in(b: Body) -> u64
    ensures { result ≡ key_in b }
{
    match b {
        Body::Af(m) => m.ident.key.0,
        Body::Az(m) => m.ident.key.0,
        Body::Dz(m) => m.ident.key.0,
        Body::Fz(p) => p.ident.key.0,
        Body::Rz(m) => m.ident.key.0,
        Body::Tz(m) => m.ident.key.0,
        Body::Uz(p) => p.ident.key.0,
        Body::Rt => 0,
        Body::To => 0,
        Body::Hb => 0,
    }
}

// The marks that a body keeps.
pub fn marks_in(b: Body) -> u8
    ensures { result ≡ marks_in b }
{
    match b {
        Body::Af(m) => m.marks,
        _ => 0,
    }
}
