// A body read: by its type's table, and the values given their types.
ghost use Rattle.std.specs.Prelude.{◌≡◌};
ghost use Rattle.messages.specs.Body.{held_from, af_from, az_from, dz_from, rz_from, tz_from, plan_from, body_from};
ghost use Rattle.messages.specs.Read.{typed_of, body_read};

use crate::values::NO_VALUES;
use crate::{Af, Amendment, Az, Body, Dz, Plan, Rz, Tz};
use fields::aircraft::Aircraft;
use fields::heads::MessageType;
use fields::idents::Ident;
use fields::plan::{FiledSpeed, Fix, Level, Point, Time};
use fields::track::{ArrivalClock, Clock, GroundSpeed, Position, TrackLevel};
use rules::Rule;
use table::kinds::Value;
use table::walk::{Fault, TableRead};

// An amendment from the values of its number and its content.
fn amendment(number: Value, content: Value) -> Amendment
    ensures { result ≡ held_from number content }
{
    Amendment {
        mark: number.a,
        content,
    }
}

// (A function for each type of body: they differ in which fields there are, and are nothing else.)
fn af_from(marks: u8, w: [Value; 19]) -> Af
    ensures { result ≡ af_from marks w }
{
    Af {
        ident: Ident::from(w[0]),
        from: Point(w[1].a),
        to: Point(w[2].a),
        marks,
        first: amendment(w[3], w[4]),
        second: amendment(w[5], w[6]),
        third: amendment(w[7], w[8]),
        fourth: amendment(w[9], w[10]),
        fifth: amendment(w[11], w[12]),
        sixth: amendment(w[13], w[14]),
        seventh: amendment(w[15], w[16]),
        eighth: amendment(w[17], w[18]),
    }
}

fn az_from(w: [Value; 19]) -> Az
    ensures { result ≡ az_from w }
{
    Az {
        ident: Ident::from(w[0]),
        from: Point(w[1].a),
        to: Point(w[2].a),
        clock: ArrivalClock(w[3].a),
    }
}

fn dz_from(w: [Value; 19]) -> Dz
    ensures { result ≡ dz_from w }
{
    Dz {
        ident: Ident::from(w[0]),
        aircraft: Aircraft::from(w[1]),
        from: Point(w[2].a),
        time: Time(w[3].a),
        to: Point(w[4].a),
        clock: Clock(w[5].a),
    }
}

fn rz_from(w: [Value; 19]) -> Rz
    ensures { result ≡ rz_from w }
{
    Rz {
        ident: Ident::from(w[0]),
        from: Point(w[1].a),
        to: Point(w[2].a),
    }
}

fn tz_from(w: [Value; 19]) -> Tz
    ensures { result ≡ tz_from w }
{
    Tz {
        ident: Ident::from(w[0]),
        speed: GroundSpeed(w[1].a),
        level: TrackLevel(w[2].a),
        position: Position(w[3].a),
    }
}

fn plan_from(w: [Value; 19]) -> Plan
    ensures { result ≡ plan_from w }
{
    Plan {
        ident: Ident::from(w[0]),
        aircraft: Aircraft::from(w[1]),
        speed: FiledSpeed(w[2].a),
        fix: Fix(w[3].a),
        time: Time(w[4].a),
        level: Level(w[5].a),
    }
}

#[tactic(auto, unfolding(crate::specs::Body::body_from))]
fn body_from(t: MessageType, marks: u8, w: [Value; 19]) -> Body
    ensures { result ≡ body_from t marks w }
{
    match t {
        MessageType::Af => Body::Af(af_from(marks, w)),
        MessageType::Az => Body::Az(az_from(w)),
        MessageType::Dz => Body::Dz(dz_from(w)),
        MessageType::Fz => Body::Fz(plan_from(w)),
        MessageType::Rz => Body::Rz(rz_from(w)),
        MessageType::Tz => Body::Tz(tz_from(w)),
        MessageType::Uz => Body::Uz(plan_from(w)),
        MessageType::Rt => Body::Rt,
        MessageType::To => Body::To,
        MessageType::Hb => Body::Hb,
    }
}

// The fields of a type's body by the table; of a body that is kept whole no value is held.
fn read_fields(rule: Rule, t: MessageType, body: &[u8]) -> TableRead
    ensures { typed_of t result.values result.answer ≡ body_read rule t body.now }
{
    if !table::has_fields(t) {
        return TableRead {
            answer: Ok((false, 0)),
            values: NO_VALUES,
        };
    }
    table::read(rule, t, body)
}

// Reads the body of a type's line under the rule, and gives the values their types.
pub fn read_body(rule: Rule, t: MessageType, body: &[u8]) -> Result<(Body, bool), Fault>
    ensures { result ≡ body_read rule t body.now }
{
    let read = read_fields(rule, t, body);
    let (trailing, marks) = read.answer?;
    Ok((body_from(t, marks, read.values), trailing))
}
