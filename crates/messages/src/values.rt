// What the writer must know of a body: the values of its fields. Its type and its marks are asked of `messages`, and what
// follows from these alone stands in `table`.
ghost use Rattle.std.specs.Prelude.{◌≡◌};
ghost use Rattle.messages.specs.Body.{af_slots, short_slots, long_slots, slots};

use crate::{Af, Body};
use fields::aircraft::Aircraft;
use fields::idents::Ident;
use table::kinds::Value;

// Of a body that is kept whole no value is held.
pub(crate) const NO_VALUES: [Value; 19] = [Value::NONE; 19];

// Three fields, then a number and its content for each amendment.
fn af_values(m: Af) -> [Value; 19]
    ensures { result ≡ af_slots m }
{
    [
        Value::from(m.ident),
        Value::word(m.from.0),
        Value::word(m.to.0),
        Value::word(m.first.mark),
        m.first.content,
        Value::word(m.second.mark),
        m.second.content,
        Value::word(m.third.mark),
        m.third.content,
        Value::word(m.fourth.mark),
        m.fourth.content,
        Value::word(m.fifth.mark),
        m.fifth.content,
        Value::word(m.sixth.mark),
        m.sixth.content,
        Value::word(m.seventh.mark),
        m.seventh.content,
        Value::word(m.eighth.mark),
        m.eighth.content,
    ]
}

// An ident and three words: AZ, TZ, and RZ of which the third is none.
fn short(i: Ident, a: u64, b: u64, c: u64) -> [Value; 19]
    ensures { result ≡ short_slots i a b c }
{
    let mut w = NO_VALUES;
    w[0] = Value::from(i);
    w[1] = Value::word(a);
    w[2] = Value::word(b);
    w[3] = Value::word(c);
    w
}

// An ident, an aircraft and four words: DZ, FZ and UZ.
fn long(i: Ident, x: Aircraft, a: u64, b: u64, c: u64, d: u64) -> [Value; 19]
    ensures { result ≡ long_slots i x a b c d }
{
    let mut w = NO_VALUES;
    w[0] = Value::from(i);
    w[1] = Value::from(x);
    w[2] = Value::word(a);
    w[3] = Value::word(b);
    w[4] = Value::word(c);
    w[5] = Value::word(d);
    w
}

// The values of the fields, and none after them; of an AF those of all eight amendments.
#[tactic(auto, unfolding(crate::specs::Body::slots))]
pub fn values_in(b: Body) -> [Value; 19]
    ensures { result ≡ slots b }
{
    match b {
        Body::Af(m) => af_values(m),
        Body::Az(m) => short(m.ident, m.from.0, m.to.0, m.clock.0),
        Body::Dz(m) => long(m.ident, m.aircraft, m.from.0, m.time.0, m.to.0, m.clock.0),
        Body::Fz(p) => long(p.ident, p.aircraft, p.speed.0, p.fix.0, p.time.0, p.level.0),
        Body::Rz(m) => short(m.ident, m.from.0, m.to.0, 0),
        Body::Tz(m) => short(m.ident, m.speed.0, m.level.0, m.position.0),
        Body::Uz(p) => long(p.ident, p.aircraft, p.speed.0, p.fix.0, p.time.0, p.level.0),
        Body::Rt | Body::To | Body::Hb => NO_VALUES,
    }
}
