// How long a message's line will be, or that no line has these values (answer 16).
ghost use Rattle.std.specs.Prelude.{◌≡◌, ◌≤◌, length, take, drop, eqb, ◌&&◌};
ghost use Rattle.rules.specs.Frame.{longest_line};
ghost use Rattle.rules.specs.declared.Rule.TheVariants.{New, Old};
ghost use Rattle.fields.specs.Head.{sequence_in, stamp_in, facility_in};
ghost use Rattle.table.specs.Field.{ROUTE, is_one, plain as plainly};
ghost use Rattle.messages.specs.Allowed.{all_none};
ghost use Rattle.writer.specs.Size.{AllAsks, sized_text, sized_field, sized_all, sized_fields, sized_body, sized_line};

use fields::frame::{Sequence, Stamp, body_at};
use fields::heads::Facility;
use fields::words::{self, Worded};
use messages::values::values_in;
use messages::{Body, Reading, marks_in, type_in};
use rules::{LONGEST_LINE, Rule};
use shapes::sweeps;
use table::field::put_field;
use table::kinds::{ROUTE, Value};
use table::{field_count, has_fields, has_route, has_type, is_count, kinds, kinds_of};

fn size_text(kind: u8, trace: u8, marks: u8, s: &[u8]) -> Option<(usize, u8, u8)>
    ensures { result ≡ sized_text kind trace marks s.now }
{
    if !kinds::follows(kind, trace, marks, s) {
        return None;
    }
    let next = kinds::trace(kind, s);
    let after = kinds::marks_after(kind, marks, s);
    Some((s.len(), next, after))
}

// Whether a value keeps nothing.
fn is_none(v: Value) -> bool
    ensures { result ≡ (eqb v.a 0 && is_one v) }
{
    v.a == 0 && v.b == 0 && v.c == 0
}

// A route keeps nothing in its value, and may be longer than any other field.
fn size_route(kind: u8, trace: u8, marks: u8, v: Value, route: &[u8]) -> Option<(usize, u8, u8)>
    requires { plainly kind trace ≡ ROUTE }
    ensures { result ≡ sized_field kind trace marks route.now v }
{
    if !rules::is_route(route) || !is_none(v) {
        return None;
    }
    size_text(kind, trace, marks, route)
}

// The field is tried in twelve bytes of its own.
fn size_field(kind: u8, trace: u8, marks: u8, v: Value, route: &[u8]) -> Option<(usize, u8, u8)>
    ensures { result ≡ sized_field kind trace marks route.now v }
{
    if kinds::plain(kind, trace) == ROUTE {
        return size_route(kind, trace, marks, v, route);
    }
    // a fixed room: nothing is put on the heap
    let mut room = [0u8; 12];
    let written = put_field(kind, trace, v, route, &mut room, 0);
    match written {
        Ok(n) => size_text(kind, trace, marks, &room[..n]),
        Err(_) => None,
    }
}

fn size_all(kinds: &[u8], values: [Value; 19], route: &[u8]) -> Option<(usize, u8)>
    requires { AllAsks kinds.now route.now }
    ensures { result ≡ sized_all kinds.now route.now (take (length kinds.now) values) }
{
    let mut size: usize = 0;
    let mut trace: u8 = 0;
    let mut marks: u8 = 0;
    for (k, &kind) in kinds.iter().enumerate() {
        let (n, next, after) = size_field(kind, trace, marks, values[k], route)?;
        size += n + 1;
        trace = next;
        marks = after;
    }
    Some((size, marks))
}

// Whether no value comes from place n on.
fn is_none_from(values: [Value; 19], n: usize) -> bool
    ensures { result ≡ all_none (drop n values) }
{
    for k in n..19 {
        if !is_none(values[k]) {
            return false;
        }
    }
    true
}

// How long the text of the fields is, where a line can have this body.
fn size_fields(rule: Rule, b: Body, free: &[u8]) -> Option<usize>
    requires { length free.now ≤ longest_line }
    ensures { result ≡ sized_fields rule b free.now }
{
    let kind = type_in(b);
    let marks = marks_in(b);
    let n = field_count(kind, marks);
    if !is_count(kind, n) {
        return None;
    }
    if !has_route(kind, marks) && free.len() != 0 {
        return None;
    }
    let values = values_in(b);
    if !is_none_from(values, n) {
        return None;
    }
    let kinds = kinds_of(rule, kind);
    let (size, set) = size_all(&kinds[..n], values, free)?;
    if set != marks {
        return None;
    }
    Some(size)
}

// How long the body is, a space at its end counted.
fn size_body(rule: Rule, b: Body, free: &[u8], trailing: bool) -> Option<usize>
    requires { length free.now ≤ longest_line }
    ensures { result ≡ sized_body rule b free.now trailing }
{
    if !has_fields(type_in(b)) {
        if trailing {
            return None;
        }
        if !sweeps::each_within(32, 126, free) {
            return None;
        }
        return Some(free.len());
    }
    let n = size_fields(rule, b, free)?;
    if trailing {
        return Some(n + 1);
    }
    Some(n)
}

fn holds_new(sequence: u64, stamp: u64, facility: u64) -> bool
    ensures { result ≡ ((sequence_in New).held sequence && (stamp_in New).held stamp && (facility_in New).held facility) }
{
    Sequence(sequence).holds() && Stamp(stamp).holds() && Facility(facility).holds()
}

// (A function for each rule: the heads have other parts.)
fn holds_old(sequence: u64, stamp: u64, center: u64) -> bool
    ensures { result ≡ ((sequence_in Old).held sequence && (stamp_in Old).held stamp && (facility_in Old).held center) }
{
    sequence == 0 && words::holds(rules::OLD_STAMP, stamp) && words::holds(rules::LETTER, center)
}

// Whether some head of the rule gives these numbers.
fn holds_head(rule: Rule, sequence: u64, stamp: u64, facility: u64) -> bool
    ensures { result ≡ ((sequence_in rule).held sequence && (stamp_in rule).held stamp && (facility_in rule).held facility) }
{
    match rule {
        Rule::New => holds_new(sequence, stamp, facility),
        Rule::Old => holds_old(sequence, stamp, facility),
    }
}

// How long the line is, where a line of the rule can be read so.
pub(crate) fn size_line(rule: Rule, x: Reading, free: &[u8]) -> Option<usize>
    ensures { result ≡ sized_line rule x free.now }
{
    if free.len() > LONGEST_LINE {
        return None;
    }
    if !holds_head(rule, x.sequence, x.stamp, x.facility) {
        return None;
    }
    let body = x.body;
    let kind = type_in(body);
    if !has_type(rule, kind) {
        return None;
    }
    let n = size_body(rule, body, free, x.trailing)?;
    let size = body_at(rule) + n;
    if size > LONGEST_LINE {
        return None;
    }
    if table::is_long_plan(rule, kind, size) {
        return None;
    }
    Some(size)
}
