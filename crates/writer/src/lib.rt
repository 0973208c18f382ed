// A message written as its line, of the feed or of the old feed: what it takes is known before a byte is written.

#![tactic(auto)]

pub mod sizes;

ghost use Rattle.std.specs.Prelude.{◌≡◌, length, take};
ghost use Rattle.text.specs.Text.{spliced, written_next, written_bytes};
ghost use Rattle.table.specs.Field.{trace_of, shown};
ghost use Rattle.messages.specs.Allowed.{body_text};
ghost use Rattle.rules.specs.declared.Rule.TheVariants.{New, Old};
ghost use Rattle.messages.specs.Reading.{reading_of, old_reading_of};
ghost use Rattle.line.specs.Line.{line_by, is_allowed_by, line_of, is_allowed, old_line_of, is_old_allowed};
ghost use Rattle.fields.specs.Answer.{write_answer};
ghost use Rattle.writer.specs.Size.{fields_text};
ghost use Rattle.writer.specs.Asks.{FieldAsks, PutAsks, BodyAsks, HeadAsks, LineAsks, head_text};
ghost use Rattle.writer.specs.Cases.{place_after, WriteCase};

use crate::sizes::size_line;
use fields::frame::{Sequence, Stamp, body_at};
use fields::heads::{Facility, MessageType};
use fields::words::{self, Worded};
use messages::values::values_in;
use messages::{Body, Message, OldMessage, Reading, marks_in, type_in};
use rules::{FACILITY_AT, OLD_CENTER_AT, OLD_TYPE_AT, Rule, STAMP_AT, TYPE_AT};
use table::field::put_field;
use table::kinds::Value;
use table::{field_count, has_fields, kinds, kinds_of};
use text::NotWritten;
use text::writing::{has_room, put_bytes};

// Where a field's text ends, and its trace for the next one.
#[derive(Clone, Copy)]
pub struct Put {
    pub end: usize,
    pub trace: u8,
}

// One field, at the start of what is left of the buffer.
fn put_one(kind: u8, trace: u8, v: Value, route: &[u8], out: &mut [u8]) -> Put
    requires { FieldAsks kind trace route.now v out.old }
    ensures end_value { result.end ≡ length (shown kind trace route.now v) }
    ensures trace_value { result.trace ≡ trace_of kind (shown kind trace route.now v) }
    ensures out_after { out.new ≡ spliced out.old 0 (shown kind trace route.now v) }
{
    let written = put_field(kind, trace, v, route, out, 0);
    match written {
        Ok(n) => Put {
            end: n,
            trace: kinds::trace(kind, &out[..n]),
        },
        Err(_) => Put { end: 0, trace: 0 },
    }
}

// The fields, each after a space and into the rest of the buffer; the place after them.
fn put_all(kinds: &[u8], values: [Value; 19], route: &[u8], out: &mut [u8]) -> usize
    requires { PutAsks kinds.now route.now (take (length kinds.now) values) out.old }
    ensures value { result ≡ length (fields_text kinds.now route.now (take (length kinds.now) values)) }
    ensures out_after { out.new ≡ spliced out.old 0 (fields_text kinds.now route.now (take (length kinds.now) values)) }
{
    let mut at: usize = 0;
    let mut trace: u8 = 0;
    for (k, &kind) in kinds.iter().enumerate() {
        out[at] = b' ';
        let j = at + 1;
        let put = put_one(kind, trace, values[k], route, &mut out[j..]);
        trace = put.trace;
        at = j + put.end;
    }
    at
}

fn put_body(rule: Rule, b: Body, free: &[u8], trailing: bool, out: &mut [u8])
    requires { BodyAsks rule b free.now trailing out.old }
    ensures { out.new ≡ spliced out.old 0 (body_text rule b free.now trailing) }
{
    let kind = type_in(b);
    if !has_fields(kind) {
        let _ = put_bytes(free, out, 0);
        return;
    }
    let n = field_count(kind, marks_in(b));
    let kinds = kinds_of(rule, kind);
    let values = values_in(b);
    let end = put_all(&kinds[..n], values, free, out);
    if trailing {
        out[end] = b' ';
    }
}

// The head, each part into the rest of the buffer.
fn put_new_head(sequence: u64, stamp: u64, facility: u64, kind: MessageType, out: &mut [u8])
    requires { HeadAsks New sequence stamp facility out.old }
    ensures { out.new ≡ spliced out.old 0 (head_text New sequence stamp facility kind) }
{
    let _ = Sequence(sequence).put(out, 0);
    let _ = Stamp(stamp).put(&mut out[STAMP_AT..], 0);
    let _ = Facility(facility).put(&mut out[FACILITY_AT..], 0);
    let _ = kind.put(&mut out[TYPE_AT..], 0);
}

// (A function for each rule: the heads have other parts.)
fn put_old_head(sequence: u64, stamp: u64, center: u64, kind: MessageType, out: &mut [u8])
    requires { HeadAsks Old sequence stamp center out.old }
    ensures { out.new ≡ spliced out.old 0 (head_text Old sequence stamp center kind) }
{
    let _ = words::put(rules::OLD_STAMP, stamp, out, 0);
    let _ = words::put(rules::LETTER, center, &mut out[OLD_CENTER_AT..], 0);
    let _ = kind.put(&mut out[OLD_TYPE_AT..], 0);
}

fn put_head(rule: Rule, sequence: u64, stamp: u64, facility: u64, kind: MessageType, out: &mut [u8])
    requires { HeadAsks rule sequence stamp facility out.old }
    ensures { out.new ≡ spliced out.old 0 (head_text rule sequence stamp facility kind) }
{
    match rule {
        Rule::New => put_new_head(sequence, stamp, facility, kind, out),
        Rule::Old => put_old_head(sequence, stamp, facility, kind, out),
    }
}

// The line: its head, and the body into the rest of the buffer.
fn put_line(rule: Rule, x: Reading, free: &[u8], out: &mut [u8])
    requires { LineAsks rule x free.now out.old }
    ensures { out.new ≡ spliced out.old 0 (line_by rule x free.now) }
{
    let body = x.body;
    put_head(rule, x.sequence, x.stamp, x.facility, type_in(body), out);
    let at = body_at(rule);
    put_body(rule, body, free, x.trailing, &mut out[at..]);
}

// Writes a line of the rule from place `at`.
fn write_by(
    rule: Rule,
    x: Reading,
    free: &[u8],
    out: &mut [u8],
    at: usize,
) -> Result<usize, NotWritten>
    ensures value { result ≡ written_next (is_allowed_by rule x free.now) (line_by rule x free.now) out.old at }
    ensures out_after { out.new ≡ written_bytes (is_allowed_by rule x free.now) (line_by rule x free.now) out.old at }
    ensures write_case { WriteCase rule x free.now out.old at (write_answer result) (place_after result) out.new }
{
    let Some(n) = size_line(rule, x, free) else {
        return Err(NotWritten::NoText);
    };
    if !has_room(n, out.len(), at) {
        return Err(NotWritten::NoRoom);
    }
    put_line(rule, x, free, &mut out[at..]);
    Ok(at + n)
}

// Writes a message's line from place `at`: 16 for values that no line has, then 15 where it does not fit; every other
// byte stays, and where it refuses it writes nothing. No line feed is written.
pub fn write(m: Message, free: &[u8], out: &mut [u8], at: usize) -> Result<usize, NotWritten>
    ensures value { result ≡ written_next (is_allowed m free.now) (line_of m free.now) out.old at }
    ensures out_after { out.new ≡ written_bytes (is_allowed m free.now) (line_of m free.now) out.old at }
    ensures write_case { WriteCase New (reading_of m) free.now out.old at (write_answer result) (place_after result) out.new }
{
    write_by(Rule::New, Reading::from(m), free, out, at)
}

// Writes the line of a message of the old feed.
pub fn write_old(m: OldMessage, free: &[u8], out: &mut [u8], at: usize) -> Result<usize, NotWritten>
    ensures value { result ≡ written_next (is_old_allowed m free.now) (old_line_of m free.now) out.old at }
    ensures out_after { out.new ≡ written_bytes (is_old_allowed m free.now) (old_line_of m free.now) out.old at }
    ensures write_case { WriteCase Old (old_reading_of m) free.now out.old at (write_answer result) (place_after result) out.new }
{
    write_by(Rule::Old, Reading::from(m), free, out, at)
}
