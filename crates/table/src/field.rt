// One field, of a kind by itself and after the fields before it: read, and written back. Where a writer refuses it writes nothing.
ghost use Rattle.std.specs.Prelude.{◌≡◌, cond, ◌&&◌, [], ◌∷◌, eqb};
ghost use Rattle.rules.specs.Form.{is_route};
ghost use Rattle.rules.specs.declared.Rule.TheVariants.{New, Old};
ghost use Rattle.fields.specs.Word.{word_of, is_word};
ghost use Rattle.fields.specs.Ident.{ident_of, tz_ident_of, is_ident_value, ident_text};
ghost use Rattle.fields.specs.Aircraft.{aircraft_by, is_aircraft_value, aircraft_text};
ghost use Rattle.table.specs.Field.{AMENDMENT, PLAN_TIME, of_ident, of_aircraft, of_route, of_word, read_kind, read_in, ident_in, aircraft_in, is_one, is_two, is_mark, mark_text, is_kind_value, shown_kind, is_value, shown};
ghost use Rattle.text.specs.Text.{text_of, written_next, written_bytes};

use crate::kinds;
use crate::kinds::{
    AIRCRAFT, AMENDMENT, CONTENT, IDENT, NotRead, OLD_AIRCRAFT, OLD_CONTENT, PLAN_TIME, ROUTE,
    TZ_IDENT, Value,
};
use fields::aircraft::Aircraft;
use fields::idents::Ident;
use fields::plan::Time;
use fields::words;
use fields::words::Worded;
use text::NotWritten;
use text::writing::put_bytes;

fn read_ident(s: &[u8]) -> Result<Value, NotRead>
    ensures { result ≡ of_ident (ident_of s.now) }
{
    Ident::read(s).map(Value::from).ok_or(NotRead::Nothing)
}

fn read_tz_ident(s: &[u8]) -> Result<Value, NotRead>
    ensures { result ≡ of_ident (tz_ident_of s.now) }
{
    Ident::read_tz(s).map(Value::from).ok_or(NotRead::Nothing)
}

#[tactic(auto, unfolding(fields::specs::Aircraft::aircraft_by))]
fn read_aircraft(s: &[u8]) -> Result<Value, NotRead>
    ensures { result ≡ of_aircraft (aircraft_by New s.now) }
{
    Aircraft::read(s).map(Value::from).ok_or(NotRead::Nothing)
}

// In the old feed an aircraft has no last letter.
fn read_old_aircraft(s: &[u8]) -> Result<Value, NotRead>
    ensures { result ≡ of_aircraft (aircraft_by Old s.now) }
{
    match Aircraft::read(s) {
        Some(aircraft) if aircraft.letter == 0 => Ok(Value::from(aircraft)),
        _ => Err(NotRead::Nothing),
    }
}

// A route is not kept: it stays a part of the line.
fn read_route(s: &[u8]) -> Result<Value, NotRead>
    ensures { result ≡ of_route (is_route s.now) }
{
    if !rules::is_route(s) {
        return Err(NotRead::Nothing);
    }
    Ok(Value::NONE)
}

fn read_word(kind: u8, s: &[u8]) -> Result<Value, NotRead>
    ensures { result ≡ of_word (word_of kind s.now) }
{
    words::read(kind, s)
        .map(Value::word)
        .ok_or(NotRead::Nothing)
}

// A field of a kind by itself.
pub(crate) fn read_kind(kind: u8, s: &[u8]) -> Result<Value, NotRead>
    ensures { result ≡ read_kind kind s.now }
{
    match kind {
        IDENT => read_ident(s),
        TZ_IDENT => read_tz_ident(s),
        AIRCRAFT => read_aircraft(s),
        OLD_AIRCRAFT => read_old_aircraft(s),
        ROUTE => read_route(s),
        _ => read_word(kind, s),
    }
}

// An amendment's number that is not among the marks.
fn read_number(marks: u8, s: &[u8]) -> Result<Value, NotRead>
    ensures { result ≡ read_in AMENDMENT 0 marks s.now }
{
    let mark = kinds::mark(s);
    if mark == 0 || marks & mark != 0 {
        return Err(NotRead::Number);
    }
    Ok(Value::word(mark as u64))
}

// The time of FZ and UZ: its own form first, then the E rule.
fn read_plan_time(trace: u8, s: &[u8]) -> Result<Value, NotRead>
    ensures { result ≡ read_in PLAN_TIME trace 0 s.now }
{
    let Some(time) = Time::read(s) else {
        return Err(NotRead::Nothing);
    };
    if !kinds::follows(PLAN_TIME, trace, 0, s) {
        return Err(NotRead::Nothing);
    }
    Ok(Value::word(time.0))
}

// A field after the trace of the one before it, and the marks set so far.
pub(crate) fn read_field(kind: u8, trace: u8, marks: u8, s: &[u8]) -> Result<Value, NotRead>
    ensures { result ≡ read_in kind trace marks s.now }
{
    match kind {
        AMENDMENT => read_number(marks, s),
        PLAN_TIME => read_plan_time(trace, s),
        CONTENT => read_kind(kinds::content(trace), s),
        OLD_CONTENT => read_kind(kinds::old_content(trace), s),
        _ => read_kind(kind, s),
    }
}

fn put_ident(v: Value, out: &mut [u8], at: usize) -> Result<usize, NotWritten>
    ensures value { result ≡ written_next (is_ident_value (ident_in v) && is_two v) (ident_text (ident_in v)) out.old at }
    ensures out_after { out.new ≡ written_bytes (is_ident_value (ident_in v) && is_two v) (ident_text (ident_in v)) out.old at }
{
    if v.c != 0 {
        return Err(NotWritten::NoText);
    }
    Ident::from(v).put(out, at)
}

fn put_aircraft(v: Value, out: &mut [u8], at: usize) -> Result<usize, NotWritten>
    ensures value { result ≡ written_next (is_aircraft_value (aircraft_in v)) (aircraft_text (aircraft_in v)) out.old at }
    ensures out_after { out.new ≡ written_bytes (is_aircraft_value (aircraft_in v)) (aircraft_text (aircraft_in v)) out.old at }
{
    Aircraft::from(v).put(out, at)
}

// The route itself stands beside its value, which keeps nothing.
fn put_route(v: Value, route: &[u8], out: &mut [u8], at: usize) -> Result<usize, NotWritten>
    ensures value { result ≡ written_next (is_route route.now && eqb v.a 0 && is_one v) route.now out.old at }
    ensures out_after { out.new ≡ written_bytes (is_route route.now && eqb v.a 0 && is_one v) route.now out.old at }
{
    if !rules::is_route(route) || v.a != 0 || !v.is_one() {
        return Err(NotWritten::NoText);
    }
    put_bytes(route, out, at)
}

fn put_word(kind: u8, v: Value, out: &mut [u8], at: usize) -> Result<usize, NotWritten>
    ensures value { result ≡ written_next (is_word kind v.a && is_one v) (text_of v.a) out.old at }
    ensures out_after { out.new ≡ written_bytes (is_word kind v.a && is_one v) (text_of v.a) out.old at }
{
    if !v.is_one() {
        return Err(NotWritten::NoText);
    }
    words::put(kind, v.a, out, at)
}

// A value of a kind by itself.
fn put_kind(
    kind: u8,
    v: Value,
    route: &[u8],
    out: &mut [u8],
    at: usize,
) -> Result<usize, NotWritten>
    ensures value { result ≡ written_next (is_kind_value kind route.now v) (shown_kind kind route.now v) out.old at }
    ensures out_after { out.new ≡ written_bytes (is_kind_value kind route.now v) (shown_kind kind route.now v) out.old at }
{
    match kind {
        IDENT => put_ident(v, out, at),
        TZ_IDENT if v.b == 0 => Err(NotWritten::NoText),
        TZ_IDENT => put_ident(v, out, at),
        AIRCRAFT => put_aircraft(v, out, at),
        OLD_AIRCRAFT if v.c != 0 => Err(NotWritten::NoText),
        OLD_AIRCRAFT => put_aircraft(v, out, at),
        ROUTE => put_route(v, route, out, at),
        _ => put_word(kind, v, out, at),
    }
}

// The number of a mark, or zeros for what is no mark.
fn number(mark: u64) -> [u8; 2]
    ensures { result ≡ cond (is_mark mark) (mark_text mark) (0 ∷ 0 ∷ []) }
{
    match mark {
        kinds::KEPT_02 => [b'0', b'2'],
        kinds::KEPT_03 => [b'0', b'3'],
        kinds::KEPT_05 => [b'0', b'5'],
        kinds::KEPT_06 => [b'0', b'6'],
        kinds::KEPT_07 => [b'0', b'7'],
        kinds::KEPT_08 => [b'0', b'8'],
        kinds::KEPT_09 => [b'0', b'9'],
        kinds::KEPT_10 => [b'1', b'0'],
        _ => [0, 0],
    }
}

fn put_mark(mark: u64, out: &mut [u8], at: usize) -> Result<usize, NotWritten>
    ensures value { result ≡ written_next (is_mark mark) (mark_text mark) out.old at }
    ensures out_after { out.new ≡ written_bytes (is_mark mark) (mark_text mark) out.old at }
{
    let digits = number(mark);
    if digits[0] == 0 {
        return Err(NotWritten::NoText);
    }
    put_bytes(&digits, out, at)
}

// A value after the trace of the field before it.
pub fn put_field(
    kind: u8,
    trace: u8,
    v: Value,
    route: &[u8],
    out: &mut [u8],
    at: usize,
) -> Result<usize, NotWritten>
    ensures value { result ≡ written_next (is_value kind trace route.now v) (shown kind trace route.now v) out.old at }
    ensures out_after { out.new ≡ written_bytes (is_value kind trace route.now v) (shown kind trace route.now v) out.old at }
{
    if kind != AMENDMENT {
        return put_kind(kinds::plain(kind, trace), v, route, out, at);
    }
    if !v.is_one() {
        return Err(NotWritten::NoText);
    }
    put_mark(v.a, out, at)
}
