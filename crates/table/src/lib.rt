// Document 01's table: which fields a type's body has, in order and how many; a body read by them, and its route.

#![tactic(auto)]

pub mod field;
pub mod kinds;
pub mod spacing;
pub mod walk;

ghost use Rattle.std.specs.Prelude.{◌≡◌};
ghost use Rattle.table.specs.Read.{padded};
ghost use Rattle.shapes.specs.Picture.{starts_at};
ghost use Rattle.table.specs.Table.{dotted, answer_by, values_by, route_by, route_at_by, count_with, has_fields, has_type, has_route_with, is_count};
ghost use Rattle.std.specs.Int.Count.{ones};
ghost use Rattle.rules.specs.declared.Rule.TheVariants.{New, Old};
ghost use Rattle.fields.specs.declared.heads.MessageType.TheVariants as type;
ghost use Rattle.table.specs.Plan.{is_long_plan};

use crate::kinds::MARK_10;
use crate::walk::TableRead;
use fields::heads::MessageType;
use rules::{LONGEST_PLAN, OLD_TYPE_AT, Rule, TYPE_AT};

// The table, AF to UZ: the kinds of each type's fields in order, of an AF those with eight amendments, and dots after them.
const AF: [u8; 19] = *b"IPPBWBWBWBWBWBWBWBW";

const AZ: [u8; 19] = *b"IPPA...............";

const DZ: [u8; 19] = *b"IZPTPC.............";

// FZ and UZ have one row.
const FZ: [u8; 19] = *b"IZSFHLR............";

const RZ: [u8; 19] = *b"IPP................";

const TZ: [u8; 19] = *b"JGMO...............";

// Those of the old feed that differ.
const OLD_AF: [u8; 19] = *b"IPPBwBwBwBwBwBwBwBw";

const OLD_AZ: [u8; 19] = *b"IPPC...............";

const OLD_DZ: [u8; 19] = *b"IzPTPC.............";

const OLD_FZ: [u8; 19] = *b"IzSFHLR............";

// How long the line of an FZ may be, and that of an old one.
const LONGEST_FZ: usize = TYPE_AT + LONGEST_PLAN;

const LONGEST_OLD_FZ: usize = OLD_TYPE_AT + LONGEST_PLAN;

// RT, TO and HB bodies are kept whole.
const WHOLE: [u8; 19] = *b"...................";

// The row of a type in the old feed: its own, or that of the feed.
#[tactic(auto, unfolding(crate::specs::Table::dotted, crate::specs::Table::table_by))]
fn old_kinds(t: MessageType) -> [u8; 19]
    ensures { result ≡ dotted Old t }
{
    match t {
        MessageType::Af => OLD_AF,
        MessageType::Az => OLD_AZ,
        MessageType::Dz => OLD_DZ,
        MessageType::Fz | MessageType::Uz => OLD_FZ,
        _ => new_kinds(t),
    }
}

// The row of a type.
#[tactic(auto, unfolding(crate::specs::Table::dotted, crate::specs::Table::table_by))]
fn new_kinds(t: MessageType) -> [u8; 19]
    ensures { result ≡ dotted New t }
{
    match t {
        MessageType::Af => AF,
        MessageType::Az => AZ,
        MessageType::Dz => DZ,
        MessageType::Fz | MessageType::Uz => FZ,
        MessageType::Rz => RZ,
        MessageType::Tz => TZ,
        MessageType::Rt | MessageType::To | MessageType::Hb => WHOLE,
    }
}

// The row of a type under the rule.
pub fn kinds_of(rule: Rule, t: MessageType) -> [u8; 19]
    ensures { result ≡ dotted rule t }
{
    match rule {
        Rule::New => new_kinds(t),
        Rule::Old => old_kinds(t),
    }
}

// Reads a body by the kinds of as many fields as it has.
pub fn read(rule: Rule, t: MessageType, body: &[u8]) -> TableRead
    ensures answer_value { result.answer ≡ answer_by rule t body.now }
    ensures values_value { result.values ≡ padded (values_by rule t body.now) }
{
    let Some((n, trailing)) = spacing::count(body) else {
        return walk::refused();
    };
    if !is_count(t, n) {
        return walk::refused();
    }
    let kinds = kinds_of(rule, t);
    walk::read(&kinds[..n], body, trailing)
}

// The route among the fields of a type's body, as a part of it; an empty part where there is none.
pub fn route(rule: Rule, t: MessageType, body: &[u8]) -> &[u8]
    ensures result_value { result.now ≡ route_by rule t body.now }
    ensures ref_ptr_value { result.ref_ptr ≡ starts_at body.entry.ref_ptr (route_at_by rule t body.now) }
{
    let all = kinds_of(rule, t);
    walk::route(&all, body)
}

// How many amendments an AF with these marks has: the marks set.
pub(crate) fn amendment_count(marks: u8) -> u32
    ensures { result ≡ ones marks }
{
    u8::count_ones(marks)
}

// How many fields the body of a type has; only an AF's count goes by its marks.
#[tactic(auto, unfolding(crate::specs::Table::count_with))]
pub fn field_count(t: MessageType, marks: u8) -> usize
    ensures { result ≡ count_with t marks }
{
    match t {
        MessageType::Af => 3 + 2 * (amendment_count(marks) as usize),
        MessageType::Az | MessageType::Tz => 4,
        MessageType::Dz => 6,
        MessageType::Fz | MessageType::Uz => 7,
        MessageType::Rz => 3,
        MessageType::Rt | MessageType::To | MessageType::Hb => 0,
    }
}

// Whether the body of a type is fields; RT, TO and HB bodies are kept whole.
pub fn has_fields(t: MessageType) -> bool
    ensures { result ≡ has_fields t }
{
    field_count(t, 0) != 0
}

// Whether the rule has the type: the old feed has the seven with fields.
pub fn has_type(rule: Rule, t: MessageType) -> bool
    ensures { result ≡ has_type rule t }
{
    match rule {
        Rule::New => true,
        Rule::Old => has_fields(t),
    }
}

// Whether a route is among the fields; of an AF if its number, 10, came.
pub fn has_route(t: MessageType, marks: u8) -> bool
    ensures { result ≡ has_route_with t marks }
{
    match t {
        MessageType::Af => marks & MARK_10 != 0,
        MessageType::Fz | MessageType::Uz => true,
        _ => false,
    }
}

// AF: even counts of fields, under 5 or over 19, are wrong.
#[tactic(auto, unfolding(crate::specs::Table::is_count))]
fn is_af_count(n: usize) -> bool
    ensures { result ≡ is_count type.Af n }
{
    5 <= n && n <= 19 && n % 2 == 1
}

// Whether the body of a type may have n fields.
pub fn is_count(t: MessageType, n: usize) -> bool
    ensures { result ≡ is_count t n }
{
    match t {
        MessageType::Af => is_af_count(n),
        _ => n == field_count(t, 0),
    }
}

// More bytes than the line of an FZ may have.
fn is_over(rule: Rule, n: usize) -> bool
    ensures { result ≡ is_long_plan rule type.Fz n }
{
    match rule {
        Rule::New => n > LONGEST_FZ,
        Rule::Old => n > LONGEST_OLD_FZ,
    }
}

// An FZ over 439 bytes, counted from its type; n is the line's length.
pub fn is_long_plan(rule: Rule, kind: MessageType, n: usize) -> bool
    ensures { result ≡ is_long_plan rule kind n }
{
    match kind {
        MessageType::Fz => is_over(rule, n),
        _ => false,
    }
}
