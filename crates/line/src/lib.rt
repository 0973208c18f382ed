// One line of the feed, or of the old feed: read as a message, and its free text handed back as a part of it.

#![tactic(auto)]

mod front;

ghost use Rattle.std.specs.Prelude.{◌≡◌, ◌≤◌, length};
ghost use Rattle.rules.specs.declared.Rule.TheVariants.{New, Old};
ghost use Rattle.fields.specs.Head.{head_length};
ghost use Rattle.table.specs.Read.{fault_number, fault_place};
ghost use Rattle.shapes.specs.Picture.{starts_at};
ghost use Rattle.line.specs.Cases.{Case};
ghost use Rattle.line.specs.Read.{rest_of, read_by, read_of, old_read_of, refusal_number, refusal_place, line_number, line_place, old_number, old_place, free_of, free_at};

use crate::front::{Head, kind_of, read_head};
use fields::frame::body_at;
use messages::typed::read_body;
use messages::{Message, OldMessage, Reading};
use rules::{LONGEST_LINE, Rule};
use shapes::sweeps;
use table::walk::Fault;

// Document 01's answers 1 to 7 and 11; and 8, 9 and 10 as the body's fault.
#[derive(Clone, Copy, PartialEq, Eq)]
pub enum Refusal {
    Short,
    Long,
    Unprintable,
    NoSequence,
    NoStamp,
    NoFacility,
    NoType,
    LongPlan,
    Body(Fault),
}

// The answer number of a body's fault.
fn fault_number(fault: Fault) -> u8
    ensures { result ≡ fault_number fault }
{
    match fault {
        Fault::Spacing => 8,
        Fault::Field(_) => 9,
        Fault::Number(_) => 10,
    }
}

// The place of the field at fault; 0 where it is the spacing or the count.
fn fault_place(fault: Fault) -> usize
    ensures { result ≡ fault_place fault }
{
    match fault {
        Fault::Spacing => 0,
        Fault::Field(i) | Fault::Number(i) => i,
    }
}

impl Refusal {
    // Document 01's answer number.
    pub fn number(self) -> u8
        ensures { result ≡ refusal_number self }
    {
        match self {
            Refusal::Short => 1,
            Refusal::Long => 2,
            Refusal::Unprintable => 3,
            Refusal::NoSequence => 4,
            Refusal::NoStamp => 5,
            Refusal::NoFacility => 6,
            Refusal::NoType => 7,
            Refusal::LongPlan => 11,
            Refusal::Body(fault) => fault_number(fault),
        }
    }

    // The place that it gives, 1 for the ident; 0 where it gives none.
    pub fn place(self) -> usize
        ensures { result ≡ refusal_place self }
    {
        match self {
            Refusal::Body(fault) => fault_place(fault),
            _ => 0,
        }
    }
}

// The body after a head.
fn read_rest(rule: Rule, head: Head, line: &[u8]) -> Result<Reading, Refusal>
    requires { head_length rule ≤ length line.now }
    ensures { result ≡ rest_of rule head line.now }
{
    if table::is_long_plan(rule, head.kind, line.len()) {
        return Err(Refusal::LongPlan);
    }
    let at = body_at(rule);
    let (body, trailing) = read_body(rule, head.kind, &line[at..]).map_err(Refusal::Body)?;
    Ok(Reading {
        sequence: head.sequence,
        stamp: head.stamp,
        facility: head.facility,
        body,
        trailing,
    })
}

// Reads a line under the rule.
fn read_by(rule: Rule, line: &[u8]) -> Result<Reading, Refusal>
    ensures { result ≡ read_by rule line.now }
{
    if line.len() < body_at(rule) {
        return Err(Refusal::Short);
    }
    if line.len() > LONGEST_LINE {
        return Err(Refusal::Long);
    }
    if !sweeps::each_within(32, 126, line) {
        return Err(Refusal::Unprintable);
    }
    let head = read_head(rule, line)?;
    read_rest(rule, head, line)
}

// Reads a line: any bytes, of any length. Its answer has the number and the place of the line's case in document 01's
// table.
pub fn read(line: &[u8]) -> Result<Message, Refusal>
    ensures value { result ≡ read_of line.now }
    ensures case { Case New line.now (line_number result) (line_place result) }
{
    read_by(Rule::New, line).map(Message::from)
}

// Reads a line of the old feed.
pub fn read_old(line: &[u8]) -> Result<OldMessage, Refusal>
    ensures value { result ≡ old_read_of line.now }
    ensures case { Case Old line.now (old_number result) (old_place result) }
{
    read_by(Rule::Old, line).map(OldMessage::from)
}

// The body of an RT, TO or HB, the route of an FZ, a UZ and of an AF with number 10, as that part of the line; of any
// other line an empty part. It is that part and no copy: where it lies in memory is told.
pub fn free(rule: Rule, line: &[u8]) -> &[u8]
    ensures result_value { result.now ≡ free_of rule line.now }
    ensures ref_ptr_value { result.ref_ptr ≡ starts_at line.entry.ref_ptr (free_at rule line.now) }
{
    let at = body_at(rule);
    if line.len() < at {
        return &line[..0];
    }
    let from = at - 2;
    let Some(kind) = kind_of(rule, &line[from..at]) else {
        return &line[..0];
    };
    if !table::has_fields(kind) {
        return &line[at..];
    }
    table::route(rule, kind, &line[at..])
}
