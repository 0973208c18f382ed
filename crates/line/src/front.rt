// The head of a line under each rule: its parts one after the other, and its type.
ghost use Rattle.std.specs.Prelude.{◌≡◌, ◌≤◌, length};
ghost use Rattle.rules.specs.declared.Rule.TheVariants.{New, Old};
ghost use Rattle.fields.specs.Head.{head_length};
ghost use Rattle.line.specs.Read.{type_by, head_of};

use crate::Refusal;
use fields::frame::{Sequence, Stamp};
use fields::heads::{Facility, MessageType};
use fields::words::{self, Worded};
use rules::{
    BODY_AT, FACILITY_AT, OLD_BODY_AT, OLD_CENTER_AT, OLD_TYPE_AT, Rule, STAMP_AT, TYPE_AT,
};

// What stands before the body, as numbers; the sequence number of an old line, which has none, is 0.
#[derive(Clone, Copy)]
pub struct Head {
    pub sequence: u64,
    pub stamp: u64,
    pub facility: u64,
    pub kind: MessageType,
}

// The type of these letters, if the rule has it.
pub(crate) fn kind_of(rule: Rule, letters: &[u8]) -> Option<MessageType>
    ensures { result ≡ type_by rule letters.now }
{
    let kind = MessageType::read(letters)?;
    // (an `if`: over `filter` the proof did not close)
    if !table::has_type(rule, kind) {
        return None;
    }
    Some(kind)
}

fn read_new_head(line: &[u8]) -> Result<Head, Refusal>
    requires { head_length New ≤ length line.now }
    ensures { result ≡ head_of New line.now }
{
    let sequence = Sequence::read(&line[0..STAMP_AT]).ok_or(Refusal::NoSequence)?;
    let stamp = Stamp::read(&line[STAMP_AT..FACILITY_AT]).ok_or(Refusal::NoStamp)?;
    let facility = Facility::read(&line[FACILITY_AT..TYPE_AT]).ok_or(Refusal::NoFacility)?;
    let kind = kind_of(Rule::New, &line[TYPE_AT..BODY_AT]).ok_or(Refusal::NoType)?;
    Ok(Head {
        sequence: sequence.0,
        stamp: stamp.0,
        facility: facility.0,
        kind,
    })
}

// (A function for each rule: the heads have other parts.)
fn read_old_head(line: &[u8]) -> Result<Head, Refusal>
    requires { head_length Old ≤ length line.now }
    ensures { result ≡ head_of Old line.now }
{
    let stamp = words::read(rules::OLD_STAMP, &line[0..OLD_CENTER_AT]).ok_or(Refusal::NoStamp)?;
    let facility = words::read(rules::LETTER, &line[OLD_CENTER_AT..OLD_TYPE_AT]).ok_or(
        Refusal::NoFacility,
    )?;
    let kind = kind_of(Rule::Old, &line[OLD_TYPE_AT..OLD_BODY_AT]).ok_or(Refusal::NoType)?;
    Ok(Head {
        sequence: 0,
        stamp,
        facility,
        kind,
    })
}

pub(crate) fn read_head(rule: Rule, line: &[u8]) -> Result<Head, Refusal>
    requires { head_length rule ≤ length line.now }
    ensures { result ≡ head_of rule line.now }
{
    match rule {
        Rule::New => read_new_head(line),
        Rule::Old => read_old_head(line),
    }
}
