// Why was this line refused? For each line of a feed one line of text: its number, document 01's answer and place, its type and its flight's
// key. Memory is fixed, whatever the feed; no board is needed. The caller names the rule by which the lines are read.
#![tactic(auto)]

ghost use Rattle.std.specs.Prelude.{◌≡◌, true, suc, ◌+◌, ◌≤◌, ◌<◌, ◌^◌, length, take};
ghost use Rattle.text.specs.Text.{packed, spliced};
ghost use Rattle.fields.specs.MessageType.{type_text};
ghost use Rattle.cutter.specs.State.{state_in};
ghost use Rattle.cutter.specs.Calls.{line_in};
ghost use Rattle.cutter.specs.Cases.{told_by};
ghost use Rattle.rules.specs.declared.Rule.TheVariants.{New, Old};
ghost use Rattle.line.specs.Read.{read_by};
ghost use Rattle.checks.specs.Part.{body_verdict, refused_verdict, verdict_by, judged_of, is_verdict, verdict_text, verdict_said, counted, longest_saying, Adds, Ready, StepReady, Steps, Continues, torn_in, EndReady, EndsFeed};

use cutter::{Begun, CutAnswer, EndAnswer, cut, line};
use fields::heads::MessageType;
use line::Refusal;
use messages::{Body, key_in, type_in};
use printer::put_count;
use printer::slips::put_part;
use rules::Rule;
use text::pack_known;

// No line of text is longer.
pub const LONGEST_SAYING: usize = 90;

// The rule by which lines are read, and whether the refused ones alone are told.
#[derive(Clone, Copy)]
pub struct Asked {
    pub rule: Rule,
    pub refused: bool,
}

// What is kept from part to part: the cutter's state, how many lines ended, and how many of these read.
#[derive(Clone, Copy)]
pub struct Sums {
    pub begun: Begun,
    pub lines: usize,
    pub read: usize,
}

// What is said of a line but for its number: document 01's answer and place, and the words of its type and its flight's key, 0 where there is none.
// (Numbers and words, since as such they are written; the refusal itself is `line::Refusal`.)
#[derive(Clone, Copy)]
pub struct Verdict {
    pub answer: u64,
    pub place: u64,
    pub kind: u64,
    pub key: u64,
}

// How far a step came: the counts, how many bytes of the part it used, and the place after what it wrote.
#[derive(Clone, Copy)]
pub struct Turn {
    pub sums: Sums,
    pub used: usize,
    pub next: usize,
}

// After a part: the counts, and how many bytes were written.
#[derive(Clone, Copy)]
pub struct Said {
    pub sums: Sums,
    pub size: usize,
}

// The word of a type's two letters.
fn type_word(kind: MessageType) -> u64
    ensures { result ≡ packed (type_text kind) }
{
    // a fixed room: nothing is put on the heap
    let mut letters = [0u8; 2];
    let _ = kind.put(&mut letters, 0);
    pack_known(&letters)
}

// A line that reads has no answer but 0, and no place; its type and its key are those of its body.
fn of_body(body: Body) -> Verdict
    ensures { result ≡ body_verdict body }
{
    Verdict {
        answer: 0,
        place: 0,
        kind: type_word(type_in(body)),
        key: key_in(body),
    }
}

// A refused line has neither type nor key.
fn of_refusal(refusal: Refusal) -> Verdict
    ensures { result ≡ refused_verdict refusal }
{
    Verdict {
        answer: refusal.number() as u64,
        place: refusal.place() as u64,
        kind: 0,
        key: 0,
    }
}

// What is said of a line of the feed that is not overlong.
fn judge_new(line: &[u8]) -> Verdict
    ensures { result ≡ verdict_by (read_by New line.now) }
{
    match line::read(line) {
        Ok(m) => of_body(m.body),
        Err(refusal) => of_refusal(refusal),
    }
}

// The same of a line of the old feed. (Two functions: the messages are of two types.)
fn judge_old(line: &[u8]) -> Verdict
    ensures { result ≡ verdict_by (read_by Old line.now) }
{
    match line::read_old(line) {
        Ok(m) => of_body(m.body),
        Err(refusal) => of_refusal(refusal),
    }
}

// What is said of a line that is not overlong, read under the rule.
fn judge_line(rule: Rule, line: &[u8]) -> Verdict
    ensures { result ≡ verdict_by (read_by rule line.now) }
{
    match rule {
        Rule::New => judge_new(line),
        Rule::Old => judge_old(line),
    }
}

// Of the line that a cut told of, if it did. An overlong one answers 2.
fn judge<'a>(rule: Rule, answer: CutAnswer, held: &'a [u8], rest: &'a [u8]) -> Option<Verdict>
    ensures { result ≡ judged_of rule (told_by answer (line_in answer held.now rest.now)) }
{
    match answer {
        CutAnswer::InBuffer(_) => Some(judge_line(rule, line(answer, held, rest))),
        CutAnswer::InPart(_) => Some(judge_line(rule, line(answer, held, rest))),
        CutAnswer::TooLong => Some(Verdict {
            answer: 2,
            place: 0,
            kind: 0,
            key: 0,
        }),
        _ => None,
    }
}

// Writes the line of text of the n-th line from place `at`; the place after it.
fn put(n: u64, verdict: Verdict, out: &mut [u8], at: usize) -> usize
    requires verdict_value { is_verdict verdict ≡ true }
    requires longest_saying_in_bounds { at + longest_saying ≤ length out.old }
    ensures value { result ≡ at + length (verdict_text n verdict) }
    ensures out_after { out.new ≡ spliced out.old at (verdict_text n verdict) }
{
    let j = put_count(b"", n, b' ', out, at);
    let j = put_count(b"", verdict.answer, b' ', out, j);
    let j = put_count(b"", verdict.place, b' ', out, j);
    let j = put_part(verdict.kind, b' ', out, j);
    put_part(verdict.key, b'\n', out, j)
}

// One line more: what is said of it, from place `at`; the place after it. Where only the refused lines are asked for, nothing is said of a line that reads.
fn say(only: bool, n: u64, verdict: Verdict, out: &mut [u8], at: usize) -> usize
    requires verdict_value { is_verdict verdict ≡ true }
    requires longest_saying_in_bounds { at + longest_saying ≤ length out.old }
    ensures value { result ≡ at + length (verdict_said only n verdict) }
    ensures out_after { out.new ≡ spliced out.old at (verdict_said only n verdict) }
{
    if only && verdict.answer == 0 {
        return at;
    }
    put(n, verdict, out, at)
}

// A line is counted, also where nothing is said of it.
fn count(sums: Sums, verdict: Verdict) -> Sums
    requires { (sums.lines + 1 < 2 ^ 64) × (sums.read ≤ sums.lines) }
    ensures { result ≡ counted sums verdict }
{
    let reads = if verdict.answer == 0 { 1 } else { 0 };
    Sums {
        begun: sums.begun,
        lines: sums.lines + 1,
        read: sums.read + reads,
    }
}

// One line of what is left of the part, or all of it where no line ends there.
fn step(held: &mut [u8], asked: Asked, sums: Sums, rest: &[u8], out: &mut [u8], at: usize) -> Turn
    requires { StepReady held.old sums rest.now out.old at }
    ensures { Steps asked held.old sums rest.now out.old at held.new result out.new }
{
    let done = cut(held, sums.begun, rest);
    let sums = Sums {
        begun: done.begun,
        lines: sums.lines,
        read: sums.read,
    };
    let judged = judge(asked.rule, done.answer, &held[..], rest);
    match judged {
        Some(verdict) => {
            let next = say(asked.refused, (sums.lines + 1) as u64, verdict, out, at);
            let sums = count(sums, verdict);
            Turn {
                sums,
                used: done.used,
                next,
            }
        }
        None => Turn {
            sums,
            used: done.used,
            next: at,
        },
    }
}

// Cuts the part into its lines, and writes what is said of them from the start of out: a part of any size, with room for a line of text for each of
// its bytes.
pub fn check(held: &mut [u8], asked: Asked, sums: Sums, part: &[u8], out: &mut [u8]) -> Said
    requires { Ready held.old sums part.now (length out.old) }
    ensures adds { Adds asked held.old sums part.now out.old 0 held.new result.sums out.new result.size }
    ensures size_in_bounds { result.size ≤ length out.new }
    ensures continues { Continues asked held.old sums part.now held.new result.sums (take result.size out.new) }
{
    let mut now = sums;
    let mut rest = part;
    let mut at = 0;
    // how far a turn comes its line decides, so it is a `while`
    while !rest.is_empty() {
        let turn = step(held, asked, now, rest, out, at);
        now = turn.sums;
        rest = &rest[turn.used..];
        at = turn.next;
    }
    Said {
        sums: now,
        size: at,
    }
}

// The end of the feed: an unended rest is no line, and answers 17. Writes what is said of it at the start of out.
pub fn end(held: &[u8], sums: Sums, out: &mut [u8]) -> usize
    requires { EndReady held.now sums (length out.old) }
    ensures value { result ≡ length (torn_in (suc sums.lines) (state_in held.now sums.begun)) }
    ensures out_after { out.new ≡ spliced out.old 0 (torn_in (suc sums.lines) (state_in held.now sums.begun)) }
    ensures ends_feed { EndsFeed held.now sums (take result out.new) }
{
    let end = cutter::end(held, sums.begun);
    match end.answer {
        EndAnswer::InsideLine => put(
            (sums.lines + 1) as u64,
            Verdict {
                answer: 17,
                place: 0,
                kind: 0,
                key: 0,
            },
            out,
            0,
        ),
        _ => 0,
    }
}
