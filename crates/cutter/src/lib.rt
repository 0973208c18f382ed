// Lines out of the bytes of a feed that comes in parts cut anywhere (document 01, "Cutting"). The bytes of a begun line
// stand at the start of a buffer that the caller lends. (Buffer and state are two arguments and no struct: the one is lent, the other handed on by value.)
#![tactic(auto)]

ghost use Rattle.std.specs.Prelude.{◌≡◌, take};
ghost use Rattle.cutter.specs.State.{is_allowed, more_in, held_more};
ghost use Rattle.cutter.specs.Calls.{at_start, close_of, held_closed, cut_of, held_cut, end_of, line_in};
ghost use Rattle.cutter.specs.Cases.{CutIs, EndIs};

use rules::{LINE_FEED, LONGEST_LINE};
use shapes::find;
use shapes::sweeps::find_far;
use text::writing::put_bytes;

// How much of the buffer is the begun line; or the mark that it is overlong, which stands in place of its bytes. (No
// Option: an overlong line is begun too, and is told as 2 when it ends.)
#[derive(Clone, Copy)]
pub enum Begun {
    Held(usize),
    Overlong,
}

// What `cut` answers: 0 and no line ended; 0 and the line that ended, so many bytes of the buffer or of the part; 2; 13. (No
// Result: three of the five are no refusals, and 2 uses up its bytes as they do.)
#[derive(Clone, Copy)]
pub enum CutAnswer {
    Taken,
    InBuffer(usize),
    InPart(usize),
    TooLong,
    NotAllowed,
}

#[derive(Clone, Copy)]
pub struct AfterCut {
    pub answer: CutAnswer,
    pub used: usize,
    pub begun: Begun,
}

// What `end` answers: 0, 17, 13. (No Result: after 17 too the state is a new one, a line's start.)
#[derive(Clone, Copy)]
pub enum EndAnswer {
    AtStart,
    InsideLine,
    NotAllowed,
}

#[derive(Clone, Copy)]
pub struct AfterEnd {
    pub answer: EndAnswer,
    pub begun: Begun,
}

pub fn is_allowed(held: &[u8], begun: Begun) -> bool
    ensures { result ≡ is_allowed held.now begun }
{
    if held.len() != LONGEST_LINE {
        return false;
    }
    match begun {
        Begun::Overlong => true,
        Begun::Held(n) => {
            if n > LONGEST_LINE {
                return false;
            }
            let found = find(LINE_FEED, &held[..n]);
            found == n
        }
    }
}

fn at_start(begun: Begun) -> bool
    ensures { result ≡ at_start begun }
{
    match begun {
        Begun::Held(n) => n == 0,
        Begun::Overlong => false,
    }
}

// The begun line with these bytes more, which the buffer takes up if the line still fits.
fn hold(held: &mut [u8], begun: Begun, bytes: &[u8]) -> Begun
    ensures value { result ≡ more_in held.old begun bytes.now }
    ensures held_after { held.new ≡ held_more held.old begun bytes.now }
{
    let Begun::Held(n) = begun else {
        return Begun::Overlong;
    };
    let written = put_bytes(bytes, held, n);
    match written {
        Ok(next) => Begun::Held(next),
        Err(_) => Begun::Overlong,
    }
}

// The line that ends after these bytes. One that begins with them lies whole in them, and is not copied.
fn close(held: &mut [u8], begun: Begun, bytes: &[u8]) -> CutAnswer
    ensures value { result ≡ close_of held.old begun bytes.now }
    ensures held_after { held.new ≡ held_closed held.old begun bytes.now }
{
    if at_start(begun) {
        if bytes.len() > held.len() {
            return CutAnswer::TooLong;
        }
        return CutAnswer::InPart(bytes.len());
    }
    let whole = hold(held, begun, bytes);
    match whole {
        Begun::Held(n) => CutAnswer::InBuffer(n),
        Begun::Overlong => CutAnswer::TooLong,
    }
}

// Takes the part up to and with its first line feed, else all of it.
pub fn cut(held: &mut [u8], begun: Begun, part: &[u8]) -> AfterCut
    ensures value { result ≡ cut_of held.old begun part.now }
    ensures held_after { held.new ≡ held_cut held.old begun part.now }
    ensures cut_is { CutIs held.old begun part.now result held.new }
{
    if !is_allowed(&held[..], begun) {
        return AfterCut {
            answer: CutAnswer::NotAllowed,
            used: 0,
            begun,
        };
    }
    let n = find_far(LINE_FEED, part);
    if n == part.len() {
        let begun = hold(held, begun, part);
        return AfterCut {
            answer: CutAnswer::Taken,
            used: n,
            begun,
        };
    }
    let answer = close(held, begun, &part[..n]);
    AfterCut {
        answer,
        used: n + 1,
        begun: Begun::Held(0),
    }
}

// The end of the feed. The buffer stays as it is.
pub fn end(held: &[u8], begun: Begun) -> AfterEnd
    ensures value { result ≡ end_of held.now begun }
    ensures end_is { EndIs held.now begun result }
{
    if !is_allowed(held, begun) {
        return AfterEnd {
            answer: EndAnswer::NotAllowed,
            begun,
        };
    }
    if at_start(begun) {
        return AfterEnd {
            answer: EndAnswer::AtStart,
            begun,
        };
    }
    AfterEnd {
        answer: EndAnswer::InsideLine,
        begun: Begun::Held(0),
    }
}

// The first n bytes, or all where there are fewer.
fn first<'a>(n: usize, s: &'a [u8]) -> &'a [u8]
    ensures { result.now ≡ take n s.now }
{
    if n > s.len() {
        return s;
    }
    &s[..n]
}

// The line that `cut` told of, where held is the buffer as `cut` left it and part what `cut` was given; else an empty part.
pub fn line<'a>(answer: CutAnswer, held: &'a [u8], part: &'a [u8]) -> &'a [u8]
    ensures { result.now ≡ line_in answer held.now part.now }
{
    match answer {
        CutAnswer::InBuffer(n) => first(n, held),
        CutAnswer::InPart(n) => first(n, part),
        _ => first(0, part),
    }
}
