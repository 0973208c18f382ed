// The kinds of fields of document 01's table: what an amendment's number asks for, and what one field leaves for the next.
ghost use Rattle.std.specs.Prelude.{◌≡◌};
ghost use Rattle.rules.specs.declared.Rule.TheVariants.{Old};
ghost use Rattle.table.specs.Field.{kind_by, mark_of, content_of, plain as plainly, trace_of, marks_of, follows as following, valued, ident_in, aircraft_in, is_one};

use fields::aircraft::Aircraft;
use fields::flight::{ComputerNumber, Key};
use fields::idents::Ident;
use rules::is_position;

// The kinds that are no single text; the others are those of `rules`. Letters and no enum: a row of the table is a string of them,
// and the contracts (`dotted`, `table_by`) speak of lists of letters.
pub const IDENT: u8 = b'I';

pub const TZ_IDENT: u8 = b'J';

pub const AIRCRAFT: u8 = b'Z';

pub const ROUTE: u8 = b'R';

// The time of FZ and UZ, which the E rule ties to the fix before it.
pub const PLAN_TIME: u8 = b'H';

// An amendment's number, and its content, which is what the number before it asks for.
pub const AMENDMENT: u8 = b'B';

pub const CONTENT: u8 = b'W';

// The same of the old feed, in small letters: an aircraft without a last letter, and the content there.
pub const OLD_AIRCRAFT: u8 = b'z';

pub const OLD_CONTENT: u8 = b'w';

// The marks of the eight numbers of an amendment, a bit each: together they are a set in one byte, whose ones are counted.
pub const MARK_02: u8 = 1;

pub const MARK_03: u8 = 2;

pub const MARK_05: u8 = 4;

pub const MARK_06: u8 = 8;

pub const MARK_07: u8 = 16;

pub const MARK_08: u8 = 32;

pub const MARK_09: u8 = 64;

pub const MARK_10: u8 = 128;

// The same marks as a value keeps them. They have names too since an arm of a match takes no `MARK_02 as u64`, and a value's word may be
// more than a u8: a cast of it would take 257 for 1.
pub const KEPT_02: u64 = MARK_02 as u64;

pub const KEPT_03: u64 = MARK_03 as u64;

pub const KEPT_05: u64 = MARK_05 as u64;

pub const KEPT_06: u64 = MARK_06 as u64;

pub const KEPT_07: u64 = MARK_07 as u64;

pub const KEPT_08: u64 = MARK_08 as u64;

pub const KEPT_09: u64 = MARK_09 as u64;

pub const KEPT_10: u64 = MARK_10 as u64;

// What is kept of a field: its word; an ident's key and number; an aircraft's prefix, type and letter; of a route nothing.
// Parts that a field has not are 0.
#[derive(Clone, Copy)]
pub struct Value {
    pub a: u64,
    pub b: u64,
    pub c: u64,
}

impl Value {
    // Of a field that keeps nothing.
    pub const NONE: Value = Value { a: 0, b: 0, c: 0 };

    // Of a field that is one word.
    pub fn word(a: u64) -> Value
        ensures { result ≡ valued a 0 0 }
    {
        Value { a, b: 0, c: 0 }
    }

    // Whether it is one word.
    #[tactic(auto, unfolding(crate::specs::Field::is_one))]
    pub fn is_one(self) -> bool
        ensures { result ≡ is_one self }
    {
        self.b == 0 && self.c == 0
    }
}

impl From<Ident> for Value {
    ghost from_gives = { λ i v. v ≡ valued i.key.0 i.number.0 0 };

    fn from(ident: Ident) -> Value {
        Value {
            a: ident.key.0,
            b: ident.number.0,
            c: 0,
        }
    }
}

impl From<Aircraft> for Value {
    ghost from_gives = { λ x v. v ≡ valued x.prefix x.model x.letter };

    fn from(aircraft: Aircraft) -> Value {
        Value {
            a: aircraft.prefix,
            b: aircraft.model,
            c: aircraft.letter,
        }
    }
}

impl From<Value> for Ident {
    ghost from_gives = { λ v i. i ≡ ident_in v };

    fn from(v: Value) -> Ident {
        Ident {
            key: Key(v.a),
            number: ComputerNumber(v.b),
        }
    }
}

impl From<Value> for Aircraft {
    ghost from_gives = { λ v x. x ≡ aircraft_in v };

    fn from(v: Value) -> Aircraft {
        Aircraft {
            prefix: v.a,
            model: v.b,
            letter: v.c,
        }
    }
}

// Why a field is not read: it has no reading (answer 9); its number is none of the eight or came before (10).
#[derive(Clone, Copy, PartialEq, Eq)]
pub enum NotRead {
    Nothing,
    Number,
}

// The mark of an amendment's number, one of eight bits, or 0 for what is none of the eight.
pub(crate) fn mark(s: &[u8]) -> u8
    ensures { result ≡ mark_of s.now }
{
    if s.len() != 2 {
        return 0;
    }
    if s[0] == b'1' {
        if s[1] == b'0' {
            return MARK_10;
        }
        return 0;
    }
    if s[0] != b'0' {
        return 0;
    }
    let last = s[1];
    match last {
        b'2' => MARK_02,
        b'3' => MARK_03,
        b'5' => MARK_05,
        b'6' => MARK_06,
        b'7' => MARK_07,
        b'8' => MARK_08,
        b'9' => MARK_09,
        _ => 0,
    }
}

// The kind of content that the number with this mark asks for.
pub(crate) fn content(mark: u8) -> u8
    ensures { result ≡ content_of mark }
{
    match mark {
        MARK_02 => IDENT,
        MARK_03 => AIRCRAFT,
        MARK_05 => rules::FILED_SPEED,
        MARK_06 => rules::FIX,
        MARK_07 => rules::TIME,
        MARK_08 => rules::LEVEL,
        MARK_09 => rules::LEVEL,
        MARK_10 => ROUTE,
        _ => 0,
    }
}

// The same of the old feed.
pub(crate) fn old_content(mark: u8) -> u8
    ensures { result ≡ kind_by Old (content_of mark) }
{
    match mark {
        MARK_03 => OLD_AIRCRAFT,
        _ => content(mark),
    }
}

// The kind by which a field is read, after the trace of the field before it.
pub fn plain(kind: u8, trace: u8) -> u8
    ensures { result ≡ plainly kind trace }
{
    match kind {
        CONTENT => content(trace),
        OLD_CONTENT => old_content(trace),
        PLAN_TIME => rules::TIME,
        _ => kind,
    }
}

// What a field leaves for the next one: a number its mark, a fix whether it is a position.
#[tactic(auto, unfolding(crate::specs::Field::trace_of))]
pub fn trace(kind: u8, s: &[u8]) -> u8
    ensures { result ≡ trace_of kind s.now }
{
    match kind {
        AMENDMENT => mark(s),
        rules::FIX if is_position(s) => 1,
        _ => 0,
    }
}

// The marks set after a field.
pub fn marks_after(kind: u8, marks: u8, s: &[u8]) -> u8
    ensures { result ≡ marks_of kind marks s.now }
{
    if kind == AMENDMENT {
        return marks | mark(s);
    }
    marks
}

// Whether a field may follow: no number comes twice, and a time with E follows a fix that is a position.
#[tactic(auto, unfolding(crate::specs::Field::follows))]
pub fn follows(kind: u8, trace: u8, marks: u8, s: &[u8]) -> bool
    ensures { result ≡ following kind trace marks s.now }
{
    match kind {
        AMENDMENT => marks & mark(s) == 0,
        PLAN_TIME => s.len() == 0 || s[0] != b'E' || trace == 1,
        _ => true,
    }
}
