// A body of fields by a list of their kinds: read, and its route found. Document 01's table is such a list for each type.
ghost use Rattle.std.specs.Prelude.{◌≡◌, [], Err};
ghost use Rattle.table.specs.Read.{Ready, padded, fault_at, answer_of, values_of, route_of, route_at};
ghost use Rattle.shapes.specs.Picture.{starts_at};
ghost use Rattle.table.specs.declared.walk.Fault.TheVariants.{Spacing};

use crate::kinds::{NotRead, ROUTE, Value};
use crate::{field, kinds, spacing};

// What is wrong with a body: its spacing or its count of fields (answer 8), or the first field that is at fault, with its
// place (9, 10).
#[derive(Clone, Copy, PartialEq, Eq)]
pub enum Fault {
    Spacing,
    Field(usize),
    Number(usize),
}

// The answer, and the values of the fields that were read; after these only zeros.
#[derive(Clone, Copy)]
pub struct TableRead {
    pub answer: Result<(bool, u8), Fault>,
    pub values: [Value; 19],
}

// What a field that is not read makes of the whole body.
fn as_fault(read: NotRead, place: usize) -> Fault
    ensures { result ≡ fault_at place (Err read) }
{
    match read {
        NotRead::Nothing => Fault::Field(place),
        NotRead::Number => Fault::Number(place),
    }
}

// The spacing or the count is wrong.
pub(crate) fn refused() -> TableRead
    ensures answer_value { result.answer ≡ Err Spacing }
    ensures values_value { result.values ≡ padded [] }
{
    TableRead {
        answer: Err(Fault::Spacing),
        values: [Value::NONE; 19],
    }
}

// Reads a body that has as many fields as there are kinds, until one is not read; `trailing` is whether a space stands at its end.
pub(crate) fn read(kinds: &[u8], body: &[u8], trailing: bool) -> TableRead
    requires { Ready kinds.now body.now trailing }
    ensures answer_value { result.answer ≡ answer_of kinds.now body.now }
    ensures values_value { result.values ≡ padded (values_of kinds.now body.now) }
{
    let mut values = [Value::NONE; 19];
    let mut at: usize = 0;
    let mut trace: u8 = 0;
    let mut marks: u8 = 0;
    for (k, &kind) in kinds.iter().enumerate() {
        let field = spacing::field_after(body, at);
        let value = match field::read_field(kind, trace, marks, field) {
            Ok(value) => value,
            Err(read) => {
                return TableRead {
                    answer: Err(as_fault(read, k + 1)),
                    values,
                };
            }
        };
        values[k] = value;
        marks = kinds::marks_after(kind, marks, field);
        trace = kinds::trace(kind, field);
        at += 1 + field.len();
    }
    TableRead {
        answer: Ok((trailing, marks)),
        values,
    }
}

// The route among the fields, as a part of the body; an empty part where there is none.
pub(crate) fn route<'a>(kinds: &[u8], body: &'a [u8]) -> &'a [u8]
    ensures result_value { result.now ≡ route_of kinds.now body.now }
    ensures ref_ptr_value { result.ref_ptr ≡ starts_at body.entry.ref_ptr (route_at kinds.now body.now) }
{
    let Some((n, _)) = spacing::count(body) else {
        return &body[..0];
    };
    let mut at: usize = 0;
    let mut trace: u8 = 0;
    for &kind in &kinds[..n.min(kinds.len())] {
        let field = spacing::field_after(body, at);
        if kinds::plain(kind, trace) == ROUTE {
            return field;
        }
        trace = kinds::trace(kind, field);
        at += 1 + field.len();
    }
    &body[..0]
}
