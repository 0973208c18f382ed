// The body of a message with fields: each field after one space, none empty, at the end at most one space more.
ghost use Rattle.std.specs.Prelude.{◌≡◌, ◌+◌, ◌-◌, ◌<◌, ◌≤◌, length, take, drop};
ghost use Rattle.shapes.specs.Picture.{starts_at};
ghost use Rattle.table.specs.Spacing.{count_of, end_of};

use shapes::find;
use shapes::sweeps::{has_twice, how_many};

// The field after the space at an index: what stands before the next space, or before the body's end.
pub(crate) fn field_after<'a>(body: &'a [u8], at: usize) -> &'a [u8]
    requires { at < length body.now }
    ensures value { result.now ≡ take (end_of body.now (at + 1) - (at + 1)) (drop (at + 1) body.now) }
    ensures size { at + 1 + length result.now ≡ end_of body.now (at + 1) }
    ensures inside { at + 1 + length result.now ≤ length body.now }
    ensures ref_ptr_value { result.ref_ptr ≡ starts_at body.entry.ref_ptr (at + 1) }
{
    let rest = &body[at + 1..];
    &rest[..find(b' ', rest)]
}

pub(crate) fn count(body: &[u8]) -> Option<(usize, bool)>
    ensures { result ≡ count_of body.now }
{
    if body.len() == 0 {
        return Some((0, false));
    }
    if body[0] != b' ' {
        return None;
    }
    if has_twice(b' ', body) {
        return None;
    }
    let last = body.len() - 1;
    Some((how_many(b' ', &body[..last]), body[last] == b' '))
}
