// References and pointers compared (ECMA-335, III.1.5, table 4).

ghost use Rattle.std.specs.Prelude.{◌≡◌, option_and_then};
ghost use Rattle.cil_model.specs.declared.value.Pointer.{Pointer};
ghost use Rattle.cil_semantics.specs.Acts.{Referred, compare, compare_references, isnt_null, referred, same_place, same_reference};

use crate::operands::{number_in, pair_of};
use crate::small::compared_32;
use crate::wide::compared_64;
use cil_base::{U32s, Units};
use cil_model::{Pointer, Ty, Value};
use cil_semantics::Pair;
use il_opcodes::Comparison;
use look_ups::is_same;

fn is_same_argument(frame: u64, method: u32, index: u32, path: &U32s, other: &Pointer) -> bool
    ensures { result ≡ same_place (Pointer.Arg frame method index path.now) other.now }
{
    match other {
        Pointer::Arg {
            frame: g,
            method: n,
            index: j,
            path: others,
        } => frame == *g && method == *n && index == *j && path.as_slice() == others.as_slice(),
        _ => false,
    }
}

fn is_same_local(frame: u64, method: u32, index: u32, path: &U32s, other: &Pointer) -> bool
    ensures { result ≡ same_place (Pointer.Local frame method index path.now) other.now }
{
    match other {
        Pointer::Local {
            frame: g,
            method: n,
            index: j,
            path: others,
        } => frame == *g && method == *n && index == *j && path.as_slice() == others.as_slice(),
        _ => false,
    }
}

fn is_same_inside(object: u32, path: &U32s, other: &Pointer) -> bool
    ensures { result ≡ same_place (Pointer.Inside object path.now) other.now }
{
    match other {
        Pointer::Inside {
            object: k,
            path: others,
        } => object == *k && path.as_slice() == others.as_slice(),
        _ => false,
    }
}

fn is_same_static(owner: &Ty, field: u32, path: &U32s, other: &Pointer) -> bool
    ensures { result ≡ same_place (Pointer.Static owner.now field path.now) other.now }
{
    match other {
        Pointer::Static {
            owner: of,
            field: f,
            path: others,
        } => is_same(owner, of) && field == *f && path.as_slice() == others.as_slice(),
        _ => false,
    }
}

/// Whether two pointers lead to one place.
pub fn is_same_place(q: &Pointer, r: &Pointer) -> bool
    ensures { result ≡ same_place q.now r.now }
{
    match q {
        Pointer::Arg {
            frame,
            method,
            index,
            path,
        } => is_same_argument(*frame, *method, *index, path, r),
        Pointer::Local {
            frame,
            method,
            index,
            path,
        } => is_same_local(*frame, *method, *index, path, r),
        Pointer::Inside { object, path } => is_same_inside(*object, path, r),
        Pointer::Static { owner, field, path } => is_same_static(owner, *field, path, r),
    }
}

fn is_null(y: &Value) -> Option<bool>
    ensures { result ≡ same_reference Referred.ToNull (referred y.now) }
{
    match y {
        Value::Null => Some(true),
        Value::Obj(_) => Some(false),
        Value::Text(_) => Some(false),
        _ => None,
    }
}

fn is_object(k: u32, y: &Value) -> Option<bool>
    ensures { result ≡ same_reference (Referred.ToObject k) (referred y.now) }
{
    match y {
        Value::Null => Some(false),
        Value::Obj(j) => Some(k == *j),
        Value::Text(_) => Some(false),
        _ => None,
    }
}

fn is_text(units: &Units, y: &Value) -> Option<bool>
    ensures { result ≡ same_reference (Referred.ToText units.now) (referred y.now) }
{
    match y {
        Value::Null => Some(false),
        Value::Obj(_) => Some(false),
        Value::Text(others) => Some(units.as_slice() == others.as_slice()),
        _ => None,
    }
}

fn leads_to(q: &Pointer, y: &Value) -> Option<bool>
    ensures { result ≡ same_reference (Referred.ToPlace q.now) (referred y.now) }
{
    match y {
        Value::Ptr(r) => Some(is_same_place(q, r.get())),
        _ => None,
    }
}

/// Whether two references or pointers are the same: objects by number, texts by content, pointers by place.
pub fn are_same_references(x: &Value, y: &Value) -> Option<bool>
    ensures { result ≡ same_reference (referred x.now) (referred y.now) }
{
    match x {
        Value::Null => is_null(y),
        Value::Obj(k) => is_object(*k, y),
        Value::Text(units) => is_text(units, y),
        Value::Ptr(q) => leads_to(q.get(), y),
        _ => None,
    }
}

fn is_not_null(x: &Value, y: &Value) -> Option<bool>
    ensures { result ≡ isnt_null (referred x.now) (referred y.now) }
{
    if !matches!(y, Value::Null) {
        return None;
    }
    match x {
        Value::Null => Some(false),
        Value::Obj(_) => Some(true),
        Value::Text(_) => Some(true),
        _ => None,
    }
}

fn compared_references(test: Comparison, x: &Value, y: &Value) -> Option<bool>
    ensures { result ≡ compare_references test (referred x.now) (referred y.now) }
{
    match test {
        Comparison::Eq => are_same_references(x, y),
        Comparison::GtUn => is_not_null(x, y),
        _ => None,
    }
}

/// A comparison of two values; `None` where they aren't compared so.
#[tactic(auto, unfolding(cil_semantics::specs::Acts::compare))]
pub fn compare_values(test: Comparison, x: &Value, y: &Value) -> Option<bool>
    ensures { result ≡ compare test x.now y.now }
{
    match pair_of(number_in(x), number_in(y)) {
        Pair::Both4(a, b) => Some(compared_32(test, a, b)),
        Pair::Both8(a, b) => Some(compared_64(test, a, b)),
        Pair::BothNative(a, b) => Some(compared_64(test, a, b)),
        Pair::NoPair => compared_references(test, x, y),
    }
}
