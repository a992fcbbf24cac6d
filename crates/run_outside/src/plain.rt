// Values that may leave the program whatever their type (ECMA-335, I.12.1.1.2).

ghost use Rattle.std.specs.Prelude.{◌≡◌};
ghost use Rattle.cil_semantics.specs.Outside.{is_plain};
ghost use Rattle.cil_semantics.specs.Words.{all};

use cil_model::{Value, Values};
use cil_semantics::World;
use run_heap::object_of;

#[cycle(plain)]
fn are_plain(world: &World, values: &Values) -> bool
    ensures { result ≡ all (is_plain world.now) values.now }
{
    for v in values.as_slice() {
        if !is_plain(world, v) {
            return false;
        }
    }
    true
}

/// Whether there is neither a pointer, nor a function, nor an object that isn't there, at any depth.
#[cycle(plain)]
pub(crate) fn is_plain(world: &World, v: &Value) -> bool
    ensures { result ≡ is_plain world.now v.now }
{
    match v {
        Value::Obj(k) => object_of(world, *k).is_some(),
        Value::Ptr(_) => false,
        Value::Func { .. } => false,
        Value::Struct(parts) => are_plain(world, parts),
        _ => true,
    }
}
