// Values that methods return (ECMA-335, III.3.57 and III.1.6).

ghost use Rattle.std.specs.Prelude.{◌≡◌, IfOk};
ghost use Rattle.cil_semantics.specs.Places.{is_void, storage};
ghost use Rattle.cil_semantics.specs.Returns.{kept_as, result_type, returned};
ghost use Rattle.run_returns.specs.Left.{left_of, popped};

use cil_model::{Program, Ty, Value};
use cil_semantics::{Frame, Stack};
use il_opcodes::Storage;
use look_ups::ty_under;
use run_values::{storage_of, stored_by_type};
use std::alloc::{AllocError, Global};

fn is_nothing(storage: Storage) -> bool
    ensures { result ≡ is_void storage }
{
    matches!(storage, Storage::Void)
}

/// The closed type that a frame's method returns.
#[tactic(auto, unfolding(cil_semantics::specs::Lookups::no_method))]
pub fn result_type(alloc: Global, program: &Program, frame: &Frame) -> Result<Ty, AllocError>
    ensures { IfOk result (λ ty. ty ≡ result_type program.now frame.now) }
{
    match program.methods.get(frame.method as usize) {
        Some(desc) => ty_under(
            alloc,
            &desc.result,
            frame.type_args.as_slice(),
            frame.method_args.as_slice(),
        ),
        None => Ok(Ty::Prim(0x01)),
    }
}

// What a place of a type keeps of the value on top, or nothing where it has none.
#[tactic(auto, using(crate::proofs::ReturnLaws::nothing_kept, crate::proofs::ReturnLaws::nothing_left, crate::proofs::ReturnLaws::none_there, crate::proofs::ReturnLaws::none_left, crate::proofs::ReturnLaws::top_left, crate::proofs::ReturnLaws::none_stored, crate::proofs::ReturnLaws::some_stored))]
fn kept_as(
    alloc: Global,
    program: &Program,
    ty: &Ty,
    stack: &mut Stack,
) -> Result<Option<Option<Value>>, AllocError>
    ensures value { IfOk result (λ v. v ≡ kept_as program.now ty.now (storage program.now ty.now) stack.old) }
    ensures left { IfOk result (λ _. stack.new ≡ left_of (storage program.now ty.now) stack.old) }
{
    if is_nothing(storage_of(program, ty)) {
        return Ok(Some(None));
    }
    match stack.pop() {
        None => Ok(None),
        Some(v) => match stored_by_type(alloc, program, ty, v)? {
            None => Ok(None),
            Some(v) => Ok(Some(Some(v))),
        },
    }
}

/// What a frame's method returns: nothing, or the value on top of the stack as a place of the result's type keeps it; `None` where no such
/// value is there. The stack loses the value.
pub fn returned(
    alloc: Global,
    program: &Program,
    frame: &mut Frame,
) -> Result<Option<Option<Value>>, AllocError>
    ensures value { IfOk result (λ v. v ≡ returned program.now frame.old frame.old.local.stack) }
    ensures left { IfOk result (λ _. frame.new ≡ popped program.now frame.old) }
{
    let ty = result_type(alloc, program, frame)?;
    let v = kept_as(alloc, program, &ty, &mut frame.local.stack)?;
    Ok(v)
}
