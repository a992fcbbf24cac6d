// The own contract of a method of a program.

ghost use Rattle.std.specs.Prelude.{◌≡◌, ◌<◌, ◌^◌, Some, None, length, IsSome, IfOk};
ghost use Rattle.cil_base.specs.Refusals.{OnRefused, first_of};
ghost use Rattle.cil_semantics.specs.Lookups.{method_of};
ghost use Rattle.cil_semantics.specs.Unwind.{body_of};
ghost use Rattle.il_flow.specs.Heights.{IsTold};
ghost use Rattle.contract_extract.specs.OwnContract.{own_contract};
ghost use Rattle.contract_extract.specs.Rules.{tests};
ghost use Rattle.contract_extract.specs.Methods.{code_with, method_code, HasContract, BreaksContract};

use crate::own::own_contract_of;
use cil_base::Fault;
use cil_model::{Body, Contract, MethodDesc, Program};
use contract_parts::Code;
use il_flow::{Heights, heights};
use std::alloc::Global;

/// The contract of a body, by what was found of its stack.
fn body_contract(
    alloc: Global,
    program: &Program,
    m: u32,
    own: &MethodDesc,
    body: &Body,
    found: &Heights,
) -> Result<Contract, Fault>
    requires own { own.now ≡ method_of program.now m }
    requires few { length body.now.instrs < 2 ^ 31 }
    requires told { IsTold body.now found.now }
    ensures right { let c = code_with program.now m body.now found.now in IfOk result (λ contract. (contract ≡ own_contract c) × (first_of (tests c) ≡ None)) }
    ensures wrong { let c = code_with program.now m body.now found.now in OnRefused result (λ r. first_of (tests c) ≡ Some r) }
{
    let code = Code::new(
        program,
        m,
        own,
        body,
        &found.heights,
        found.reached.as_slice(),
    );
    own_contract_of(alloc, &code)
}

fn method_contract(
    alloc: Global,
    program: &Program,
    m: u32,
    found: &Heights,
) -> Result<Contract, Fault>
    requires there { m < length program.now.methods }
    requires body { IsSome (method_of program.now m).body }
    requires few { length (body_of program.now m).instrs < 2 ^ 31 }
    requires told { IsTold (body_of program.now m) found.now }
    ensures right { let c = method_code program.now m found.now in IfOk result (λ contract. (contract ≡ own_contract c) × (first_of (tests c) ≡ None)) }
    ensures wrong { let c = method_code program.now m found.now in OnRefused result (λ r. first_of (tests c) ≡ Some r) }
{
    match program.methods.get(m as usize) {
        Some(own) => match &own.body {
            Some(body) => body_contract(alloc, program, m, own, body, found),
            None => unreachable!(),
        },
        None => unreachable!(),
    }
}

/// The own contract of a method that has a body. It is refused by I6, where nothing breaks that by I4,
/// and where the body has heights by the first of C1 to C7, by place and then by rule.
pub fn own_contract(alloc: Global, program: &Program, m: u32) -> Result<Contract, Fault>
    requires there { m < length program.now.methods }
    requires body { IsSome (method_of program.now m).body }
    requires few { length (body_of program.now m).instrs < 2 ^ 31 }
    ensures right { IfOk result (HasContract program.now m) }
    ensures wrong { OnRefused result (BreaksContract program.now m) }
{
    let found = heights(alloc, program, m)?;
    method_contract(alloc, program, m, &found)
}
