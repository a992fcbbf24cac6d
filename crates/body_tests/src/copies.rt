// Copies of instructions.
use cil_base::{Bytes, U32s};
use cil_model::{Instance, Instances, Instr, Operand, Signatures, Ty, Tys, Under};
use sqlite_items::Boxed;
use std::alloc::{AllocError, Global};

/// An instance of a type with an array of int32 for its parameter.
fn instances(alloc: Global) -> Result<Instances, AllocError> {
    let mut type_args = Signatures::new(alloc);
    type_args.push(Bytes::from_slice(alloc, &[0x1D, 0x08])?)?;
    let mut all = Instances::new(alloc);
    all.push(Instance {
        assembly: 2,
        type_args,
        method_args: Signatures::new(alloc),
    })?;
    Ok(all)
}

fn array_for_a_parameter(alloc: Global) -> Result<Boxed<Under>, AllocError> {
    let mut type_args = Tys::new(alloc);
    type_args.push(Ty::Array(Boxed::new(alloc, Ty::Prim(8))?))?;
    let under = Under {
        type_args,
        method_args: Tys::new(alloc),
        instances: instances(alloc)?,
    };
    Ok(Boxed::new(alloc, under)?)
}

/// A switch, with an array for a type parameter in its tokens.
fn switch(alloc: Global) -> Result<Instr, AllocError> {
    Ok(Instr {
        op: 0x45,
        operand: Operand::Targets(U32s::from_slice(alloc, &[3, 1])?),
        constrained: None,
        prefixes: 1,
        under: Some(array_for_a_parameter(alloc)?),
    })
}

fn is_an_instance(instance: &Instance) -> bool {
    instance.assembly == 2
        && instance.method_args.len() == 0
        && matches!(instance.type_args.as_slice(), [bytes] if bytes.as_slice() == [0x1D, 0x08].as_slice())
}

fn has_an_array(under: &Under) -> bool {
    under.type_args.len() == 1
        && matches!(under.instances.as_slice(), [instance] if is_an_instance(instance))
}

fn is_switch(copy: &Instr) -> bool {
    copy.op == 0x45
        && matches!(&copy.operand, Operand::Targets(ks) if ks.as_slice() == [3, 1].as_slice())
        && matches!(&copy.under, Some(under) if has_an_array(under.get()))
}

fn is_copied(alloc: Global) -> bool {
    match switch(alloc) {
        Err(_) => false,
        Ok(instr) => matches!(instr.copied(alloc), Ok(copy) if is_switch(&copy)),
    }
}

#[test]
fn a_copy_has_the_same_parts(rt: HostRuntime) {
    assert!(rt; is_copied(rt.alloc()));
}
