// Types of a program.

ghost use Rattle.std.specs.Prelude.{◌≡◌, ◌++◌, IfOk, OnOk, take};

use cil_base::{Bytes, Name};
use sqlite_items::{Boxed, Items};
use std::alloc::{AllocError, Global};

/// A type as a program names it (ECMA-335, II.23.2.12). An instance of an outside type is its
/// definition.
#[cycle(ty)]
#[derive(Drop)]
pub enum Ty {
    /// A type that is one byte in signatures.
    Prim(u8),
    /// A type of the program without arguments, by its place in the list of types.
    Known(u32),
    /// A type outside the set, by its full name.
    Outside { name: Name, value: bool },
    /// A vector of items of one type.
    Array(Boxed<Ty>),
    /// A pointer to a place of the type.
    ByRef(Boxed<Ty>),
    /// A parameter of the type.
    Var(u32),
    /// A parameter of the method.
    MVar(u32),
    /// A type whose values are carried along unread.
    Opaque,
    /// A type of the program with its arguments.
    Inst { ty: u32, args: Items<Ty> },
}

pub type Tys = Items<Ty>;

/// The arguments of a method's type, and of the method.
#[derive(Drop)]
pub struct TypeArgs {
    pub type_args: Tys,
    pub method_args: Tys,
}

/// Types as the blobs of an assembly spell them (ECMA-335, II.23.2.12).
pub type Signatures = Items<Bytes>;

/// The arguments of a type and of a method where an assembly names an instance of them (ECMA-335,
/// II.23.2.14 and II.23.2.15).
#[derive(Drop)]
pub struct Instance {
    pub assembly: u32,
    pub type_args: Signatures,
    pub method_args: Signatures,
}

pub type Instances = Items<Instance>;

/// What stands for the type parameters in the tokens of an instruction: the types, by which a run
/// goes, and the instances by which they came, with signatures that tell more than the types do.
/// The first instance gives the parameters of the tokens, and each further one those in the
/// signatures of the one before it.
#[derive(Drop)]
pub struct Under {
    pub type_args: Tys,
    pub method_args: Tys,
    pub instances: Instances,
}

impl Ty {
    /// An equal type of its own. It takes memory where the type has parts.
    #[cycle(copies)]
    pub fn copied(&self, alloc: Global) -> Result<Ty, AllocError>
        ensures { IfOk result (λ copy. copy ≡ self.now) }
    {
        match self {
            Ty::Prim(b) => Ok(Ty::Prim(*b)),
            Ty::Known(k) => Ok(Ty::Known(*k)),
            Ty::Outside { name, value } => Ok(Ty::Outside {
                name: Bytes::from_slice(alloc, name.as_slice())?,
                value: *value,
            }),
            Ty::Array(item) => Ok(Ty::Array(Boxed::new(alloc, item.get().copied(alloc)?)?)),
            Ty::ByRef(item) => Ok(Ty::ByRef(Boxed::new(alloc, item.get().copied(alloc)?)?)),
            Ty::Var(k) => Ok(Ty::Var(*k)),
            Ty::MVar(k) => Ok(Ty::MVar(*k)),
            Ty::Opaque => Ok(Ty::Opaque),
            Ty::Inst { ty, args } => Ok(Ty::Inst {
                ty: *ty,
                args: copied_tys(alloc, args)?,
            }),
        }
    }
}

/// An equal list of its own.
#[cycle(copies)]
pub fn copied_tys(alloc: Global, tys: &Tys) -> Result<Tys, AllocError>
    ensures { IfOk result (λ copy. copy ≡ tys.now) }
{
    let mut copies = Tys::new(alloc);
    for ty in tys.as_slice() {
        copies.push(ty.copied(alloc)?)?;
    }
    Ok(copies)
}

impl TypeArgs {
    /// An equal value of its own.
    pub fn copied(&self, alloc: Global) -> Result<TypeArgs, AllocError>
        ensures { IfOk result (λ copy. copy ≡ self.now) }
    {
        Ok(TypeArgs {
            type_args: copied_tys(alloc, &self.type_args)?,
            method_args: copied_tys(alloc, &self.method_args)?,
        })
    }
}

fn copied_signatures(alloc: Global, signatures: &Signatures) -> Result<Signatures, AllocError>
    ensures { IfOk result (λ copy. copy ≡ signatures.now) }
{
    let mut copies = Signatures::new(alloc);
    for signature in signatures.as_slice() {
        copies.push(Bytes::from_slice(alloc, signature.as_slice())?)?;
    }
    Ok(copies)
}

impl Instance {
    /// An equal value of its own.
    pub fn copied(&self, alloc: Global) -> Result<Instance, AllocError>
        ensures { IfOk result (λ copy. copy ≡ self.now) }
    {
        Ok(Instance {
            assembly: self.assembly,
            type_args: copied_signatures(alloc, &self.type_args)?,
            method_args: copied_signatures(alloc, &self.method_args)?,
        })
    }
}

fn copied_instances(alloc: Global, instances: &Instances) -> Result<Instances, AllocError>
    ensures { IfOk result (λ copy. copy ≡ instances.now) }
{
    let mut copies = Instances::new(alloc);
    for instance in instances.as_slice() {
        copies.push(instance.copied(alloc)?)?;
    }
    Ok(copies)
}

impl Under {
    /// An equal value of its own.
    pub fn copied(&self, alloc: Global) -> Result<Under, AllocError>
        ensures { IfOk result (λ copy. copy ≡ self.now) }
    {
        Ok(Under {
            type_args: copied_tys(alloc, &self.type_args)?,
            method_args: copied_tys(alloc, &self.method_args)?,
            instances: copied_instances(alloc, &self.instances)?,
        })
    }
}
