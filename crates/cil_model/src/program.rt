// The program of a set: its types, fields and methods, and what each token means.

ghost use Rattle.std.specs.Prelude.{◌≡◌, ◌<◌, length};
ghost use Rattle.cil_model.specs.Programs.{body_of, with_body};

use crate::body::Body;
use crate::methods::MethodDescs;
use crate::tokens::TokenRows;
use crate::ty::{Ty, Tys};
use cil_base::{Name, Token, U32s, Units};
use sqlite_items::Items;

/// What a type is (ECMA-335, II.10.1 and II.8.9).
#[derive(Clone, Copy, Drop)]
pub enum Kind {
    Class,
    Interface,
    Struct,
    Enumeration,
    Delegate,
}

/// A MethodImpl row (ECMA-335, II.22.27). `owner` is the instance of the declaration's type,
/// `body` and `declaration` are places in the list of methods.
#[derive(Drop)]
pub struct Impl {
    pub owner: Ty,
    pub body: u32,
    pub declaration: u32,
}

pub type Impls = Items<Impl>;

/// A type of the program. Fields, methods and other types are named by their places in the lists
/// of the program. `outside` tells a type that is in no assembly of the set, and `reference` one of
/// a contract reference assembly. `flags` are those of the TypeDef row (ECMA-335, II.23.1.15),
/// `generics` is the number of type parameters.
#[derive(Drop)]
pub struct TypeDesc {
    pub assembly: u32,
    pub row: u32,
    pub name: Name,
    pub base: Option<Ty>,
    pub kind: Kind,
    pub interfaces: Tys,
    pub fields: U32s,
    pub methods: U32s,
    pub impls: Impls,
    pub enclosing: Option<u32>,
    pub flags: u32,
    pub outside: bool,
    pub reference: bool,
    pub contract_class: Option<u32>,
    pub contract_class_for: Option<u32>,
    pub generated: bool,
    pub generics: u32,
}

pub type TypeDescs = Items<TypeDesc>;

/// A field of a type of the set. `flags` are those of the Field row (ECMA-335, II.23.1.5).
#[derive(Drop)]
pub struct FieldDesc {
    pub owner: u32,
    pub name: Name,
    pub ty: Ty,
    pub is_static: bool,
    pub flags: u16,
}

pub type FieldDescs = Items<FieldDesc>;

/// A method of the program. Two methods have the same `sig` exactly where their signatures are the
/// same. `flags` are those of the MethodDef row (ECMA-335, II.23.1.10), `generics` is the number of
/// the method's own type parameters.
#[derive(Drop)]
pub struct MethodDesc {
    pub assembly: u32,
    pub row: u32,
    pub owner: u32,
    pub name: Name,
    pub params: Tys,
    pub result: Ty,
    pub sig: u32,
    pub is_static: bool,
    pub flags: u16,
    pub outside: bool,
    pub abbreviator: bool,
    pub invariant: bool,
    pub generated: bool,
    pub body: Option<Body>,
    pub generics: u32,
}

/// What a token of an assembly means (ECMA-335, II.22).
#[derive(Drop)]
pub enum Meaning {
    OfType(Ty),
    OfField { owner: Ty, field: u32 },
    OfMethod { owner: Ty, method: u32, args: Tys },
    OfText(Units),
    OfLocals(Tys),
}

#[derive(Drop)]
pub struct TokenRow {
    pub assembly: u32,
    pub token: Token,
    pub meaning: Meaning,
}

/// The program of a set. The numbers of types, fields and methods don't move when rows are appended
/// to TARGET: those of the other assemblies come first, in assembly and row order, then TARGET's,
/// then those outside, TARGET's rows walked last, and at the end those of `__ContractsRuntime`.
#[derive(Drop)]
pub struct Program {
    pub types: TypeDescs,
    pub fields: FieldDescs,
    pub methods: MethodDescs,
    pub tokens: TokenRows,
}

/// A method with the type arguments under which it is seen.
#[derive(Drop)]
pub struct Source {
    pub method: u32,
    pub args: Tys,
}

pub type Sources = Items<Source>;

impl Program {
    /// Gives a method a body, and hands back its earlier one.
    pub fn set_body(&mut self, m: u32, body: Body) -> Option<Body>
        requires { m < length self.old.methods }
        ensures earlier { result ≡ body_of self.old m }
        ensures body { self.new ≡ with_body self.old m body }
    {
        self.methods.set_body(m as usize, body)
    }
}
