// What the rows of an assembly that name members lead to.
use cil_base::{Name, U32s};
use cil_model::{Kind, Ty};

/// A field or a method of a program by its number, with the type in which it is named.
#[derive(Drop)]
pub struct NamedMember {
    pub owner: Ty,
    pub number: u32,
}

/// By row from 0: the TypeDef rows that own the rows of Field and MethodDef (0 where none does), the
/// numbers of these fields and methods, and what MemberRef rows name.
#[derive(Drop)]
pub struct MemberFacts {
    pub field_owners: Vec<u32>,
    pub method_owners: Vec<u32>,
    pub field_numbers: Vec<u32>,
    pub method_numbers: Vec<u32>,
    pub references: Vec<Option<NamedMember>>,
}

/// By TypeDef row: the rows of InterfaceImpl, Field, MethodDef and MethodImpl that are of it.
#[derive(Drop)]
pub struct TypeLists {
    pub interfaces: Vec<U32s>,
    pub fields: Vec<U32s>,
    pub methods: Vec<U32s>,
    pub impls: Vec<U32s>,
}

/// What is known of a type beside its row and the rows that are of it: its full name, its kind, the
/// number of the type around it, what its attributes say, and how many type parameters it has.
#[derive(Drop)]
pub struct TypeFacts {
    pub name: Name,
    pub kind: Kind,
    pub enclosing: Option<u32>,
    pub reference: bool,
    pub contract_class: Option<u32>,
    pub contract_class_for: Option<u32>,
    pub generated: bool,
    pub generics: u32,
}
