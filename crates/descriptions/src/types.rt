// Parts of types, by what is known of their assembly (ECMA-335, II.22.23, II.22.27, II.22.37).
ghost use Rattle.std.specs.Prelude.{◌≡◌, ℕ, [], get_or, IfOk};
ghost use Rattle.set_rows.specs.Sets.{Assemblies};
ghost use Rattle.set_rows.specs.Owners.{AreOwners};
ghost use Rattle.descriptions.specs.declared.facts.MemberFacts.{MemberFacts};
ghost use Rattle.descriptions.specs.declared.facts.TypeLists.{TypeLists};
ghost use Rattle.set_types.specs.CodedTypes.{coded_of};
ghost use Rattle.member_table.specs.Environments.{coded_ty_at};
ghost use Rattle.descriptions.specs.Descriptions.{outside_type, impl_of, names_field};
ghost use Rattle.descriptions.specs.TypeFacts.{interfaces_by, impl_method_by, impl_by, impls_by, numbers_by, AreTypeLists, type_by, GiveTypes};

use crate::coded::{copied, type_of_spec};
use crate::facts::{MemberFacts, NamedMember, TypeFacts, TypeLists};
use crate::meanings::{method_by, number_of_row};
use cil_base::tables::{FIELD, INTERFACE_IMPL, MEMBER_REF, METHOD_DEF, METHOD_IMPL, TYPE_DEF};
use cil_base::{Name, U32s};
use cil_model::{Impl, Impls, Kind, Ty, TypeDesc, Tys};
use row_descriptions::{owned_rows, rows_by_cell};
use set_rows::Rows;
use set_signatures::is_field_blob;
use set_types::CodedTypes;
use std::alloc::{AllocError, Global};

/// The type that a TypeDefOrRef index of a row names, if it isn't 0.
pub fn type_at_index(
    alloc: Global,
    coded: &CodedTypes,
    index: u32,
) -> Result<Option<Ty>, AllocError>
    ensures { IfOk result (λ t. t ≡ coded_ty_at (coded_of coded.now) index) }
{
    if index / 4 == 0 {
        return Ok(None);
    }
    if index % 4 == 2 {
        return type_of_spec(alloc, coded, index / 4);
    }
    copied(alloc, coded.named(index))
}

/// The types that InterfaceImpl rows name, in their order.
pub fn interfaces_of(
    alloc: Global,
    rows: &Rows<'_>,
    coded: &CodedTypes,
    list: &[u32],
) -> Result<Tys, AllocError>
    ensures { IfOk result (λ tys. tys ≡ interfaces_by rows.now (coded_of coded.now) list.now) }
{
    let mut tys = Tys::new(alloc);
    for k in list {
        if let Some(ty) = type_at_index(alloc, coded, rows.cell(INTERFACE_IMPL, *k, 1))? {
            tys.push(ty)?;
        }
    }
    Ok(tys)
}

fn impl_of(body: Option<NamedMember>, declaration: Option<NamedMember>) -> Option<Impl>
    ensures { result ≡ impl_of body declaration }
{
    let Some(body) = body else {
        return None;
    };
    match declaration {
        Some(declaration) => Some(Impl {
            owner: declaration.owner,
            body: body.number,
            declaration: declaration.number,
        }),
        None => None,
    }
}

/// Whether a MethodDefOrRef index leads to a MemberRef row with a field's signature.
fn names_field(rows: &Rows<'_>, index: u32) -> bool
    ensures { result ≡ names_field rows.now index }
{
    index % 2 == 1 && is_field_blob(rows.blob(MEMBER_REF, index / 2, 2))
}

/// The method that an index of a MethodImpl row names.
fn impl_method(
    alloc: Global,
    rows: &Rows<'_>,
    coded: &CodedTypes,
    facts: &MemberFacts,
    index: u32,
) -> Result<Option<NamedMember>, AllocError>
    ensures { IfOk result (λ m. m ≡ impl_method_by rows.now (coded_of coded.now) facts.now index) }
{
    if names_field(rows, index) {
        return Ok(None);
    }
    method_by(alloc, coded, facts, index)
}

/// What a MethodImpl row says; None where one of its methods isn't there.
fn impl_at(
    alloc: Global,
    rows: &Rows<'_>,
    coded: &CodedTypes,
    facts: &MemberFacts,
    k: u32,
) -> Result<Option<Impl>, AllocError>
    ensures { IfOk result (λ i. i ≡ impl_by rows.now (coded_of coded.now) facts.now k) }
{
    let body = impl_method(alloc, rows, coded, facts, rows.cell(METHOD_IMPL, k, 1))?;
    let declaration = impl_method(alloc, rows, coded, facts, rows.cell(METHOD_IMPL, k, 2))?;
    Ok(impl_of(body, declaration))
}

/// What MethodImpl rows say, in their order.
pub fn impls_of(
    alloc: Global,
    rows: &Rows<'_>,
    coded: &CodedTypes,
    facts: &MemberFacts,
    list: &[u32],
) -> Result<Impls, AllocError>
    ensures { IfOk result (λ impls. impls ≡ impls_by rows.now (coded_of coded.now) facts.now list.now) }
{
    let mut impls = Impls::new(alloc);
    for k in list {
        if let Some(found) = impl_at(alloc, rows, coded, facts, *k)? {
            impls.push(found)?;
        }
    }
    Ok(impls)
}

/// The numbers of rows of Field or MethodDef, where `numbers` has them by row from 0.
pub fn numbers_of(alloc: Global, numbers: &[u32], list: &[u32]) -> Result<U32s, AllocError>
    ensures { IfOk result (λ ns. ns ≡ numbers_by numbers.now list.now) }
{
    let mut found = U32s::new(alloc);
    for row in list {
        found.push(number_of_row(numbers, *row))?;
    }
    Ok(found)
}

/// What is known of the types of an assembly gives their descriptions.
pub fn facts_give_types()
    ensures { (s : Assemblies) (a : ℕ) (f : MemberFacts) (l : TypeLists) → GiveTypes s a f l }
{}

/// By TypeDef row: the rows of InterfaceImpl, Field, MethodDef and MethodImpl that are of it, by one
/// pass over each table; `facts` has the owners of fields and methods.
pub fn type_lists(
    alloc: Global,
    rows: &Rows<'_>,
    facts: &MemberFacts,
) -> Result<TypeLists, AllocError>
    requires fields { AreOwners rows.now 4 FIELD facts.now.field_owners.items }
    requires methods { AreOwners rows.now 5 METHOD_DEF facts.now.method_owners.items }
    ensures { IfOk result (λ l. AreTypeLists rows.now l) }
{
    let bound = rows.count(TYPE_DEF) as usize + 1;
    Ok(TypeLists {
        interfaces: rows_by_cell(alloc, rows, INTERFACE_IMPL, 0, bound)?,
        fields: owned_rows(alloc, rows, 4, FIELD, facts.field_owners.as_slice())?,
        methods: owned_rows(alloc, rows, 5, METHOD_DEF, facts.method_owners.as_slice())?,
        impls: rows_by_cell(alloc, rows, METHOD_IMPL, 0, bound)?,
    })
}

fn list_of(lists: &[U32s], row: u32) -> &[u32]
    ensures { result.now ≡ get_or lists.now row [] }
{
    match lists.get(row as usize) {
        Some(list) => list.as_slice(),
        None => &[],
    }
}

/// A type by its row, by the rows that are of it, and by what else is known of it.
#[tactic(auto, unfolding(crate::specs::TypeFacts::type_by))]
pub fn type_row(
    alloc: Global,
    rows: &Rows<'_>,
    coded: &CodedTypes,
    facts: &MemberFacts,
    lists: &TypeLists,
    known: TypeFacts,
    assembly: u32,
    row: u32,
) -> Result<TypeDesc, AllocError>
    ensures { IfOk result (λ d. d ≡ type_by rows.now (coded_of coded.now) facts.now lists.now known assembly row) }
{
    let base = type_at_index(alloc, coded, rows.cell(TYPE_DEF, row, 3))?;
    let interfaces = interfaces_of(
        alloc,
        rows,
        coded,
        list_of(lists.interfaces.as_slice(), row),
    )?;
    let field_rows = list_of(lists.fields.as_slice(), row);
    let fields = numbers_of(alloc, facts.field_numbers.as_slice(), field_rows)?;
    let method_rows = list_of(lists.methods.as_slice(), row);
    let methods = numbers_of(alloc, facts.method_numbers.as_slice(), method_rows)?;
    let impls = impls_of(
        alloc,
        rows,
        coded,
        facts,
        list_of(lists.impls.as_slice(), row),
    )?;
    Ok(TypeDesc {
        assembly,
        row,
        name: known.name,
        base,
        kind: known.kind,
        interfaces,
        fields,
        methods,
        impls,
        enclosing: known.enclosing,
        flags: rows.cell(TYPE_DEF, row, 0),
        outside: false,
        reference: known.reference,
        contract_class: known.contract_class,
        contract_class_for: known.contract_class_for,
        generated: known.generated,
        generics: known.generics,
    })
}

/// A type outside the set.
#[tactic(auto, unfolding(crate::specs::Descriptions::outside_type))]
pub fn outside_type(alloc: Global, name: Name) -> TypeDesc
    ensures { result ≡ outside_type name }
{
    TypeDesc {
        assembly: 0,
        row: 0,
        name,
        base: None,
        kind: Kind::Class,
        interfaces: Tys::new(alloc),
        fields: U32s::new(alloc),
        methods: U32s::new(alloc),
        impls: Impls::new(alloc),
        enclosing: None,
        flags: 0,
        outside: true,
        reference: false,
        contract_class: None,
        contract_class_for: None,
        generated: false,
        generics: 0,
    }
}
