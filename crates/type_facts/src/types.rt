// What is known of types.
ghost use Rattle.std.specs.Prelude.{◌≡◌, ℕ, ◌<◌, ◌-◌, ◌*◌, ◌^◌, length, map, get_or, option_and_then, IfOk};
ghost use Rattle.std.specs.Option.{option_copied};
ghost use Rattle.set_rows.specs.Sets.{Assemblies, assembly_at, count_in, rows_in, or_empty};
ghost use Rattle.set_rows.specs.Owners.{if_row};
ghost use Rattle.set_program.specs.declared.identity.TypeId.TheVariants as type_id;
ghost use Rattle.set_types.specs.CodedTypes.{coded_of};
ghost use Rattle.set_program.specs.Attributes.{attribute_name, has_attribute, reference_attribute, on_assembly};
ghost use Rattle.set_program.specs.Environment.{coded_in, number_of};
ghost use Rattle.set_program.specs.Kinds.{generics};
ghost use Rattle.cil_model.specs.declared.program.Kind.TheVariants.{Class};
ghost use Rattle.attribute_marks.specs.Marks.{AreMarks};
ghost use Rattle.type_facts.specs.declared.types.TypeMarks.{TypeMarks};
ghost use Rattle.type_facts.specs.Known.{AreTypeMarks, type_tag, GiveTypeFacts, has_mark, type_facts_by};

use attribute_marks::{attributed, enclosing_rows, first_marks, row_at};
use cil_base::Name;
use cil_base::tables::{CUSTOM_ATTRIBUTE, TYPE_DEF};
use cil_model::Kind;
use coded_tables::kinds;
use descriptions::TypeFacts;
use set_program::Part;
use set_types::CodedTypes;
use std::alloc::{AllocError, Global};
use type_table::TypeTable;

/// Of the types of an assembly: the kind and the number of parameters by row from 0; by row the type
/// around, and the attributes ContractClass, ContractClassFor and CompilerGenerated (0 for none); and
/// whether the assembly is a contract reference assembly.
#[derive(Drop)]
pub struct TypeMarks {
    pub kinds: Vec<Kind>,
    pub around: Vec<u32>,
    pub classes: Vec<u32>,
    pub classes_for: Vec<u32>,
    pub generated: Vec<u32>,
    pub generics: Vec<u32>,
    pub reference: bool,
}

/// Whether an assembly is a contract reference assembly.
fn is_reference(
    alloc: Global,
    set: &[Part<'_>],
    a: u32,
    names: &[Option<Name>],
) -> Result<bool, AllocError>
    requires there { a < length set.now }
    requires names { names.now ≡ map (attribute_name set.now a) (rows_in (assembly_at set.now a) CUSTOM_ATTRIBUTE) }
    requires short { length names.now < 2 ^ 32 }
    ensures { IfOk result (λ b. b ≡ has_attribute set.now a reference_attribute on_assembly) }
{
    let marks = first_marks(
        alloc,
        set,
        a,
        names,
        14,
        b"System.Diagnostics.Contracts.ContractReferenceAssemblyAttribute",
        1,
    )?;
    Ok(row_at(marks.as_slice(), 1).is_some())
}

/// By TypeDef row: the first attribute of this name on it, 0 where it bears none.
fn marks_on_types(
    alloc: Global,
    set: &[Part<'_>],
    a: u32,
    names: &[Option<Name>],
    name: &[u8],
) -> Result<Vec<u32>, AllocError>
    requires there { a < length set.now }
    requires names { names.now ≡ map (attribute_name set.now a) (rows_in (assembly_at set.now a) CUSTOM_ATTRIBUTE) }
    requires short { length names.now < 2 ^ 32 }
    ensures { IfOk result (λ v. AreMarks set.now a name.now type_tag (count_in (assembly_at set.now a) TYPE_DEF) v.items) }
{
    let count = set[a as usize].count(TYPE_DEF);
    first_marks(alloc, set, a, names, 3, name, count)
}

/// What is known of the types of an assembly; `names` has the names of its attributes, `counts`
/// how many parameters its types have, both by row from 0.
pub fn type_marks(
    alloc: Global,
    set: &[Part<'_>],
    a: u32,
    names: &[Option<Name>],
    coded: &CodedTypes,
    counts: Vec<u32>,
) -> Result<TypeMarks, AllocError>
    requires there { a < length set.now }
    requires names { names.now ≡ map (attribute_name set.now a) (rows_in (assembly_at set.now a) CUSTOM_ATTRIBUTE) }
    requires short { length names.now < 2 ^ 32 }
    requires coded { coded_of coded.now ≡ coded_in set.now a }
    requires counts { counts.items ≡ map (λ row. generics (assembly_at set.now a) (row * 2)) (rows_in (assembly_at set.now a) TYPE_DEF) }
    ensures { IfOk result (λ t. AreTypeMarks set.now a t) }
{
    let rows = set[a as usize].rows();
    let class = b"System.Diagnostics.Contracts.ContractClassAttribute";
    let class_for = b"System.Diagnostics.Contracts.ContractClassForAttribute";
    let generated = b"System.Runtime.CompilerServices.CompilerGeneratedAttribute";
    Ok(TypeMarks {
        kinds: kinds(alloc, coded, rows)?,
        around: enclosing_rows(alloc, rows)?,
        classes: marks_on_types(alloc, set, a, names, class)?,
        classes_for: marks_on_types(alloc, set, a, names, class_for)?,
        generated: marks_on_types(alloc, set, a, names, generated)?,
        generics: counts,
        reference: is_reference(alloc, set, a, names)?,
    })
}

/// An equal name of its own, empty where there is none.
fn name_or_empty(alloc: Global, name: Option<&[u8]>) -> Result<Name, AllocError>
    ensures { IfOk result (λ n. n ≡ or_empty (option_copied name.entry)) }
{
    match name {
        Some(name) => Name::from_slice(alloc, name),
        None => Ok(Name::new(alloc)),
    }
}

/// The number of the type around a nested one.
fn around(types: &TypeTable<'_>, a: u32, marks: &TypeMarks, row: u32) -> Option<u32>
    ensures { result ≡ option_and_then (λ k. number_of types.now (type_id.Row a k)) (if_row (get_or marks.now.around.items row 0)) }
{
    match row_at(marks.around.as_slice(), row) {
        Some(k) => types.row_number(a, k),
        None => None,
    }
}

/// The kind of a row, where the kinds stand by row from 0.
fn kind_at(kinds: &[Kind], row: u32) -> Kind
    ensures { result ≡ get_or kinds.now (row - 1) Class }
{
    match kinds.get((row as usize).saturating_sub(1)) {
        Some(kind) => *kind,
        None => Kind::Class,
    }
}

/// The number of a row, where numbers stand by row from 0.
pub fn count_at(counts: &[u32], row: u32) -> u32
    ensures { result ≡ get_or counts.now (row - 1) 0 }
{
    match counts.get((row as usize).saturating_sub(1)) {
        Some(count) => *count,
        None => 0,
    }
}

/// Whether a row bears an attribute.
pub fn has_mark(marks: &[u32], row: u32) -> bool
    ensures { result ≡ has_mark marks.now row }
{
    row_at(marks, row).is_some()
}

/// What is known of all types gives what is known of each.
pub fn marks_give_types()
    ensures { (s : Assemblies) (a : ℕ) (t : TypeMarks) → GiveTypeFacts s a t }
{}

/// What is known of a type beside its row.
pub fn type_facts(
    alloc: Global,
    types: &TypeTable<'_>,
    set: &[Part<'_>],
    a: u32,
    marks: &TypeMarks,
    row: u32,
) -> Result<TypeFacts, AllocError>
    requires short { length set.now < 2 ^ 32 }
    requires there { a < length set.now }
    requires same { types.now ≡ set.now }
    ensures { IfOk result (λ t. t ≡ type_facts_by set.now a marks.now row) }
{
    let name = name_or_empty(alloc, set[a as usize].full_name(row))?;
    let contract_class = attributed(alloc, types, set, a, marks.classes.as_slice(), row)?;
    let contract_class_for = attributed(alloc, types, set, a, marks.classes_for.as_slice(), row)?;
    Ok(TypeFacts {
        name,
        kind: kind_at(marks.kinds.as_slice(), row),
        enclosing: around(types, a, marks, row),
        reference: marks.reference,
        contract_class,
        contract_class_for,
        generated: has_mark(marks.generated.as_slice(), row),
        generics: count_at(marks.generics.as_slice(), row),
    })
}
