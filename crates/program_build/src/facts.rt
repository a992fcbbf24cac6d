// What is known of the assemblies of a set.
ghost use Rattle.std.specs.Prelude.{◌≡◌, ◌<◌, ◌^◌, length, map, IfOk};
ghost use Rattle.cil_base.specs.declared.tables.TheConstants.{CUSTOM_ATTRIBUTE};
ghost use Rattle.set_rows.specs.Sets.{assembly_at, rows_in};
ghost use Rattle.set_types.specs.CodedTypes.{coded_of};
ghost use Rattle.set_program.specs.Attributes.{attribute_name};
ghost use Rattle.set_program.specs.Environment.{coded_in};
ghost use Rattle.coded_tables.specs.Counts.{AreCounts};
ghost use Rattle.descriptions.specs.Facts.{AreFacts};
ghost use Rattle.type_facts.specs.Known.{AreTypeMarks, AreMethodMarks};
ghost use Rattle.program_build.specs.Known.{IsKnown, AreKnown};

use crate::rows::rows_at;
use cil_base::Name;
use coded_tables::{GenericCounts, generic_counts};
use descriptions::{MemberFacts, TypeLists, type_lists};
use member_facts::member_facts;
use set_program::Part;
use set_tables::SetTables;
use set_types::CodedTypes;
use std::alloc::{AllocError, Global};
use type_facts::{MethodMarks, TypeMarks, method_marks, type_marks};
use type_table::{attribute_names, reference_rows};

/// What is known of an assembly beside its rows.
#[derive(Drop)]
pub struct Known {
    pub members: MemberFacts,
    pub lists: TypeLists,
    pub types: TypeMarks,
    pub methods: MethodMarks,
}

/// The names of the attributes of an assembly, by row from 0.
fn names_of(alloc: Global, set: &[Part<'_>], a: u32) -> Result<Vec<Option<Name>>, AllocError>
    requires there { a < length set.now }
    requires short { length set.now < 2 ^ 32 }
    ensures names { IfOk result (λ v. v.items ≡ map (attribute_name set.now a) (rows_in (assembly_at set.now a) CUSTOM_ATTRIBUTE)) }
    ensures short { IfOk result (λ v. length v.items < 2 ^ 32) }
{
    let references = reference_rows(alloc, set, a)?;
    attribute_names(alloc, set, a, references.as_slice())
}

/// How many parameters the types and the methods of an assembly have, by row from 0.
fn counts_of(alloc: Global, set: &[Part<'_>], a: u32) -> Result<GenericCounts, AllocError>
    requires there { a < length set.now }
    ensures { IfOk result (λ c. AreCounts (assembly_at set.now a) c) }
{
    generic_counts(alloc, set[a as usize].rows())
}

/// What is known of the types and of the methods of an assembly by its attributes, the names of
/// which are given, and by its generic parameters.
fn marks(
    alloc: Global,
    set: &[Part<'_>],
    a: u32,
    names: &[Option<Name>],
    coded: &CodedTypes,
) -> Result<(TypeMarks, MethodMarks), AllocError>
    requires there { a < length set.now }
    requires names { names.now ≡ map (attribute_name set.now a) (rows_in (assembly_at set.now a) CUSTOM_ATTRIBUTE) }
    requires short { length names.now < 2 ^ 32 }
    requires coded { coded_of coded.now ≡ coded_in set.now a }
    ensures types { IfOk result (λ m. AreTypeMarks set.now a m.0) }
    ensures methods { IfOk result (λ m. AreMethodMarks set.now a m.1) }
{
    let GenericCounts {
        types: of_types,
        methods: of_methods,
    } = counts_of(alloc, set, a)?;
    let types = type_marks(alloc, set, a, names, coded, of_types)?;
    let methods = method_marks(alloc, set, a, names, of_methods)?;
    Ok((types, methods))
}

/// The same by its attributes as they stand.
fn all_marks(
    alloc: Global,
    tables: &SetTables<'_>,
    a: u32,
) -> Result<(TypeMarks, MethodMarks), AllocError>
    requires there { a < length tables.now }
    requires short { length tables.now < 2 ^ 32 }
    ensures types { IfOk result (λ m. AreTypeMarks tables.now a m.0) }
    ensures methods { IfOk result (λ m. AreMethodMarks tables.now a m.1) }
{
    let set = tables.set();
    let names = names_of(alloc, set, a)?;
    marks(alloc, set, a, names.as_slice(), tables.coded(a as usize))
}

/// What is known of an assembly, where this is known of its members.
fn known_with(
    alloc: Global,
    tables: &SetTables<'_>,
    a: u32,
    members: MemberFacts,
) -> Result<Known, AllocError>
    requires there { a < length tables.now }
    requires short { length tables.now < 2 ^ 32 }
    requires members { AreFacts tables.now a members }
    ensures { IfOk result (λ k. IsKnown tables.now a k) }
{
    let lists = type_lists(alloc, rows_at(tables, a), &members)?;
    let (types, methods) = all_marks(alloc, tables, a)?;
    Ok(Known {
        members,
        lists,
        types,
        methods,
    })
}

/// What is known of an assembly.
fn known_of(alloc: Global, tables: &SetTables<'_>, a: u32) -> Result<Known, AllocError>
    requires there { a < length tables.now }
    requires short { length tables.now < 2 ^ 32 }
    ensures { IfOk result (λ k. IsKnown tables.now a k) }
{
    let members = member_facts(alloc, tables, a)?;
    known_with(alloc, tables, a, members)
}

/// What is known of each assembly of a set.
pub fn all_known(alloc: Global, tables: &SetTables<'_>) -> Result<Vec<Known>, AllocError>
    requires short { length tables.now < 2 ^ 32 }
    ensures { IfOk result (λ v. AreKnown tables.now v.items) }
{
    let mut all = Vec::new(alloc);
    for a in 0..tables.set().len() {
        all.push(known_of(alloc, tables, a as u32)?)?;
    }
    Ok(all)
}
