// The rules on the rows of one table.
ghost use Rattle.std.specs.Prelude.{◌≡◌, ◌<◌, ◌^◌, true, false, length, map, IfOk};
ghost use Rattle.std.specs.List.{range_with_len};
ghost use Rattle.cil_base.specs.declared.tables.TheConstants.{CUSTOM_ATTRIBUTE};
ghost use Rattle.cil_base.specs.Refusals.{first_of};
ghost use Rattle.set_program.specs.Environment.{types_of};
ghost use Rattle.set_program.specs.TypeRules.{is_entangled};
ghost use Rattle.set_blobs.specs.BadBlobs.{TellsFirst};
ghost use Rattle.set_rules.specs.TableTests.{table_tests};
ghost use Rattle.type_table.specs.Names.{AreReferences};
ghost use Rattle.member_rules.specs.Parameters.{AreParameters, AreSetGenerics};
ghost use Rattle.member_tests.specs.MemberTables.{member_table_tests};
ghost use Rattle.name_rules.specs.NameTests.{InTable, by_row, holds_signature};

use crate::rewriting::rewrite_fault;
use cil_base::tables::{
    ASSEMBLY, CUSTOM_ATTRIBUTE, EXPORTED_TYPE, FIELD, MEMBER_REF, METHOD_DEF, METHOD_SPEC,
    PROPERTY, STAND_ALONE_SIG, TYPE_DEF, TYPE_REF, TYPE_SPEC,
};
use cil_base::{Refusal, U32s};
use member_tests::member_fault;
use set_program::TypeId;
use set_rules::{
    assembly_fault, attribute_fault, definition_fault, exported_fault, reference_fault,
};
use set_tables::SetTables;
use signature_rules::ParameterCounts;
use spec_tests::{method_spec_fault, type_spec_fault};
use std::alloc::{AllocError, Global};
use type_table::attribute_names;

/// Whether the rows of a table hold signatures.
fn holds_signature(table: u8) -> bool
    ensures { result ≡ holds_signature table }
{
    match table {
        FIELD => true,
        METHOD_DEF => true,
        MEMBER_REF => true,
        STAND_ALONE_SIG => true,
        PROPERTY => true,
        TYPE_SPEC => true,
        METHOD_SPEC => true,
        _ => false,
    }
}

/// The refusal of the earlier row, the first where they are of one row.
fn by_row(first: Option<Refusal>, second: Option<Refusal>) -> Option<Refusal>
    ensures { result ≡ by_row first second }
{
    match first {
        None => second,
        Some(first) => match second {
            None => Some(first),
            Some(second) => {
                if second.row < first.row {
                    return Some(second);
                }
                Some(first)
            }
        },
    }
}

fn attributes_fault(
    alloc: Global,
    tables: &SetTables<'_>,
    a: u32,
    references: &[Option<TypeId>],
) -> Result<Option<Refusal>, AllocError>
    requires short { length tables.now < 2 ^ 32 }
    requires there { a < length tables.now }
    requires references { AreReferences tables.now a references.now }
    ensures { IfOk result (λ f. f ≡ first_of (table_tests tables.now a CUSTOM_ATTRIBUTE)) }
{
    let set = tables.set();
    let names = attribute_names(alloc, set, a, references)?;
    attribute_fault(alloc, set, a, names.as_slice())
}

/// The first refusal at a row that names types; `entangled` says by number which types lead back to
/// themselves, `references` has what the TypeRef rows name.
fn type_fault(
    alloc: Global,
    tables: &SetTables<'_>,
    entangled: &[bool],
    references: &[Option<TypeId>],
    a: u32,
    table: u8,
) -> Result<Option<Refusal>, AllocError>
    requires short { length tables.now < 2 ^ 32 }
    requires there { a < length tables.now }
    requires entangled { entangled.now ≡ map (is_entangled tables.now) (range_with_len 0 (length (types_of tables.now))) }
    requires references { AreReferences tables.now a references.now }
    requires few { length references.now < 2 ^ 32 }
    ensures { IfOk result (λ f. f ≡ first_of (table_tests tables.now a table)) }
{
    if table == TYPE_REF {
        return Ok(reference_fault(a, references));
    }
    if table == TYPE_DEF {
        return Ok(definition_fault(tables.set(), tables.types(), entangled, a));
    }
    if table == CUSTOM_ATTRIBUTE {
        return attributes_fault(alloc, tables, a, references);
    }
    if table == ASSEMBLY {
        return Ok(assembly_fault(tables.set(), a));
    }
    if table == EXPORTED_TYPE {
        return exported_fault(alloc, tables.set(), a);
    }
    Ok(None)
}

/// The first refusal at a row that holds a signature; `counts` has the numbers of parameters of each
/// assembly's types and methods, `parameters` those of the types that this assembly names.
fn signature_fault(
    alloc: Global,
    tables: &SetTables<'_>,
    counts: &[U32s],
    parameters: &ParameterCounts,
    a: u32,
    table: u8,
) -> Result<Option<Refusal>, AllocError>
    requires there { a < length tables.now }
    requires counts { AreSetGenerics tables.now counts.now }
    requires parameters { AreParameters tables.now a parameters.now }
    ensures { IfOk result (λ f. f ≡ first_of (member_table_tests tables.now a table)) }
{
    if table == TYPE_SPEC {
        return type_spec_fault(alloc, tables, counts, parameters, a);
    }
    if table == METHOD_SPEC {
        return method_spec_fault(alloc, tables, counts, parameters, a);
    }
    member_fault(alloc, tables, counts, parameters, a, table)
}

/// The first refusal at a row that names types, with N5 where `writes` says that TARGET is to be
/// rewritten.
fn named_fault(
    alloc: Global,
    tables: &SetTables<'_>,
    writes: bool,
    entangled: &[bool],
    references: &[Option<TypeId>],
    a: u32,
    table: u8,
) -> Result<Option<Refusal>, AllocError>
    requires short { length tables.now < 2 ^ 32 }
    requires there { a < length tables.now }
    requires entangled { entangled.now ≡ map (is_entangled tables.now) (range_with_len 0 (length (types_of tables.now))) }
    requires references { AreReferences tables.now a references.now }
    requires few { length references.now < 2 ^ 32 }
    requires table { holds_signature table ≡ false }
    ensures { IfOk result (TellsFirst (InTable tables.now writes a table)) }
{
    let first = type_fault(alloc, tables, entangled, references, a, table)?;
    let second = rewrite_fault(alloc, tables.set(), writes, a, table)?;
    Ok(by_row(first, second))
}

/// The first refusal at a row of a table.
pub fn table_fault(
    alloc: Global,
    tables: &SetTables<'_>,
    writes: bool,
    entangled: &[bool],
    counts: &[U32s],
    references: &[Option<TypeId>],
    parameters: &ParameterCounts,
    a: u32,
    table: u8,
) -> Result<Option<Refusal>, AllocError>
    requires short { length tables.now < 2 ^ 32 }
    requires there { a < length tables.now }
    requires entangled { entangled.now ≡ map (is_entangled tables.now) (range_with_len 0 (length (types_of tables.now))) }
    requires counts { AreSetGenerics tables.now counts.now }
    requires references { AreReferences tables.now a references.now }
    requires few { length references.now < 2 ^ 32 }
    requires parameters { AreParameters tables.now a parameters.now }
    ensures { IfOk result (TellsFirst (InTable tables.now writes a table)) }
{
    if holds_signature(table) {
        return signature_fault(alloc, tables, counts, parameters, a, table);
    }
    named_fault(alloc, tables, writes, entangled, references, a, table)
}
