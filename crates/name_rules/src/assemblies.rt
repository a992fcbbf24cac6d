// The rules on names, assembly by assembly and table by table.
ghost use Rattle.std.specs.Prelude.{◌≡◌, ◌<◌, ◌^◌, length, map, IfOk};
ghost use Rattle.std.specs.List.{range_with_len};
ghost use Rattle.set_program.specs.Environment.{types_of};
ghost use Rattle.set_program.specs.TypeRules.{is_entangled};
ghost use Rattle.set_blobs.specs.BadBlobs.{TellsFirst};
ghost use Rattle.type_table.specs.Names.{AreReferences};
ghost use Rattle.member_rules.specs.Parameters.{AreParameters, AreSetGenerics};
ghost use Rattle.name_rules.specs.NameTests.{BreaksNames, InAssembly};

use crate::tables::table_fault;
use cil_base::tables::TYPE_REF;
use cil_base::{Refusal, U32s};
use member_rules::{parameter_counts, set_generics};
use set_program::TypeId;
use set_tables::SetTables;
use signature_rules::ParameterCounts;
use std::alloc::{AllocError, Global};
use struct_fields::find_entangled;
use type_table::reference_rows;

/// Behind the last table with a rule on names.
const TABLES: u8 = 0x2D;

fn tables_fault(
    alloc: Global,
    tables: &SetTables<'_>,
    writes: bool,
    entangled: &[bool],
    counts: &[U32s],
    references: &[Option<TypeId>],
    parameters: &ParameterCounts,
    a: u32,
) -> Result<Option<Refusal>, AllocError>
    requires short { length tables.now < 2 ^ 32 }
    requires there { a < length tables.now }
    requires entangled { entangled.now ≡ map (is_entangled tables.now) (range_with_len 0 (length (types_of tables.now))) }
    requires counts { AreSetGenerics tables.now counts.now }
    requires references { AreReferences tables.now a references.now }
    requires few { length references.now < 2 ^ 32 }
    requires parameters { AreParameters tables.now a parameters.now }
    ensures { IfOk result (TellsFirst (InAssembly tables.now writes a)) }
{
    for table in 0..TABLES {
        let found = table_fault(
            alloc, tables, writes, entangled, counts, references, parameters, a, table,
        )?;
        if let Some(r) = found {
            return Ok(Some(r));
        }
    }
    Ok(None)
}

fn assembly_fault(
    alloc: Global,
    tables: &SetTables<'_>,
    writes: bool,
    entangled: &[bool],
    counts: &[U32s],
    a: u32,
) -> Result<Option<Refusal>, AllocError>
    requires short { length tables.now < 2 ^ 32 }
    requires there { a < length tables.now }
    requires entangled { entangled.now ≡ map (is_entangled tables.now) (range_with_len 0 (length (types_of tables.now))) }
    requires counts { AreSetGenerics tables.now counts.now }
    ensures { IfOk result (TellsFirst (InAssembly tables.now writes a)) }
{
    let set = tables.set();
    let _references = set[a as usize].count(TYPE_REF);
    let references = reference_rows(alloc, set, a)?;
    let parameters = parameter_counts(alloc, set, counts, a, references.as_slice())?;
    tables_fault(
        alloc,
        tables,
        writes,
        entangled,
        counts,
        references.as_slice(),
        &parameters,
        a,
    )
}

fn assemblies_fault(
    alloc: Global,
    tables: &SetTables<'_>,
    writes: bool,
    entangled: &[bool],
    counts: &[U32s],
) -> Result<Option<Refusal>, AllocError>
    requires entangled { entangled.now ≡ map (is_entangled tables.now) (range_with_len 0 (length (types_of tables.now))) }
    requires counts { AreSetGenerics tables.now counts.now }
    ensures { IfOk result (TellsFirst (BreaksNames tables.now writes)) }
{
    let count = tables.len();
    for a in 0..count {
        if let Some(r) = assembly_fault(alloc, tables, writes, entangled, counts, a)? {
            return Ok(Some(r));
        }
    }
    Ok(None)
}

/// Of each type, by number, whether it leads back to itself, or holds structs too deep.
fn entangled(alloc: Global, tables: &SetTables<'_>) -> Result<Vec<bool>, AllocError>
    ensures { IfOk result (λ v. v.items ≡ map (is_entangled tables.now) (range_with_len 0 (length (types_of tables.now)))) }
{
    let _count = tables.len();
    let types = tables.types();
    let _types = types.len();
    find_entangled(alloc, types, tables.members())
}

/// The first refusal by N1 to N6, and by N5 only where `writes` says that the first assembly is to
/// be rewritten; None where no rule on names is broken.
pub fn name_fault(
    alloc: Global,
    tables: &SetTables<'_>,
    writes: bool,
) -> Result<Option<Refusal>, AllocError>
    ensures { IfOk result (TellsFirst (BreaksNames tables.now writes)) }
{
    let entangled = entangled(alloc, tables)?;
    let counts = set_generics(alloc, tables.set())?;
    assemblies_fault(
        alloc,
        tables,
        writes,
        entangled.as_slice(),
        counts.as_slice(),
    )
}
