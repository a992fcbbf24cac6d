// The program of a set.
ghost use Rattle.std.specs.Prelude.{◌≡◌, ◌≤◌, ◌<◌, ◌+◌, ◌^◌, [], length, flat_map, IfOk, OnOk};
ghost use Rattle.std.specs.List.{range_with_len};
ghost use Rattle.cil_base.specs.declared.tables.TheConstants.{METHOD_DEF};
ghost use Rattle.set_rows.specs.Sets.{assembly_of, assembly_at, count_in};
ghost use Rattle.set_program.specs.Files.{assemblies_of, AreNumbered};
ghost use Rattle.set_program.specs.Numbering.{cut};
ghost use Rattle.row_descriptions.specs.TokenTables.{all_noted};
ghost use Rattle.descriptions.specs.Programs.{assembly_tokens, program_of};
ghost use Rattle.program_build.specs.Known.{IsKnown, AreKnown};

use crate::facts::{Known, all_known};
use crate::fields::all_fields;
use crate::methods::all_methods;
use crate::rows::rows_at;
use crate::types::all_types;
use assembly::Assembly;
use cil_model::{Program, TokenRows};
use descriptions::{facts_give_tokens, note_tokens};
use set_tables::SetTables;
use std::alloc::{AllocError, Global};

/// The methods of an assembly up to its runtime class are rows of its table.
fn cut_is_within(target: &Assembly<'_>)
    ensures { cut (assembly_of target.now.bytes) METHOD_DEF ≤ count_in (assembly_of target.now.bytes) METHOD_DEF + 1 }
{
    let _tables = target.tables();
}

/// Notes what the tokens of an assembly mean.
fn note_assembly(
    alloc: Global,
    tokens: &mut TokenRows,
    assembly: &Assembly<'_>,
    tables: &SetTables<'_>,
    known: &Known,
    a: u32,
) -> Result<(), AllocError>
    requires is { assembly_of assembly.now.bytes ≡ assembly_at tables.now a }
    requires number { assembly.now.assembly ≡ a }
    requires there { a < length tables.now }
    requires known { IsKnown tables.now a known.now }
    ensures { OnOk result (tokens.new ≡ all_noted tokens.old (assembly_tokens tables.now a)) }
{
    facts_give_tokens();
    let heaps = assembly.heaps();
    let coded = tables.coded(a as usize);
    note_tokens(
        alloc,
        tokens,
        rows_at(tables, a),
        coded,
        &known.members,
        heaps,
    )
}

/// What the tokens of all assemblies mean.
fn all_tokens(
    alloc: Global,
    set: &[Assembly<'_>],
    tables: &SetTables<'_>,
    known: &[Known],
) -> Result<TokenRows, AllocError>
    requires same { assemblies_of set.now ≡ tables.now }
    requires numbered { AreNumbered set.now }
    requires short { length tables.now < 2 ^ 32 }
    requires known { AreKnown tables.now known.now }
    ensures { IfOk result (λ t. t ≡ all_noted [] (flat_map (assembly_tokens tables.now) (range_with_len 0 (length tables.now)))) }
{
    let mut tokens = TokenRows::new(alloc);
    for a in 0..known.len() {
        note_assembly(alloc, &mut tokens, &set[a], tables, &known[a], a as u32)?;
    }
    Ok(tokens)
}

/// The program of a set of which this is known, its methods without their bodies.
fn program_with(
    alloc: Global,
    set: &[Assembly<'_>],
    tables: &SetTables<'_>,
    known: &[Known],
) -> Result<Program, AllocError>
    requires same { assemblies_of set.now ≡ tables.now }
    requires numbered { AreNumbered set.now }
    requires some { 0 < length tables.now }
    requires short { length tables.now < 2 ^ 32 }
    requires known { AreKnown tables.now known.now }
    ensures { IfOk result (λ p. p ≡ program_of tables.now) }
{
    cut_is_within(&set[0]);
    let types = all_types(alloc, tables, known)?;
    let fields = all_fields(alloc, tables, known)?;
    let methods = all_methods(alloc, tables, known)?;
    let tokens = all_tokens(alloc, set, tables, known)?;
    Ok(Program {
        types,
        fields,
        methods,
        tokens,
    })
}

/// The program of a set, its methods without their bodies.
pub fn program_of(
    alloc: Global,
    set: &[Assembly<'_>],
    tables: &SetTables<'_>,
) -> Result<Program, AllocError>
    requires same { assemblies_of set.now ≡ tables.now }
    requires numbered { AreNumbered set.now }
    requires some { 0 < length tables.now }
    requires short { length tables.now < 2 ^ 32 }
    ensures { IfOk result (λ p. p ≡ program_of tables.now) }
{
    let known = all_known(alloc, tables)?;
    program_with(alloc, set, tables, known.as_slice())
}
