// The bodies of the methods of a set of assemblies.
ghost use Rattle.std.specs.Prelude.{◌≡◌, ℕ, ◌<◌, ◌^◌, ◌++◌, ◌∷◌, [], length, slice_get, Some, IfOk, OnOk};
ghost use Rattle.cil_base.specs.Refusals.{First, NoneBroken, OnRefused};
ghost use Rattle.pe_image.specs.Images.{File};
ghost use Rattle.set_rows.specs.Sets.{assembly_at, assembly_of};
ghost use Rattle.set_program.specs.Files.{assemblies_of};
ghost use Rattle.descriptions.specs.Programs.{program_of};
ghost use Rattle.body_rules.specs.Sets.{AreAllBodies, AreReadBodies, BreaksBodies, InAssembly};

use crate::rows::{assembly_bodies, check_rows};
use assembly::Assembly;
use cil_base::Fault;
use cil_model::{Body, Program};
use set_rows::Rows;
use set_tables::SetTables;
use std::alloc::{AllocError, Global};

/// The bodies of the methods of one assembly, which is number `a`.
fn bodies_of(
    alloc: Global,
    assembly: &Assembly<'_>,
    tables: &SetTables<'_>,
    program: &Program,
    a: u32,
) -> Result<Vec<Option<Body>>, Fault>
    requires short { length assembly.now.bytes < 2 ^ 32 }
    requires there { a < length tables.now }
    requires assembly { assembly_at tables.now a ≡ assembly_of assembly.now.bytes }
    requires program { program.now ≡ program_of tables.now }
    ensures bodies { IfOk result (λ v. AreReadBodies tables.now a v.items) }
    ensures accepted { OnOk result (NoneBroken (InAssembly tables.now a)) }
    ensures refused { OnRefused result (First (InAssembly tables.now a)) }
{
    let rows = Rows::new(assembly);
    assembly_bodies(alloc, assembly.image(), &rows, tables, program, a)
}

/// Appends the bodies of an assembly.
fn push_bodies(
    all: &mut Vec<Vec<Option<Body>>>,
    bodies: Vec<Option<Body>>,
) -> Result<(), AllocError>
    ensures { OnOk result (all.new.items ≡ all.old.items ++ bodies ∷ []) }
{
    match all.push(bodies) {
        Ok(()) => Ok(()),
        Err(e) => Err(e.into()),
    }
}

/// The bodies of all methods of a set of assemblies, by assembly and MethodDef row from 0, where
/// `tables` and `program` are the set's. The refusal is the first by assembly and row: what the body
/// of that method breaks first.
pub fn set_bodies<'a>(
    alloc: Global,
    set: &'a [Assembly<'a>],
    tables: &SetTables<'a>,
    program: &Program,
) -> Result<Vec<Vec<Option<Body>>>, Fault>
    requires few { length set.now < 2 ^ 32 }
    requires short { (k : ℕ) (file : File) → slice_get set.now k ≡ Some file → length file.bytes < 2 ^ 32 }
    requires tables { tables.now ≡ assemblies_of set.now }
    requires program { program.now ≡ program_of tables.now }
    ensures bodies { IfOk result (λ v. AreAllBodies tables.now v.items) }
    ensures accepted { OnOk result (NoneBroken (BreaksBodies tables.now)) }
    ensures refused { OnRefused result (First (BreaksBodies tables.now)) }
{
    let mut all = Vec::new(alloc);
    for a in 0..set.len() {
        match bodies_of(alloc, &set[a], tables, program, a as u32) {
            Ok(bodies) => push_bodies(&mut all, bodies)?,
            Err(fault) => return Err(fault),
        }
    }
    Ok(all)
}

/// Whether the bodies of the methods of one assembly, which is number `a`, break a rule.
fn check_assembly(
    alloc: Global,
    assembly: &Assembly<'_>,
    tables: &SetTables<'_>,
    program: &Program,
    a: u32,
) -> Result<(), Fault>
    requires short { length assembly.now.bytes < 2 ^ 32 }
    requires there { a < length tables.now }
    requires assembly { assembly_at tables.now a ≡ assembly_of assembly.now.bytes }
    requires program { program.now ≡ program_of tables.now }
    ensures accepted { OnOk result (NoneBroken (InAssembly tables.now a)) }
    ensures refused { OnRefused result (First (InAssembly tables.now a)) }
{
    let rows = Rows::new(assembly);
    check_rows(alloc, assembly.image(), &rows, tables, program, a)
}

/// The rules on the bodies of all methods of a set, as `set_bodies` tries them, where no body is
/// kept: one stands at a time.
pub fn check_set_bodies<'a>(
    alloc: Global,
    set: &'a [Assembly<'a>],
    tables: &SetTables<'a>,
    program: &Program,
) -> Result<(), Fault>
    requires few { length set.now < 2 ^ 32 }
    requires short { (k : ℕ) (file : File) → slice_get set.now k ≡ Some file → length file.bytes < 2 ^ 32 }
    requires tables { tables.now ≡ assemblies_of set.now }
    requires program { program.now ≡ program_of tables.now }
    ensures accepted { OnOk result (NoneBroken (BreaksBodies tables.now)) }
    ensures refused { OnRefused result (First (BreaksBodies tables.now)) }
{
    for a in 0..set.len() {
        match check_assembly(alloc, &set[a], tables, program, a as u32) {
            Ok(()) => {}
            Err(fault) => return Err(fault),
        }
    }
    Ok(())
}
