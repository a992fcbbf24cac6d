// The bodies of the methods of an assembly of a set.
ghost use Rattle.std.specs.Prelude.{◌≡◌, ◌<◌, ◌≤◌, ◌^◌, ◌++◌, ◌∷◌, [], length, IfOk, IfSome, OnOk};
ghost use Rattle.cil_base.specs.Refusals.{First, NoneBroken, OnRefused};
ghost use Rattle.cil_model.specs.ValidBody.{IsValid};
ghost use Rattle.set_rows.specs.Sets.{assembly_at, count_in};
ghost use Rattle.member_table.specs.declared.named.MemberId.TheVariants as id;
ghost use Rattle.descriptions.specs.Descriptions.{method_desc};
ghost use Rattle.descriptions.specs.Programs.{program_of};
ghost use Rattle.method_bodies.specs.Bodies.{IsBodyAt};
ghost use Rattle.method_bodies.specs.Plain.{IsPlain};
ghost use Rattle.method_bodies.specs.Rows.{rva_of};
ghost use Rattle.body_rules.specs.Sets.{AreReadBodies, InAssembly, InRow, IsSoundAt};

use crate::method::checked_body;
use cil_base::Fault;
use cil_base::tables::METHOD_DEF;
use cil_model::{Body, MethodDesc, Program};
use pe_image::Image;
use set_rows::Rows;
use set_tables::SetTables;
use std::alloc::{AllocError, Global};

/// The description of the method of a MethodDef row.
fn own_method<'p>(tables: &SetTables<'_>, program: &'p Program, a: u32, row: u32) -> &'p MethodDesc
    requires there { a < length tables.now }
    requires low { 1 ≤ row }
    requires high { row ≤ count_in (assembly_at tables.now a) METHOD_DEF }
    requires program { program.now ≡ program_of tables.now }
    ensures { result.now ≡ method_desc tables.now (id.Row a row) }
{
    match tables.numbers().row_number(false, a, row) {
        Some(number) => match program.methods.get(number as usize) {
            Some(own) => own,
            None => unreachable!(),
        },
        None => unreachable!(),
    }
}

/// The body of the method of a MethodDef row, or that it has none.
fn row_body(
    alloc: Global,
    image: &Image<'_>,
    rows: &Rows<'_>,
    tables: &SetTables<'_>,
    program: &Program,
    a: u32,
    row: u32,
) -> Result<Option<Body>, Fault>
    requires short { length image.now.bytes < 2 ^ 32 }
    requires there { a < length tables.now }
    requires rows { rows.now ≡ assembly_at tables.now a }
    requires image { image.now.bytes ≡ (assembly_at tables.now a).bytes }
    requires program { program.now ≡ program_of tables.now }
    requires low { 1 ≤ row }
    requires high { row ≤ count_in (assembly_at tables.now a) METHOD_DEF }
    ensures body { IfOk result (IsBodyAt (assembly_at tables.now a).bytes a (rva_of (assembly_at tables.now a) row)) }
    ensures valid { IfOk result (λ read. IfSome read (IsValid a)) }
    ensures plain { IfOk result (λ read. IfSome read IsPlain) }
    ensures sound { IfOk result (IsSoundAt tables.now a row) }
    ensures accepted { OnOk result (NoneBroken (InRow tables.now a row)) }
    ensures refused { OnRefused result (First (InRow tables.now a row)) }
{
    let own = own_method(tables, program, a, row);
    checked_body(alloc, image, rows, program, own, a, row)
}

/// Appends a body.
fn push_body(bodies: &mut Vec<Option<Body>>, body: Option<Body>) -> Result<(), AllocError>
    ensures { OnOk result (bodies.new.items ≡ bodies.old.items ++ body ∷ []) }
{
    match bodies.push(body) {
        Ok(()) => Ok(()),
        Err(e) => Err(e.into()),
    }
}

/// The bodies of the methods of assembly number `a`, by MethodDef row from 0.
pub fn assembly_bodies(
    alloc: Global,
    image: &Image<'_>,
    rows: &Rows<'_>,
    tables: &SetTables<'_>,
    program: &Program,
    a: u32,
) -> Result<Vec<Option<Body>>, Fault>
    requires short { length image.now.bytes < 2 ^ 32 }
    requires there { a < length tables.now }
    requires rows { rows.now ≡ assembly_at tables.now a }
    requires image { image.now.bytes ≡ (assembly_at tables.now a).bytes }
    requires program { program.now ≡ program_of tables.now }
    ensures bodies { IfOk result (λ v. AreReadBodies tables.now a v.items) }
    ensures accepted { OnOk result (NoneBroken (InAssembly tables.now a)) }
    ensures refused { OnRefused result (First (InAssembly tables.now a)) }
{
    let count = rows.count(METHOD_DEF);
    let mut bodies = Vec::new(alloc);
    for k in 0..count {
        match row_body(alloc, image, rows, tables, program, a, k + 1) {
            Ok(body) => push_body(&mut bodies, body)?,
            Err(fault) => return Err(fault),
        }
    }
    Ok(bodies)
}

/// Whether the body of the method of a MethodDef row breaks a rule. It isn't kept.
fn check_row(
    alloc: Global,
    image: &Image<'_>,
    rows: &Rows<'_>,
    tables: &SetTables<'_>,
    program: &Program,
    a: u32,
    row: u32,
) -> Result<(), Fault>
    requires short { length image.now.bytes < 2 ^ 32 }
    requires there { a < length tables.now }
    requires rows { rows.now ≡ assembly_at tables.now a }
    requires image { image.now.bytes ≡ (assembly_at tables.now a).bytes }
    requires program { program.now ≡ program_of tables.now }
    requires low { 1 ≤ row }
    requires high { row ≤ count_in (assembly_at tables.now a) METHOD_DEF }
    ensures accepted { OnOk result (NoneBroken (InRow tables.now a row)) }
    ensures refused { OnRefused result (First (InRow tables.now a row)) }
{
    match row_body(alloc, image, rows, tables, program, a, row) {
        Ok(_) => Ok(()),
        Err(fault) => Err(fault),
    }
}

/// Whether the bodies of the methods of assembly number `a` break a rule. One stands at a time.
pub fn check_rows(
    alloc: Global,
    image: &Image<'_>,
    rows: &Rows<'_>,
    tables: &SetTables<'_>,
    program: &Program,
    a: u32,
) -> Result<(), Fault>
    requires short { length image.now.bytes < 2 ^ 32 }
    requires there { a < length tables.now }
    requires rows { rows.now ≡ assembly_at tables.now a }
    requires image { image.now.bytes ≡ (assembly_at tables.now a).bytes }
    requires program { program.now ≡ program_of tables.now }
    ensures accepted { OnOk result (NoneBroken (InAssembly tables.now a)) }
    ensures refused { OnRefused result (First (InAssembly tables.now a)) }
{
    for k in 0..rows.count(METHOD_DEF) {
        match check_row(alloc, image, rows, tables, program, a, k + 1) {
            Ok(()) => {}
            Err(fault) => return Err(fault),
        }
    }
    Ok(())
}
