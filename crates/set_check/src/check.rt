// The rules on a set of assemblies.
ghost use Rattle.std.specs.Prelude.{◌≡◌, ◌<◌, ◌^◌, ℕ, length, IfOk, IsTrue, OnOk, MatchOption};
ghost use Rattle.cil_base.specs.Refusals.{First, InLayers, NoneBroken, NoneOf, OnRefused};
ghost use Rattle.body_rules.specs.Sets.{BreaksBodies};
ghost use Rattle.descriptions.specs.Programs.{program_of};
ghost use Rattle.name_rules.specs.NameTests.{BreaksNames};
ghost use Rattle.set_blobs.specs.BadBlobs.{BreaksBlobs};
ghost use Rattle.set_check.specs.Sets.{assemblies_of, bytes_at, bytes_of, files_from, later_layers, program_layers, row_layers, Breaks, IsContractFrom, IsReadProgram, IsSound, IsUnsound, Names};

use crate::read::read_set;
use assembly::Assembly;
use assembly_rewrite::first_contract_row;
use body_rules::{check_set_bodies, set_bodies};
use cil_base::{Bytes, Fault, Refusal};
use cil_model::Program;
use name_rules::name_fault;
use program_build::program_of;
use set_blobs::blob_fault;
use set_program::Part;
use set_rows::Rows;
use set_tables::SetTables;
use std::alloc::{AllocError, Global};

/// Z1 at the first row that tells of Code Contracts in an assembly of a set from one on.
pub fn first_contract_row_from(set: &[Assembly<'_>], from: usize) -> Option<Refusal>
    requires { set.now ≡ files_from 0 (bytes_of set.now) }
    ensures { MatchOption result (NoneBroken (IsContractFrom from (bytes_of set.now))) (First (IsContractFrom from (bytes_of set.now))) }
{
    for k in from..set.len() {
        if let Some(refusal) = first_contract_row(&set[k]) {
            return Some(refusal);
        }
    }
    None
}

/// The assemblies with their names found beforehand.
fn parts<'a>(alloc: Global, set: &'a [Assembly<'a>]) -> Result<Vec<Part<'a>>, AllocError>
    ensures { IfOk result (λ parts. parts.items ≡ assemblies_of (bytes_of set.now)) }
{
    let mut parts = Vec::new(alloc);
    for assembly in set {
        parts.push(Part::new(alloc, Rows::new(assembly))?)?;
    }
    Ok(parts)
}

/// S1 or S2 at the first row of a set whose blob is in no grammar of its kind.
fn first_bad_blob(alloc: Global, parts: &[Part<'_>]) -> Result<(), Fault>
    requires { length parts.now < 2 ^ 32 }
    ensures accepted { OnOk result (NoneBroken (BreaksBlobs parts.now)) }
    ensures refused { OnRefused result (First (BreaksBlobs parts.now)) }
{
    match blob_fault(alloc, parts) {
        Err(fault) => Err(fault.into()),
        Ok(Some(refusal)) => Err(Fault::Refused(refusal)),
        Ok(None) => Ok(()),
    }
}

/// Puts the bodies of a set into its program, where none breaks a rule.
fn fill<'a>(
    alloc: Global,
    set: &'a [Assembly<'a>],
    tables: &SetTables<'a>,
    program: &mut Program,
) -> Result<(), Fault>
    requires numbered { set.now ≡ files_from 0 (bytes_of set.now) }
    requires same { tables.now ≡ assemblies_of (bytes_of set.now) }
    requires short { (a : ℕ) → length (bytes_at (bytes_of set.now) a) < 2 ^ 32 }
    requires some { 0 < length set.now }
    requires few { length set.now < 2 ^ 32 }
    requires program { program.old ≡ program_of tables.now }
    ensures done { OnOk result (IsReadProgram tables.now program.new) }
    ensures accepted { OnOk result (NoneBroken (BreaksBodies tables.now)) }
    ensures refused { OnRefused result (First (BreaksBodies tables.now)) }
{
    match set_bodies(alloc, set, tables, &*program) {
        Ok(bodies) => {
            program_bodies::set_bodies(program, bodies);
            Ok(())
        }
        Err(fault) => Err(fault),
    }
}

/// Tries the rules on the bodies of a set; where they are kept, they are put into its program.
fn try_bodies<'a>(
    alloc: Global,
    set: &'a [Assembly<'a>],
    tables: &SetTables<'a>,
    keeps: bool,
    program: &mut Program,
) -> Result<(), Fault>
    requires numbered { set.now ≡ files_from 0 (bytes_of set.now) }
    requires same { tables.now ≡ assemblies_of (bytes_of set.now) }
    requires short { (a : ℕ) → length (bytes_at (bytes_of set.now) a) < 2 ^ 32 }
    requires some { 0 < length set.now }
    requires few { length set.now < 2 ^ 32 }
    requires program { program.old ≡ program_of tables.now }
    ensures done { OnOk result (IsTrue keeps → IsReadProgram tables.now program.new) }
    ensures accepted { OnOk result (NoneBroken (BreaksBodies tables.now)) }
    ensures refused { OnRefused result (First (BreaksBodies tables.now)) }
{
    if keeps {
        return fill(alloc, set, tables, program);
    }
    check_set_bodies(alloc, set, tables, &*program)
}

/// The program of a set, where no body breaks a rule; with its bodies, where they are kept.
fn check_bodies<'a>(
    alloc: Global,
    set: &'a [Assembly<'a>],
    tables: &SetTables<'a>,
    keeps: bool,
) -> Result<Program, Fault>
    requires numbered { set.now ≡ files_from 0 (bytes_of set.now) }
    requires same { tables.now ≡ assemblies_of (bytes_of set.now) }
    requires short { (a : ℕ) → length (bytes_at (bytes_of set.now) a) < 2 ^ 32 }
    requires some { 0 < length set.now }
    requires few { length set.now < 2 ^ 32 }
    ensures done { IfOk result (λ p. IsTrue keeps → IsReadProgram tables.now p) }
    ensures accepted { OnOk result (NoneBroken (BreaksBodies tables.now)) }
    ensures refused { OnRefused result (First (BreaksBodies tables.now)) }
{
    match program_of(alloc, set, tables) {
        Ok(mut program) => match try_bodies(alloc, set, tables, keeps, &mut program) {
            Ok(()) => Ok(program),
            Err(fault) => Err(fault),
        },
        Err(e) => Err(e.into()),
    }
}

/// The first of N at a row of a set.
fn first_bad_name(alloc: Global, tables: &SetTables<'_>, writes: bool) -> Result<(), Fault>
    ensures accepted { OnOk result (NoneBroken (BreaksNames tables.now writes)) }
    ensures refused { OnRefused result (First (BreaksNames tables.now writes)) }
{
    match name_fault(alloc, tables, writes) {
        Err(fault) => Err(fault.into()),
        Ok(Some(refusal)) => Err(Fault::Refused(refusal)),
        Ok(None) => Ok(()),
    }
}

/// The program of a set, where no row breaks a rule on names and no body another one.
fn check_tables<'a>(
    alloc: Global,
    set: &'a [Assembly<'a>],
    tables: &SetTables<'a>,
    writes: bool,
    keeps: bool,
) -> Result<Program, Fault>
    requires numbered { set.now ≡ files_from 0 (bytes_of set.now) }
    requires same { tables.now ≡ assemblies_of (bytes_of set.now) }
    requires short { (a : ℕ) → length (bytes_at (bytes_of set.now) a) < 2 ^ 32 }
    requires some { 0 < length set.now }
    requires few { length set.now < 2 ^ 32 }
    ensures done { IfOk result (λ p. IsTrue keeps → IsReadProgram tables.now p) }
    ensures accepted { OnOk result (NoneOf (Breaks (bytes_of set.now)) (program_layers writes)) }
    ensures refused { OnRefused result (InLayers (Breaks (bytes_of set.now)) (Names (bytes_of set.now)) (program_layers writes)) }
{
    match first_bad_name(alloc, tables, writes) {
        Ok(()) => check_bodies(alloc, set, tables, keeps),
        Err(fault) => Err(fault),
    }
}

/// The same by tables that are made of the assemblies.
fn check_names<'a>(
    alloc: Global,
    set: &'a [Assembly<'a>],
    parts: &'a [Part<'a>],
    writes: bool,
    keeps: bool,
) -> Result<Program, Fault>
    requires numbered { set.now ≡ files_from 0 (bytes_of set.now) }
    requires same { parts.now ≡ assemblies_of (bytes_of set.now) }
    requires short { (a : ℕ) → length (bytes_at (bytes_of set.now) a) < 2 ^ 32 }
    requires some { 0 < length set.now }
    requires few { length set.now < 2 ^ 32 }
    ensures done { IfOk result (λ p. IsTrue keeps → IsReadProgram parts.now p) }
    ensures accepted { OnOk result (NoneOf (Breaks (bytes_of set.now)) (program_layers writes)) }
    ensures refused { OnRefused result (InLayers (Breaks (bytes_of set.now)) (Names (bytes_of set.now)) (program_layers writes)) }
{
    let tables = match SetTables::new(alloc, parts) {
        Ok(tables) => tables,
        Err(e) => return Err(e.into()),
    };
    check_tables(alloc, set, &tables, writes, keeps)
}

/// The program of assemblies that are read: S1 and S2, then N, then I and X.
fn check_parts<'a>(
    alloc: Global,
    set: &'a [Assembly<'a>],
    parts: &'a [Part<'a>],
    writes: bool,
    keeps: bool,
) -> Result<Program, Fault>
    requires numbered { set.now ≡ files_from 0 (bytes_of set.now) }
    requires same { parts.now ≡ assemblies_of (bytes_of set.now) }
    requires short { (a : ℕ) → length (bytes_at (bytes_of set.now) a) < 2 ^ 32 }
    requires some { 0 < length set.now }
    requires few { length set.now < 2 ^ 32 }
    ensures done { IfOk result (λ p. IsTrue keeps → IsReadProgram parts.now p) }
    ensures accepted { OnOk result (NoneOf (Breaks (bytes_of set.now)) (row_layers writes)) }
    ensures refused { OnRefused result (InLayers (Breaks (bytes_of set.now)) (Names (bytes_of set.now)) (row_layers writes)) }
{
    match first_bad_blob(alloc, parts) {
        Ok(()) => check_names(alloc, set, parts, writes, keeps),
        Err(fault) => Err(fault),
    }
}

/// The program of assemblies that are read, its methods with their bodies. The refusal is the first
/// of S1 and S2, then of N (of N5 where the first is to be rewritten), then of I and X method by
/// method.
pub fn checked_program<'a>(
    alloc: Global,
    set: &'a [Assembly<'a>],
    writes: bool,
) -> Result<Program, Fault>
    requires numbered { set.now ≡ files_from 0 (bytes_of set.now) }
    requires short { (a : ℕ) → length (bytes_at (bytes_of set.now) a) < 2 ^ 32 }
    requires some { 0 < length set.now }
    requires few { length set.now < 2 ^ 32 }
    ensures done { IfOk result (IsReadProgram (assemblies_of (bytes_of set.now))) }
    ensures accepted { OnOk result (NoneOf (Breaks (bytes_of set.now)) (row_layers writes)) }
    ensures refused { OnRefused result (InLayers (Breaks (bytes_of set.now)) (Names (bytes_of set.now)) (row_layers writes)) }
{
    match parts(alloc, set) {
        Ok(parts) => check_parts(alloc, &*set, parts.as_slice(), writes, true),
        Err(e) => Err(e.into()),
    }
}

/// Tries the rules of a program on assemblies that are read. No body is kept.
fn check_program<'a>(alloc: Global, set: &'a [Assembly<'a>], writes: bool) -> Result<(), Fault>
    requires numbered { set.now ≡ files_from 0 (bytes_of set.now) }
    requires short { (a : ℕ) → length (bytes_at (bytes_of set.now) a) < 2 ^ 32 }
    requires some { 0 < length set.now }
    requires few { length set.now < 2 ^ 32 }
    ensures accepted { OnOk result (NoneOf (Breaks (bytes_of set.now)) (row_layers writes)) }
    ensures refused { OnRefused result (InLayers (Breaks (bytes_of set.now)) (Names (bytes_of set.now)) (row_layers writes)) }
{
    let parts = match parts(alloc, set) {
        Ok(parts) => parts,
        Err(e) => return Err(e.into()),
    };
    match check_parts(alloc, &*set, parts.as_slice(), writes, false) {
        Ok(_) => Ok(()),
        Err(fault) => Err(fault),
    }
}

/// Tries the rules on assemblies that are read: S1 and S2, N, I and X, then Z1.
fn check_read<'a>(alloc: Global, set: &'a [Assembly<'a>], writes: bool) -> Result<(), Fault>
    requires numbered { set.now ≡ files_from 0 (bytes_of set.now) }
    requires short { (a : ℕ) → length (bytes_at (bytes_of set.now) a) < 2 ^ 32 }
    requires some { 0 < length set.now }
    requires few { length set.now < 2 ^ 32 }
    ensures accepted { OnOk result (NoneOf (Breaks (bytes_of set.now)) (later_layers writes)) }
    ensures refused { OnRefused result (InLayers (Breaks (bytes_of set.now)) (Names (bytes_of set.now)) (later_layers writes)) }
{
    match check_program(alloc, &*set, writes) {
        Ok(()) => {}
        Err(fault) => return Err(fault),
    }
    match first_contract_row_from(set, 0) {
        Some(refusal) => Err(Fault::Refused(refusal)),
        None => Ok(()),
    }
}

/// The assemblies of these files, which keep the rules of a set; the number of each is its place.
/// The refusal is the first of P and M, assembly by assembly; then over the set of S1 and S2, of N
/// (of N5 where the first is to be rewritten), of I and X method by method; then of Z1 where one of
/// them has contracts.
pub fn checked_set<'a>(
    alloc: Global,
    files: &'a [Bytes],
    writes: bool,
) -> Result<Vec<Assembly<'a>>, Fault>
    requires short { (a : ℕ) → length (bytes_at files.now a) < 2 ^ 32 }
    requires some { 0 < length files.now }
    requires few { length files.now < 2 ^ 32 }
    ensures ok { IfOk result (λ set. set.items ≡ files_from 0 files.entry.now) }
    ensures accepted { OnOk result (IsSound writes files.entry.now) }
    ensures refused { OnRefused result (IsUnsound writes files.entry.now) }
{
    let set = match read_set(alloc, files) {
        Ok(set) => set,
        Err(fault) => return Err(fault),
    };
    match check_read(alloc, set.as_slice(), writes) {
        Ok(_) => Ok(set),
        Err(fault) => Err(fault),
    }
}
