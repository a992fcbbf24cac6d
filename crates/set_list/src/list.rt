// The list of a set.
ghost use Rattle.std.specs.Prelude.{◌≡◌, ◌<◌, ◌^◌, ℕ, length, IfOk, OnOk};
ghost use Rattle.cil_base.specs.Refusals.{InLayers, NoneOf, OnRefused};
ghost use Rattle.set_check.specs.Sets.{bytes_at, bytes_of, files_from};
ghost use Rattle.set_list.specs.Lists.{later_layers, Breaks, IsListed, IsSound, IsUnsound, Names};

use crate::contracts::checked_contracts;
use assembly::Assembly;
use cil_base::{Bytes, Fault};
use list_lines::list_text;
use set_check::{checked_program, read_set};
use std::alloc::Global;

/// The list of assemblies that are read.
fn list_read<'a>(alloc: Global, set: &'a [Assembly<'a>]) -> Result<Bytes, Fault>
    requires numbered { set.now ≡ files_from 0 (bytes_of set.now) }
    requires short { (a : ℕ) → length (bytes_at (bytes_of set.now) a) < 2 ^ 31 }
    requires some { 0 < length set.now }
    requires few { length set.now < 2 ^ 32 }
    ensures done { IfOk result (IsListed (bytes_of set.now)) }
    ensures accepted { OnOk result (NoneOf (Breaks (bytes_of set.now)) later_layers) }
    ensures refused { OnRefused result (InLayers (Breaks (bytes_of set.now)) (Names (bytes_of set.now)) later_layers) }
{
    let program = match checked_program(alloc, &*set, false) {
        Ok(program) => program,
        Err(fault) => return Err(fault),
    };
    let contracts = match checked_contracts(alloc, set, &program) {
        Ok(contracts) => contracts,
        Err(fault) => return Err(fault),
    };
    match list_text(alloc, &program, contracts.as_slice()) {
        Ok(text) => Ok(text),
        Err(e) => Err(e.into()),
    }
}

/// A line for each type of the first of these assemblies, behind it one for each of its methods, and
/// behind each of these one for each clause of its own contract. The refusal is the first of P and M
/// assembly by assembly; then over the set of S1 and S2, of N, of I and X method by method, of C1 to
/// C7 method by method; then of Z1, where effective contracts aren't the own ones.
pub fn list_set(alloc: Global, files: &[Bytes]) -> Result<Bytes, Fault>
    requires short { (a : ℕ) → length (bytes_at files.now a) < 2 ^ 31 }
    requires few { length files.now < 2 ^ 32 }
    requires some { 0 < length files.now }
    ensures done { IfOk result (IsListed files.now) }
    ensures accepted { OnOk result (IsSound files.now) }
    ensures refused { OnRefused result (IsUnsound files.now) }
{
    match read_set(alloc, files) {
        Ok(set) => list_read(alloc, set.as_slice()),
        Err(fault) => Err(fault),
    }
}
