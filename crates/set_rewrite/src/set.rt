// The first assembly of a set, written anew.
ghost use Rattle.std.specs.Prelude.{◌≡◌, ◌<◌, ◌^◌, ℕ, true, length, IfOk, OnOk};
ghost use Rattle.cil_base.specs.Refusals.{OnRefused};
ghost use Rattle.assembly_rewrite.specs.Rewrite.{KeepsRows};
ghost use Rattle.set_check.specs.Sets.{bytes_at, bytes_of, files_from, IsSound};
ghost use Rattle.set_rewrite.specs.Sets.{IsSetRefusal, KeepsSetRules};

use assembly::Assembly;
use assembly_rewrite::rewrite_assembly;
use cil_base::{Bytes, Fault};
use set_check::checked_set;
use std::alloc::Global;

/// Writes the first of the assemblies anew, which keep the rules of a set.
fn rewrite_first(alloc: Global, set: &[Assembly<'_>]) -> Result<Bytes, Fault>
    requires numbered { set.now ≡ files_from 0 (bytes_of set.now) }
    requires sound { IsSound true (bytes_of set.now) }
    requires some { 0 < length set.now }
    ensures done { IfOk result (KeepsRows (bytes_at (bytes_of set.now) 0) 0) }
    ensures accepted { OnOk result (KeepsSetRules (bytes_of set.now)) }
    ensures refused { OnRefused result (IsSetRefusal (bytes_of set.now)) }
{
    rewrite_assembly(alloc, &set[0])
}

/// The bytes of the first of these assemblies in an image that has grown by one section, which
/// holds its metadata. The refusal is the first that `checked_set` says; then of L5, P5 and L6, as
/// `rewrite_assembly` says.
pub fn rewrite_set(alloc: Global, files: &[Bytes]) -> Result<Bytes, Fault>
    requires short { (a : ℕ) → length (bytes_at files.now a) < 2 ^ 32 }
    requires few { length files.now < 2 ^ 32 }
    requires some { 0 < length files.now }
    ensures done { IfOk result (KeepsRows (bytes_at files.now 0) 0) }
    ensures accepted { OnOk result (KeepsSetRules files.now) }
    ensures refused { OnRefused result (IsSetRefusal files.now) }
{
    let set = match checked_set(alloc, files, true) {
        Ok(set) => set,
        Err(fault) => return Err(fault),
    };
    rewrite_first(alloc, set.as_slice())
}
