// The assemblies of a command's files.
ghost use Rattle.std.specs.Prelude.{◌≡◌, ◌<◌, ◌^◌, ◌++◌, ◌∷◌, [], ℕ, length, IfOk, OnOk};
ghost use Rattle.cil_base.specs.Refusals.{InLayers, NoneOf, OnRefused};
ghost use Rattle.assembly.specs.Assemblies.{IsReadable, IsUnread};
ghost use Rattle.set_check.specs.Sets.{bytes_at, files_from, all_reading_layers, Breaks, Names};

use assembly::Assembly;
use cil_base::{Bytes, Fault};
use std::alloc::{AllocError, Global};

/// Appends an assembly; after an error the list is as it was.
fn append<'a>(set: &mut Vec<Assembly<'a>>, assembly: Assembly<'a>) -> Result<(), AllocError>
    ensures ok { OnOk result (set.new.items ≡ set.old.items ++ assembly.entry ∷ []) }
{
    set.push(assembly)?;
    Ok(())
}

/// Reads one more assembly, whose number is the number of those before it.
fn read_more<'a>(alloc: Global, set: &mut Vec<Assembly<'a>>, bytes: &'a [u8]) -> Result<(), Fault>
    requires short { length bytes.now < 2 ^ 32 }
    requires few { length set.old.items < 2 ^ 32 }
    ensures ok { OnOk result (set.new.items ≡ set.old.items ++ record { bytes = bytes.entry.now; assembly = length set.old.items } ∷ []) }
    ensures accepted { OnOk result (IsReadable bytes.entry.now (length set.old.items)) }
    ensures refused { OnRefused result (IsUnread bytes.entry.now (length set.old.items)) }
{
    let number = set.len() as u32;
    let assembly = Assembly::read(alloc, bytes, number)?;
    append(set, assembly)?;
    Ok(())
}

/// The assemblies of these files; the number of each is its place. The refusal is the first of P
/// and M of the first that breaks one.
pub fn read_set<'a>(alloc: Global, files: &'a [Bytes]) -> Result<Vec<Assembly<'a>>, Fault>
    requires short { (a : ℕ) → length (bytes_at files.now a) < 2 ^ 32 }
    requires few { length files.now < 2 ^ 32 }
    ensures ok { IfOk result (λ set. set.items ≡ files_from 0 files.entry.now) }
    ensures accepted { OnOk result (NoneOf (Breaks files.entry.now) (all_reading_layers 0 (length files.entry.now))) }
    ensures refused { OnRefused result (InLayers (Breaks files.entry.now) (Names files.entry.now) (all_reading_layers 0 (length files.entry.now))) }
{
    let mut set = Vec::new(alloc);
    for k in 0..files.len() {
        match read_more(alloc, &mut set, files[k].as_slice()) {
            Ok(()) => {}
            Err(fault) => return Err(fault),
        }
    }
    Ok(set)
}
