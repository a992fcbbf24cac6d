// The files of a command.
ghost use Rattle.std.specs.Prelude.{◌≡◌, ◌+◌, ◌≤◌, ◌<◌, ◌^◌, ◌++◌, ◌∷◌, [], length, IsTrue, OnOk};
ghost use Rattle.cil_base.specs.declared.limits.TheConstants.{SET_LIMIT, ASSEMBLY_LIMIT};
ghost use Rattle.outside_core.specs.Store.{SameFiles, StaysSteady};
ghost use Rattle.command_line.specs.Options.{texts};
ghost use Rattle.program.specs.Reading.{too_long, too_many, FileRead, FilesRead};

use cil_base::limits::{ASSEMBLY_LIMIT, FILE_LIMIT, SET_LIMIT};
use cil_base::{Bytes, Refusal, Rule};
use outside_core::{ReadRefusal, Store};
use std::alloc::{AllocError, Global};

/// Why the files of a command can't be had.
#[derive(Drop)]
pub(crate) enum FilesFault<'a> {
    /// The file of this name can't be read.
    Failed(&'a str),
    /// A limit is passed.
    Limit(Refusal),
    Memory(AllocError),
}

/// The refusal of a file that is too long.
fn refusal_of_size(number: u32) -> Refusal
    ensures { result ≡ too_long number }
{
    Refusal {
        rule: Rule::L1,
        assembly: number,
        table: 0,
        row: 0,
        at: FILE_LIMIT + 1,
    }
}

/// The refusal of so many files, where they are too many.
pub(crate) fn refusal_of_number() -> Refusal
    ensures { result ≡ too_many }
{
    Refusal::limit(Rule::L2, ASSEMBLY_LIMIT)
}

/// Reads the file of this name, by its number, behind so many bytes.
fn read_file<'a, S: Store>(
    alloc: Global,
    store: &mut S,
    name: &'a str,
    number: u32,
    sum: u32,
) -> Result<Bytes, FilesFault<'a>>
    requires { sum ≤ SET_LIMIT }
    ensures read { FileRead (S.tells store.old) (S.file store.old name.now) number sum name.now (S.faults store.old) (S.faults store.new) result }
    ensures kept { SameFiles (S.file store.old) (S.file store.new) }
    ensures tells { S.tells store.new ≡ S.tells store.old }
    ensures steady { StaysSteady (S.steady store.old) (S.steady store.new) (S.faults store.old) (S.faults store.new) }
{
    match store.read_all(alloc, name, FILE_LIMIT as u64) {
        Err(ReadRefusal::Failed) => Err(FilesFault::Failed(name)),
        Err(ReadRefusal::TooLong) => Err(FilesFault::Limit(refusal_of_size(number))),
        Err(ReadRefusal::Memory(e)) => Err(FilesFault::Memory(e)),
        Ok(bytes) => {
            if bytes.as_slice().len() as u32 > SET_LIMIT - sum {
                return Err(FilesFault::Limit(Refusal::limit(Rule::L2, SET_LIMIT)));
            }
            Ok(bytes)
        }
    }
}

/// Appends the bytes of a file.
fn append(files: &mut Vec<Bytes>, bytes: Bytes) -> Result<(), AllocError>
    ensures ok { OnOk result (files.new.items ≡ files.old.items ++ bytes ∷ []) }
{
    files.push(bytes)?;
    Ok(())
}

/// Reads the files of these names in turn, and stops at the first that is missing or passes a limit.
pub(crate) fn read_files<'a, S: Store>(
    alloc: Global,
    store: &mut S,
    names: &'a [String],
) -> Result<Vec<Bytes>, FilesFault<'a>>
    requires { length names.now ≤ ASSEMBLY_LIMIT }
    ensures read { FilesRead (S.tells store.old) (S.file store.old) (texts names.now) (S.faults store.old) (S.faults store.new) result }
    ensures kept { SameFiles (S.file store.old) (S.file store.new) }
    ensures tells { S.tells store.new ≡ S.tells store.old }
    ensures steady { IsTrue (S.steady store.old) → IsTrue (S.steady store.new) × (S.faults store.new ≡ S.faults store.old) }
{
    let mut files = Vec::new(alloc);
    let mut sum = 0;
    for k in 0..names.len() {
        let bytes = match read_file(alloc, store, names[k].as_str(), k as u32, sum) {
            Ok(bytes) => bytes,
            Err(fault) => return Err(fault),
        };
        sum += bytes.as_slice().len() as u32;
        if let Err(e) = append(&mut files, bytes) {
            return Err(FilesFault::Memory(e));
        }
    }
    Ok(files)
}
