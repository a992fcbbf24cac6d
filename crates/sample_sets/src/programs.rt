// What is looked up in the program of a sample.
ghost use Rattle.std.specs.Prelude.{◌≡◌, ◌<◌, ◌^◌, ℕ, length, true};
ghost use Rattle.set_check.specs.Sets.{bytes_at};

use crate::cells::no_sample;
use crate::samples::{assemblies, image};
use cil_base::{Bytes, Fault};
use cil_model::{Program, Source, Ty};
use look_ups::{find_virtual, is_subtype, is_visible, sources_of};
use set_check::{checked_program, read_set};
use std::alloc::{AllocError, Global};

fn append(files: &mut Vec<Bytes>, file: Bytes) -> Result<(), AllocError> {
    files.push(file)?;
    Ok(())
}

/// The bytes of the assemblies of a sample.
fn files_of(alloc: Global, sample: &[&str]) -> Result<Vec<Bytes>, Fault> {
    let mut files = Vec::new(alloc);
    for number in 0..assemblies(sample) {
        append(&mut files, image(alloc, sample, number)?)?;
    }
    Ok(files)
}

fn are_short(files: &[Bytes]) -> bool
    ensures { result ≡ true → (a : ℕ) → length (bytes_at files.now a) < 2 ^ 32 }
{
    for file in files {
        if file.as_slice().len() as u64 >= 1 << 32 {
            return false;
        }
    }
    true
}

/// The program of these files, its methods with their bodies.
fn read_program(alloc: Global, files: &[Bytes]) -> Result<Program, Fault>
    requires short { (a : ℕ) → length (bytes_at files.now a) < 2 ^ 32 }
    requires few { length files.now < 2 ^ 32 }
    requires some { 0 < length files.now }
{
    match read_set(alloc, files) {
        Ok(set) => checked_program(alloc, set.as_slice(), false),
        Err(fault) => Err(fault),
    }
}

fn program_from(alloc: Global, files: &[Bytes]) -> Result<Program, Fault> {
    if files.is_empty() || files.len() as u64 >= 1 << 32 || !are_short(files) {
        return Err(no_sample());
    }
    read_program(alloc, files)
}

fn program_of(alloc: Global, sample: &[&str]) -> Result<Program, Fault> {
    let files = files_of(alloc, sample)?;
    program_from(alloc, files.as_slice())
}

fn are_of(sources: &[Source], methods: &[u32]) -> bool {
    sources.len() == methods.len()
        && sources
            .iter()
            .zip(methods)
            .all(|(source, method)| source.method == *method)
}

/// Whether the sources of a method of a sample are these, in order. Types and methods are numbered from 0 by the rows of
/// TypeDef and MethodDef, those of the first assembly behind those of the others. The fault is the rule that the sample breaks.
pub fn sources_are(
    alloc: Global,
    sample: &[&str],
    method: u32,
    want: &[u32],
) -> Result<bool, Fault> {
    let program = program_of(alloc, sample)?;
    let sources = sources_of(alloc, &program, method)?;
    Ok(are_of(sources.as_slice(), want))
}

/// Whether a virtual call of a type's method runs the body of this method on an object of a type, or none.
pub fn body_is(
    alloc: Global,
    sample: &[&str],
    object: u32,
    call: (u32, u32),
    want: Option<u32>,
) -> Result<bool, Fault> {
    let program = program_of(alloc, sample)?;
    let (owner, method) = call;
    let found = find_virtual(
        alloc,
        &program,
        &Ty::Known(object),
        &Ty::Known(owner),
        method,
    )?;
    Ok(match found {
        Some(source) => want == Some(source.method),
        None => want.is_none(),
    })
}

/// Whether a type is a sub of another.
pub fn is_sub(alloc: Global, sample: &[&str], sub: u32, of: u32) -> Result<bool, Fault> {
    let program = program_of(alloc, sample)?;
    Ok(is_subtype(alloc, &program, &Ty::Known(sub), &Ty::Known(of))?)
}

/// Whether a method can be seen from other assemblies.
pub fn is_visible_method(alloc: Global, sample: &[&str], method: u32) -> Result<bool, Fault> {
    let program = program_of(alloc, sample)?;
    Ok(is_visible(&program, method))
}
