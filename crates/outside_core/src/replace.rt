// One file in place of another: the new bytes are written beside it, and take its name at the end.

use crate::store::StoreRefusal;
use crate::streams::put_synced;
use std::alloc::{AllocError, Global};
use std::fs::{Metadata, OpenFile, OpenOptions, Permissions};
use std::io::ErrorKind;
use std::os::unix::fs::{OpenOptionsExt, PermissionsExt};
use std::rt::Files;
use std::{fs, io};

/// How many names beside a file are tried.
const NAMES: u32 = 64;

/// The bits of a mode that a new file takes from the old one: who may read, write and run it.
const MODE: u32 = 0o777;

/// The mode of a file that is still being written in place of another.
const PRIVATE: u32 = 0o600;

/// The file that a name stands for, behind links.
#[derive(Drop)]
struct Target {
    path: String,
    /// The mode of the file that stands there.
    mode: Option<u32>,
}

fn refusal_of(error: io::Error) -> StoreRefusal {
    if error.kind() == ErrorKind::OutOfMemory {
        StoreRefusal::Memory(AllocError)
    } else {
        StoreRefusal::Failed
    }
}

fn copy_of_name(alloc: Global, text: &str) -> Result<String, StoreRefusal> {
    String::from_str(alloc, text).map_err(StoreRefusal::Memory)
}

/// The mode of a file that may be replaced: a regular one that has a write bit.
fn replaceable(found: &Metadata) -> Option<u32> {
    let permissions = found.permissions();
    if found.is_file() && !permissions.readonly() {
        Some(permissions.mode() & MODE)
    } else {
        None
    }
}

fn path_behind<R: Files>(
    rt: &R,
    alloc: Global,
    name: &str,
    found: &Metadata,
) -> Result<String, StoreRefusal> {
    if !found.is_symlink() {
        return copy_of_name(alloc, name);
    }
    match rt.canonicalize(alloc, name) {
        Ok(path) => Ok(path.into_string()),
        Err(e) => Err(refusal_of(e)),
    }
}

/// What is replaced under a name. What is no regular file, or has no write bit, is refused.
fn target_of<R: Files>(rt: &R, alloc: Global, name: &str) -> Result<Target, StoreRefusal> {
    let found = match fs::symlink_metadata(rt, name) {
        Ok(found) => found,
        Err(e) if e.kind() == ErrorKind::NotFound => {
            let path = copy_of_name(alloc, name)?;
            return Ok(Target { path, mode: None });
        }
        Err(e) => return Err(refusal_of(e)),
    };
    let path = path_behind(rt, alloc, name, &found)?;
    match fs::metadata(rt, path.as_str()) {
        Ok(found) => match replaceable(&found) {
            Some(mode) => {
                let mode = Some(mode);
                Ok(Target { path, mode })
            }
            None => Err(StoreRefusal::Failed),
        },
        Err(e) => Err(refusal_of(e)),
    }
}

/// A file that this call alone has made, with its path, which is beside the given one.
fn open_beside<R: Files>(
    rt: &R,
    alloc: Global,
    path: &str,
    private: bool,
) -> Result<(String, R::File), StoreRefusal> {
    let mut options = OpenOptions::new();
    options.write(true).create_new(true);
    if private {
        options.mode(PRIVATE);
    }
    for k in 0..NAMES {
        let beside = match format!(in alloc; "{path}.{k}.new") {
            Ok(beside) => beside,
            Err(e) => return Err(StoreRefusal::Memory(e)),
        };
        match options.open(rt, beside.as_str()) {
            Ok(file) => return Ok((beside, file)),
            Err(e) if e.kind() == ErrorKind::AlreadyExists => {}
            Err(e) => return Err(refusal_of(e)),
        }
    }
    Err(StoreRefusal::Failed)
}

fn fill<F: io::Write + OpenFile>(file: &mut F, mode: Option<u32>, bytes: &[u8]) -> io::Result<()> {
    if let Some(mode) = mode {
        file.set_permissions(Permissions::from_mode(mode))?;
    }
    put_synced(file, bytes)
}

/// Fills the new file, closes it and gives it the name.
fn put_in_place<R: Files>(
    rt: &R,
    file: R::File,
    beside: &str,
    target: &Target,
    bytes: &[u8],
) -> io::Result<()> {
    let mut file = file;
    fill(&mut file, target.mode, bytes)?;
    drop(file);
    fs::rename(rt, beside, target.path.as_str())
}

/// Puts the bytes under a name, all of them or none. A link stays, and what it names is replaced; the
/// new file has the old one's mode. Where a call fails the file that was begun is removed.
pub(crate) fn replace_file<R: Files>(
    rt: &R,
    alloc: Global,
    name: &str,
    bytes: &[u8],
) -> Result<(), StoreRefusal> {
    let target = target_of(rt, alloc, name)?;
    let (beside, file) = open_beside(rt, alloc, target.path.as_str(), target.mode.is_some())?;
    match put_in_place(rt, file, beside.as_str(), &target, bytes) {
        Ok(()) => Ok(()),
        Err(e) => {
            let _ = fs::remove_file(rt, beside.as_str());
            Err(refusal_of(e))
        }
    }
}
