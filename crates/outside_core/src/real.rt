// Files and the standard output.
ghost use Rattle.std.specs.Prelude.{◌≡◌, ◌≤◌, [], false, None, IfOk, length};

use crate::replace::replace_file;
use crate::sink::{Sink, SinkFailed};
use crate::store::{ReadRefusal, Store, StoreRefusal};
use crate::streams::{put_whole, read_whole};
use cil_base::Bytes;
use std::alloc::Global;
use std::fs::OpenFile;
use std::rt::Files;
use std::{fs, io};

/// Files under their paths. It counts its faults.
#[derive(Drop)]
pub struct FileStore<'r, R> {
    rt: &'r R,
    faults: u64,
}

impl<'r, R: Files> FileStore<'r, R> {
    pub fn new(rt: &'r R) -> Self {
        FileStore { rt, faults: 0 }
    }

    #[cfg(test)]
    pub fn faults(&self) -> u64 {
        self.faults
    }
}

/// The bytes of a file. A size past the cap is too long at once; where more is there than the size
/// says, it is read too.
fn read_capped<R: Files>(rt: &R, alloc: Global, name: &str, cap: u64) -> Result<Bytes, ReadRefusal>
    ensures { IfOk result (λ bytes. length bytes ≤ cap) }
{
    let file = match fs::open(rt, name) {
        Ok(file) => file,
        Err(_) => return Err(ReadRefusal::Failed),
    };
    let size = match file.metadata() {
        Ok(found) => found.len(),
        Err(_) => return Err(ReadRefusal::Failed),
    };
    if size > cap {
        return Err(ReadRefusal::TooLong);
    }
    Ok(Bytes::from_vec(read_whole(file, alloc, size as usize, cap)?))
}

impl<'r, R: Files> Store for FileStore<'r, R> {
    ghost tells = { λ s. false };

    ghost file = { λ s name. None };

    ghost faults = { λ s. s.faults };

    ghost steady = { λ s. false };

    fn read_all(&mut self, alloc: Global, name: &str, cap: u64) -> Result<Bytes, ReadRefusal> {
        match read_capped(self.rt, alloc, name, cap) {
            Ok(bytes) => Ok(bytes),
            Err(ReadRefusal::Failed) => {
                self.faults = self.faults.saturating_add(1);
                Err(ReadRefusal::Failed)
            }
            Err(ReadRefusal::TooLong) => Err(ReadRefusal::TooLong),
            Err(ReadRefusal::Memory(e)) => Err(ReadRefusal::Memory(e)),
        }
    }

    fn replace(&mut self, alloc: Global, name: &str, bytes: &[u8]) -> Result<(), StoreRefusal> {
        match replace_file(self.rt, alloc, name, bytes) {
            Ok(()) => Ok(()),
            Err(StoreRefusal::Failed) => {
                self.faults = self.faults.saturating_add(1);
                Err(StoreRefusal::Failed)
            }
            Err(StoreRefusal::Memory(e)) => Err(StoreRefusal::Memory(e)),
        }
    }
}

/// The standard output. It counts its faults.
#[derive(Drop)]
pub struct OutSink<'r, R> {
    rt: &'r R,
    faults: u64,
}

impl<'r, R: Print> OutSink<'r, R> {
    pub fn new(rt: &'r R) -> Self {
        OutSink { rt, faults: 0 }
    }
}

impl<'r, R: Print> Sink for OutSink<'r, R> {
    ghost tells = { λ s. false };

    ghost taken = { λ s. [] };

    ghost faults = { λ s. s.faults };

    ghost room = { λ s. None };

    fn put(&mut self, bytes: &[u8]) -> Result<(), SinkFailed> {
        match put_whole(&mut io::writer(self.rt), bytes) {
            Ok(()) => Ok(()),
            Err(_) => {
                self.faults = self.faults.saturating_add(1);
                Err(SinkFailed)
            }
        }
    }
}
