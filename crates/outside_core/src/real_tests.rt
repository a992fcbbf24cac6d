// Files on a disk, and files whose calls fail: each call of a replacement in turn.
use crate::real::{FileStore, OutSink};
use crate::replace::replace_file;
use crate::sink::Sink;
use crate::store::{ReadRefusal, Store, StoreRefusal};
use crate::streams::{put_whole, read_whole};
use std::alloc::{Allocator, Global};
use std::cell::Cell;
use std::fs::{Metadata, OpenFile, OpenOptions, Permissions};
use std::io::{ErrorKind, Read, Seek, SeekFrom, Write};
use std::os::unix::fs::{PermissionsExt, symlink};
use std::path::PathBuf;
use std::rt::Files;
use std::test::Fail;
use std::{fs, io};

/// How many calls still succeed, and which were made: a digit for each, the last one lowest.
#[derive(Drop)]
struct Calls {
    left: Cell<u32>,
    made: Cell<u64>,
}

impl Calls {
    fn failing_after(left: u32) -> Calls {
        Calls {
            left: Cell::new(left),
            made: Cell::new(0),
        }
    }

    fn count(&self, kind: u64) -> io::Result<()> {
        self.made
            .set(self.made.get().wrapping_mul(10).wrapping_add(kind));
        let left = self.left.get();
        if left == 0 {
            return Err(io::Error::from(ErrorKind::Other));
        }
        self.left.set(left - 1);
        Ok(())
    }
}

/// The files of a runtime, and calls that fail.
#[derive(Drop)]
struct FailingFiles<'r, R> {
    rt: &'r R,
    calls: &'r Calls,
}

#[derive(Drop)]
struct FailingFile<'r, F> {
    file: F,
    calls: &'r Calls,
}

impl<'r, F: Read> Read for FailingFile<'r, F> {
    fn read(&mut self, buf: &mut [u8]) -> io::Result<usize> {
        self.file.read(buf)
    }
}

impl<'r, F: Write> Write for FailingFile<'r, F> {
    fn write(&mut self, buf: &[u8]) -> io::Result<usize> {
        self.calls.count(4)?;
        // At most so much at a time, as a pipe or a full disk takes it.
        self.file.write(&buf[..buf.len().min(3000)])
    }

    fn flush(&mut self) -> io::Result<()> {
        self.file.flush()
    }
}

impl<'r, F: Seek> Seek for FailingFile<'r, F> {
    fn seek(&mut self, to: SeekFrom) -> io::Result<u64> {
        self.file.seek(to)
    }
}

impl<'r, F: OpenFile> OpenFile for FailingFile<'r, F> {
    fn metadata(&self) -> io::Result<Metadata> {
        self.file.metadata()
    }

    fn set_len(&self, size: u64) -> io::Result<()> {
        self.file.set_len(size)
    }

    fn sync_all(&self) -> io::Result<()> {
        self.calls.count(6)?;
        self.file.sync_all()
    }

    fn sync_data(&self) -> io::Result<()> {
        self.file.sync_data()
    }

    fn set_permissions(&self, perm: Permissions) -> io::Result<()> {
        self.calls.count(5)?;
        self.file.set_permissions(perm)
    }
}

impl<'r, R: Files> Files for FailingFiles<'r, R> {
    type File = FailingFile<'r, R::File>;

    type Dir = R::Dir;

    fn open_file(&self, how: &OpenOptions, path: &str) -> io::Result<FailingFile<'r, R::File>> {
        self.calls.count(3)?;
        let file = self.rt.open_file(how, path)?;
        Ok(FailingFile {
            file,
            calls: self.calls,
        })
    }

    fn open_dir(&self, path: &str) -> io::Result<R::Dir> {
        self.rt.open_dir(path)
    }

    fn metadata(&self, path: &str) -> io::Result<Metadata> {
        self.calls.count(2)?;
        self.rt.metadata(path)
    }

    fn symlink_metadata(&self, path: &str) -> io::Result<Metadata> {
        self.calls.count(1)?;
        self.rt.symlink_metadata(path)
    }

    fn copy(&self, from: &str, to: &str) -> io::Result<u64> {
        self.rt.copy(from, to)
    }

    fn rename(&self, from: &str, to: &str) -> io::Result<()> {
        self.calls.count(7)?;
        self.rt.rename(from, to)
    }

    fn remove_file(&self, path: &str) -> io::Result<()> {
        self.rt.remove_file(path)
    }

    fn create_dir(&self, path: &str) -> io::Result<()> {
        self.rt.create_dir(path)
    }

    fn remove_dir(&self, path: &str) -> io::Result<()> {
        self.rt.remove_dir(path)
    }

    fn remove_dir_all<B: Allocator>(&self, alloc: B, path: &str) -> io::Result<()> {
        self.rt.remove_dir_all(alloc, path)
    }

    fn canonicalize<B: Allocator>(&self, alloc: B, path: &str) -> io::Result<PathBuf<B>> {
        self.rt.canonicalize(alloc, path)
    }
}

/// Whether the file has these bytes and this mode.
fn stands(rt: &HostRuntime, path: &str, bytes: &[u8], mode: u32) -> bool {
    let same = matches!(fs::read(rt, path), Ok(found) if found.as_slice() == bytes);
    let found =
        matches!(fs::metadata(rt, path), Ok(found) if found.permissions().mode() & 0o777 == mode);
    same && found
}

fn is_there(rt: &HostRuntime, path: &str) -> bool {
    fs::symlink_metadata(rt, path).is_ok()
}

/// Bytes for more than one buffer, each place its own.
fn many_bytes(alloc: Global) -> Result<Vec<u8>, Fail> {
    let mut bytes = Vec::new(alloc);
    for i in 0..10_000u32 {
        bytes.push((i % 251) as u8)?;
    }
    Ok(bytes)
}

fn with_mode(rt: &HostRuntime, path: &str, bytes: &[u8], mode: u32) -> Result<(), Fail> {
    fs::write(rt, path, bytes)?;
    fs::set_permissions(rt, path, Permissions::from_mode(mode))?;
    Ok(())
}

/// A replacement of which so many calls succeed: whether it succeeded, and which calls were made.
fn tried(rt: &HostRuntime, left: u32, bytes: &[u8]) -> (bool, u64) {
    let calls = Calls::failing_after(left);
    let files = FailingFiles { rt, calls: &calls };
    let done = replace_file(&files, rt.alloc(), "b.dll", bytes);
    (done.is_ok(), calls.made.get())
}

#[test]
fn each_call_of_a_replacement_fails_in_turn(rt: HostRuntime) -> Result<(), Fail> {
    let bytes = many_bytes(rt.alloc())?;
    with_mode(&rt, "b.dll", b"old", 0o640)?;
    // Look, follow, open, set the mode, four writes, sync, rename.
    for left in 0..10 {
        let (done, _) = tried(&rt, left, bytes.as_slice());
        let kept = stands(&rt, "b.dll", b"old", 0o640);
        let nothing_left = !is_there(&rt, "b.dll.0.new");
        assert!(rt; !done && kept && nothing_left);
    }
    let (done, made) = tried(&rt, 10, bytes.as_slice());
    let there = stands(&rt, "b.dll", bytes.as_slice(), 0o640);
    let nothing_left = !is_there(&rt, "b.dll.0.new");
    assert!(rt; done && there && nothing_left);
    assert_eq!(rt; made, 1_235_444_467);
    Ok(())
}

#[test]
fn what_stands_beside_a_file_is_left(rt: HostRuntime) -> Result<(), Fail> {
    let mut store = FileStore::new(&rt);
    fs::write(&rt, "c.dll.0.new", b"mine")?;
    symlink(&rt, "nowhere", "c.dll.1.new")?;
    let done = store.replace(rt.alloc(), "c.dll", b"bytes").is_ok();
    let there =
        matches!(fs::read(&rt, "c.dll"), Ok(found) if found.as_slice() == b"bytes".as_slice());
    let mine =
        matches!(fs::read(&rt, "c.dll.0.new"), Ok(found) if found.as_slice() == b"mine".as_slice());
    let nothing_made = !is_there(&rt, "nowhere") && !is_there(&rt, "c.dll.2.new");
    assert!(rt; done && there && mine && nothing_made);
    Ok(())
}

#[test]
fn a_link_stays_and_what_it_names_is_replaced(rt: HostRuntime) -> Result<(), Fail> {
    let mut store = FileStore::new(&rt);
    fs::create_dir(&rt, "folder")?;
    with_mode(&rt, "folder/d.dll", b"old", 0o755)?;
    symlink(&rt, "folder/d.dll", "d.dll")?;
    let done = store.replace(rt.alloc(), "d.dll", b"bytes").is_ok();
    let linked = matches!(fs::symlink_metadata(&rt, "d.dll"), Ok(found) if found.is_symlink());
    assert!(rt; done && linked && stands(&rt, "folder/d.dll", b"bytes", 0o755));
    Ok(())
}

#[test]
fn what_may_not_be_replaced_is_a_fault(rt: HostRuntime) -> Result<(), Fail> {
    let mut store = FileStore::new(&rt);
    let alloc = rt.alloc();
    with_mode(&rt, "e.dll", b"old", 0o444)?;
    fs::create_dir(&rt, "f")?;
    symlink(&rt, "nowhere", "g.dll")?;
    // Without a write bit, a folder, a device, a link to nothing, a folder that isn't there.
    for name in ["e.dll", "f", "/dev/null", "g.dll", "h/h.dll"] {
        let failed = matches!(
            store.replace(alloc, name, b"bytes"),
            Err(StoreRefusal::Failed)
        );
        assert!(rt; failed);
    }
    assert!(rt; stands(&rt, "e.dll", b"old", 0o444) && !is_there(&rt, "nowhere"));
    assert_eq!(rt; store.faults(), 5);
    Ok(())
}

#[test]
fn files_are_replaced_and_read(rt: HostRuntime) -> Result<(), Fail> {
    let alloc = rt.alloc();
    let bytes = many_bytes(alloc)?;
    let mut store = FileStore::new(&rt);
    assert!(rt; store.replace(alloc, "a.dll", b"old").is_ok());
    assert!(rt; store.replace(alloc, "a.dll", bytes.as_slice()).is_ok());
    let same =
        matches!(store.read_all(alloc, "a.dll", 10_000), Ok(found) if found.as_slice() == bytes.as_slice());
    let long = matches!(
        store.read_all(alloc, "a.dll", 9_999),
        Err(ReadRefusal::TooLong)
    );
    assert!(rt; same && long);
    assert_eq!(rt; store.faults(), 0);
    let missing = matches!(
        store.read_all(alloc, "missing.dll", 5),
        Err(ReadRefusal::Failed)
    );
    assert!(rt; missing);
    assert_eq!(rt; store.faults(), 1);
    Ok(())
}

/// Bytes that come a few at a time, with an interruption between them, and then perhaps an error.
#[derive(Drop)]
struct Slow {
    left: u32,
    turn: u32,
    fails: bool,
}

impl Read for Slow {
    fn read(&mut self, buf: &mut [u8]) -> io::Result<usize> {
        self.turn = self.turn.wrapping_add(1);
        if self.turn % 2 == 0 {
            return Err(io::Error::from(ErrorKind::Interrupted));
        }
        if self.left == 0 || buf.is_empty() {
            if self.fails {
                return Err(io::Error::from(ErrorKind::Other));
            }
            return Ok(0);
        }
        self.left -= 1;
        buf[0] = 7;
        Ok(1)
    }
}

fn slow_stream(left: u32, fails: bool) -> Slow {
    Slow {
        left,
        turn: 0,
        fails,
    }
}

#[test]
fn a_stream_is_read_to_its_end(rt: HostRuntime) {
    let alloc = rt.alloc();
    let whole =
        matches!(read_whole(slow_stream(5, false), alloc, 2, 5), Ok(found) if found.as_slice() == [7u8; 5].as_slice());
    assert!(rt; whole);
    let long = matches!(
        read_whole(slow_stream(6, false), alloc, 2, 5),
        Err(ReadRefusal::TooLong)
    );
    assert!(rt; long);
    let failed = matches!(
        read_whole(slow_stream(5, true), alloc, 2, 9),
        Err(ReadRefusal::Failed)
    );
    assert!(rt; failed);
}

/// Takes a byte at a time, with an interruption between them.
#[derive(Drop)]
struct Narrow {
    taken: [u8; 4],
    count: usize,
    turn: u32,
}

impl Write for Narrow {
    fn write(&mut self, buf: &[u8]) -> io::Result<usize> {
        self.turn = self.turn.wrapping_add(1);
        if self.turn % 2 == 0 {
            return Err(io::Error::from(ErrorKind::Interrupted));
        }
        if buf.is_empty() || self.count >= 4 {
            return Ok(0);
        }
        self.taken[self.count] = buf[0];
        self.count += 1;
        Ok(1)
    }

    fn flush(&mut self) -> io::Result<()> {
        Ok(())
    }
}

/// What is taken of some bytes, and whether that was all.
fn narrowed(bytes: &[u8]) -> ([u8; 4], bool) {
    let mut narrow = Narrow {
        taken: [0; 4],
        count: 0,
        turn: 0,
    };
    let done = put_whole(&mut narrow, bytes).is_ok();
    (narrow.taken, done)
}

#[test]
fn bytes_are_put_whole(rt: HostRuntime) {
    assert_eq!(rt; narrowed(b"abcd"), (*b"abcd", true));
    // One that takes nothing of what is left is an error.
    assert_eq!(rt; narrowed(b"abcde"), (*b"abcd", false));
}

#[test]
fn text_is_put(rt: HostRuntime) {
    let mut out = OutSink::new(&rt);
    assert!(rt; out.put(b"text\n").is_ok());
}
