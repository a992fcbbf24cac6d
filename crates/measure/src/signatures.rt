// The signatures of real assemblies, read by the product's readers.
ghost use Rattle.std.specs.Prelude.{◌<◌, ◌^◌, length};

use assembly::Assembly;
use cil_base::{Fault, Place, Refusal};
use cli_heaps::Heaps;
use cli_sigs::{
    read_field_sig, read_locals, read_method_sig, read_method_spec, read_property_sig,
    read_type_spec,
};
use outside_core::{FileStore, ReadRefusal, Store};
use std::alloc::Global;
use std::io;

/// The tables that have signatures, and the columns where they stand (ECMA-335, II.22).
const COLUMNS: [(u8, u8); 7] = [
    (0x04, 2),
    (0x06, 4),
    (0x0A, 2),
    (0x11, 0),
    (0x17, 2),
    (0x1B, 0),
    (0x2B, 1),
];

/// Reads a signature of a table. A MemberRef row names a field where its first byte is 6. Of
/// StandAloneSig rows only those of locals are read.
fn read_sig(alloc: Global, blob: &[u8], place: Place) -> Result<(), Fault>
    requires { length blob.now < 2 ^ 32 }
{
    match (place.table, blob.first().copied().unwrap_or(0)) {
        (0x04, _) | (0x0A, 6) => {
            let _sig = read_field_sig(alloc, blob, place)?;
        }
        (0x06, _) | (0x0A, _) => {
            let _sig = read_method_sig(alloc, blob, place)?;
        }
        (0x11, 7) => {
            let _locals = read_locals(alloc, blob, place)?;
        }
        (0x17, _) => {
            let _sig = read_property_sig(alloc, blob, place)?;
        }
        (0x1B, _) => {
            let _ty = read_type_spec(alloc, blob, place)?;
        }
        (0x2B, _) => {
            let _tys = read_method_spec(alloc, blob, place)?;
        }
        _ => {}
    }
    Ok(())
}

/// What a scan has counted.
#[derive(Clone, Copy, Default)]
pub struct Counts {
    pub files: u64,
    pub unread: u64,
    pub blobs: u64,
    pub refused: u64,
}

fn print_refusal(rt: &HostRuntime, name: &str, refusal: &Refusal) -> io::Result<()> {
    let Refusal {
        rule,
        table,
        row,
        at,
        ..
    } = *refusal;
    println!(rt; "{name}: {rule} table {table} row {row} at {at}")
}

/// Reads the blob of a row, and prints its refusal.
fn scan_row(
    rt: &HostRuntime,
    name: &str,
    heaps: &Heaps<'_>,
    blob: u32,
    place: Place,
    counts: &mut Counts,
) -> io::Result<()> {
    counts.blobs = counts.blobs.saturating_add(1);
    let Some(bytes) = heaps.blob(blob) else {
        return Ok(());
    };
    if bytes.len() > u32::MAX as usize {
        return Ok(());
    }
    match read_sig(rt.alloc(), bytes, place) {
        Ok(()) => Ok(()),
        Err(Fault::Refused(refusal)) => {
            counts.refused = counts.refused.saturating_add(1);
            print_refusal(rt, name, &refusal)
        }
        Err(Fault::Memory(_)) => {
            counts.refused = counts.refused.saturating_add(1);
            println!(rt; "{name}: out of memory")
        }
    }
}

/// Reads each signature of a column.
fn scan_column(
    rt: &HostRuntime,
    name: &str,
    assembly: &Assembly<'_>,
    table: u8,
    column: u8,
    counts: &mut Counts,
) -> io::Result<()> {
    let mut row = 0u32;
    for blob in assembly.tables().column(table, column) {
        row = row.saturating_add(1);
        let place = Place {
            assembly: 0,
            table,
            row,
        };
        scan_row(rt, name, assembly.heaps(), *blob, place, counts)?;
    }
    Ok(())
}

fn scan_assembly(
    rt: &HostRuntime,
    name: &str,
    assembly: &Assembly<'_>,
    counts: &mut Counts,
) -> io::Result<()> {
    for (table, column) in COLUMNS {
        scan_column(rt, name, assembly, table, column, counts)?;
    }
    Ok(())
}

/// Reads each signature of a file, and prints those that are refused; a file that is no assembly
/// with its refusal.
pub fn scan_file(rt: &HostRuntime, name: &str, counts: &mut Counts) -> io::Result<()> {
    counts.files = counts.files.saturating_add(1);
    let bytes = match FileStore::new(rt).read_all(rt.alloc(), name, 1 << 26) {
        Ok(bytes) => bytes,
        Err(_) => {
            counts.unread = counts.unread.saturating_add(1);
            return println!(rt; "{name}: not read");
        }
    };
    match Assembly::read(rt.alloc(), bytes.as_slice(), 0) {
        Ok(assembly) => scan_assembly(rt, name, &assembly, counts),
        Err(Fault::Refused(refusal)) => {
            counts.unread = counts.unread.saturating_add(1);
            print_refusal(rt, name, &refusal)
        }
        Err(Fault::Memory(_)) => {
            counts.unread = counts.unread.saturating_add(1);
            println!(rt; "{name}: out of memory")
        }
    }
}
