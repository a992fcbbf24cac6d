// What is printed of what was read: the same bytes, but for longer spellings of numbers.
ghost use Rattle.std.specs.Prelude.{◌<◌, ◌^◌, length};

use cil_base::{Bytes, Fault, Place};
use cli_sigs::{
    SigTy, print_locals, print_method_sig, print_method_spec, print_type, read_locals,
    read_method_sig, read_method_spec, read_type_spec,
};
use sqlite_items::Boxed;
use std::alloc::{AllocError, Global};

const PLACE: Place = Place {
    assembly: 1,
    table: 6,
    row: 7,
};

/// The kinds of blobs that are printed.
#[derive(Clone, Copy)]
enum Kind {
    Method,
    Locals,
    Type,
    MethodSpec,
}

fn method_again(alloc: Global, blob: &[u8]) -> Result<Bytes, Fault>
    requires { length blob.now < 2 ^ 32 }
{
    let sig = read_method_sig(alloc, blob, PLACE)?;
    Ok(print_method_sig(alloc, &sig)?)
}

fn locals_again(alloc: Global, blob: &[u8]) -> Result<Bytes, Fault>
    requires { length blob.now < 2 ^ 32 }
{
    let types = read_locals(alloc, blob, PLACE)?;
    Ok(print_locals(alloc, &types)?)
}

fn type_again(alloc: Global, blob: &[u8]) -> Result<Bytes, Fault>
    requires { length blob.now < 2 ^ 32 }
{
    let ty = read_type_spec(alloc, blob, PLACE)?;
    Ok(print_type(alloc, &ty)?)
}

fn method_spec_again(alloc: Global, blob: &[u8]) -> Result<Bytes, Fault>
    requires { length blob.now < 2 ^ 32 }
{
    let args = read_method_spec(alloc, blob, PLACE)?;
    Ok(print_method_spec(alloc, &args)?)
}

/// Whether the blob is read, and printed as these bytes.
fn prints(alloc: Global, kind: Kind, blob: &[u8], bytes: &[u8]) -> bool {
    if blob.len() >= 2000 {
        return false;
    }
    let printed = match kind {
        Kind::Method => method_again(alloc, blob),
        Kind::Locals => locals_again(alloc, blob),
        Kind::Type => type_again(alloc, blob),
        Kind::MethodSpec => method_spec_again(alloc, blob),
    };
    matches!(printed, Ok(printed) if printed.as_slice() == bytes)
}

#[test]
fn what_was_read_is_printed_as_it_was(rt: HostRuntime) {
    let alloc = rt.alloc();
    let rows: [(Kind, &[u8]); 9] = [
        (Kind::Method, &[0x20, 0x01, 0x08, 0x08]),
        // Generic; with SENTINEL; with FNPTR of an unmanaged convention.
        (Kind::Method, &[0x30, 0x02, 0x01, 0x1E, 0x01, 0x13, 0x00]),
        (Kind::Method, &[0x05, 0x02, 0x01, 0x0E, 0x41, 0x08]),
        (
            Kind::Method,
            &[0x00, 0x01, 0x1B, 0x02, 0x01, 0x01, 0x10, 0x08, 0x16],
        ),
        (Kind::Locals, &[0x07, 0x01, 0x08]),
        (Kind::MethodSpec, &[0x0A, 0x01, 0x08]),
        (Kind::Type, &[0x1D, 0x08]),
        (Kind::Type, &[0x15, 0x12, 0x05, 0x02, 0x08, 0x0F, 0x01]),
        // Rank 3, one size, and the lower bounds -3, 64, -8192, 8192 and -2^28.
        (
            Kind::Type,
            &[
                0x14, 0x08, 0x03, 0x01, 0x81, 0x00, 0x05, 0x7B, 0x80, 0x80, 0x80, 0x01, 0xC0, 0x00,
                0x40, 0x00, 0xC0, 0x00, 0x00, 0x01,
            ],
        ),
    ];
    let mut wrong = 0usize;
    for (kind, blob) in rows.iter() {
        if !prints(alloc, *kind, blob, blob) {
            wrong = wrong.saturating_add(1);
        }
    }
    assert_eq!(rt; wrong, 0);
}

#[test]
fn longer_spellings_are_not_kept(rt: HostRuntime) {
    let alloc = rt.alloc();
    let found = [
        // A count in two bytes, and a coded index in four.
        prints(
            alloc,
            Kind::Method,
            &[0x20, 0x80, 0x01, 0x08, 0x08],
            &[0x20, 0x01, 0x08, 0x08],
        ),
        prints(
            alloc,
            Kind::Type,
            &[0x12, 0xC0, 0x00, 0x00, 0x81],
            &[0x12, 0x80, 0x81],
        ),
        // The lower bound -1 in two bytes.
        prints(
            alloc,
            Kind::Type,
            &[0x14, 0x08, 0x01, 0x00, 0x01, 0xBF, 0xFF],
            &[0x14, 0x08, 0x01, 0x00, 0x01, 0x7F],
        ),
    ];
    assert_eq!(rt; found, [true; 3]);
}

fn deepest(alloc: Global) -> Result<bool, AllocError> {
    let mut blob = Vec::new(alloc);
    for _ in 0..999 {
        blob.extend_from_slice(&[0x0F])?;
    }
    blob.extend_from_slice(&[0x08])?;
    Ok(prints(alloc, Kind::Type, blob.as_slice(), blob.as_slice()))
}

fn prints_a_list(alloc: Global) -> Result<bool, AllocError> {
    let item = Boxed::new(alloc, SigTy::Prim(0x0E))?;
    let printed = print_type(alloc, &SigTy::SzArray(item))?;
    Ok(printed.as_slice() == [0x1D, 0x0E].as_slice())
}

#[test]
fn a_deep_type_and_one_that_was_made_are_printed(rt: HostRuntime) {
    let alloc = rt.alloc();
    assert_eq!(rt;
        (deepest(alloc), prints_a_list(alloc)),
        (Ok(true), Ok(true))
    );
}
