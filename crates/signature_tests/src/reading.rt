// What the readers read; expected values are worked out by hand from ECMA-335, II.23.2 and II.23.3.
use cil_base::Place;
use cli_sigs::{
    MethodSig, SigTy, SigTys, read_bare_attribute, read_field_sig, read_locals, read_method_sig,
    read_method_spec, read_property_sig, read_type_attribute, read_type_spec, split_type_name,
};
use std::alloc::Global;

const PLACE: Place = Place {
    assembly: 1,
    table: 6,
    row: 7,
};

fn is_method(sig: &MethodSig, flags: u8, generics: u32, sentinel: Option<u32>) -> bool {
    sig.flags == flags && sig.generics == generics && sig.sentinel == sentinel
}

fn reads_a_method(alloc: Global) -> bool {
    match read_method_sig(alloc, &[0x20, 0x01, 0x08, 0x08], PLACE) {
        Ok(sig) => {
            is_method(&sig, 0x20, 0, None)
                && matches!(sig.result, SigTy::Prim(8))
                && matches!(sig.params.as_slice(), [SigTy::Prim(8)])
        }
        Err(_) => false,
    }
}

fn reads_a_generic_method(alloc: Global) -> bool {
    match read_method_sig(alloc, &[0x30, 0x02, 0x01, 0x1E, 0x01, 0x13, 0x00], PLACE) {
        Ok(sig) => {
            is_method(&sig, 0x30, 2, None)
                && matches!(sig.result, SigTy::MVar(1))
                && matches!(sig.params.as_slice(), [SigTy::Var(0)])
        }
        Err(_) => false,
    }
}

fn reads_a_sentinel(alloc: Global) -> bool {
    match read_method_sig(alloc, &[0x05, 0x02, 0x01, 0x0E, 0x41, 0x08], PLACE) {
        Ok(sig) => {
            is_method(&sig, 0x05, 0, Some(1))
                && matches!(
                    sig.params.as_slice(),
                    [SigTy::Prim(0x0E), SigTy::Prim(0x08)]
                )
        }
        Err(_) => false,
    }
}

fn reads_a_sentinel_before_all(alloc: Global) -> bool {
    match read_method_sig(alloc, &[0x05, 0x01, 0x01, 0x41, 0x08], PLACE) {
        Ok(sig) => is_method(&sig, 0x05, 0, Some(0)),
        Err(_) => false,
    }
}

fn is_reference_to(ty: &SigTy, prim: u8) -> bool {
    match ty {
        SigTy::ByRef(inner) => matches!(inner.get(), SigTy::Prim(b) if *b == prim),
        _ => false,
    }
}

fn is_pointer_to_a_function(ty: &SigTy) -> bool {
    match ty {
        SigTy::Func(method) => {
            let sig = method.get();
            is_method(sig, 2, 0, None)
                && matches!(sig.result, SigTy::Prim(1))
                && matches!(sig.params.as_slice(), [ty] if is_reference_to(ty, 8))
        }
        _ => false,
    }
}

// An unmanaged convention stands behind FNPTR alone.
fn reads_a_function_pointer(alloc: Global) -> bool {
    let blob = [0x00, 0x01, 0x1B, 0x02, 0x01, 0x01, 0x10, 0x08, 0x16];
    match read_method_sig(alloc, &blob, PLACE) {
        Ok(sig) => {
            is_pointer_to_a_function(&sig.result)
                && matches!(sig.params.as_slice(), [SigTy::Prim(0x16)])
        }
        Err(_) => false,
    }
}

fn reads_a_property(alloc: Global) -> bool {
    match read_property_sig(alloc, &[0x28, 0x01, 0x10, 0x08, 0x0E], PLACE) {
        Ok(sig) => {
            is_method(&sig, 0x28, 0, None)
                && is_reference_to(&sig.result, 8)
                && matches!(sig.params.as_slice(), [SigTy::Prim(0x0E)])
        }
        Err(_) => false,
    }
}

#[test]
fn methods_and_properties_are_read(rt: HostRuntime) {
    let alloc = rt.alloc();
    let read = [
        reads_a_method(alloc),
        reads_a_generic_method(alloc),
        reads_a_sentinel(alloc),
        reads_a_sentinel_before_all(alloc),
        reads_a_function_pointer(alloc),
        reads_a_property(alloc),
    ];
    assert_eq!(rt; read, [true; 6]);
}

fn is_class_list(ty: &SigTy, coded_as: u32) -> bool {
    match ty {
        SigTy::SzArray(item) => {
            matches!(item.get(), SigTy::Named { value: false, coded } if *coded == coded_as)
        }
        _ => false,
    }
}

// modreq, then a list of CLASS with its coded index in four bytes.
fn reads_a_modified_list(alloc: Global) -> bool {
    let blob = [0x06, 0x1F, 0x05, 0x1D, 0x12, 0xC0, 0x00, 0x00, 0x04];
    match read_field_sig(alloc, &blob, PLACE) {
        Ok(
            SigTy::Modified {
                required: true,
                coded: 5,
                inner,
            },
        ) => is_class_list(inner.get(), 4),
        _ => false,
    }
}

// Rank 3, one size, and the lower bounds -3, 64, -8192, 8192 and -2^28.
fn reads_an_array(alloc: Global) -> bool {
    let blob = [
        0x06, 0x14, 0x08, 0x03, 0x01, 0x81, 0x00, 0x05, 0x7B, 0x80, 0x80, 0x80, 0x01, 0xC0, 0x00,
        0x40, 0x00, 0xC0, 0x00, 0x00, 0x01,
    ];
    match read_field_sig(alloc, &blob, PLACE) {
        Ok(
            SigTy::Array {
                item,
                rank: 3,
                sizes,
                lows,
            },
        ) => {
            matches!(item.get(), SigTy::Prim(8))
                && sizes.as_slice() == [256].as_slice()
                && lows.as_slice() == [-3, 64, -8192, 8192, -268_435_456].as_slice()
        }
        _ => false,
    }
}

// An instance of a TypeSpec's class over int and void*.
fn reads_an_instance(alloc: Global) -> bool {
    let blob = [0x15, 0x12, 0x06, 0x02, 0x08, 0x0F, 0x01];
    match read_type_spec(alloc, &blob, PLACE) {
        Ok(
            SigTy::Inst {
                value: false,
                coded: 6,
                args,
            },
        ) => match args.as_slice() {
            [SigTy::Prim(8), SigTy::Ptr(t)] => matches!(t.get(), SigTy::Prim(1)),
            _ => false,
        },
        _ => false,
    }
}

fn reads_a_list_type(alloc: Global) -> bool {
    match read_type_spec(alloc, &[0x1D, 0x08], PLACE) {
        Ok(SigTy::SzArray(item)) => matches!(item.get(), SigTy::Prim(8)),
        _ => false,
    }
}

fn are_locals(types: &SigTys) -> bool {
    match types.as_slice() {
        [SigTy::Pinned(t), SigTy::Prim(0x16)] => is_reference_to(t.get(), 5),
        _ => false,
    }
}

// A pinned reference, and a count in two bytes.
fn reads_locals(alloc: Global) -> bool {
    let blob = [0x07, 0x80, 0x02, 0x45, 0x10, 0x05, 0x16];
    matches!(read_locals(alloc, &blob, PLACE), Ok(types) if are_locals(&types))
}

fn reads_a_method_spec(alloc: Global) -> bool {
    matches!(read_method_spec(alloc, &[0x0A, 0x01, 0x08], PLACE), Ok(args) if matches!(args.as_slice(), [SigTy::Prim(8)]))
}

#[test]
fn types_and_lists_of_types_are_read(rt: HostRuntime) {
    let alloc = rt.alloc();
    let read = [
        matches!(
            read_field_sig(alloc, &[0x06, 0x08], PLACE),
            Ok(SigTy::Prim(8))
        ),
        reads_a_modified_list(alloc),
        reads_an_array(alloc),
        reads_an_instance(alloc),
        reads_a_list_type(alloc),
        reads_locals(alloc),
        reads_a_method_spec(alloc),
    ];
    assert_eq!(rt; read, [true; 7]);
}

fn reads_text(alloc: Global, blob: &[u8], text: &[u8]) -> bool {
    blob.len() < 64
        && matches!(read_type_attribute(alloc, blob, PLACE), Ok(read) if read.as_slice() == text)
}

/// Whether the text is split into the type name and the assembly's name.
fn splits(text: &[u8], type_name: &[u8], assembly: Option<&[u8]>) -> bool {
    let split = split_type_name(text);
    let same = match (split.assembly, assembly) {
        (Some(found), Some(wanted)) => found == wanted,
        (None, None) => true,
        _ => false,
    };
    same && split.type_name == type_name
}

#[test]
fn attributes_are_read(rt: HostRuntime) {
    let alloc = rt.alloc();
    let read = [
        reads_text(alloc, &[0x01, 0x00, 0x01, 0x58, 0x00, 0x00], b"X"),
        reads_text(alloc, b"\x01\x00\x0BN.T+U,  A ,\x00\x00", b"N.T+U,  A ,"),
        matches!(read_bare_attribute(&[0x01, 0x00, 0x00, 0x00], PLACE), Ok(0)),
        splits(b"N.T+U", b"N.T+U", None),
        splits(b"N.T+U,  A B , Version=1.0", b"N.T+U", Some(b"A B")),
        splits(b" X ,A", b" X ", Some(b"A")),
        splits(b"X,  ", b"X", Some(b"")),
    ];
    assert_eq!(rt; read, [true; 7]);
}
