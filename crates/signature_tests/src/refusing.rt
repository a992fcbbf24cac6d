// What the readers refuse, and at which byte; worked out by hand from ECMA-335, II.23.2 and II.23.3.
use cil_base::{Fault, Place, Rule};
use cli_sigs::{
    read_bare_attribute, read_field_sig, read_locals, read_method_sig, read_method_spec,
    read_property_sig, read_type_attribute, read_type_spec,
};
use std::alloc::{AllocError, Global};
use std::test::Fail;

const PLACE: Place = Place {
    assembly: 1,
    table: 6,
    row: 7,
};

/// The kinds of blobs.
#[derive(Clone, Copy)]
enum Kind {
    Method,
    Property,
    Field,
    Locals,
    TypeSpec,
    MethodSpec,
    Text,
    Bare,
}

/// The offset of a refusal by this rule at PLACE.
fn offset_of(fault: Fault, rule: Rule) -> Option<u32> {
    match fault {
        Fault::Refused(r) => {
            if r == PLACE.refusal(rule, r.at) {
                Some(r.at)
            } else {
                None
            }
        }
        Fault::Memory(_) => None,
    }
}

fn refused_at<T: Drop>(read: Result<T, Fault>, rule: Rule) -> Option<u32> {
    match read {
        Ok(_) => None,
        Err(fault) => offset_of(fault, rule),
    }
}

fn refused(alloc: Global, kind: Kind, blob: &[u8]) -> Option<u32> {
    if blob.len() >= 2000 {
        return None;
    }
    match kind {
        Kind::Method => refused_at(read_method_sig(alloc, blob, PLACE), Rule::S1),
        Kind::Property => refused_at(read_property_sig(alloc, blob, PLACE), Rule::S1),
        Kind::Field => refused_at(read_field_sig(alloc, blob, PLACE), Rule::S1),
        Kind::Locals => refused_at(read_locals(alloc, blob, PLACE), Rule::S1),
        Kind::TypeSpec => refused_at(read_type_spec(alloc, blob, PLACE), Rule::S1),
        Kind::MethodSpec => refused_at(read_method_spec(alloc, blob, PLACE), Rule::S1),
        Kind::Text => refused_at(read_type_attribute(alloc, blob, PLACE), Rule::S2),
        Kind::Bare => refused_at(read_bare_attribute(blob, PLACE), Rule::S2),
    }
}

/// How many of the rows are not refused as they say.
fn refused_otherwise(alloc: Global, rows: &[(Kind, &[u8], u32)]) -> usize {
    let mut wrong = 0usize;
    for (kind, blob, at) in rows {
        if refused(alloc, *kind, blob) != Some(*at) {
            wrong = wrong.saturating_add(1);
        }
    }
    wrong
}

#[test]
fn methods_are_refused_where_they_go_wrong(rt: HostRuntime) {
    let rows: [(Kind, &[u8], u32); 16] = [
        (Kind::Method, &[], 0),
        // A missing parameter, and one too many.
        (Kind::Method, &[0x20, 0x01, 0x08], 3),
        (Kind::Method, &[0x00, 0x00, 0x01, 0x08], 3),
        // Conventions that no row has, EXPLICITTHIS without HASTHIS, GENERIC with VARARG.
        (Kind::Method, &[0x01, 0x00, 0x01], 0),
        (Kind::Method, &[0x40, 0x00, 0x01], 0),
        (Kind::Method, &[0x15, 0x01, 0x00, 0x01], 0),
        (Kind::Method, &[0x80, 0x00, 0x01], 0),
        // SENTINEL in a default call, twice, and behind the last parameter.
        (Kind::Method, &[0x00, 0x01, 0x01, 0x41, 0x08], 3),
        (Kind::Method, &[0x05, 0x02, 0x01, 0x41, 0x08, 0x41, 0x08], 5),
        (Kind::Method, &[0x05, 0x01, 0x01, 0x08, 0x41], 4),
        // A parameter of type void, a pinned one.
        (Kind::Method, &[0x00, 0x01, 0x01, 0x01], 3),
        (Kind::Method, &[0x00, 0x01, 0x01, 0x45, 0x08], 3),
        // More parameters than bytes, and a number that none begins with.
        (Kind::Method, &[0x00, 0xDF, 0xFF, 0xFF, 0xFF, 0x01, 0x08], 7),
        (Kind::Method, &[0x00, 0xE0, 0x00, 0x00, 0x00, 0x01], 1),
        // A property of type void, and a method as a property.
        (Kind::Property, &[0x08, 0x00, 0x01], 2),
        (Kind::Property, &[0x20, 0x00, 0x08], 0),
    ];
    assert_eq!(rt; refused_otherwise(rt.alloc(), &rows), 0);
}

#[test]
fn types_are_refused_where_they_go_wrong(rt: HostRuntime) {
    let rows: [(Kind, &[u8], u32); 16] = [
        (Kind::Field, &[0x07, 0x08], 0),
        (Kind::Field, &[0x06], 1),
        (Kind::Field, &[0x06, 0x08, 0x08], 2),
        // BYREF, TYPEDBYREF, PINNED, void, an array of void.
        (Kind::Field, &[0x06, 0x10, 0x08], 1),
        (Kind::Field, &[0x06, 0x16], 1),
        (Kind::Field, &[0x06, 0x45, 0x08], 1),
        (Kind::Field, &[0x06, 0x01], 1),
        (Kind::Field, &[0x06, 0x1D, 0x01], 2),
        // An instance of neither a class nor a value type.
        (Kind::Field, &[0x06, 0x15, 0x08], 2),
        // Coded indexes with the tag 3, in one byte, two and four; of an instance and of a modifier.
        (Kind::Field, &[0x06, 0x12, 0x03], 2),
        (Kind::Field, &[0x06, 0x11, 0x80, 0x87], 3),
        (Kind::Field, &[0x06, 0x12, 0xC0, 0x00, 0x40, 0x0B], 5),
        (Kind::TypeSpec, &[0x15, 0x12, 0x07, 0x01, 0x08], 2),
        (Kind::Field, &[0x06, 0x1F, 0x0F, 0x08], 2),
        (Kind::Locals, &[0x07, 0x01, 0x45, 0x16], 3),
        (Kind::MethodSpec, &[0x0A, 0x02, 0x08], 3),
    ];
    assert_eq!(rt; refused_otherwise(rt.alloc(), &rows), 0);
}

#[test]
fn attributes_are_refused_where_they_go_wrong(rt: HostRuntime) {
    let rows: [(Kind, &[u8], u32); 10] = [
        (Kind::Text, &[0x01, 0x01, 0x01, 0x58, 0x00, 0x00], 1),
        // The null text, a short text, a named value, and a byte too many.
        (Kind::Text, &[0x01, 0x00, 0xFF, 0x00, 0x00], 2),
        (Kind::Text, &[0x01, 0x00, 0x03, 0x58], 4),
        (Kind::Text, &[0x01, 0x00, 0x01, 0x58, 0x01, 0x00], 4),
        (Kind::Text, &[0x01, 0x00, 0x01, 0x58, 0x00, 0x00, 0x00], 6),
        (Kind::Bare, &[], 0),
        (Kind::Bare, &[0x00, 0x00, 0x00, 0x00], 0),
        (Kind::Bare, &[0x01, 0x00], 2),
        (Kind::Bare, &[0x01, 0x00, 0x01, 0x00], 2),
        (Kind::Bare, &[0x01, 0x00, 0x00, 0x00, 0x00], 4),
    ];
    assert_eq!(rt; refused_otherwise(rt.alloc(), &rows), 0);
}

fn pointers_and(alloc: Global, pointers: u32, end: &[u8]) -> Result<Vec<u8>, AllocError> {
    let mut blob = Vec::new(alloc);
    for _ in 0..pointers {
        blob.extend_from_slice(&[0x0F])?;
    }
    blob.extend_from_slice(end)?;
    Ok(blob)
}

/// Where `pointers` times PTR and then `end` go wrong; 9999 where they are a type.
fn depth_refused(alloc: Global, pointers: u32, end: &[u8]) -> Result<u32, AllocError> {
    let blob = pointers_and(alloc, pointers, end)?;
    Ok(refused(alloc, Kind::TypeSpec, blob.as_slice()).unwrap_or(9999))
}

#[test]
fn the_depth_of_types_is_limited(rt: HostRuntime) -> Result<(), Fail> {
    let alloc = rt.alloc();
    let found = [
        depth_refused(alloc, 999, &[0x08])?,
        depth_refused(alloc, 1000, &[0x08])?,
        // An instance without arguments has no parts, in any spelling of 0.
        depth_refused(alloc, 999, &[0x15, 0x12, 0x04, 0x00])?,
        depth_refused(alloc, 999, &[0x15, 0x11, 0x04, 0x80, 0x00])?,
        depth_refused(alloc, 999, &[0x15, 0x12, 0x04, 0x01, 0x08])?,
        depth_refused(alloc, 999, &[0x15, 0x12, 0x04, 0x80, 0x01])?,
        depth_refused(alloc, 998, &[0x15, 0x12, 0x04, 0x01, 0x08])?,
    ];
    assert_eq!(rt; found, [9999, 999, 9999, 9999, 1002, 1003, 9999]);
    Ok(())
}
