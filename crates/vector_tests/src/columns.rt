// The columns of the tables and the coded indexes, as ECMA-335 has them in II.22 and II.24.2.6.

use cli_tables::{CodedIndex, Column, columns};
use std::alloc::{AllocError, Global};

/// The columns by their bytes; S, G and B for indexes into `#Strings`, `#GUID` and `#Blob`; the number of a table
/// for an index into it, with two dots where it begins a run; a coded index by its name.
static TABLES: [(u8, &str); 45] = [
    (0x00, " 2 S G G G"),
    (0x01, " ResolutionScope S S"),
    (0x02, " 4 S S TypeDefOrRef 04.. 06.."),
    (0x03, ""),
    (0x04, " 2 S B"),
    (0x05, ""),
    (0x06, " 4 2 2 S B 08.."),
    (0x07, ""),
    (0x08, " 2 2 S"),
    (0x09, " 02 TypeDefOrRef"),
    (0x0A, " MemberRefParent S B"),
    (0x0B, " 1 1 HasConstant B"),
    (0x0C, " HasCustomAttribute CustomAttributeType B"),
    (0x0D, " HasFieldMarshal B"),
    (0x0E, " 2 HasDeclSecurity B"),
    (0x0F, " 2 4 02"),
    (0x10, " 4 04"),
    (0x11, " B"),
    (0x12, " 02 14.."),
    (0x13, ""),
    (0x14, " 2 S TypeDefOrRef"),
    (0x15, " 02 17.."),
    (0x16, ""),
    (0x17, " 2 S B"),
    (0x18, " 2 06 HasSemantics"),
    (0x19, " 02 MethodDefOrRef MethodDefOrRef"),
    (0x1A, " S"),
    (0x1B, " B"),
    (0x1C, " 2 MemberForwarded S 1A"),
    (0x1D, " 4 04"),
    (0x1E, ""),
    (0x1F, ""),
    (0x20, " 4 2 2 2 2 4 B S S"),
    (0x21, " 4"),
    (0x22, " 4 4 4"),
    (0x23, " 2 2 2 2 4 B S S B"),
    (0x24, " 4 23"),
    (0x25, " 4 4 4 23"),
    (0x26, " 4 S B"),
    (0x27, " 4 4 S S Implementation"),
    (0x28, " 4 4 S Implementation"),
    (0x29, " 02 02"),
    (0x2A, " 2 2 TypeOrMethodDef S"),
    (0x2B, " MethodDefOrRef B"),
    (0x2C, " 2A TypeDefOrRef"),
];

/// The bits of the tag, and the table of each tag.
static CODED: [(CodedIndex, u32, &str); 13] = [
    (CodedIndex::TypeDefOrRef, 2, " 02 01 1B"),
    (CodedIndex::HasConstant, 2, " 04 08 17"),
    (
        CodedIndex::HasCustomAttribute,
        5,
        " 06 04 01 02 08 09 0A 00 0E 17 14 11 1A 1B 20 23 26 27 28 2A 2C 2B",
    ),
    (CodedIndex::HasFieldMarshal, 1, " 04 08"),
    (CodedIndex::HasDeclSecurity, 2, " 02 06 20"),
    (CodedIndex::MemberRefParent, 3, " 02 01 1A 06 1B"),
    (CodedIndex::HasSemantics, 1, " 14 17"),
    (CodedIndex::MethodDefOrRef, 1, " 06 0A"),
    (CodedIndex::MemberForwarded, 1, " 04 06"),
    (CodedIndex::Implementation, 2, " 26 23 27"),
    (CodedIndex::CustomAttributeType, 3, " - - 06 0A -"),
    (CodedIndex::ResolutionScope, 2, " 00 1A 23 01"),
    (CodedIndex::TypeOrMethodDef, 1, " 02 06"),
];

fn coded_name(coded: CodedIndex) -> &'static str {
    match coded {
        CodedIndex::TypeDefOrRef => "TypeDefOrRef",
        CodedIndex::HasConstant => "HasConstant",
        CodedIndex::HasCustomAttribute => "HasCustomAttribute",
        CodedIndex::HasFieldMarshal => "HasFieldMarshal",
        CodedIndex::HasDeclSecurity => "HasDeclSecurity",
        CodedIndex::MemberRefParent => "MemberRefParent",
        CodedIndex::HasSemantics => "HasSemantics",
        CodedIndex::MethodDefOrRef => "MethodDefOrRef",
        CodedIndex::MemberForwarded => "MemberForwarded",
        CodedIndex::Implementation => "Implementation",
        CodedIndex::CustomAttributeType => "CustomAttributeType",
        CodedIndex::ResolutionScope => "ResolutionScope",
        CodedIndex::TypeOrMethodDef => "TypeOrMethodDef",
    }
}

fn column_text(alloc: Global, column: Column) -> Result<String, AllocError> {
    match column {
        Column::U8 => format!(in alloc; " 1"),
        Column::U16 => format!(in alloc; " 2"),
        Column::U32 => format!(in alloc; " 4"),
        Column::StringIndex => format!(in alloc; " S"),
        Column::GuidIndex => format!(in alloc; " G"),
        Column::BlobIndex => format!(in alloc; " B"),
        Column::Row(table) => format!(in alloc; " {table:02X}"),
        Column::FirstRow(table) => format!(in alloc; " {table:02X}.."),
        Column::Coded(coded) => format!(in alloc; " {}", coded_name(coded)),
    }
}

fn table_text(alloc: Global, table: u8) -> Result<String, AllocError> {
    let mut text = String::new(alloc);
    for column in columns(table) {
        text.push_str(column_text(alloc, *column)?.as_str())?;
    }
    Ok(text)
}

fn is_table(alloc: Global, table: u8, wanted: &str) -> Result<bool, AllocError> {
    let text = table_text(alloc, table)?;
    Ok(text.as_str() == wanted)
}

/// The first table that has other columns.
fn other_table(alloc: Global) -> Result<Option<u8>, AllocError> {
    for (table, wanted) in TABLES {
        if !is_table(alloc, table, wanted)? {
            return Ok(Some(table));
        }
    }
    Ok(None)
}

#[test]
fn columns_are_those_of_the_standard(rt: HostRuntime) -> Result<(), AllocError> {
    assert_eq!(rt; other_table(rt.alloc())?, None);
    Ok(())
}

fn tag_text(alloc: Global, table: Option<u8>) -> Result<String, AllocError> {
    match table {
        Some(table) => format!(in alloc; " {table:02X}"),
        None => format!(in alloc; " -"),
    }
}

/// The tables by the tags that fit the bits.
fn tags_text(alloc: Global, coded: CodedIndex) -> Result<String, AllocError> {
    let mut text = String::new(alloc);
    for tag in 0..coded.tables().len() as u32 {
        text.push_str(tag_text(alloc, coded.table_of(tag))?.as_str())?;
    }
    Ok(text)
}

fn has_tags(alloc: Global, coded: CodedIndex, wanted: &str) -> Result<bool, AllocError> {
    let text = tags_text(alloc, coded)?;
    Ok(text.as_str() == wanted)
}

/// The name of the first coded index that has other tags.
fn other_coded(alloc: Global) -> Result<Option<&'static str>, AllocError> {
    for (coded, bits, wanted) in CODED {
        if coded.bits() != bits || !has_tags(alloc, coded, wanted)? {
            return Ok(Some(coded_name(coded)));
        }
    }
    Ok(None)
}

#[test]
fn tags_are_those_of_the_standard(rt: HostRuntime) -> Result<(), AllocError> {
    assert!(rt; other_coded(rt.alloc())?.is_none());
    Ok(())
}
