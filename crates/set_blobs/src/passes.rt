// One pass over the rows of a set.
ghost use Rattle.std.specs.Prelude.{◌≡◌, ◌<◌, ◌≤◌, ◌^◌, length, IfOk, Some};
ghost use Rattle.set_rows.specs.Sets.{assembly_at, count_in};
ghost use Rattle.set_blobs.specs.BadBlobs.{attribute_form, blob_column, InRow, InTable, InAssembly, BreaksBlobs, TellsFirst};
ghost use Rattle.set_blobs.specs.Readings.{AreNames, form_by, name_in};

use crate::forms::{BlobForm, attribute_form, blob_column};
use crate::reading::form_fault;
use cil_base::tables::CUSTOM_ATTRIBUTE;
use cil_base::{Name, Place, Refusal};
use set_program::Part;
use signature_rules::blob_kind;
use std::alloc::{AllocError, Global};
use type_table::{attribute_names, reference_rows};

/// Behind the last table that names a blob of these.
const TABLES: u8 = 0x2C;

/// The grammar of an attribute's value; `names` has the full names of the types of attributes.
fn value_form(names: &[Option<Name>], row: u32) -> Option<BlobForm>
    ensures { result ≡ attribute_form (name_in names.now row) }
{
    if row == 0 || row as usize > names.len() {
        return None;
    }
    attribute_form(&names[row as usize - 1])
}

/// The grammar of a row's blob.
fn form_by(names: &[Option<Name>], place: Place, blob: &[u8]) -> Option<BlobForm>
    ensures { result ≡ form_by names.now place blob.now }
{
    if place.table == CUSTOM_ATTRIBUTE {
        return value_form(names, place.row);
    }
    match blob_kind(place.table, blob) {
        Some(kind) => Some(BlobForm::Signature(kind)),
        None => None,
    }
}

fn row_fault(
    alloc: Global,
    set: &[Part<'_>],
    names: &[Option<Name>],
    place: Place,
    column: u8,
) -> Result<Option<Refusal>, AllocError>
    requires there { place.assembly < length set.now }
    requires names { AreNames set.now place.assembly names.now }
    requires column { blob_column place.table ≡ Some column }
    requires some { 0 < place.row }
    requires row { place.row ≤ count_in (assembly_at set.now place.assembly) place.table }
    ensures { IfOk result (TellsFirst (InRow set.now place)) }
{
    let blob = set[place.assembly as usize].blob(place.table, place.row, column);
    match form_by(names, place, blob) {
        None => Ok(None),
        Some(form) => form_fault(alloc, form, blob, place),
    }
}

fn rows_fault(
    alloc: Global,
    set: &[Part<'_>],
    names: &[Option<Name>],
    a: u32,
    table: u8,
    column: u8,
) -> Result<Option<Refusal>, AllocError>
    requires there { a < length set.now }
    requires names { AreNames set.now a names.now }
    requires column { blob_column table ≡ Some column }
    ensures { IfOk result (TellsFirst (InTable set.now a table)) }
{
    let count = set[a as usize].count(table);
    for k in 0..count {
        let place = Place {
            assembly: a,
            table,
            row: k + 1,
        };
        if let Some(r) = row_fault(alloc, set, names, place, column)? {
            return Ok(Some(r));
        }
    }
    Ok(None)
}

fn table_fault(
    alloc: Global,
    set: &[Part<'_>],
    names: &[Option<Name>],
    a: u32,
    table: u8,
) -> Result<Option<Refusal>, AllocError>
    requires there { a < length set.now }
    requires names { AreNames set.now a names.now }
    ensures { IfOk result (TellsFirst (InTable set.now a table)) }
{
    match blob_column(table) {
        Some(column) => rows_fault(alloc, set, names, a, table, column),
        None => Ok(None),
    }
}

fn tables_fault(
    alloc: Global,
    set: &[Part<'_>],
    names: &[Option<Name>],
    a: u32,
) -> Result<Option<Refusal>, AllocError>
    requires there { a < length set.now }
    requires names { AreNames set.now a names.now }
    ensures { IfOk result (TellsFirst (InAssembly set.now a)) }
{
    for table in 0..TABLES {
        if let Some(r) = table_fault(alloc, set, names, a, table)? {
            return Ok(Some(r));
        }
    }
    Ok(None)
}

fn assembly_fault(alloc: Global, set: &[Part<'_>], a: u32) -> Result<Option<Refusal>, AllocError>
    requires short { length set.now < 2 ^ 32 }
    requires there { a < length set.now }
    ensures { IfOk result (TellsFirst (InAssembly set.now a)) }
{
    let references = reference_rows(alloc, set, a)?;
    let names = attribute_names(alloc, set, a, references.as_slice())?;
    tables_fault(alloc, set, names.as_slice(), a)
}

/// The first refusal by S1 or S2; None where each blob is in a grammar of its kind.
pub fn blob_fault(alloc: Global, set: &[Part<'_>]) -> Result<Option<Refusal>, AllocError>
    requires { length set.now < 2 ^ 32 }
    ensures { IfOk result (TellsFirst (BreaksBlobs set.now)) }
{
    for a in 0..set.len() {
        if let Some(r) = assembly_fault(alloc, set, a as u32)? {
            return Ok(Some(r));
        }
    }
    Ok(None)
}
