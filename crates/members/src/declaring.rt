// The rows of Field and MethodDef by their types, names and signatures.
ghost use Rattle.std.specs.Prelude.{◌≡◌, ◌<◌, ◌≤◌, ◌-◌, ◌^◌, min, length, map, ◌++◌, [], ℕ, IfOk, OnOk};
ghost use Rattle.set_rows.specs.Sets.{count_in, rows_in};
ghost use Rattle.set_rows.specs.Owners.{AreOwners, row_in, owned_end};
ghost use Rattle.set_types.specs.CodedTypes.{coded_of};
ghost use Rattle.set_signatures.specs.Shapes.{is_same};
ghost use Rattle.set_signatures.specs.declared.shape.Shape.{Shape};
ghost use Rattle.set_names.specs.Names.{number_under};
ghost use Rattle.members.specs.Keys.{number_of_bool, ended_list, member_key};
ghost use Rattle.members.specs.MemberRows.{member_table, name_column, signature_column, list_column, row_shape, row_key, is_declared, declared};

use crate::keys::{Keys, rows_by_key};
use cil_base::U32s;
use set_rows::Rows;
use set_signatures::{Shape, shape_of};
use set_types::CodedTypes;
use std::alloc::{AllocError, Global};

pub fn member_table(is_field: bool) -> u8
    ensures { result ≡ member_table is_field }
{
    if is_field { 0x04 } else { 0x06 }
}

pub fn list_column(is_field: bool) -> u8
    ensures { result ≡ list_column is_field }
{
    if is_field { 4 } else { 5 }
}

fn name_column(is_field: bool) -> u8
    ensures { result ≡ name_column is_field }
{
    if is_field { 1 } else { 3 }
}

fn signature_column(is_field: bool) -> u8
    ensures { result ≡ signature_column is_field }
{
    if is_field { 2 } else { 4 }
}

/// The member of a row of Field or MethodDef, with `args` for the parameters of its type; None
/// where its signature is in no grammar or a coded type in it names no row.
pub fn row_shape(
    alloc: Global,
    rows: &Rows<'_>,
    coded: &CodedTypes,
    args: &[U32s],
    is_field: bool,
    row: u32,
) -> Result<Option<Shape>, AllocError>
    ensures { IfOk result (λ x. x ≡ row_shape rows.now (coded_of coded.now) args.now is_field row) }
{
    let table = member_table(is_field);
    let name = rows.text(table, row, name_column(is_field));
    let bytes = rows.blob(table, row, signature_column(is_field));
    shape_of(alloc, coded, args, name, bytes)
}

/// Appends a list, each number as one more, and a 0 behind all.
pub fn push_ended(key: &mut Vec<u32>, list: &[u8]) -> Result<(), AllocError>
    ensures { OnOk result (key.new.items ≡ key.old.items ++ ended_list list.now) }
{
    for n in list {
        key.push(*n as u32 + 1)?;
    }
    key.push(0)?;
    Ok(())
}

/// How many numbers the key of a member has.
pub fn key_length(shape: &Shape) -> usize {
    shape
        .name
        .len()
        .saturating_add(shape.signature.len())
        .saturating_add(3)
}

/// Appends the key of a member of a type.
pub fn push_member(key: &mut Vec<u32>, owner: u32, shape: &Shape) -> Result<(), AllocError>
    ensures { OnOk result (key.new.items ≡ key.old.items ++ member_key owner shape.now) }
{
    key.push(owner)?;
    key.push(if shape.is_field { 1 } else { 0 })?;
    push_ended(key, shape.name.as_slice())?;
    key.extend_from_slice(shape.signature.as_slice())
}

/// The key of a member of a type.
pub fn member_key(alloc: Global, owner: u32, shape: &Shape) -> Result<U32s, AllocError>
    ensures { IfOk result (λ key. key ≡ member_key owner shape.now) }
{
    let mut key = Vec::with_capacity(alloc, key_length(shape))?;
    push_member(&mut key, owner, shape)?;
    Ok(U32s::from_vec(key))
}

pub fn owner_at(owners: &[u32], row: u32) -> Option<u32>
    ensures { result ≡ row_in owners.now row }
{
    if row == 0 || row as usize > owners.len() || owners[row as usize - 1] == 0 {
        return None;
    }
    Some(owners[row as usize - 1])
}

/// The key of a row, or None where it has no type or its signature is in no grammar.
fn row_key(
    alloc: Global,
    rows: &Rows<'_>,
    coded: &CodedTypes,
    is_field: bool,
    owners: &[u32],
    row: u32,
) -> Result<Option<U32s>, AllocError>
    requires { AreOwners rows.now (list_column is_field) (member_table is_field) owners.now }
    ensures { IfOk result (λ key. key ≡ row_key rows.now (coded_of coded.now) is_field row) }
{
    let Some(owner) = owner_at(owners, row) else {
        return Ok(None);
    };
    match row_shape(alloc, rows, coded, &[], is_field, row)? {
        None => Ok(None),
        Some(shape) => Ok(Some(member_key(alloc, owner, &shape)?)),
    }
}

/// The keys of the rows of Field or MethodDef, by row from 0.
fn row_keys(
    alloc: Global,
    rows: &Rows<'_>,
    coded: &CodedTypes,
    is_field: bool,
    owners: &[u32],
) -> Result<Vec<Option<U32s>>, AllocError>
    requires { AreOwners rows.now (list_column is_field) (member_table is_field) owners.now }
    ensures keys { IfOk result (λ v. v.items ≡ map (row_key rows.now (coded_of coded.now) is_field) (rows_in rows.now (member_table is_field))) }
    ensures short { IfOk result (λ v. length v.items < 2 ^ 32) }
{
    let count = rows.count(member_table(is_field));
    let mut keys = Vec::new(alloc);
    for k in 0..count {
        keys.push(row_key(alloc, rows, coded, is_field, owners, k + 1)?)?;
    }
    Ok(keys)
}

/// The rows of Field or MethodDef by key.
pub fn members_by_key(
    alloc: Global,
    rows: &Rows<'_>,
    coded: &CodedTypes,
    is_field: bool,
    owners: &[u32],
) -> Result<Keys, AllocError>
    requires { AreOwners rows.now (list_column is_field) (member_table is_field) owners.now }
    ensures { IfOk result (λ keys. (row : ℕ) (x : Shape) → number_under keys (member_key row x) ≡ declared rows.now (coded_of coded.now) [] (is_same x) is_field row) }
{
    let keys = row_keys(alloc, rows, coded, is_field, owners)?;
    rows_by_key(alloc, keys.as_slice())
}

fn is_same(x: &Shape, y: &Shape) -> bool
    ensures { result ≡ is_same x.now y.now }
{
    let same_kind = if x.is_field { y.is_field } else { !y.is_field };
    x.name.as_slice() == y.name.as_slice()
        && same_kind
        && x.signature.as_slice() == y.signature.as_slice()
}

/// Whether a row is of a type, and is this member, with `args` for the parameters of the type.
fn is_declared(
    alloc: Global,
    rows: &Rows<'_>,
    coded: &CodedTypes,
    args: &[U32s],
    owners: &[u32],
    x: &Shape,
    row: u32,
    k: u32,
) -> Result<bool, AllocError>
    requires { AreOwners rows.now (list_column x.now.is_field) (member_table x.now.is_field) owners.now }
    ensures { IfOk result (λ b. b ≡ is_declared rows.now (coded_of coded.now) args.now (is_same x.now) x.now.is_field row k) }
{
    let Some(owner) = owner_at(owners, k) else {
        return Ok(false);
    };
    if owner != row {
        return Ok(false);
    }
    match row_shape(alloc, rows, coded, args, x.is_field, k)? {
        None => Ok(false),
        Some(y) => Ok(is_same(x, &y)),
    }
}

/// One past the place, from 0, of the last row that a type may own.
fn end_place(rows: &Rows<'_>, is_field: bool, row: u32) -> u32
    ensures { result ≡ min (owned_end rows.now (list_column is_field) (member_table is_field) row - 1) (count_in rows.now (member_table is_field)) }
{
    let count = rows.count(member_table(is_field));
    if row < rows.count(0x02) {
        return rows
            .cell(0x02, row + 1, list_column(is_field))
            .saturating_sub(1)
            .min(count);
    }
    count
}

/// The first row of a type that is this member, with `args` for the parameters of the type. It goes
/// through the rows of the type.
pub fn first_declared(
    alloc: Global,
    rows: &Rows<'_>,
    coded: &CodedTypes,
    args: &[U32s],
    owners: &[u32],
    x: &Shape,
    row: u32,
) -> Result<Option<u32>, AllocError>
    requires { AreOwners rows.now (list_column x.now.is_field) (member_table x.now.is_field) owners.now }
    ensures { IfOk result (λ k. k ≡ declared rows.now (coded_of coded.now) args.now (is_same x.now) x.now.is_field row) }
{
    let from = rows
        .cell(0x02, row, list_column(x.is_field))
        .saturating_sub(1);
    let to = end_place(rows, x.is_field, row);
    for k in from..to {
        if is_declared(alloc, rows, coded, args, owners, x, row, k + 1)? {
            return Ok(Some(k + 1));
        }
    }
    Ok(None)
}
