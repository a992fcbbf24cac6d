// Whether rows keep the rules on members (ECMA-335, II.22.15, II.22.25, II.22.26).
ghost use Rattle.std.specs.Prelude.{◌≡◌, IfOk};
ghost use Rattle.set_types.specs.CodedTypes.{coded_of};
ghost use Rattle.member_table.specs.MemberRules.{is_before, isnt_read, is_missing, member_is_taken};

use crate::named::Named;
use cli_sigs::SigTy;
use members::{AssemblyMembers, row_shape};
use set_signatures::type_numbers;
use set_types::CodedTypes;
use std::alloc::{AllocError, Global};

/// Whether a coded type in one of the types names no row, or one nests too deep (N1).
pub fn isnt_read(alloc: Global, coded: &CodedTypes, tys: &[SigTy]) -> Result<bool, AllocError>
    ensures { IfOk result (λ b. b ≡ isnt_read (coded_of coded.now) tys.now) }
{
    for ty in tys {
        if type_numbers(alloc, coded, &[], ty)?.is_none() {
            return Ok(true);
        }
    }
    Ok(false)
}

/// Whether a reference names a member that isn't there (N2).
pub fn is_missing(named: &Named) -> bool
    ensures { result ≡ is_missing named.now }
{
    match named {
        Named::Missing => true,
        Named::InSet(_) => false,
        Named::Outside(_) => false,
    }
}

fn is_before(row: u32, found: Option<u32>) -> bool
    ensures { result ≡ is_before row found }
{
    match found {
        None => false,
        Some(k) => k < row,
    }
}

/// Whether an earlier field, or method, of its type has the name and signature of a row (N4).
pub fn member_is_taken(
    alloc: Global,
    assembly: &AssemblyMembers<'_>,
    is_field: bool,
    row: u32,
) -> Result<bool, AllocError>
    ensures { IfOk result (λ b. b ≡ member_is_taken assembly.now.rows (coded_of assembly.now.coded) is_field row) }
{
    let Some(owner) = assembly.owner(is_field, row) else {
        return Ok(false);
    };
    match row_shape(alloc, &assembly.rows, &assembly.coded, &[], is_field, row)? {
        None => Ok(false),
        Some(shape) => {
            let found = assembly.declared(alloc, &[], &shape, owner)?;
            Ok(is_before(row, found))
        }
    }
}
