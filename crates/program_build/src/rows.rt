// Rows of the assemblies of a set, and what the members outside share.
ghost use Rattle.std.specs.Prelude.{◌≡◌, ◌<◌, ◌^◌, length};
ghost use Rattle.cil_base.specs.declared.tables.TheConstants.{MEMBER_REF};
ghost use Rattle.set_rows.specs.Sets.{assembly_at, blob};
ghost use Rattle.set_program.specs.declared.identity.TypeId.TheVariants as type_id;
ghost use Rattle.set_program.specs.Environment.{number_of, number_or};

use cil_base::tables::MEMBER_REF;
use members::OutsideMember;
use set_rows::Rows;
use set_tables::SetTables;

/// The rows of an assembly.
pub fn rows_at<'s>(tables: &'s SetTables<'_>, a: u32) -> &'s Rows<'s>
    requires { a < length tables.now }
    ensures { result.now ≡ assembly_at tables.now a }
{
    tables.set()[a as usize].rows()
}

/// The number of the type of a member outside, 0 where it has none.
pub fn owner_of(tables: &SetTables<'_>, member: &OutsideMember) -> u32
    ensures { result ≡ number_or 0 (number_of tables.now (type_id.Outside member.now.owner)) }
{
    match tables.types().outside_number(member.owner.as_slice()) {
        Some(number) => number,
        None => 0,
    }
}

/// The signature of a MemberRef row.
pub fn reference_blob<'s>(tables: &'s SetTables<'_>, at: (u32, u32)) -> &'s [u8]
    requires { at.0 < length tables.now }
    ensures is { result.now ≡ blob (assembly_at tables.now at.0) MEMBER_REF at.1 2 }
    ensures short { length result.now < 2 ^ 32 }
{
    rows_at(tables, at.0).blob(MEMBER_REF, at.1, 2)
}
