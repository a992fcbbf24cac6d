// The fields, or the methods, of a set by number.
ghost use Rattle.std.specs.Prelude.{◌≡◌, ◌<◌, ◌≤◌, ◌^◌, length, IfOk};
ghost use Rattle.set_rows.specs.Sets.{assembly_at, count_in};
ghost use Rattle.members.specs.MemberRows.{member_table};
ghost use Rattle.member_table.specs.Environments.{AreOf};
ghost use Rattle.member_table.specs.Numbers.{member_number};
ghost use Rattle.member_table.specs.declared.named.MemberId.TheVariants.{Row, Outside as OutsideId};
ghost use Rattle.member_numbers.specs.Kept.{rows_before, IsNumbered};

use crate::counts::{start_at, starts, total};
use crate::cuts::{first, members_before_class};
use crate::noting::{Noted, noted_members};
use cil_base::tables::{FIELD, METHOD_DEF};
use member_table::MemberTable;
use members::{Outside, OutsideMember};
use set_program::Part;
use std::alloc::{AllocError, Global};

/// What is kept of them: how many rows stand before those of each assembly, how many of TARGET's
/// stand before its runtime class, how many members there are, and those outside with the rows that
/// name them first.
#[derive(Drop)]
pub struct Kept {
    pub starts: Vec<u32>,
    pub old: u32,
    pub all: u32,
    pub outside: Outside,
    pub rows: Vec<(u32, u32)>,
}

fn table_of(is_field: bool) -> u8
    ensures { result ≡ member_table is_field }
{
    if is_field {
        return FIELD;
    }
    METHOD_DEF
}

/// The members of a set, where `table` is of the set.
pub fn kept_of(
    alloc: Global,
    set: &[Part<'_>],
    table: &MemberTable<'_>,
    is_field: bool,
) -> Result<Kept, AllocError>
    requires some { 0 < length set.now }
    requires short { length table.now.assemblies.items < 2 ^ 32 }
    requires table { AreOf set.now table.now.assemblies.items table.now.types.items }
    ensures { IfOk result (λ k. IsNumbered set.now is_field k.starts.items k.old k.all k.outside k.rows.items) }
{
    let number = table_of(is_field);
    let starts = starts(alloc, set, number)?;
    let target = first(set);
    let own = target.count(number);
    let old = members_before_class(target, is_field);
    let before = start_at(starts.as_slice(), set.len());
    let noted = noted_members(alloc, table, is_field)?;
    let all = total(before, old, noted.outside.len(), own)?;
    let Noted { outside, rows } = noted;
    Ok(Kept {
        starts,
        old,
        all,
        outside,
        rows,
    })
}

impl Kept {
    /// How many rows stand before those of an assembly; with the number of assemblies, before
    /// TARGET's.
    fn before(&self, set: &[Part<'_>], is_field: bool, a: usize) -> u32
        requires are { IsNumbered set.now is_field self.now.starts.items self.now.old self.now.all self.now.outside self.now.rows.items }
        requires low { 1 ≤ a }
        requires high { a ≤ length set.now }
        ensures { result ≡ rows_before set.now (member_table is_field) a }
    {
        start_at(self.starts.as_slice(), a)
    }

    /// The number of a row of TARGET.
    fn own_number(&self, set: &[Part<'_>], is_field: bool, row: u32) -> Option<u32>
        requires are { IsNumbered set.now is_field self.now.starts.items self.now.old self.now.all self.now.outside self.now.rows.items }
        requires from { 1 ≤ row }
        ensures { result ≡ member_number set.now is_field (Row 0 row) }
    {
        let before = self.before(set, is_field, set.len());
        if row <= self.old {
            return Some(before + (row - 1));
        }
        let target = first(set);
        if row > target.count(table_of(is_field)) {
            return None;
        }
        Some(before + self.outside.len() as u32 + (row - 1))
    }

    /// The number of a row of another assembly.
    fn other_number(&self, set: &[Part<'_>], is_field: bool, a: u32, row: u32) -> Option<u32>
        requires are { IsNumbered set.now is_field self.now.starts.items self.now.old self.now.all self.now.outside self.now.rows.items }
        requires low { 1 ≤ a }
        requires high { a < length set.now }
        requires from { 1 ≤ row }
        ensures { result ≡ member_number set.now is_field (Row a row) }
    {
        if row > set[a as usize].count(table_of(is_field)) {
            return None;
        }
        let before = self.before(set, is_field, a as usize);
        Some(before + (row - 1))
    }

    /// The number of a row; None where there is no such row.
    pub fn row_number(&self, set: &[Part<'_>], is_field: bool, a: u32, row: u32) -> Option<u32>
        requires { IsNumbered set.now is_field self.now.starts.items self.now.old self.now.all self.now.outside self.now.rows.items }
        ensures { result ≡ member_number set.now is_field (Row a row) }
    {
        if a as usize >= set.len() || row == 0 {
            return None;
        }
        if a == 0 {
            return self.own_number(set, is_field, row);
        }
        self.other_number(set, is_field, a, row)
    }

    /// The number of an outside member; None where no row names it.
    pub fn outside_number(
        &self,
        alloc: Global,
        set: &[Part<'_>],
        is_field: bool,
        member: &OutsideMember,
    ) -> Result<Option<u32>, AllocError>
        requires { IsNumbered set.now is_field self.now.starts.items self.now.old self.now.all self.now.outside self.now.rows.items }
        ensures { IfOk result (λ k. k ≡ member_number set.now is_field (OutsideId member.now)) }
    {
        match self.outside.place(alloc, member)? {
            None => Ok(None),
            Some(k) => {
                let before = self.before(set, is_field, set.len());
                Ok(Some(before + self.old + k))
            }
        }
    }
}
