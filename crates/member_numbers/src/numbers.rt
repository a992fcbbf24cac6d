// The fields and the methods of a set by number.
ghost use Rattle.std.specs.Prelude.{◌≡◌, ◌<◌, ◌^◌, length, map, IfOk, Some};
ghost use Rattle.member_table.specs.Environments.{AreOf};
ghost use Rattle.member_table.specs.Numbers.{member_ids, member_number, outside_members, outside_row};
ghost use Rattle.member_table.specs.declared.named.MemberId.TheVariants.{Row, Outside as OutsideId};

use crate::kept::{Kept, kept_of};
use member_table::MemberTable;
use members::{Outside, OutsideMember};
use set_program::Part;
use std::alloc::{AllocError, Global};
use std::marker::Model;

/// A set of assemblies with the numbers of its fields and methods: the number of a row is had by
/// arithmetic, that of an outside member by its key.
#[derive(Drop)]
pub struct MemberNumbers<'a> {
    set: &'a [Part<'a>],
    fields: Kept,
    methods: Kept,
}

impl<'a> Model for MemberNumbers<'a> {
    ghost use Rattle.std.specs.Prelude.{true, false};
    ghost use Rattle.set_rows.specs.Sets.{Assemblies};
    ghost use Rattle.member_numbers.specs.Kept.{IsNumbered};

    ghost Value = { Assemblies };

    ghost view = { λ n. n.set.now };

    ghost invariant = { λ n. IsNumbered n.set.now true n.fields.starts.items n.fields.old n.fields.all n.fields.outside n.fields.rows.items × IsNumbered n.set.now false n.methods.starts.items n.methods.old n.methods.all n.methods.outside n.methods.rows.items };
}

impl<'a> MemberNumbers<'a> {
    ghost use Rattle.member_numbers.specs.Kept.{IsNumbered};

    /// The members of these assemblies, TARGET first, where `table` is of them.
    pub fn new(
        alloc: Global,
        set: &'a [Part<'a>],
        table: &MemberTable<'_>,
    ) -> Result<MemberNumbers<'a>, AllocError>
        requires some { 0 < length set.now }
        requires short { length table.now.assemblies.items < 2 ^ 32 }
        requires table { AreOf set.now table.now.assemblies.items table.now.types.items }
        ensures { IfOk result (λ n. n ≡ set.now) }
    {
        let fields = kept_of(alloc, set, table, true)?;
        let methods = kept_of(alloc, set, table, false)?;
        Ok(MemberNumbers {
            set,
            fields,
            methods,
        })
    }

    fn of_kind(&self, is_field: bool) -> &Kept
        ensures { IsNumbered self.now is_field result.now.starts.items result.now.old result.now.all result.now.outside result.now.rows.items }
    {
        if is_field {
            return &self.fields;
        }
        &self.methods
    }

    /// The assemblies.
    fn assemblies(&self) -> &'a [Part<'a>]
        ensures { result.now ≡ self.now }
    {
        self.set
    }

    /// How many fields, or methods, there are.
    pub fn len(&self, is_field: bool) -> u32
        ensures { result ≡ length (member_ids self.now is_field) }
    {
        self.of_kind(is_field).all
    }

    /// The number of a row of Field, or MethodDef; None where there is no such row.
    pub fn row_number(&self, is_field: bool, a: u32, row: u32) -> Option<u32>
        ensures { result ≡ member_number self.now is_field (Row a row) }
    {
        let kept = self.of_kind(is_field);
        kept.row_number(self.assemblies(), is_field, a, row)
    }

    /// The number of an outside field, or method; None where no row names it.
    pub fn outside_number(
        &self,
        alloc: Global,
        is_field: bool,
        member: &OutsideMember,
    ) -> Result<Option<u32>, AllocError>
        ensures { IfOk result (λ k. k ≡ member_number self.now is_field (OutsideId member.now)) }
    {
        let kept = self.of_kind(is_field);
        kept.outside_number(alloc, self.assemblies(), is_field, member)
    }

    /// The outside fields, or methods, each once.
    pub fn outside(&self, is_field: bool) -> &Outside
        ensures { result.now ≡ outside_members self.now is_field }
    {
        &self.of_kind(is_field).outside
    }

    /// Of each of them the assembly and the MemberRef row that names it first.
    pub fn outside_rows(&self, is_field: bool) -> &[(u32, u32)]
        ensures { map Some result.now ≡ map (outside_row self.now) (outside_members self.now is_field) }
    {
        self.of_kind(is_field).rows.as_slice()
    }
}
