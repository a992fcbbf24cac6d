// The tables of a set.
ghost use Rattle.std.specs.Prelude.{◌≡◌, ◌<◌, ◌^◌, length, IfOk};
ghost use Rattle.set_types.specs.CodedTypes.{coded_of};
ghost use Rattle.set_program.specs.Environment.{coded_in};
ghost use Rattle.value_types.specs.ValueNames.{value_names};
ghost use Rattle.set_rows.specs.Sets.{assembly_at};
ghost use Rattle.members.specs.MemberRows.{row_owner};
ghost use Rattle.member_table.specs.Environments.{AreOf};
ghost use Rattle.member_table.specs.Members.{member};
ghost use Rattle.member_table.specs.MemberRules.{member_is_taken};
ghost use Rattle.set_tables.specs.Held.{AreCoded};

use coded_tables::coded_types;
use member_numbers::{MemberNumbers, member_table};
use member_table::{MemberTable, Named, member_is_taken};
use members::AssemblyMembers;
use set_names::DistinctNames;
use set_program::Part;
use set_types::CodedTypes;
use std::alloc::{AllocError, Global};
use std::marker::Model;
use type_table::TypeTable;
use value_types::value_names;

/// A set of assemblies with its types, its members, and what its coded types lead to.
#[derive(Drop)]
pub struct SetTables<'a> {
    set: &'a [Part<'a>],
    types: TypeTable<'a>,
    members: MemberTable<'a>,
    numbers: MemberNumbers<'a>,
}

impl<'a> Model for SetTables<'a> {
    ghost use Rattle.set_rows.specs.Sets.{Assemblies};
    ghost use Rattle.set_tables.specs.Held.{AreHeld};

    ghost Value = { Assemblies };

    ghost view = { λ t. t.set.now };

    ghost invariant = { λ t. AreHeld t.set.now t.types t.numbers t.members.assemblies.items t.members.types.items };
}

/// What the coded types of each assembly lead to.
fn all_coded(
    alloc: Global,
    set: &[Part<'_>],
    types: &TypeTable<'_>,
    values: &DistinctNames,
) -> Result<Vec<CodedTypes>, AllocError>
    requires short { length set.now < 2 ^ 32 }
    requires same { set.now ≡ types.now }
    requires values { values.now ≡ value_names types.now }
    ensures { IfOk result (λ v. AreCoded set.now v.items) }
{
    let mut all = Vec::new(alloc);
    for a in 0..set.len() {
        all.push(coded_types(alloc, types, values, set, a as u32)?)?;
    }
    Ok(all)
}

impl<'a> SetTables<'a> {
    /// The tables of these assemblies, TARGET first.
    pub fn new(alloc: Global, set: &'a [Part<'a>]) -> Result<SetTables<'a>, AllocError>
        requires some { 0 < length set.now }
        requires short { length set.now < 2 ^ 32 }
        ensures { IfOk result (λ t. t ≡ set.now) }
    {
        let types = TypeTable::new(alloc, set)?;
        let values = value_names(alloc, set)?;
        let coded = all_coded(alloc, set, &types, &values)?;
        let members = member_table(alloc, set, &types, coded)?;
        let numbers = MemberNumbers::new(alloc, set, &members)?;
        Ok(SetTables {
            set,
            types,
            members,
            numbers,
        })
    }

    /// Its assemblies.
    pub fn set(&self) -> &'a [Part<'a>]
        ensures { result.now ≡ self.now }
    {
        self.set
    }

    /// How many assemblies there are.
    pub fn len(&self) -> u32
        ensures { result ≡ length self.now }
    {
        self.set.len() as u32
    }

    /// Its types by number.
    pub fn types(&self) -> &TypeTable<'a>
        ensures { result.now ≡ self.now }
    {
        &self.types
    }

    /// Its fields and methods by number.
    pub fn numbers(&self) -> &MemberNumbers<'a>
        ensures { result.now ≡ self.now }
    {
        &self.numbers
    }

    /// Its assemblies with their members, and its types with their bases.
    pub fn members(&self) -> &MemberTable<'a>
        ensures { AreOf self.now result.now.assemblies.items result.now.types.items }
    {
        &self.members
    }

    /// What the coded types of an assembly lead to.
    pub fn coded(&self, a: usize) -> &CodedTypes
        requires { a < length self.now }
        ensures { coded_of result.now ≡ coded_in self.now a }
    {
        &self.members.assemblies[a].coded
    }

    /// An assembly with its members by key.
    #[tactic(auto, using(crate::proofs::HeldLaws::rows_there))]
    fn assembly(&self, a: usize) -> &AssemblyMembers<'a>
        requires { a < length self.now }
        ensures rows { result.now.rows ≡ assembly_at self.now a }
        ensures coded { coded_of result.now.coded ≡ coded_in self.now a }
    {
        &self.members.assemblies[a]
    }

    /// The TypeDef row that owns a row of Field, or of MethodDef.
    pub fn owner(&self, a: usize, is_field: bool, row: u32) -> Option<u32>
        requires { a < length self.now }
        ensures { result ≡ row_owner (assembly_at self.now a) is_field row }
    {
        self.assembly(a).owner(is_field, row)
    }

    /// Whether an earlier field, or method, of its type has the name and signature of a row.
    pub fn member_is_taken(
        &self,
        alloc: Global,
        a: usize,
        is_field: bool,
        row: u32,
    ) -> Result<bool, AllocError>
        requires { a < length self.now }
        ensures { IfOk result (λ b. b ≡ member_is_taken (assembly_at self.now a) (coded_in self.now a) is_field row) }
    {
        member_is_taken(alloc, self.assembly(a), is_field, row)
    }

    /// What a MemberRef row names.
    pub fn member(&self, alloc: Global, a: u32, row: u32) -> Result<Named, AllocError>
        ensures { IfOk result (λ n. n ≡ member self.now a row) }
    {
        self.members.member(alloc, a, row)
    }
}
