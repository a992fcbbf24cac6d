// The members of a set.
ghost use Rattle.std.specs.Prelude.{◌≡◌, ◌<◌, ◌^◌, length, IfOk};
ghost use Rattle.set_rows.specs.Sets.{Assemblies};
ghost use Rattle.member_table.specs.Environments.{AreOf};
ghost use Rattle.member_table.specs.Members.{member};
ghost use Rattle.member_table.specs.Numbers.{outside_members};

use crate::member::member_in;
use crate::named::Named;
use crate::outside::outside_members_in;
use members::{AssemblyMembers, Outside, SetType};
use std::alloc::{AllocError, Global};

/// The assemblies of a set with their members by key, and its types by number.
#[derive(Drop)]
pub struct MemberTable<'a> {
    pub assemblies: Vec<AssemblyMembers<'a>>,
    pub types: Vec<SetType>,
}

impl<'a> MemberTable<'a> {
    /// What a MemberRef row names, where these are the assemblies and the types of a set. A member
    /// of a type without arguments is found in one look-up; the bases are gone through one by one.
    pub fn member(&self, alloc: Global, a: u32, row: u32) -> Result<Named, AllocError>
        ensures { (s : Assemblies) → AreOf s self.now.assemblies.items self.now.types.items → IfOk result (λ n. n ≡ member s a row) }
    {
        member_in(
            alloc,
            self.assemblies.as_slice(),
            self.types.as_slice(),
            a,
            row,
        )
    }

    /// The outside fields, or methods, that the MemberRef rows of a set name, each once, those of
    /// TARGET last.
    pub fn outside_members(&self, alloc: Global, is_field: bool) -> Result<Outside, AllocError>
        requires { length self.now.assemblies.items < 2 ^ 32 }
        ensures { (s : Assemblies) → AreOf s self.now.assemblies.items self.now.types.items → IfOk result (λ o. o ≡ outside_members s is_field) }
    {
        outside_members_in(
            alloc,
            self.assemblies.as_slice(),
            self.types.as_slice(),
            is_field,
        )
    }
}
