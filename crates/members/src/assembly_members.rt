// An assembly of a set with the maps of its members.
ghost use Rattle.std.specs.Prelude.{◌≡◌, [], ℕ, true, false, IfOk};
ghost use Rattle.set_rows.specs.Owners.{AreOwners};
ghost use Rattle.set_types.specs.CodedTypes.{coded_of};
ghost use Rattle.set_signatures.specs.Shapes.{is_same};
ghost use Rattle.set_signatures.specs.declared.shape.Shape.{Shape};
ghost use Rattle.set_names.specs.Names.{number_under};
ghost use Rattle.members.specs.Keys.{member_key};
ghost use Rattle.members.specs.MemberRows.{declared, row_owner};

use crate::declaring::{first_declared, member_key, members_by_key, owner_at};
use crate::keys::Keys;
use cil_base::U32s;
use set_rows::{Rows, owners};
use set_signatures::Shape;
use set_types::CodedTypes;
use std::alloc::{AllocError, Global};

/// An assembly with what its coded types lead to, and its fields and methods by key.
#[derive(Drop)]
pub struct AssemblyMembers<'a> {
    pub rows: Rows<'a>,
    pub coded: CodedTypes,
    field_owners: Vec<u32>,
    method_owners: Vec<u32>,
    fields: Keys,
    methods: Keys,
    ghost fields_owned: { AreOwners rows 4 0x04 field_owners.items },
    ghost methods_owned: { AreOwners rows 5 0x06 method_owners.items },
    ghost fields_found: { (row : ℕ) (x : Shape) → number_under fields (member_key row x) ≡ declared rows (coded_of coded) [] (is_same x) true row },
    ghost methods_found: { (row : ℕ) (x : Shape) → number_under methods (member_key row x) ≡ declared rows (coded_of coded) [] (is_same x) false row },
}

impl<'a> AssemblyMembers<'a> {
    pub fn new(
        alloc: Global,
        rows: Rows<'a>,
        coded: CodedTypes,
    ) -> Result<AssemblyMembers<'a>, AllocError>
        ensures rows { IfOk result (λ a. a.rows ≡ rows.entry) }
        ensures coded { IfOk result (λ a. a.coded ≡ coded) }
    {
        let field_owners = owners(alloc, &rows, 4, 0x04)?;
        let method_owners = owners(alloc, &rows, 5, 0x06)?;
        let fields = members_by_key(alloc, &rows, &coded, true, field_owners.as_slice())?;
        let methods = members_by_key(alloc, &rows, &coded, false, method_owners.as_slice())?;
        Ok(AssemblyMembers {
            rows,
            coded,
            field_owners,
            method_owners,
            fields,
            methods,
        })
    }

    /// The TypeDef row that owns a row of Field, or of MethodDef.
    pub fn owner(&self, is_field: bool, row: u32) -> Option<u32>
        ensures { result ≡ row_owner self.now.rows is_field row }
    {
        if is_field {
            return owner_at(self.field_owners.as_slice(), row);
        }
        owner_at(self.method_owners.as_slice(), row)
    }

    /// The first member of a type with this name and signature.
    fn declared_plainly(
        &self,
        alloc: Global,
        x: &Shape,
        row: u32,
    ) -> Result<Option<u32>, AllocError>
        ensures { IfOk result (λ k. k ≡ declared self.now.rows (coded_of self.now.coded) [] (is_same x.now) x.now.is_field row) }
    {
        let key = member_key(alloc, row, x)?;
        if x.is_field {
            return Ok(self.fields.number(key.as_slice()));
        }
        Ok(self.methods.number(key.as_slice()))
    }

    /// The first member of a type with this name and signature, where `args` stand for the
    /// parameters of the type. Without arguments it takes constant time, else it goes through the
    /// rows of the type.
    pub fn declared(
        &self,
        alloc: Global,
        args: &[U32s],
        x: &Shape,
        row: u32,
    ) -> Result<Option<u32>, AllocError>
        ensures { IfOk result (λ k. k ≡ declared self.now.rows (coded_of self.now.coded) args.now (is_same x.now) x.now.is_field row) }
    {
        if let [] = args {
            return self.declared_plainly(alloc, x, row);
        }
        if x.is_field {
            let owners = self.field_owners.as_slice();
            return first_declared(alloc, &self.rows, &self.coded, args, owners, x, row);
        }
        let owners = self.method_owners.as_slice();
        first_declared(alloc, &self.rows, &self.coded, args, owners, x, row)
    }
}
