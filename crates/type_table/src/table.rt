// The types of a set by number.
ghost use Rattle.std.specs.Prelude.{◌≡◌, ◌<◌, ◌≤◌, ◌^◌, ◌+◌, ◌-◌, length, get_or, option_map, IfOk, Some};
ghost use Rattle.set_rows.specs.Sets.{assembly_at, count_in};
ghost use Rattle.set_program.specs.declared.identity.TypeId.TheVariants.{Row, Outside};
ghost use Rattle.set_program.specs.Numbering.{outside_names};
ghost use Rattle.set_program.specs.Attributes.{attribute_outside};
ghost use Rattle.set_program.specs.Environment.{types_of, number_of};
ghost use Rattle.type_table.specs.Table.{types_before};

use crate::numbering::{all_types, old_types, starts};
use crate::outside::outside_names;
use cil_base::tables::TYPE_DEF;
use set_names::DistinctNames;
use set_program::{Part, TypeId};
use std::alloc::{AllocError, Global};
use std::marker::Model;

/// A set of assemblies with the numbers of its types: the number of a row is had by arithmetic, that
/// of an outside type by its name.
#[derive(Drop)]
pub struct TypeTable<'a> {
    set: &'a [Part<'a>],
    starts: Vec<u32>,
    old: u32,
    all: u32,
    names: DistinctNames,
}

impl<'a> Model for TypeTable<'a> {
    ghost use Rattle.set_rows.specs.Sets.{Assemblies};
    ghost use Rattle.type_table.specs.Table.{IsNumbered};

    ghost Value = { Assemblies };

    ghost view = { λ t. t.set.now };

    ghost invariant = { λ t. IsNumbered t.set.now t.starts.items t.old t.all t.names };
}

/// The assembly that is rewritten.
fn first<'s, 'a>(set: &'s [Part<'a>]) -> &'s Part<'a>
    requires { 0 < length set.now }
    ensures { result.now ≡ assembly_at set.now 0 }
{
    &set[0]
}

/// How many types stand before those of an assembly, where `starts` has them.
fn start_at(starts: &[u32], a: usize) -> u32
    ensures { result ≡ get_or starts.now (a - 1) 0 }
{
    match starts.get(a.saturating_sub(1)) {
        Some(start) => *start,
        None => 0,
    }
}

impl<'a> TypeTable<'a> {
    /// The types of these assemblies, TARGET first.
    pub fn new(alloc: Global, set: &'a [Part<'a>]) -> Result<TypeTable<'a>, AllocError>
        requires some { 0 < length set.now }
        requires short { length set.now < 2 ^ 32 }
        ensures { IfOk result (λ t. t ≡ set.now) }
    {
        let starts = starts(alloc, set)?;
        let names = outside_names(alloc, set)?;
        let target = first(set);
        let old = old_types(target);
        let before = start_at(starts.as_slice(), set.len());
        let all = all_types(before, target.count(TYPE_DEF), names.len())?;
        Ok(TypeTable {
            set,
            starts,
            old,
            all,
            names,
        })
    }

    /// How many types there are.
    pub fn len(&self) -> u32
        ensures { result ≡ length (types_of self.now) }
    {
        self.all
    }

    /// The names of the types outside the set, in the order of their numbers.
    pub fn outside(&self) -> &DistinctNames
        ensures { result.now ≡ outside_names self.now (attribute_outside self.now) }
    {
        &self.names
    }

    /// How many types stand before those of an assembly; with the number of assemblies, before
    /// TARGET's.
    fn before(&self, a: usize) -> u32
        requires low { 1 ≤ a }
        requires high { a ≤ length self.now }
        ensures { result ≡ types_before self.now a }
    {
        start_at(self.starts.as_slice(), a)
    }

    /// How many types stand before TARGET's.
    fn before_own(&self) -> u32
        ensures { result ≡ types_before self.now (length self.now) }
    {
        self.before(self.set.len())
    }

    /// The number of a row of TARGET.
    fn own_number(&self, row: u32) -> u32
        requires from { 1 ≤ row }
        requires to { row ≤ count_in (assembly_at self.now 0) TYPE_DEF }
        ensures { Some result ≡ number_of self.now (Row 0 row) }
    {
        let before = self.before_own();
        if row <= self.old {
            return before + (row - 1);
        }
        before + self.names.len() as u32 + (row - 1)
    }

    /// The number of a TypeDef row; None where there is no such row.
    pub fn row_number(&self, a: u32, row: u32) -> Option<u32>
        ensures { result ≡ number_of self.now (Row a row) }
    {
        if a as usize >= self.set.len() || row == 0 {
            return None;
        }
        if row > self.set[a as usize].count(TYPE_DEF) {
            return None;
        }
        if a == 0 {
            return Some(self.own_number(row));
        }
        let before = self.before(a as usize);
        Some(before + (row - 1))
    }

    /// The number of an outside type by its full name; None where no row and no attribute names it.
    pub fn outside_number(&self, name: &[u8]) -> Option<u32>
        ensures { result ≡ number_of self.now (Outside name.now) }
    {
        match self.names.place(name) {
            Some(k) => Some(self.before_own() + self.old + k as u32),
            None => None,
        }
    }

    /// The number of a type; None where it is none of the set's types.
    pub fn number(&self, id: &TypeId) -> Option<u32>
        ensures { result ≡ number_of self.now id.now }
    {
        match id {
            TypeId::Row { assembly, row } => self.row_number(*assembly, *row),
            TypeId::Outside(name) => self.outside_number(name.as_slice()),
        }
    }
}
