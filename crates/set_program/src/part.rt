// One assembly of a set, with what its names lead to.
ghost use Rattle.std.specs.Prelude.{◌≡◌, ◌<◌, ◌^◌, length, IfOk};
ghost use Rattle.std.specs.Option.{option_copied};
ghost use Rattle.set_rows.specs.Sets.{cell, text, blob, count_in};
ghost use Rattle.set_program.specs.TypeNames.{type_named, full_name};
ghost use Rattle.set_program.specs.References.{exported_named, outer_reference};

use crate::full_names::{forwarder_names, full_names};
use cil_base::Name;
use cil_base::tables::TYPE_REF;
use set_names::{Names, rows_by_name};
use set_rows::Rows;
use std::alloc::{AllocError, Global};
use std::marker::Model;

/// One assembly of a set.
#[derive(Drop)]
pub struct Part<'a> {
    rows: Rows<'a>,
    full: Vec<Option<Name>>,
    types: Names,
    forwarders: Names,
}

impl<'a> Model for Part<'a> {
    ghost use Rattle.std.specs.Prelude.{◌≡◌, List, ℕ};
    ghost use Rattle.set_rows.specs.Sets.{Assembly};
    ghost use Rattle.set_program.specs.Parts.{IsIndexed};

    ghost Value = { Assembly };

    ghost view = { λ p. p.rows };

    ghost invariant = { λ p. IsIndexed p.rows p.full.items p.types p.forwarders };
}

impl<'a> Part<'a> {
    /// The assembly of these rows, with its names found beforehand.
    pub fn new(alloc: Global, rows: Rows<'a>) -> Result<Part<'a>, AllocError>
        ensures { IfOk result (λ part. part ≡ rows.entry) }
    {
        let full = full_names(alloc, &rows)?;
        let types = rows_by_name(alloc, full.as_slice())?;
        let keys = forwarder_names(alloc, &rows)?;
        let forwarders = rows_by_name(alloc, keys.as_slice())?;
        Ok(Part {
            rows,
            full,
            types,
            forwarders,
        })
    }

    /// The assembly by its rows alone.
    pub fn rows(&self) -> &Rows<'a>
        ensures { result.now ≡ self.now }
    {
        &self.rows
    }

    /// The number in a cell, 0 where there is no such cell.
    pub fn cell(&self, table: u8, row: u32, column: u8) -> u32
        ensures { result ≡ cell self.now table row column }
    {
        self.rows.cell(table, row, column)
    }

    /// How many rows a table has.
    pub fn count(&self, table: u8) -> u32
        ensures { result ≡ count_in self.now table }
    {
        self.rows.count(table)
    }

    /// The string that a cell names.
    pub fn text(&self, table: u8, row: u32, column: u8) -> &[u8]
        ensures { result.now ≡ text self.now table row column }
    {
        self.rows.text(table, row, column)
    }

    /// The blob that a cell names.
    pub fn blob(&self, table: u8, row: u32, column: u8) -> &[u8]
        ensures bytes { result.now ≡ blob self.now table row column }
        ensures short { length result.now < 2 ^ 32 }
    {
        self.rows.blob(table, row, column)
    }

    /// The TypeDef row of a full name.
    pub fn type_named(&self, name: &[u8]) -> Option<u32>
        ensures { result ≡ type_named self.now name.now }
    {
        self.types.number(name)
    }

    /// The ExportedType row of a name.
    pub fn exported_named(&self, name: &[u8]) -> Option<u32>
        ensures { result ≡ exported_named self.now name.now }
    {
        self.forwarders.number(name)
    }

    /// The full name of a TypeDef row, or None where its nestings lead into a circle.
    pub fn full_name(&self, row: u32) -> Option<&[u8]>
        ensures { option_copied result ≡ full_name self.now row }
    {
        if row == 0 || row as usize > self.full.len() {
            return None;
        }
        match &self.full[row as usize - 1] {
            Some(name) => Some(name.as_slice()),
            None => None,
        }
    }

    /// The TypeRef row that is the scope of another.
    #[tactic(auto, unfolding(crate::specs::References::outer_reference))]
    pub fn outer_reference(&self, row: u32) -> Option<u32>
        ensures { result ≡ outer_reference self.now row }
    {
        let scope = self.cell(TYPE_REF, row, 0);
        if scope % 4 != 3 || scope / 4 == 0 {
            return None;
        }
        Some(scope / 4)
    }
}
