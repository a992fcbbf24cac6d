// The rows of an assembly, and the entries that they name.
ghost use Rattle.std.specs.Prelude.{◌≡◌, ◌<◌, ◌≤◌, ◌^◌, length};
ghost use Rattle.cli_heaps.specs.Root.{blobs};
ghost use Rattle.cli_heaps.specs.Entries.{blob_at};
ghost use Rattle.set_rows.specs.Sets.{assembly_of, cell, text, blob, count_in, or_empty};

use assembly::Assembly;
use cli_heaps::Heaps;
use std::marker::Model;

/// The bytes of the entry at an offset of `#Blob`; none where there is no entry.
fn blob_of<'a>(heaps: &Heaps<'a>, at: u32) -> &'a [u8]
    ensures bytes { result.now ≡ or_empty (blob_at (blobs heaps.now.bytes) at) }
    ensures short { length result.now < 2 ^ 32 }
{
    let (_, _longest, _) = heaps.lengths();
    match heaps.blob(at) {
        Some(bytes) => bytes,
        None => &[],
    }
}

/// An assembly as its rows.
#[derive(Drop)]
pub struct Rows<'a> {
    assembly: &'a Assembly<'a>,
}

impl<'a> Model for Rows<'a> {
    ghost use Rattle.set_rows.specs.Sets.{Assembly, assembly_of};

    ghost Value = { Assembly };

    ghost view = { λ r. assembly_of r.assembly.now.bytes };
}

impl<'a> Rows<'a> {
    pub fn new(assembly: &'a Assembly<'a>) -> Rows<'a>
        ensures { result ≡ assembly_of assembly.now.bytes }
    {
        Rows { assembly }
    }

    /// The same rows once more.
    pub fn same(&self) -> Rows<'a>
        ensures { result ≡ self.now }
    {
        Rows {
            assembly: self.assembly,
        }
    }

    /// The number in a cell, 0 where there is no such cell.
    #[tactic(auto, unfolding(crate::specs::Sets::assembly_of))]
    pub fn cell(&self, table: u8, row: u32, column: u8) -> u32
        ensures { result ≡ cell self.now table row column }
    {
        self.assembly.tables().cell(table, row, column).unwrap_or(0)
    }

    /// How many rows a table has.
    #[tactic(auto, unfolding(crate::specs::Sets::assembly_of))]
    pub fn count(&self, table: u8) -> u32
        ensures { result ≡ count_in self.now table }
    {
        self.assembly.tables().rows(table)
    }

    /// The string that a cell names; empty where it names none.
    #[tactic(auto, unfolding(crate::specs::Sets::assembly_of))]
    pub fn text(&self, table: u8, row: u32, column: u8) -> &[u8]
        ensures { result.now ≡ text self.now table row column }
    {
        match self.assembly.heaps().string(self.cell(table, row, column)) {
            Some(text) => text,
            None => &[],
        }
    }

    /// The blob that a cell names; empty where it names none.
    #[tactic(auto, unfolding(crate::specs::Sets::assembly_of))]
    pub fn blob(&self, table: u8, row: u32, column: u8) -> &[u8]
        ensures bytes { result.now ≡ blob self.now table row column }
        ensures short { length result.now < 2 ^ 32 }
    {
        blob_of(self.assembly.heaps(), self.cell(table, row, column))
    }
}
