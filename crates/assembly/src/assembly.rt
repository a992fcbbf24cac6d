// An assembly that has been read.
ghost use Rattle.std.specs.Prelude.{◌≡◌, ◌<◌, ◌^◌, length, IfOk, OnOk};
ghost use Rattle.cil_base.specs.Refusals.{OnRefused};
ghost use Rattle.pe_image.specs.Cli.{metadata_of};
ghost use Rattle.cli_heaps.specs.Root as root;
ghost use Rattle.cli_tables.specs.Tables.{AreIn, IsShaped};
ghost use Rattle.assembly.specs.Assemblies.{IsUnread, IsReadable, AreWritable, metadata_in, tables_of};

use cil_base::Fault;
use cli_heaps::Heaps;
use cli_tables::Tables;
use pe_image::Image;
use std::alloc::Global;
use std::marker::Model;

/// An assembly whose bytes break no rule, with its image, its heaps and its tables, which belong
/// together. It borrows the bytes of the file.
#[derive(Drop)]
pub struct Assembly<'a> {
    image: Image<'a>,
    heaps: Heaps<'a>,
    tables: Tables,
}

impl<'a> Model for Assembly<'a> {
    ghost use Rattle.pe_image.specs.Images.{File};
    ghost use Rattle.assembly.specs.Assemblies.{Belong};

    ghost Value = { File };

    ghost view = { λ a. a.image };

    ghost invariant = { λ a. Belong a.image a.heaps a.tables };
}

impl<'a> Assembly<'a> {
    /// Reads an assembly, by its number in the command. The refusal is the first of P1 to P4 and P6
    /// on the image, then of M1 to M3 on the metadata root, of M3 on the header of the tables, and
    /// of M4 to M7 on their rows.
    pub fn read(alloc: Global, bytes: &'a [u8], number: u32) -> Result<Assembly<'a>, Fault>
        requires { length bytes.now < 2 ^ 32 }
        ensures ok { IfOk result (λ a. a ≡ record { bytes = bytes.entry.now; assembly = number }) }
        ensures accepted { OnOk result (IsReadable bytes.entry.now number) }
        ensures refused { OnRefused result (IsUnread bytes.entry.now number) }
    {
        let image = match Image::read(bytes, number) {
            Ok(image) => image,
            Err(refusal) => return Err(Fault::Refused(refusal)),
        };
        let heaps = match Heaps::read(image.metadata(), number) {
            Ok(heaps) => heaps,
            Err(refusal) => return Err(Fault::Refused(refusal)),
        };
        let tables = match Tables::read(alloc, &heaps, number) {
            Ok(tables) => tables,
            Err(fault) => return Err(fault),
        };
        Ok(Assembly {
            image,
            heaps,
            tables,
        })
    }

    /// Its image.
    pub fn image(&self) -> &Image<'a>
        ensures { result.now ≡ self.now }
    {
        &self.image
    }

    /// The heaps of its metadata.
    pub fn heaps(&self) -> &Heaps<'a>
        ensures { result.now ≡ metadata_in self.now }
    {
        &self.heaps
    }

    /// Its tables.
    pub fn tables(&self) -> &Tables
        ensures value { result.now ≡ tables_of self.now.bytes }
        ensures cells { AreIn (root.tables (metadata_of self.now.bytes)) result.now }
        ensures writable { AreWritable (metadata_of self.now.bytes) result.now }
        ensures readable { IsReadable self.now.bytes self.now.assembly }
    {
        &self.tables
    }
}
