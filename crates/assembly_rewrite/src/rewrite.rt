// The assembly without contracts, written anew.
ghost use Rattle.std.specs.Prelude.{◌≡◌, ◌≢◌, ◌⊎◌, ◌<◌, ◌^◌, true, length, Ok, Err, IfOk, OnOk};
ghost use Rattle.cil_base.specs.Refusals.{NoneBroken, OnRefused, OnMemory};
ghost use Rattle.cil_base.specs.declared.rule.Rule.TheVariants.{L6};
ghost use Rattle.pe_image.specs.Headers.{headers_of};
ghost use Rattle.pe_image.specs.Cli.{metadata_of};
ghost use Rattle.pe_image.specs.SectionGrowth.{growth_in};
ghost use Rattle.pe_image.specs.Written.{grown_of, KeepsBytes};
ghost use Rattle.pe_image.specs.ReadBack.{new_rva, Grows};
ghost use Rattle.cli_heaps.specs.Root as root;
ghost use Rattle.heap_writer.specs.Written.{IsWritten};
ghost use Rattle.cli_tables.specs.Tables.{AreIn};
ghost use Rattle.cli_tables.specs.TableRules.{HeaderBroken};
ghost use Rattle.cli_tables.specs.Written.{AreOfOne};
ghost use Rattle.assembly.specs.Assemblies.{AreWritable, tables_of};
ghost use Rattle.assembly_rewrite.specs.Rewrite.{no_growths, stream_of, metadata_with, new_metadata, IsLimit, AreTooLong, AreShort, MayWantMemory, PassesLimit, KeepsRows, KeepsRewriteRules, IsRewriteRefusal};

use crate::contract_rows::first_contract_row;
use assembly::Assembly;
use cil_base::{Bytes, Fault, Refusal, Rule};
use cli_heaps::Heaps;
use cli_tables::Tables;
use heap_writer::HeapBuilder;
use pe_image::{Image, write_image};
use std::alloc::Global;

/// The metadata of these tables, with nothing appended to the heaps: L5, and L6 where no image can hold
/// them.
fn write_tables(alloc: Global, heaps: &Heaps<'_>, tables: &Tables) -> Result<Bytes, Fault>
    requires { AreWritable heaps.now.bytes tables.now }
    ensures ok { IfOk result (IsWritten heaps.now.bytes (no_growths heaps.now.bytes) (stream_of heaps.now.bytes tables.now)) }
    ensures bytes { IfOk result (λ new. new ≡ metadata_with heaps.now.bytes tables.now) }
    ensures rows { IfOk result (λ new. AreIn (root.tables new) tables.now) }
    ensures header { IfOk result (λ new. AreOfOne tables.now → NoneBroken (HeaderBroken new heaps.now.assembly)) }
    ensures within { OnOk result (AreShort heaps.now.bytes tables.now) }
    ensures refused { OnRefused result (λ r. IsLimit heaps.now.bytes tables.now r ⊎ AreTooLong heaps.now.bytes tables.now r) }
    ensures memory { OnMemory result (AreShort heaps.now.bytes tables.now) }
{
    let grown = HeapBuilder::new(alloc, heaps)?;
    tables.write(alloc, heaps, &grown)
}

/// The metadata of the assembly, with nothing appended: L5 and L6.
fn write_metadata(alloc: Global, assembly: &Assembly<'_>) -> Result<Bytes, Fault>
    ensures ok { IfOk result (λ new. IsWritten (metadata_of assembly.now.bytes) (no_growths (metadata_of assembly.now.bytes)) (root.tables new) new) }
    ensures bytes { IfOk result (λ new. new ≡ new_metadata assembly.now.bytes) }
    ensures rows { IfOk result (λ new. AreIn (root.tables new) (tables_of assembly.now.bytes)) }
    ensures header { IfOk result (λ new. NoneBroken (HeaderBroken new assembly.now.assembly)) }
    ensures within { OnOk result (AreShort (metadata_of assembly.now.bytes) (tables_of assembly.now.bytes)) }
    ensures refused { OnRefused result (λ r. PassesLimit assembly.now.bytes r ⊎ AreTooLong (metadata_of assembly.now.bytes) (tables_of assembly.now.bytes) r) }
    ensures memory { OnMemory result (AreShort (metadata_of assembly.now.bytes) (tables_of assembly.now.bytes)) }
{
    write_tables(alloc, assembly.heaps(), assembly.tables())
}

/// The image with a new last section that holds this metadata and nothing else: P5, L6.
fn place_metadata(alloc: Global, image: &Image<'_>, metadata: &[u8]) -> Result<Bytes, Fault>
    requires { length metadata.now < 2 ^ 32 }
    ensures ok { IfOk result (λ new. grown_of image.now.bytes image.now.assembly metadata.now (new_rva image.now.bytes) (length metadata.now) ≡ Ok new) }
    ensures kept { IfOk result (KeepsBytes image.now.bytes) }
    ensures grows { IfOk result (Grows image.now.bytes image.now.assembly metadata.now (new_rva image.now.bytes) (length metadata.now)) }
    ensures room { OnOk result (NoneBroken (λ r. growth_in image.now.bytes image.now.assembly (headers_of image.now.bytes) (length metadata.now) ≡ Err r)) }
    ensures refused { OnRefused result (λ r. growth_in image.now.bytes image.now.assembly (headers_of image.now.bytes) (length metadata.now) ≡ Err r) }
{
    match image.room() {
        Ok(rva) => write_image(alloc, image, metadata, rva, metadata.len() as u32),
        Err(refusal) => Err(Fault::Refused(refusal)),
    }
}

/// L5 before P5, and P5 before L6.
fn before_length(refusal: Refusal, no_room: Refusal) -> Refusal
    ensures other { refusal.rule ≢ L6 → result ≡ refusal }
    ensures long { refusal.rule ≡ L6 → result ≡ no_room }
{
    if refusal.rule == Rule::L6 {
        no_room
    } else {
        refusal
    }
}

/// The refusal of an image without room for a section: L5 where a limit is passed, else P5. Where
/// memory is wanting, none is passed.
fn without_room(alloc: Global, assembly: &Assembly<'_>, no_room: Refusal) -> Refusal
    ensures { PassesLimit assembly.now.bytes result ⊎ (NoneBroken (PassesLimit assembly.now.bytes) × (result ≡ no_room)) }
{
    match write_metadata(alloc, assembly) {
        Err(Fault::Refused(refusal)) => return before_length(refusal, no_room),
        Err(Fault::Memory(_)) => return no_room,
        Ok(_) => return no_room,
    }
}

/// The bytes of the same assembly in an image that has grown by one section, which holds its
/// metadata. The refusal is the first of Z1 where it has contracts, of L5, and of P5 and L6. All of
/// them but the L6 of metadata that an image can hold are tested before memory is taken.
pub fn rewrite_assembly(alloc: Global, assembly: &Assembly<'_>) -> Result<Bytes, Fault>
    ensures done { IfOk result (KeepsRows assembly.now.bytes assembly.now.assembly) }
    ensures accepted { OnOk result (KeepsRewriteRules assembly.now.bytes assembly.now.assembly) }
    ensures refused { OnRefused result (IsRewriteRefusal assembly.now.bytes assembly.now.assembly) }
    ensures memory { OnMemory result (MayWantMemory assembly.now.bytes assembly.now.assembly) }
{
    if let Some(refusal) = first_contract_row(assembly) {
        return Err(Fault::Refused(refusal));
    }
    if let Err(no_room) = assembly.image().room() {
        return Err(Fault::Refused(without_room(alloc, assembly, no_room)));
    }
    let metadata = match write_metadata(alloc, assembly) {
        Ok(metadata) => metadata,
        Err(fault) => return Err(fault),
    };
    place_metadata(alloc, assembly.image(), metadata.as_slice())
}
