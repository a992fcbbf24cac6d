// An assembly that is made row by row.
ghost use Rattle.std.specs.Prelude.{◌≡◌, ◌+◌, ◌-◌, ◌%◌, ◌<◌, ◌≤◌, ◌^◌, ◌++◌, ◌⊎◌, ℕ, true, false, length, Ok, Some, IfOk, OnOk, OnErr};
ghost use Rattle.std.specs.List.{list_any};
ghost use Rattle.cil_base.specs.Bytes.{padded};
ghost use Rattle.cil_base.specs.Refusals.{NoneBroken, OnRefused, OnMemory, limit_refusal};
ghost use Rattle.cil_base.specs.Tokens.{token_number};
ghost use Rattle.cli_heaps.specs.Root.{is_zero};
ghost use Rattle.cli_heaps.specs.Entries.{string_at, blob_at};
ghost use Rattle.heap_writer.specs.Growth.{Appends, IsFull, ReadsAt, string_entry, blob_entry, user_string_content, next_offset};
ghost use Rattle.cli_tables.specs.Tables.{rows_of, IsRow, IsAppended};
ghost use Rattle.cli_tables.specs.Growth.{table_full};
ghost use Rattle.cli_tables.specs.Written.{sizes_to, indexes_fit};
ghost use Rattle.pe_image.specs.SectionGrowth.{too_long};
ghost use Rattle.pe_image.specs.Cli.{metadata_of};
ghost use Rattle.asm_gen.specs.Layout.{code_address, file_size};
ghost use Rattle.asm_gen.specs.Blank.{blank};
ghost use Rattle.asm_gen.specs.Samples.{blank_sample, metadata_bytes, HoldsRows, IsAssembly, PassesLimit, IsTooLong, WithinLimits};

use crate::blank::blank_heaps;
use crate::image::{CODE_ADDRESS, image};
use cil_base::limits::IMAGE_LIMIT;
use cil_base::{Bytes, Fault, Refusal, Rule, Token, padding, push_padding};
use cli_tables::Tables;
use heap_writer::HeapBuilder;
use std::alloc::{AllocError, Global};
use std::marker::Model;

/// An assembly that is made of rows, heap entries and code. A refused call leaves it as it was.
#[derive(Drop)]
pub struct Builder {
    alloc: Global,
    tables: Tables,
    heaps: HeapBuilder,
    code: Vec<u8>,
    entry: u32,
}

impl Model for Builder {
    ghost use Rattle.std.specs.Prelude.{◌≡◌, ◌%◌, ◌≤◌, ◌^◌, length};
    ghost use Rattle.cli_tables.specs.Tables.{IsShaped};
    ghost use Rattle.heap_writer.specs.Written.{GrewFrom};
    ghost use Rattle.cil_base.specs.declared.limits.TheConstants.{IMAGE_LIMIT};
    ghost use Rattle.asm_gen.specs.Blank.{blank};
    ghost use Rattle.asm_gen.specs.Samples.{Sample};

    ghost Value = { Sample };

    ghost view = { λ b. record { tables = b.tables; heaps = b.heaps; code = b.code.items; entry = b.entry } };

    ghost invariant = { λ b. GrewFrom blank b.heaps × (length b.code.items ≤ IMAGE_LIMIT) × (length b.code.items % 4 ≡ 0) };
}

/// The code with zeros up to a multiple of 4, since fat headers begin at one.
fn padded_code(alloc: Global, code: &[u8]) -> Result<Vec<u8>, AllocError>
    ensures { IfOk result (λ v. v.items ≡ padded 4 code.now) }
{
    let mut bytes = Vec::new(alloc);
    bytes.extend_from_slice(code)?;
    push_padding(&mut bytes, 4)?;
    Ok(bytes)
}

impl Builder {
    /// An assembly without rows and code.
    pub fn new(alloc: Global) -> Result<Builder, AllocError>
        ensures { IfOk result (λ b. b ≡ blank_sample) }
    {
        Ok(Builder {
            alloc,
            tables: Tables::blank(alloc)?,
            heaps: HeapBuilder::new(alloc, &blank_heaps())?,
            code: Vec::new(alloc),
            entry: 0,
        })
    }

    /// Appends a row and answers its number, from 1. L5 where the table has 2^24 - 1 rows.
    pub fn row(&mut self, table: u8, cells: &[u32]) -> Result<u32, Fault>
        requires { IsRow table cells.now }
        ensures row { IfOk result (λ row. row ≡ rows_of self.old.tables table + 1) }
        ensures appended { OnOk result (IsAppended self.old.tables table cells.now self.new.tables) }
        ensures others { self.new ≡ record self.old { tables = self.new.tables } }
        ensures room { OnOk result (rows_of self.old.tables table < 2 ^ 24 - 1) }
        ensures refused { OnRefused result (λ r. (r ≡ table_full table) × (2 ^ 24 - 1 ≤ rows_of self.old.tables table)) }
        ensures memory { OnMemory result (rows_of self.old.tables table < 2 ^ 24 - 1) }
        ensures unchanged { OnErr result (self.new ≡ self.old) }
    {
        self.tables.append(table, cells)
    }

    /// Appends a string and answers its offset. L5 where `#Strings` would have over 2^28 bytes.
    pub fn string(&mut self, s: &[u8]) -> Result<u32, Fault>
        requires { list_any is_zero s.now ≡ false }
        ensures ok { IfOk result (λ at. Appends self.old.heaps.strings s.now (string_entry s.now) (2 ^ 28) at self.new.heaps.strings) }
        ensures reads_back { IfOk result (λ at. ReadsAt string_at self.new.heaps.strings at s.now) }
        ensures others { self.new ≡ record self.old { heaps = record self.old.heaps { strings = self.new.heaps.strings } } }
        ensures refused { OnRefused result (λ r. (r ≡ limit_refusal Rule.L5 (2 ^ 28)) × IsFull self.old.heaps.strings s.now (string_entry s.now) (2 ^ 28)) }
        ensures memory { OnMemory result (next_offset self.old.heaps.strings + length (string_entry s.now) ≤ 2 ^ 28) }
        ensures unchanged { OnErr result (self.new ≡ self.old) }
    {
        self.heaps.append_string(s)
    }

    /// Appends a blob and answers its offset. L5 where `#Blob` would have over 2^28 bytes.
    pub fn blob(&mut self, b: &[u8]) -> Result<u32, Fault>
        ensures ok { IfOk result (λ at. Appends self.old.heaps.blobs b.now (blob_entry b.now) (2 ^ 28) at self.new.heaps.blobs) }
        ensures reads_back { IfOk result (λ at. ReadsAt blob_at self.new.heaps.blobs at b.now) }
        ensures others { self.new ≡ record self.old { heaps = record self.old.heaps { blobs = self.new.heaps.blobs } } }
        ensures refused { OnRefused result (λ r. (r ≡ limit_refusal Rule.L5 (2 ^ 28)) × IsFull self.old.heaps.blobs b.now (blob_entry b.now) (2 ^ 28)) }
        ensures memory { OnMemory result (next_offset self.old.heaps.blobs + length (blob_entry b.now) ≤ 2 ^ 28) }
        ensures unchanged { OnErr result (self.new ≡ self.old) }
    {
        self.heaps.append_blob(b)
    }

    /// Appends a text of UTF-16 units and answers its offset in `#US`. L5 where that heap would have
    /// over 2^24 bytes.
    pub fn user(&mut self, units: &[u16]) -> Result<u32, Fault>
        ensures ok { IfOk result (λ at. Appends self.old.heaps.user_strings (user_string_content units.now) (blob_entry (user_string_content units.now)) (2 ^ 24) at self.new.heaps.user_strings) }
        ensures reads_back { IfOk result (λ at. ReadsAt blob_at self.new.heaps.user_strings at (user_string_content units.now)) }
        ensures others { self.new ≡ record self.old { heaps = record self.old.heaps { user_strings = self.new.heaps.user_strings } } }
        ensures refused { OnRefused result (λ r. (r ≡ limit_refusal Rule.L5 (2 ^ 24)) × IsFull self.old.heaps.user_strings (user_string_content units.now) (blob_entry (user_string_content units.now)) (2 ^ 24)) }
        ensures memory { OnMemory result (next_offset self.old.heaps.user_strings + length (blob_entry (user_string_content units.now)) ≤ 2 ^ 24) }
        ensures unchanged { OnErr result (self.new ≡ self.old) }
    {
        self.heaps.append_user(units)
    }

    /// Appends code, a whole method body, and answers its RVA. L6 where all code would have over
    /// 128 MiB, each piece counted up to a multiple of 4.
    pub fn code(&mut self, bytes: &[u8]) -> Result<u32, Fault>
        ensures rva { IfOk result (λ rva. rva ≡ code_address + length self.old.code) }
        ensures code { OnOk result (self.new ≡ record self.old { code = self.old.code ++ padded 4 bytes.now }) }
        ensures room { OnOk result (length self.old.code + length (padded 4 bytes.now) ≤ IMAGE_LIMIT) }
        ensures refused { OnRefused result (λ r. (r ≡ too_long) × (IMAGE_LIMIT < length self.old.code + length (padded 4 bytes.now))) }
        // L6 is tested before memory is taken.
        ensures memory { OnMemory result (length self.old.code + length (padded 4 bytes.now) ≤ IMAGE_LIMIT) }
        ensures unchanged { OnErr result (self.new ≡ self.old) }
    {
        let at = self.code.len();
        let room = IMAGE_LIMIT as usize - at;
        if bytes.len() > room || bytes.len() + padding(4, bytes.len()) > room {
            return Err(Fault::Refused(Refusal::limit(Rule::L6, IMAGE_LIMIT)));
        }
        let piece = padded_code(self.alloc, bytes)?;
        self.code.extend_from_slice(&piece)?;
        Ok(CODE_ADDRESS + at as u32)
    }

    /// Makes a method the entry point, by its MethodDef token.
    pub fn entry(&mut self, method: Token)
        requires { method.row < 2 ^ 24 }
        ensures { self.new ≡ record self.old { entry = token_number method } }
    {
        self.entry = method.to_u32();
    }

    /// Whether each index of the rows fits the width that its column has in the finished assembly.
    pub fn fits(&self) -> bool
        ensures { result ≡ indexes_fit (sizes_to blank self.now.heaps self.now.tables) self.now.tables }
    {
        self.tables.fits(&blank_heaps(), &self.heaps)
    }

    /// The metadata of the rows and the heaps.
    fn metadata(&self, alloc: Global) -> Result<Bytes, Fault>
        requires { indexes_fit (sizes_to blank self.now.heaps self.now.tables) self.now.tables ≡ true }
        ensures ok { IfOk result (HoldsRows self.now) }
        ensures bytes { IfOk result (λ m. m ≡ metadata_bytes self.now) }
        ensures within { OnOk result (WithinLimits self.now) }
        ensures refused { OnRefused result (λ r. PassesLimit self.now r ⊎ IsTooLong self.now r) }
        ensures memory { OnMemory result (WithinLimits self.now) }
    {
        self.tables.write(alloc, &blank_heaps(), &self.heaps)
    }

    /// The image of the assembly. L5 where a table, a heap or the number of streams passes its
    /// limit, L6 where the image would have over 128 MiB.
    pub fn finish(self, alloc: Global) -> Result<Bytes, Fault>
        requires { indexes_fit (sizes_to blank self.heaps self.tables) self.tables ≡ true }
        ensures ok { IfOk result (IsAssembly self) }
        ensures within { OnOk result (NoneBroken (PassesLimit self)) }
        ensures short { IfOk result (λ bytes. file_size (length self.code + length (metadata_of bytes)) ≤ IMAGE_LIMIT) }
        ensures refused { OnRefused result (λ r. PassesLimit self r ⊎ IsTooLong self r) }
        // The limits of the metadata are tested before memory is taken.
        ensures memory { OnMemory result (WithinLimits self) }
    {
        self.to_image(alloc)
    }

    /// The same, without taking the builder.
    fn to_image(&self, alloc: Global) -> Result<Bytes, Fault>
        requires { indexes_fit (sizes_to blank self.now.heaps self.now.tables) self.now.tables ≡ true }
        ensures ok { IfOk result (IsAssembly self.now) }
        ensures within { OnOk result (NoneBroken (PassesLimit self.now)) }
        ensures short { IfOk result (λ bytes. file_size (length self.now.code + length (metadata_of bytes)) ≤ IMAGE_LIMIT) }
        ensures refused { OnRefused result (λ r. PassesLimit self.now r ⊎ IsTooLong self.now r) }
        ensures memory { OnMemory result (WithinLimits self.now) }
    {
        match self.metadata(alloc) {
            Ok(metadata) => image(alloc, &self.code, metadata.as_slice(), self.entry),
            Err(fault) => Err(fault),
        }
    }
}
