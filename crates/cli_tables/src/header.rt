// The rules on the header of a `#~` stream (ECMA-335, II.24.2.6).
ghost use Rattle.std.specs.Prelude.{◌≡◌, ℕ, ◌+◌, ◌<◌, ◌≤◌, ◌^◌, length, true, ◌&&◌, ◌==◌};
ghost use Rattle.cil_base.specs.Refusals.{first_of};
ghost use Rattle.cli_tables.specs.Schema.{columns_of};
ghost use Rattle.cli_tables.specs.Stream.{rows_start, sizes_of, has_bit, has_table};
ghost use Rattle.cli_tables.specs.TableRules.{header_tests, has_unread, is_unread, is_one_assembly};

use crate::schema::columns;
use crate::sizes::{Sizes, heap_sizes_of, valid_of};
use cil_base::tables::{ASSEMBLY, MODULE};
use cil_base::{Place, Refusal, Rule};

fn is_unread(valid: u64, table: u8) -> bool
    requires { table < 64 }
    ensures { result ≡ has_bit valid table && (length (columns_of table) == 0) }
{
    (valid >> u32::from(table)) % 2 == 1 && columns(table).is_empty()
}

/// Whether Valid tells of a table that is not read.
fn has_unread(stream: &[u8]) -> bool
    requires { 24 ≤ length stream.now }
    ensures { result ≡ has_unread stream.now }
{
    let valid = valid_of(stream);
    for table in 0..64u8 {
        if is_unread(valid, table) {
            return true;
        }
    }
    false
}

/// The first rule that the header breaks; the stream begins at `offset` of the metadata.
pub fn first_in_header(stream: &[u8], sizes: &Sizes, offset: u32, assembly: u32) -> Option<Refusal>
    requires whole { 24 ≤ length stream.now }
    requires sizes { sizes.now ≡ sizes_of stream.now }
    requires near { offset + length stream.now < 2 ^ 32 }
    ensures { result ≡ first_of (header_tests stream.now offset assembly) }
{
    let place = Place::of_assembly(assembly);
    if heap_sizes_of(stream) >> 3 != 0 {
        return Some(place.refusal(Rule::M3, offset + 6));
    }
    let is_one = sizes.count(MODULE) == 1 && sizes.count(ASSEMBLY) == 1;
    if has_unread(stream) || !is_one {
        return Some(place.refusal(Rule::M3, offset + 8));
    }
    None
}
