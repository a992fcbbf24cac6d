// Texts of UTF-16 units, and their entries in `#US` (ECMA-335, II.24.2.4).
ghost use Rattle.std.specs.Prelude.{◌≡◌, ℕ, List, ◌+◌, ◌*◌, ◌/◌, ◌%◌, ◌<◌, ◌≤◌, ◌^◌, ◌==◌, ◌&&◌, length, nat_lt, slice_index};
ghost use Rattle.std.specs.List.{list_any};
ghost use Rattle.std.specs.Map.{lookup};
ghost use Rattle.std.specs.Cmp.Lexicographic.{pointwise};
ghost use Rattle.heap_writer.specs.Growth.{contents_of, user_string_content, is_special};

use indexmap::IndexMap;

/// Whether a unit needs the last byte 1 (ECMA-335, II.24.2.4).
fn is_special(unit: u16) -> bool
    ensures { result ≡ is_special unit }
{
    unit >= 0x100
        || unit >= 1 && unit <= 8
        || unit >= 0xE && unit <= 0x1F
        || unit == 0x27
        || unit == 0x2D
        || unit == 0x7F
}

pub(crate) fn has_special(units: &[u16]) -> bool
    ensures { result ≡ list_any is_special units.now }
{
    units.iter().any(|unit| is_special(*unit))
}

/// Whether a unit stands at a place, the low byte first.
fn is_unit_at(unit: u16, content: &[u8], at: usize) -> bool
    requires { at + 1 < length content.now }
    ensures { result ≡ ((unit % 256 == slice_index content.now at) && (unit / 256 == slice_index content.now (at + 1))) }
{
    (unit % 256) as u8 == content[at] && (unit / 256) as u8 == content[at + 1]
}

/// Whether these are the contents of a text's entry.
fn is_text(units: &[u16], content: &[u8]) -> bool
    ensures { result ≡ pointwise ◌==◌ (user_string_content units.now) content.now }
{
    if content.len() != 2 * units.len() + 1 {
        return false;
    }
    for (k, unit) in units.iter().enumerate() {
        if !is_unit_at(*unit, content, 2 * k) {
            return false;
        }
    }
    has_special(units) as u8 == content[2 * units.len()]
}

/// The offset of the entry of a text. It takes no memory, but looks at each entry.
pub(crate) fn find_text(entries: &IndexMap<Vec<u8>, u32>, units: &[u16]) -> Option<u32>
    ensures { result ≡ lookup (λ c. pointwise ◌==◌ (user_string_content units.now) c) (contents_of entries.now.entries) }
{
    for k in 0..entries.len() {
        if let Some((content, at)) = entries.get_index(k) {
            if is_text(units, content) {
                return Some(*at);
            }
        }
    }
    None
}
