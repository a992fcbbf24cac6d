// Entries of the heaps (ECMA-335, II.24.2.3 to II.24.2.5).
ghost use Rattle.std.specs.Prelude.{◌≡◌, ◌<◌, ◌≤◌, ◌^◌, ◌+◌, ◌*◌, ◌-◌, length, take, drop, position, ℕ, is_some, ◌==◌, ◌||◌, nat_lt, Option, Some, None};
ghost use Rattle.std.specs.Option.{option_copied, option_map};
ghost use Rattle.cli_heaps.specs.Root.{is_zero};
ghost use Rattle.cli_heaps.specs.Entries.{until_zero, string_at, bytes_at, counted_at, blob_at, guid_at};

use cil_base::{bytes_from, read_packed};

/// The index of the first zero byte.
pub fn zero_at(bytes: &[u8]) -> Option<usize>
    ensures { result ≡ position is_zero bytes.now }
{
    bytes.iter().position(|b| *b == 0)
}

fn before_zero(bytes: &[u8]) -> Option<&[u8]>
    ensures { option_copied result ≡ until_zero bytes.now }
{
    match zero_at(bytes) {
        Some(n) => Some(&bytes[..n]),
        None => None,
    }
}

/// The string at an offset, without its zero byte.
pub fn string_at(heap: &[u8], at: u32) -> Option<&[u8]>
    ensures { option_copied result ≡ string_at heap.now at }
{
    if at == 0 {
        return Some(&[]);
    }
    before_zero(bytes_from(heap, at as usize))
}

fn bytes_at(heap: &[u8], at: usize, n: usize) -> Option<&[u8]>
    requires { at + n < 2 ^ 64 }
    ensures { option_copied result ≡ bytes_at heap.now at n }
{
    if at + n > heap.len() {
        return None;
    }
    Some(&heap[at..at + n])
}

/// The bytes behind the compressed length at an offset.
pub fn blob_at(heap: &[u8], at: u32) -> Option<&[u8]>
    ensures { option_copied result ≡ blob_at heap.now at }
{
    if at == 0 {
        return Some(&[]);
    }
    match read_packed(heap, at as usize) {
        Some((n, width)) => bytes_at(heap, at as usize + width as usize, n as usize),
        None => None,
    }
}

/// The identifier of 16 bytes, numbered from 1.
pub fn guid_at(heap: &[u8], index: u32) -> Option<&[u8]>
    ensures { option_copied result ≡ guid_at heap.now index }
{
    if index == 0 {
        return None;
    }
    bytes_at(heap, 16 * (index as usize - 1), 16)
}

/// The offset behind the last zero byte; a string begins at each offset before it.
pub fn strings_end(heap: &[u8]) -> usize
    ensures { (at : ℕ) → is_some (string_at heap.now at) ≡ ((at == 0) || nat_lt at result) }
{
    let mut end = heap.len();
    while end > 0 && heap[end - 1] != 0 {
        end -= 1;
    }
    end
}
