// Compressed unsigned numbers (ECMA-335, II.23.2).
ghost use Rattle.std.specs.Prelude.{◌≡◌, ◌<◌, ◌≤◌, ◌^◌, ◌++◌, length, List, ℕ, Some, OnOk, IfSome};
ghost use Rattle.cil_base.specs.Packed.{packed_two, packed_four, packed_front, packed_at, packed_spelling};

use std::alloc::AllocError;

fn two_of(a: u8, rest: &[u8]) -> Option<(u32, u32)>
    requires low { 0x80 ≤ a }
    requires high { a < 0xC0 }
    ensures { result ≡ packed_two a rest.now }
{
    match rest {
        [] => None,
        [b, ..] => Some((0x100 * (a as u32 - 0x80) + *b as u32, 2)),
    }
}

fn four_of(a: u8, rest: &[u8]) -> Option<(u32, u32)>
    requires low { 0xC0 ≤ a }
    requires high { a < 0xE0 }
    ensures { result ≡ packed_four a rest.now }
{
    match rest {
        [] => None,
        [_] => None,
        [_, _] => None,
        [b, c, d, ..] => Some((
            0x100_0000 * (a as u32 - 0xC0) + 0x1_0000 * *b as u32 + 0x100 * *c as u32 + *d as u32,
            4,
        )),
    }
}

fn front_of(bytes: &[u8]) -> Option<(u32, u32)>
    ensures { result ≡ packed_front bytes.now }
{
    match bytes {
        [] => None,
        [a, rest @ ..] => {
            if *a < 0x80 {
                Some((*a as u32, 1))
            } else if *a < 0xC0 {
                two_of(*a, rest)
            } else if *a < 0xE0 {
                four_of(*a, rest)
            } else {
                None
            }
        }
    }
}

/// The compressed number at `at` and the number of its bytes, or None where none stands there
/// whole. A longer spelling than needed is read too.
pub fn read_packed(bytes: &[u8], at: usize) -> Option<(u32, u32)>
    ensures { result ≡ packed_at bytes.now at }
{
    front_of(&bytes[at.min(bytes.len())..])
}

/// Appends the shortest spelling of `v`. After want of memory `out` may have some of its bytes more.
pub fn push_packed(out: &mut Vec<u8>, v: u32) -> Result<(), AllocError>
    requires { v < 2 ^ 29 }
    ensures spelled { OnOk result (out.new.items ≡ out.old.items ++ packed_spelling v) }
    // What was written is read back, whatever follows.
    ensures reads_back { (rest : List ℕ) → packed_front (packed_spelling v ++ rest) ≡ Some (v, length (packed_spelling v)) }
{
    if v < 0x80 {
        out.extend_from_slice(&[v as u8])?;
    } else if v < 0x4000 {
        out.extend_from_slice(&[(0x80 + v / 0x100) as u8, (v % 0x100) as u8])?;
    } else {
        let [a, b, c, d] = v.to_be_bytes();
        out.extend_from_slice(&[0xC0 + a, b, c, d])?;
    }
    Ok(())
}
