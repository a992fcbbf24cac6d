// Bytes that are written, and pieces of bytes.
ghost use Rattle.std.specs.Prelude.{◌≡◌, ◌+◌, ◌<◌, ◌≤◌, ◌++◌, length, drop, OnOk};
ghost use Rattle.std.specs.List.{flat_map};
ghost use Rattle.cil_base.specs.Bytes.{number_bytes, zeros, padding, padded, part, between};

use std::alloc::AllocError;

/// The two bytes of a number, the lowest first.
#[tactic(auto, unfolding(crate::specs::Bytes::number_bytes))]
pub fn u16_bytes(n: u16) -> [u8; 2]
    ensures { result ≡ number_bytes 2 n }
{
    n.to_le_bytes()
}

/// The four bytes of a number, the lowest first.
#[tactic(auto, unfolding(crate::specs::Bytes::number_bytes))]
pub fn u32_bytes(n: u32) -> [u8; 4]
    ensures { result ≡ number_bytes 4 n }
{
    n.to_le_bytes()
}

/// Appends a number of two bytes, the lowest first. After want of memory `out` may have some of them.
pub fn push_u16(out: &mut Vec<u8>, n: u16) -> Result<(), AllocError>
    ensures { OnOk result (out.new.items ≡ out.old.items ++ number_bytes 2 n) }
{
    out.extend_from_slice(&u16_bytes(n))?;
    Ok(())
}

/// Appends a number of four bytes, the lowest first. After want of memory `out` may have some of them.
pub fn push_u32(out: &mut Vec<u8>, n: u32) -> Result<(), AllocError>
    ensures { OnOk result (out.new.items ≡ out.old.items ++ number_bytes 4 n) }
{
    out.extend_from_slice(&u32_bytes(n))?;
    Ok(())
}

/// Appends a number of eight bytes, the lowest first. After want of memory `out` may have some of them.
#[tactic(auto, unfolding(crate::specs::Bytes::number_bytes))]
pub fn push_u64(out: &mut Vec<u8>, n: u64) -> Result<(), AllocError>
    ensures { OnOk result (out.new.items ≡ out.old.items ++ number_bytes 8 n) }
{
    out.extend_from_slice(&n.to_le_bytes())?;
    Ok(())
}

/// Appends the lowest `width` bytes of a number, the lowest first. After want of memory `out` may
/// have some of them.
pub fn push_number(out: &mut Vec<u8>, width: u8, n: u32) -> Result<(), AllocError>
    requires { width ≤ 4 }
    ensures { OnOk result (out.new.items ≡ out.old.items ++ number_bytes width n) }
{
    let bytes = n.to_le_bytes();
    out.extend_from_slice(&bytes[..usize::from(width)])?;
    Ok(())
}

/// Appends zeros. After want of memory `out` may have some of them.
pub fn push_zeros(out: &mut Vec<u8>, n: usize) -> Result<(), AllocError>
    ensures { OnOk result (out.new.items ≡ out.old.items ++ zeros n) }
{
    for _i in 0..n {
        out.push(0)?;
    }
    Ok(())
}

/// How many bytes are missing to a multiple of `unit`.
pub fn padding(unit: usize, n: usize) -> usize
    requires { 0 < unit }
    ensures { result ≡ padding unit n }
{
    (unit - n % unit) % unit
}

/// Appends zeros up to a length that is a multiple of `unit`. After want of memory `out` may have
/// some of them.
pub fn push_padding(out: &mut Vec<u8>, unit: usize) -> Result<(), AllocError>
    requires { 0 < unit }
    ensures { OnOk result (out.new.items ≡ padded unit out.old.items) }
{
    let n = padding(unit, out.len());
    push_zeros(out, n)
}

/// Appends the pieces in their order. After want of memory `out` may have some of the bytes.
pub fn push_all(out: &mut Vec<u8>, pieces: &[&[u8]]) -> Result<(), AllocError>
    ensures { OnOk result (out.new.items ≡ out.old.items ++ flat_map (λ p. p.now) pieces.now) }
{
    for piece in pieces {
        out.extend_from_slice(piece)?;
    }
    Ok(())
}

/// The bytes from an offset on; none behind the end.
pub fn bytes_from(bytes: &[u8], from: usize) -> &[u8]
    ensures { result.now ≡ drop from bytes.now }
{
    &bytes[from.min(bytes.len())..]
}

/// So many bytes from an offset on; fewer where the list ends before.
pub fn part(bytes: &[u8], at: usize, n: usize) -> &[u8]
    ensures { result.now ≡ part bytes.now at n }
{
    let rest = bytes_from(bytes, at);
    &rest[..n.min(rest.len())]
}

/// The bytes from an offset up to another.
pub fn between(bytes: &[u8], from: usize, to: usize) -> &[u8]
    ensures { result.now ≡ between bytes.now from to }
{
    part(bytes, from, to.saturating_sub(from))
}
