// Numbers that are known to be within the bytes.
#![tactic(auto, unfolding(cil_base::specs::Numbers::num))]

ghost use Rattle.std.specs.Prelude.{◌≡◌, ◌+◌, ◌≤◌, length};
ghost use Rattle.cil_base.specs.Numbers.{num};

use byteorder::{ByteOrder, LittleEndian};

pub(crate) fn one_in(bytes: &[u8], at: usize) -> u8
    requires { at + 1 ≤ length bytes.now }
    ensures { result ≡ num bytes.now at 1 }
{
    bytes[at]
}

pub(crate) fn two_in(bytes: &[u8], at: usize) -> u16
    requires { at + 2 ≤ length bytes.now }
    ensures { result ≡ num bytes.now at 2 }
{
    LittleEndian::read_u16(&bytes[at..])
}

pub(crate) fn four_in(bytes: &[u8], at: usize) -> u32
    requires { at + 4 ≤ length bytes.now }
    ensures { result ≡ num bytes.now at 4 }
{
    LittleEndian::read_u32(&bytes[at..])
}

pub(crate) fn eight_in(bytes: &[u8]) -> u64
    requires { 8 ≤ length bytes.now }
    ensures { result ≡ num bytes.now 0 8 }
{
    LittleEndian::read_u64(bytes)
}
