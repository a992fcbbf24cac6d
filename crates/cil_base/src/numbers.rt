// Little-endian numbers at places.
ghost use Rattle.std.specs.Prelude.{◌≡◌, length};
ghost use Rattle.cil_base.specs.Numbers.{num_at};

use byteorder::{ByteOrder, LittleEndian};

/// The two-byte number at `at`, lowest byte first, or None where it passes the end.
#[tactic(auto, unfolding(crate::specs::Numbers::num))]
pub fn read_u16_at(bytes: &[u8], at: usize) -> Option<u16>
    ensures { result ≡ num_at bytes.now at 2 }
{
    if at > bytes.len() || bytes.len() - at < 2 {
        return None;
    }
    Some(LittleEndian::read_u16(&bytes[at..]))
}

/// The four-byte number at `at`, lowest byte first, or None where it passes the end.
#[tactic(auto, unfolding(crate::specs::Numbers::num))]
pub fn read_u32_at(bytes: &[u8], at: usize) -> Option<u32>
    ensures { result ≡ num_at bytes.now at 4 }
{
    if at > bytes.len() || bytes.len() - at < 4 {
        return None;
    }
    Some(LittleEndian::read_u32(&bytes[at..]))
}
