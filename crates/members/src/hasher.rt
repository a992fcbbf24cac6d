// A fast hash of keys of numbers. Its start is fixed, so whoever picks the keys can make them collide.
ghost use Rattle.std.specs.Prelude.{◌≡◌};
ghost use Rattle.members.specs.Hashing.{first_number};

use cil_base::read_u32_at;
use std::hash::Hasher;

const MULTIPLIER: u64 = 0x9e37_79b9_7f4a_7c15;

/// Takes the first four bytes of each write, which are a whole number of a key, by one
/// multiplication to 64 bits.
#[derive(Clone, Copy)]
pub(crate) struct KeyHasher {
    state: u64,
}

impl Default for KeyHasher {
    ghost is_default = { λ h. h.state ≡ 1 };

    fn default() -> KeyHasher {
        KeyHasher { state: 1 }
    }
}

/// The number in the first four bytes, or 0 where there are fewer.
fn first_number(bytes: &[u8]) -> u64
    ensures { result ≡ first_number bytes.now }
{
    match read_u32_at(bytes, 0) {
        Some(n) => n as u64,
        None => 0,
    }
}

impl Hasher for KeyHasher {
    ghost use Rattle.members.specs.Hashing.{key_write, key_finish};

    ghost write = { key_write };

    ghost finish = { key_finish };

    fn finish(&self) -> u64 {
        self.state ^ self.state >> 32
    }

    fn write(&mut self, bytes: &[u8]) {
        self.state = (self.state ^ first_number(bytes)).wrapping_mul(MULTIPLIER);
    }
}
