// The metadata that a sample begins as.
ghost use Rattle.std.specs.Prelude.{◌≡◌};
ghost use Rattle.asm_gen.specs.Blank.{blank};

use cli_heaps::Heaps;

/// A metadata root of version v4.0.30319 with the five streams: `#~` without tables, heaps with
/// their empty entry, and one GUID.
static BLANK: [u8; 160] = [
    0x42, 0x53, 0x4A, 0x42, 1, 0, 1, 0, 0, 0, 0, 0, 12, 0, 0, 0, b'v', b'4', b'.', b'0', b'.',
    b'3', b'0', b'3', b'1', b'9', 0, 0, 0, 0, 5, 0, 108, 0, 0, 0, 24, 0, 0, 0, b'#', b'~', 0, 0,
    132, 0, 0, 0, 1, 0, 0, 0, b'#', b'S', b't', b'r', b'i', b'n', b'g', b's', 0, 0, 0, 0, 136, 0,
    0, 0, 1, 0, 0, 0, b'#', b'U', b'S', 0, 140, 0, 0, 0, 16, 0, 0, 0, b'#', b'G', b'U', b'I', b'D',
    0, 0, 0, 156, 0, 0, 0, 1, 0, 0, 0, b'#', b'B', b'l', b'o', b'b', 0, 0, 0, 0, 0, 0, 0, 2, 0, 0,
    1, 0, 0, 0, 0, 0, 0, 0, 0, 0, 0xFA, 1, 0x33, 0, 0x16, 0, 0, 0, 0, 0, 0, 0, 0, 0, 0, b'c', b'c',
    b'r', b'e', b'w', b'r', b'i', b't', b'e', b' ', b's', b'a', b'm', b'p', b'l', b'e', 0, 0, 0, 0,
];

/// The blank metadata's heaps.
pub fn blank_heaps() -> Heaps<'static>
    ensures { result ≡ record { bytes = blank; assembly = 0 } }
{
    match Heaps::read(&BLANK, 0) {
        Ok(heaps) => heaps,
        Err(_) => unreachable!(),
    }
}
