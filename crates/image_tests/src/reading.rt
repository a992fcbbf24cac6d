// What an image is read as, and what becomes of it where it is cut or a byte of it changes.
ghost use Rattle.std.specs.Prelude.{◌<◌, ◌^◌, length};

use crate::samples::{SIZE, broken, put, sample};
use cil_base::{Refusal, Rule};
use pe_image::Image;

fn refusal_of(bytes: &[u8]) -> Option<Refusal>
    requires { length bytes.now < 2 ^ 32 }
{
    Image::read(bytes, 7).err()
}

/// Where each run of lengths ends, and what a file of such a length is refused by.
const CUTS: [(usize, Rule, u32); 26] = [
    (2, Rule::P1, 0),
    (64, Rule::P6, 60),
    (132, Rule::P1, 128),
    (136, Rule::P6, 134),
    (150, Rule::P6, 148),
    (154, Rule::P6, 152),
    (188, Rule::P6, 184),
    (192, Rule::P6, 188),
    (212, Rule::P6, 208),
    (216, Rule::P6, 212),
    (220, Rule::P6, 216),
    (284, Rule::P6, 280),
    (288, Rule::P6, 284),
    (300, Rule::P6, 296),
    (304, Rule::P6, 300),
    (364, Rule::P6, 360),
    (368, Rule::P6, 364),
    (384, Rule::P6, 376),
    (388, Rule::P6, 384),
    (392, Rule::P6, 388),
    (396, Rule::P6, 392),
    (400, Rule::P6, 396),
    (416, Rule::P6, 412),
    (1024, Rule::P3, 376),
    (1536, Rule::P3, 416),
    (2048, Rule::P3, 456),
];

/// The first length at which the sample is answered otherwise.
fn other_length() -> Option<usize> {
    let bytes = sample(false);
    let mut len = 0;
    for (end, rule, at) in CUTS {
        for shorter in len..end {
            if shorter >= SIZE || refusal_of(&bytes[..shorter]) != Some(broken(rule, at)) {
                return Some(shorter);
            }
        }
        len = end;
    }
    if len == SIZE && refusal_of(&bytes).is_none() {
        None
    } else {
        Some(len)
    }
}

#[test]
fn every_shorter_file_is_refused(rt: HostRuntime) {
    assert_eq!(rt; other_length(), None);
}

/// One changed number each, and what the file is refused by then.
const CHANGES: [(usize, u32, Rule, u32); 18] = [
    (0, 0x5A4C, Rule::P1, 0),
    (60, 63, Rule::P1, 60),
    (0x80, 0x4551, Rule::P1, 128),
    (0x94, 215, Rule::P2, 148),
    (0x98, 0x10C, Rule::P2, 152),
    (0x98, 0x20B, Rule::P2, 148),
    (0xB8, 0x1FF, Rule::P3, 184),
    (0xBC, 0x300, Rule::P3, 188),
    (0xBC, 0x100, Rule::P3, 188),
    // directory 14
    (0x168, 0x21B9, Rule::P4, 360),
    // .text in the headers, .rsrc on .text, .reloc on .rsrc
    (0x184, 0x1FF, Rule::P4, 360),
    (0xD4, 0x201, Rule::P3, 376),
    (0x1A8, 0x2001, Rule::P3, 456),
    (0x1D4, 0x4000, Rule::P3, 456),
    (0x1DC, 0x5FF, Rule::P3, 456),
    (0x1DC, 0x601, Rule::P3, 456),
    // the metadata and the flags
    (0x20C, 0x1B9, Rule::P4, 520),
    (0x210, 0x11, Rule::P4, 528),
];

/// The offset of the first change that is answered otherwise.
fn other_change() -> Option<usize> {
    for (at, value, rule, place) in CHANGES {
        let mut bytes = sample(false);
        put(&mut bytes, at, value);
        if refusal_of(&bytes) != Some(broken(rule, place)) {
            return Some(at);
        }
    }
    None
}

#[test]
fn one_changed_field_is_refused(rt: HostRuntime) {
    assert_eq!(rt; other_change(), None);
}

/// Ranges of RVAs, and where their bytes stand in the file.
const RANGES: [(u32, u32, Option<(usize, usize)>); 4] = [
    (0x21FC, 4, Some((0x3FC, 0x400))),
    (0x21FC, 5, None),
    (0x1FFF, 2, None),
    (0x6000, 0x200, Some((0x600, 0x800))),
];

/// RVAs, and where the bytes from there to the end of their section stand.
const TAILS: [(u32, Option<(usize, usize)>); 4] = [
    (0x21FD, Some((0x3FD, 0x400))),
    (0x2200, None),
    (0x61FF, Some((0x7FF, 0x800))),
    (0x6200, None),
];

fn stands_at(found: Option<&[u8]>, bytes: &[u8], place: Option<(usize, usize)>) -> bool {
    match place {
        Some((from, to)) => found.is_some() && found == bytes.get(from..to),
        None => found.is_none(),
    }
}

fn finds_bytes(image: &Image, bytes: &[u8]) -> bool {
    for (rva, len, place) in RANGES {
        if !stands_at(image.at_rva(rva, len), bytes, place) {
            return false;
        }
    }
    for (rva, place) in TAILS {
        if !stands_at(image.tail(rva), bytes, place) {
            return false;
        }
    }
    true
}

fn has_cli_header(image: &Image) -> bool {
    let cli = image.cli();
    let metadata = [cli.header_rva, cli.metadata_rva, cli.metadata_len];
    metadata == [0x2000, 0x2048, 0x64] && cli.flags == 9 && cli.entry == 0x0600_0001
}

/// Whether the sample is read as it was made.
fn is_read(is_plus: bool) -> bool {
    let bytes = sample(is_plus);
    match Image::read(&bytes, 7) {
        Ok(image) => {
            finds_bytes(&image, &bytes)
                && has_cli_header(&image)
                && image.metadata() == &bytes[0x248..0x2AC]
        }
        Err(_) => false,
    }
}

#[test]
fn both_kinds_of_optional_header_are_read(rt: HostRuntime) {
    assert!(rt; is_read(false) && is_read(true));
}
