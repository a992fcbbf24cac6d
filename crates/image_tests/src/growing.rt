// Images that grow by one section.
ghost use Rattle.std.specs.Prelude.{◌+◌, ◌<◌, ◌≤◌, ◌^◌, length};

use crate::samples::{SIZE_LIMIT, broken, limit, put_all, sample, zeros};
use cil_base::{Bytes, Fault, Refusal, Rule};
use pe_image::{Image, write_image};
use std::alloc::Global;

const SECTION: [u8; 0x250] = [0x5A; 0x250];

/// What becomes other in the sample's headers and its CLI header with one more section of 0x250 bytes, with
/// metadata of 0x40 bytes at RVA 0x8010: the headers had no room, so they take one unit of 0x200 bytes more.
const GROWN: [(usize, u32); 25] = [
    (0x84, 0x4014C),
    (0x8C, 0),
    (0x90, 0),
    (0xD0, 0xA000),
    (0xD4, 0x400),
    (0xD8, 0),
    (0x118, 0),
    (0x11C, 0),
    (0x128, 0),
    (0x12C, 0),
    (0x18C, 0x400),
    (0x1B4, 0x600),
    (0x1DC, 0x800),
    (0x1F0, 0x7263_632E),
    (0x1F4, 0x77),
    (0x1F8, 0x250),
    (0x1FC, 0x8000),
    (0x200, 0x400),
    (0x204, 0xA00),
    (0x214, 0x6000_0020),
    (0x408, 0x8010),
    (0x40C, 0x40),
    (0x410, 1),
    (0x420, 0),
    (0x424, 0),
];

/// The sample with that section.
fn grown_sample() -> [u8; 0xE00] {
    let old = sample(false);
    let mut bytes = [0; 0xE00];
    for (i, byte) in old.iter().enumerate() {
        if i < 0x1F0 {
            bytes[i] = *byte;
        } else if i >= 0x200 {
            bytes[i + 0x200] = *byte;
        }
    }
    for i in 0xA00..0xC50 {
        bytes[i] = 0x5A;
    }
    put_all(&mut bytes, &GROWN, 0);
    bytes
}

/// The bytes with one more section at this RVA, in which metadata of so many bytes stand at an offset.
fn grow(
    alloc: Global,
    bytes: &[u8],
    section: &[u8],
    address: u32,
    offset: u32,
    metadata_len: u32,
) -> Result<Bytes, Fault>
    requires short { length bytes.now < 2 ^ 32 }
    requires section { length section.now < 2 ^ 32 }
    requires metadata { offset + metadata_len ≤ length section.now }
    requires low { address < 2 ^ 31 }
    requires near { offset < 2 ^ 31 }
{
    let image = match Image::read(bytes, 7) {
        Ok(image) => image,
        Err(refusal) => return Err(Fault::Refused(refusal)),
    };
    match image.room() {
        Ok(room) => {
            if room != address {
                return Err(Fault::Refused(broken(Rule::Z1, room)));
            }
            write_image(alloc, &image, section, address + offset, metadata_len)
        }
        Err(refusal) => Err(Fault::Refused(refusal)),
    }
}

fn is_grown_sample(alloc: Global) -> Result<bool, Fault> {
    let bytes = grow(alloc, &sample(false), &SECTION, 0x8000, 0x10, 0x40)?;
    Ok(bytes.as_slice() == &grown_sample()[..])
}

#[test]
fn an_image_grows_by_one_section(rt: HostRuntime) -> Result<(), Fault> {
    assert!(rt; is_grown_sample(rt.alloc())?);
    Ok(())
}

/// Whether the image has the section, and at old RVAs what the sample that had grown once has.
fn has_grown_twice(bytes: &[u8], once: &[u8; 0xE00]) -> bool
    requires { length bytes.now < 2 ^ 32 }
{
    match Image::read(bytes, 7) {
        Ok(image) => {
            image.metadata() == &SECTION[..0x100]
                && image.at_rva(0x21FC, 4) == Some(&once[0x5FC..0x600])
                && image.at_rva(0x8000, 0x400) == Some(&once[0xA00..0xE00])
                && image.room() == Ok(0xC000)
        }
        Err(_) => false,
    }
}

fn grows_again(alloc: Global) -> Result<bool, Fault> {
    let once = grown_sample();
    let twice = grow(alloc, &once, &SECTION[..0x100], 0xA000, 0, 0x100)?;
    Ok(twice.len() == 0x1000 && has_grown_twice(twice.as_slice(), &once))
}

#[test]
fn a_grown_image_grows_again(rt: HostRuntime) -> Result<(), Fault> {
    assert!(rt; grows_again(rt.alloc())?);
    Ok(())
}

/// What leaves the sample without room: a first section that begins behind the headers, but not behind one
/// unit more; a last one that ends too near to the end of all RVAs.
const WITHOUT_ROOM: [[(usize, u32); 3]; 2] = [
    [(0x168, 0x300), (0x184, 0x300), (0x208, 0x348)],
    [(0x1D4, 0xF800_0000), (0x208, 0x2048), (0x20C, 0x64)],
];

fn room_of(fields: &[(usize, u32)]) -> Option<Result<u32, Refusal>> {
    let mut bytes = sample(false);
    put_all(&mut bytes, fields, 0);
    match Image::read(&bytes, 7) {
        Ok(image) => Some(image.room()),
        Err(_) => None,
    }
}

#[test]
fn no_room_for_a_section(rt: HostRuntime) {
    for fields in WITHOUT_ROOM {
        assert!(rt; room_of(&fields) == Some(Err(broken(Rule::P5, 212))));
    }
}

/// The limit that is passed where the sample grows by so many bytes.
fn limit_of(alloc: Global, section: &[u8]) -> Option<Refusal>
    requires { length section.now < 2 ^ 32 }
{
    match grow(alloc, &sample(false), section, 0x8000, 0, 0) {
        Err(Fault::Refused(refusal)) => Some(refusal),
        _ => None,
    }
}

#[test]
fn an_image_over_128_mebibytes_is_refused(rt: HostRuntime) -> Result<(), Fault> {
    let section = zeros(rt.alloc(), SIZE_LIMIT - 0xA00 + 1)?;
    assert!(rt; limit_of(rt.alloc(), &section) == Some(limit(Rule::L6, SIZE_LIMIT as u32 + 1)));
    Ok(())
}
