// The table of instructions against the standard (ECMA-335, III.3 and III.4).
use il_opcodes::{Class, Opcode, Storage, find_mnemonic, find_opcode};

fn has_counts(o: Opcode, pops: u8, pushes: u8) -> bool {
    o.pops == Some(pops) && o.pushes == Some(pushes)
}

/// Whether an instruction has this mnemonic and takes and leaves so many values.
fn is_row(code: u16, mnemonic: &str, pops: u8, pushes: u8) -> bool {
    match find_opcode(code) {
        None => false,
        Some(o) => {
            has_counts(o, pops, pushes)
                && matches!(find_mnemonic(code), Some(text) if text == mnemonic)
        }
    }
}

#[test]
fn instructions_are_those_of_the_standard(rt: HostRuntime) {
    let all = is_row(0x00, "nop", 0, 0)
        && is_row(0x14, "ldnull", 0, 1)
        && is_row(0x25, "dup", 1, 2)
        && is_row(0x5B, "div", 2, 1)
        && is_row(0x64, "shr.un", 2, 1)
        && is_row(0x7D, "stfld", 2, 0)
        && is_row(0x8E, "ldlen", 1, 1)
        && is_row(0xA2, "stelem.ref", 3, 0)
        && is_row(0xBA, "conv.ovf.u8", 1, 1)
        && is_row(0xDE, "leave.s", 0, 0)
        && is_row(0xFE06, "ldftn", 0, 1)
        && is_row(0xFE1C, "sizeof", 0, 1);
    assert!(rt; all);
}

#[test]
fn a_class_says_what_a_location_holds(rt: HostRuntime) {
    let is_long = matches!(
        find_opcode(0x96),
        Some(Opcode {
            class: Class::LoadElement(Storage::Long),
            ..
        })
    );
    assert!(rt; is_long && find_opcode(0x24).is_none() && find_mnemonic(0xFE08).is_none());
}
