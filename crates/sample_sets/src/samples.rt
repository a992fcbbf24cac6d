// Assemblies that are given as text.

use crate::cells::{add_row, no_sample};
use asm_gen::Builder;
use cil_base::{Bytes, Fault};
use std::alloc::Global;

static TABLES: [(&str, u8); 20] = [
    ("TypeRef", 0x01),
    ("TypeDef", 0x02),
    ("Field", 0x04),
    ("MethodDef", 0x06),
    ("InterfaceImpl", 0x09),
    ("MemberRef", 0x0A),
    ("CustomAttribute", 0x0C),
    ("StandAloneSig", 0x11),
    ("PropertyMap", 0x15),
    ("Property", 0x17),
    ("MethodImpl", 0x19),
    ("ModuleRef", 0x1A),
    ("TypeSpec", 0x1B),
    ("AssemblyRef", 0x23),
    ("File", 0x26),
    ("ExportedType", 0x27),
    ("NestedClass", 0x29),
    ("GenericParam", 0x2A),
    ("MethodSpec", 0x2B),
    ("GenericParamConstraint", 0x2C),
];

fn table_named(name: &str) -> Result<u8, Fault> {
    for (known, table) in &TABLES {
        if *known == name {
            return Ok(*table);
        }
    }
    Err(no_sample())
}

/// The rows of each assembly: of its name, and the members of `<Module>` begin there.
fn add_head(builder: &mut Builder, alloc: Global, name: &str, firsts: &str) -> Result<(), Fault> {
    let module = format!(in alloc; "0, {name}, 1, 0, 0")?;
    let assembly = format!(in alloc; "0x8004, 1, 0, 0, 0, 0, -, {name}, -")?;
    let class = format!(in alloc; "0, <Module>, -, 0, {firsts}")?;
    add_row(builder, alloc, 0x00, module.as_str())?;
    add_row(builder, alloc, 0x20, assembly.as_str())?;
    add_row(builder, alloc, 0x02, class.as_str())
}

fn add_line(builder: &mut Builder, alloc: Global, line: &str) -> Result<(), Fault> {
    let Some((word, cells)) = line.split_once(' ') else {
        return Err(no_sample());
    };
    if word == "assembly" {
        let (name, firsts) = cells.split_once(", ").unwrap_or((cells, "1, 1"));
        return add_head(builder, alloc, name, firsts);
    }
    add_row(builder, alloc, table_named(word)?, cells)
}

/// Adds the rows of the assembly of a number, from 0; `count` assemblies have begun before the lines.
fn add_lines(
    builder: &mut Builder,
    alloc: Global,
    lines: &str,
    number: u32,
    count: &mut u32,
) -> Result<(), Fault> {
    for line in lines.lines() {
        if line.starts_with("assembly ") {
            *count = count.saturating_add(1);
        }
        if *count > number && *count - number == 1 {
            add_line(builder, alloc, line)?;
        }
    }
    Ok(())
}

fn add_assembly(
    builder: &mut Builder,
    alloc: Global,
    sample: &[&str],
    number: u32,
) -> Result<(), Fault> {
    let mut count = 0;
    for lines in sample {
        add_lines(builder, alloc, lines, number, &mut count)?;
    }
    Ok(())
}

/// The bytes of the assembly of a number of a sample, whose lines may stand in several pieces. L6 with the limit 0 where it is none.
pub(crate) fn image(alloc: Global, sample: &[&str], number: u32) -> Result<Bytes, Fault> {
    let mut builder = Builder::new(alloc)?;
    add_assembly(&mut builder, alloc, sample, number)?;
    if !builder.fits() {
        return Err(no_sample());
    }
    builder.finish(alloc)
}

/// How many assemblies a sample has.
pub(crate) fn assemblies(sample: &[&str]) -> u32 {
    let mut count = 0u32;
    for lines in sample {
        count = count.saturating_add(heads(lines));
    }
    count
}

fn heads(lines: &str) -> u32 {
    let mut count = 0u32;
    for line in lines.lines() {
        if line.starts_with("assembly ") {
            count = count.saturating_add(1);
        }
    }
    count
}
