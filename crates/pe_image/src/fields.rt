// Header fields that pass the end of the file.
ghost use Rattle.std.specs.Prelude.{◌≡◌, ◌<◌, ◌^◌, length};
ghost use Rattle.cil_base.specs.Numbers.{printed_offset};
ghost use Rattle.cil_base.specs.Refusals.{refusal, assembly_place, first_of};
ghost use Rattle.pe_image.specs.Rules.{cuts};

use cil_base::{Place, Refusal, Rule};

/// A header field: how far behind the head of its part it stands, and its width in bytes.
#[derive(Clone, Copy)]
pub struct Field {
    pub offset: u8,
    pub width: u8,
}

/// The refusal at an offset of the file. One past the last u32 is printed as the last.
pub fn refusal_at(rule: Rule, assembly: u32, at: usize) -> Refusal
    ensures { result ≡ refusal rule (assembly_place assembly) (printed_offset at) }
{
    Place::of_assembly(assembly).refusal(rule, at.min(u32::MAX as usize) as u32)
}

/// The first of the fields behind `at` that passes the end of the file.
pub fn first_cut(bytes: &[u8], assembly: u32, at: usize, fields: &[Field]) -> Option<Refusal>
    requires { at < 2 ^ 40 }
    ensures { result ≡ first_of (cuts bytes.now assembly at fields.now) }
{
    for field in fields {
        let Field { offset, width } = *field;
        let field_at = at + usize::from(offset);
        if field_at + usize::from(width) > bytes.len() {
            return Some(refusal_at(Rule::P6, assembly, field_at));
        }
    }
    None
}
