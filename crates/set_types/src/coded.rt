// What the coded types of an assembly's signatures lead to (ECMA-335, II.23.2.8).
ghost use Rattle.std.specs.Prelude.{◌≡◌, get_or, None};
ghost use Rattle.std.specs.Option.{option_copied};
ghost use Rattle.set_types.specs.CodedTypes.{coded_of, named_row, number_row};

use cil_base::U32s;
use cil_model::{Ty, Tys};
use cli_sigs::SigTy;

/// By row from 0: the types of TypeDef and TypeRef rows with their numbers, and the signatures of
/// TypeSpec rows. None for a TypeRef row that names no type, and for a TypeSpec row whose blob is in
/// no grammar.
#[derive(Drop)]
pub struct CodedTypes {
    pub defs: Tys,
    pub refs: Vec<Option<Ty>>,
    pub def_numbers: U32s,
    pub ref_numbers: Vec<Option<u32>>,
    pub specs: Vec<Option<SigTy>>,
}

/// The type of a row, where it names one.
fn reference_at(refs: &[Option<Ty>], k: usize) -> Option<&Ty>
    ensures { option_copied result ≡ get_or refs.now k None }
{
    match refs.get(k) {
        Some(Some(ty)) => Some(ty),
        _ => None,
    }
}

impl CodedTypes {
    /// The type of a TypeDef or TypeRef row.
    pub fn named(&self, coded: u32) -> Option<&Ty>
        ensures { option_copied result ≡ named_row self.now coded }
    {
        let row = coded / 4;
        if row == 0 {
            return None;
        }
        match coded % 4 {
            0 => self.defs.get(row as usize - 1),
            1 => reference_at(self.refs.as_slice(), row as usize - 1),
            _ => None,
        }
    }

    /// The number of the type of a TypeDef or TypeRef row.
    pub fn number(&self, coded: u32) -> Option<u32>
        ensures { result ≡ number_row self.now coded }
    {
        let row = coded / 4;
        if row == 0 {
            return None;
        }
        match coded % 4 {
            0 => self.def_numbers.get(row as usize - 1).copied(),
            1 => self
                .ref_numbers
                .get(row as usize - 1)
                .copied()
                .unwrap_or(None),
            _ => None,
        }
    }

    /// The signature of a TypeSpec row.
    pub fn spec(&self, row: u32) -> Option<&SigTy>
        ensures { option_copied result ≡ (coded_of self.now).spec row }
    {
        if row == 0 {
            return None;
        }
        match self.specs.get(row as usize - 1) {
            Some(Some(ty)) => Some(ty),
            _ => None,
        }
    }
}
