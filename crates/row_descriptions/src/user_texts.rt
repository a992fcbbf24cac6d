// The texts of `#US` (ECMA-335, II.24.2.4).
ghost use Rattle.std.specs.Prelude.{◌≡◌, ◌<◌, ◌^◌, ◌++◌, length, IfOk};
ghost use Rattle.row_descriptions.specs.UserTexts.{units_of};

use cil_base::Units;
use std::alloc::{AllocError, Global};

/// The units of an entry.
pub fn units_of(alloc: Global, bytes: &[u8]) -> Result<Units, AllocError>
    ensures { IfOk result (λ units. units ≡ units_of bytes.now) }
{
    let mut units = Units::new(alloc);
    let mut rest = bytes;
    while let [low, high, more @ ..] = rest {
        units.push(*low as u16 + 0x100 * *high as u16)?;
        rest = more;
    }
    Ok(units)
}
