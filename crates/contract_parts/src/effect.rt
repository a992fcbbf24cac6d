// Results of methods.

ghost use Rattle.std.specs.Prelude.{◌≡◌};
ghost use Rattle.contract_parts.specs.Flow.{has_result};

use cil_model::{MethodDesc, Ty};

pub fn has_result(desc: &MethodDesc) -> bool
    ensures { result ≡ has_result desc.now }
{
    !matches!(desc.result, Ty::Prim(0x01))
}
