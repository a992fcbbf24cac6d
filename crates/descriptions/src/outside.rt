// Fields and methods outside the set (ECMA-335, II.22.25).
ghost use Rattle.std.specs.Prelude.{◌≡◌};
ghost use Rattle.descriptions.specs.Descriptions.{outside_field, outside_method};

use cil_base::Name;
use cil_model::{FieldDesc, MethodDesc, Ty};
use row_descriptions::Parameters;

/// A field outside the set; `owner` is the number of its type.
pub fn outside_field(name: Name, owner: u32, ty: Ty) -> FieldDesc
    ensures { result ≡ outside_field name owner ty }
{
    FieldDesc {
        owner,
        name,
        ty,
        is_static: false,
        flags: 0,
    }
}

/// A method outside the set; `owner` is the number of its type, `sig` that of its signature.
pub fn outside_method(name: Name, owner: u32, sig: u32, p: Parameters) -> MethodDesc
    ensures { result ≡ outside_method name owner sig p }
{
    MethodDesc {
        assembly: 0,
        row: 0,
        owner,
        name,
        params: p.params,
        result: p.result,
        sig,
        is_static: p.is_static,
        flags: 0,
        outside: true,
        abbreviator: false,
        invariant: false,
        generated: false,
        body: None,
        generics: p.generics,
    }
}
