// The token of a body's locals.
ghost use Rattle.std.specs.Prelude.{◌≡◌, IfSome};
ghost use Rattle.cil_model.specs.BodyLayout.{locals_number, locals_of};
ghost use Rattle.cil_model.specs.ValidBody.{IsSmallToken};
ghost use Rattle.body_rules.specs.Faults.{plain};

use cil_base::Token;
use cil_model::Body;

/// The token of this number; a number of 0 says that there are no locals.
fn locals_of(number: u32) -> Option<Token>
    ensures { result ≡ locals_of number }
{
    if number == 0 {
        return None;
    }
    Some(Token::from_u32(number))
}

/// The same locals, where a token of 0 says that there are none.
fn plain_locals(locals: Option<Token>) -> Option<Token>
    requires { IfSome locals IsSmallToken }
    ensures { result ≡ locals_of (locals_number locals) }
{
    match locals {
        Some(token) => locals_of(token.to_u32()),
        None => None,
    }
}

/// The same body, where a locals token of 0 says that there are none.
pub fn tell_locals(body: &mut Body)
    requires { IfSome body.old.locals IsSmallToken }
    ensures { body.new ≡ plain body.old }
{
    body.locals = plain_locals(body.locals);
}
