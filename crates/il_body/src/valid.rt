// What is read can be written.
ghost use Rattle.std.specs.Prelude.{ℕ, List, ◌<◌, ◌^◌, IfSome};
ghost use Rattle.cil_model.specs.declared.body.Body.{Body};
ghost use Rattle.cil_model.specs.BodyOf.{StandsFor};
ghost use Rattle.cil_model.specs.ValidBody.{AreBytes, IsValid};

/// A body that bytes stand for is as `encode_body` asks. `decode_body` says the row of its locals.
pub fn read_is_valid()
    ensures { (a : ℕ) (bytes : List ℕ) (body : Body) (len : ℕ) → AreBytes bytes → StandsFor a bytes body len → IfSome body.locals (λ token. token.row < 2 ^ 24) → IsValid a body }
{}
