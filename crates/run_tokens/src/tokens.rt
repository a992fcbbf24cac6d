// Tokens where an instruction runs (ECMA-335, III.1.9 and II.22).

ghost use Rattle.std.specs.Prelude.{ℕ, ◌≡◌, IfOk};
ghost use Rattle.std.specs.Option.{option_copied};
ghost use Rattle.cil_semantics.specs.Lookups.{method_of};
ghost use Rattle.cil_semantics.specs.Tokens.{as_type, constrained_here, local_tys, locals_in, meaning_here, meaning_in, meaning_of, meaning_under, token_here};

use crate::meanings::{is_little, meaning_under};
use cil_base::Token;
use cil_model::{Instr, Meaning, Operand, Program, Ty, Tys, Under};
use look_ups::all_under;
use std::alloc::{AllocError, Global};

/// The types that stand for the parameters of a frame's type and of its method.
#[derive(Clone, Copy)]
pub struct Given<'a> {
    pub type_args: &'a [Ty],
    pub method_args: &'a [Ty],
}

// Where types stand for the parameters in the words of a clause's own method, and others for those of the frame.
fn in_frame(
    alloc: Global,
    meaning: &Meaning,
    under: Option<&Under>,
    given: &Given,
) -> Result<Meaning, AllocError>
    ensures { IfOk result (λ it. it ≡ meaning_under given.now.type_args.now given.now.method_args.now (meaning_in (option_copied under.entry) meaning.now)) }
{
    match under {
        None => {
            let it = meaning_under(alloc, meaning, given.type_args, given.method_args)?;
            Ok(it)
        }
        Some(u) => {
            let own = meaning_under(
                alloc,
                meaning,
                u.type_args.as_slice(),
                u.method_args.as_slice(),
            )?;
            let it = meaning_under(alloc, &own, given.type_args, given.method_args)?;
            Ok(it)
        }
    }
}

/// What a token of an assembly means in a frame, unless a type in it nests over 1,000 deep.
#[tactic(auto, unfolding(cil_semantics::specs::Tokens::token_here, cil_semantics::specs::Tokens::meaning_of))]
pub fn token_here(
    alloc: Global,
    program: &Program,
    given: &Given,
    under: Option<&Under>,
    assembly: u32,
    token: Token,
) -> Result<Option<Meaning>, AllocError>
    ensures { (number method : ℕ) → IfOk result (λ it. it ≡ token_here program.now (record { number = number; method = method; type_args = given.now.type_args.now; method_args = given.now.method_args.now }) (option_copied under.entry) assembly token) }
{
    let Some(meaning) = program.tokens.meaning(assembly, token) else {
        return Ok(None);
    };
    let it = in_frame(alloc, meaning, under, given)?;
    if is_little(&it) {
        Ok(Some(it))
    } else {
        Ok(None)
    }
}

fn own_under(instr: &Instr) -> Option<&Under>
    ensures { option_copied result ≡ instr.now.under }
{
    match &instr.under {
        None => None,
        Some(under) => Some(under.get()),
    }
}

/// What an instruction's token means where it runs.
pub fn meaning_here(
    alloc: Global,
    program: &Program,
    given: &Given,
    instr: &Instr,
) -> Result<Option<Meaning>, AllocError>
    ensures { (number method : ℕ) → IfOk result (λ it. it ≡ meaning_here program.now (record { number = number; method = method; type_args = given.now.type_args.now; method_args = given.now.method_args.now }) instr.now) }
{
    let Operand::Tok { assembly, token } = &instr.operand else {
        return Ok(None);
    };
    let it = token_here(alloc, program, given, own_under(instr), *assembly, *token)?;
    Ok(it)
}

fn as_type(meaning: Option<Meaning>) -> Option<Ty>
    ensures { result ≡ as_type meaning }
{
    match meaning {
        Some(Meaning::OfType(ty)) => Some(ty),
        _ => None,
    }
}

/// The type that the prefix `constrained.` of an instruction names.
pub fn constrained_here(
    alloc: Global,
    program: &Program,
    given: &Given,
    instr: &Instr,
) -> Result<Option<Ty>, AllocError>
    ensures { (number method : ℕ) → IfOk result (λ ty. ty ≡ constrained_here program.now (record { number = number; method = method; type_args = given.now.type_args.now; method_args = given.now.method_args.now }) instr.now) }
{
    let Operand::Tok { assembly, .. } = &instr.operand else {
        return Ok(None);
    };
    let Some(token) = instr.constrained else {
        return Ok(None);
    };
    let meaning = token_here(alloc, program, given, own_under(instr), *assembly, token)?;
    Ok(as_type(meaning))
}

#[tactic(auto, unfolding(cil_semantics::specs::Lookups::no_method))]
fn assembly_of(program: &Program, method: u32) -> u32
    ensures { result ≡ (method_of program.now method).assembly }
{
    match program.methods.get(method as usize) {
        Some(desc) => desc.assembly,
        None => 0,
    }
}

#[tactic(auto, unfolding(cil_semantics::specs::Tokens::meaning_of))]
fn locals_named(program: &Program, assembly: u32, token: Token) -> &[Ty]
    ensures { result.now ≡ locals_in (meaning_of program.now assembly token) }
{
    match program.tokens.meaning(assembly, token) {
        Some(Meaning::OfLocals(tys)) => tys.as_slice(),
        _ => &[],
    }
}

/// The types of a method's locals in a frame (ECMA-335, II.23.2.6).
pub fn local_types(
    alloc: Global,
    program: &Program,
    given: &Given,
    method: u32,
    locals: Option<Token>,
) -> Result<Tys, AllocError>
    ensures { (number : ℕ) → IfOk result (λ tys. tys ≡ local_tys program.now (record { number = number; method = method; type_args = given.now.type_args.now; method_args = given.now.method_args.now }) locals) }
{
    let Some(token) = locals else {
        return Ok(Tys::new(alloc));
    };
    let named = locals_named(program, assembly_of(program, method), token);
    let tys = all_under(alloc, named, given.type_args, given.method_args)?;
    Ok(tys)
}
