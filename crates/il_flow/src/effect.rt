// How an instruction changes the height of the stack.
ghost use Rattle.std.specs.Prelude.{◌≡◌, ◌+◌, ◌≤◌, ◌<◌, ◌^◌, length};
ghost use Rattle.std.specs.Option.{option_copied, option_map_or};
ghost use Rattle.cil_model.specs.declared.ty.Ty.{out-Ty};
ghost use Rattle.il_opcodes.specs.Opcodes.{opcode_of};
ghost use Rattle.cil_semantics.specs.Types.{is_prim};
ghost use Rattle.cil_semantics.specs.Lookups.{method_of, no_method};
ghost use Rattle.cil_semantics.specs.Tokens.{meaning_of};
ghost use Rattle.il_flow.specs.Effects.{count_arguments, count_results, effect_by, effect_of, member, plain};

use cil_base::Token;
use cil_model::{Instr, Meaning, MethodDesc, Operand, Program, Ty};
use il_opcodes::{Class, Opcode, find_opcode};

/// How many values an instruction takes from the stack and leaves there. `takes_all` says that no
/// others may lie there, as for `ret`, and `empties` that others are dropped, as by `leave`.
#[derive(Clone, Copy)]
pub struct Effect {
    pub takes: usize,
    pub leaves: u8,
    pub takes_all: bool,
    pub empties: bool,
}

fn is_void(ty: &Ty) -> bool
    ensures { result ≡ is_prim 0x01 (out-Ty ty.now) }
{
    match ty {
        Ty::Prim(b) => *b == 1,
        _ => false,
    }
}

fn results_of(method: &MethodDesc) -> u8
    ensures { result ≡ count_results method.now }
{
    if is_void(&method.result) { 0 } else { 1 }
}

/// How many arguments a call of a method takes, with `this`.
pub fn arguments_of(method: &MethodDesc) -> usize
    ensures { result ≡ count_arguments method.now }
{
    let params = method.params.as_slice().len();
    if method.is_static { params } else { params + 1 }
}

/// What a token of an assembly means.
#[tactic(auto, unfolding(cil_semantics::specs::Tokens::meaning_of))]
pub fn meaning_in(program: &Program, assembly: u32, token: Token) -> Option<&Meaning>
    ensures { option_copied result ≡ meaning_of program.now assembly token }
{
    program.tokens.meaning(assembly, token)
}

fn plain(takes: usize, leaves: u8) -> Effect
    ensures { result ≡ plain takes leaves }
{
    Effect {
        takes,
        leaves,
        takes_all: false,
        empties: false,
    }
}

#[tactic(auto, unfolding(cil_semantics::specs::Lookups::no_method))]
fn known_call(program: &Program, method: u32) -> Effect
    ensures { let called = method_of program.now method in result ≡ plain (count_arguments called) (count_results called) }
{
    match program.methods.get(method as usize) {
        Some(method) => plain(arguments_of(method), results_of(method)),
        None => plain(0, 0),
    }
}

#[tactic(auto, unfolding(cil_semantics::specs::Lookups::no_method))]
fn known_new(program: &Program, method: u32) -> Effect
    ensures { result ≡ plain (length (method_of program.now method).params) 1 }
{
    match program.methods.get(method as usize) {
        Some(method) => plain(method.params.as_slice().len(), 1),
        None => plain(0, 1),
    }
}

fn method_named(program: &Program, operand: &Operand) -> Option<u32>
    ensures { member program.now operand.now ≡ option_map_or (method_of program.now) result no_method }
{
    let Operand::Tok { assembly, token } = operand else {
        return None;
    };
    match meaning_in(program, *assembly, *token) {
        Some(Meaning::OfMethod { method, .. }) => Some(*method),
        _ => None,
    }
}

#[tactic(auto, unfolding(cil_semantics::specs::Lookups::no_method))]
fn call_effect(program: &Program, operand: &Operand) -> Effect
    ensures { let called = member program.now operand.now in result ≡ plain (count_arguments called) (count_results called) }
{
    match method_named(program, operand) {
        Some(method) => known_call(program, method),
        None => plain(0, 0),
    }
}

#[tactic(auto, unfolding(cil_semantics::specs::Lookups::no_method))]
fn new_effect(program: &Program, operand: &Operand) -> Effect
    ensures { result ≡ plain (length (member program.now operand.now).params) 1 }
{
    match method_named(program, operand) {
        Some(method) => known_new(program, method),
        None => plain(0, 1),
    }
}

fn effect_by(program: &Program, own: &MethodDesc, i: &Instr, opcode: Opcode) -> Effect
    ensures { result ≡ effect_by own.now (member program.now i.now.operand) opcode opcode.class }
{
    match opcode.class {
        Class::Call => call_effect(program, &i.operand),
        Class::CallVirtual => call_effect(program, &i.operand),
        Class::NewObject => new_effect(program, &i.operand),
        Class::Return => Effect {
            takes: results_of(own) as usize,
            leaves: 0,
            takes_all: true,
            empties: false,
        },
        Class::Leave => Effect {
            takes: 0,
            leaves: 0,
            takes_all: false,
            empties: true,
        },
        _ => plain(
            opcode.pops.unwrap_or(0) as usize,
            opcode.pushes.unwrap_or(0),
        ),
    }
}

/// What an instruction that was looked up does to the height of the stack.
pub(crate) fn found_effect(
    program: &Program,
    own: &MethodDesc,
    i: &Instr,
    found: Option<Opcode>,
) -> Effect
    requires { found ≡ opcode_of i.now.op }
    ensures { result ≡ effect_of program.now own.now i.now }
{
    match found {
        Some(opcode) => effect_by(program, own, i, opcode),
        None => plain(0, 0),
    }
}

/// What an instruction of a method does to the height of the stack.
pub fn effect_in(program: &Program, own: &MethodDesc, i: &Instr) -> Effect
    ensures { result ≡ effect_of program.now own.now i.now }
{
    found_effect(program, own, i, find_opcode(i.op))
}
