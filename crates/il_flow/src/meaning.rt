// What the tokens and indexes of a body mean.
ghost use Rattle.std.specs.Prelude.{◌≡◌, ◌<◌, ◌^◌, length, map, ◌∷◌, [], MatchOption, None};
ghost use Rattle.std.specs.List.{list_all, enumerate_from};
ghost use Rattle.std.specs.Option.{option_copied};
ghost use Rattle.cil_base.specs.Refusals.{First, NoneBroken};
ghost use Rattle.cil_semantics.specs.Lookups.{type_of, contract_exception};
ghost use Rattle.cil_semantics.specs.Tokens.{meaning_of};
ghost use Rattle.il_opcodes.specs.Opcodes.{opcode_of};
ghost use Rattle.il_flow.specs.Lowest.{lowest};
ghost use Rattle.il_flow.specs.Effects.{count_arguments};
ghost use Rattle.il_flow.specs.Meanings.{BreaksMeaning, all_stand, are_locals, are_locals_meant, count_locals, held_types, index_limit, instr_test, is_code_meant, is_index_there, is_instr_meant, is_kind_meant, is_meant, is_of_kind, is_operand_meant, is_region_meant, is_type_meant, meaning_tests, stands, table_test};

use crate::effect::{arguments_of, meaning_in};
use crate::height::offset_of;
use crate::lowest::lowered;
use cil_base::{Place, Refusal, Rule, Token};
use cil_model::{Body, Instr, Meaning, MethodDesc, Operand, Program, RegionKind, Ty};
use il_opcodes::{Class, Opcode, OperandKind, find_opcode};

/// Whether each parameter in a type is one of so many of a type and so many of a method.
#[cycle(stands)]
fn stands(types: u32, methods: u32, ty: &Ty) -> bool
    ensures { result ≡ stands types methods ty.now }
{
    match ty {
        Ty::Array(item) => stands(types, methods, item.get()),
        Ty::ByRef(item) => stands(types, methods, item.get()),
        Ty::Var(k) => *k < types,
        Ty::MVar(k) => *k < methods,
        Ty::Inst { args, .. } => each_stands(types, methods, args.as_slice()),
        _ => true,
    }
}

#[cycle(stands)]
fn each_stands(types: u32, methods: u32, tys: &[Ty]) -> bool
    ensures { result ≡ list_all (stands types methods) tys.now }
{
    for ty in tys {
        if !stands(types, methods, ty) {
            return false;
        }
    }
    true
}

#[tactic(auto, unfolding(cil_semantics::specs::Lookups::contract_exception))]
fn parameters_of(program: &Program, ty: u32) -> u32
    ensures { result ≡ (type_of program.now ty).generics }
{
    match program.types.get(ty as usize) {
        Some(ty) => ty.generics,
        None => 0,
    }
}

fn all_stand(program: &Program, own: &MethodDesc, tys: &[Ty]) -> bool
    ensures { result ≡ all_stand program.now own.now tys.now }
{
    each_stands(parameters_of(program, own.owner), own.generics, tys)
}

fn one_stands(program: &Program, own: &MethodDesc, ty: &Ty) -> bool
    ensures { result ≡ stands (type_of program.now own.now.owner).generics own.now.generics ty.now }
{
    stands(parameters_of(program, own.owner), own.generics, ty)
}

fn held_stand(program: &Program, own: &MethodDesc, meaning: &Meaning) -> bool
    ensures { result ≡ all_stand program.now own.now (held_types meaning.now) }
{
    match meaning {
        Meaning::OfType(ty) => one_stands(program, own, ty),
        Meaning::OfField { owner, .. } => one_stands(program, own, owner),
        Meaning::OfMethod { owner, args, .. } => {
            one_stands(program, own, owner) && all_stand(program, own, args.as_slice())
        }
        Meaning::OfText(_) => true,
        Meaning::OfLocals(tys) => all_stand(program, own, tys.as_slice()),
    }
}

fn is_of_kind(kind: OperandKind, meaning: &Meaning) -> bool
    ensures { result ≡ is_of_kind kind meaning.now }
{
    match (kind, meaning) {
        (OperandKind::TypeToken, Meaning::OfType(_)) => true,
        (OperandKind::FieldToken, Meaning::OfField { .. }) => true,
        (OperandKind::MethodToken, Meaning::OfMethod { .. }) => true,
        (OperandKind::StringToken, Meaning::OfText(_)) => true,
        (OperandKind::AnyToken, Meaning::OfType(_)) => true,
        (OperandKind::AnyToken, Meaning::OfField { .. }) => true,
        (OperandKind::AnyToken, Meaning::OfMethod { .. }) => true,
        _ => false,
    }
}

fn is_token_meant(
    program: &Program,
    own: &MethodDesc,
    kind: OperandKind,
    assembly: u32,
    token: Token,
) -> bool
    ensures { result ≡ is_meant program.now own.now (is_of_kind kind) (meaning_of program.now assembly token) }
{
    match meaning_in(program, assembly, token) {
        Some(meaning) => is_of_kind(kind, meaning) && held_stand(program, own, meaning),
        None => false,
    }
}

fn is_operand_meant(
    program: &Program,
    own: &MethodDesc,
    kind: OperandKind,
    operand: &Operand,
) -> bool
    ensures { result ≡ is_operand_meant program.now own.now kind operand.now }
{
    match operand {
        Operand::Tok { assembly, token } => is_token_meant(program, own, kind, *assembly, *token),
        _ => true,
    }
}

fn is_type_meant(program: &Program, own: &MethodDesc, token: Option<Token>) -> bool
    ensures { result ≡ is_type_meant program.now own.now token }
{
    match token {
        Some(token) => is_token_meant(program, own, OperandKind::TypeToken, own.assembly, token),
        None => true,
    }
}

fn are_locals_meant(program: &Program, own: &MethodDesc, locals: Option<Token>) -> bool
    ensures { result ≡ are_locals_meant program.now own.now locals }
{
    let Some(token) = locals else {
        return true;
    };
    match meaning_in(program, own.assembly, token) {
        Some(Meaning::OfLocals(tys)) => all_stand(program, own, tys.as_slice()),
        _ => false,
    }
}

fn count_locals(program: &Program, own: &MethodDesc, locals: Option<Token>) -> usize
    ensures { result ≡ count_locals program.now own.now locals }
{
    let Some(token) = locals else {
        return 0;
    };
    match meaning_in(program, own.assembly, token) {
        Some(Meaning::OfLocals(tys)) => tys.len(),
        _ => 0,
    }
}

fn index_limit(arguments: usize, locals: usize, class: Class) -> Option<usize>
    ensures { result ≡ index_limit arguments locals class }
{
    match class {
        Class::LoadArgument => Some(arguments),
        Class::StoreArgument => Some(arguments),
        Class::ArgumentAddress => Some(arguments),
        Class::LoadLocal => Some(locals),
        Class::StoreLocal => Some(locals),
        Class::LocalAddress => Some(locals),
        _ => None,
    }
}

fn is_index_there(limit: Option<usize>, operand: &Operand) -> bool
    ensures { result ≡ is_index_there limit operand.now }
{
    let Some(limit) = limit else {
        return true;
    };
    match operand {
        Operand::Index(k) => (*k as usize) < limit,
        _ => true,
    }
}

fn is_code_meant(
    program: &Program,
    own: &MethodDesc,
    locals: usize,
    opcode: Option<Opcode>,
    operand: &Operand,
) -> bool
    ensures { result ≡ is_code_meant program.now own.now locals opcode operand.now }
{
    let Some(opcode) = opcode else {
        return true;
    };
    is_operand_meant(program, own, opcode.operand, operand)
        && is_index_there(
            index_limit(arguments_of(own), locals, opcode.class),
            operand,
        )
}

fn is_instr_meant(program: &Program, own: &MethodDesc, locals: usize, i: &Instr) -> bool
    ensures { result ≡ is_instr_meant program.now own.now locals i.now }
{
    is_code_meant(program, own, locals, find_opcode(i.op), &i.operand)
        && is_type_meant(program, own, i.constrained)
}

fn are_regions_meant(program: &Program, own: &MethodDesc, body: &Body) -> bool
    ensures { result ≡ list_all (is_region_meant program.now own.now) body.now.regions }
{
    for region in body.regions.as_slice() {
        if !is_kind_meant(program, own, &region.kind) {
            return false;
        }
    }
    true
}

fn is_kind_meant(program: &Program, own: &MethodDesc, kind: &RegionKind) -> bool
    ensures { result ≡ is_kind_meant program.now own.now kind.now }
{
    match kind {
        RegionKind::Catch(token) => is_type_meant(program, own, Some(*token)),
        _ => true,
    }
}

fn table_fault(program: &Program, own: &MethodDesc, body: &Body, place: Place) -> Option<Refusal>
    ensures { result ≡ lowest None (table_test program.now own.now place body.now ∷ []) }
{
    let meant = are_locals_meant(program, own, body.locals)
        && are_regions_meant(program, own, body);
    lowered(None, place.refusal(Rule::I6, 0), !meant)
}

fn code_fault(
    program: &Program,
    own: &MethodDesc,
    body: &Body,
    place: Place,
    first: Option<Refusal>,
) -> Option<Refusal>
    requires { length body.now.instrs < 2 ^ 32 }
    ensures { result ≡ lowest first (map (instr_test program.now own.now place body.now) (enumerate_from 0 body.now.instrs)) }
{
    let locals = count_locals(program, own, body.locals);
    let mut best = first;
    let instrs = body.instrs.as_slice();
    for k in 0..instrs.len() {
        let found = place.refusal(Rule::I6, offset_of(&body.offsets, k as u32));
        best = lowered(
            best,
            found,
            !is_instr_meant(program, own, locals, &instrs[k]),
        );
    }
    best
}

/// The first token or index of a method's body that doesn't mean what it has to there, I6: at the
/// offset of its instruction, or at 0 in the locals and regions.
#[tactic(auto, using(crate::proofs::MeaningLaws::first_meaning))]
pub fn meaning_fault(
    program: &Program,
    own: &MethodDesc,
    body: &Body,
    place: Place,
) -> Option<Refusal>
    requires { length body.now.instrs < 2 ^ 32 }
    ensures { MatchOption result (NoneBroken (BreaksMeaning program.now own.now place body.now)) (First (BreaksMeaning program.now own.now place body.now)) }
{
    let table = table_fault(program, own, body, place);
    code_fault(program, own, body, place, table)
}
