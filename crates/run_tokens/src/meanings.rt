// Meanings of tokens where types stand for parameters (ECMA-335, II.9.2).

ghost use Rattle.std.specs.Prelude.{◌≡◌, IfOk};
ghost use Rattle.cil_semantics.specs.Tokens.{is_little, meaning_under};

use crate::nesting::{all_nest_within, nests_within};
use cil_base::Units;
use cil_model::{Meaning, Ty};
use look_ups::{all_under, ty_under};
use std::alloc::{AllocError, Global};

/// The meaning where these stand for the parameters of its type and of its method.
pub fn meaning_under(
    alloc: Global,
    meaning: &Meaning,
    type_args: &[Ty],
    method_args: &[Ty],
) -> Result<Meaning, AllocError>
    ensures { IfOk result (λ it. it ≡ meaning_under type_args.now method_args.now meaning.now) }
{
    match meaning {
        Meaning::OfType(ty) => Ok(Meaning::OfType(ty_under(alloc, ty, type_args, method_args)?)),
        Meaning::OfField { owner, field } => Ok(Meaning::OfField {
            owner: ty_under(alloc, owner, type_args, method_args)?,
            field: *field,
        }),
        Meaning::OfMethod {
            owner,
            method,
            args,
        } => Ok(Meaning::OfMethod {
            owner: ty_under(alloc, owner, type_args, method_args)?,
            method: *method,
            args: all_under(alloc, args.as_slice(), type_args, method_args)?,
        }),
        Meaning::OfText(units) => Ok(Meaning::OfText(Units::from_slice(alloc, units.as_slice())?)),
        Meaning::OfLocals(tys) => Ok(Meaning::OfLocals(all_under(
            alloc,
            tys.as_slice(),
            type_args,
            method_args,
        )?)),
    }
}

/// Whether no type in a meaning nests over 1,000 deep.
pub(crate) fn is_little(meaning: &Meaning) -> bool
    ensures { result ≡ is_little meaning.now }
{
    match meaning {
        Meaning::OfType(ty) => nests_within(ty, 1000),
        Meaning::OfField { owner, .. } => nests_within(owner, 1000),
        Meaning::OfMethod { owner, args, .. } => {
            nests_within(owner, 1000) && all_nest_within(args.as_slice(), 1000)
        }
        Meaning::OfText(_) => true,
        Meaning::OfLocals(tys) => all_nest_within(tys.as_slice(), 1000),
    }
}
