// The structs of a set, and those that a type names (ECMA-335, II.10.1).
ghost use Rattle.std.specs.Prelude.{◌≡◌, ◌++◌, ◌∷◌, [], IfOk, OnOk};
ghost use Rattle.std.specs.List.{flat_map};
ghost use Rattle.set_program.specs.TypeRules.{is_struct, structs_in};
ghost use Rattle.member_table.specs.Environments.{AreOf};

use crate::kinds::struct_flags;
use cil_base::U32s;
use cil_model::Ty;
use member_table::MemberTable;
use std::alloc::{AllocError, Global};
use std::marker::Model;
use type_table::TypeTable;

/// The types of a set with which of them are structs, by number.
#[derive(Drop)]
pub struct Structs<'a> {
    types: &'a TypeTable<'a>,
    flags: Vec<bool>,
}

impl<'a> Model for Structs<'a> {
    ghost use Rattle.set_rows.specs.Sets.{Assemblies};
    ghost use Rattle.type_circles.specs.Structs.{AreStructs};

    ghost Value = { Assemblies };

    ghost view = { λ t. t.types.now };

    ghost invariant = { λ t. AreStructs t.types.now t.flags.items };
}

impl<'a> Structs<'a> {
    /// The structs of the set of `types`, where these are its assemblies and its types.
    pub fn new(
        alloc: Global,
        types: &'a TypeTable<'a>,
        table: &MemberTable<'_>,
    ) -> Result<Structs<'a>, AllocError>
        requires { AreOf types.now table.now.assemblies.items table.now.types.items }
        ensures { IfOk result (λ t. t ≡ types.entry.now) }
    {
        let flags = struct_flags(alloc, table.assemblies.as_slice(), table.types.as_slice())?;
        Ok(Structs { types, flags })
    }

    /// Whether a number is that of a struct.
    pub fn is(&self, k: u32) -> bool
        ensures { result ≡ is_struct self.now k }
    {
        match self.flags.get(k as usize) {
            None => false,
            Some(flag) => *flag,
        }
    }
}

/// Appends the structs that a type names, as itself or among the arguments of a struct.
#[cycle(named)]
pub fn push_structs(structs: &Structs<'_>, out: &mut U32s, ty: &Ty) -> Result<(), AllocError>
    ensures { OnOk result (out.new ≡ out.old ++ structs_in structs.now ty.now) }
{
    match ty {
        Ty::Known(k) => {
            if structs.is(*k) {
                return out.push(*k);
            }
            Ok(())
        }
        Ty::Inst { ty: k, args } => {
            if !structs.is(*k) {
                return Ok(());
            }
            out.push(*k)?;
            push_each(structs, out, args.as_slice())?;
            Ok(())
        }
        _ => Ok(()),
    }
}

#[cycle(named)]
fn push_each(structs: &Structs<'_>, out: &mut U32s, tys: &[Ty]) -> Result<(), AllocError>
    ensures { OnOk result (out.new ≡ out.old ++ flat_map (structs_in structs.now) tys.now) }
{
    for ty in tys {
        push_structs(structs, out, ty)?;
    }
    Ok(())
}
