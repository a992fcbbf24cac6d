// The names of assemblies (ECMA-335, II.22.2).
ghost use Rattle.std.specs.Prelude.{◌≡◌, ◌<◌, length};
ghost use Rattle.cil_base.specs.Refusals.{first_of};
ghost use Rattle.set_program.specs.TypeRules.{assembly_is_taken};
ghost use Rattle.set_rules.specs.TableTests.{table_tests};

use cil_base::tables::ASSEMBLY;
use cil_base::{Place, Refusal, Rule};
use set_program::Part;

/// Whether an assembly before has the name of this one.
fn is_taken(set: &[Part<'_>], a: u32) -> bool
    requires { a < length set.now }
    ensures { result ≡ assembly_is_taken set.now a }
{
    let name = set[a as usize].text(ASSEMBLY, 1, 7);
    for b in 0..a {
        if set[b as usize].text(ASSEMBLY, 1, 7) == name {
            return true;
        }
    }
    false
}

/// The first refusal at an Assembly row.
pub fn assembly_fault(set: &[Part<'_>], a: u32) -> Option<Refusal>
    requires { a < length set.now }
    ensures { result ≡ first_of (table_tests set.now a ASSEMBLY) }
{
    if set[a as usize].count(ASSEMBLY) == 0 {
        return None;
    }
    if is_taken(set, a) {
        let place = Place {
            assembly: a,
            table: ASSEMBLY,
            row: 1,
        };
        return Some(place.refusal(Rule::N4, 0));
    }
    None
}
