// The fewest parameters where a TypeSpec row stands (ECMA-335, II.9.2, II.22.20).
ghost use Rattle.std.specs.Prelude.{◌≡◌, ◌<◌, ◌≤◌, false, [], length, get_or, map};
ghost use Rattle.cil_base.specs.declared.tables.TheConstants.{TYPE_SPEC};
ghost use Rattle.set_rows.specs.Sets.{assembly_at, count_in};
ghost use Rattle.member_table.specs.MemberRules.{contexts, owner_parameters, parameters_around};
ghost use Rattle.member_rules.specs.Parameters.{AreSetGenerics};
ghost use Rattle.spec_tests.specs.SpecTests.{AreUses, IsNarrowest, context_at, shared};

use crate::uses::SpecUses;
use cil_base::U32s;
use cil_base::tables::{
    GENERIC_PARAM, GENERIC_PARAM_CONSTRAINT, INTERFACE_IMPL, METHOD_IMPL, TYPE_DEF,
};
use member_rules::generics;
use set_tables::SetTables;

/// The parameters that two contexts have both.
fn shared(first: Option<(u32, u32)>, second: Option<(u32, u32)>) -> Option<(u32, u32)>
    ensures { result ≡ shared first second }
{
    match first {
        None => second,
        Some((n, m)) => {
            match second {
                None => Some((n, m)),
                Some((p, q)) => Some((n.min(p), m.min(q))),
            }
        }
    }
}

/// How many parameters the type around a MethodDef row has.
fn parameters_around(tables: &SetTables<'_>, counts: &[U32s], a: u32, row: u32) -> u32
    requires there { a < length tables.now }
    requires counts { AreSetGenerics tables.now counts.now }
    ensures { result ≡ parameters_around (assembly_at tables.now a) false row }
{
    match tables.owner(a as usize, false, row) {
        None => 0,
        Some(owner) => generics(tables.set(), counts, a, owner as u64 * 2),
    }
}

/// How many parameters the type and the method have whose TypeOrMethodDef index this is.
fn owner_parameters(tables: &SetTables<'_>, counts: &[U32s], a: u32, owner: u32) -> (u32, u32)
    requires there { a < length tables.now }
    requires counts { AreSetGenerics tables.now counts.now }
    ensures { result ≡ owner_parameters (assembly_at tables.now a) owner }
{
    let own = generics(tables.set(), counts, a, owner as u64);
    if owner % 2 == 0 {
        return (own, 0);
    }
    (parameters_around(tables, counts, a, owner / 2), own)
}

/// How many parameters the type of a row has that names a type, and its method; for a row of
/// TypeDef, InterfaceImpl, MethodImpl or GenericParamConstraint.
fn context_at(tables: &SetTables<'_>, counts: &[U32s], a: u32, table: u8, row: u32) -> (u32, u32)
    requires there { a < length tables.now }
    requires counts { AreSetGenerics tables.now counts.now }
    ensures { result ≡ context_at (assembly_at tables.now a) table row }
{
    let set = tables.set();
    let rows = set[a as usize].rows();
    match table {
        TYPE_DEF => (generics(set, counts, a, row as u64 * 2), 0),
        INTERFACE_IMPL => {
            let class = rows.cell(INTERFACE_IMPL, row, 0);
            (generics(set, counts, a, class as u64 * 2), 0)
        }
        METHOD_IMPL => {
            let class = rows.cell(METHOD_IMPL, row, 0);
            (generics(set, counts, a, class as u64 * 2), 0)
        }
        _ => {
            let parameter = rows.cell(GENERIC_PARAM_CONSTRAINT, row, 0);
            let owner = rows.cell(GENERIC_PARAM, parameter, 2);
            owner_parameters(tables, counts, a, owner)
        }
    }
}

/// The parameters that all of some rows have.
fn narrowest(
    tables: &SetTables<'_>,
    counts: &[U32s],
    a: u32,
    table: u8,
    rows: &[u32],
) -> Option<(u32, u32)>
    requires there { a < length tables.now }
    requires counts { AreSetGenerics tables.now counts.now }
    ensures { IsNarrowest (map (context_at (assembly_at tables.now a) table) rows.now) result }
{
    let mut found = None;
    for row in rows {
        let context = context_at(tables, counts, a, table, *row);
        found = shared(found, Some(context));
    }
    found
}

fn list_at(lists: &[U32s], n: usize) -> &[u32]
    ensures { result.now ≡ get_or lists.now n [] }
{
    match lists.get(n) {
        Some(list) => list.as_slice(),
        None => &[],
    }
}

/// The parameters that all places have where a TypeSpec row stands; None where it stands in none.
pub fn spec_context(
    tables: &SetTables<'_>,
    counts: &[U32s],
    a: u32,
    uses: &SpecUses,
    row: u32,
) -> Option<(u32, u32)>
    requires there { a < length tables.now }
    requires counts { AreSetGenerics tables.now counts.now }
    requires uses { AreUses (assembly_at tables.now a) uses.now.types.items uses.now.interfaces.items uses.now.constraints.items uses.now.firsts.items uses.now.seconds.items }
    requires some { 1 ≤ row }
    requires row { row ≤ count_in (assembly_at tables.now a) TYPE_SPEC }
    ensures { IsNarrowest (contexts (assembly_at tables.now a) row) result }
{
    let spec = row as usize;
    let coded = spec * 4 + 2;
    let types = narrowest(
        tables,
        counts,
        a,
        TYPE_DEF,
        list_at(uses.types.as_slice(), coded),
    );
    let interfaces = list_at(uses.interfaces.as_slice(), coded);
    let interfaces = narrowest(tables, counts, a, INTERFACE_IMPL, interfaces);
    let firsts = narrowest(
        tables,
        counts,
        a,
        METHOD_IMPL,
        list_at(uses.firsts.as_slice(), spec),
    );
    let seconds = list_at(uses.seconds.as_slice(), spec);
    let seconds = narrowest(tables, counts, a, METHOD_IMPL, seconds);
    let constraints = list_at(uses.constraints.as_slice(), coded);
    let constraints = narrowest(tables, counts, a, GENERIC_PARAM_CONSTRAINT, constraints);
    shared(
        types,
        shared(interfaces, shared(shared(firsts, seconds), constraints)),
    )
}
