// Look-ups over the program of a set: the sources of methods, the bodies of virtual calls, subtypes.

use crate::types::{A, B, TO_B};
use cil_base::Fault;
use sample_sets::{body_is, is_sub, is_visible_method, sources_are};

/// The class B is type 1 and its M method 0; the interfaces I and J are types 2 and 3 with an M each, methods 1 and 2; the class D,
/// under B, is type 4 and begins with method 3.
const TYPES: &str = "TypeDef 1, B, -, 0, 1, 1
TypeDef 0xA1, I, -, 0, 1, 2
TypeDef 0xA1, J, -, 0, 1, 3
TypeDef 1, D, -, 8, 1, 4
MethodDef :06 2A, 0, 0x146, M, 20 00 01, 1
MethodDef 0, 0, 0x5C6, M, 20 00 01, 1
MethodDef 0, 0, 0x5C6, M, 20 00 01, 1";

/// D names I, then J; or the other way round.
const I_THEN_J: &str = "InterfaceImpl 5, 12\nInterfaceImpl 5, 16";

const J_THEN_I: &str = "InterfaceImpl 5, 16\nInterfaceImpl 5, 12";

/// Methods of D: one that overrides by its name, one with a slot of its own, one of another name.
const M: &str = "MethodDef :06 2A, 0, 0x46, M, 20 00 01, 1";

const NEW_M: &str = "MethodDef :06 2A, 0, 0x146, M, 20 00 01, 1";

const N: &str = "MethodDef :06 2A, 0, 0x141, N, 20 00 01, 1";

/// Rows of D that name method 3 for M of B, of I and of J.
const FOR_B: &str = "MethodImpl 5, 8, 2";

const FOR_I: &str = "MethodImpl 5, 8, 4";

const FOR_J: &str = "MethodImpl 5, 8, 6";

#[test]
fn sources_stand_in_order(rt: HostRuntime) -> Result<(), Fault> {
    let alloc = rt.alloc();
    assert!(rt; sources_are(alloc, &[A, TYPES, M, I_THEN_J], 3, &[0, 1, 2, 3])?);
    assert!(rt; sources_are(alloc, &[A, TYPES, M, J_THEN_I], 3, &[0, 2, 1, 3])?);
    assert!(rt; sources_are(alloc, &[A, TYPES, M], 3, &[0, 3])?);
    assert!(rt; sources_are(alloc, &[A, TYPES, NEW_M, I_THEN_J], 3, &[1, 2, 3])?);
    assert!(rt; sources_are(alloc, &[A, TYPES, N, I_THEN_J], 3, &[3])?);
    assert!(rt; sources_are(alloc, &[A, TYPES, M, I_THEN_J], 0, &[0])?);
    Ok(())
}

#[test]
fn rows_name_sources(rt: HostRuntime) -> Result<(), Fault> {
    let alloc = rt.alloc();
    assert!(rt; sources_are(alloc, &[A, TYPES, N, FOR_B], 3, &[0, 3])?);
    assert!(rt; sources_are(alloc, &[A, TYPES, N, FOR_J, FOR_B, I_THEN_J], 3, &[0, 2, 3])?);
    assert!(rt; sources_are(alloc, &[A, TYPES, N, FOR_J, FOR_I, I_THEN_J], 3, &[1, 2, 3])?);
    // A row for an interface that the type doesn't name itself gives no source.
    assert!(rt; sources_are(alloc, &[A, TYPES, N, FOR_J], 3, &[3])?);
    // A row that names a field of D gives none.
    const OF_FIELD: &str = "Field 6, f, 06 08\nMemberRef 40, f, 06 08\nMethodImpl 5, 8, 3";
    assert!(rt; sources_are(alloc, &[A, TYPES, N, OF_FIELD], 3, &[3])?);
    // By rows first, then by name; each once.
    const K: &str = "MethodDef :06 2A, 0, 0x146, K, 20 00 01, 1";
    const OF_B: &str = "TypeDef 1, B, -, 0, 1, 1\nTypeDef 1, D, -, 8, 1, 3";
    const K_OF_D: &str = "MethodDef :06 2A, 0, 0x46, K, 20 00 01, 1";
    const FOR_K: &str = "MethodImpl 3, 6, 4\nMethodImpl 3, 6, 2";
    assert!(rt; sources_are(alloc, &[A, OF_B, NEW_M, K, K_OF_D], 2, &[1, 2])?);
    assert!(rt;
        sources_are(
            alloc,
            &[A, OF_B, NEW_M, K, K_OF_D, "MethodImpl 3, 6, 2"],
            2,
            &[0, 1, 2]
        )?
    );
    assert!(rt; sources_are(alloc, &[A, OF_B, NEW_M, K, K_OF_D, FOR_K], 2, &[1, 0, 2])?);
    Ok(())
}

/// E is type 5, under D, with method 4.
const TYPES_OF_E: &str = "TypeDef 1, B, -, 0, 1, 1
TypeDef 0xA1, I, -, 0, 1, 2
TypeDef 0xA1, J, -, 0, 1, 3
TypeDef 1, D, -, 8, 1, 4
TypeDef 1, E, -, 20, 1, 5
MethodDef :06 2A, 0, 0x146, M, 20 00 01, 1
MethodDef 0, 0, 0x5C6, M, 20 00 01, 1
MethodDef 0, 0, 0x5C6, M, 20 00 01, 1";

const E_NAMES_I: &str = "InterfaceImpl 6, 12";

#[test]
fn each_source_stands_once_at_its_first_place(rt: HostRuntime) -> Result<(), Fault> {
    let alloc = rt.alloc();
    assert!(rt; sources_are(alloc, &[A, TYPES_OF_E, M, M], 4, &[0, 3, 4])?);
    assert!(rt; sources_are(alloc, &[A, TYPES_OF_E, M, M, J_THEN_I], 4, &[0, 2, 1, 3, 4])?);
    assert!(rt;
        sources_are(
            alloc,
            &[A, TYPES_OF_E, M, M, J_THEN_I, E_NAMES_I],
            4,
            &[0, 2, 1, 3, 4]
        )?
    );
    assert!(rt;
        sources_are(
            alloc,
            &[A, TYPES_OF_E, NEW_M, M, J_THEN_I, E_NAMES_I],
            4,
            &[2, 1, 3, 4]
        )?
    );
    assert!(rt;
        sources_are(
            alloc,
            &[A, TYPES_OF_E, M, NEW_M, J_THEN_I, E_NAMES_I],
            4,
            &[1, 4]
        )?
    );
    Ok(())
}

#[test]
fn sources_go_over_assemblies_and_instances(rt: HostRuntime) -> Result<(), Fault> {
    let alloc = rt.alloc();
    // The types and methods of the first assembly come last: G's method is 0 and has a parameter of G's, D's is 1.
    const D: &str = "TypeRef 6, G, -\nTypeSpec 15 12 05 01 0E\nTypeDef 1, D, -, 6, 1, 1";
    const G: &str = "TypeDef 1, G, -, 0, 1, 1\nGenericParam 0, 0, 4, X";
    const OF_PARAMETER: &str = "MethodDef :06 2A, 0, 0x146, M, 20 01 01 13 00, 1";
    const OF_TEXT: &str = "MethodDef :06 2A, 0, 0x46, M, 20 01 01 0E, 1";
    const OF_NUMBER: &str = "MethodDef :06 2A, 0, 0x46, M, 20 01 01 08, 1";
    assert!(rt;
        sources_are(
            alloc,
            &[A, TO_B, D, OF_TEXT, B, G, OF_PARAMETER],
            1,
            &[0, 1]
        )?
    );
    assert!(rt; sources_are(alloc, &[A, TO_B, D, OF_NUMBER, B, G, OF_PARAMETER], 1, &[1])?);
    Ok(())
}

#[test]
fn a_virtual_call_runs_the_nearest_override(rt: HostRuntime) -> Result<(), Fault> {
    let alloc = rt.alloc();
    const OF_B: (u32, u32) = (1, 0);
    const OF_I: (u32, u32) = (2, 1);
    assert!(rt; body_is(alloc, &[A, TYPES_OF_E, M, M], 5, OF_B, Some(4))?);
    assert!(rt; body_is(alloc, &[A, TYPES_OF_E, M, M], 4, OF_B, Some(3))?);
    assert!(rt; body_is(alloc, &[A, TYPES_OF_E, M, M], 1, OF_B, Some(0))?);
    assert!(rt; body_is(alloc, &[A, TYPES_OF_E, M, NEW_M], 5, OF_B, Some(3))?);
    assert!(rt; body_is(alloc, &[A, TYPES_OF_E, M, NEW_M], 5, (5, 4), Some(4))?);
    assert!(rt; body_is(alloc, &[A, TYPES_OF_E, M, M, I_THEN_J], 5, OF_I, Some(4))?);
    assert!(rt;
        body_is(
            alloc,
            &[A, TYPES_OF_E, M, NEW_M, I_THEN_J],
            5,
            OF_I,
            Some(3)
        )?
    );
    assert!(rt;
        body_is(
            alloc,
            &[A, TYPES_OF_E, M, NEW_M, I_THEN_J, E_NAMES_I],
            5,
            OF_I,
            Some(4)
        )?
    );
    assert!(rt; body_is(alloc, &[A, TYPES_OF_E, M, M], 5, OF_I, None)?);
    Ok(())
}

#[test]
fn a_virtual_call_runs_what_a_row_names(rt: HostRuntime) -> Result<(), Fault> {
    let alloc = rt.alloc();
    const OF_B: (u32, u32) = (1, 0);
    const OF_I: (u32, u32) = (2, 1);
    assert!(rt; body_is(alloc, &[A, TYPES, N], 4, OF_B, Some(0))?);
    assert!(rt; body_is(alloc, &[A, TYPES, N, FOR_B], 4, OF_B, Some(3))?);
    assert!(rt; body_is(alloc, &[A, TYPES, N, FOR_I, I_THEN_J], 4, OF_I, Some(3))?);
    assert!(rt; body_is(alloc, &[A, TYPES, N, I_THEN_J], 4, OF_I, Some(0))?);
    // The row names a method of the base, by its row or by a reference.
    const BASE: &str = "TypeDef 1, B, -, 0, 1, 1
TypeDef 0xA1, I, -, 0, 1, 2
TypeDef 1, D, -, 8, 1, 3
MethodDef :06 2A, 0, 0x146, K, 20 00 01, 1
MethodDef 0, 0, 0x5C6, M, 20 00 01, 1
InterfaceImpl 4, 12";
    const NAMES_K: &str = "MethodImpl 4, 2, 4";
    const REFERS_TO_K: &str = "MemberRef 16, K, 20 00 01\nMethodImpl 4, 3, 4";
    assert!(rt; body_is(alloc, &[A, BASE], 3, OF_I, None)?);
    assert!(rt; body_is(alloc, &[A, BASE, NAMES_K], 3, OF_I, Some(0))?);
    assert!(rt; body_is(alloc, &[A, BASE, REFERS_TO_K], 3, OF_I, Some(0))?);
    assert!(rt; sources_are(alloc, &[A, BASE, NAMES_K], 0, &[0])?);
    Ok(())
}

#[test]
fn subs_go_by_bases_and_interfaces(rt: HostRuntime) -> Result<(), Fault> {
    let alloc = rt.alloc();
    const I_IS_J: &str = "InterfaceImpl 3, 16";
    assert!(rt; is_sub(alloc, &[A, TYPES_OF_E, M, M], 5, 1)?);
    assert!(rt; !is_sub(alloc, &[A, TYPES_OF_E, M, M], 1, 5)?);
    assert!(rt; is_sub(alloc, &[A, TYPES_OF_E, M, M], 5, 5)?);
    assert!(rt; !is_sub(alloc, &[A, TYPES_OF_E, M, M], 5, 2)?);
    assert!(rt; is_sub(alloc, &[A, TYPES_OF_E, M, M, I_THEN_J], 5, 3)?);
    assert!(rt; is_sub(alloc, &[A, TYPES_OF_E, M, M, E_NAMES_I, I_IS_J], 5, 3)?);
    assert!(rt; !is_sub(alloc, &[A, TYPES_OF_E, M, M, E_NAMES_I, I_IS_J], 4, 3)?);
    Ok(())
}

#[test]
fn a_method_is_visible_by_its_flags_and_the_types_around_it(rt: HostRuntime) -> Result<(), Fault> {
    let alloc = rt.alloc();
    const PUBLIC: &str = "TypeDef 1, T, -, 0, 1, 1";
    const INTERNAL: &str = "TypeDef 0, T, -, 0, 1, 1";
    const NESTED: &str = "TypeDef 2, U, -, 0, 1, 1\nNestedClass 3, 2";
    const PRIVATE: &str = "TypeDef 3, U, -, 0, 1, 1\nNestedClass 3, 2";
    const METHOD: &str = "MethodDef 0, 0, 0x16, m, 00 00 01, 1";
    const FAMILY: &str = "MethodDef 0, 0, 0x14, m, 00 00 01, 1";
    const ASSEMBLY: &str = "MethodDef 0, 0, 0x13, m, 00 00 01, 1";
    assert!(rt; is_visible_method(alloc, &[A, PUBLIC, METHOD], 0)?);
    assert!(rt; is_visible_method(alloc, &[A, PUBLIC, FAMILY], 0)?);
    assert!(rt; !is_visible_method(alloc, &[A, PUBLIC, ASSEMBLY], 0)?);
    assert!(rt; !is_visible_method(alloc, &[A, INTERNAL, METHOD], 0)?);
    assert!(rt; is_visible_method(alloc, &[A, PUBLIC, NESTED, METHOD], 0)?);
    assert!(rt; !is_visible_method(alloc, &[A, INTERNAL, NESTED, METHOD], 0)?);
    assert!(rt; !is_visible_method(alloc, &[A, PUBLIC, PRIVATE, METHOD], 0)?);
    Ok(())
}
