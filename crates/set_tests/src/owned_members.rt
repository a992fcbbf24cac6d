// Members of a set: rows that no type owns, references to members that aren't there, and two that are the same.

use crate::types::{A, B, MODULE, NAMES_T, T, TO_B};
use sample_sets::lists;

const FIELD: &str = "Field 0, f, 06 08";

const METHOD: &str = "MethodDef 0, 0, 0x16, m, 00 00 01, 1";

#[test]
fn each_field_and_method_has_a_type(rt: HostRuntime) {
    let alloc = rt.alloc();
    const BEHIND_FIELD: &str = "assembly a, 2, 1";
    const BEHIND_METHOD: &str = "assembly a, 1, 2";
    const BEHIND_BOTH: &str = "assembly a, 2, 2";
    const NO_OWNER: &str = "refused: N2 assembly 0 table 04 row 1 at 0\n";
    const NO_OWNER_OF_METHOD: &str = "refused: N2 assembly 0 table 06 row 1 at 0\n";
    const LISTED: &str = "type 02000001 <Module>\nmethod 06000001 m\n";
    assert!(rt; lists(alloc, &[BEHIND_FIELD, FIELD], NO_OWNER));
    assert!(rt; lists(alloc, &[BEHIND_METHOD, METHOD], NO_OWNER_OF_METHOD));
    assert!(rt; lists(alloc, &[BEHIND_BOTH, FIELD, METHOD], NO_OWNER));
    assert!(rt; lists(alloc, &[A, FIELD, METHOD], LISTED));
}

/// References to a method and to a field of T of another assembly.
const CALLS: &str = "MemberRef 9, m, 00 00 01";

const LOADS: &str = "MemberRef 9, f, 06 08";

const MISSING: &str = "refused: N2 assembly 0 table 0A row 1 at 0\n";

#[test]
fn references_name_members_that_are_there(rt: HostRuntime) {
    let alloc = rt.alloc();
    const OF_NUMBER: &str = "MethodDef 0, 0, 0x16, m, 00 00 08, 1";
    const FIELD_M: &str = "Field 0, m, 06 08";
    const LONG_F: &str = "Field 0, f, 06 0A";
    const METHOD_F: &str = "MethodDef 0, 0, 0x16, f, 00 00 01, 1";
    assert!(rt; lists(alloc, &[A, TO_B, NAMES_T, CALLS, LOADS], MODULE));
    assert!(rt; lists(alloc, &[A, TO_B, NAMES_T, CALLS, B, T], MISSING));
    assert!(rt; lists(alloc, &[A, TO_B, NAMES_T, CALLS, B, T, METHOD], MODULE));
    assert!(rt; lists(alloc, &[A, TO_B, NAMES_T, CALLS, B, T, OF_NUMBER], MISSING));
    assert!(rt; lists(alloc, &[A, TO_B, NAMES_T, CALLS, B, T, FIELD_M], MISSING));
    assert!(rt; lists(alloc, &[A, TO_B, NAMES_T, LOADS, B, T, FIELD], MODULE));
    assert!(rt; lists(alloc, &[A, TO_B, NAMES_T, LOADS, B, T, LONG_F], MISSING));
    assert!(rt; lists(alloc, &[A, TO_B, NAMES_T, LOADS, B, T, METHOD_F], MISSING));
}

#[test]
fn members_are_found_in_bases(rt: HostRuntime) {
    let alloc = rt.alloc();
    // T is under U, row 3, which has the method; or under a type outside.
    const T_UNDER_U: &str = "TypeDef 0, T, -, 12, 1, 1\nTypeDef 0, U, -, 0, 1, 1";
    const OUTSIDE: &str =
        "AssemblyRef 1, 0, 0, 0, 0, -, x, -, -\nTypeRef 6, V, -\nTypeDef 0, T, -, 5, 1, 1";
    assert!(rt;
        lists(
            alloc,
            &[A, TO_B, NAMES_T, CALLS, B, T_UNDER_U, METHOD],
            MODULE
        )
    );
    assert!(rt;
        lists(
            alloc,
            &[A, TO_B, NAMES_T, LOADS, B, T_UNDER_U, FIELD],
            MODULE
        )
    );
    assert!(rt;
        lists(
            alloc,
            &[A, TO_B, NAMES_T, LOADS, B, T_UNDER_U, METHOD],
            MISSING
        )
    );
    assert!(rt; lists(alloc, &[A, TO_B, NAMES_T, CALLS, B, OUTSIDE], MISSING));
}

#[test]
fn members_of_a_generic_base_are_found_under_its_instance(rt: HostRuntime) {
    let alloc = rt.alloc();
    // T is row 2, under G of string by TypeSpec row 1; G is row 3 and has M of its own parameter.
    const OF_TEXT: &str = "MemberRef 9, M, 20 01 01 0E";
    const OF_NUMBER: &str = "MemberRef 9, M, 20 01 01 08";
    const OF_PARAMETER: &str = "MemberRef 9, M, 20 01 01 13 00";
    const HAS: &str = "TypeDef 0, T, -, 6, 1, 1
TypeDef 0, G, -, 0, 1, 1
MethodDef 0, 0, 0x06, M, 20 01 01 13 00, 1
TypeSpec 15 12 0C 01 0E
GenericParam 0, 0, 6, X";
    assert!(rt; lists(alloc, &[A, TO_B, NAMES_T, OF_TEXT, B, HAS], MODULE));
    assert!(rt; lists(alloc, &[A, TO_B, NAMES_T, OF_NUMBER, B, HAS], MISSING));
    assert!(rt; lists(alloc, &[A, TO_B, NAMES_T, OF_PARAMETER, B, HAS], MISSING));
}

#[test]
fn members_of_an_instance_are_those_of_its_definition(rt: HostRuntime) {
    let alloc = rt.alloc();
    // The parent is G of string, where G is row 2 with a field of its own parameter; or an array, whose members are outside.
    const G: &str =
        "TypeDef 0, G, -, 0, 1, 1\nField 0, f, 06 13 00\nGenericParam 0, 0, 4, X\nTypeSpec 15 12 08 01 0E";
    const OF_PARAMETER: &str = "MemberRef 12, f, 06 13 00";
    const OF_TEXT: &str = "MemberRef 12, f, 06 0E";
    const LISTED: &str = "type 02000001 <Module>\ntype 02000002 G\n";
    const ARRAY: &str = "TypeSpec 14 08 01 00 00\nMemberRef 12, Get, 20 01 08 08";
    assert!(rt; lists(alloc, &[A, G, OF_PARAMETER], LISTED));
    assert!(rt; lists(alloc, &[A, G, OF_TEXT], MISSING));
    assert!(rt; lists(alloc, &[A, ARRAY], MODULE));
}

#[test]
fn two_members_differ_by_name_or_signature(rt: HostRuntime) {
    let alloc = rt.alloc();
    const OTHER_NAME: &str = "Field 0, g, 06 08";
    const OTHER_TYPE: &str = "Field 0, f, 06 0A";
    const OTHER_PARAMETER: &str = "MethodDef 0, 0, 0x16, m, 00 01 01 08, 1";
    const FOURTH_FIELD: &str = "refused: N4 assembly 0 table 04 row 4 at 0\n";
    const THIRD_METHOD: &str = "refused: N4 assembly 0 table 06 row 3 at 0\n";
    const LISTED: &str = "type 02000001 <Module>\nmethod 06000001 m\nmethod 06000002 m\n";
    assert!(rt;
        lists(
            alloc,
            &[A, FIELD, OTHER_NAME, OTHER_TYPE, FIELD],
            FOURTH_FIELD
        )
    );
    assert!(rt; lists(alloc, &[A, METHOD, OTHER_PARAMETER, METHOD], THIRD_METHOD));
    assert!(rt;
        lists(
            alloc,
            &[A, FIELD, OTHER_NAME, OTHER_TYPE, METHOD, OTHER_PARAMETER],
            LISTED
        )
    );
}

#[test]
fn the_first_broken_row_is_named(rt: HostRuntime) {
    let alloc = rt.alloc();
    // Each assembly has a reference that leads nowhere; of one assembly the row of the lower table is named.
    const NO_TYPE: &str = "TypeRef 4, X, -";
    const NO_MEMBER: &str = "MemberRef 0, m, 00 00 01";
    const TWICE: &str =
        "MethodDef 0, 0, 0x16, m, 00 00 01, 1\nMethodDef 0, 0, 0x16, m, 00 00 01, 1";
    const FIRST_TYPE: &str = "refused: N1 assembly 0 table 01 row 1 at 0\n";
    const SECOND_METHOD: &str = "refused: N4 assembly 0 table 06 row 2 at 0\n";
    const LATER_TYPE: &str = "refused: N1 assembly 1 table 01 row 1 at 0\n";
    assert!(rt; lists(alloc, &[A, TWICE, NO_TYPE, B, NO_TYPE], FIRST_TYPE));
    assert!(rt; lists(alloc, &[A, TWICE, B, NO_TYPE], SECOND_METHOD));
    assert!(rt; lists(alloc, &[A, NO_MEMBER, B, NO_TYPE], LATER_TYPE));
}
