// Numbers of type arguments, and type parameters that stand where there are none (ECMA-335, II.9.2).

use crate::types::{A, B, MODULE, NAMES_T, T, TO_B};
use sample_sets::lists;

/// G, row 2, which coded indexes name as 8, has one type parameter.
const G: &str = "TypeDef 0, G, -, 0, 1, 1\nGenericParam 0, 0, 4, X";

/// A method of `<Module>` or of G with one type parameter.
const GENERIC_METHOD: &str = "MethodDef 0, 0, 0x16, m, 10 01 00 01, 1\nGenericParam 0, 0, 3, Y";

const G_LISTED: &str = "type 02000001 <Module>\ntype 02000002 G\n";

const M_LISTED: &str = "type 02000001 <Module>\ntype 02000002 G\nmethod 06000001 m\n";

#[test]
fn an_instance_has_as_many_arguments_as_its_type_has_parameters(rt: HostRuntime) {
    let alloc = rt.alloc();
    const OF_ONE: &str = "TypeSpec 15 12 08 01 0E";
    const OF_TWO: &str = "TypeSpec 15 12 08 02 0E 0E";
    const WITHOUT: &str = "TypeDef 0, G, -, 0, 1, 1";
    const REFUSED: &str = "refused: N6 assembly 0 table 1B row 1 at 0\n";
    assert!(rt; lists(alloc, &[A, G, OF_ONE], G_LISTED));
    assert!(rt; lists(alloc, &[A, G, OF_TWO], REFUSED));
    assert!(rt; lists(alloc, &[A, WITHOUT, OF_ONE], REFUSED));
}

#[test]
fn instances_are_counted_in_each_kind_of_signature(rt: HostRuntime) {
    let alloc = rt.alloc();
    const FIELD: &str = "Field 0, f, 06 15 12 08 02 0E 0E";
    const RESULT: &str = "MethodDef 0, 0, 0x16, m, 00 00 15 12 08 02 0E 0E, 1";
    const INNER: &str = "MethodDef 0, 0, 0x16, m, 00 01 01 1D 15 12 08 01 15 12 08 02 0E 0E, 1";
    const REFERENCE: &str = "TypeRef 0, O, -\nMemberRef 9, f, 06 15 12 08 02 0E 0E";
    const LOCALS: &str = "StandAloneSig 07 01 15 12 08 02 0E 0E";
    const PROPERTY: &str = "Property 0, p, 08 00 15 12 08 02 0E 0E";
    const ARGUMENTS: &str = "MethodSpec 2, 0A 01 15 12 08 02 0E 0E";
    assert!(rt;
        lists(
            alloc,
            &[A, G, FIELD],
            "refused: N6 assembly 0 table 04 row 1 at 0\n"
        )
    );
    assert!(rt;
        lists(
            alloc,
            &[A, G, RESULT],
            "refused: N6 assembly 0 table 06 row 1 at 0\n"
        )
    );
    assert!(rt;
        lists(
            alloc,
            &[A, G, INNER],
            "refused: N6 assembly 0 table 06 row 1 at 0\n"
        )
    );
    assert!(rt;
        lists(
            alloc,
            &[A, G, REFERENCE],
            "refused: N6 assembly 0 table 0A row 1 at 0\n"
        )
    );
    assert!(rt;
        lists(
            alloc,
            &[A, G, LOCALS],
            "refused: N6 assembly 0 table 11 row 1 at 0\n"
        )
    );
    assert!(rt;
        lists(
            alloc,
            &[A, G, PROPERTY],
            "refused: N6 assembly 0 table 17 row 1 at 0\n"
        )
    );
    assert!(rt;
        lists(
            alloc,
            &[A, G, GENERIC_METHOD, ARGUMENTS],
            "refused: N6 assembly 0 table 2B row 1 at 0\n"
        )
    );
}

#[test]
fn an_instance_of_a_type_elsewhere_is_counted_where_it_is_in_the_set(rt: HostRuntime) {
    let alloc = rt.alloc();
    const OF_TWO: &str = "TypeSpec 15 12 05 02 0E 0E";
    const OF_ONE: &str = "TypeSpec 15 12 05 01 0E";
    const PARAMETER: &str = "GenericParam 0, 0, 4, X";
    const REFUSED: &str = "refused: N6 assembly 0 table 1B row 1 at 0\n";
    assert!(rt; lists(alloc, &[A, TO_B, NAMES_T, OF_TWO], MODULE));
    assert!(rt; lists(alloc, &[A, TO_B, NAMES_T, OF_TWO, B, T, PARAMETER], REFUSED));
    assert!(rt; lists(alloc, &[A, TO_B, NAMES_T, OF_ONE, B, T, PARAMETER], MODULE));
}

#[test]
fn an_instance_of_a_method_has_as_many_arguments_as_it_has_parameters(rt: HostRuntime) {
    let alloc = rt.alloc();
    const OF_ONE: &str = "MethodSpec 2, 0A 01 0E";
    const OF_TWO: &str = "MethodSpec 2, 0A 02 0E 0E";
    const WITHOUT: &str = "MethodDef 0, 0, 0x16, m, 00 00 01, 1";
    const REFUSED: &str = "refused: N6 assembly 0 table 2B row 1 at 0\n";
    // m of T of another assembly, by a MemberRef row.
    const ELSEWHERE: &str = "MemberRef 9, m, 10 01 00 01";
    const OF_TWO_ELSEWHERE: &str = "MethodSpec 3, 0A 02 0E 0E";
    const OF_ONE_ELSEWHERE: &str = "MethodSpec 3, 0A 01 0E";
    assert!(rt; lists(alloc, &[A, G, GENERIC_METHOD, OF_ONE], M_LISTED));
    assert!(rt; lists(alloc, &[A, G, GENERIC_METHOD, OF_TWO], REFUSED));
    assert!(rt; lists(alloc, &[A, G, WITHOUT, OF_ONE], REFUSED));
    assert!(rt;
        lists(
            alloc,
            &[A, TO_B, NAMES_T, ELSEWHERE, OF_TWO_ELSEWHERE],
            MODULE
        )
    );
    assert!(rt;
        lists(
            alloc,
            &[
                A,
                TO_B,
                NAMES_T,
                ELSEWHERE,
                OF_TWO_ELSEWHERE,
                B,
                T,
                GENERIC_METHOD
            ],
            REFUSED
        )
    );
    assert!(rt;
        lists(
            alloc,
            &[
                A,
                TO_B,
                NAMES_T,
                ELSEWHERE,
                OF_ONE_ELSEWHERE,
                B,
                T,
                GENERIC_METHOD
            ],
            MODULE
        )
    );
}

#[test]
fn parameters_of_a_type_stand_in_its_members(rt: HostRuntime) {
    let alloc = rt.alloc();
    const FIELD: &str = "Field 0, f, 06 13 00";
    const METHOD: &str = "MethodDef 0, 0, 0x16, m, 00 01 01 13 00, 1";
    const PROPERTY: &str = "PropertyMap 2, 1\nProperty 0, p, 08 00 13 00";
    const SECOND: &str = "PropertyMap 2, 1\nProperty 0, p, 08 00 13 01";
    const WITHOUT: &str = "TypeDef 0, G, -, 0, 1, 1";
    const IN_FIELD: &str = "refused: N6 assembly 0 table 04 row 1 at 0\n";
    const IN_METHOD: &str = "refused: N6 assembly 0 table 06 row 1 at 0\n";
    const IN_PROPERTY: &str = "refused: N6 assembly 0 table 17 row 1 at 0\n";
    assert!(rt; lists(alloc, &[A, WITHOUT, FIELD], IN_FIELD));
    assert!(rt; lists(alloc, &[A, G, FIELD], G_LISTED));
    assert!(rt; lists(alloc, &[A, WITHOUT, METHOD], IN_METHOD));
    assert!(rt; lists(alloc, &[A, G, METHOD], M_LISTED));
    assert!(rt; lists(alloc, &[A, WITHOUT, PROPERTY], IN_PROPERTY));
    assert!(rt; lists(alloc, &[A, G, SECOND], IN_PROPERTY));
    assert!(rt; lists(alloc, &[A, G, PROPERTY], G_LISTED));
}

#[test]
fn parameters_of_a_method_stand_in_its_signature(rt: HostRuntime) {
    let alloc = rt.alloc();
    const WITHOUT: &str = "MethodDef 0, 0, 0x16, m, 00 01 01 1E 00, 1";
    const FIRST: &str = "MethodDef 0, 0, 0x16, m, 10 01 01 01 1E 00, 1\nGenericParam 0, 0, 3, Y";
    const SECOND: &str = "MethodDef 0, 0, 0x16, m, 10 01 01 01 1E 01, 1\nGenericParam 0, 0, 3, Y";
    const REFUSED: &str = "refused: N6 assembly 0 table 06 row 1 at 0\n";
    assert!(rt; lists(alloc, &[A, G, WITHOUT], REFUSED));
    assert!(rt; lists(alloc, &[A, G, FIRST], M_LISTED));
    assert!(rt; lists(alloc, &[A, G, SECOND], REFUSED));
}

#[test]
fn parameters_in_references_are_of_their_own_members(rt: HostRuntime) {
    let alloc = rt.alloc();
    // VAR and MVAR in a reference to an outside member, and in a TypeSpec row that no type names.
    const REFERENCE: &str = "TypeRef 0, O, -\nMemberRef 9, m, 00 01 13 05 1E 07";
    const UNNAMED: &str = "TypeSpec 13 05";
    assert!(rt; lists(alloc, &[A, REFERENCE], MODULE));
    assert!(rt; lists(alloc, &[A, UNNAMED], MODULE));
}

/// T, row 2, in the set with the TypeSpec row of G of T's own first parameter; G is row 3, which coded indexes name as 12.
const UNDER_SPEC: &str = "TypeDef 0, T, -, 6, 1, 1";

const G_OF_OWN: &str = "TypeDef 0, G, -, 0, 1, 1\nTypeSpec 15 12 0C 01 13 00";

const T_HAS: &str = "GenericParam 0, 0, 4, X";

const G_HAS: &str = "GenericParam 0, 0, 6, Y";

const SPEC_REFUSED: &str = "refused: N6 assembly 0 table 1B row 1 at 0\n";

const BOTH: &str = "type 02000001 <Module>\ntype 02000002 T\ntype 02000003 G\n";

#[test]
fn parameters_stand_in_the_base_and_the_interfaces_of_a_type(rt: HostRuntime) {
    let alloc = rt.alloc();
    const IMPLEMENTS: &str = "InterfaceImpl 2, 6";
    assert!(rt; lists(alloc, &[A, UNDER_SPEC, G_OF_OWN, G_HAS], SPEC_REFUSED));
    assert!(rt; lists(alloc, &[A, UNDER_SPEC, G_OF_OWN, T_HAS, G_HAS], BOTH));
    assert!(rt; lists(alloc, &[A, T, G_OF_OWN, IMPLEMENTS, G_HAS], SPEC_REFUSED));
    assert!(rt; lists(alloc, &[A, T, G_OF_OWN, IMPLEMENTS, T_HAS, G_HAS], BOTH));
    assert!(rt; lists(alloc, &[A, T, G_OF_OWN, G_HAS], BOTH));
}

#[test]
fn parameters_stand_in_constraints(rt: HostRuntime) {
    let alloc = rt.alloc();
    // The constrained parameter is G's, which is there; that of a method of T, which has none; that of a method of G.
    const OF_G: &str = "GenericParamConstraint 1, 6";
    const METHOD: &str = "MethodDef 0, 0, 0x16, m, 10 01 00 01, 1\nGenericParam 0, 0, 3, Z";
    const OF_METHOD: &str = "GenericParamConstraint 1, 6";
    const T_HAS_METHODS: &str = "TypeDef 0, T, -, 0, 1, 1";
    const G_HAS_NONE: &str = "TypeDef 0, G, -, 0, 1, 2\nTypeSpec 15 12 0C 01 13 00";
    const WITH_METHOD: &str =
        "type 02000001 <Module>\ntype 02000002 T\ntype 02000003 G\nmethod 06000001 m\n";
    assert!(rt; lists(alloc, &[A, T, G_OF_OWN, G_HAS, OF_G], BOTH));
    assert!(rt;
        lists(
            alloc,
            &[A, T_HAS_METHODS, G_HAS_NONE, METHOD, G_HAS, OF_METHOD],
            SPEC_REFUSED
        )
    );
    assert!(rt;
        lists(
            alloc,
            &[A, T, G_OF_OWN, METHOD, G_HAS, OF_METHOD],
            WITH_METHOD
        )
    );
}

#[test]
fn parameters_stand_in_the_types_of_overridden_members(rt: HostRuntime) {
    let alloc = rt.alloc();
    // The method of T, row 1, overrides that of G of T's first parameter.
    const METHODS: &str =
        "MethodDef 0, 0, 0x46, m, 20 00 01, 1\nMethodDef 0, 0, 0x46, m, 20 00 01, 1";
    const G: &str = "TypeDef 0, G, -, 0, 1, 2\nTypeSpec 15 12 0C 01 13 00";
    const OVERRIDES: &str = "MemberRef 12, m, 20 00 01\nMethodImpl 2, 2, 3";
    const LISTED: &str =
        "type 02000001 <Module>\ntype 02000002 T\nmethod 06000001 m\ntype 02000003 G\nmethod 06000002 m\n";
    assert!(rt; lists(alloc, &[A, T, G, METHODS, G_HAS, OVERRIDES], SPEC_REFUSED));
    assert!(rt; lists(alloc, &[A, T, G, METHODS, T_HAS, G_HAS, OVERRIDES], LISTED));
}
