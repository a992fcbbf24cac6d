// Blobs of signatures and of attributes that are in no grammar (ECMA-335, II.23.2 and II.23.3), with the length of the longest
// prefix with which some blob of the kind begins.

use crate::types::{A, B, MODULE};
use sample_sets::lists;

const GENERIC_METHOD: &str = "MethodDef 0, 0, 0x16, m, 10 01 00 01, 1\nGenericParam 0, 0, 3, Y";

const OUTSIDE: &str = "TypeRef 0, O, -";

#[test]
fn a_signature_is_in_the_grammar_of_its_row(rt: HostRuntime) {
    let alloc = rt.alloc();
    assert!(rt;
        lists(
            alloc,
            &[A, "Field 0, f, 06"],
            "refused: S1 assembly 0 table 04 row 1 at 1\n"
        )
    );
    assert!(rt;
        lists(
            alloc,
            &[A, "Field 0, f, 07 08"],
            "refused: S1 assembly 0 table 04 row 1 at 0\n"
        )
    );
    assert!(rt;
        lists(
            alloc,
            &[A, "Field 0, f, 06 08 08"],
            "refused: S1 assembly 0 table 04 row 1 at 2\n"
        )
    );
    assert!(rt;
        lists(
            alloc,
            &[A, "MethodDef 0, 0, 6, m, 20 01 08, 1"],
            "refused: S1 assembly 0 table 06 row 1 at 3\n"
        )
    );
    assert!(rt;
        lists(
            alloc,
            &[A, OUTSIDE, "MemberRef 9, m, 00 01 01"],
            "refused: S1 assembly 0 table 0A row 1 at 3\n"
        )
    );
    assert!(rt;
        lists(
            alloc,
            &[A, OUTSIDE, "MemberRef 9, f, 06 1D"],
            "refused: S1 assembly 0 table 0A row 1 at 2\n"
        )
    );
    assert!(rt;
        lists(
            alloc,
            &[A, "StandAloneSig 07 01"],
            "refused: S1 assembly 0 table 11 row 1 at 2\n"
        )
    );
    assert!(rt;
        lists(
            alloc,
            &[A, "Property 0, p, 08 00"],
            "refused: S1 assembly 0 table 17 row 1 at 2\n"
        )
    );
    assert!(rt;
        lists(
            alloc,
            &[A, "TypeSpec 1D"],
            "refused: S1 assembly 0 table 1B row 1 at 1\n"
        )
    );
    assert!(rt;
        lists(
            alloc,
            &[A, GENERIC_METHOD, "MethodSpec 2, 0A 01"],
            "refused: S1 assembly 0 table 2B row 1 at 2\n"
        )
    );
}

#[test]
fn a_stand_alone_signature_of_another_kind_is_not_read(rt: HostRuntime) {
    let alloc = rt.alloc();
    assert!(rt; lists(alloc, &[A, "StandAloneSig 08"], MODULE));
    assert!(rt; lists(alloc, &[A, "StandAloneSig 00 01"], MODULE));
}

/// The constructor of the attribute of TypeRef row 1, and the attribute on `<Module>`.
const MAKES: &str = "MemberRef 9, .ctor, 20 00 01\nCustomAttribute 35, 11, 01 00 01";

const CLASS: &str = "TypeRef 0, ContractClassAttribute, System.Diagnostics.Contracts";

const CLASS_FOR: &str = "TypeRef 0, ContractClassForAttribute, System.Diagnostics.Contracts";

const ABBREVIATOR: &str = "TypeRef 0, ContractAbbreviatorAttribute, System.Diagnostics.Contracts";

const INVARIANT: &str = "TypeRef 0, ContractInvariantMethodAttribute, System.Diagnostics.Contracts";

const REFERENCE: &str =
    "TypeRef 0, ContractReferenceAssemblyAttribute, System.Diagnostics.Contracts";

#[test]
fn the_value_of_a_contract_attribute_is_in_its_grammar(rt: HostRuntime) {
    let alloc = rt.alloc();
    // A text of one byte may begin so, which isn't there; without a text two zeros follow.
    const WITHIN: &str = "refused: S2 assembly 0 table 0C row 1 at 3\n";
    const BEHIND: &str = "refused: S2 assembly 0 table 0C row 1 at 2\n";
    assert!(rt; lists(alloc, &[A, CLASS, MAKES], WITHIN));
    assert!(rt; lists(alloc, &[A, CLASS_FOR, MAKES], WITHIN));
    assert!(rt; lists(alloc, &[A, ABBREVIATOR, MAKES], BEHIND));
    assert!(rt; lists(alloc, &[A, INVARIANT, MAKES], BEHIND));
    assert!(rt; lists(alloc, &[A, REFERENCE, MAKES], BEHIND));
    assert!(rt; lists(alloc, &[A, OUTSIDE, MAKES], MODULE));
}

#[test]
fn blobs_of_the_whole_set_come_before_names(rt: HostRuntime) {
    let alloc = rt.alloc();
    const NO_TYPE: &str = "TypeRef 4, X, -";
    const NO_ITEM: &str = "TypeSpec 1D";
    const IN_SECOND: &str = "refused: S1 assembly 1 table 1B row 1 at 1\n";
    const IN_FIRST: &str = "refused: S1 assembly 0 table 1B row 1 at 1\n";
    assert!(rt; lists(alloc, &[A, NO_TYPE, B, NO_ITEM], IN_SECOND));
    assert!(rt; lists(alloc, &[A, NO_ITEM, B, NO_ITEM], IN_FIRST));
}
