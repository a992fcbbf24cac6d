// Types that signatures name (ECMA-335, II.23.2.8): rows that aren't there, TypeSpec rows that lead to themselves, and depth.

use crate::types::{A, B, MODULE};
use sample_sets::lists;

/// What a coded index 36, of TypeDef row 9, stands in.
const IN_FIELD: &str = "Field 0, f, 06 12 24";

const IN_METHOD: &str = "MethodDef 0, 0, 0x16, m, 00 01 01 12 24, 1";

const IN_REFERENCE: &str = "TypeRef 0, O, -\nMemberRef 9, m, 00 00 12 24";

const IN_LOCALS: &str = "StandAloneSig 07 02 08 12 24";

const IN_PROPERTY: &str = "Property 0, p, 08 00 12 24";

const IN_SPEC: &str = "TypeSpec 1D 12 24";

const IN_ARGUMENT: &str = "MethodDef 0, 0, 0x16, m, 10 01 00 01, 1
GenericParam 0, 0, 3, Y
MethodSpec 2, 0A 01 12 24";

#[test]
fn signatures_name_rows(rt: HostRuntime) {
    let alloc = rt.alloc();
    assert!(rt;
        lists(
            alloc,
            &[A, IN_FIELD],
            "refused: N1 assembly 0 table 04 row 1 at 0\n"
        )
    );
    assert!(rt;
        lists(
            alloc,
            &[A, IN_METHOD],
            "refused: N1 assembly 0 table 06 row 1 at 0\n"
        )
    );
    assert!(rt;
        lists(
            alloc,
            &[A, IN_REFERENCE],
            "refused: N1 assembly 0 table 0A row 1 at 0\n"
        )
    );
    assert!(rt;
        lists(
            alloc,
            &[A, IN_LOCALS],
            "refused: N1 assembly 0 table 11 row 1 at 0\n"
        )
    );
    assert!(rt;
        lists(
            alloc,
            &[A, IN_PROPERTY],
            "refused: N1 assembly 0 table 17 row 1 at 0\n"
        )
    );
    assert!(rt;
        lists(
            alloc,
            &[A, IN_SPEC],
            "refused: N1 assembly 0 table 1B row 1 at 0\n"
        )
    );
    assert!(rt;
        lists(
            alloc,
            &[A, IN_ARGUMENT],
            "refused: N1 assembly 0 table 2B row 1 at 0\n"
        )
    );
    assert!(rt;
        lists(
            alloc,
            &[A, B, IN_SPEC],
            "refused: N1 assembly 1 table 1B row 1 at 0\n"
        )
    );
}

#[test]
fn type_specs_lead_into_no_circle(rt: HostRuntime) {
    let alloc = rt.alloc();
    const REFUSED: &str = "refused: N1 assembly 0 table 1B row 1 at 0\n";
    assert!(rt; lists(alloc, &[A, "TypeSpec 1D 12 06"], REFUSED));
    assert!(rt; lists(alloc, &[A, "TypeSpec 1D 12 0A\nTypeSpec 1D 12 06"], REFUSED));
    assert!(rt; lists(alloc, &[A, "TypeSpec 1D 12 0A\nTypeSpec 1D 08"], MODULE));
}

#[test]
fn types_nest_a_thousand_deep_over_type_specs(rt: HostRuntime) {
    let alloc = rt.alloc();
    // The first is int32 in 600 arrays, 601 levels; a TypeSpec row stands for what it holds, one level deeper.
    const FIRST: &str = "TypeSpec 1D*600 08";
    const DEEP: &str = "TypeSpec 1D*398 12 06";
    const TOO_DEEP: &str = "TypeSpec 1D*399 12 06";
    const REFUSED: &str = "refused: N1 assembly 0 table 1B row 2 at 0\n";
    assert!(rt; lists(alloc, &[A, FIRST, DEEP], MODULE));
    assert!(rt; lists(alloc, &[A, FIRST, TOO_DEEP], REFUSED));
}
