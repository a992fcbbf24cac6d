// Bodies that break a rule on code (ECMA-335, II.25.4 and III), method by method.

use crate::types::A;
use sample_sets::lists;

const LISTED: &str = "type 02000001 <Module>\nmethod 06000001 m\nmethod 06000002 n\n";

/// `ret`, of the first method and of the second.
const M_RETURNS: &str = "MethodDef :06 2A, 0, 0x16, m, 00 00 01, 1";

const N_RETURNS: &str = "MethodDef :06 2A, 0, 0x16, n, 00 00 01, 1";

/// An instruction whose operand is cut.
const N_IS_CUT: &str = "MethodDef :06 20, 0, 0x16, n, 00 00 01, 1";

/// `leave` to the `ret` behind the handler, `endfinally`, `ret`: a try of two bytes and a finally.
const LEAVES: &str =
    "MethodDef :1B 30 08 00 04 00 00 00 00 00 00 00 DE 01 DC 2A 01 10 00 00 02 00 00 00 02 02 00 01 00 00 00 00, 0, 0x16, m, 00 00 01, 1";

/// `ret`, `endfinally`, `ret`: a try of the first byte and a finally.
const RETURNS_WITHIN: &str =
    "MethodDef :1B 30 08 00 03 00 00 00 00 00 00 00 2A DC 2A 00 01 10 00 00 02 00 00 00 01 01 00 01 00 00 00 00, 0, 0x16, m, 00 00 01, 1";

/// `leave` to the `ret`, a filter that pops and then branches to itself, its handler, `ret`.
const FILTERS: &str =
    "MethodDef :1B 30 08 00 09 00 00 00 00 00 00 00 DE 06 26 2B FE 26 DE 00 2A 00 00 00 01 10 00 00 01 00 00 00 02 05 00 03 02 00 00 00, 0, 0x16, m, 00 00 01, 1";

#[test]
fn bodies_that_keep_the_rules_are_listed(rt: HostRuntime) {
    let alloc = rt.alloc();
    const M: &str = "MethodDef 0, 0, 0x16, m, 00 00 01, 1";
    const N: &str = "MethodDef 0, 0, 0x16, n, 00 00 01, 1";
    assert!(rt; lists(alloc, &[A, M, N], LISTED));
    assert!(rt; lists(alloc, &[A, M_RETURNS, N_RETURNS], LISTED));
    assert!(rt; lists(alloc, &[A, LEAVES, N_RETURNS], LISTED));
}

#[test]
fn each_rule_on_bodies_is_broken_at_its_method(rt: HostRuntime) {
    let alloc = rt.alloc();
    const UNDEFINED: &str = "MethodDef :06 24, 0, 0x16, m, 00 00 01, 1";
    const BETWEEN: &str = "MethodDef :22 2B 01 20 00 00 00 00 2A, 0, 0x16, m, 00 00 01, 1";
    const NOWHERE: &str = "MethodDef 0xF00000, 0, 0x16, m, 00 00 01, 1";
    const NO_MEMBER: &str = "MethodDef :1A 28 01 00 00 0A 2A, 0, 0x16, m, 00 00 01, 1";
    const NO_ARGUMENT: &str = "MethodDef :0E 02 26 2A, 0, 0x16, m, 00 00 01, 1";
    const NO_VALUE: &str = "MethodDef :0A 26 2A, 0, 0x16, m, 00 00 01, 1";
    assert!(rt;
        lists(
            alloc,
            &[A, UNDEFINED, N_IS_CUT],
            "refused: I1 assembly 0 table 06 row 1 at 0\n"
        )
    );
    assert!(rt;
        lists(
            alloc,
            &[A, BETWEEN, N_IS_CUT],
            "refused: I3 assembly 0 table 06 row 1 at 0\n"
        )
    );
    assert!(rt;
        lists(
            alloc,
            &[A, NOWHERE, N_IS_CUT],
            "refused: I5 assembly 0 table 06 row 1 at 0\n"
        )
    );
    assert!(rt;
        lists(
            alloc,
            &[A, NO_MEMBER, N_IS_CUT],
            "refused: I6 assembly 0 table 06 row 1 at 0\n"
        )
    );
    assert!(rt;
        lists(
            alloc,
            &[A, NO_ARGUMENT, N_IS_CUT],
            "refused: I6 assembly 0 table 06 row 1 at 0\n"
        )
    );
    assert!(rt;
        lists(
            alloc,
            &[A, NO_VALUE, N_IS_CUT],
            "refused: I4 assembly 0 table 06 row 1 at 0\n"
        )
    );
    assert!(rt;
        lists(
            alloc,
            &[A, FILTERS, N_IS_CUT],
            "refused: X1 assembly 0 table 06 row 1 at 0\n"
        )
    );
    assert!(rt;
        lists(
            alloc,
            &[A, RETURNS_WITHIN, N_IS_CUT],
            "refused: X3 assembly 0 table 06 row 1 at 0\n"
        )
    );
}

#[test]
fn bodies_are_checked_in_the_order_of_methods(rt: HostRuntime) {
    let alloc = rt.alloc();
    const UNDEFINED: &str = "MethodDef :06 24, 0, 0x16, n, 00 00 01, 1";
    const NO_VALUE: &str = "MethodDef :0A 26 2A, 0, 0x16, n, 00 00 01, 1";
    const OF_SECOND: &str = "assembly b\nMethodDef :06 24, 0, 0x16, n, 00 00 01, 1";
    assert!(rt;
        lists(
            alloc,
            &[A, M_RETURNS, UNDEFINED],
            "refused: I1 assembly 0 table 06 row 2 at 0\n"
        )
    );
    assert!(rt;
        lists(
            alloc,
            &[A, M_RETURNS, N_IS_CUT],
            "refused: I2 assembly 0 table 06 row 2 at 0\n"
        )
    );
    assert!(rt;
        lists(
            alloc,
            &[A, LEAVES, NO_VALUE],
            "refused: I4 assembly 0 table 06 row 2 at 0\n"
        )
    );
    assert!(rt;
        lists(
            alloc,
            &[A, M_RETURNS, OF_SECOND],
            "refused: I1 assembly 1 table 06 row 1 at 0\n"
        )
    );
}
