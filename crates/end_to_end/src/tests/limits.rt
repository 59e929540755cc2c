//! The limits, each computed in another way than where it is declared.

use pb_cubes::{MAX_CUBES, MAX_SPLIT};
use pb_inst::{MAX_CONSTRAINTS, MAX_TERMS, MAX_VARS, MAX_WORKERS, SUM_BOUND};

// The literals of the cubes of a text are bounded by the greatest number of terms.
#[test]
fn limits_are_powers_of_two(rt: HostRuntime) {
    assert!(rt; MAX_VARS == 1 << 20);
    assert!(rt; MAX_CONSTRAINTS == 1 << 22);
    assert!(rt; MAX_TERMS == 1 << 24);
    assert!(rt; MAX_CUBES == (1 << 20) - 1);
    assert!(rt; MAX_WORKERS == 1 << 6);
    assert!(rt; MAX_SPLIT == 12);
    assert!(rt; SUM_BOUND == (1 << 126) - 1);
}
