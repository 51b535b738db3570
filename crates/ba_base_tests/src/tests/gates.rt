//! Gates.

use ba_outside::{FreeGate, Gate, HoldGate};

#[test]
fn gates(rt: HostRuntime) {
    FreeGate.pass(1, 0);
    let alone = HoldGate::new(0, 1, 5);
    alone.pass(0, 1);
    assert!(rt; !alone.gave_up());
    alone.pass(0, 0);
    assert!(rt; alone.gave_up());
    for limit in [0, 5] {
        let after = HoldGate::new(0, 1, limit);
        after.pass(1, 0);
        after.pass(0, 0);
        assert!(rt; !after.gave_up(), "limit {limit}");
    }
}
