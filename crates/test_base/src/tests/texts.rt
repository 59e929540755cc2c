//! The instances of texts. A reading whose memory was refused is made once more.

use pb_inst::Instance;
use pb_read::{ReadKind, read_cubes, read_opb};
use std::alloc::Global;
use std::process::Abort;

/// The instance that a text of OPB spells.
pub fn instance_of(rt: &impl Abort, alloc: Global, text: &[u8]) -> Instance {
    match read_opb(alloc, text) {
        Ok(instance) => instance,
        Err(fault) => {
            assert!(rt; matches!(fault.kind, ReadKind::Memory));
            assert!(rt; fault.line == 0);
            read_opb(alloc, text).expect(rt, "an instance")
        }
    }
}

// The number of variables that is told here is greater than any instance has.
#[test]
fn cubes_beside_too_many_variables(rt: HostRuntime) {
    let told = read_cubes(rt.alloc(), b"a 1048577 0\n", u32::MAX);
    let fault = told.err().expect(&rt, "a fault");
    assert!(rt; matches!(fault.kind, ReadKind::BadVariable));
    assert!(rt; fault.line == 1);
}
