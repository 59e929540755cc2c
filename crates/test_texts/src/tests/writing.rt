//! How a text of an instance is written, and a writer that fails.

use pb_inst::Instance;
use pb_read::{Format, read};
use pb_write::{WriteFault, write_instance};
use std::alloc::Global;
use std::io::{self, Error, ErrorKind, Write};
use std::process::Abort;

const TIE: &[u8] =
    b"* #variable= 4 #constraint= 2\nmin: 2 x1 -3 ~x2 1 x3 ;\n1 x1 1 x2 >= 1 ;\n-1 x2 +1 ~x3 <= -2 ;\n";

const TIE_WRITTEN: &[u8] =
    b"* #variable= 4 #constraint= 2\nmin: 2 x1 -3 ~x2 1 x3 ;\n1 x1 1 x2 >= 1 ;\n1 x2 -1 ~x3 >= 2 ;\n";

fn instance(rt: &impl Abort, alloc: Global) -> Instance {
    let (instance, _) = read(alloc, Format::Opb, TIE).ok().expect(rt, "an instance");
    instance
}

/// A writer that fails in this way.
#[derive(Drop)]
struct Failing {
    kind: ErrorKind,
}

impl Write for Failing {
    fn write(&mut self, _: &[u8]) -> io::Result<usize> {
        Err(Error::from(self.kind))
    }

    fn flush(&mut self) -> io::Result<()> {
        Ok(())
    }
}

/// Formats, in which way a writer fails, and the fault that is told.
const FAULTS: &[(Format, ErrorKind, WriteFault)] = &[
    (Format::Cnf, ErrorKind::Other, WriteFault::NotClauses),
    (Format::Opb, ErrorKind::Other, WriteFault::Write),
    (Format::Opb, ErrorKind::OutOfMemory, WriteFault::Memory),
];

#[test]
fn faults_are_told(rt: HostRuntime) {
    let instance = instance(&rt, rt.alloc());
    for (format, kind, fault) in FAULTS {
        let answer = write_instance(&mut Failing { kind: *kind }, *format, &instance);
        assert!(rt; answer == Err(*fault));
    }
}

#[test]
fn an_instance_is_written(rt: HostRuntime) {
    let mut out = Vec::new(rt.alloc());
    let answer = write_instance(&mut out, Format::Opb, &instance(&rt, rt.alloc()));
    assert!(rt; answer.is_ok() && out.as_slice() == TIE_WRITTEN);
}
