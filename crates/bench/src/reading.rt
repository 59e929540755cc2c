//! Reads a text, and says on standard error how long that took.

use crate::texts::format_of;
use pb_inst::MAX_VARS;
use pb_read::{ReadFault, read, read_cubes};
use std::alloc::Global;
use std::io;
use std::time::Instant;

/// How many variables, constraints and cubes a text has.
#[derive(Clone, Copy)]
struct Sizes {
    variables: u32,
    constraints: usize,
    cubes: usize,
}

/// The sizes of the text, of cubes or of an instance.
fn read_sizes(alloc: Global, text: &[u8], is_cubes: bool) -> Result<Sizes, ReadFault> {
    if is_cubes {
        return Ok(Sizes {
            variables: MAX_VARS,
            constraints: 0,
            cubes: read_cubes(alloc, text, MAX_VARS)?.len(),
        });
    }
    let (instance, cubes) = read(alloc, format_of(text), text)?;
    Ok(Sizes {
        variables: instance.vars(),
        constraints: instance.len(),
        cubes: cubes.len(),
    })
}

/// Reads the text.
pub fn run(rt: &HostRuntime, text: &[u8], is_cubes: bool) -> io::Result<()> {
    let start = Instant::now(rt)?;
    let answer = read_sizes(rt.alloc(), text, is_cubes);
    let seconds = start.elapsed(rt)?.as_secs_f64();
    let bytes = text.len();
    match answer {
        Ok(
            Sizes {
                variables,
                constraints,
                cubes,
            },
        ) => eprintln!(rt;
            "{bytes} bytes in {seconds:.3} s: {variables} variables, {constraints} constraints, {cubes} cubes"
        ),
        Err(fault) => eprintln!(rt; "{bytes} bytes in {seconds:.3} s: {fault:?}"),
    }
}
