//! The format and the instance of a text.

use pb_inst::Instance;
use pb_read::{Format, read};
use std::alloc::Global;

/// The format in which the text begins: that of clauses, that of cubes, or else OPB.
pub fn format_of(text: &[u8]) -> Format {
    if text.starts_with(b"p cnf") {
        Format::Cnf
    } else if text.starts_with(b"p inccnf") {
        Format::Icnf
    } else {
        Format::Opb
    }
}

/// The instance that the text spells, without its own cubes; none where it cannot be read.
pub fn instance_of(alloc: Global, text: &[u8]) -> Option<Instance> {
    match read(alloc, format_of(text), text) {
        Ok((instance, cubes)) => {
            drop(cubes);
            Some(instance)
        }
        Err(_) => None,
    }
}
