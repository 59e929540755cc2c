//! `pbcube_pieces`: the pieces of a pseudo-Boolean instance as texts, from the command line.
#![tactic(auto)]

mod run;

use crate::run::{out_of_memory, program};
use pb_files::SystemFiles;
use pb_line::{Program, end_at_no_text, main_with};
use std::process::ExitCode;

/// The program on the system's files and outputs.
#[derive(Drop)]
struct System<'a> {
    rt: &'a HostRuntime,
}

impl Program for System<'_> {
    fn run(&self, words: &[&str]) -> u8 {
        let rt = self.rt;
        let mut folders = SystemFiles { rt };
        program(
            rt.alloc(),
            words,
            &mut folders,
            &mut rt.stdout(),
            &mut rt.stderr(),
        )
    }

    fn end_without_memory(&self) -> u8 {
        out_of_memory(&mut self.rt.stderr())
    }

    fn end_at_no_text(&self) -> u8 {
        end_at_no_text("pbcube_pieces", &mut self.rt.stderr())
    }
}

fn main(rt: HostRuntime) -> ExitCode {
    main_with(&rt, &System { rt: &rt })
}
