//! `pbcube_join`: one report of the reports of an instance's pieces, or of its parts, from the command line.
#![tactic(auto)]

mod again;
mod parts;
mod run;

use crate::run::{out_of_memory, program};
use pb_files::SystemFiles;
use pb_line::{LastFault, Noting, Program, end_at_no_text, main_with};
use pb_report::Device;
use std::process::ExitCode;

/// The program on the system's files and outputs.
#[derive(Drop)]
struct System<'a> {
    rt: &'a HostRuntime,
}

impl Program for System<'_> {
    fn run(&self, words: &[&str]) -> u8 {
        let rt = self.rt;
        let faults = LastFault::new();
        let mut out = Device::new(Noting::new(rt.stdout(), &faults));
        let mut files = SystemFiles { rt };
        program(
            rt.alloc(),
            words,
            &mut files,
            &faults,
            &mut out,
            &mut rt.stderr(),
        )
    }

    fn end_without_memory(&self) -> u8 {
        out_of_memory(&mut self.rt.stderr())
    }

    fn end_at_no_text(&self) -> u8 {
        end_at_no_text("pbcube_join", &mut self.rt.stderr())
    }
}

fn main(rt: HostRuntime) -> ExitCode {
    main_with(&rt, &System { rt: &rt })
}
