//! `pbcube`: the least assignment of a pseudo-Boolean instance, from the command line.
#![tactic(auto)]

ghost use Rattle.std.specs.Prelude.{◌≡◌, ⊤};

use pb_line::{end_at_no_text, texts_of, words_of};
use pb_program::{Files, out_of_memory, program};
use pb_solve::Device;
use std::fs::{self, File};
use std::io::ErrorKind;
use std::process::ExitCode;

/// The files of the system.
#[derive(Drop)]
struct SystemFiles<'a> {
    rt: &'a HostRuntime,
}

impl Files for SystemFiles<'_> {
    type Input = File;

    ghost fetches = { λ files name opened after. after ≡ files };

    // No contract tells what the system's files hold.
    ghost has = { λ files name text. ⊤ };

    fn fetch(&mut self, name: &str) -> Option<File> {
        fs::open(self.rt, name).ok()
    }
}

/// Runs the program on the system's words, files and outputs.
fn main(rt: HostRuntime) -> ExitCode {
    let mut out = Device::new(rt.stdout());
    let mut err = rt.stderr();
    let texts = match texts_of(&rt) {
        Ok(texts) => texts,
        Err(fault) => {
            return if fault.kind() == ErrorKind::OutOfMemory {
                ExitCode::from(out_of_memory(&mut out, &mut err))
            } else {
                ExitCode::from(end_at_no_text("pbcube", &mut err))
            };
        }
    };
    let mut files = SystemFiles { rt: &rt };
    let status = match words_of(rt.alloc(), &texts) {
        Ok(words) => program(&rt, rt.alloc(), &words, &mut files, &mut out, &mut err),
        Err(_) => out_of_memory(&mut out, &mut err),
    };
    ExitCode::from(status)
}
