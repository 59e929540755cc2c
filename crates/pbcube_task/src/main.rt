//! `pbcube_task`: a task's share of the pieces of a pseudo-Boolean instance, searched from the command line.
#![tactic(auto)]

mod faults;
mod notes;
mod places;
mod reporting;
mod run;
mod searching;

use crate::notes::TaskNotes;
use crate::places::Places;
use crate::run::{out_of_memory, program};
use pb_files::SystemFiles;
use pb_line::{LastFault, Noting, end_at_no_text, texts_of, words_of};
use pb_notes::Folder;
use pb_solve::Device;
use std::alloc::Global;
use std::io::{self, Error, ErrorKind};
use std::process::ExitCode;

/// The folders of the system, in which notes can lie.
#[derive(Drop)]
struct SystemPlaces<'a> {
    rt: &'a HostRuntime,
}

impl<'a> Places<TaskNotes<'a>> for SystemPlaces<'a> {
    fn open(
        &self,
        alloc: Global,
        folder: &str,
        task: u32,
        tasks: u32,
        workers: u32,
    ) -> io::Result<TaskNotes<'a>> {
        let Ok(name) = String::from_str(alloc, folder) else {
            return Err(Error::from(ErrorKind::OutOfMemory));
        };
        match Folder::new(alloc, self.rt, folder, task, tasks, workers) {
            Ok(place) => {
                place.make()?;
                Ok(TaskNotes::new(self.rt, place, name, task))
            }
            Err(_) => Err(Error::from(ErrorKind::OutOfMemory)),
        }
    }
}

/// Runs the program on the system's words, files and outputs.
fn main(rt: HostRuntime) -> ExitCode {
    let faults = LastFault::new();
    let mut out = Device::new(Noting::new(rt.stdout(), &faults));
    let mut err = rt.stderr();
    let texts = match texts_of(&rt) {
        Ok(texts) => texts,
        Err(fault) => {
            return if fault.kind() == ErrorKind::OutOfMemory {
                ExitCode::from(out_of_memory(&faults, &mut out, &mut err))
            } else {
                ExitCode::from(end_at_no_text("pbcube_task", &mut err))
            };
        }
    };
    let mut folders = SystemFiles { rt: &rt };
    let places = SystemPlaces { rt: &rt };
    let status = match words_of(rt.alloc(), &texts) {
        Ok(words) => program(
            &rt,
            rt.alloc(),
            &words,
            &mut folders,
            &places,
            &faults,
            &mut out,
            &mut err,
        ),
        Err(_) => out_of_memory(&faults, &mut out, &mut err),
    };
    ExitCode::from(status)
}
