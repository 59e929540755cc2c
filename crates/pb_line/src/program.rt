//! Running a program on the system's words.
use crate::words::{texts_of, words_of};
use std::alloc::{Alloc, Global};
use std::env::Env;
use std::io::ErrorKind;
use std::process::ExitCode;

/// A program on the system's files and outputs.
pub trait Program {
    /// Runs on its words, its own name first, and answers its exit status.
    fn run(&self, words: &[&str]) -> u8;

    /// Ends the program where there was no memory for the words, and answers its exit status.
    fn end_without_memory(&self) -> u8;

    /// Ends the program where a word is no text, and answers its exit status.
    fn end_at_no_text(&self) -> u8;
}

/// Runs the program on the system's words.
pub fn main_with<R: Env + Alloc<A = Global>, P: Program>(rt: &R, program: &P) -> ExitCode {
    let status = match texts_of(rt) {
        Ok(texts) => run_on(rt.alloc(), program, &texts),
        Err(fault) if fault.kind() == ErrorKind::OutOfMemory => program.end_without_memory(),
        Err(_) => program.end_at_no_text(),
    };
    ExitCode::from(status)
}

/// Runs the program on these words.
fn run_on<P: Program>(alloc: Global, program: &P, texts: &[String]) -> u8 {
    match words_of(alloc, texts) {
        Ok(words) => program.run(&words),
        Err(_) => program.end_without_memory(),
    }
}
