//! Measures one layer of the solver on the text that follows the first line of standard input. That line says which layer, and
//! how:
//! ```text
//! read [cubes]
//! search [K [anew]]
//! unlimited [K [anew]]
//! pieces K [anew]
//! engine one|ordered|shuffled ROUNDS
//! ```
//!
//! A text with another first line is solved. Each module tells where its figures go. The program reads no words of a command
//! line, since the interpreter that counts the steps of a solved text (`tests/work.py`) runs no program that does.
#![tactic(auto)]

mod commands;
mod engine;
mod reading;
mod rounds;
mod searching;
mod solving;
mod texts;

use crate::commands::{Command, command_of};
use pb_solve::Device;
use std::io;
use std::io::Read;

fn main(rt: HostRuntime) -> io::Result<()> {
    let mut text = Vec::new(rt.alloc());
    rt.stdin().read_to_end(&mut text)?;
    let (command, rest) = command_of(&text);
    match command {
        Command::Read { is_cubes } => reading::run(&rt, rest, is_cubes),
        Command::Search { way } => searching::run(&rt, rest, way),
        Command::Engine { course, rounds } => engine::run(&rt, rest, course, rounds),
        Command::Solve => {
            let mut out = Device::new(rt.stdout());
            solving::run(&rt, rt.alloc(), rest, &mut out, &mut rt.stderr())
        }
    }
}
