//! Builds an engine over the instance of a text and runs rounds of assumptions, propagation, bounds and backtracking on it.
//! Counts go to standard output, seconds to standard error.

use crate::rounds::{self, Counts, Course};
use crate::texts::instance_of;
use pb_engine::Engine;
use pb_normal::{Normal, Width, normalise};
use std::alloc::Global;
use std::io;
use std::time::{Duration, Instant};

/// The normal form of the text's instance; none where it cannot be read or memory is refused.
fn normal_of(alloc: Global, text: &[u8]) -> Option<Normal> {
    normalise(alloc, &instance_of(alloc, text)?).ok()
}

/// The number of terms of the rows.
fn terms_len(normal: &Normal) -> usize {
    match normal.form() {
        Width::Narrow(form) => form.terms_len(),
        Width::Wide(form) => form.terms_len(),
    }
}

/// When the engine was built, and what the rounds did; none where memory is refused. A fault of the clock is told only once the
/// engine is gone.
fn run_rounds(
    rt: &HostRuntime,
    start: &Instant,
    normal: &Normal,
    course: Course,
    rounds: u32,
) -> Option<(io::Result<Duration>, Counts)> {
    let Ok(mut engine) = Engine::new(rt.alloc(), normal, &[]) else {
        return None;
    };
    let built = start.elapsed(rt);
    Some((built, rounds::run(&mut engine, course, rounds)))
}

/// Runs the rounds on an engine over the normal form, and says what they did and how long that took.
fn measure(rt: &HostRuntime, normal: &Normal, course: Course, rounds: u32) -> io::Result<()> {
    println!(rt; "{} rows, {} terms", normal.len(), terms_len(normal))?;
    if rounds == 0 {
        return Ok(());
    }
    let start = Instant::now(rt)?;
    let Some((built, counts)) = run_rounds(rt, &start, normal, course, rounds) else {
        return eprintln!(rt; "out of memory");
    };
    let built = built?.as_secs_f64();
    let seconds = start.elapsed(rt)?.as_secs_f64() - built;
    println!(rt; "{counts:?}")?;
    eprintln!(rt; "engine {built:.3} s, rounds {seconds:.3} s")
}

/// Measures an engine over the instance of the text.
pub fn run(rt: &HostRuntime, text: &[u8], course: Course, rounds: u32) -> io::Result<()> {
    match normal_of(rt.alloc(), text) {
        Some(normal) => measure(rt, &normal, course, rounds),
        None => eprintln!(rt; "the text cannot be read"),
    }
}
