//! What is to be measured.

ghost use Rattle.std.specs.Prelude.{◌≤◌, length};

use crate::rounds::Course;
use crate::searching::Way;

/// What is to be measured.
#[derive(Clone, Copy)]
pub enum Command {
    /// A reader: that of cubes, or that of the format in which the text begins.
    Read { is_cubes: bool },
    /// The search of the pieces of a split.
    Search { way: Way },
    /// This number of rounds on an engine; where it is 0 only the normal form is made.
    Engine { course: Course, rounds: u32 },
    /// A whole run.
    Solve,
}

/// What the first line asks for, and the text after it; or else to solve the whole text.
pub fn command_of(text: &[u8]) -> (Command, &[u8]) {
    let (line, rest) = text.split_at(line_len(text));
    match str::from_utf8(line) {
        Ok(line) => match spelled(line) {
            Command::Solve => (Command::Solve, text),
            command => (command, rest),
        },
        Err(_) => (Command::Solve, text),
    }
}

/// How many bytes the first line has, with its end.
fn line_len(text: &[u8]) -> usize
    ensures { result ≤ length text.now }
{
    for place in 0..text.len() {
        if text[place] == b'\n' {
            return place + 1;
        }
    }
    text.len()
}

/// What the words of the line ask for.
fn spelled(line: &str) -> Command {
    let mut words = line.split_ascii_whitespace();
    match words.next().unwrap_or("") {
        "read" => Command::Read {
            is_cubes: words.next() == Some("cubes"),
        },
        "search" => Command::Search {
            way: way_of(words.next(), words.next()),
        },
        "pieces" => Command::Search {
            way: Way {
                is_told: true,
                ..way_of(words.next(), words.next())
            },
        },
        "unlimited" => Command::Search {
            way: Way {
                is_counted: false,
                ..way_of(words.next(), words.next())
            },
        },
        "engine" => Command::Engine {
            course: course_of(words.next()),
            rounds: number_of(words.next()),
        },
        _ => Command::Solve,
    }
}

/// The way to search in pieces of a split over as many variables as the first word spells, each anew where there is another word.
/// Decisions are counted, and no piece is told of.
fn way_of(k: Option<&str>, anew: Option<&str>) -> Way {
    Way {
        k: number_of(k),
        is_anew: anew.is_some(),
        is_told: false,
        is_counted: true,
    }
}

/// The number that the word spells, or 0.
fn number_of(word: Option<&str>) -> u32 {
    word.unwrap_or("").parse::<u32>().unwrap_or(0)
}

/// The course of this name, or the shuffled one.
fn course_of(word: Option<&str>) -> Course {
    match word.unwrap_or("") {
        "one" => Course::OneAssumption,
        "ordered" => Course::InOrder,
        _ => Course::Shuffled,
    }
}
