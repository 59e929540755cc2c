//! Hints as lines on refused inputs tell them.
use crate::beginnings::Beginning;
use crate::hints::Hint;
use thiserror::Error;

/// What a line says to help with an input that was refused.
#[derive(Clone, Copy, Debug, PartialEq, Eq, Error)]
pub enum HintLine<'t> {
    /// The file of this name begins as a text of another format.
    #[error("{0} {1}")]
    Begins(&'t str, Beginning),
    /// The file of this name begins as a report, and stands where the instance has to stand, before all reports.
    #[error("{0} {1}: FILE, the instance, comes first")]
    ReportFirst(&'t str, Beginning),
    /// The hint on the text of the one instance.
    #[error("{0}")]
    OfInstance(Hint<'t>),
    /// The file of this name, and the hint on its text.
    #[error("{0}: {1}")]
    OfFile(&'t str, Hint<'t>),
    /// The instance in the file has one variable, too few for this split.
    #[error("{file} has 1 variable, too few for --split {split}")]
    OneVariable {
        file: &'t str,
        split: u32,
    },
    /// The instance has no or several variables, too few for this split.
    #[error("{file} has {vars} variables, too few for --split {split}")]
    FewVariables {
        file: &'t str,
        vars: u32,
        split: u32,
    },
    /// There are too many cubes.
    #[error("there are at most 1048575 cubes, with those of --split")]
    ManyCubes,
}

impl<'t> HintLine<'t> {
    /// The line with this hint on the instance in the file of this name.
    pub fn of_instance(file: &'t str, hint: Hint<'t>) -> HintLine<'t> {
        match hint {
            Hint::Begins(begins) => HintLine::Begins(file, begins),
            hint => HintLine::OfInstance(hint),
        }
    }

    /// The line with this hint on the instance in the file of this name, which it names.
    pub fn of_file(file: &'t str, hint: Hint<'t>) -> HintLine<'t> {
        match hint {
            Hint::Begins(begins) => HintLine::Begins(file, begins),
            hint => HintLine::OfFile(file, hint),
        }
    }

    /// The line with this hint on the instance in the file of this name, where reports are named behind it.
    pub fn of_first(file: &'t str, hint: Hint<'t>) -> HintLine<'t> {
        match hint {
            Hint::Begins(begins) if begins.is_report() => HintLine::ReportFirst(file, begins),
            hint => HintLine::of_file(file, hint),
        }
    }

    /// The line on cubes and a split that do not divide the instance of `vars` variables in this file, though each can be read.
    pub fn of_division(file: &'t str, vars: u32, split: u32) -> HintLine<'t> {
        if split <= vars {
            HintLine::ManyCubes
        } else if vars == 1 {
            HintLine::OneVariable { file, split }
        } else {
            HintLine::FewVariables { file, vars, split }
        }
    }
}
