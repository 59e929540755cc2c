//! The status that a report gives, and the words of `s` lines.
//! Source: [OPB]
ghost use Rattle.std.specs.Prelude.{◌≡◌, ◌∷◌, [], IfSome, Some};
ghost use Rattle.pb_report.specs.declared.statuses.Status.{Status};
ghost use Rattle.pb_report.specs.Claims.{status_words};
ghost use Rattle.pb_report.specs.Statuses.{exit_status};

use bstr::Fields;

/// What the report of a run says.
#[derive(Clone, Copy, Debug, PartialEq, Eq)]
pub enum Status {
    /// Some assignment meets every constraint. There is no objective, or a piece was cut, so that none is known to be least.
    Satisfiable,
    /// No assignment meets every constraint.
    Unsatisfiable,
    /// A least assignment by the objective was found.
    Optimum,
    /// The input, the cube file or the split was refused.
    Unsupported,
    /// Memory ran out before the answer was known, or a piece was cut and no assignment was found.
    Unknown,
}

impl Status {
    /// The exit status of a program whose report says this, as SAT and pseudo-Boolean solvers set it.
    pub fn exit_status(self) -> u8
        ensures { result ≡ exit_status self }
    {
        match self {
            Status::Satisfiable => 10,
            Status::Unsatisfiable => 20,
            Status::Optimum => 30,
            Status::Unsupported | Status::Unknown => 0,
        }
    }
}

/// The status that the words spell; none where they spell none.
pub(crate) fn status_of(words: Fields<'_>) -> Option<Status>
    ensures said { IfSome result (λ status. words.entry ≡ status_words status) }
    ensures accepted { (status : Status) → words.entry ≡ status_words status → result ≡ Some status }
{
    let mut words = words;
    let first = words.next()?;
    match words.next() {
        None => status_of_word(first),
        Some(second) => {
            if first == b"OPTIMUM".as_slice()
                && second == b"FOUND".as_slice()
                && words.next().is_none()
            {
                Some(Status::Optimum)
            } else {
                None
            }
        }
    }
}

/// The status that one word spells.
fn status_of_word(word: &[u8]) -> Option<Status>
    ensures said { IfSome result (λ status. word.now ∷ [] ≡ status_words status) }
    ensures accepted { (status : Status) → word.now ∷ [] ≡ status_words status → result ≡ Some status }
{
    if word == b"SATISFIABLE".as_slice() {
        Some(Status::Satisfiable)
    } else if word == b"UNSATISFIABLE".as_slice() {
        Some(Status::Unsatisfiable)
    } else if word == b"UNKNOWN".as_slice() {
        Some(Status::Unknown)
    } else if word == b"UNSUPPORTED".as_slice() {
        Some(Status::Unsupported)
    } else {
        None
    }
}
