//! Texts with their reports, for runs whose devices fail.

use pb_solve::{Format, Status};

/// A text, its report, which is the same without cubes and with accepted ones, and its status.
#[derive(Clone, Copy)]
pub struct Case {
    pub format: Format,
    pub text: &'static [u8],
    pub report: &'static [u8],
    pub status: Status,
}

/// An objective and two constraints. Two assignments of three variables have the least cost, and the tie rule decides.
pub const COVER: Case = Case {
    format: Format::Opb,
    text: b"* #variable= 3 #constraint= 2\nmin: 2 x1 3 x2 1 x3 ;\n1 x1 1 x2 >= 1 ;\n1 x2 1 x3 >= 1 ;\n",
    report: b"o 3\ns OPTIMUM FOUND\nv -x1 x2 -x3\n",
    status: Status::Optimum,
};

pub const CLAUSE_AND_CUBE: Case = Case {
    format: Format::Icnf,
    text: b"p inccnf\n1 2 0\na 1 0\n",
    report: b"s SATISFIABLE\nv -1 2 0\n",
    status: Status::Satisfiable,
};

const CONTRADICTION: Case = Case {
    format: Format::Opb,
    text: b"1 x1 >= 1 ;\n1 x1 = 0 ;\n",
    report: b"s UNSATISFIABLE\n",
    status: Status::Unsatisfiable,
};

pub const PRODUCT: Case = Case {
    format: Format::Opb,
    text: b"1 x1 x2 >= 1 ;\n",
    report: b"c refused: NonLinear at line 1\ns UNSUPPORTED\n",
    status: Status::Unsupported,
};

pub const NO_HEADER: Case = Case {
    format: Format::Cnf,
    text: b"1 2 0\n",
    report: b"c refused: BadHeader at line 1\ns UNSUPPORTED\n",
    status: Status::Unsupported,
};

/// A text of comments alone, which a test makes long.
pub const NOTHING: Case = Case {
    format: Format::Opb,
    text: b"* a comment\n",
    report: b"s SATISFIABLE\nv\n",
    status: Status::Satisfiable,
};

/// A case of each status that a run with ample memory has.
pub const CASES: [Case; 5] = [COVER, CLAUSE_AND_CUBE, CONTRADICTION, PRODUCT, NO_HEADER];
