//! What texts begin as.
ghost use Rattle.std.specs.Prelude.{◌≡◌};
ghost use Rattle.pb_hint.specs.Beginnings.{is_of};

use crate::opb::{are_digits, ends_word, unsigned};
use crate::spelling::is_part_of_term;
use bstr::ByteSlice;
use pb_read::Format;
use thiserror::Error;

/// What a text begins as.
#[derive(Clone, Copy, Debug, PartialEq, Eq, Error)]
pub enum Beginning {
    /// It has the first bytes of what gzip writes.
    #[error("is compressed by gzip: gunzip it first")]
    Gzip,
    /// It has the first bytes of what xz writes.
    #[error("is compressed by xz: unxz it first")]
    Xz,
    /// It has the first bytes of what bzip2 writes.
    #[error("is compressed by bzip2: bunzip2 it first")]
    Bzip2,
    /// It has the first bytes of what zstd writes.
    #[error("is compressed by zstd: unzstd it first")]
    Zstd,
    /// It has the first bytes of what zip writes.
    #[error("is compressed by zip: unzip it first")]
    Zip,
    /// It has the bytes that editors put before texts in Unicode.
    #[error("begins with a byte order mark: save it as ASCII, without one")]
    ByteOrderMark,
    /// It has CR where LF should end a line, and no LF.
    #[error("ends lines with CR alone: end them with LF")]
    CarriageReturns,
    /// Its first line, which is no comment, has a zero byte.
    #[error("has a zero byte in its first line, as no text in ASCII has")]
    ZeroByte,
    /// It begins as the report of a task does.
    #[error("is the report of a task, and no instance")]
    TaskReport,
    /// Its first line that is no comment is one of a report.
    #[error("is the report of a run, and no instance")]
    RunReport,
    /// Its first line that is no comment is the header of WCNF, or a hard clause of its newer form.
    #[error("begins as WCNF, which is not read: write it as OPB, with the weights in min:")]
    Wcnf,
    /// Its first line that is no comment begins an objective of LP.
    #[error("begins as LP, which is not read: the client pbcube-lp solves it")]
    Lp,
    /// Its first line that is no comment begins a section of MPS.
    #[error("begins as MPS, which is not read: save it as LP, which the client pbcube-lp solves")]
    Mps,
    /// Its first line that is no comment declares something as FlatZinc does, or is a constraint of it.
    #[error("begins as FlatZinc, which is not read: the client fzn-pbcube reads what MiniZinc writes for it")]
    FlatZinc,
    /// Its first line that is no comment begins a stanza of CUDF.
    #[error("begins as CUDF, which is not read: give it to mccs, with -pblib and the path of pbcube")]
    Cudf,
    /// Its first bytes, or its first line that is no comment, are as in this format, which no program here reads.
    #[error("begins as {0}, which is not read")]
    Unread(&'static str),
    /// Its first line that is no comment is the header of DIMACS CNF.
    #[error("begins as DIMACS CNF: give --format cnf")]
    Cnf,
    /// Its first line that is no comment is the header of iCNF.
    #[error("begins as iCNF: give --format icnf")]
    Icnf,
    /// Its first line that is no comment is a constraint or the objective of OPB, or it has a header of OPB.
    #[error("begins as OPB: give --format opb")]
    Opb,
}

impl Beginning {
    /// Whether it is that of a report.
    pub fn is_report(self) -> bool {
        matches!(self, Beginning::TaskReport | Beginning::RunReport)
    }

    /// Whether a text of this format begins so.
    pub fn is_of(self, format: Format) -> bool
        ensures { result ≡ is_of self format }
    {
        match self {
            Beginning::Gzip
            | Beginning::Xz
            | Beginning::Bzip2
            | Beginning::Zstd
            | Beginning::Zip
            | Beginning::ByteOrderMark
            | Beginning::CarriageReturns
            | Beginning::ZeroByte
            | Beginning::TaskReport
            | Beginning::RunReport
            | Beginning::Wcnf
            | Beginning::Lp
            | Beginning::Mps
            | Beginning::FlatZinc
            | Beginning::Cudf
            | Beginning::Unread(_) => false,
            Beginning::Cnf => format == Format::Cnf,
            Beginning::Icnf => format == Format::Icnf,
            Beginning::Opb => format == Format::Opb,
        }
    }
}

/// What the text begins as, where its first bytes or its first lines tell.
pub fn begins_as(text: &[u8]) -> Option<Beginning> {
    if let Some(begins) = foreign_bytes(text) {
        return Some(begins);
    }
    for line in text.lines() {
        let line = line.trim();
        if let Some(begins) = header(line) {
            return Some(begins);
        }
        if !line.is_empty() && !is_comment(line) {
            return first_statement(text, line);
        }
    }
    None
}

/// Whether a line is a comment of some format.
fn is_comment(line: &[u8]) -> bool {
    matches!(line.first(), Some(b'c' | b'*' | b'#' | b'\\' | b'%' | b';'))
}

/// Which format has this line as its first one, though it is no header. LP ends no statement with a mark, as OPB does.
fn first_statement(text: &[u8], line: &[u8]) -> Option<Beginning> {
    let word = line.fields().next()?;
    if is_among(word, &OBJECTIVES) && text.find_byte(b';').is_none() {
        Some(Beginning::Lp)
    } else if is_among(word, &["name", "rows", "objsense"]) {
        Some(Beginning::Mps)
    } else if is_constraint(line) {
        Some(Beginning::Opb)
    } else {
        None
    }
}

/// Whether a line has a literal of OPB, and a relation or the end of a statement.
fn is_constraint(line: &[u8]) -> bool {
    line.find_byteset(b";><=").is_some()
        && line
            .split(|byte| ends_word(*byte))
            .any(|word| is_part_of_term(word))
}

/// The words that begin an objective of LP.
const OBJECTIVES: [&str; 8] = [
    "min", "minimize", "minimise", "minimum", "max", "maximize", "maximise", "maximum",
];

/// Whether the word is one of these, in any case.
pub fn is_among(word: &[u8], words: &[&str]) -> bool {
    words
        .iter()
        .any(|it| word.eq_ignore_ascii_case(it.as_bytes()))
}

/// What a text is by its first bytes, or by the ends of its lines, if that is neither a text of a format here nor a report.
pub fn foreign_bytes(text: &[u8]) -> Option<Beginning> {
    if let Some(begins) = packed(text) {
        Some(begins)
    } else if is_marked(text) {
        Some(Beginning::ByteOrderMark)
    } else if text.starts_with(b"<?xml") {
        Some(Beginning::Unread("XML"))
    } else if text.starts_with(b"<!") || text.starts_with(b"<html") {
        Some(Beginning::Unread("HTML"))
    } else if text.starts_with(b"%PDF") {
        Some(Beginning::Unread("PDF"))
    } else if has_zero_byte(text) {
        Some(Beginning::ZeroByte)
    } else if has_carriage_returns(text) {
        Some(Beginning::CarriageReturns)
    } else {
        None
    }
}

/// By what a text is compressed.
fn packed(text: &[u8]) -> Option<Beginning> {
    if text.starts_with(b"\x1f\x8b") {
        Some(Beginning::Gzip)
    } else if text.starts_with(b"\xfd7zXZ\x00") {
        Some(Beginning::Xz)
    } else if text.starts_with(b"BZh") {
        Some(Beginning::Bzip2)
    } else if text.starts_with(b"\x28\xb5\x2f\xfd") {
        Some(Beginning::Zstd)
    } else if text.starts_with(b"PK\x03\x04") {
        Some(Beginning::Zip)
    } else {
        None
    }
}

/// Whether the first line has a zero byte, and is no comment.
fn has_zero_byte(text: &[u8]) -> bool {
    match text.lines().next() {
        Some(line) => !is_comment(line) && line.find_byte(0).is_some(),
        None => false,
    }
}

/// Whether CR stands between other bytes of a text that has no LF.
fn has_carriage_returns(text: &[u8]) -> bool {
    text.find_byte(b'\n').is_none()
        && text.trim().find_byte(b'\r').is_some()
        && !has_control_bytes(text)
}

/// Whether some byte is a control character that stands in no text: none of those that are blanks.
pub fn has_control_bytes(text: &[u8]) -> bool {
    text.iter().any(|byte| byte.is_ascii_control() && !byte.is_ascii_whitespace())
}

/// Whether a byte order mark of UTF-8 or of UTF-16 comes first.
fn is_marked(text: &[u8]) -> bool {
    text.starts_with(b"\xef\xbb\xbf")
        || text.starts_with(b"\xff\xfe")
        || text.starts_with(b"\xfe\xff")
}

/// What a line is the header of.
fn header(line: &[u8]) -> Option<Beginning> {
    let mut words = line.fields();
    let is_headed = words.next() == Some(b"p".as_slice());
    match words.next() {
        Some(b"cnf") if is_headed => Some(Beginning::Cnf),
        Some(b"inccnf") if is_headed => Some(Beginning::Icnf),
        Some(b"wcnf") if is_headed => Some(Beginning::Wcnf),
        _ if line.starts_with(b"h ") => Some(Beginning::Wcnf),
        _ if line.starts_with(b"min:") || is_opb_header(line) => Some(Beginning::Opb),
        _ => unread(line),
    }
}

/// What has such a line at its beginning and is not read: a report, or another format. No line of OPB, CNF or iCNF that is accepted
/// begins so, but for a comment of CNF.
fn unread(line: &[u8]) -> Option<Beginning> {
    if is_of_task(line) {
        Some(Beginning::TaskReport)
    } else if is_of_run(line) {
        Some(Beginning::RunReport)
    } else if is_flatzinc(line) {
        Some(Beginning::FlatZinc)
    } else if is_cudf(line) {
        Some(Beginning::Cudf)
    } else if is_smt_lib(line) {
        Some(Beginning::Unread("SMT-LIB"))
    } else if is_json(line) {
        Some(Beginning::Unread("JSON"))
    } else {
        None
    }
}

/// Whether a line is the first one of the report of a task.
fn is_of_task(line: &[u8]) -> bool {
    let mut words = line.fields();
    line.starts_with(b"c part ")
        && words.nth(3) == Some(b"of".as_slice())
        && words.nth(1) == Some(b"of".as_slice())
        && words.next() == Some(b"instance".as_slice())
}

/// Whether a line of a report tells a cost or a status.
fn is_of_run(line: &[u8]) -> bool {
    match line.strip_prefix(b"o ") {
        Some(cost) => are_digits(unsigned(cost)),
        None => STATUSES.iter().any(|it| it.as_bytes() == line),
    }
}

/// The lines of a report that tell a status.
const STATUSES: [&str; 5] = [
    "s OPTIMUM FOUND",
    "s SATISFIABLE",
    "s UNSATISFIABLE",
    "s UNKNOWN",
    "s UNSUPPORTED",
];

/// Whether a line begins a declaration of FlatZinc, or is a constraint of it. A comment of CNF may begin with that word too. In FlatZinc
/// a type and a colon follow `var`, in AMPL a name.
fn is_flatzinc(line: &[u8]) -> bool {
    (line.starts_with(b"var ") && line.fields().any(|word| word.ends_with(b":")))
        || line.starts_with(b"array [")
        || line.starts_with(b"predicate ")
        || line.starts_with(b"int:")
        || (line.starts_with(b"constraint ") && line.ends_with(b";"))
}

/// Whether a line begins a stanza of CUDF, and no constraint of such a name.
fn is_cudf(line: &[u8]) -> bool {
    (line.starts_with(b"preamble:") || line.starts_with(b"package:"))
        && line.find_byte(b';').is_none()
}

/// Whether a line begins a command of SMT-LIB.
fn is_smt_lib(line: &[u8]) -> bool {
    line.starts_with(b"(set-") || line.starts_with(b"(declare-") || line.starts_with(b"(assert")
}

/// Whether a line begins an object of JSON, or an array of objects, arrays or texts. The weight of a soft constraint, as in
/// `[2] 1 x1 >= 1 ;`, is none of these.
fn is_json(line: &[u8]) -> bool {
    match line.strip_prefix(b"[") {
        Some(rest) => matches!(rest.trim_start().first(), None | Some(b'{' | b'[' | b'"')),
        None => line.starts_with(b"{"),
    }
}

/// Whether a line is the header of OPB.
fn is_opb_header(line: &[u8]) -> bool {
    match line.strip_prefix(b"*") {
        Some(rest) => rest.trim_start().starts_with(b"#variable="),
        None => false,
    }
}
