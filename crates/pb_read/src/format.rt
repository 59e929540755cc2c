//! The formats of instances, and reading a text by its format.
//! Source: [OPB], [DIMACS], [ICNF]
ghost use Rattle.std.specs.Prelude.{◌≡◌, ◌⊎◌, ◌≤◌, List, All, Some, IfOk, IfErr, MatchResult};
ghost use Rattle.pb_inst.specs.Literal.{Literal};
ghost use Rattle.pb_inst.specs.Problem.{Problem};
ghost use Rattle.pb_read.specs.Format.{Spells, ending, format_name, is_clausal, literal_prefix, text_refusal};
ghost use Rattle.pb_read.specs.Reading.{IsMemory};

use crate::dimacs::{read_cnf, read_icnf};
use crate::fault::ReadFault;
use crate::opb::read_opb;
use pb_inst::{Cube, Instance};
use std::alloc::Global;
use std::vec::Vec;

/// The format of an instance's text.
#[derive(Clone, Copy, Debug, PartialEq, Eq)]
pub enum Format {
    /// The linear format of the Pseudo-Boolean Competition.
    Opb,
    /// DIMACS CNF.
    Cnf,
    /// Clauses and then lines of cubes, under the header `p inccnf`.
    Icnf,
}

impl Format {
    /// The name that a command line gives it.
    pub fn name(self) -> &'static str
        ensures { result.now ≡ format_name self }
    {
        match self {
            Format::Opb => "opb",
            Format::Cnf => "cnf",
            Format::Icnf => "icnf",
        }
    }

    /// Whether every constraint that it can spell is a clause, a list of numbers that `0` ends.
    pub fn is_clausal(self) -> bool
        ensures { result ≡ is_clausal self }
    {
        match self {
            Format::Opb => false,
            Format::Cnf | Format::Icnf => true,
        }
    }

    /// What a line of values has before the number of a variable with this value: a space, and the literal's sign and name.
    pub fn literal_prefix(self, value: bool) -> &'static [u8]
        ensures { result.now ≡ literal_prefix self value }
    {
        match (self, value) {
            (Format::Opb, true) => b" x",
            (Format::Opb, false) => b" -x",
            (Format::Cnf | Format::Icnf, true) => b" ",
            (Format::Cnf | Format::Icnf, false) => b" -",
        }
    }

    /// What a line of values has behind its literals.
    pub fn ending(self) -> &'static [u8]
        ensures { result.now ≡ ending self }
    {
        match self {
            Format::Opb => b"",
            Format::Cnf | Format::Icnf => b" 0",
        }
    }
}

/// The instance and the cubes that a text in the format spells; every other text is refused with its first fault.
/// Only iCNF has cubes, and they are of the instance's variables.
pub fn read(alloc: Global, format: Format, text: &[u8]) -> Result<(Instance, Vec<Cube>), ReadFault>
    ensures found { IfOk result (λ r. Spells format text.now r.0 r.1.items) }
    ensures within { IfOk result (λ r. All (λ cube. All (λ l. l.var ≤ r.0.vars) cube) r.1.items) }
    ensures only { (i : Problem) (cubes : List (List Literal)) → Spells format text.now i cubes → MatchResult result (λ r. (r.0 ≡ i) × (r.1.items ≡ cubes)) (λ f. IsMemory f) }
    ensures refused { IfErr result (λ f. IsMemory f ⊎ (text_refusal format text.now ≡ Some f)) }
{
    match format {
        Format::Opb => {
            let instance = read_opb(alloc, text)?;
            Ok((instance, Vec::new(alloc)))
        }
        Format::Cnf => {
            let instance = read_cnf(alloc, text)?;
            Ok((instance, Vec::new(alloc)))
        }
        Format::Icnf => read_icnf(alloc, text),
    }
}
