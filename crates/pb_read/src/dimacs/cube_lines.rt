//! Reading lines of cubes.
//! Source: [ICNF]
ghost use Rattle.std.specs.Prelude.{◌≡◌, ◌≤◌, ◌<◌, ◌+◌, ◌^◌, ◌∷◌, ◌++◌, ◌⊎◌, [], List, ℕ, OnOk, IfOk, IfErr, Some, None, length, fold, max, codes, option_map};
ghost use Rattle.pb_inst.specs.declared.limits.TheConstants.{MAX_VARS};
ghost use Rattle.pb_inst.specs.Literal.{Literal};
ghost use Rattle.pb_read.specs.Text.{Placed, is_text, items};
ghost use Rattle.pb_read.specs.Refusal.{first_kind, first_fault};
ghost use Rattle.pb_read.specs.Cubes.{CubeLines, cube_faults, is_cube_line};
ghost use Rattle.pb_read.specs.ClauseReading.{CubesRead, IsAfterA, IsNextLine, content_from};
ghost use Rattle.pb_read.specs.Reading.{IsMemory};

use crate::dimacs::clause_reader::greatest_var;
use crate::dimacs::content_lines::ContentLines;
use crate::dimacs::scan::Scan;
use crate::dimacs::word::next_word;
use crate::fault::{ReadFault, ReadKind};
use pb_inst::{Cube, MAX_CUBES, MAX_TERMS, MAX_VARS};
use std::alloc::Global;
use std::vec::Vec;

/// Whether the word is `a`, with which a cube line begins.
fn is_a(word: &[u8]) -> bool
    ensures { result ≡ is_text (codes "a") word.now }
{
    word == b"a".as_slice()
}

/// What stands after the `a` of a cube line.
fn after_a(line: &[u8]) -> Option<&[u8]>
    ensures { IsAfterA line.now (option_map (λ r. r.now) result) }
{
    let (first, words) = next_word(line)?;
    if !is_a(first) {
        return None;
    }
    Some(words)
}

/// Whether the first word of the line is `a`.
pub(crate) fn is_cube_line(line: &[u8]) -> bool
    ensures { result ≡ is_cube_line line.now }
{
    match after_a(line) {
        Some(_) => true,
        None => false,
    }
}

/// What has been read of a list of cubes.
pub(crate) struct CubeReader {
    pub(crate) cubes: Vec<Cube>,
    pub(crate) literal_count: usize,
    pub(crate) scan: Scan,
}

impl Drop for CubeReader {
    fn drop(self) {
        let CubeReader {
            cubes: _,
            literal_count: _,
            scan: _,
        } = self;
    }
}

impl CubeReader {
    /// A reader that has read no cube. Its cubes are over the variables up to the limit.
    pub(crate) fn new(alloc: Global, limit: u32) -> CubeReader
        ensures limit { result.scan.limit ≡ limit }
        ensures none { CubesRead result.scan.limit result.cubes.items result.literal_count [] }
    {
        CubeReader {
            cubes: Vec::new(alloc),
            literal_count: 0,
            scan: Scan::new(alloc, limit),
        }
    }

    /// Reads the next cube line. Any other line is the fault `other`.
    pub(crate) fn take_line(
        &mut self,
        alloc: Global,
        line: &[u8],
        number: u64,
        other: ReadKind,
    ) -> Result<(), ReadFault>
        requires limit { self.old.scan.limit ≤ MAX_VARS }
        ensures same_limit { self.new.scan.limit ≡ self.old.scan.limit }
        ensures ok { (earlier : List (List ℕ)) → CubesRead self.old.scan.limit self.old.cubes.items self.old.literal_count earlier
            → OnOk result (CubesRead self.new.scan.limit self.new.cubes.items self.new.literal_count (earlier ++ line.now ∷ []) × (first_kind (cube_faults other self.old.scan.limit earlier line.now) ≡ None)) }
        ensures err { (earlier : List (List ℕ)) → CubesRead self.old.scan.limit self.old.cubes.items self.old.literal_count earlier
            → IfErr result (λ f. IsMemory f ⊎ ((f.line ≡ number) × (first_kind (cube_faults other self.old.scan.limit earlier line.now) ≡ Some f.kind))) }
    {
        let Some(words) = after_a(line) else {
            return Err(ReadFault {
                kind: other,
                line: number,
            });
        };
        self.scan.restart();
        let Ok(()) = self.scan.take_words(words) else {
            return Err(ReadFault::MEMORY);
        };
        let total = self.literal_count.saturating_add(self.scan.literals.len());
        let too_many = (self.cubes.len() + 1 > MAX_CUBES) | (total > MAX_TERMS);
        if let Some(kind) = self.scan.fault(too_many) {
            return Err(ReadFault { kind, line: number });
        }
        // Room comes first, so that nothing can fail once the cube is there.
        let Ok(()) = self.cubes.reserve(1) else {
            return Err(ReadFault::MEMORY);
        };
        let Ok(cube) = Cube::new(alloc, &self.scan.literals) else {
            return Err(ReadFault::MEMORY);
        };
        self.cubes.push_reserved(cube);
        self.literal_count = total;
        Ok(())
    }

    /// The cubes so far.
    pub(crate) fn into_cubes(self) -> Vec<Cube>
        ensures { result.items ≡ self.cubes.items }
    {
        let CubeReader {
            cubes,
            literal_count: _,
            scan: _,
        } = self;
        cubes
    }

    /// Reads the cube lines that are left.
    pub(crate) fn take_rest(
        &mut self,
        alloc: Global,
        lines: &mut ContentLines,
        other: ReadKind,
    ) -> Result<(), ReadFault>
        requires limit { self.old.scan.limit ≤ MAX_VARS }
        requires counted { lines.old.before + length lines.old.rest < 2 ^ 64 }
        ensures ok { (earlier : List (Placed (List ℕ))) → CubesRead self.old.scan.limit self.old.cubes.items self.old.literal_count (items earlier)
            → OnOk result (CubesRead self.old.scan.limit self.new.cubes.items self.new.literal_count (items (earlier ++ content_from (lines.old.before + 1) lines.old.rest))) }
        ensures err { (earlier : List (Placed (List ℕ))) → CubesRead self.old.scan.limit self.old.cubes.items self.old.literal_count (items earlier)
            → IfErr result (λ f. IsMemory f ⊎ (first_fault (cube_faults other self.old.scan.limit) [] (earlier ++ content_from (lines.old.before + 1) lines.old.rest) ≡ Some f)) }
    {
        while let Some((line, number)) = lines.next() {
            self.take_line(alloc, line, number, other)?;
        }
        Ok(())
    }
}

/// The greatest variable of the cubes, and 0 where there is none.
pub(crate) fn greatest_var_of(cubes: &[Cube]) -> u32
    ensures { result ≡ fold (λ (n : ℕ) (c : List Literal). max n (fold (λ (n : ℕ) (l : Literal). max n l.var) 0 c)) 0 cubes.now }
{
    cubes.iter().fold(0, |greatest, cube| greatest.max(greatest_var(cube.lits())))
}

/// The cubes of the first line, which was taken already, and of the lines that are left. Each has to be a cube line.
pub(crate) fn read_cube_lines(
    alloc: Global,
    first: Option<(&[u8], u64)>,
    lines: &mut ContentLines,
) -> Result<Vec<Cube>, ReadFault>
    requires counted { lines.old.before + length lines.old.rest < 2 ^ 64 }
    ensures ok { (all : List (Placed (List ℕ))) → IsNextLine all (content_from (lines.old.before + 1) lines.old.rest) (option_map (λ r. (r.0.now, r.1)) first.entry)
        → IfOk result (λ cubes. CubeLines (items all) MAX_VARS cubes.items) }
    ensures err { (all : List (Placed (List ℕ))) → IsNextLine all (content_from (lines.old.before + 1) lines.old.rest) (option_map (λ r. (r.0.now, r.1)) first.entry)
        → IfErr result (λ f. IsMemory f ⊎ (first_fault (cube_faults ReadKind.ClauseAfterCube MAX_VARS) [] all ≡ Some f)) }
{
    let Some((line, number)) = first else {
        return Ok(Vec::new(alloc));
    };
    let mut reader = CubeReader::new(alloc, MAX_VARS);
    reader.take_line(alloc, line, number, ReadKind::ClauseAfterCube)?;
    reader.take_rest(alloc, lines, ReadKind::ClauseAfterCube)?;
    Ok(reader.into_cubes())
}
