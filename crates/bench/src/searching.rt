//! Searches the instance of a text as a run does: before each piece the root of the whole as far as that is due. With a budget, which
//! is never used up, it counts decisions exactly. A search without one makes other decisions, and its share tells about how many.
//! Says on standard error what was found, how many decisions and how much time that took, how often the incumbent was improved, and
//! how often other searches were asked for theirs. A search of each piece anew knows nothing of the conflicts and multipliers of the
//! pieces before. Where there are cubes it says on standard output about how many of the decisions were made at the root of the
//! whole, the first phase, and before that, where it is asked to, what each piece took.

ghost use Rattle.std.specs.Prelude.{◌≡◌, ◌+◌, ◌≤◌, false, length, IfSome};

use crate::texts::instance_of;
use pb_clique::form_to_search;
use pb_cubes::{Pieces, split};
use pb_inst::{Assignment, Best, Instance, Number};
use pb_search::{FIRST_TURNS, Search, SearchTables, Share};
use std::alloc::Global;
use std::io;
use std::time::{CpuClock, Duration};

/// How many decisions a search makes from one question to the share to the next.
const INTERVAL: u64 = 256;

/// How an instance is searched.
#[derive(Clone, Copy)]
pub struct Way {
    /// Over how many variables it is split into pieces. Without a split it is one piece.
    pub k: u32,
    /// Whether each piece has a search of its own, and not all have one.
    pub is_anew: bool,
    /// Whether a line tells of each piece.
    pub is_told: bool,
    /// Whether the search has a budget, which is never used up. It then counts its decisions, and takes a bound before each.
    pub is_counted: bool,
}

impl Way {
    /// The budget of each search, where it has one.
    fn budget(self) -> Option<u64> {
        if self.is_counted {
            Some(u64::MAX)
        } else {
            None
        }
    }
}

/// Counts the assignments that it is offered, and how often it is asked for one, and lends nothing.
#[derive(Clone, Copy)]
struct Counter {
    offered: u64,
    asked: u64,
}

impl Share for Counter {
    ghost keeps = { λ _ _. Unit {0} };

    ghost lends = { λ _. false };

    ghost keeps_itself = { λ _. tt };

    ghost keeps_onward = { λ _ _ _ _ _. tt };

    fn offer(&mut self, _cost: Number, _assignment: &Assignment) {
        self.offered = self.offered.saturating_add(1);
    }

    fn borrow(&mut self, _below: Number, _into: &mut Assignment) -> bool {
        self.asked = self.asked.saturating_add(1);
        false
    }

    fn is_over(&self) -> bool {
        false
    }
}

/// The remainder of no cubes where k is 0, and else the pieces of the split; none where there is no such split.
fn pieces_of(alloc: Global, instance: &Instance, k: u32) -> Option<Pieces>
    ensures { IfSome result (λ pieces. pieces.vars ≡ instance.now.vars) }
{
    if k == 0 {
        return Pieces::new(instance.vars(), Vec::new(alloc)).ok();
    }
    let cubes = split(alloc, instance, k).ok()?;
    Pieces::new(instance.vars(), cubes).ok()
}

/// How many decisions were made, and the processor time that they took.
#[derive(Clone, Copy)]
struct Spent {
    decisions: u64,
    taken: Duration,
}

impl Spent {
    fn none() -> Spent {
        Spent {
            decisions: 0,
            taken: Duration::ZERO,
        }
    }

    /// Both together.
    fn plus(self, more: Spent) -> Spent {
        Spent {
            decisions: self.decisions.saturating_add(more.decisions),
            taken: self.taken.saturating_add(more.taken),
        }
    }
}

/// What a measured search found, what the first phase and the pieces took, and what its share counted.
#[derive(Clone, Copy)]
struct Measured {
    cost: Option<Number>,
    first: Spent,
    pieces: Spent,
    counter: Counter,
}

impl Measured {
    /// Nothing has been searched.
    fn none() -> Measured {
        Measured {
            cost: None,
            first: Spent::none(),
            pieces: Spent::none(),
            counter: Counter {
                offered: 0,
                asked: 0,
            },
        }
    }
}

/// Where pieces are told of, searches the root of the whole as far as that is due, as a run does, and says about how many decisions
/// that made: the share is asked at the beginning and after each interval. None where the clock is refused.
fn begin(
    rt: &HostRuntime,
    search: &mut Search<'_>,
    best: &mut Best<'_>,
    is_told: bool,
    counter: &mut Counter,
) -> Option<Spent>
    requires same_instance { best.old.problem ≡ search.old.division.problem }
    ensures same_instance { best.new.problem ≡ best.old.problem }
    ensures unchanged { search.new ≡ search.old }
{
    if !is_told {
        return Some(Spent::none());
    }
    let asked = counter.asked;
    let start = rt.process_cpu_time().ok()?;
    search.begin(best, counter, FIRST_TURNS, None);
    let taken = rt.process_cpu_time().ok()?.saturating_sub(start);
    Some(Spent {
        decisions: decisions_since(asked, counter),
        taken,
    })
}

/// About how many decisions a search made that began when the share had been asked as often as this.
fn decisions_since(asked: u64, counter: &Counter) -> u64 {
    let intervals = counter.asked.saturating_sub(asked).saturating_sub(1);
    intervals.saturating_mul(INTERVAL)
}

/// Searches the piece, and before it the root of the whole as far as that is due. Says what the root took and what the piece took;
/// none where the clock is refused.
fn search_piece(
    rt: &HostRuntime,
    search: &mut Search<'_>,
    piece: u32,
    best: &mut Best<'_>,
    way: Way,
    counter: &mut Counter,
) -> Option<(Spent, Spent)>
    requires piece { piece ≤ length search.old.division.cubes }
    requires same_instance { best.old.problem ≡ search.old.division.problem }
    ensures same_instance { best.new.problem ≡ best.old.problem }
    ensures unchanged { search.new.division ≡ search.old.division }
{
    let first = begin(rt, search, best, way.is_told, counter)?;
    let asked = counter.asked;
    let budget = way.budget();
    let start = rt.process_cpu_time().ok()?;
    search.run(piece, best, counter, budget);
    let taken = rt.process_cpu_time().ok()?.saturating_sub(start);
    let decisions = if way.is_counted {
        search.decisions()
    } else {
        decisions_since(asked, counter)
    };
    Some((first, Spent { decisions, taken }))
}

/// Tells what the piece took.
fn tell_piece(rt: &HostRuntime, piece: u32, spent: Spent) -> io::Result<()> {
    let Spent { decisions, taken } = spent;
    let seconds = taken.as_secs_f64();
    println!(rt; "piece {piece}: {decisions} decisions, {seconds:.6} s")
}

/// Searches the pieces from `first` up to `end` in order, and adds what that took to what was measured; none where the clock or a
/// line is refused.
fn search_pieces(
    rt: &HostRuntime,
    search: &mut Search<'_>,
    first: u32,
    end: u32,
    best: &mut Best<'_>,
    way: Way,
    measured: &mut Measured,
) -> Option<()>
    requires pieces { end ≤ length search.old.division.cubes + 1 }
    requires same_instance { best.old.problem ≡ search.old.division.problem }
    ensures same_instance { best.new.problem ≡ best.old.problem }
{
    for piece in first..end {
        let (root, spent) = search_piece(rt, search, piece, best, way, &mut measured.counter)?;
        measured.first = measured.first.plus(root);
        measured.pieces = measured.pieces.plus(spent);
        if way.is_told {
            tell_piece(rt, piece, spent).ok()?;
        }
    }
    measured.cost = best.cost();
    Some(())
}

/// Searches the pieces from `first` up to `end` with a search of their own, as `search_pieces` does; none where memory is refused
/// either.
fn search_range(
    rt: &HostRuntime,
    tables: &SearchTables<'_>,
    first: u32,
    end: u32,
    best: &mut Best<'_>,
    way: Way,
    measured: &mut Measured,
) -> Option<()>
    requires pieces { end ≤ length tables.now.cubes + 1 }
    requires same_instance { best.old.problem ≡ tables.now.problem }
    ensures same_instance { best.new.problem ≡ best.old.problem }
{
    let mut search = Search::over(rt.alloc(), tables).ok()?;
    search_pieces(rt, &mut search, first, end, best, way, measured)
}

/// Searches the pieces below `count`, each anew or all with one search.
fn search_all(
    rt: &HostRuntime,
    tables: &SearchTables<'_>,
    count: u32,
    way: Way,
    best: &mut Best<'_>,
) -> Option<Measured>
    requires pieces { count ≤ length tables.now.cubes + 1 }
    requires same_instance { best.old.problem ≡ tables.now.problem }
{
    let mut measured = Measured::none();
    let searches = if way.is_anew { count } else { 1 };
    for i in 0..searches {
        let (first, end) = if way.is_anew { (i, i + 1) } else { (0, count) };
        search_range(rt, tables, first, end, best, way, &mut measured)?;
    }
    Some(measured)
}

/// Searches the pieces of the instance.
fn measure_pieces(
    rt: &HostRuntime,
    instance: &Instance,
    pieces: &Pieces,
    way: Way,
) -> Option<Measured>
    requires { pieces.now.vars ≡ instance.now.vars }
{
    let Ok(normal) = form_to_search(rt.alloc(), instance, way.budget()) else {
        return None;
    };
    let tables = SearchTables::new(rt.alloc(), instance, &normal, pieces).ok()?;
    let mut best = Best::none(rt.alloc(), instance).ok()?;
    search_all(rt, &tables, pieces.len(), way, &mut best)
}

/// Searches the instance in this way; none where memory, the clock or a line is refused, or there is no such split.
fn measure(rt: &HostRuntime, instance: &Instance, way: Way) -> Option<Measured> {
    let pieces = pieces_of(rt.alloc(), instance, way.k)?;
    measure_pieces(rt, instance, &pieces, way)
}

/// Searches the text's instance, as `measure` does; none where the text cannot be read either.
fn measure_text(rt: &HostRuntime, text: &[u8], way: Way) -> Option<Measured> {
    let instance = instance_of(rt.alloc(), text)?;
    measure(rt, &instance, way)
}

/// Tells what the first phase took.
fn tell_first(rt: &HostRuntime, first: Spent) -> io::Result<()> {
    let Spent { decisions, taken } = first;
    let seconds = taken.as_secs_f64();
    println!(rt; "first phase: about {decisions} decisions, {seconds:.6} s")
}

/// Tells what was found, and what all searches together took.
fn tell(rt: &HostRuntime, measured: Measured) -> io::Result<()> {
    let Measured {
        cost,
        first,
        pieces,
        counter: Counter { offered, asked },
    } = measured;
    let Spent { decisions, taken } = first.plus(pieces);
    eprintln!(rt;
        "cost {cost:?}, {decisions} decisions, searched in {taken:?}, {offered} improvements, asked {asked} times"
    )
}

/// Searches the text's instance in this way.
pub fn run(rt: &HostRuntime, text: &[u8], way: Way) -> io::Result<()> {
    let Some(measured) = measure_text(rt, text, way) else {
        return eprintln!(rt; "the text cannot be searched");
    };
    if way.is_told {
        tell_first(rt, measured.first)?;
    }
    tell(rt, measured)
}
