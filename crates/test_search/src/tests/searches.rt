//! Searches of whole instances.

ghost use Rattle.std.specs.Prelude.{◌≡◌};

use super::lenders::Lender;
use super::values::{Values, holding, told};
use pb_cubes::Pieces;
use pb_inst::{Best, Instance, Number};
use pb_normal::normalise;
use pb_search::{Outcome, Search};
use std::alloc::Global;
use std::process::Abort;

/// The budget of a run, whether it is cut, and the decisions that the search tells then.
pub type Run = (Option<u64>, bool, u64);

/// A run without a budget, which counts nothing.
pub const WHOLE: Run = (None, false, 0);

/// Searches with each budget, one after the other. Answers whether each run ends as it must.
fn run_each(
    search: &mut Search<'_>,
    runs: &[Run],
    best: &mut Best<'_>,
    share: &mut Lender<'_>,
) -> bool
    requires { best.old.problem ≡ search.old.division.problem }
    ensures { best.new.problem ≡ best.old.problem }
{
    let mut is_right = true;
    for (budget, is_cut, decisions) in runs {
        let outcome = search.run(0, best, share, *budget);
        is_right &= (outcome == Outcome::Cut) == *is_cut && search.decisions() == *decisions;
    }
    is_right
}

/// Makes a search of the whole instance, and runs it as `run_each` does.
pub fn search_each(
    rt: &impl Abort,
    alloc: Global,
    instance: &Instance,
    runs: &[Run],
    best: &mut Best<'_>,
    share: &mut Lender<'_>,
) -> bool
    requires { best.old.problem ≡ instance.now }
    ensures { best.new.problem ≡ best.old.problem }
{
    let pieces = Pieces::new(instance.vars(), Vec::new(alloc)).expect(rt, "pieces");
    let normal = normalise(alloc, instance).expect(rt, "memory");
    let mut search = Search::new(alloc, instance, &normal, &pieces).expect(rt, "memory");
    run_each(&mut search, runs, best, share)
}

/// What is held after a search of the whole instance, where these values are held before, if any are.
pub fn found_after(
    rt: &impl Abort,
    alloc: Global,
    instance: &Instance,
    held: Option<Values>,
    share: &mut Lender<'_>,
) -> Option<(Number, u64, u64)> {
    let mut best = holding(rt, alloc, instance, held);
    assert!(rt; search_each(rt, alloc, instance, &[WHOLE], &mut best, share));
    told(&best)
}
