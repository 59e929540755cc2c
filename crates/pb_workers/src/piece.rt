//! The search of a piece, below that of the whole.

ghost use Rattle.std.specs.Prelude.{◌≡◌, ◌≤◌, length, IfNone, IfSome, Some};
ghost use Rattle.pb_search.specs.Done.{IsDone};
ghost use Rattle.pb_search.specs.Held.{IsNotAfter};
ghost use Rattle.pb_workers.specs.Sharing.{KeepsClaims};

use crate::note_share::OuterShare;
use crate::sharing::BoardShare;
use pb_inst::Best;
use pb_search::{FIRST_TURNS, Outcome, Search, Share};

/// Searches a piece as `Search::run` does, and before it the root of the whole as far as `Search::begin` finds that due. So what a
/// search shows of the whole stands below each piece that the search goes through after it.
pub fn search_piece<S: Share>(
    search: &mut Search<'_>,
    piece: u32,
    best: &mut Best<'_>,
    share: &mut S,
    nodes: Option<u64>,
) -> Outcome
    requires piece { piece ≤ length search.old.division.cubes }
    requires same_instance { best.old.problem ≡ search.old.division.problem }
    ensures done { result ≡ Outcome.Whole → IsDone search.old.division piece best.new.held }
    ensures within { IfSome nodes (λ budget. search.new.decisions ≤ budget) }
    ensures cut { result ≡ Outcome.Cut → nodes ≡ Some search.new.decisions }
    ensures no_budget { IfNone nodes ((result ≡ Outcome.Whole) × (search.new ≡ search.old)) }
    ensures not_after { IsNotAfter search.old.division.problem best.old.held best.new.held }
    ensures kept { S.keeps share.old share.new }
    ensures same_instance { best.new.problem ≡ best.old.problem }
    ensures unchanged { search.new.division ≡ search.old.division }
{
    search.begin(best, share, FIRST_TURNS, nodes);
    search.run(piece, best, share, nodes)
}

/// Searches a piece in the same way without a budget, and answers `Cut` where others settled the whole before that was done.
pub fn search_piece_beside<S: OuterShare + Drop>(
    search: &mut Search<'_>,
    piece: u32,
    best: &mut Best<'_>,
    share: &mut BoardShare<'_, S>,
) -> Outcome
    requires piece { piece ≤ length search.old.division.cubes }
    requires same_instance { best.old.problem ≡ search.old.division.problem }
    ensures done { result ≡ Outcome.Whole → IsDone search.old.division piece best.new.held }
    ensures not_after { IsNotAfter search.old.division.problem best.old.held best.new.held }
    ensures kept { KeepsClaims share.old share.new }
    ensures same_instance { best.new.problem ≡ best.old.problem }
    ensures unchanged { search.new ≡ search.old }
{
    search.begin(best, share, FIRST_TURNS, None);
    // Where the whole was settled here, the piece is done at once.
    let is_settled = search.is_settled(best);
    if share.is_over() && !is_settled {
        return Outcome::Cut;
    }
    search.run_beside(piece, best, share)
}
