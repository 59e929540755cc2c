//! The whole work of one worker, which claims pieces and searches them.
//! Source: [G69]
ghost use Rattle.std.specs.Prelude.{◌≡◌, ◌<◌, ◌≤◌, ◌⊎◌, ℕ, false, ◌+◌, ◌^◌, ◌++◌, ◌∷◌, [], length, Option, All, IfOk, IfSome, IfNone};
ghost use Rattle.pb_normal.specs.NormalForm.{KeepsCost, KeepsFeasible};
ghost use Rattle.pb_search.specs.Done.{IsDone};
ghost use Rattle.pb_search.specs.Held.{IsNotAfter};
ghost use Rattle.pb_workers.specs.Claims.{AreNamed, EndsPast, IsWholeWork, IsWorkWith, MayWork, pieces_among};
ghost use Rattle.pb_workers.specs.Dealing.{has_claims, numbers_for};
ghost use Rattle.std.specs.Option.{option_map};
ghost use Rattle.pb_workers.specs.Parts.{AreCounted};
ghost use Rattle.pb_workers.specs.Sharing.{KeepsClaims, SameSeat};

use crate::facts::facts_of;
use crate::gate::Gate;
use crate::named::{Grant, Named};
use crate::note_share::{Correspondence, NoNotes, NoteShare, OuterShare};
use crate::part::Part;
use crate::piece::{search_piece, search_piece_beside};
use crate::sharing::BoardShare;
use crate::task::{Task, numbers_of, piece_at};
use crate::worker_set::WorkerSet;
use pb_board::{Board, Seat};
use pb_cubes::Pieces;
use pb_inst::{Best, Instance, Memory};
use pb_normal::Normal;
use pb_notes::Notes;
use pb_search::{FIRST_TURNS, LONG_TURNS, Outcome, Search, SearchTables};
use std::alloc::Global;

/// The whole work of one worker. It claims numbers from the board until it gets one that is no piece. It tells the gate of each
/// piece that it got, and then searches it with at most `nodes` decisions, where there is such a budget. The part names exactly
/// the claims of the answered seat that are pieces, as done or as cut by the budget, either kind in order. With a budget it
/// tells the decisions of each search: no more than the budget, and all of it where the piece was cut. The worker builds the
/// tables of its searches for itself; where many share them, `solve` lends them.
///
/// Asks for a normal form of the instance, pieces over its variables, a seat of this board without claims, a board for the
/// instance's variables, and a worker below the board's number of workers. At `Memory` the seat is dropped.
pub fn work<'i, G: Gate + Sync>(
    alloc: Global,
    inst: &'i Instance,
    normal: &Normal,
    pieces: &'i Pieces,
    board: &Board,
    seat: Seat,
    worker: u32,
    gate: &G,
    nodes: Option<u64>,
) -> Result<(Part<'i>, Seat), Memory>
    requires vars { normal.now.vars ≡ inst.now.vars }
    requires feasible { KeepsFeasible inst.now normal.now }
    requires costs { KeepsCost inst.now normal.now }
    requires pieces { pieces.now.vars ≡ inst.now.vars }
    requires seat { seat.board ≡ board.now.id }
    requires unclaimed { seat.claimed ≡ [] }
    requires board { board.now.vars ≡ inst.now.vars }
    requires worker { worker < board.now.workers }
    ensures whole { IfOk result (λ done. IsWholeWork inst.now pieces.now None nodes done.0 done.1.claimed) }
    ensures seat { IfOk result (λ done. (done.1.board ≡ board.now.id) × (done.1.parts ≡ seat.parts)) }
    ensures claims { IfOk result (λ done. length done.1.claimed ≤ 2 ^ 32) }
{
    let tables = SearchTables::new(alloc, inst, normal, pieces)?;
    let no_notes = None::<&Correspondence<'_, NoNotes>>;
    let set = SearchWorkers::new(
        inst, pieces, &tables, board, no_notes, gate, None, nodes, false,
    );
    set.work_of(alloc, seat, worker)
}

/// Workers who search the pieces, or those that a task is dealt or claims, each with engines of its own over the one set of tables. What a
/// worker changes is its own. Beside the board they exchange notes, where the task does.
#[derive(Drop)]
pub(crate) struct SearchWorkers<'a, 'i, N, G> {
    inst: &'i Instance,
    pieces: &'i Pieces,
    tables: &'a SearchTables<'a>,
    board: &'a Board,
    notes: Option<&'a Correspondence<'a, N>>,
    gate: &'a G,
    task: Option<Task>,
    nodes: Option<u64>,
    // whether one worker stays with the whole, and who comes to its end first ends the search of all
    is_race: bool,
    ghost tables_of_all: { tables.now ≡ record { problem = inst.now; cubes = pieces.now.cubes } },
    ghost board_vars: { board.now.vars ≡ inst.now.vars },
}

impl<'a, 'i, N: Notes, G: Gate> SearchWorkers<'a, 'i, N, G> {
    /// The set over tables of the instance and the pieces, on a board for the instance's variables.
    pub(crate) fn new(
        inst: &'i Instance,
        pieces: &'i Pieces,
        tables: &'a SearchTables<'a>,
        board: &'a Board,
        notes: Option<&'a Correspondence<'a, N>>,
        gate: &'a G,
        task: Option<Task>,
        nodes: Option<u64>,
        is_race: bool,
    ) -> SearchWorkers<'a, 'i, N, G>
        requires tables { tables.now ≡ record { problem = inst.now; cubes = pieces.now.cubes } }
        requires board { board.now.vars ≡ inst.now.vars }
        ensures lent { (result.inst.now ≡ inst.now) × (result.pieces.now ≡ pieces.now) × (result.board.now ≡ board.now) × (result.nodes ≡ nodes) × (result.task ≡ task) × (result.is_race ≡ is_race) }
    {
        SearchWorkers {
            inst,
            pieces,
            tables,
            board,
            notes,
            gate,
            task,
            nodes,
            is_race,
        }
    }

    /// The whole work of the worker of this number. Asks for a seat of the board without claims, and a worker below the board's
    /// number of workers. At `Memory` the seat is dropped.
    fn work_of(&self, alloc: Global, seat: Seat, worker: u32) -> Result<(Part<'i>, Seat), Memory>
        requires { MayWork self.now.board.now seat worker }
        ensures { IfOk result (λ done. IsWorkWith self.now.inst.now self.now.pieces.now self.now.task self.now.nodes self.now.is_race seat done.0 done.1) }
    {
        let mut best = Best::none(alloc, self.inst)?;
        let mut search = Search::over(alloc, self.tables)?;
        let workers = self.board.workers().get();
        let beyond = NoteShare::new(alloc, self.notes, self.inst.vars(), worker, workers)?;
        let mut share = BoardShare::beside(self.board, seat, worker, beyond);
        self.begin(&mut search, &mut best, &mut share);
        let count = self.pieces.len();
        let named = self.search_claimed(alloc, &mut search, count, &mut best, &mut share)?;
        let is_settled = search.is_settled(&best);
        let part = Part::new(self.pieces, named, best, is_settled);
        Ok((part, share.into_seat()))
    }

    /// In a race, begins the search of the whole: the first worker stays with it, at first apart from the others, and who comes to its
    /// end tells them. Without a race this is left to the search of the first piece, so that a worker without pieces searches nothing.
    fn begin<S: OuterShare + Drop>(
        &self,
        search: &mut Search<'_>,
        best: &mut Best<'_>,
        share: &mut BoardShare<'_, S>,
    )
        requires same_instance { best.old.problem ≡ search.old.division.problem }
        ensures same_instance { best.new.problem ≡ best.old.problem }
        ensures unchanged { search.new ≡ search.old }
        ensures kept { KeepsClaims share.old share.new }
    {
        if !self.is_race {
            return;
        }
        let turns = if share.worker() == 0 {
            share.stay_apart();
            LONG_TURNS
        } else {
            FIRST_TURNS
        };
        search.begin(best, share, turns, self.nodes);
        if search.is_settled(best) {
            share.tell_whole();
        }
    }

    /// Searches a piece, within the budget where there is one. In a race it answers `Cut` where the whole is settled first.
    fn search_one<S: OuterShare + Drop>(
        &self,
        search: &mut Search<'_>,
        piece: u32,
        best: &mut Best<'_>,
        share: &mut BoardShare<'_, S>,
    ) -> Outcome
        requires piece { piece ≤ length search.old.division.cubes }
        requires same_instance { best.old.problem ≡ search.old.division.problem }
        ensures done { result ≡ Outcome.Whole → IsDone search.old.division piece best.new.held }
        ensures uncut { self.now.is_race ≡ false → IfNone self.now.nodes (result ≡ Outcome.Whole) }
        ensures within { IfSome self.now.nodes (λ budget. search.new.decisions ≤ budget) }
        ensures cut { IfSome self.now.nodes (λ budget. result ≡ Outcome.Cut → budget ≡ search.new.decisions) }
        ensures not_after { IsNotAfter search.old.division.problem best.old.held best.new.held }
        ensures kept { KeepsClaims share.old share.new }
        ensures same_instance { best.new.problem ≡ best.old.problem }
        ensures unchanged { search.new.division ≡ search.old.division }
    {
        match self.nodes {
            None if self.is_race => search_piece_beside(search, piece, best, share),
            nodes => search_piece(search, piece, best, share, nodes),
        }
    }

    /// Searches the pieces for which the share claims numbers and which it is granted, each within the budget, and answers their
    /// numbers.
    fn search_claimed<S: OuterShare + Drop>(
        &self,
        alloc: Global,
        search: &mut Search<'_>,
        count: u32,
        best: &mut Best<'_>,
        share: &mut BoardShare<'_, S>,
    ) -> Result<Named, Memory>
        requires count { count ≡ length search.old.division.cubes + 1 }
        requires same_instance { best.old.problem ≡ search.old.division.problem }
        requires unclaimed { share.old.seat.claimed ≡ [] }
        ensures same_instance { best.new.problem ≡ best.old.problem }
        ensures done { IfOk result (λ named. All (λ i. IsDone search.old.division i best.new.held) named.done.items) }
        ensures named { IfOk result (λ named. AreNamed (has_claims self.now.task) (pieces_among self.now.task count share.new.seat.claimed) named.done.items named.cut.items) }
        ensures uncut { IfOk result (λ named. self.now.is_race ≡ false → IfNone self.now.nodes (named.cut.items ≡ [])) }
        ensures budget { IfOk result (λ named. IfSome self.now.nodes (λ budget. AreCounted budget named.done.items named.decisions.items named.cut.items named.cut_decisions.items)) }
        ensures most { IfOk result (λ named. length share.new.seat.claimed ≤ numbers_for self.now.task count + 1) }
        ensures ends { IfOk result (λ named. EndsPast (numbers_for self.now.task count) share.new.seat.claimed ⊎ (length share.new.seat.claimed ≡ numbers_for self.now.task count + 1)) }
        ensures claims { IfOk result (λ named. length share.new.seat.claimed ≤ 2 ^ 32) }
        ensures seat { SameSeat share.old share.new }
        ensures unchanged { search.new.division ≡ search.old.division }
    {
        let mut named = Named::new(alloc);
        let numbers = numbers_of(&self.task, count);
        for _turn in 0..u64::from(numbers) + 1 {
            let Some(number) = claim_number(share, numbers) else {
                return Ok(named);
            };
            let Some(piece) = piece_at(&self.task, count, number) else {
                continue;
            };
            // Memory is asked for before the piece is granted and searched, so that a refusal loses no finished work.
            named.reserve(self.nodes)?;
            let Some(grant) = Grant::ask(share, &self.task, piece) else {
                continue;
            };
            self.gate.pass(share.worker(), grant.piece());
            let outcome = self.search_one(search, grant.piece(), best, share);
            // The proof learns by this call that what is held is a solution, so a piece that is done stays done.
            facts_of(best);
            named.push_reserved(grant, outcome, decisions_of(search, self.nodes));
        }
        Ok(named)
    }
}

impl<'a, 'i, N: Notes, G: Gate> WorkerSet for SearchWorkers<'a, 'i, N, G> {
    ghost problem = { λ c. c.inst.now };

    ghost pieces = { λ c. c.pieces.now };

    ghost meets_on = { λ c. c.board.now };

    ghost task = { λ c. c.task };

    ghost nodes = { λ c. c.nodes };

    ghost race = { λ c. c.is_race };

    fn board(&self) -> &Board {
        self.board
    }

    fn work(&self, alloc: Global, seat: Seat, worker: u32) -> Result<(Part<'_>, Seat), Memory> {
        self.work_of(alloc, seat, worker)
    }
}

/// How many decisions the last search made, where it had a budget.
fn decisions_of(search: &Search<'_>, nodes: Option<u64>) -> Option<u64>
    ensures { result ≡ option_map (λ _. search.now.decisions) nodes }
{
    match nodes {
        Some(_) => Some(search.decisions()),
        None => None,
    }
}

/// Claims the next number, and answers it where it is one of these.
fn claim_number<S: OuterShare + Drop>(share: &mut BoardShare<'_, S>, numbers: u32) -> Option<u32>
    requires { length share.old.seat.claimed < 2 ^ 32 }
    ensures number { IfSome result (λ number. (number < numbers) × (share.new.seat.claimed ≡ share.old.seat.claimed ++ number ∷ [])) }
    ensures none { IfNone result ((number : ℕ) × (numbers ≤ number) × (share.new.seat.claimed ≡ share.old.seat.claimed ++ number ∷ [])) }
    ensures one { length share.new.seat.claimed ≡ length share.old.seat.claimed + 1 }
    ensures seat { SameSeat share.old share.new }
{
    let number = share.claim();
    if number < u64::from(numbers) {
        Some(number as u32)
    } else {
        share.tell_end(numbers, number);
        None
    }
}
