//! The state of a search.

ghost use Rattle.std.specs.Prelude.{◌≡◌, ◌++◌, ◌≤◌, All, IfOk, length, vec_capacity};
ghost use Rattle.std.specs.Arc.{arc_value};
ghost use Rattle.pb_inst.specs.declared.limits.TheConstants.{MAX_CUBES};
ghost use Rattle.pb_engine.specs.Tables.{AreBeside};
ghost use Rattle.pb_subtree.specs.Made.{IsMade};

use pb_control::{Branch, Hints, RootWork};
use pb_dive::DivePath;
use pb_engine::{Clauses, Coefficient, EngineAt, Rows, TablesSource};
use pb_inst::{Assignment, Cube, Memory};
use pb_normal::Form;
use pb_order::Order;
use std::alloc::Global;
use std::sync::Arc;

/// An engine, the decisions on its trail, room for one assignment, the order in which variables are decided, and what is kept for
/// work at the root and for dives. All room is made before a search, so that no node takes memory.
pub struct SearchState<C: Coefficient> {
    pub engine: EngineAt<C>,
    pub branches: Vec<Branch>,
    pub candidate: Assignment,
    pub order: Order,
    pub root_work: RootWork,
    pub dive: DivePath,
}

impl<C: Coefficient> Drop for SearchState<C> {
    fn drop(self) {
        let SearchState {
            engine: _,
            branches: _,
            candidate: _,
            order: _,
            root_work: _,
            dive: _,
        } = self;
    }
}

impl<C: Coefficient> SearchState<C> {
    /// A state over the normal form, whose solutions make each of the cubes false. There may be `MAX_CUBES` of them.
    pub fn new(alloc: Global, form: &Form<C>, negated: &[Cube]) -> Result<SearchState<C>, Memory>
        requires few { length negated.now ≤ MAX_CUBES }
        requires variables { All (λ cube. All (λ l. l.var ≤ form.now.vars) cube) negated.now }
        ensures { IfOk result (IsMade form.now negated.now) }
    {
        // The engine comes last: an early return past it would let go of it field by field, and cost a minute to prove.
        let (branches, candidate, order, dive) = make_room(alloc, form, negated)?;
        let root_work = work_for(form, negated);
        let engine = EngineAt::new(alloc, form, negated)?;
        Ok(SearchState {
            engine,
            branches,
            candidate,
            order,
            root_work,
            dive,
        })
    }

    /// A state over shared rows and clauses. The clauses say already that the cubes `negated` are false, so only the order of
    /// decisions and the work at the root go by these.
    pub fn over(
        alloc: Global,
        rows: &Arc<Rows<C>, Global>,
        clauses: &Arc<Clauses, Global>,
        negated: &[Cube],
    ) -> Result<SearchState<C>, Memory>
        requires { AreBeside (arc_value rows.now) (arc_value clauses.now) }
        ensures form { IfOk result (λ t. t.engine.form ≡ (arc_value rows.now).form) }
        ensures vars { IfOk result (λ t. t.engine.vars ≡ (arc_value rows.now).form.vars) }
        ensures rows { IfOk result (λ t. t.engine.rows ≡ (arc_value rows.now).form.rows ++ (arc_value clauses.now).rows) }
        ensures candidate { IfOk result (λ t. length t.candidate ≡ (arc_value rows.now).form.vars) }
        ensures room { IfOk result (λ t. (arc_value rows.now).form.vars ≤ vec_capacity t.branches) }
    {
        let (branches, candidate, order, dive) = make_room(alloc, rows.form(), negated)?;
        let root_work = work_for(rows.form(), negated);
        let engine = EngineAt::over(alloc, TablesSource::shared(rows, clauses)?)?;
        Ok(SearchState {
            engine,
            branches,
            candidate,
            order,
            root_work,
            dive,
        })
    }

    /// A further piece is searched next.
    pub fn begin_piece(&mut self)
        ensures { self.new ≡ self.old }
    {
        self.engine.begin_search();
    }

    /// A further question is asked next.
    pub fn begin_question(&mut self)
        ensures { self.new ≡ self.old }
    {
        self.engine.begin_question();
    }

    /// What the last decision hands down to the node below it.
    pub fn hints(&self) -> Hints {
        match self.branches.last() {
            Some(branch) => branch.hints,
            None => Hints::none(),
        }
    }
}

/// What a state has beside its engine: room for a decision of each variable and for one assignment, the order of decisions,
/// and room for a dive where something is minimised.
fn make_room<C: Coefficient>(
    alloc: Global,
    form: &Form<C>,
    negated: &[Cube],
) -> Result<(Vec<Branch>, Assignment, Order, DivePath), Memory>
    ensures branches { IfOk result (λ t. form.now.vars ≤ vec_capacity t.0) }
    ensures candidate { IfOk result (λ t. length t.1 ≡ form.now.vars) }
{
    let vars = form.vars();
    // A path decides each variable at most once, so it never outgrows this.
    let branches = Vec::with_capacity(alloc, vars as usize)?;
    let candidate = Assignment::new(alloc, vars)?;
    let order = Order::new(alloc, form, negated)?;
    // Where nothing is minimised no search dives, so no room is taken.
    let dive = DivePath::new(alloc, if is_decision(form) { 0 } else { vars })?;
    Ok((branches, candidate, order, dive))
}

/// The work at the root for a search of the form without these cubes, before any of it is done.
fn work_for<C: Coefficient>(form: &Form<C>, negated: &[Cube]) -> RootWork {
    RootWork::new(form.vars(), is_decision(form), negated.len())
}

/// Whether nothing is minimised.
fn is_decision<C: Coefficient>(form: &Form<C>) -> bool {
    form.objective().is_empty()
}
