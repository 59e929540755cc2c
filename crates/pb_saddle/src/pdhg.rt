//! PDHG, the method: from the multipliers as they are to better ones, and to a point.
//! Source: [CP11], [A21], [LY24]

ghost use Rattle.pb_saddle.specs.Shifting.{IsSameButShifted};

use crate::floats::{add, at, copy, float, number, put, refill};
use crate::iterate::Iterate;
use crate::plan::Plan;
use crate::problem::{Problem, has_row};
use crate::restart::Restarts;
use crate::scaling::{Scaling, VISITS};
use crate::shifting::shift_to;
use crate::step::Steps;
use pb_count::{Coefficient, Counter};
use pb_dual::Multipliers;
use pb_inst::{Lit, Memory, Number};
use pb_normal::Form;
use std::alloc::Global;

/// The most terms that a form may have, or else nothing is proposed: above, `MOST_VISITS` would end a call before 40 steps,
/// which are too few to be worth it.
const MOST_TERMS: usize = 1_000_000;

/// About how many numbers one call reads at most: some tenths of a second, so that the search never waits long. Chosen by
/// hand.
const MOST_VISITS: u64 = 100_000_000;

/// How many steps there are from one check of the bound to the next. A check costs as much as a step, so checks add 4 %.
const CHECK_INTERVAL: u32 = 25;

/// The gap to the greatest bound, in costs, at which more steps are not worth it. Costs are whole and bounds are rounded up,
/// so a small part of one cost seldom matters. Chosen by hand.
const NEAR: f64 = 1.0 / 64.0;

/// By which part of the bound at the start that gap is wider, since the last 64th of a cost takes too long where bounds are
/// great. Chosen by hand.
const NEAR_PART: f64 = 1.0e-6;

/// Which part of the bound over the base, or of the gap to the limit where that is less, a better bound must gain for its
/// multipliers to be taken. Where it gains less, as beside few rows that were stepped one by one, the old ones stay: they lie
/// between the vertices of the dual, so more reduced costs tell which value is the better one. On knapsacks where the gain is
/// below a thousandth, keeping the old ones took less time in the mean.
const LEAST_GAIN: f64 = 1.0 / 256.0;

/// How far over 0 a bound must be where nothing has a cost, so that it is not over 0 by rounding alone. Chosen by hand.
const REFUTING: f64 = 1.0 / 64.0;

/// Where nothing has a cost, the most that one row's degree promises is scaled to this, 2^40: it rounds little, and a row may
/// promise as much up to 2^22 rows, since all together may promise 2^62 in 64 bits.
const GREATEST_PROMISE: f64 = 1_099_511_627_776.0;

/// The problem that a trail leaves, and where the method stands in it.
pub struct Pdhg {
    /// Whether the form has at most `MOST_TERMS` terms.
    is_open: bool,
    problem: Problem,
    scaling: Scaling,
    steps: Steps,
    x: Iterate,
    y: Iterate,
    /// The y of the best bound so far.
    best: Vec<f64>,
    /// That bound, without the costs of the trail itself and without the constants of negations that have a cost.
    top: f64,
    /// The best y of the last call, by the rows of the form.
    held: Vec<f64>,
    plan: Plan,
}

impl Drop for Pdhg {
    fn drop(self) {
        let Pdhg {
            is_open: _,
            problem: _,
            scaling: _,
            steps: _,
            x: _,
            y: _,
            best: _,
            top: _,
            held: _,
            plan: _,
        } = self;
    }
}

impl Pdhg {
    /// Room for the problems that trails leave of the form; none where it has more than `MOST_TERMS` terms. Fails where there
    /// is no memory; no later call takes any.
    pub fn new<C: Coefficient>(alloc: Global, form: &Form<C>) -> Result<Pdhg, Memory> {
        let terms = form.terms_len();
        let is_open = terms <= MOST_TERMS;
        // A form with too many terms is never loaded, so it takes no memory.
        let (vars, rows, terms) = if is_open {
            (form.vars() as usize, form.len(), terms)
        } else {
            (0, 0, 0)
        };
        Ok(Pdhg {
            is_open,
            problem: Problem::new(alloc, vars, rows, terms)?,
            scaling: Scaling::new(alloc, vars, rows)?,
            steps: Steps::new(alloc, vars)?,
            x: Iterate::new(alloc, vars)?,
            y: Iterate::new(alloc, rows)?,
            best: Vec::with_capacity(alloc, rows)?,
            top: 0.0,
            held: Vec::with_capacity(alloc, rows)?,
            plan: Plan::new(alloc, vars)?,
        })
    }

    /// Improves the multipliers for the trail as it is, by at most `steps` steps from where they are. The steps end once the
    /// bound is over the limit, and none is made where no row is left. The multipliers are shifted for good, each to the nearest
    /// whole number, and only where their bound rises by more than `LEAST_GAIN`. Gives how many numbers were read.
    pub fn improve<C: Coefficient>(
        &mut self,
        multipliers: &mut Multipliers<C>,
        steps: u32,
        limit: Number,
    ) -> u64
        ensures { IsSameButShifted multipliers.old multipliers.new }
    {
        if !self.is_open || !has_row(multipliers) {
            return 0;
        }
        let scale = float(multipliers.scale().number());
        self.load(multipliers);
        self.begin_at(multipliers, scale);
        let start = self.top;
        let end = start + float(multipliers.gap(limit).number()) / scale;
        let visits = self.run(steps, end, nearness(start, end));
        self.hold(multipliers.form().len());
        let height = float(multipliers.height().number()) / scale;
        if self.top - start > less(height, end - start) * LEAST_GAIN {
            self.adopt(multipliers, scale);
        }
        visits
    }

    /// Where nothing has a cost, looks for multipliers that prove that nothing completes the trail, by at most `steps` steps from
    /// 0. Multipliers are shifted for good, and only where such are found. Gives how many numbers were read.
    pub fn refute<C: Coefficient>(&mut self, multipliers: &mut Multipliers<C>, steps: u32) -> u64
        ensures { IsSameButShifted multipliers.old multipliers.new }
    {
        if !self.is_open || !has_row(multipliers) {
            return 0;
        }
        self.load(multipliers);
        self.begin_at_zero();
        // The bound begins at 0, and is at most 0 where the program has a point: so no gap above 0 is near enough.
        let visits = self.run(steps, REFUTING, 0.0);
        self.hold(multipliers.form().len());
        if self.top > REFUTING {
            // Without costs each multiple of these multipliers refutes too, and greater ones lose less by rounding.
            let scale = GREATEST_PROMISE / self.greatest_promise(multipliers);
            self.adopt(multipliers, scale);
        }
        visits
    }

    /// Approaches a point of least cost under the trail as it is, by at most `steps` steps from the last point, and plans anew
    /// in which order its variables are to be decided. Gives how many numbers were read.
    pub fn approach<C: Coefficient>(&mut self, multipliers: &Multipliers<C>, steps: u32) -> u64 {
        if !self.is_open {
            return 0;
        }
        self.load(multipliers);
        self.resume();
        // No limit ends the steps, because the point is wanted here and not a bound that closes the node.
        let visits = self.run(steps, f64::INFINITY, nearness(self.top, f64::INFINITY));
        self.hold(multipliers.form().len());
        self.order(multipliers);
        visits
    }

    /// The value of the variable at the last point, from 0 to 1; 0 where there is no such variable.
    pub fn value(&self, var: u32) -> f64 {
        match (var as usize).checked_sub(1) {
            Some(column) => at(&self.x.target, column),
            None => 0.0,
        }
    }

    /// The literal to decide at this place, from 0, of the order that was planned last. Its variable had no value then. None
    /// behind the last.
    pub fn planned(&self, place: usize) -> Option<Lit> {
        self.plan.literal(place)
    }

    /// Loads the problem that the trail leaves, and scales it.
    fn load<C: Coefficient>(&mut self, multipliers: &Multipliers<C>) {
        self.problem.load(multipliers);
        self.scaling.fit(&self.problem);
        self.steps.begin(&self.problem, &self.scaling);
    }

    /// Begins at the multipliers as they are, where costs are scaled up by `scale`, and at x = 0.
    fn begin_at<C: Coefficient>(&mut self, multipliers: &Multipliers<C>, scale: f64) {
        refill(&mut self.x.current, self.problem.costs.len(), 0.0);
        self.y.current.clear();
        for row in &self.problem.ids {
            if *row < multipliers.form().len() {
                let multiplier = float(multipliers.multiplier(*row).number());
                add(&mut self.y.current, multiplier / scale);
            }
        }
        self.begin();
    }

    /// Begins at x = 0 and y = 0.
    fn begin_at_zero(&mut self) {
        refill(&mut self.x.current, self.problem.costs.len(), 0.0);
        refill(&mut self.y.current, self.problem.ids.len(), 0.0);
        self.begin();
    }

    /// Begins at the last x and at the best y of the last call. A row that was met then begins at 0.
    fn resume(&mut self) {
        // From the last point on, so that the steps of earlier calls are not lost.
        refill(&mut self.x.current, self.problem.costs.len(), 0.0);
        for (current, target) in self.x.current.iter_mut().zip(self.x.target.iter()) {
            *current = *target;
        }
        self.y.current.clear();
        for row in &self.problem.ids {
            add(&mut self.y.current, at(&self.held, *row));
        }
        self.begin();
    }

    /// Begins at the current x and y.
    fn begin(&mut self) {
        self.x.begin();
        self.y.begin();
        self.top = -f64::INFINITY;
        self.check();
    }

    /// Makes `steps` steps, or fewer once the bound is over `end` or, about, within `near` of the greatest, or once more than
    /// `MOST_VISITS` numbers were read. Gives how many numbers were read.
    fn run(&mut self, steps: u32, end: f64, near: f64) -> u64 {
        let size = self.problem.size();
        // The scales were found just before, so their work counts too.
        let mut visits = size.saturating_mul(VISITS);
        let mut restarts = Restarts::new();
        for number in 0..steps {
            if visits > MOST_VISITS || self.top > end {
                break;
            }
            visits = visits.saturating_add(size.saturating_mul(2));
            let length = self
                .steps
                .step(&self.problem, &self.scaling, &mut self.x, &mut self.y);
            if number % CHECK_INTERVAL == CHECK_INTERVAL - 1 {
                visits = visits.saturating_add(size.saturating_mul(2));
                self.check();
                if self.is_near(near) {
                    break;
                }
            }
            self.go_on(&mut restarts, length, number);
        }
        visits
    }

    /// Moves to the target, or beyond it, after a step of this length and number.
    fn go_on(&mut self, restarts: &mut Restarts, length: f64, number: u32) {
        if restarts.is_due(length, number) {
            let far_x = self.x.restart(&self.scaling.columns);
            let far_y = self.y.restart(&self.scaling.rows);
            // The weight changes at a restart alone, since lengths of steps by different weights can't be compared.
            self.steps.adapt(far_x, far_y);
            return;
        }
        let part = restarts.kept_part();
        self.x.reflect(part);
        self.y.reflect(part);
    }

    /// Keeps the target of y, if its bound is the best so far.
    fn check(&mut self) {
        // Not of the current y: that is reflected and may be below 0, where it gives no bound.
        let bound = self.problem.bound(&self.y.target);
        if bound > self.top {
            self.top = bound;
            copy(&mut self.best, &self.y.target);
        }
    }

    /// Whether the best bound is, about, within `near` of the greatest.
    fn is_near(&self, near: f64) -> bool {
        let price = self.problem.price(&self.x.target, &self.y.target);
        price - self.top <= near
    }

    /// Keeps the best y by the `rows` rows of the form. Those that the trail meets have 0.
    fn hold(&mut self, rows: usize) {
        refill(&mut self.held, rows, 0.0);
        for (row, value) in self.problem.ids.iter().zip(self.best.iter()) {
            put(&mut self.held, *row, *value);
        }
    }

    /// Shifts all multipliers to the best y, where costs are scaled up by `scale`.
    fn adopt<C: Coefficient>(&self, multipliers: &mut Multipliers<C>, scale: f64)
        ensures { IsSameButShifted multipliers.old multipliers.new }
    {
        for row in 0..multipliers.form().len() {
            // A half more, because `number` rounds down.
            let nearest = number(at(&self.held, row) * scale + 0.5);
            shift_to(multipliers, row, Counter::nearest(nearest));
        }
    }

    /// The most that the degree of one row promises by the best y.
    fn greatest_promise<C: Coefficient>(&self, multipliers: &Multipliers<C>) -> f64 {
        let mut greatest = 0.0;
        for row in 0..multipliers.form().len() {
            let promise = float(multipliers.degree(row).number()) * at(&self.held, row);
            if promise > greatest {
                greatest = promise;
            }
        }
        greatest
    }

    /// Plans the order in which the variables without a value are to be decided.
    fn order<C: Coefficient>(&mut self, multipliers: &Multipliers<C>) {
        self.plan.clear();
        for column in 0..multipliers.form().vars() {
            let var = column + 1;
            if let Ok(lit) = Lit::new(var, true)
                && multipliers.is_free(lit)
            {
                let place = column as usize;
                let cost = self.problem.reduced_cost(place, &self.y.target);
                self.plan.push(var, at(&self.x.target, place), cost);
            }
        }
        self.plan.sort();
    }
}

/// The gap to the greatest bound, about, at which more steps are not worth it, where the bound began at `start`. Beside `NEAR`
/// it is at most a 256th of the way to `end`, since near there a little more may close the node.
fn nearness(start: f64, end: f64) -> f64 {
    NEAR + less(start.abs() * NEAR_PART, (end - start) / 256.0)
}

/// The less of the two.
fn less(one: f64, other: f64) -> f64 {
    if other < one { other } else { one }
}
