//! What the order begins with: each variable's activity, what conflicts add to it, and the literal that is tried first. No
//! answer depends on it, so nothing is promised.

ghost use Rattle.std.specs.Prelude.{◌≤◌};

use crate::activity::{BUMP, VariableActivity};
use pb_count::Coefficient;
use pb_inst::{Cube, Lit, Memory};
use pb_normal::{Form, FormTerm};
use std::alloc::Global;
use std::num::nearest_u64_to_f64;

/// How much speaks for a variable before any conflict, scaled up. The greatest score stands for all that are greater, since
/// coefficients may be wider than a score.
type Score = u64;

/// By how much quotients are scaled up, 2^24: so quotients up to 2^40 fit, and those that differ by 2^-24 are told apart.
const SCALE: Score = HALF_SCALE * HALF_SCALE;

/// The scale as a float.
const SCALE_AS_FLOAT: f64 = 16_777_216.0;

/// The square root of the scale. Each factor of a product is divided by it first, so that the product is scaled only once.
const HALF_SCALE: Score = 4096;

/// An activity for each variable. It begins below what one conflict adds, by the variable's score: (1 + cost / mean cost)
/// times the sum of coefficient / degree over the variable's rows. A conflict adds 1 + cost / mean cost. Where few variables
/// have a cost, these get a head start. Where cubes are to be false, their variables get a head start for each occurrence in
/// them.
pub fn initial_activities<C: Coefficient>(
    alloc: Global,
    form: &Form<C>,
    scores: &[LiteralScores],
    negated: &[Cube],
) -> Result<Vec<VariableActivity>, Memory> {
    let scores = static_scores(alloc, form, scores)?;
    let mut activities = activities_of(alloc, &scores)?;
    add_costs(&mut activities, form.objective());
    lead_by_costs(&mut activities, form.objective());
    // The clauses of the remainder are over the cubes' variables alone, so with these decided early they soon propagate.
    let counts = occurrences(alloc, form.vars(), negated)?;
    give_head_starts(&mut activities, &counts);
    Ok(activities)
}

/// For each variable the literal that costs nothing, and the negative one where neither costs, since of equally good
/// assignments the one with 0 first is the answer. Where nothing is minimised, the literal that does more for its rows, by the
/// sum of coefficient / degree, and the negative one where both do as much.
pub fn initial_phases<C: Coefficient>(
    alloc: Global,
    form: &Form<C>,
    scores: &[LiteralScores],
) -> Result<Vec<Lit>, Memory> {
    let is_decision = form.objective().is_empty();
    let mut phases = Vec::with_capacity(alloc, form.vars() as usize)?;
    for place in 0..form.vars() {
        let positive = is_decision && does_more(scores.get(place as usize));
        if let Ok(lit) = Lit::new(place + 1, positive) {
            phases.push(lit)?;
        }
    }
    for term in form.objective() {
        let costly = term.lit();
        if let Some(lit) = phases.get_mut(costly.var() as usize - 1) {
            *lit = costly.negate();
        }
    }
    Ok(phases)
}

/// Whether the variable does more for its rows than its negation.
fn does_more(scores: Option<&LiteralScores>) -> bool {
    match scores {
        Some(scores) => scores.positive > scores.negative,
        None => false,
    }
}

/// The activities by score, as shares of the greatest one.
fn activities_of(alloc: Global, scores: &[Score]) -> Result<Vec<VariableActivity>, Memory> {
    let most = greatest(scores);
    let mut activities = Vec::with_capacity(alloc, scores.len())?;
    for score in scores {
        // Less than one bump, so that before any conflict the order is the static one, and after it conflicts decide.
        let share = ratio(*score, most).min(SCALE - 1);
        activities.push(VariableActivity {
            activity: float(share),
            bump: BUMP,
        })?;
    }
    Ok(activities)
}

/// The greatest score, at least 1, so that it can be divided by.
fn greatest(scores: &[Score]) -> Score {
    let mut most = 1;
    for score in scores {
        most = most.max(*score);
    }
    most
}

/// Adds cost / mean cost to each variable's bump.
fn add_costs<C: Coefficient>(activities: &mut [VariableActivity], objective: &[FormTerm<C>]) {
    let mean = mean_cost(objective);
    for term in objective {
        if let Some(entry) = activities.get_mut(term.lit().var() as usize - 1) {
            entry.bump += float(wide_ratio(coefficient(term), mean));
        }
    }
}

/// Gives each variable with a cost a head start, where few have one. Decided first, they tell early what the rest will cost;
/// where most have a cost, the few without one would come last, whatever their rows say.
fn lead_by_costs<C: Coefficient>(activities: &mut [VariableActivity], objective: &[FormTerm<C>]) {
    if objective.len() > activities.len() / VARIABLES_OF_A_COST {
        return;
    }
    for term in objective {
        if let Some(entry) = activities.get_mut(term.lit().var() as usize - 1) {
            entry.activity += HEAD_START;
        }
    }
}

/// How many variables there must be for each one with a cost, so that those with a cost get a head start. So a criterion over
/// some of the variables leads, as in questions of package managers: one took over 10 seconds without it, and 0.33 with it.
/// 4 was chosen by hand.
const VARIABLES_OF_A_COST: usize = 4;

/// Gives each variable a head start for each of its occurrences.
fn give_head_starts(activities: &mut [VariableActivity], counts: &[u64]) {
    for i in 0..counts.len() {
        if let Some(entry) = activities.get_mut(i) {
            entry.activity += HEAD_START * nearest_u64_to_f64(counts[i]);
        }
    }
}

/// What each occurrence in a cube that is to be false, or a cost where few variables have one, adds to the initial activity:
/// one bump, so that it outweighs every score, and conflicts can still outweigh it.
const HEAD_START: f64 = BUMP;

/// What speaks for the two literals of a variable: for each the sum of coefficient / degree over its rows.
#[derive(Clone, Copy)]
pub struct LiteralScores {
    positive: Score,
    negative: Score,
}

/// The scores of the literals of each variable.
pub fn literal_scores<C: Coefficient>(
    alloc: Global,
    form: &Form<C>,
) -> Result<Vec<LiteralScores>, Memory> {
    let none = LiteralScores {
        positive: 0,
        negative: 0,
    };
    let vars = form.vars() as usize;
    let mut scores = vec![in alloc; none; vars]?;
    for row in 0..form.len() {
        let degree = form.degree(row).number();
        add_row(&mut scores, form.terms(row), degree);
    }
    Ok(scores)
}

/// Adds coefficient / degree to the score of each literal of the row.
fn add_row<C: Coefficient>(scores: &mut [LiteralScores], terms: &[FormTerm<C>], degree: u128) {
    for term in terms {
        let lit = term.lit();
        if let Some(scores) = scores.get_mut(lit.var() as usize - 1) {
            let share = wide_ratio(coefficient(term), degree);
            if lit.positive() {
                scores.positive = scores.positive.saturating_add(share);
            } else {
                scores.negative = scores.negative.saturating_add(share);
            }
        }
    }
}

/// The score of each variable, before any conflict.
fn static_scores<C: Coefficient>(
    alloc: Global,
    form: &Form<C>,
    scores: &[LiteralScores],
) -> Result<Vec<Score>, Memory> {
    let mut totals = Vec::with_capacity(alloc, scores.len())?;
    for scores in scores {
        totals.push(scores.positive.saturating_add(scores.negative))?;
    }
    raise_by_cost(&mut totals, form.objective());
    Ok(totals)
}

/// Multiplies the score of each variable by 1 + cost / mean cost.
fn raise_by_cost<C: Coefficient>(scores: &mut [Score], objective: &[FormTerm<C>]) {
    let mean = mean_cost(objective);
    for term in objective {
        if let Some(score) = scores.get_mut(term.lit().var() as usize - 1) {
            let share = wide_ratio(coefficient(term), mean) / HALF_SCALE;
            *score = score.saturating_add((*score / HALF_SCALE).saturating_mul(share));
        }
    }
}

/// The mean coefficient, at least 1, so that it can be divided by.
fn mean_cost<C: Coefficient>(objective: &[FormTerm<C>]) -> u128 {
    let mut total: u128 = 0;
    for term in objective {
        total = total.saturating_add(coefficient(term));
    }
    let count = objective.len() as u128;
    (total / count.max(1)).max(1)
}

/// The term's coefficient.
fn coefficient<C: Coefficient>(term: &FormTerm<C>) -> u128 {
    term.coef().number()
}

/// The scaled quotient of numbers of any width. Of numbers that are wider than a score only the leading bits count, since an
/// order needs no more.
fn wide_ratio(part: u128, whole: u128) -> Score {
    let excess = Score::BITS.saturating_sub((part | whole).leading_zeros());
    ratio(leading(part, excess), leading(whole, excess))
}

/// The number without its last bits, of which there are `excess`; the greatest score where it is still wider.
fn leading(number: u128, excess: u32) -> Score
    requires { excess ≤ 64 }
{
    (number >> excess).min(Score::MAX as u128) as Score
}

/// The number that the scaled one stands for.
fn float(scaled: Score) -> f64 {
    nearest_u64_to_f64(scaled) / SCALE_AS_FLOAT
}

/// The scaled quotient. Where the part is too large to be scaled, the whole is scaled down.
fn ratio(part: Score, whole: Score) -> Score {
    if part <= Score::MAX / SCALE {
        part * SCALE / whole.max(1)
    } else {
        part / (whole / SCALE).max(1)
    }
}

/// How often each variable occurs in the cubes.
fn occurrences(alloc: Global, vars: u32, cubes: &[Cube]) -> Result<Vec<u64>, Memory> {
    let mut counts = vec![in alloc; 0; vars as usize]?;
    for cube in cubes {
        count(&mut counts, cube.lits());
    }
    Ok(counts)
}

/// Counts the variables of the literals.
fn count(counts: &mut [u64], lits: &[Lit]) {
    for lit in lits {
        if let Some(count) = counts.get_mut(lit.var() as usize - 1) {
            *count = count.saturating_add(1);
        }
    }
}
