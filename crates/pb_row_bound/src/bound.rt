//! The bound of disjoint rows: the base, what the trail pays, and the contributions of rows that share no variable without a
//! value.
//! Source: [C96], [MM02]

ghost use Rattle.std.specs.Prelude.{◌≡◌, ◌+◌, ◌≤◌, false, length, replicate, ◌≤ℤ◌, pos, neg_ℤ};
ghost use Rattle.pb_inst.specs.declared.limits.TheConstants.{SUM_BOUND};
ghost use Rattle.pb_normal.specs.NormalForm.{total_coefficient};
ghost use Rattle.pb_trail.specs.Completion.{IsLowerBound};
ghost use Rattle.pb_trail.specs.Trail.{reached};
ghost use Rattle.pb_row_bound.specs.DisjointRows.{row_contributions, disjoint_bound};
ghost use Rattle.pb_row_bound.specs.Deficits.{AreDeficits};

use crate::deficits::Deficits;
use crate::row_contributions::row_contributions;
use pb_bits::Marks;
use pb_count::Coefficient;
use pb_inst::{Magnitude, Number};
use pb_trail::TrailView;

/// What the trail pays, plus the contributions of the picked rows.
pub fn payment<C: Coefficient>(
    trail: &TrailView<'_, C>,
    deficits: &mut Deficits<C>,
    marks: &mut Marks,
) -> Magnitude
    requires deficits { AreDeficits C.limit trail.now.form trail.now.rows trail.now.trail deficits.old }
    requires marks { length marks.old ≡ trail.now.vars }
    ensures payment { result ≡ reached trail.now.trail trail.now.form.objective + row_contributions trail.now.form.objective trail.now.trail (replicate trail.now.form.vars false) trail.now.rows }
    ensures small { result ≤ total_coefficient trail.now.form.objective }
    ensures deficits { AreDeficits C.limit trail.now.form trail.now.rows trail.now.trail deficits.new }
    ensures marks { length marks.new ≡ length marks.old }
{
    trail.tables().facts();
    // Without an objective nothing is paid, so the deficits need not follow the trail.
    if trail.form().objective().is_empty() {
        return 0;
    }
    deficits.count(trail);
    let contributions = row_contributions(deficits, marks, trail);
    (deficits.paid() + contributions).number()
}

/// The base plus the payment, which is what the trail pays and the contributions: at most the cost of every completion of the
/// trail.
pub fn bound_with<C: Coefficient>(trail: &TrailView<'_, C>, payment: Magnitude) -> Number
    requires payment { payment ≡ reached trail.now.trail trail.now.form.objective + row_contributions trail.now.form.objective trail.now.trail (replicate trail.now.form.vars false) trail.now.rows }
    requires small { payment ≤ total_coefficient trail.now.form.objective }
    ensures value { result ≡ disjoint_bound trail.now.form trail.now.rows trail.now.trail }
    ensures bound { IsLowerBound trail.now.form trail.now.rows trail.now.trail result }
    ensures range { (neg_ℤ (pos SUM_BOUND) ≤ℤ result) × (result ≤ℤ pos SUM_BOUND) }
{
    trail.tables().facts();
    trail.form().base() + payment as Number
}
