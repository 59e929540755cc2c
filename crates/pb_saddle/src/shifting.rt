//! Multipliers that are shifted for good.

ghost use Rattle.std.specs.Prelude.{◌<◌, length};
ghost use Rattle.pb_saddle.specs.Shifting.{IsSameButShifted};

use pb_count::{Coefficient, Counter};
use pb_dual::{Multipliers, Signed};

/// Shifts the multiplier of the row to this number, or as near to it as its range allows, for good: the change can't be taken
/// back. Where there is no room for a change the multiplier stays.
pub fn shift_to<C: Coefficient>(multipliers: &mut Multipliers<C>, row: usize, to: Counter<C>)
    requires { row < length multipliers.old.form.rows }
    ensures { IsSameButShifted multipliers.old multipliers.new }
{
    let amount = Signed::of(to).minus(Signed::of(multipliers.multiplier(row)));
    if !amount.is_zero() && multipliers.has_room() {
        multipliers.shift(row, amount);
        // Keeping empties the list of changes, so that there is room for the next row's.
        multipliers.keep();
    }
}
