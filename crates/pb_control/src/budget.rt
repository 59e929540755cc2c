//! A budget of decisions.

ghost use Rattle.std.specs.Prelude.{◌≡◌, ◌≢◌, Some};
ghost use Rattle.pb_control.specs.Budget.{one_more};

/// Takes one decision off what is left, where there is a budget.
pub fn count_down(left: &mut Option<u64>)
    requires { left.old ≢ Some 0 }
    ensures { left.old ≡ one_more left.new }
{
    if let Some(count) = *left {
        *left = Some(count - 1);
    }
}
