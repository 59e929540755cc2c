//! What a node hands down, so that nodes below it do not begin again at the first variable.

/// What a node hands down to those below it. No answer depends on it, so nothing is promised of it.
#[derive(Clone, Copy)]
pub struct Hints {
    /// How many variables were left in the order of decisions; the others had values.
    pub left: u32,
    /// How many variables, from the first on, were found to have values.
    pub settled: u32,
    /// How many literals were decided one after another because of ties alone.
    pub ties: u32,
}

impl Hints {
    /// The hints at the root: none.
    pub fn none() -> Hints {
        Hints {
            left: u32::MAX,
            settled: 0,
            ties: 0,
        }
    }

    /// Whether a bound is to be taken here. Where decisions are counted, one is taken before each of them. Else, where ties alone
    /// are settled, the bound that was taken above tells of the next tie too. So it is taken anew each time twice as many
    /// literals were decided: rows as long as the instance are not looked at for each of its variables, and the search goes at
    /// most twice as far down as where a bound would have closed the node.
    pub fn is_bound_due(&self, is_counted: bool) -> bool {
        is_counted || self.ties == 0 || self.ties.is_power_of_two()
    }
}
