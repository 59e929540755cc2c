//! How rows are counted: no coefficient counts more than what is left of its row's degree once the literals at a search's
//! root have their values. Every completion of those values still meets the rows, and the same multipliers give a bound that
//! is as high or higher.
//! Source: [CJP83], [CK05]

ghost use Rattle.std.specs.Prelude.{◌≡◌, ◌<◌, IfOk, length, min, vec_len};
ghost use Rattle.pb_dual.specs.Saturation.{AreWhole};

use pb_count::{Coefficient, Counter};
use pb_inst::Memory;
use pb_normal::Form;
use std::alloc::Global;
use std::marker::Model;

/// How a row is counted: no coefficient of it more than `most`, and its degree as this.
#[derive(Clone, Copy)]
pub struct Saturation<C: Coefficient> {
    pub most: Counter<C>,
    pub degree: Counter<C>,
}

impl<C: Coefficient> Model for Saturation<C> {
    ghost use Rattle.pb_dual.specs.Saturation.{Saturation as Counting};

    ghost Value = { Counting };

    ghost view = { λ s. record { most = s.most; degree = s.degree } };

    ghost inverse = { λ s. record { most = s.most; degree = s.degree } };
}

/// All rows count as they are: no coefficient is over its row's degree.
pub fn whole_rows<C: Coefficient>(
    alloc: Global,
    form: &Form<C>,
) -> Result<Vec<Saturation<C>>, Memory>
    ensures { IfOk result (λ saturations. AreWhole form.now.rows saturations.items) }
{
    form.facts();
    let mut saturations = Vec::with_capacity(alloc, form.len())?;
    for row in 0..form.len() {
        let degree = form.degree(row);
        saturations.push_reserved(Saturation {
            most: degree,
            degree,
        });
    }
    Ok(saturations)
}
