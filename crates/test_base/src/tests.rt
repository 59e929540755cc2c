//! Worked values from outside, as tables. Each call that takes memory is made once more where its memory was refused, so
//! every test also passes with any one allocation refused, and then shows that the refusal was answered as such and
//! changed nothing.

mod instances;
mod normal_forms;
mod pieces;
mod texts;
mod values;
mod written;
