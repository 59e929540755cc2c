//! An instance with the search that serves questions about it.

ghost use Rattle.std.specs.Prelude.{◌≡◌, IfErr, IfOk};
ghost use Rattle.pb_questions.specs.Form.{IsFormOf};
ghost use Rattle.pb_questions.specs.Known.{AreAnswersOf};

use pb_clique::normalise_merged;
use pb_inst::{Assignment, Instance, Memory};
use pb_questions::KnownAnswers;
use pb_search::WholeSearch;
use std::alloc::Global;
use std::marker::Model;

/// An instance, its search with what that learned so far, and answers to earlier questions. Contracts see the instance's
/// `Problem`.
#[derive(Drop)]
pub(crate) struct Ready {
    pub(crate) instance: Instance,
    pub(crate) search: WholeSearch,
    pub(crate) known: KnownAnswers,
}

impl Model for Ready {
    ghost use Rattle.pb_inst.specs.Problem.{Problem};
    ghost use Rattle.pb_questions.specs.Form.{IsFormOf};
    ghost use Rattle.pb_questions.specs.Known.{AreAnswersOf};

    ghost Value = { Problem };

    ghost view = { λ r. r.instance };

    ghost invariant = { λ r. IsFormOf r.instance r.search × AreAnswersOf r.instance r.known };
}

impl Ready {
    /// Makes the search. Gives the instance back where memory is refused.
    pub(crate) fn new(alloc: Global, instance: Instance) -> Result<Ready, Instance>
        ensures ready { IfOk result (λ ready. ready ≡ instance) }
        ensures returned { IfErr result (λ returned. returned ≡ instance) }
    {
        match made_for(alloc, &instance) {
            Ok((search, known)) => Ok(Ready {
                instance,
                search,
                known,
            }),
            Err(_) => Err(instance),
        }
    }

    /// The values of an assignment are the first that further searches try.
    pub(crate) fn suggest(&mut self, values: &Assignment)
        ensures { self.new ≡ self.old }
    {
        self.search.suggest(values);
    }

    /// The instance, without what was made for it.
    pub(crate) fn into_instance(self) -> Instance
        ensures { result ≡ self }
    {
        self.instance
    }
}

/// A search of the instance that has learned nothing yet, and room for answers. Fails where memory is refused.
fn made_for(alloc: Global, instance: &Instance) -> Result<(WholeSearch, KnownAnswers), Memory>
    ensures search { IfOk result (λ made. IsFormOf instance.now made.0) }
    ensures known { IfOk result (λ made. AreAnswersOf instance.now made.1) }
{
    let normal = normalise_merged(alloc, instance)?;
    let search = WholeSearch::new(alloc, &normal)?;
    let known = KnownAnswers::new(alloc, instance.vars())?;
    Ok((search, known))
}
