//! Laws of reports.
ghost use Rattle.pb_report.specs.Laws.{OptimumIsReadBack, AttainedIsReadBack, SatisfiableIsReadBack, InfeasibleIsReadBack, UnknownIsReadBack, MemoryIsReadBack, RefusalIsReadBack};

/// Each report that this crate writes claims what it was written of, and nothing else. So `read_report`, given its bytes, the
/// same format and the same number of variables, answers that, unless memory is refused.
pub fn reading_laws()
    ensures optimum { OptimumIsReadBack }
    ensures attained { AttainedIsReadBack }
    ensures satisfiable { SatisfiableIsReadBack }
    ensures infeasible { InfeasibleIsReadBack }
    ensures unknown { UnknownIsReadBack }
    ensures memory { MemoryIsReadBack }
    ensures refusal { RefusalIsReadBack }
{}
