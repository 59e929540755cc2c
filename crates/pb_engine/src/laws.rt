//! Laws of the clauses of cubes that are to be false.

ghost use Rattle.pb_engine.specs.Laws.{ClausesAreUnique, ClausesSayCubesAreFalse};

/// The clauses of cubes, as `EngineAt::new` and `Clauses::new` make them, are met exactly where every one of the cubes is false;
/// and what is said of them leaves no choice: cubes have one list of clauses.
pub fn clause_laws()
    ensures met { ClausesSayCubesAreFalse }
    ensures one_list { ClausesAreUnique }
{}
