//! Laws of what a run reports.
ghost use Rattle.pb_solve.specs.Laws.{DivisionChangesNothing, OneOutcome, OutcomeIsOfTextAlone};

/// An input has one report, and accepted cubes and splits change nothing of it.
pub fn report_laws()
    ensures one_outcome { OneOutcome }
    ensures division_changes_nothing { DivisionChangesNothing }
    ensures of_text_alone { OutcomeIsOfTextAlone }
{}
