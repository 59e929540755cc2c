//! A planner's session: two jobs, of which one has to be done, and a sum that is too large. The library for C takes numbers of 64
//! bits, by which no sum is too large.

use pb_inst::{InstFault, Lit, Number, Relation};
use pb_session::{Session, SessionFault};
use pb_solve::Status;

// The test holds its session with no way out before its end, and calls it through helpers without a contract: it looks at
// answers alone, and the clauses of the calls would make its proof ten times as long.

/// Tells a sum of positive variables with these coefficients.
fn tell(session: &mut Session, sum: &[(Number, u32)]) -> Result<(), SessionFault> {
    for &(coef, var) in sum {
        session.term(coef, Lit::new(var, true)?)?;
    }
    Ok(())
}

/// Costs 3 and 2, and at least one of the two.
fn tell_jobs(session: &mut Session) -> Result<(), SessionFault> {
    tell(session, &[(3, 1), (2, 2)])?;
    session.end_objective()?;
    tell(session, &[(1, 1), (1, 2)])?;
    session.end(Relation::AtLeast, 1)
}

fn end(session: &mut Session) -> Result<(), SessionFault> {
    session.end(Relation::AtMost, 0)
}

fn end_objective(session: &mut Session) -> Result<(), SessionFault> {
    session.end_objective()
}

/// The status of a search, and whether it was cut.
fn solve(session: &mut Session) -> Result<(Status, bool), SessionFault> {
    let ran = session.solve(None)?;
    Ok((ran.status, ran.cut))
}

#[test]
fn refusals_change_nothing(rt: HostRuntime) {
    let mut session = Session::new(rt.alloc());
    assert!(rt; tell_jobs(&mut session).is_ok());
    assert!(rt; tell(&mut session, &[(Number::MAX, 7)]).is_ok());
    let too_large = SessionFault::Statement(InstFault::TooLarge);
    assert!(rt; end(&mut session) == Err(too_large));
    assert!(rt; end_objective(&mut session) == Err(too_large));
    assert!(rt; solve(&mut session) == Err(SessionFault::Unended));
    session.discard();
    assert!(rt; session.vars() == 2);
    assert!(rt; solve(&mut session) == Ok((Status::Optimum, false)));
    assert!(rt; session.cost() == Some(2));
}
