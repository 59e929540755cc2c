//! When multipliers are used: as long as they cost little or save what they cost, and not in a trial.

use pb_lagrange::Effort;

/// The effort of `nodes` nodes, at each of which multipliers looked at `terms` terms, beside rows of `all` terms.
fn used_beside(all: u64, nodes: u32, terms: usize) -> Effort {
    let mut effort = Effort::new(all);
    for _ in 0..nodes {
        effort.count_search(1);
        effort.count_use(terms);
    }
    effort
}

/// The effort where there are no rows beside.
fn used_at(nodes: u32, terms: usize) -> Effort {
    used_beside(0, nodes, terms)
}

/// Where multipliers cost much and close nothing they are no longer used, except for a share of what the search itself costs:
/// so they may be used again once the search has gone on.
#[test]
fn what_saves_nothing_is_left(rt: HostRuntime) {
    let mut effort = used_at(1_000, 10);
    assert!(rt; effort.is_open());
    effort = used_at(1_000, 10_000);
    assert!(rt; !effort.is_open());
    assert!(rt; !effort.pays());
    for _ in 0..1_000_000u32 {
        effort.count_search(1);
    }
    assert!(rt; effort.is_open());
}

/// Beside many terms multipliers may cost more at first. Where they close nothing they are given up all the same, and for good
/// except for that share.
#[test]
fn a_great_credit_ends(rt: HostRuntime) {
    let mut effort = used_beside(100_000, 300, 100_000);
    assert!(rt; effort.is_open());
    effort = used_beside(100_000, 500, 100_000);
    assert!(rt; !effort.is_open());
    let mut uses = 0_u32;
    for _ in 0..1_000_000u32 {
        effort.count_search(1);
        if effort.is_open() {
            effort.count_use(100_000);
            uses = uses.saturating_add(1);
        }
    }
    assert!(rt; uses < 400);
}

/// A trial tells what the search takes for a subtree without a closing, and all closings after it count as saving that much.
#[test]
fn what_saves_more_than_it_costs_stays(rt: HostRuntime) {
    let mut effort = Effort::new(0);
    let mut closed = 0_u32;
    for _ in 0..2_000u32 {
        effort.count_search(1);
        effort.count_use(1_000);
        if effort.close(3) {
            closed = closed.saturating_add(1);
        } else {
            assert!(rt; !effort.is_open());
            for _ in 0..100u32 {
                effort.count_search(1);
            }
            effort.step_back(2);
        }
    }
    assert!(rt; effort.pays());
    assert!(rt; effort.is_open());
    assert!(rt; closed > 1_800);
}

/// A trial ends once it took twice what a closing costs on average, or once the search is back above its node.
#[test]
fn a_trial_ends(rt: HostRuntime) {
    let mut effort = used_at(15, 1_000);
    for _ in 0..15u32 {
        assert!(rt; effort.close(7));
    }
    assert!(rt; !effort.close(7));
    effort.step_back(7);
    assert!(rt; !effort.is_open());
    for _ in 0..40u32 {
        effort.count_search(1);
    }
    assert!(rt; effort.is_open());
    for _ in 0..17u32 {
        effort.close(7);
    }
    assert!(rt; !effort.is_open());
    effort.step_back(6);
    assert!(rt; effort.is_open());
}
