//! The same course with counters of 64 and of 128 bits.

use super::forms::{Terms, form, is_fixed};
use super::player::Player;
use pb_count::Coefficient;
use pb_inst::{Magnitude, Number};
use std::alloc::Global;
use std::process::Abort;

/// What an engine says between two steps: its bound, the value of each variable, and the slack of each row.
type Look = (Number, Vec<Option<bool>>, Vec<Option<Magnitude>>);

fn look<C: Coefficient>(rt: &impl Abort, alloc: Global, player: &mut Player<C>) -> Look {
    let mut values = Vec::new(alloc);
    for var in 1..=player.vars() {
        values.push(player.value(rt, var)).expect(rt, "memory");
    }
    let mut slacks = Vec::new(alloc);
    for row in 0..player.rows() {
        slacks.push(player.slack(rt, row)).expect(rt, "memory");
    }
    (player.bound(), values, slacks)
}

/// Assumes the literal where it can be assumed, and propagates.
fn step<C: Coefficient>(rt: &impl Abort, player: &mut Player<C>, number: i32) {
    if player.conflict(rt) || player.value(rt, number.unsigned_abs()).is_some() {
        return;
    }
    if is_fixed(player.assume(rt, number)) {
        let _found = player.propagate(rt);
    }
}

/// What an engine says as it assumes all variables one after another with one sign, and undoes them all.
fn course<C: Coefficient>(
    rt: &impl Abort,
    alloc: Global,
    player: &mut Player<C>,
    sign: i32,
) -> Vec<Look> {
    let mut looks = Vec::new(alloc);
    for var in 1..=player.vars() {
        let number = i32::try_from(var).expect(rt, "a number");
        step(rt, player, sign.wrapping_mul(number));
        looks.push(look(rt, alloc, player)).expect(rt, "memory");
    }
    player.undo_to(rt, 0);
    looks.push(look(rt, alloc, player)).expect(rt, "memory");
    looks
}

/// The looks of a course over an engine of this width, false values first.
fn looks<C: Coefficient>(
    rt: &impl Abort,
    alloc: Global,
    vars: u32,
    costs: Terms<'_>,
    rows: &[(Terms<'_>, Number)],
) -> (Vec<Look>, Vec<Look>) {
    let form = form::<C>(rt, alloc, vars, costs, rows);
    let mut player = Player::new(rt, alloc, &form, &[]);
    let negative = course(rt, alloc, &mut player, -1);
    (negative, course(rt, alloc, &mut player, 1))
}

/// Whether engines of both widths say the same.
fn agree(
    rt: &impl Abort,
    alloc: Global,
    vars: u32,
    costs: Terms<'_>,
    rows: &[(Terms<'_>, Number)],
) -> bool {
    let narrow = looks::<u64>(rt, alloc, vars, costs, rows);
    narrow == looks::<u128>(rt, alloc, vars, costs, rows)
}

#[test]
fn wide_counters_say_the_same(rt: HostRuntime) {
    let rows: &[(Terms<'_>, Number)] = &[
        (&[(3, 1), (2, 2), (1, 3)], 4),
        (&[(1, -1), (1, 4), (2, 5)], 2),
        (&[(4, -3), (3, -4), (2, -5), (1, 6)], 5),
    ];
    let costs: Terms<'_> = &[(2, 1), (3, -2), (1, 3), (5, 4), (7, 6)];
    assert!(rt; agree(&rt, rt.alloc(), 6, costs, rows));
}

#[test]
fn wide_counters_say_the_same_of_great_sums(rt: HostRuntime) {
    let great = 3_000_000_000_000_000_000;
    let rows: &[(Terms<'_>, Number)] = &[
        (&[(great, 1), (great, 2), (1, 3)], great),
        (&[(great, -1), (great, 3)], 1),
    ];
    let costs: Terms<'_> = &[(great, 1), (great, 2)];
    assert!(rt; agree(&rt, rt.alloc(), 3, costs, rows));
}

/// The bound of an engine over a row of two literals that cost this, and whether it has multipliers.
fn first_bound(rt: &impl Abort, alloc: Global, costs: Terms<'_>) -> (Number, bool) {
    let form = form::<u128>(rt, alloc, 2, costs, &[(&[(1, 1), (1, 2)], 1)]);
    let mut player = Player::new(rt, alloc, &form, &[]);
    (player.bound(), player.multipliers_pay())
}

/// Costs beyond 64 bits are counted: with multipliers where at least a scale of 1 fits, and else without.
#[test]
fn bounds_by_costs_beyond_64_bits(rt: HostRuntime) {
    let found = first_bound(&rt, rt.alloc(), &[(1 << 100, 1), (1 << 101, 2)]);
    assert!(rt; found == (1 << 100, true));
    let found = first_bound(&rt, rt.alloc(), &[(1 << 120, 1), (1 << 121, 2)]);
    assert!(rt; found == (1 << 120, false));
}
