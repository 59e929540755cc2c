//! What a search makes of the bits that are handed over, and what it tells its share.

ghost use Rattle.std.specs.Prelude.{◌≡◌};

use super::instances::{Cover, Ring, instance, ring_cover};
use super::lenders::{Lender, Notes};
use super::searches::{WHOLE, found_after, search_each};
use super::values::{Values, holding};
use pb_inst::{Instance, Number, SUM_BOUND};
use std::alloc::Global;
use std::process::Abort;

/// `min: 2 x1 3 x2 1 x3` with `x1 + x2 >= 1` and `x2 + x3 >= 1`: x1 and x3 cost 3, and so does x2, which comes first.
const TIED: Cover<'_> = Cover {
    vars: 3,
    costs: &[(2, 1), (3, 2), (1, 3)],
    pairs: &[(1, 2), (2, 3)],
};

/// `min: 1 x1 1 x65` with `x1 + x65 = 1`.
const FIRST_OR_LAST: Cover<'_> = Cover {
    vars: 65,
    costs: &[(1, 1), (1, 65)],
    pairs: &[(1, 65), (-1, -65)],
};

/// What is held at first, if anything is, what is handed over in turn, and whether the share pretends where that is nothing.
type Lending<'a> = (Option<Values>, &'a [Values], bool);

/// Infeasible bits are dropped, and a costly assignment is improved. What is held is replaced by what costs the same and comes
/// first, whether the share has nothing to hand over or pretends that it handed something over.
const TO_TIED: &[Lending<'_>] = &[
    (None, &[(0, 0)], false),
    (None, &[(0b111, 0)], false),
    (Some((0b101, 0)), &[], false),
    (Some((0b101, 0)), &[], true),
];

const BOTH: Values = (1, 1);

const NEITHER: Values = (0, 0);

const FIRST: Values = (1, 0);

const ALL: Values = (u64::MAX, u64::MAX);

/// Of what is handed over in turn one assignment is feasible, and comes second.
const TO_FIRST_OR_LAST: &[Lending<'_>] = &[
    (None, &[BOTH, NEITHER, FIRST, ALL], false),
    (None, &[NEITHER, FIRST, ALL, BOTH], false),
    (None, &[FIRST, ALL, BOTH, NEITHER], false),
    (None, &[ALL, BOTH, NEITHER, FIRST], false),
];

/// In each case the search ends with this cost and these values.
fn ends_with(
    rt: &impl Abort,
    alloc: Global,
    cover: Cover<'_>,
    lendings: &[Lending<'_>],
    want: (Number, u64, u64),
) -> bool {
    let instance = instance(rt, alloc, cover);
    let mut is_right = true;
    for (held, lent, pretends) in lendings {
        let mut share = Lender::new(lent, *pretends);
        is_right &= found_after(rt, alloc, &instance, *held, &mut share) == Some(want);
    }
    is_right
}

#[test]
fn whatever_is_handed_over_the_least_is_found(rt: HostRuntime) {
    let alloc = rt.alloc();
    assert!(rt; ends_with(&rt, alloc, TIED, TO_TIED, (3, 0b10, 0)));
    assert!(rt; ends_with(&rt, alloc, FIRST_OR_LAST, TO_FIRST_OR_LAST, (1, 0, 1)));
}

/// What the share was asked and told by `count` searches of the tied instance, each of which begins with what the one before it
/// left.
fn told_by_searches(rt: &impl Abort, alloc: Global, count: u32) -> Notes {
    let tied = instance(rt, alloc, TIED);
    let mut share = Lender::new(&[], false);
    let mut best = holding(rt, alloc, &tied, None);
    for _turn in 0..count {
        assert!(rt; search_each(rt, alloc, &tied, &[WHOLE], &mut best, &mut share));
    }
    share.notes
}

/// The share is asked at the beginning, when nothing is held, and is told of what the search found itself. What is held
/// already is not offered again.
#[test]
fn the_share_is_asked_and_told(rt: HostRuntime) {
    let alloc = rt.alloc();
    let once = told_by_searches(&rt, alloc, 1);
    assert!(rt; once.asked == 1 && once.last_offered == 3);
    assert!(rt; once.first_below == SUM_BOUND as Number);
    let twice = told_by_searches(&rt, alloc, 2);
    assert!(rt; twice.asked == 2 && twice.last_below == 3);
    assert!(rt; twice.offered == once.offered);
}

/// What is found where these values are handed over in turn. The search asks for more than five of them, and at most `most`
/// times.
fn found_on_the_way(
    rt: &impl Abort,
    alloc: Global,
    instance: &Instance,
    lent: &[Values],
    most: u64,
) -> Option<(Number, u64, u64)> {
    let mut share = Lender::new(lent, false);
    let found = found_after(rt, alloc, instance, None, &mut share);
    let asked = share.notes.asked;
    assert!(rt; 5 < asked && asked <= most);
    found
}

/// All variables but the second of each of the first few eights, of none at first and at last of eleven.
const NEARLY_ALL: &[Values] = &[
    ALL,
    (0xffff_ffff_ffff_fffd, u64::MAX),
    (0xffff_ffff_ffff_fdfd, u64::MAX),
    (0xffff_ffff_fffd_fdfd, u64::MAX),
    (0xffff_ffff_fdfd_fdfd, u64::MAX),
    (0xffff_fffd_fdfd_fdfd, u64::MAX),
    (0xffff_fdfd_fdfd_fdfd, u64::MAX),
    (0xfffd_fdfd_fdfd_fdfd, u64::MAX),
    (0xfdfd_fdfd_fdfd_fdfd, u64::MAX),
    (0xfdfd_fdfd_fdfd_fdfd, 0xffff_ffff_ffff_fffd),
    (0xfdfd_fdfd_fdfd_fdfd, 0xffff_ffff_ffff_fdfd),
    (0xfdfd_fdfd_fdfd_fdfd, 0xffff_ffff_fffd_fdfd),
];

const WITH_CHORDS: Ring<'_> = Ring {
    size: 120,
    factor: 7,
    steps: &[1, 2, 5, 11],
    doubled: 120,
};

/// Whatever is handed over on the way, the answer is the same.
#[test]
fn assignments_handed_over_on_the_way(rt: HostRuntime) {
    let alloc = rt.alloc();
    let cover = ring_cover(&rt, alloc, WITH_CHORDS);
    let want = found_on_the_way(&rt, alloc, &cover, &[], 28);
    let found = found_on_the_way(&rt, alloc, &cover, NEARLY_ALL, 28);
    assert!(rt; want.is_some() && found == want);
}

/// Of any three neighbours on a ring of 40 two are chosen, as few as can be. Pairs that are there twice let the search begin
/// elsewhere than the answer does.
const TWO_OF_THREE: Ring<'_> = Ring {
    size: 40,
    factor: 0,
    steps: &[1, 2],
    doubled: 20,
};

/// The least choice of two of three: all places but those that three divides, and the last.
const LEAST_CHOICE: u64 = 0xed_b6db_6db6;

/// It turned round the ring in all other ways.
fn turned(rt: &impl Abort, alloc: Global) -> Vec<Values> {
    let mut lent = Vec::new(alloc);
    for turn in 1..40u32 {
        let turned = LEAST_CHOICE.wrapping_shr(turn) | LEAST_CHOICE.wrapping_shl(40 - turn);
        lent.push((turned & 0xff_ffff_ffff, 0)).expect(rt, "memory");
    }
    lent
}

/// Turned round the ring a choice costs the same, so what is handed over on the way may come before the best so far.
#[test]
fn equal_costs_handed_over_on_the_way(rt: HostRuntime) {
    let alloc = rt.alloc();
    let cover = ring_cover(&rt, alloc, TWO_OF_THREE);
    let lent = turned(&rt, alloc);
    let found = found_on_the_way(&rt, alloc, &cover, &lent, 160);
    assert!(rt; found == Some((27, LEAST_CHOICE, 0)));
}
