//! Rows that lie in other groups at each level of a set.

ghost use Rattle.std.specs.Prelude.{◌≡◌, ◌^◌, ◌<◌, length};

use pb_bits::RowSet;
use std::alloc::Global;
use std::process::Abort;

const ROWS: usize = 600_000;

/// Rows in one word, in one group, and in groups of groups of their own.
const MEMBERS: [usize; 7] = [3, 65, 66, 5_000, 270_000, 270_001, 599_999];

/// The set of those of the members that are below the number of rows.
fn set_of(rt: &impl Abort, alloc: Global, rows: usize, members: &[usize]) -> RowSet
    requires { rows < 2 ^ 63 }
    ensures { length result ≡ rows }
{
    let mut set = RowSet::new(alloc, rows).expect(rt, "memory");
    for &row in members {
        put(&mut set, rows, row, true);
    }
    set
}

/// Makes the row a member of the set of `rows` rows, or takes it out, if there is such a row.
fn put(set: &mut RowSet, rows: usize, row: usize, member: bool)
    requires { length set.old ≡ rows }
    ensures { length set.new ≡ rows }
{
    if row < rows {
        set.put(row, member);
    }
}

/// The first member from a row on. It has no contract, since its clauses would make the proofs of the tests long.
fn next(set: &RowSet, from: usize) -> Option<usize> {
    set.next(from)
}

#[test]
fn goes_from_member_to_member(rt: HostRuntime) {
    let mut set = set_of(&rt, rt.alloc(), ROWS, &MEMBERS);
    let mut from = 0;
    for row in MEMBERS {
        assert!(rt; next(&set, from) == Some(row));
        from = row.wrapping_add(1);
    }
    assert!(rt; next(&set, from).is_none());
    put(&mut set, ROWS, 270_000, false);
    assert!(rt; next(&set, 5_001) == Some(270_001));
}

/// A number of rows at which looking at each word takes a thousand times as long as looking at the groups of groups.
const MANY_ROWS: usize = 1 << 26;

// No contract bounds time. A gap is passed by its groups, so two hundred thousand gaps are passed in a moment. Word by word
// that would take more than the minute that a test is given.
#[test]
fn a_gap_is_passed_by_its_groups(rt: HostRuntime) {
    let set = set_of(&rt, rt.alloc(), MANY_ROWS, &[3, MANY_ROWS - 1]);
    for from in 4..200_000 {
        assert!(rt; next(&set, from) == Some(MANY_ROWS - 1));
    }
}
