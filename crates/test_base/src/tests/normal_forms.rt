//! Normal forms of worked instances, at both widths.

use super::texts::instance_of;
use super::written::is_literal;
use pb_clique::normalise_merged;
use pb_count::Coefficient;
use pb_inst::{Instance, Magnitude, Memory, Number};
use pb_normal::{Form, FormTerm, Normal, PositiveTerms, Width, normalise};
use std::alloc::Global;
use std::process::Abort;

/// Coefficients and literals.
type Terms = &'static [(Magnitude, i32)];

/// The width of a form's numbers.
#[derive(Clone, Copy, PartialEq, Eq)]
enum Bits {
    Of64Bits,
    Of128Bits,
}

/// A text of OPB, and the normal form of its instance: its base and objective, and each row as its degree and terms.
struct Case {
    name: &'static str,
    text: &'static [u8],
    width: Bits,
    base: Number,
    objective: Terms,
    rows: &'static [(Magnitude, Terms)],
}

/// Half of the bound on sums, rounded down.
const HALF: Magnitude = 42_535_295_865_117_307_932_921_825_928_971_026_431;

/// 2^62: two of them are a sum that 64 bits do not hold.
const QUARTER: Magnitude = 4_611_686_018_427_387_904;

const CASES: &[Case] = &[
    Case {
        name: "opposite literals are merged",
        text: b"2 x1 3 ~x1 >= 3 ;",
        width: Bits::Of64Bits,
        base: 0,
        objective: &[],
        rows: &[(1, &[(1, -1)])],
    },
    Case {
        name: "coefficients are clipped to the degree",
        text: b"5 x1 1 x2 >= 2 ;",
        width: Bits::Of64Bits,
        base: 0,
        objective: &[],
        rows: &[(2, &[(2, 1), (1, 2)])],
    },
    Case {
        name: "at most and a negative objective are negated",
        text: b"min: -2 x1 -2 x2 ; 1 x1 1 x2 <= 1 ;",
        width: Bits::Of64Bits,
        base: -4,
        objective: &[(2, -1), (2, -2)],
        rows: &[(1, &[(1, -1), (1, -2)])],
    },
    Case {
        name: "an equality is split in order",
        text: b"2 x1 2 x2 = 3 ;",
        width: Bits::Of64Bits,
        base: 0,
        objective: &[],
        rows: &[(3, &[(2, 1), (2, 2)]), (1, &[(1, -1), (1, -2)])],
    },
    Case {
        name: "negative coefficients are turned",
        text: b"-3 x1 2 ~x1 >= -2 ;",
        width: Bits::Of64Bits,
        base: 0,
        objective: &[],
        rows: &[(1, &[(1, -1)])],
    },
    Case {
        name: "what always holds is dropped",
        text: b"1 x1 >= 0 ;",
        width: Bits::Of64Bits,
        base: 0,
        objective: &[],
        rows: &[],
    },
    Case {
        name: "a row without terms is kept",
        text: b"0 x1 >= 1 ;",
        width: Bits::Of64Bits,
        base: 0,
        objective: &[],
        rows: &[(1, &[])],
    },
    Case {
        name: "great opposite literals are merged",
        text: b"4611686018427387903 x1 4611686018427387903 ~x1 >= 1 ;",
        width: Bits::Of64Bits,
        base: 0,
        objective: &[],
        rows: &[],
    },
    Case {
        name: "opposite literals are merged at the bound on sums",
        text: b"42535295865117307932921825928971026431 x1 42535295865117307932921825928971026431 ~x1 >= 1 ;",
        width: Bits::Of64Bits,
        base: 0,
        objective: &[],
        rows: &[],
    },
];

const WIDTHS: &[Case] = &[
    Case {
        name: "a sum of coefficients is wide",
        text: b"4611686018427387904 x1 4611686018427387904 x2 >= 9223372036854775807 ;",
        width: Bits::Of128Bits,
        base: 0,
        objective: &[],
        rows: &[(2 * QUARTER - 1, &[(QUARTER, 1), (QUARTER, 2)])],
    },
    Case {
        name: "a sum just below is not",
        text: b"4611686018427387904 x1 4611686018427387903 x2 >= 9223372036854775807 ;",
        width: Bits::Of64Bits,
        base: 0,
        objective: &[],
        rows: &[(2 * QUARTER - 1, &[(QUARTER, 1), (QUARTER - 1, 2)])],
    },
    Case {
        name: "a degree is wide",
        text: b"1 x1 >= 9223372036854775808 ;",
        width: Bits::Of128Bits,
        base: 0,
        objective: &[],
        rows: &[(2 * QUARTER, &[(1, 1)])],
    },
    Case {
        name: "the greatest degree is wide",
        text: b"1 x1 >= 85070591730234615865843651857942052862 ;",
        width: Bits::Of128Bits,
        base: 0,
        objective: &[],
        rows: &[(2 * HALF, &[(1, 1)])],
    },
    Case {
        name: "the degree cuts coefficients down",
        text: b"42535295865117307932921825928971026431 x1 42535295865117307932921825928971026431 x2 >= 1 ;",
        width: Bits::Of64Bits,
        base: 0,
        objective: &[],
        rows: &[(1, &[(1, 1), (1, 2)])],
    },
    Case {
        name: "the greatest objective is wide",
        text: b"min: 85070591730234615865843651857942052863 x1 ;",
        width: Bits::Of128Bits,
        base: 0,
        objective: &[(2 * HALF + 1, 1)],
        rows: &[],
    },
    Case {
        name: "an objective is wide",
        text: b"min: 9223372036854775808 x1 ;",
        width: Bits::Of128Bits,
        base: 0,
        objective: &[(2 * QUARTER, 1)],
        rows: &[],
    },
    Case {
        name: "an objective just below is not",
        text: b"min: 9223372036854775807 x1 ;",
        width: Bits::Of64Bits,
        base: 0,
        objective: &[(2 * QUARTER - 1, 1)],
        rows: &[],
    },
    Case {
        name: "the base alone is great",
        text: b"min: 42535295865117307932921825928971026431 x1 42535295865117307932921825928971026431 ~x1 ;",
        width: Bits::Of64Bits,
        base: HALF as Number,
        objective: &[],
        rows: &[],
    },
];

const CLIQUES: &[Case] = &[
    Case {
        name: "three clauses become one row",
        text: b"min: 1 x1 ; 1 x1 1 x2 >= 1 ; 1 x2 1 x3 >= 1 ; 1 x1 1 x3 >= 1 ;",
        width: Bits::Of64Bits,
        base: 0,
        objective: &[(1, 1)],
        rows: &[(2, &[(1, 1), (1, 2), (1, 3)])],
    },
    Case {
        name: "clauses in any spelling, with literals of both signs",
        text: b"1 x1 1 ~x2 >= 1 ; 1 x2 -1 x3 <= 0 ; -1 ~x1 -1 ~x3 >= -1 ;",
        width: Bits::Of64Bits,
        base: 0,
        objective: &[],
        rows: &[(2, &[(1, 1), (1, -2), (1, 3)])],
    },
    Case {
        name: "what a clique says is left out, and all else stays before it",
        text: b"1 x1 1 x2 <= 1 ; 1 x1 1 x4 >= 1 ; 1 x1 1 x3 <= 1 ; 1 x2 1 x3 <= 1 ;",
        width: Bits::Of64Bits,
        base: 0,
        objective: &[],
        rows: &[(1, &[(1, 1), (1, 4)]), (2, &[(1, -1), (1, -2), (1, -3)])],
    },
    Case {
        name: "without three literals there is no clique",
        text: b"1 x1 1 x2 <= 1 ; 1 x2 1 x3 <= 1 ; 1 x1 1 x3 = 1 ;",
        width: Bits::Of64Bits,
        base: 0,
        objective: &[],
        rows: &[
            (1, &[(1, -1), (1, -2)]),
            (1, &[(1, -2), (1, -3)]),
            (1, &[(1, 1), (1, 3)]),
            (1, &[(1, -1), (1, -3)]),
        ],
    },
];

/// Whether these are the terms.
fn are<C: Coefficient>(terms: &[FormTerm<C>], expected: &[(Magnitude, i32)]) -> bool {
    if terms.len() != expected.len() {
        return false;
    }
    for i in 0..terms.len() {
        let (coef, literal) = expected[i];
        if terms[i].coef().number() != coef || !is_literal(terms[i].lit(), literal) {
            return false;
        }
    }
    true
}

fn has_rows<C: Coefficient>(form: &Form<C>, rows: &[(Magnitude, Terms)]) -> bool {
    if form.len() != rows.len() {
        return false;
    }
    for i in 0..form.len() {
        let (degree, terms) = rows[i];
        if form.degree(i).number() != degree || !are(form.terms(i), terms) {
            return false;
        }
    }
    true
}

fn is_case<C: Coefficient>(form: &Form<C>, case: &Case) -> bool {
    form.base() == case.base && are(form.objective(), case.objective) && has_rows(form, case.rows)
}

/// Whether the form at its width has the width, the cost and the rows of the case.
fn is_case_at_width(normal: &Normal, case: &Case) -> bool {
    match normal.form() {
        Width::Narrow(form) => case.width == Bits::Of64Bits && is_case(form, case),
        Width::Wide(form) => case.width == Bits::Of128Bits && is_case(form, case),
    }
}

/// Whether these are the terms, read without regard to their width.
fn read_alike(terms: &PositiveTerms<'_>, expected: &[(Magnitude, i32)]) -> bool {
    if terms.len() != expected.len() || terms.is_empty() != expected.is_empty() {
        return false;
    }
    for i in 0..terms.len() {
        let (term, (coef, literal)) = (terms.get(i), expected[i]);
        if term.coef != coef || !is_literal(term.lit, literal) {
            return false;
        }
    }
    true
}

fn has_rows_alike(normal: &Normal, rows: &[(Magnitude, Terms)]) -> bool {
    if normal.len() != rows.len() {
        return false;
    }
    for i in 0..normal.len() {
        let (degree, terms) = rows[i];
        if normal.degree(i) != degree || !read_alike(&normal.terms(i), terms) {
            return false;
        }
    }
    true
}

/// Whether the form has the width, the cost and the rows of the case, by the calls of its width and by those of any.
fn is_normal_form(normal: &Normal, case: &Case) -> bool {
    is_case_at_width(normal, case)
        && normal.base() == case.base
        && read_alike(&normal.objective(), case.objective)
        && has_rows_alike(normal, case.rows)
}

/// How a normal form is made of an instance.
#[derive(Clone, Copy)]
enum Made {
    OfAllRows,
    WithCliques,
}

fn form_made(alloc: Global, instance: &Instance, way: Made) -> Result<Normal, Memory> {
    match way {
        Made::OfAllRows => normalise(alloc, instance),
        Made::WithCliques => normalise_merged(alloc, instance),
    }
}

fn normal_form(rt: &impl Abort, alloc: Global, instance: &Instance, way: Made) -> Normal {
    match form_made(alloc, instance, way) {
        Ok(form) => form,
        Err(_) => form_made(alloc, instance, way).expect(rt, "memory"),
    }
}

fn assert_all(rt: &impl Abort, alloc: Global, cases: &[Case], way: Made) {
    for case in cases {
        let instance = instance_of(rt, alloc, case.text);
        let normal = normal_form(rt, alloc, &instance, way);
        assert!(rt; is_normal_form(&normal, case), "{}", case.name);
    }
}

#[test]
fn worked_constraints(rt: HostRuntime) {
    assert_all(&rt, rt.alloc(), CASES, Made::OfAllRows);
}

#[test]
fn the_least_width_is_taken(rt: HostRuntime) {
    assert_all(&rt, rt.alloc(), WIDTHS, Made::OfAllRows);
}

#[test]
fn cliques_stand_in_place_of_their_clauses(rt: HostRuntime) {
    assert_all(&rt, rt.alloc(), CLIQUES, Made::WithCliques);
}
