//! The normal form of an instance, at the width that its sums need.

ghost use Rattle.std.specs.Prelude.{◌≡◌, ◌<◌, length, slice_get, IsSomeAnd, IfOk};
ghost use Rattle.pb_normal.specs.Exact.{IsNormalFormOf};
ghost use Rattle.pb_normal.specs.NormalForm.{KeepsFeasible, KeepsCost, IsNormal};
ghost use Rattle.pb_normal.specs.Widths.{lent};

use crate::forms::{Form, form_of};
use crate::positive_terms::PositiveTerms;
use crate::unbuilt::Unbuilt;
use pb_inst::{Instance, Magnitude, Memory, Number};
use std::alloc::{AllocError, Global};
use std::marker::Model;

/// What is kept at one of two widths.
#[derive(Drop)]
pub enum Width<N, W> {
    /// It counts in 64 bits.
    Narrow(N),
    /// It counts in 128 bits.
    Wide(W),
}

/// The normal form of an instance: rows of positive terms, and the cost as a base and positive terms. It is kept in numbers
/// of 64 bits where the sums of its rows and of its objective are below 2^63, else in numbers of 128. Contracts see a
/// `NormalForm`.
pub struct Normal {
    form: Width<Form, Form<u128>>,
}

impl Model for Normal {
    ghost use Rattle.pb_normal.specs.NormalForm.{NormalForm};
    ghost use Rattle.pb_normal.specs.Widths.{either};

    ghost Value = { NormalForm };

    ghost view = { λ n. either n.form };
}

impl Drop for Normal {
    fn drop(self) {
        let Normal { form: _ } = self;
    }
}

impl Normal {
    /// The form at its width.
    pub fn form(&self) -> Width<&Form, &Form<u128>>
        ensures { lent result ≡ self.now }
    {
        match &self.form {
            Width::Narrow(form) => Width::Narrow(form),
            Width::Wide(form) => Width::Wide(form),
        }
    }

    /// The number of variables: they are 1 to `vars`, as in the instance.
    pub fn vars(&self) -> u32
        ensures value { result ≡ self.now.vars }
        ensures normal { IsNormal self.now }
    {
        match &self.form {
            Width::Narrow(form) => form.vars(),
            Width::Wide(form) => form.vars(),
        }
    }

    /// The number of rows, at most two for each constraint, so at most `2 * MAX_CONSTRAINTS`.
    pub fn len(&self) -> usize
        ensures value { result ≡ length self.now.rows }
        ensures normal { IsNormal self.now }
    {
        match &self.form {
            Width::Narrow(form) => form.len(),
            Width::Wide(form) => form.len(),
        }
    }

    /// The terms of row i, from 0, by rising variable: coefficients of 1 up to the degree. There may be none.
    pub fn terms(&self, i: usize) -> PositiveTerms<'_>
        requires { i < length self.now.rows }
        ensures { IsSomeAnd (slice_get self.now.rows i) (λ row. row.terms ≡ result) }
    {
        match &self.form {
            Width::Narrow(form) => PositiveTerms::narrow(form.terms(i)),
            Width::Wide(form) => PositiveTerms::wide(form.terms(i)),
        }
    }

    /// What the terms of row i, from 0, must add up to: at least 1, and at most `SUM_BOUND`.
    pub fn degree(&self, i: usize) -> Magnitude
        requires { i < length self.now.rows }
        ensures { IsSomeAnd (slice_get self.now.rows i) (λ row. row.degree ≡ result) }
    {
        match &self.form {
            Width::Narrow(form) => form.degree(i).number(),
            Width::Wide(form) => form.degree(i).number(),
        }
    }

    /// The cost where no literal of the objective is true. Without regard to the constraints it is the least cost.
    pub fn base(&self) -> Number
        ensures value { result ≡ self.now.base }
        ensures normal { IsNormal self.now }
    {
        match &self.form {
            Width::Narrow(form) => form.base(),
            Width::Wide(form) => form.base(),
        }
    }

    /// The terms that the cost adds to the base, by rising variable. The base and all of them are at most `SUM_BOUND`.
    pub fn objective(&self) -> PositiveTerms<'_>
        ensures value { result ≡ self.now.objective }
        ensures normal { IsNormal self.now }
    {
        match &self.form {
            Width::Narrow(form) => PositiveTerms::narrow(form.objective()),
            Width::Wide(form) => PositiveTerms::wide(form.objective()),
        }
    }
}

/// The normal form of the instance. The rows stand in the order of their constraints, an equality's `>=` before its `<=`;
/// a constraint that always holds has no row. Takes time in proportion to the terms, except for sorting those of each constraint.
/// `Memory` says that a growth of memory was refused.
pub fn normalise(alloc: Global, instance: &Instance) -> Result<Normal, Memory>
    ensures exact { IfOk result (λ form. IsNormalFormOf instance.now form) }
    ensures variables { IfOk result (λ form. form.vars ≡ instance.now.vars) }
    ensures feasible { IfOk result (λ form. KeepsFeasible instance.now form) }
    ensures cost { IfOk result (λ form. KeepsCost instance.now form) }
    ensures normal { IfOk result (λ form. IsNormal form) }
{
    match form_of(alloc, instance) {
        Ok(form) => Ok(Normal {
            form: Width::Narrow(form),
        }),
        Err(Unbuilt::Memory) => Err(AllocError),
        Err(Unbuilt::TooWide) => wide(alloc, instance),
    }
}

/// The normal form in numbers of 128 bits, whose limit is above all sums.
fn wide(alloc: Global, instance: &Instance) -> Result<Normal, Memory>
    ensures exact { IfOk result (λ form. IsNormalFormOf instance.now form) }
    ensures variables { IfOk result (λ form. form.vars ≡ instance.now.vars) }
    ensures feasible { IfOk result (λ form. KeepsFeasible instance.now form) }
    ensures cost { IfOk result (λ form. KeepsCost instance.now form) }
    ensures normal { IfOk result (λ form. IsNormal form) }
{
    match form_of(alloc, instance) {
        Ok(form) => Ok(Normal {
            form: Width::Wide(form),
        }),
        Err(Unbuilt::Memory) => Err(AllocError),
        Err(Unbuilt::TooWide) => unreachable!(),
    }
}
