//! The best assignment found so far.

ghost use Rattle.std.specs.Prelude.{◌≡◌, ◌↔◌, None, Some, length, IsTrue, IfOk, IfSome, if◌then◌else◌};
ghost use Rattle.std.specs.Option.{option_copied, option_map};
ghost use Rattle.pb_inst.specs.Incumbent.{HasLeadingZeros, IsSound, Improves, solution_of};
ghost use Rattle.pb_inst.specs.Meaning.{IsFeasible};

use crate::{Assignment, Instance, Memory, Number, precedes};
use std::alloc::Global;
use std::marker::Model;

/// Nothing, or an assignment that the instance's `check` accepts, and its cost. Contracts see an `Incumbent`.
#[derive(Drop)]
pub struct Best<'i> {
    instance: &'i Instance,
    cost: Option<Number>,
    assignment: Assignment,
    /// How many variables at the start the assignment makes false, counted once for all comparisons with it.
    leading_zeros: u32,
}

impl<'i> Model for Best<'i> {
    ghost use Rattle.pb_inst.specs.Incumbent.{Incumbent};

    ghost Value = { Incumbent };

    ghost use Rattle.std.specs.Prelude.{◌≡◌, length};
    ghost use Rattle.std.specs.Option.{option_map};
    ghost use Rattle.pb_inst.specs.Incumbent.{HasLeadingZeros, IsSound};

    ghost view = { λ b. record { problem = b.instance.now; held = option_map (λ c. record { cost = c; assignment = b.assignment }) b.cost } };

    ghost invariant = { λ b. (length b.assignment ≡ b.instance.now.vars) × IsSound (record { problem = b.instance.now; held = option_map (λ c. record { cost = c; assignment = b.assignment }) b.cost }) × HasLeadingZeros b.assignment b.leading_zeros };
}

impl<'i> Best<'i> {
    /// An incumbent that holds nothing yet, with memory for any assignment that it will hold. Fails where memory is refused.
    pub fn none(alloc: Global, instance: &'i Instance) -> Result<Best<'i>, Memory>
        ensures { IfOk result (λ best. best ≡ record { problem = instance.now; held = None }) }
    {
        let room = Assignment::new(alloc, instance.vars())?;
        Ok(Best::within(instance, room))
    }

    /// An incumbent that holds nothing yet, and will copy what it holds into `room`, an assignment to the instance's
    /// variables. Takes no memory.
    pub fn within(instance: &'i Instance, room: Assignment) -> Best<'i>
        requires { length room ≡ instance.now.vars }
        ensures { result ≡ record { problem = instance.now; held = None } }
    {
        let leading_zeros = leading_zeros(&room);
        Best {
            instance,
            cost: None,
            assignment: room,
            leading_zeros,
        }
    }

    /// Gives the room back, which is the assignment that is held, if one is.
    pub fn into_room(self) -> Assignment
        ensures count { length result ≡ self.entry.problem.vars }
        ensures held { IfSome self.entry.held (λ s. result ≡ s.assignment) }
    {
        match self.cost {
            Some(_) => self.assignment,
            None => self.assignment,
        }
    }

    /// The cost of the assignment that is held, if one is.
    pub fn cost(&self) -> Option<Number>
        ensures value { result ≡ option_map (λ s. s.cost) self.now.held }
        ensures sound { IsSound self.now }
    {
        self.cost
    }

    /// The assignment that is held, if one is.
    pub fn assignment(&self) -> Option<&Assignment>
        ensures value { option_copied result ≡ option_map (λ s. s.assignment) self.now.held }
        ensures sound { IsSound self.now }
    {
        match self.cost {
            Some(_) => Some(&self.assignment),
            None => None,
        }
    }

    /// How many variables come before the first one that the assignment held makes true, all where it makes none true.
    pub fn leading_zeros(&self) -> u32
        ensures { IfSome self.now.held (λ s. HasLeadingZeros s.assignment result) }
    {
        self.leading_zeros
    }

    /// Copies in the assignment, which is to the instance's variables, and answers true, where it is feasible and either
    /// comes before what is held or nothing is held. Else it changes nothing and answers false. Takes no memory.
    pub fn take(&mut self, assignment: &Assignment) -> bool
        requires { length assignment.now ≡ self.old.problem.vars }
        ensures decides { IsTrue result ↔ (IsFeasible self.old.problem assignment.now × Improves assignment.now self.old) }
        ensures same_instance { self.new.problem ≡ self.old.problem }
        ensures held { self.new.held ≡ (if result then Some (solution_of self.old.problem assignment.now) else self.old.held) }
        ensures sound { IsSound self.new }
        ensures was_sound { IsSound self.old }
    {
        let Some(cost) = self.instance.check(assignment) else {
            return false;
        };
        if let Some(held) = self.cost
            && !precedes(cost, assignment, held, &self.assignment)
        {
            return false;
        }
        self.assignment.copy_from(assignment);
        self.leading_zeros = leading_zeros(assignment);
        self.cost = Some(cost);
        true
    }
}

/// How many variables come before the first one that the assignment makes true, all where it makes none true.
fn leading_zeros(assignment: &Assignment) -> u32
    ensures { HasLeadingZeros assignment.now result }
{
    for place in 0..assignment.len() {
        if assignment.get(place + 1) {
            return place;
        }
    }
    assignment.len()
}
