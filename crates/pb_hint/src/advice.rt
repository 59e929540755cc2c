//! What to write in place of a word.
use crate::rules::Rule;
use thiserror::Error;

/// What to write in place of a word that was refused.
#[derive(Clone, Copy, Debug, PartialEq, Eq, Error)]
pub enum Advice {
    /// This spelling.
    #[error("write {0}")]
    Write(&'static str),
    /// The objective is to be maximised.
    #[error("write min: of the negated sum")]
    Minimise,
    /// A constraint has a name.
    #[error("no constraint has a name: leave it out, with its colon")]
    Unname,
    /// No statement begins with such a word.
    #[error("begin a statement with a number, or with min:, and name variables x1, x2 and so on")]
    Begin,
    /// A statement ends twice.
    #[error("one ; ends a statement: leave this one out")]
    EndOnce,
    /// A sum stands in parentheses.
    #[error("no parentheses are read: multiply out, as 2 x1 2 x2 for 2 (x1 + x2)")]
    Expand,
    /// A number has more than a sign and digits.
    #[error("write a number with digits alone, as 1000 for 1e3 or 1,000")]
    Digits,
    /// Constraints are soft.
    #[error("no soft constraint is read: give each a variable that satisfies it, with its weight in min:")]
    Harden,
    /// A term has a second literal.
    #[error("no product is read: put a new variable in its place, with constraints that make it equal to the product")]
    Linearise,
    /// A variable has a number out of range.
    #[error("variables are numbered from 1 to {0}")]
    Renumber(u64),
    /// A variable has a number over the one that the header tells.
    #[error("variables are numbered from 1 to {0}, as the header says")]
    RenumberAsTold(u64),
    /// A literal has no number before it.
    #[error("write a number before each literal, as 1 x1")]
    Weigh,
    /// A literal has a sign in place of a number.
    #[error("write 1 ~x1 for the negation of x1, or -1 x1 for a negative coefficient")]
    Negate,
    /// A sign stands alone.
    #[error("write the sign with a number, without a space, as -1 x1")]
    Sign,
    /// A number and a literal are one word.
    #[error("write a space between a number and its literal, and no *, as 2 x1")]
    Part,
    /// A number is no whole one.
    #[error("numbers are whole: multiply all numbers of the statement by the same one")]
    MakeWhole,
    /// A variable has a name of its own.
    #[error("variables are named x1, x2 and so on")]
    Rename,
    /// The relation is strict.
    #[error("write >= and the least number allowed, as >= 2 for > 1")]
    AtLeast,
    /// It is strict the other way round.
    #[error("write <= and the greatest number allowed, as <= 1 for < 2")]
    AtMost,
    /// The relation excludes one number.
    #[error("no != is read: write two constraints with a new variable, which chooses a sum below the number or above it")]
    Choose,
    /// The relation stands behind a number, or a second one follows.
    #[error("write the sum on the left and one number on the right, and two relations as two constraints")]
    Turn,
    /// A literal stands on the right side.
    #[error("one number alone stands on the right: write all literals on the left")]
    MoveLeft,
    /// A constraint has no relation, or no number behind it.
    #[error("end a constraint with >=, <= or =, and a number")]
    Relate,
    /// A statement begins before the last one ends.
    #[error("end the statement before it with ;")]
    End,
    /// A relation follows the terms of the objective, which as a rule does not end.
    #[error("the objective has no relation: end it with ; before the first constraint")]
    EndObjective,
    /// A comment stands behind a statement.
    #[error("write a comment on a line of its own")]
    Separate,
    /// A comment begins as one of another format, or stands behind a clause.
    #[error("begin a comment with {0}, on a line of its own")]
    Comment(&'static str),
    /// A line begins with the mark that ends a text of clauses, and more lines follow.
    #[error("a line that begins with % ends the text: begin a comment with c")]
    GoOn,
    /// A header stands behind another one.
    #[error("one header stands before all clauses: leave this one out")]
    HeadOnce,
    /// A blank is none of ASCII, or a comma separates words.
    #[error("separate words by spaces of ASCII alone")]
    Space,
    /// A mark of negation stands alone.
    #[error("write ~ with its variable, without a space, as ~x1")]
    Attach,
    /// The objective has a number without a literal.
    #[error("no constant stands in the objective: leave it out, and add it to each cost")]
    DropConstant,
    /// The sum of a constraint has one.
    #[error("no constant stands in a sum: subtract it from the number on the right")]
    MoveConstant,
    /// A literal of a clause is no number.
    #[error("write a literal as the number of its variable, as 2, or -2 for its negation")]
    Number,
    /// A zero has a sign.
    #[error("write 0 at the end, since variables are numbered from 1")]
    Zero,
    /// A cube stands among the clauses of a format without cubes.
    #[error("write cubes as iCNF, whose header is p inccnf, or into a file of their own")]
    Cube,
    /// The line does not keep to this rule.
    #[error("{0}")]
    Keep(Rule),
}
