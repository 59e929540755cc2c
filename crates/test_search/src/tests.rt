//! Searches whose share hands over any bits, searches that run again, and the order of decisions alone.

mod budgets;
mod instances;
mod lenders;
mod order;
mod searches;
mod shares;
mod values;
